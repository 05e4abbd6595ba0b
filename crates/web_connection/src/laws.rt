//! What holds of all steps of an answer: a law is the contract of a function that does nothing.

ghost use Rattle.std.specs.Prelude.{◌≤◌, ◌++◌, ℕ, Bool, false, List, length, Result};
ghost use Rattle.std.specs.List.{concat};
ghost use Rattle.std.specs.declared.alloc.AllocError.{AllocError};
ghost use Rattle.records.specs.Contents.{Content, IsClosed};
ghost use Rattle.archive.specs.declared.fault.StoreFault.{StoreFault};
ghost use Rattle.history_report.specs.declared.report.Form.TheVariants as form;
ghost use Rattle.history_report.specs.declared.report.Report.{Report};
ghost use Rattle.history_report.specs.Parts.{row_times};
ghost use Rattle.web_request.specs.declared.answer.Kind.{Kind};
ghost use Rattle.web_request.specs.declared.answer.Kind.TheVariants.{Csv};
ghost use Rattle.web_request.specs.declared.page.Question.{Question};
ghost use Rattle.web_connection.specs.Answers.{BeginsHistory, BeginsPage, WebState, report_of};
ghost use Rattle.web_connection.specs.Sent.{MakesAll, MakesPieces, SendsCsv, SendsPage};
ghost use Rattle.web_connection.specs.declared.step.WebStep.{WebStep};

/// All that goes out of a history that was begun, from its first byte to the end of the answer, over
/// as many steps as that takes, is its head, and as a body the page or the CSV of what was held when
/// it was begun, whatever the archive learned in between. Or the answer was broken off, for a fault
/// of the store or for want of memory, and as CSV also for a value that has no text. Then the body is
/// the page or the CSV up to a line of it, and without the end that chunks have.
pub fn a_history_is_sent_whole()
    ensures page { (R : Content) (question : Question) (chunked : Bool) (begun : List ℕ)
        (web : WebState) (pieces : List (List ℕ)) (faults : List StoreFault)
        (ended : Result WebStep AllocError) → IsClosed R
        → BeginsPage R question false chunked begun web.sending
        → MakesAll R web pieces faults ended
        → SendsPage R question chunked faults ended (begun ++ concat pieces) }
    ensures csv { (R : Content) (question : Question) (chunked : Bool) (begun : List ℕ)
        (web : WebState) (pieces : List (List ℕ)) (faults : List StoreFault)
        (ended : Result WebStep AllocError) → IsClosed R
        → BeginsHistory R Csv (report_of question form.Csv) false chunked begun web.sending
        → MakesAll R web pieces faults ended
        → SendsCsv R question chunked faults ended (begun ++ concat pieces) }
{}

/// A history that was begun comes to its end: there are as many steps behind which there is more to
/// answer as there are rows at most.
pub fn a_history_ends()
    ensures { (R : Content) (kind : Kind) (report : Report) (chunked : Bool) (begun : List ℕ)
        (web now : WebState) (pieces : List (List ℕ)) → IsClosed R
        → BeginsHistory R kind report false chunked begun web.sending
        → MakesPieces R web now pieces → length pieces ≤ length (row_times R report) }
{}
