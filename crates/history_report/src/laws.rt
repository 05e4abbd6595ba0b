//! What holds of all pages: a law is the contract of a function that does nothing.

ghost use Rattle.std.specs.Prelude.{◌≡◌, ◌≤◌, ◌∷◌, ◌++◌, [], ℕ, ℤ, int_lt, List, filter, take, length, Some, Err, true, false};
ghost use Rattle.std.specs.List.{concat, list_any};
ghost use Rattle.history_report.specs.Html.{escaped, is_markup, IsPath, has_forbidden, printable_after, said, page_row, texts_in};
ghost use Rattle.records.specs.Contents.{Content, IsClosed};
ghost use Rattle.history_report.specs.declared.fault.ReportFault.{ReportFault};
ghost use Rattle.history_report.specs.declared.fault.ReportFault.TheVariants.{NoText};
ghost use Rattle.history_report.specs.declared.report.Report.{Report};
ghost use Rattle.history_report.specs.Reports.{IsHeader, is_in_stretch, values_asked, changes_asked};
ghost use Rattle.history_report.specs.Parts.{HasTextless, IsPartEnd, IsPrinted, IsPrintedPart, IsPrintedStart, part_before, rest_from, row_times};
ghost use Rattle.history_report.specs.Portions.{AreFirstPortions, ArePortions, BeginsPart, IsNextPortion, IsWhole, Remainder};

/// No text in a page has a byte that begins or ends a tag, or an attribute's value, and neither has
/// a drawing's path.
#[tactic(auto, using(crate::proofs::HtmlLemmas::escaped_plain, crate::proofs::HtmlLemmas::path_plain))]
pub fn a_pages_text_holds_no_markup()
    ensures texts { (text : List ℕ) → list_any is_markup (escaped text) ≡ false }
    ensures paths { (path : List ℕ) → IsPath path → list_any is_markup path ≡ false }
{}

/// A text in a page says that text, with its forbidden controls replaced, whatever it is; and so it
/// says the text itself, where that has none.
#[tactic(auto, using(crate::proofs::HtmlLemmas::escaped_said, crate::proofs::HtmlLemmas::escaped_same))]
pub fn a_pages_text_is_read_again()
    ensures shown { (text : List ℕ) → said (escaped text) ≡ printable_after 0 text }
    ensures same { (text : List ℕ) → has_forbidden 0 text ≡ false → said (escaped text) ≡ text }
{}

/// Between the tags of a row stand the texts of its fields but for the node, in their order, and
/// between the end of one and the start of the next nothing: so no text begins or ends a tag.
#[tactic(auto, using(crate::proofs::HtmlLemmas::value_texts, crate::proofs::HtmlLemmas::change_texts))]
pub fn a_rows_texts_are_its_fields()
    ensures values { (node time value status : List ℕ)
        → texts_in (page_row (node ∷ time ∷ value ∷ status ∷ []))
        ≡ [] ∷ escaped time ∷ [] ∷ escaped value ∷ [] ∷ escaped status ∷ [] ∷ [] }
    ensures changes { (node time value status change changed user : List ℕ)
        → texts_in (page_row (node ∷ time ∷ value ∷ status ∷ change ∷ changed ∷ user ∷ []))
        ≡ [] ∷ escaped time ∷ [] ∷ escaped value ∷ [] ∷ escaped status ∷ [] ∷ escaped change
        ∷ [] ∷ escaped changed ∷ [] ∷ escaped user ∷ [] ∷ [] }
{}

/// The rows of the part of a report before a moment that it asks for, and then those of the rest,
/// are all of its rows: so whoever follows the links of parts sees each row once, in order.
#[tactic(auto, using(crate::proofs::PartLemmas::values_both, crate::proofs::PartLemmas::changes_both))]
pub fn a_part_and_the_rest_are_the_whole()
    ensures values { (R : Content) (report : Report) (time : ℤ) → is_in_stretch report time ≡ true
        → values_asked R (part_before report time) ++ values_asked R (rest_from report time)
        ≡ values_asked R report }
    ensures changes { (R : Content) (report : Report) (time : ℤ) → is_in_stretch report time ≡ true
        → changes_asked R (part_before report time) ++ changes_asked R (rest_from report time)
        ≡ changes_asked R report }
{}

/// Before the end of a first part stand 1 to 500 rows: of live values the first 500, and of
/// modifications those of the first 500 that are before it. The end is a moment that is asked for.
#[tactic(auto, using(crate::proofs::PartLemmas::end_counts, crate::proofs::PartLemmas::first_values, crate::proofs::PartLemmas::first_changes))]
pub fn a_first_part_has_the_first_rows()
    ensures asked { (R : Content) (report : Report) (time : ℤ)
        → IsPartEnd (row_times R report) (Some time) → is_in_stretch report time ≡ true }
    ensures counts { (R : Content) (report : Report) (time : ℤ)
        → IsPartEnd (row_times R report) (Some time)
        → (1 ≤ length (row_times R (part_before report time)))
        × (length (row_times R (part_before report time)) ≤ 500) }
    ensures values { (R : Content) (report : Report) (time : ℤ) → report.changes ≡ false
        → IsPartEnd (row_times R report) (Some time)
        → values_asked R (part_before report time) ≡ take 500 (values_asked R report) }
    ensures changes { (R : Content) (report : Report) (time : ℤ) → report.changes ≡ true
        → IsPartEnd (row_times R report) (Some time)
        → changes_asked R (part_before report time)
        ≡ filter (λ e. int_lt e.time time) (take 500 (changes_asked R report)) }
{}

/// The header of a report and all its portions, one behind the other, are the whole report of what
/// an archive held when it was begun, whatever the archive learned in between; and so are those of
/// its first part that part.
pub fn all_portions_are_the_whole()
    ensures whole { (report : Report) (R : Content) (left : Remainder) (header : List ℕ)
        (portions : List (List ℕ)) → IsClosed R → IsHeader report header → IsWhole report left R
        → ArePortions R left portions → IsPrinted R report (header ++ concat portions) }
    ensures part { (report : Report) (R : Content) (left : Remainder) (header : List ℕ)
        (portions : List (List ℕ)) → IsClosed R → BeginsPart report left R [] header
        → ArePortions R left portions → IsPrintedPart R report (header ++ concat portions) }
{}

/// The header of a report and its first portions are the report up to a line of it, of what an
/// archive held when it was begun; and so they are with what was made of the next one, whatever
/// broke that off. There are as many of them as rows at most, so a last one comes.
pub fn first_portions_are_the_first_lines()
    ensures first { (report : Report) (R : Content) (left now : Remainder) (header : List ℕ)
        (portions : List (List ℕ)) → IsClosed R → IsHeader report header → IsWhole report left R
        → AreFirstPortions R left now portions
        → IsPrintedStart R report (header ++ concat portions) }
    ensures broken { (report : Report) (R : Content) (left now next : Remainder) (header : List ℕ)
        (portions : List (List ℕ)) (portion : List ℕ) (why : ReportFault) → IsClosed R
        → IsHeader report header → IsWhole report left R → AreFirstPortions R left now portions
        → IsNextPortion R now next portion (Err why)
        → IsPrintedStart R report (header ++ concat portions ++ portion) }
    ensures few { (report : Report) (R : Content) (left now : Remainder)
        (portions : List (List ℕ)) → IsClosed R → IsWhole report left R
        → AreFirstPortions R left now portions
        → length portions ≤ length (row_times R report) }
{}

/// A report is never broken off by `NoText` where each value that its rows show had a text when it
/// was begun, whatever the archive learned in between. So no part is that was begun.
pub fn no_portion_lacks_a_text()
    ensures whole { (report : Report) (R : Content) (left now next : Remainder)
        (portions : List (List ℕ)) (portion : List ℕ) → IsClosed R → ¬ HasTextless R report
        → IsWhole report left R → AreFirstPortions R left now portions
        → ¬ IsNextPortion R now next portion (Err NoText) }
    ensures part { (report : Report) (R : Content) (left now next : Remainder) (header : List ℕ)
        (portions : List (List ℕ)) (portion : List ℕ) → IsClosed R
        → BeginsPart report left R [] header → AreFirstPortions R left now portions
        → ¬ IsNextPortion R now next portion (Err NoText) }
{}
