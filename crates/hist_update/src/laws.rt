//! Laws of updates. Each function's contract is a law, and its body is empty.

ghost use Rattle.std.specs.Prelude.{◌≡◌, ◌⊎◌, ◌↔◌, ℕ, ℤ, ◌<ℤ◌, Bool, true, false, List, map, Some, None};
ghost use Rattle.std.specs.List.{AllByRecursion};
ghost use Rattle.stamp.specs.Limits.{IsReplica};
ghost use Rattle.ua_binary.specs.declared.codes.Status.{Status};
ghost use Rattle.ua_binary.specs.declared.codes.TheConstants.Status.{GOOD, GOOD_ENTRY_INSERTED, GOOD_ENTRY_REPLACED};
ghost use Rattle.ua_binary.specs.declared.values.NodeId.{NodeId};
ghost use Rattle.ua_binary.specs.declared.values.Ticks.{Ticks};
ghost use Rattle.ua_services.specs.declared.updates.HistoryUpdateResult.{HistoryUpdateResult};
ghost use Rattle.ua_variant.specs.declared.data.DataValue.{DataValue};
ghost use Rattle.ua_variant.specs.declared.value.ValueType.{ValueType};
ghost use Rattle.records.specs.Lists.{Has, IsPairwise, last};
ghost use Rattle.records.specs.Contents.{Content, IsClosed, IsNext, IsWithin, put};
ghost use Rattle.records.specs.Records.{is_delete, versions, live_value};
ghost use Rattle.records.specs.declared.record.Record.{Record};
ghost use Rattle.ua_variant.specs.declared.update_type.HistoryUpdateType.TheVariants.{Insert, Replace};
ghost use Rattle.records.specs.declared.shown.Held.{Held};
ghost use Rattle.archive.specs.Store.{StepResult, RecordStands, IsLawfulContent};
ghost use Rattle.archive.specs.Steps.{Yields};
ghost use Rattle.hist_update.specs.declared.request.Request.{Request};
ghost use Rattle.hist_update.specs.Codes.{asked_by};
ghost use Rattle.hist_update.specs.Outcome.{Operation, DeleteAt, IsRequest, Added, outcome, is_live};
ghost use Rattle.hist_update.specs.Updates.{code_by, left_by, update_all, update_data, delete_at, delete_raw, writes, deletes_at, live_times_in};
ghost use Rattle.hist_update.specs.Laws.{IsBad, IsGood, IsRecordOf, IsNewBehind, IsAnsweredGood, HasRecordOf, MayStandBehindBreak, AddsEach, AddsFor, IsSpelledRequest, IsOperation, IsDoomed};

/// A new record is its origin's next, its tick is above every tick held, and it is the last of its
/// story: so what was written is the live value, and behind a delete there is none.
pub fn new_records_come_last()
    ensures next { (R : Content) (own : ℕ) (q : Request) (op : Operation) (code : Status)
        (r : Record)
        → IsClosed R → outcome R own q op ≡ Added code r → IsNext R r }
    ensures above { (R : Content) (own : ℕ) (q : Request) (op : Operation) (code : Status)
        (r s : Record)
        → outcome R own q op ≡ Added code r → Has R s → s.tick <ℤ r.tick }
    ensures last { (R : Content) (own : ℕ) (q : Request) (op : Operation) (code : Status)
        (r : Record)
        → IsClosed R → outcome R own q op ≡ Added code r
        → last (versions (put r R) r.node r.time) ≡ Some r }
    ensures written { (R : Content) (own : ℕ) (q : Request) (op : Operation) (code : Status)
        (r : Record)
        → IsClosed R → outcome R own q op ≡ Added code r → is_delete r.asked ≡ false
        → (h : Held) × (live_value (put r R) r.node r.time ≡ Some h) × (h.value ≡ r.value) }
    ensures deleted { (R : Content) (own : ℕ) (q : Request) (op : Operation) (code : Status)
        (r : Record)
        → IsClosed R → outcome R own q op ≡ Added code r → is_delete r.asked ≡ true
        → live_value (put r R) r.node r.time ≡ None }
{}

/// A code that isn't Good is Bad, and then the content is what it was, or, where the store broke and its
/// record stands, that with it; behind a Good code it is what it was, with the record of what was asked for.
pub fn codes_tell_what_was_done()
    ensures bad { (R : Content) (own : ℕ) (q : Request) (op : Operation) (m : StepResult)
        → IsBad (code_by (outcome R own q op) m)
        → (left_by R (outcome R own q op) m ≡ R)
        ⊎
        ((m ≡ RecordStands) × (r : Record) × (left_by R (outcome R own q op) m ≡ put r R)
        × IsRecordOf q own op r × IsNewBehind R q r) }
    ensures good { (R : Content) (own : ℕ) (q : Request) (op : Operation) (m : StepResult)
        → IsGood (code_by (outcome R own q op) m)
        → (r : Record) × (outcome R own q op ≡ Added (code_by (outcome R own q op) m) r)
        × (left_by R (outcome R own q op) m ≡ put r R) × IsRecordOf q own op r × IsNewBehind R q r }
    ensures either { (R : Content) (own : ℕ) (q : Request) (op : Operation) (m : StepResult)
        → IsBad (code_by (outcome R own q op) m) ⊎ IsGood (code_by (outcome R own q op) m) }
{}

/// The code of what was done tells what stood there: an insert, and what is told as inserted, stood
/// onto no live value; a replacement, a delete, and what is told as replaced, onto one.
pub fn codes_tell_what_stood()
    ensures inserted { (R : Content) (own : ℕ) (q : Request) (op : Operation) (r : Record)
        → outcome R own q op ≡ Added GOOD_ENTRY_INSERTED r
        → (is_live R r.node r.time ≡ false) × (is_delete r.asked ≡ false) }
    ensures replaced { (R : Content) (own : ℕ) (q : Request) (op : Operation) (r : Record)
        → outcome R own q op ≡ Added GOOD_ENTRY_REPLACED r
        → (is_live R r.node r.time ≡ true) × (is_delete r.asked ≡ false) }
    ensures deleted { (R : Content) (own : ℕ) (q : Request) (op : Operation) (r : Record)
        → outcome R own q op ≡ Added GOOD r
        → (is_live R r.node r.time ≡ true) × (is_delete r.asked ≡ true) }
    ensures insert { (R : Content) (own : ℕ) (q : Request) (op : Operation) (code : Status)
        (r : Record)
        → outcome R own q op ≡ Added code r → r.asked ≡ Insert → is_live R r.node r.time ≡ false }
    ensures replacement { (R : Content) (own : ℕ) (q : Request) (op : Operation) (code : Status)
        (r : Record)
        → outcome R own q op ≡ Added code r → r.asked ≡ Replace → is_live R r.node r.time ≡ true }
{}

/// What was held before some operations is held behind them, and each operation that was answered Good has
/// added its record, one after the other, and nothing else has, but where one broke the store and its
/// record stands. So that record is held: a new one, above every tick that was held before. By `acts` of
/// the calls this is so of what an opening finds too, where one of them broke the store.
pub fn updates_lose_nothing()
    ensures within { (R S : Content) (own : ℕ) (q : Request) (ops : List Operation)
        (used : List StepResult)
        (codes : List Status) → Yields (update_all own q ops R) used (codes, S) → IsWithin R S }
    ensures added { (may : Bool) (R S : Content) (own : ℕ) (q : Request) (ops : List Operation)
        (used : List StepResult) (codes : List Status) → MayStandBehindBreak may used
        → Yields (update_all own q ops R) used (codes, S)
        → AddsEach may q own ops codes R S }
    ensures stands { (R S : Content) (own : ℕ) (q : Request) (ops : List Operation)
        (used : List StepResult)
        (codes : List Status) (k : ℕ) (op : Operation)
        → Yields (update_all own q ops R) used (codes, S) → IsAnsweredGood ops codes k op
        → HasRecordOf R S q own op }
{}

/// Every update that is answered Good stands: whichever of the three calls it was one of, the content that
/// the call yields has its record, a new one of the call's moment or later. What was held before the call
/// is held too, and nothing is added but one record for each operation that is answered Good.
/// By `acts` of the calls this is so of each content that may be held then, as an opening finds it too.
pub fn every_good_update_stands()
    ensures writes { (R S : Content) (own : ℕ) (q : Request) (type : ValueType) (perform : ℤ)
        (values : List DataValue)
        (used : List StepResult) (result : HistoryUpdateResult) (k : ℕ) (op : Operation)
        → Yields (update_data own q type perform values R) used (result, S)
        → IsAnsweredGood (writes (asked_by perform) type values) result.operation_results k op
        → HasRecordOf R S q own op }
    ensures deletes { (R S : Content) (own : ℕ) (q : Request) (times : List Ticks)
        (used : List StepResult)
        (result : HistoryUpdateResult) (k : ℕ) (op : Operation)
        → Yields (delete_at own q times R) used (result, S)
        → IsAnsweredGood (deletes_at times) result.operation_results k op
        → HasRecordOf R S q own op }
    ensures stretches { (R S : Content) (own : ℕ) (q : Request) (modified : Bool)
        (start end_ : Ticks)
        (used : List StepResult) (result : HistoryUpdateResult) (k : ℕ) (op : Operation)
        → Yields (delete_raw own q modified start end_ R) used (result, S)
        → IsAnsweredGood
        (map DeleteAt (live_times_in R q.node start.0 end_.0)) result.operation_results k op
        → HasRecordOf R S q own op }
    ensures added { (may : Bool) (R S : Content) (own : ℕ) (q : Request) (type : ValueType)
        (perform : ℤ)
        (values : List DataValue) (used : List StepResult) (result : HistoryUpdateResult)
        → MayStandBehindBreak may used
        → Yields (update_data own q type perform values R) used (result, S)
        → AddsFor may q own (writes (asked_by perform) type values) result R S }
    ensures added_by_deletes { (may : Bool) (R S : Content) (own : ℕ) (q : Request)
        (times : List Ticks)
        (used : List StepResult) (result : HistoryUpdateResult) → MayStandBehindBreak may used
        → Yields (delete_at own q times R) used (result, S)
        → AddsFor may q own (deletes_at times) result R S }
    ensures added_by_stretches { (may : Bool) (R S : Content) (own : ℕ) (q : Request)
        (modified : Bool) (start end_ : Ticks)
        (used : List StepResult) (result : HistoryUpdateResult)
        → MayStandBehindBreak may used
        → Yields (delete_raw own q modified start end_ R) used (result, S)
        → AddsFor may q own (map DeleteAt (live_times_in R q.node start.0 end_.0)) result R S }
    ensures kept { (R S : Content) (own : ℕ) (q : Request) (type : ValueType) (perform : ℤ)
        (values : List DataValue)
        (used : List StepResult) (result : HistoryUpdateResult)
        → Yields (update_data own q type perform values R) used (result, S) → IsWithin R S }
    ensures kept_by_deletes { (R S : Content) (own : ℕ) (q : Request) (times : List Ticks)
        (used : List StepResult)
        (result : HistoryUpdateResult) → Yields (delete_at own q times R) used (result, S)
        → IsWithin R S }
    ensures kept_by_stretches { (R S : Content) (own : ℕ) (q : Request) (modified : Bool)
        (start end_ : Ticks)
        (used : List StepResult) (result : HistoryUpdateResult)
        → Yields (delete_raw own q modified start end_ R) used (result, S) → IsWithin R S }
{}

/// Behind some operations a closed content is closed, and one of lawful records has no others.
pub fn updates_keep_contents_lawful()
    ensures closed { (R S : Content) (own : ℕ) (q : Request) (ops : List Operation)
        (used : List StepResult)
        (codes : List Status) → Yields (update_all own q ops R) used (codes, S) → IsClosed R
        → IsClosed S }
    ensures lawful { (R S : Content) (own : ℕ) (q : Request) (ops : List Operation)
        (used : List StepResult)
        (codes : List Status) → Yields (update_all own q ops R) used (codes, S)
        → IsReplica own → IsRequest q → IsSpelledRequest q → AllByRecursion IsOperation ops
        → IsLawfulContent R → IsLawfulContent S }
{}

/// The moments that a delete of a stretch of time deletes at: those of the node's live values from its
/// start up to but without its end, or all of the one time, each once, in order.
pub fn stretches_have_the_live_times()
    ensures members { (R : Content) (node : NodeId) (start end_ time : ℤ)
        → Has (live_times_in R node start end_) time ↔ IsDoomed R node start end_ time }
    ensures order { (R : Content) (node : NodeId) (start end_ : ℤ)
        → IsPairwise (λ a b. a <ℤ b) (live_times_in R node start end_) }
{}
