//! The records that an archive holds: one for each write and each delete (Part 11), with the name of
//! its replica and the stamp of its making; what a list of them says of a node and a source time, by
//! plain slow programs; and the laws of merging.
#![tactic(auto)]

mod fault;
mod fields;
mod laws;
mod moment;
mod record;
mod shown;
mod spelling;
mod story;

pub use fault::RecordFault;
pub use laws::{
    a_first_part_of_what_is_missing_is_learned, batches_keep_contents_closed,
    closed_contents_are_told_apart, current_is_the_latest, each_record_is_found,
    each_refusal_has_its_meaning, equal_vectors_mean_equal_contents, equality_is_exact,
    formats_are_lawful, formats_are_prefix_free, inclusion_is_an_order,
    last_numbers_and_ticks_are_the_greatest, learning_keeps_contents_closed,
    learning_what_is_missing_joins, merging_is_a_join, missing_is_what_a_vector_lacks,
    moments_are_ticks_and_picoseconds, one_more_record_changes_its_origin_alone,
    the_order_of_records_is_free, vectors_cut_contents,
};
pub use moment::Moment;
pub use record::Record;
pub use shown::{Entry, Held};
pub use spelling::{put_record, read_record};
pub use story::{current_of, entries_in, entries_of, held_of, missing_of, story_of};
pub use ua_variant::HistoryUpdateType;
