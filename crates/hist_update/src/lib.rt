//! Updates of history (Part 11, HistoryUpdate): writes and deletes over any archive.
#![tactic(auto)]

mod laws;
mod operate;
mod request;
mod update;

pub use laws::{
    codes_tell_what_stood, codes_tell_what_was_done, every_good_update_stands,
    new_records_come_last, stretches_have_the_live_times, updates_keep_contents_lawful,
    updates_lose_nothing,
};
pub use request::Request;
pub use ua_services::HistoryUpdateResult as UpdateResult;
pub use update::{delete_at, delete_raw, update_data};
