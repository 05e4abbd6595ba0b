//! An OPC UA server over any reader, writer, clock and archive: connections of clients and of peers, and the program.
#![tactic(auto)]

mod calls;
mod checks;
mod connections;
mod dumps;
mod either;
mod events;
mod exposing;
mod files;
mod hexed;
mod histories;
mod host;
mod imports;
mod laws;
mod listening;
mod log;
mod program;
mod recent;
mod reopening;
mod running;
mod single;
mod starting;
mod watched;

pub use command_line::{
    Asked, HistoryWords, ImportWords, Line, LineFault, PerformWord, SyncWords, read_line,
};
pub use conversation::{
    Conversation, Door, Ended, Log, World, a_client_alone_is_answered, a_clients_door_takes_no_peer,
};
pub use counted_io::{Counted, ServeFault};
pub use dumps::{DumpFault, dump};
pub use either::{Served, serve};
pub use hexed::{HexFault, answer_hex};
pub use historian::Server;
pub use histories::OptionFault;
pub use host::{Host, StoreTerms};
pub use laws::{a_calls_fault_is_told_alike, connections_are_updates};
pub use listening::{Callee, Listening, WebDoor};
pub use multiplex::{Limits, Slot, each_connection_is_alone};
pub use program::{ProgramFault, Ran, report, run};
pub use single::{AnswerTerms, answer_at};
pub use ua_connection::{
    Clock, ConstantClock, MOST_CHUNKS, SystemClock, answers_go_item_by_item, chunks_are_counted,
    connections_are_answered_chunk_by_chunk,
};
pub use ua_peers::{
    PeerEnded, SyncFault, Synced, a_call_that_ends_joins, calls_are_exchanges,
    dialogs_are_deliveries, serve_peer, sync,
};
