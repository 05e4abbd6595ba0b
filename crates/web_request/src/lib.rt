//! What a browser asks of a page of histories, read from the bytes of an HTTP/1.1 request, and how
//! the head and the chunks of an answer are written.
#![tactic(auto)]

mod answer;
mod chunks;
mod credentials;
mod head;
mod heads;
mod page;
mod pair;
mod query;
mod reading;
mod refusals;
mod target;

pub use answer::{Answer, Body, Kind, Status};
pub use chunks::{put_chunk, put_last_chunk};
pub use heads::put_head;
pub use page::{Credentials, Page, Part, Question, Refusal, Request, RequestFault};
pub use reading::read_request;
pub use refusals::put_refusal;
