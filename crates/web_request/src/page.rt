//! What is asked for, and why it is refused.

ghost use Rattle.std.specs.Prelude.{◌≡◌};
ghost use Rattle.web_request.specs.declared.page.RequestFault.TheVariants.{OutOfMemory};

use records::Moment;
use std::alloc::{AllocError, AllocFailed};
use thiserror::Error;
use ua_binary::{Bytes, NodeId};

/// Of which history a page is.
#[derive(Debug, Drop)]
pub struct Question {
    /// The node.
    pub node: NodeId,
    /// The first source time; absent, there is no first one.
    pub from: Option<Moment>,
    /// The source time before which the history ends; absent, it doesn't end.
    pub to: Option<Moment>,
    /// Modifications are asked for, in place of live values.
    pub changes: bool,
}

/// What is asked for, each by its path.
#[derive(Debug, Drop)]
pub enum Page {
    /// `/`: the page that a person begins at.
    Front,
    /// `/history`: a node's history as a page.
    History(Question),
    /// `/history.csv`: a node's history as CSV.
    Csv(Question),
    /// `/status.json`: how the server does.
    Status,
}

/// Who asks (RFC 7617, 2). It has no `Debug`, so that no password is printed.
#[derive(Drop)]
pub struct Credentials {
    /// The name, which has no colon; the bytes are UTF-8 where the browser keeps to the charset
    /// that `put_head` tells.
    pub name: Bytes,
    /// The password, in the same charset.
    pub password: Bytes,
}

/// A request that is whole.
#[derive(Drop)]
pub struct Request {
    /// What is asked for.
    pub page: Page,
    /// Only the head of the answer is asked for (RFC 9110, 9.3.2).
    pub head_only: bool,
    /// Who asks, if the request says it.
    pub credentials: Option<Credentials>,
    /// The connection may be kept for a next request (RFC 9112, 9.3).
    pub keeps_open: bool,
    /// Its answer may come in chunks: it is of HTTP/1.1 (RFC 9112, 6.1).
    pub takes_chunks: bool,
    /// How many bytes it took.
    pub length: usize,
}

/// A part of the query that is wrong.
#[derive(Clone, Copy, Debug, PartialEq, Eq)]
pub enum Part {
    /// `node` is absent, empty or no node id.
    Node,
    /// `from` is no time.
    From,
    /// `to` is no time.
    To,
    /// `changes` is neither `true` nor `false`.
    Changes,
    /// There is a key that isn't asked for here.
    Unknown,
    /// A key stands twice.
    Twice,
}

/// Why a request isn't answered by what it asks for.
#[derive(Clone, Copy, Debug, PartialEq, Eq)]
pub enum Refusal {
    /// The bytes are no head of a request (400).
    NotHttp,
    /// The head is longer than 16 KiB, or has more than 64 fields (431).
    TooLong,
    /// The method is neither GET nor HEAD (405).
    Method,
    /// There is no such page (404).
    Path,
    /// The request has a body (413).
    Body,
    /// A part of the query is wrong (400).
    Part(Part),
    /// The Authorization field isn't Basic with the base64 of a name, a colon and a password, or
    /// stands twice, or who asks isn't let in (401).
    Credentials,
    /// There is no variable of this node id (404).
    Unknown,
    /// The archive met a fault of its store (503).
    Store,
    /// A value of a history has no text (500).
    NoText,
    /// More modifications stand at one moment than a page shows (500).
    Crowded,
}

/// Why there is no request.
#[derive(Clone, Copy, Debug, PartialEq, Eq, Error)]
pub enum RequestFault {
    /// It is refused, and the connection is to be closed once that is told, by a head alone where
    /// the request is for one.
    #[error("the request is refused")]
    Refused(Refusal, bool),
    /// Memory ran out.
    #[error("out of memory")]
    OutOfMemory,
}

/// Why a part of a request wasn't read.
#[derive(Clone, Copy, Debug, PartialEq, Eq)]
pub(crate) enum Fault {
    /// It is refused.
    Refused(Refusal),
    /// Memory ran out.
    OutOfMemory,
}

impl From<Refusal> for Fault {
    ghost use Rattle.web_request.specs.declared.page.Fault.TheVariants as fault;

    ghost from_gives = { λ why e. e ≡ fault.Refused why };

    fn from(why: Refusal) -> Fault {
        Fault::Refused(why)
    }
}

impl From<AllocError> for Fault {
    ghost use Rattle.web_request.specs.declared.page.Fault.TheVariants as fault;

    ghost from_gives = { λ _ e. e ≡ fault.OutOfMemory };

    fn from(_e: AllocError) -> Fault {
        Fault::OutOfMemory
    }
}

impl<T: Drop> From<AllocFailed<T>> for Fault {
    ghost use Rattle.web_request.specs.declared.page.Fault.TheVariants as fault;

    ghost from_gives = { λ _ e. e ≡ fault.OutOfMemory };

    fn from(_e: AllocFailed<T>) -> Fault {
        Fault::OutOfMemory
    }
}
