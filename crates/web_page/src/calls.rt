//! How the last calls of peers ended.

ghost use Rattle.std.specs.Prelude.{◌≡◌, IfOk};
ghost use Rattle.std.specs.Int.{w64};
ghost use Rattle.std.specs.Int.RustNames.{FitsSigned};
ghost use Rattle.web_page.specs.Calls.{tick_time, numbered_words};

use history_text::{Time, time_text};
use itoa::Buffer;
use std::alloc::{AllocError, Global};
use std::marker::Model;
use ua_binary::{Text, TryClone};
use ua_settings::{PeerCall, Settings};

/// Why a call of a peer didn't come to its end.
#[derive(Clone, Copy, Debug, PartialEq, Eq)]
pub enum CallCause {
    /// The connection ended by the fault of this number.
    Connection(u8),
    /// The exchange ended by the fault of this number, at one of its ends.
    Exchange(u32),
}

/// How a call of a peer ended.
#[derive(Clone, Copy, Debug, PartialEq, Eq)]
pub struct CallEnd {
    /// When, in ticks of 100 ns since 1601.
    pub at: i64,
    /// Why it didn't come to its end; none: it did.
    pub cause: Option<CallCause>,
    /// How many records were learned, 2^32 - 1 where they were more.
    pub learned: u32,
    /// How many were sent, 2^32 - 1 where they were more.
    pub sent: u32,
}

/// A peer that is called, and how its last call ended.
#[derive(Debug, Drop)]
pub struct LastCall {
    /// Where the peer listens.
    pub address: Text,
    /// How its last call ended; none: none did yet.
    pub end: Option<CallEnd>,
}

/// The moment at which a call ended.
fn end_time(end: CallEnd) -> Time
    ensures same { result ≡ tick_time end.at }
    ensures fits { FitsSigned w64 result.ticks }
{
    Time {
        ticks: end.at,
        pico: 0,
    }
}

/// Words, and a number after them in brackets.
fn numbered_words(alloc: Global, words: &[u8], number: u64) -> Result<Vec<u8>, AllocError>
    ensures { IfOk result (λ text. text.items ≡ numbered_words words.now number) }
{
    let mut buffer = Buffer::new();
    let digits = buffer.format(number);
    let mut text = Vec::new(alloc);
    text.extend_from_slice(words)?;
    text.extend_from_slice(b" (")?;
    text.extend_from_slice(digits.as_bytes())?;
    text.push(b')')?;
    Ok(text)
}

impl CallCause {
    ghost use Rattle.std.specs.Prelude.{◌≡◌, IfOk};
    ghost use Rattle.web_page.specs.Calls.{cause_words};

    /// Its words, with its number after them, as the line on standard error tells it. The one error
    /// is want of memory.
    pub fn words(self, alloc: Global) -> Result<Vec<u8>, AllocError>
        ensures { IfOk result (λ text. text.items ≡ cause_words self) }
    {
        match self {
            CallCause::Connection(number) => numbered_words(
                alloc,
                b"connection ended",
                u64::from(number),
            ),
            CallCause::Exchange(number) => numbered_words(
                alloc,
                b"exchange ended",
                u64::from(number),
            ),
        }
    }
}

impl CallEnd {
    ghost use Rattle.std.specs.Prelude.{IfOk};
    ghost use Rattle.web_page.specs.Calls.{IsEndTime};

    /// When it was, as text, in UTC. The one error is want of memory.
    pub fn time_text(self, alloc: Global) -> Result<Vec<u8>, AllocError>
        ensures { IfOk result (λ text. IsEndTime self text.items) }
    {
        let text = time_text(alloc, end_time(self))?;
        Ok(text)
    }
}

/// The peers that a server calls, each with how its last call ended: as many entries as there are
/// peers, in the order of the settings.
#[derive(Debug, Drop)]
pub struct LastCalls {
    calls: Vec<LastCall>,
}

impl Model for LastCalls {
    ghost use Rattle.std.specs.Prelude.{List};
    ghost use Rattle.web_page.specs.declared.calls.LastCall.{LastCall};

    ghost Value = { List LastCall };

    ghost view = { λ l. l.calls.items };
}

impl LastCalls {
    ghost use Rattle.std.specs.Prelude.{◌≡◌, [], map, IfOk};
    ghost use Rattle.web_page.specs.Calls.{after_call, uncalled};

    /// Of no peer. It takes no memory.
    pub fn none(alloc: Global) -> LastCalls
        ensures { result ≡ [] }
    {
        LastCalls {
            calls: Vec::new(alloc),
        }
    }

    /// Of these peers, none of which was called yet. The one error is want of memory.
    pub fn new(alloc: Global, peers: &[PeerCall]) -> Result<LastCalls, AllocError>
        ensures { IfOk result (λ calls. calls ≡ map uncalled peers.now) }
    {
        let mut calls = Vec::new(alloc);
        for peer in peers {
            calls.push(LastCall {
                address: peer.address.try_clone()?,
                end: None,
            })?;
        }
        Ok(LastCalls { calls })
    }

    /// A call of the peer of this number ended so, from 0 on; where there is no such peer all stays.
    pub fn note(&mut self, callee: usize, end: CallEnd)
        ensures { self.new ≡ after_call callee end self.old }
    {
        if let Some(call) = self.calls.get_mut(callee) {
            call.end = Some(end);
        }
    }

    /// All of them, in the order of the settings.
    pub fn as_slice(&self) -> &[LastCall]
        ensures { result.now ≡ self.now }
    {
        self.calls.as_slice()
    }
}

/// What pages tell of a server beside what its archive holds.
#[derive(Clone, Copy, Debug)]
pub struct Overview<'a> {
    /// What it is set to.
    pub settings: &'a Settings,
    /// How its last calls of peers ended.
    pub calls: &'a LastCalls,
    /// How many connections there are of those that came.
    pub connections: u64,
    /// The time, in ticks of 100 ns since 1601.
    pub now: i64,
}
