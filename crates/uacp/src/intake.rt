//! A byte stream, fed in pieces and given out in chunks.

ghost use Rattle.std.specs.Prelude.{◌≡◌, OnOk, IfErr};

use crate::cutting::first_header;
use crate::types::{Chunk, UacpFault};
use std::alloc::Global;
use std::marker::Model;

/// Cuts the bytes of a connection into chunks (Part 6, 7.1.2.2), whatever pieces they come in.
///
/// A chunk is judged once eight bytes of it are there: its letters, its least size, its greatest
/// size, in this order. The first one is a Hello of 32 to 4,128 bytes; later ones are no Hello,
/// have 32 bytes at least where they open a channel and 24 otherwise, and at most as many as the
/// limit says. Feeding costs time linear in the bytes, whatever the pieces.
#[derive(Drop)]
pub struct Intake {
    bytes: Vec<u8>,
    // how many of the bytes, from the front, were given out
    given: usize,
    is_greeted: bool,
    limit: u32,
    failed: Option<UacpFault>,
}

impl Model for Intake {
    ghost use Rattle.std.specs.Prelude.{◌≤◌, drop, vec_len};
    ghost use Rattle.uacp.specs.Held.{IntakeState};

    ghost Value = { IntakeState };

    ghost view = { λ i.
        record {
          waiting = drop i.given i.bytes.items;
          greeted = i.is_greeted;
          limit = i.limit;
          failed = i.failed;
        } };

    ghost invariant = { λ i. i.given ≤ vec_len i.bytes };
}

impl Intake {
    ghost use Rattle.uacp.specs.Held.{new_intake, next_of, after_next, Gives};
    ghost use Rattle.uacp.specs.Run.{Fed, Limited, DoesIntakeCall};
    ghost use Rattle.uacp.specs.contracts.intake.Intake.{the_row};
    ghost use Rattle.std.specs.Borrow.{sem};
    ghost use Rattle.std.specs.Io.BufRead.{Rests};

    /// Nothing fed yet, and 65,536 bytes as the limit. It takes no memory.
    pub fn new(alloc: Global) -> Self
        ensures { result ≡ new_intake }
    {
        Intake {
            bytes: Vec::new(alloc),
            given: 0,
            is_greeted: false,
            limit: 65536,
            failed: None,
        }
    }

    /// Sets the greatest size of the chunks that are judged from now on, a Hello aside: the receive
    /// size of the Acknowledge, in bytes with the header.
    pub fn set_limit(&mut self, receive_size: u32)
        ensures { DoesIntakeCall self.old (Limited receive_size) self.new }
    {
        self.limit = receive_size;
    }

    /// Drops what was given out once that is half of the bytes, so that each byte is moved a bounded
    /// number of times.
    fn shed(&mut self)
        ensures { self.new ≡ self.old }
    {
        let given = self.given;
        if self.bytes.len() - given <= given {
            let left = self.bytes.len() - given;
            self.bytes.copy_within(given.., 0);
            self.bytes.truncate(left);
            self.given = 0;
        }
    }

    /// Takes the next piece of the stream. The one error is `OutOfMemory`, which changes nothing.
    pub fn feed(&mut self, piece: &[u8]) -> Result<(), UacpFault>
        ensures ok { OnOk result (DoesIntakeCall self.old (Fed piece.now) self.new) }
        ensures err { IfErr result (λ fault. (fault ≡ UacpFault.OutOfMemory) × (self.new ≡ self.old)) }
    {
        self.shed();
        self.bytes.extend_from_slice(piece)?;
        Ok(())
    }

    /// The next chunk, where it is whole, and `None` where less is there. It takes no memory.
    /// After `TypeInvalid`, `TooLarge` or `SizeTooSmall` every later call gives the same fault.
    #[inline(always)]
    pub fn next_chunk(&mut self) -> Result<Option<Chunk<'_>>, UacpFault>
        ensures value { Gives self.old result }
        ensures* after_borrow { sem 𝓛
            (Rests the_row self.entry (λ new. new ≡ after_next self.old (next_of self.old))) }
    {
        if let Some(fault) = self.failed {
            return Err(fault);
        }
        let start = self.given;
        let waiting = &self.bytes.as_slice()[start..];
        match first_header(self.is_greeted, self.limit, waiting) {
            Ok(None) => Ok(None),
            Ok(Some(header)) => {
                self.given = start + header.size;
                self.is_greeted = true;
                Ok(Some(Chunk {
                    kind: header.kind,
                    letter: header.letter,
                    body: &waiting[8..header.size],
                }))
            }
            Err(fault) => {
                self.failed = Some(fault);
                Err(fault)
            }
        }
    }
}
