//! Frames of many records, of which some first ones are learned ahead of their turn, so that others are served in between.

ghost use Rattle.std.specs.Prelude.{◌≡◌, ◌≤◌, take, length, IfSome};
ghost use Rattle.std.specs.List.{AllByRecursion};
ghost use Rattle.records.specs.Spelling.{IsLawfulRecord};
ghost use Rattle.archive.specs.Store.{IsAskedWithin};
ghost use Rattle.exchange.specs.Ahead.{first_records, lacking_of, piece, LearnsAhead};
ghost use Rattle.exchange.specs.Dialogs.{party_of};

use crate::dialog::Dialog;
use crate::fault::ExchangeFault;
use crate::framing::Frames;
use crate::message::{Message, Party};
use crate::replica::{Replica, learn_each};
use archive::Archive;
use records::Record;
use stamp::Vector;
use std::alloc::Global;
use ua_binary::Listing;

/// The most new records that are learned of a frame in one step.
const PIECE: usize = 100;

/// How many first records have a piece of those that a vector lacks, where it lacks more of them than that.
fn piece_end(records: &[Record], held: &Vector) -> Option<usize>
    ensures end { IfSome result (λ end. end ≤ length records.now) }
    ensures lacking { IfSome result (λ end. lacking_of held.now (take end records.now) ≡ piece) }
{
    let mut lacking: usize = 0;
    for (end, record) in records.iter().enumerate() {
        if held.get(record.origin) < record.number {
            if lacking >= PIECE {
                return Some(end);
            }
            lacking += 1;
        }
    }
    None
}

impl Dialog {
    /// The records of the frame that stands first, if it is whole, may be taken, and there is memory to read it.
    fn first_records<A: Archive>(
        &self,
        alloc: Global,
        replica: &Replica<A>,
        frames: &Frames,
    ) -> Option<Listing<Record>>
        ensures { IfSome result
            (λ records.
            (records
            ≡ first_records (party_of (A.state replica.now.archive)) self.now frames.now.waiting)
            × AllByRecursion IsLawfulRecord records) }
    {
        let frame = frames.peek()?;
        let party = Party {
            id: replica.archive.id(),
            own: replica.archive.number(),
        };
        match self.receive(alloc, &party, frame) {
            Ok(Message::Carries(_, records)) => Some(records),
            Ok(Message::Asks(_) | Message::Ends(_)) | Err(_) => None,
        }
    }

    /// Learns some first records of the frame that stands first, in order, where more than a hundred of it are new to the
    /// replica: a hundred of these. The frame stays, and what is asked for again goes on behind them; once fewer are new,
    /// nothing is done, and `take` learns the rest and answers. So a long frame doesn't keep others waiting.
    ///
    /// Answers how many records were new, one at least; none where nothing had to be done, and then the content stays. Errors are
    /// `Learn`, where a record is refused or the store met a fault at it, and `Store`; what was learned before it is held.
    pub fn learn_ahead<A: Archive>(
        &mut self,
        alloc: Global,
        replica: &mut Replica<A>,
        frames: &Frames,
    ) -> Result<Option<u32>, ExchangeFault>
        ensures learns { LearnsAhead (A.state replica.old.archive) (A.state replica.new.archive)
            self.old self.new
            (first_records (party_of (A.state replica.old.archive)) self.old frames.now.waiting)
            result }
        ensures asked { IsAskedWithin 0 (A.asked replica.old.archive)
            (A.asked replica.new.archive) }
    {
        let Some(records) = self.first_records(alloc, replica, frames) else {
            return Ok(None);
        };
        if records.len() <= PIECE {
            return Ok(None);
        }
        let held = replica.archive.vector()?;
        let Some(end) = piece_end(records.as_slice(), &held) else {
            return Ok(None);
        };
        let added = learn_each(&mut replica.archive, &records.as_slice()[..end])?;
        self.count_learned(added);
        Ok(Some(added))
    }
}
