//! Which records are taken from peers.

ghost use Rattle.std.specs.Prelude.{◌≡◌, ◌==◌, ◌&&◌, false, Ok, Err, IfErr};
ghost use Rattle.std.specs.List.{list_any};
ghost use Rattle.records.specs.Spelling.{GivesUnless};
ghost use Rattle.exchange.specs.declared.fault.ExchangeFault.TheVariants as fault;
ghost use Rattle.exchange.specs.Dialogs.{party_of, records_in};
ghost use Rattle.exchange.specs.Admissions.{admission_of, is_open, is_admitted, is_above, is_ahead, admitted, all_admitted, first_admitted};

use crate::fault::ExchangeFault;
use crate::framing::Frames;
use crate::message::{Message, Party};
use crate::reading::read_message;
use crate::replica::Replica;
use archive::Archive;
use records::Record;
use stamp::ReplicaNo;
use std::alloc::Global;

/// How many ticks of 100 ns a second has.
const TICKS_OF_A_SECOND: i128 = 10_000_000;

/// The greatest number that is taken of a replica's records.
#[derive(Clone, Copy, Debug)]
pub struct Bound {
    /// The replica.
    pub replica: ReplicaNo,
    /// The number.
    pub number: u64,
}

/// Which records are taken from peers at a time, beyond what a dialog asks of them.
#[derive(Clone, Copy, Debug)]
pub struct Admission<'a> {
    /// The replicas whose records are taken; none: those of all.
    pub replicas: Option<&'a [ReplicaNo]>,
    /// Up to which number the records of one of them are taken; none: no number is too great.
    pub bound: Option<Bound>,
    /// How many seconds a record's tick may be ahead of the time; none: any number.
    pub ahead: Option<u32>,
    /// The time, in ticks of 100 ns since 1601.
    pub time: i64,
}

/// Whether a replica is one of these.
fn is_among(replicas: &[ReplicaNo], origin: ReplicaNo) -> bool
    ensures { result ≡ list_any (λ replica. replica == origin) replicas.now }
{
    replicas.iter().any(|replica| *replica == origin)
}

impl<'a> Admission<'a> {
    /// Whether all records are taken.
    fn is_open(&self) -> bool
        ensures { result ≡ is_open (admission_of self.now) }
    {
        self.replicas.is_none() && self.bound.is_none() && self.ahead.is_none()
    }

    /// Whether the records of a replica are taken.
    fn has(&self, origin: ReplicaNo) -> bool
        ensures { result ≡ is_admitted (admission_of self.now) origin }
    {
        match self.replicas {
            None => true,
            Some(replicas) => is_among(replicas, origin),
        }
    }

    /// Whether a record is beyond the bound.
    fn is_above(&self, candidate: &Record) -> bool
        ensures { result ≡ is_above (admission_of self.now) candidate.now }
    {
        match self.bound {
            None => false,
            Some(bound) => bound.replica == candidate.origin && bound.number < candidate.number,
        }
    }

    /// Whether a tick is further ahead of the time than is taken.
    fn is_ahead(&self, tick: i64) -> bool
        ensures { result ≡ is_ahead (admission_of self.now) tick }
    {
        match self.ahead {
            None => false,
            Some(seconds) => {
                let latest = i128::from(self.time) + i128::from(seconds) * TICKS_OF_A_SECOND;
                latest < i128::from(tick)
            }
        }
    }

    /// Whether a record is taken, or why it isn't.
    fn judge(&self, candidate: &Record) -> Result<(), ExchangeFault>
        ensures { result ≡ admitted (admission_of self.now) candidate.now }
    {
        if !self.has(candidate.origin) {
            return Err(ExchangeFault::NotAdmitted);
        }
        if self.is_above(candidate) {
            return Err(ExchangeFault::NotAdmitted);
        }
        if self.is_ahead(candidate.tick) {
            return Err(ExchangeFault::AheadOfClock);
        }
        Ok(())
    }

    /// Whether all of these records are taken, or why the first that isn't is not.
    fn judge_all(&self, records: &[Record]) -> Result<(), ExchangeFault>
        ensures { result ≡ all_admitted (admission_of self.now) records.now }
    {
        for record in records {
            self.judge(record)?;
        }
        Ok(())
    }

    /// Whether the records of a message are taken, or why the first that isn't is not.
    fn judge_message(&self, message: &Message) -> Result<(), ExchangeFault>
        ensures { result ≡ all_admitted (admission_of self.now) (records_in message.now) }
    {
        match message {
            Message::Carries(_, records) => self.judge_all(records.as_slice()),
            Message::Asks(_) | Message::Ends(_) => Ok(()),
        }
    }
}

impl<A: Archive> Replica<A> {
    /// Whether the records of the frame that stands first are taken, if it is whole, or why the first that isn't is not:
    /// `NotAdmitted`, or else `AheadOfClock`. What is no frame, or no message to this replica, is left to the dialog. The
    /// frame stays where it is. The other error is `OutOfMemory`; where all records are taken, there is none.
    pub fn judge_first(
        &self,
        alloc: Global,
        admission: &Admission<'_>,
        frames: &Frames,
    ) -> Result<(), ExchangeFault>
        ensures judged { GivesUnless fault.OutOfMemory result
            (first_admitted (admission_of admission.now)
            (party_of (A.state self.now.archive)) frames.now.waiting) }
        ensures closed { IfErr result (λ _. is_open (admission_of admission.now) ≡ false) }
    {
        if admission.is_open() {
            return Ok(());
        }
        let Some(frame) = frames.peek() else {
            return Ok(());
        };
        let party = Party {
            id: self.archive.id(),
            own: self.archive.number(),
        };
        match read_message(alloc, &party, frame.kind, frame.body) {
            Ok(message) => admission.judge_message(&message),
            Err(ExchangeFault::OutOfMemory) => Err(ExchangeFault::OutOfMemory),
            Err(_) => Ok(()),
        }
    }
}
