//! One connection among many.

ghost use Rattle.std.specs.Prelude.{◌≡◌, ◌<◌, ◌⊎◌, ◌↔◌, Bool, IsTrue, false, true, ℕ, length, [], Some, IfSome, IfNone};
ghost use Rattle.std.specs.Option.{option_map};
ghost use Rattle.multiplex.specs.declared.handler.SlotEnd.TheVariants.{Finished, Displaced};
ghost use Rattle.multiplex.specs.Slots.{first_slot, IsResponsive, held_until, IsUnheard, IsQuiet, IsReadQuiet, IsWriteAtRest, MayClose};
ghost use Rattle.multiplex.specs.Steps.{IsVisit, TakesSteps};

use crate::handler::{Handler, Progress, SlotEnd};
use crate::stay::Stay;
use crate::transfer::{NonBlockingRead, NonBlockingWrite, ReadAttempt, WriteAttempt};
use std::alloc::Global;
use std::marker::Model;

/// The most bytes of memory that a connection keeps for what it writes, once all of that was written.
const KEPT: usize = 65_536;

/// The bytes that one read asks for.
const PIECE: usize = 4096;

/// So long, in milliseconds, may no byte come or go.
const IDLE_LIMIT: u64 = 120_000;

/// So long, in milliseconds, may a connection bring no whole message and keep its slot, where it isn't established.
const UNHEARD_LIMIT: u64 = 10_000;

/// One connection: its handler, its reader and writer, and what is to be written.
#[derive(Drop)]
pub struct Slot<H, R, W, E> {
    handler: H,
    reader: R,
    writer: W,
    // what is to be written, of which so many bytes were
    out: Vec<u8>,
    sent: usize,
    ending: Option<SlotEnd<E>>,
    // when a byte last came or went, and when it began or last brought a whole message
    active: u64,
    heard: u64,
    // whether something may be there to read, or may be written
    readable: bool,
    writable: bool,
    // till when what is to be written waits, where it does
    held: Option<u64>,
    stay: Stay,
}

impl<H, R, W, E> Model for Slot<H, R, W, E> {
    ghost use Rattle.std.specs.Prelude.{◌≤◌, drop, length};
    ghost use Rattle.multiplex.specs.Slots.{Slot};

    ghost Value = { Slot H R W E };

    ghost view = { λ s. record {
      handler = s.handler;
      reader = s.reader;
      writer = s.writer;
      waiting = drop s.sent s.out.items;
      ending = s.ending;
      active = s.active;
      heard = s.heard;
      readable = s.readable;
      writable = s.writable;
      held = s.held;
      stay = s.stay;
    } };

    ghost invariant = { λ s. s.sent ≤ length s.out.items };
}

impl<H, R, W, E> Slot<H, R, W, E> {
    /// A connection that begins, with what is to be written first.
    pub(crate) fn new(stay: Stay, handler: H, reader: R, writer: W, out: Vec<u8>) -> Self
        ensures { result ≡ first_slot stay handler reader writer out.items }
    {
        Slot {
            handler,
            reader,
            writer,
            out,
            sent: 0,
            ending: None,
            active: stay.began,
            heard: stay.began,
            readable: true,
            writable: true,
            held: None,
            stay,
        }
    }

    /// How many bytes wait to be written.
    pub(crate) fn waiting(&self) -> usize
        ensures { result ≡ length self.now.waiting }
    {
        self.out.len() - self.sent
    }

    /// Whether nothing waits to be written.
    fn is_written(&self) -> bool
        ensures { IsTrue result ↔ (self.now.waiting ≡ []) }
    {
        self.sent == self.out.len()
    }

    /// Whether it goes on and nothing waits to be written.
    fn is_responsive(&self) -> bool
        ensures responsive { IsTrue result → IsResponsive self.now }
        ensures other { result ≡ false → self.now.ending ≡ None → 0 < length self.now.waiting }
    {
        self.ending.is_none() && self.out.len() == self.sent
    }

    /// Whether some of what waits may be written now.
    fn may_write(&self) -> bool
        ensures waiting { IsTrue result → 0 < length self.now.waiting }
        ensures free { IsTrue result → self.now.held ≡ None }
        ensures rest { result ≡ false → IsWriteAtRest self.now }
    {
        self.sent < self.out.len() && self.writable && self.held.is_none()
    }

    /// Whether it is over, and all was written that can be.
    fn may_close(&self) -> bool
        ensures { IsTrue result ↔ MayClose self.now }
    {
        match &self.ending {
            None => false,
            Some(SlotEnd::Finished(_) | SlotEnd::EndOfInput) => self.is_written(),
            Some(
                SlotEnd::ReadFailed
                | SlotEnd::WriteFailed
                | SlotEnd::IdleTimeout
                | SlotEnd::Displaced,
            ) => true,
        }
    }

    /// When it began, or last brought a whole message.
    pub(crate) fn heard(&self) -> u64
        ensures { result ≡ self.now.heard }
    {
        self.heard
    }

    /// Makes room in memory where all was written: of what it took to make that, no more is kept than `KEPT` bytes.
    fn forget_written(&mut self)
        ensures { self.new ≡ self.old }
    {
        if self.sent == self.out.len() {
            self.out.clear();
            self.out.shrink_to(KEPT);
            self.sent = 0;
        }
    }
}

/// The end of a connection whose handler came to this one, if it did.
fn finished<E>(end: Option<E>) -> Option<SlotEnd<E>>
    ensures { result ≡ option_map Finished end }
{
    match end {
        Some(end) => Some(SlotEnd::Finished(end)),
        None => None,
    }
}

/// Till when an answer waits that is made now and waits so many milliseconds, if it waits at all.
fn held_until(now: u64, delay: u64) -> Option<u64>
    ensures { result ≡ held_until now delay }
{
    if delay == 0 {
        None
    } else {
        Some(now.saturating_add(delay))
    }
}

/// Whether one of both is so.
pub(crate) fn either(one: bool, other: bool) -> bool
    ensures some { result ≡ true → (one ≡ true) ⊎ (other ≡ true) }
    ensures none { result ≡ false → (one ≡ false) × (other ≡ false) }
{
    one || other
}

impl<H: Handler, R: NonBlockingRead, W: NonBlockingWrite> Slot<H, R, W, H::End> {
    /// Whether it isn't established, and brought no whole message for too long.
    pub(crate) fn is_unheard(&self, now: u64) -> bool
        ensures { IsTrue result ↔ IsUnheard H.behavior now self.now }
    {
        let too_long = now.saturating_sub(self.heard) >= UNHEARD_LIMIT;
        !self.handler.is_established() && too_long
    }

    /// How it ended, if it is over and all was written that can be.
    pub(crate) fn end(&self) -> Option<SlotEnd<H::End>>
        ensures some { IfSome result
            (λ ending. MayClose self.now × (self.now.ending ≡ Some ending)) }
        ensures none { IfNone result (MayClose self.now → ⊥) }
    {
        if self.may_close() { self.ending } else { None }
    }

    /// Tells its handler that it ended so. Its reader and its writer.
    pub(crate) fn close(self, world: &mut H::World, ending: SlotEnd<H::End>) -> (R, W)
        ensures ends { result ≡ (self.reader, self.writer) }
        ensures tells { H.behavior.closes self.stay world.old self.handler ending world.new }
    {
        self.handler.close(self.stay, world, ending);
        (self.reader, self.writer)
    }

    /// Ends it: it makes place for the next connection.
    pub(crate) fn displace(&mut self)
        ensures { self.new ≡ record self.old { ending = Some Displaced } }
    {
        self.ending = Some(SlotEnd::Displaced);
    }

    /// Its turn: what stands first is answered, or else some bytes are read, and then some bytes are written. It is
    /// answered and read only where nothing of it waits to be written, and where there is `room` for answers. Whether
    /// more may be done at once; else it is at rest.
    pub(crate) fn visit(&mut self, ready: bool, room: bool, world: &mut H::World, now: u64) -> bool
        ensures steps { TakesSteps R.input W.output H.behavior (IsVisit 1 1 1 result) room now
            world.old self.old world.new self.new }
        ensures same { result ≡ false → self.new.waiting ≡ self.old.waiting }
        ensures rest { result ≡ false → IsQuiet H.behavior room self.new }
    {
        self.wake_if(ready);
        self.release(now);
        let advanced = self.advance(room, world, now);
        let wrote = self.write_next(now);
        self.stop_if_idle(now);
        either(advanced, wrote)
    }

    /// Where it may be ready, it is tried again.
    fn wake_if(&mut self, ready: bool)
        ensures steps { (v : H.World) (room : Bool) (now : ℕ)
            → TakesSteps R.input W.output H.behavior (IsVisit 0 0 0 false) room now
            v self.old v self.new }
        ensures same { self.new.waiting ≡ self.old.waiting }
    {
        if ready {
            self.readable = true;
            self.writable = true;
        }
    }

    /// What waits may be written, where it was held till now at most.
    fn release(&mut self, now: u64)
        ensures steps { (v : H.World) (room : Bool)
            → TakesSteps R.input W.output H.behavior (IsVisit 0 0 0 false) room now v self.old v
            self.new }
        ensures same { self.new.waiting ≡ self.old.waiting }
    {
        if let Some(until) = self.held {
            if until <= now {
                self.held = None;
            }
        }
    }

    /// Writes some of what waits, if that may be done now. Whether some was written.
    fn write_next(&mut self, now: u64) -> bool
        ensures steps { (v : H.World) (room : Bool)
            → TakesSteps R.input W.output H.behavior (IsVisit 0 0 1 result) room now
            v self.old v self.new }
        ensures same { result ≡ false → self.new.waiting ≡ self.old.waiting }
        ensures rest { result ≡ false → IsWriteAtRest self.new }
        ensures read { (room : Bool) → result ≡ false → IsReadQuiet H.behavior room self.old
            → IsReadQuiet H.behavior room self.new }
    {
        if self.may_write() {
            let wrote = self.write_some(now);
            self.forget_written();
            wrote
        } else {
            false
        }
    }

    /// Writes some of what waits. Whether some was written.
    fn write_some(&mut self, now: u64) -> bool
        requires waiting { 0 < length self.old.waiting }
        requires free { self.old.held ≡ None }
        ensures steps { (v : H.World) (room : Bool)
            → TakesSteps R.input W.output H.behavior (IsVisit 0 0 1 result) room now
            v self.old v self.new }
        ensures same { result ≡ false → self.new.waiting ≡ self.old.waiting }
        ensures rest { result ≡ false → IsWriteAtRest self.new }
        ensures read { (room : Bool) → result ≡ false → IsReadQuiet H.behavior room self.old
            → IsReadQuiet H.behavior room self.new }
    {
        match self.writer.try_write(&self.out[self.sent..]) {
            WriteAttempt::Written(n) => {
                self.sent += n;
                self.active = now;
                true
            }
            WriteAttempt::WouldBlock => {
                self.writable = false;
                false
            }
            WriteAttempt::Failed => {
                self.ending = Some(SlotEnd::WriteFailed);
                false
            }
        }
    }

    /// Answers what stands first, if it is whole, or else reads more; neither where an answer waits, or there is no room
    /// for one. Whether something was answered or came.
    fn advance(&mut self, room: bool, world: &mut H::World, now: u64) -> bool
        ensures steps { TakesSteps R.input W.output H.behavior (IsVisit 1 1 0 result) room now
            world.old self.old world.new self.new }
        ensures same { result ≡ false → self.new.waiting ≡ self.old.waiting }
        ensures rest { result ≡ false → IsReadQuiet H.behavior room self.new }
    {
        if self.is_responsive() {
            if room {
                self.answer_or_read(world, now)
            } else {
                false
            }
        } else {
            false
        }
    }

    /// Answers what stands first, if it is whole, or else reads more. Whether something was answered or came.
    fn answer_or_read(&mut self, world: &mut H::World, now: u64) -> bool
        requires responsive { IsResponsive self.old }
        ensures steps { TakesSteps R.input W.output H.behavior (IsVisit 1 1 0 result) true now
            world.old self.old world.new self.new }
        ensures same { result ≡ false → self.new.waiting ≡ self.old.waiting }
        ensures rest { result ≡ false → IsQuiet H.behavior true self.new }
    {
        if self.answer_first(world, now) {
            true
        } else {
            self.read_more(now)
        }
    }

    /// Answers what stands first, if it is whole. Whether it was.
    fn answer_first(&mut self, world: &mut H::World, now: u64) -> bool
        requires { IsResponsive self.old }
        ensures steps { TakesSteps R.input W.output H.behavior (IsVisit 1 0 0 result) true now
            world.old self.old world.new self.new }
        ensures lacks { result ≡ false
            → IsResponsive self.new × H.behavior.needs_more self.new.handler }
    {
        match self.handler.answer(self.stay, world, &mut self.out) {
            Progress::NeedsMore => false,
            Progress::Answered => {
                self.heard = now;
                self.held = held_until(now, self.handler.delay(self.stay, world));
                self.stay = self.stay.answered_once_more();
                true
            }
            Progress::Ended(end) => {
                self.heard = now;
                self.held = held_until(now, self.handler.delay(self.stay, world));
                self.stay = self.stay.answered_once_more();
                self.ending = Some(SlotEnd::Finished(end));
                true
            }
        }
    }

    /// Reads some of what comes, if something may be there. Whether something came.
    fn read_more(&mut self, now: u64) -> bool
        requires responsive { IsResponsive self.old }
        requires lacks { H.behavior.needs_more self.old.handler }
        ensures steps { (v : H.World) (room : Bool)
            → TakesSteps R.input W.output H.behavior (IsVisit 0 1 0 result) room now
            v self.old v self.new }
        ensures same { result ≡ false → self.new.waiting ≡ self.old.waiting }
        ensures rest { result ≡ false → IsQuiet H.behavior true self.new }
    {
        if !self.readable {
            return false;
        }
        let mut piece = [0u8; PIECE];
        match self.reader.try_read(&mut piece) {
            ReadAttempt::Read(n) => {
                let end = self.handler.receive(&piece[..n], &mut self.out);
                self.active = now;
                self.ending = finished(end);
                true
            }
            ReadAttempt::EndOfInput => {
                self.ending = Some(SlotEnd::EndOfInput);
                false
            }
            ReadAttempt::WouldBlock => {
                self.readable = false;
                false
            }
            ReadAttempt::Failed => {
                self.ending = Some(SlotEnd::ReadFailed);
                false
            }
        }
    }

    /// Ends it, where no byte came or went for too long.
    fn stop_if_idle(&mut self, now: u64)
        ensures steps { (v : H.World) (room : Bool)
            → TakesSteps R.input W.output H.behavior (IsVisit 0 0 0 false) room now
            v self.old v self.new }
        ensures same { self.new.waiting ≡ self.old.waiting }
        ensures rest { (room : Bool)
            → IsQuiet H.behavior room self.old → IsQuiet H.behavior room self.new }
    {
        if now.saturating_sub(self.active) >= IDLE_LIMIT {
            self.ending = Some(SlotEnd::IdleTimeout);
        }
    }
}
