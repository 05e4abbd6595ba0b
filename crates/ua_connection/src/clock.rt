//! Clocks.

ghost use Rattle.std.specs.Prelude.{◌≡◌, ◌+◌, ◌-◌, ◌/◌, ◌^◌, ◌≤ℤ◌, min, pos, ◌∷◌, ◌++◌, [], List, ℤ};
ghost use Rattle.std.specs.Duration.{as_nanos};
ghost use Rattle.std.specs.Time.{system_time_nanos};
ghost use Rattle.std.proofs.Common.{refl, ◌∙◌, subst, sym};
ghost use Rattle.ua_connection.specs.Readings.{AllAre, AllAre-append, AllSinceEpoch, AllSinceEpoch-append};

use std::time::{Clock as TimeSource, Duration, SystemTime};

/// What gives the time, in ticks of 100 nanoseconds since 1601-01-01 00:00 UTC (Part 6, 5.2.2.5).
pub trait Clock {
    /// Between these two states the clock gave these readings.
    ghost gave: { Self → List ℤ → Self → Type 0 };

    /// The time now.
    fn now(&mut self) -> i64
        ensures { gave self.old (result ∷ []) self.new };

    ghost gave_none: { (clock : Self) → gave clock [] clock };

    ghost gave_more: { (a b c : Self) (xs ys : List ℤ) → gave a xs b → gave b ys c → gave a (xs ++ ys) c };
}

/// The Unix epoch, 1970-01-01 00:00 UTC.
const EPOCH: i64 = 116_444_736_000_000_000;

/// The moment so long after the Unix epoch, at most 2^63 - 1.
fn after_epoch(since: Duration) -> i64
    ensures { result ≡ pos (min (116444736000000000 + as_nanos since / 100) (2 ^ 63 - 1)) }
{
    match i64::try_from(since.as_nanos() / 100) {
        Ok(ticks) => EPOCH.saturating_add(ticks),
        Err(_) => i64::MAX,
    }
}

/// The system's clock. Before 1970, and where it can't be read, it is the Unix epoch. Each reading is the epoch or later; that it is the machine's time is not promised.
#[derive(Clone, Copy)]
pub struct SystemClock<'a, T> {
    source: &'a T,
}

impl<'a, T: TimeSource> SystemClock<'a, T> {
    /// The clock of this runtime.
    pub fn new(source: &'a T) -> Self {
        SystemClock { source }
    }
}

/// A time of the machine as a moment: the Unix epoch where it is before that.
fn moment_of(time: SystemTime) -> i64
    ensures since { pos 116444736000000000 ≤ℤ result }
    ensures exact { result
        ≡ pos (min (116444736000000000 + system_time_nanos time / 100) (2 ^ 63 - 1)) }
{
    match time.duration_since(SystemTime::UNIX_EPOCH) {
        Ok(since) => after_epoch(since),
        Err(_) => EPOCH,
    }
}

impl<T: TimeSource> Clock for SystemClock<'_, T> {
    ghost gave = { λ a xs b. AllSinceEpoch xs };

    ghost gave_none = { λ a. tt };

    ghost gave_more = { λ a b c xs ys p q. AllSinceEpoch-append xs ys p q };

    fn now(&mut self) -> i64 {
        match SystemTime::now(self.source) {
            Ok(now) => moment_of(now),
            Err(_) => EPOCH,
        }
    }
}

/// A clock that stands still: each reading is this one.
#[derive(Clone, Copy, Debug, PartialEq, Eq)]
pub struct ConstantClock(pub i64);

impl Clock for ConstantClock {
    ghost gave = { λ a xs b. (b.0 ≡ a.0) × AllAre a.0 xs };

    ghost gave_none = { λ a. (refl, tt) };

    ghost gave_more = { λ a b c xs ys p q.
        (q.0 ∙ p.0, AllAre-append a.0 xs ys p.1 (subst (λ n. AllAre n ys) p.0 q.1)) };

    fn now(&mut self) -> i64 {
        self.0
    }
}
