//! Replicas' numbers, ticks and stamps.

ghost use Rattle.std.specs.Prelude.{◌≡◌, MatchOption};
ghost use Rattle.stamp.specs.Limits.{IsReplica, lift};

use std::marker::Model;

/// The greatest tick: 2^62 - 1.
pub const GREATEST_TICK: i64 = 4_611_686_018_427_387_903;

/// The number of a replica, from 1 to 64.
#[derive(Clone, Copy, Debug, PartialEq, Eq, PartialOrd, Ord, Hash)]
pub struct ReplicaNo {
    number: u8,
}

impl Model for ReplicaNo {
    ghost use Rattle.std.specs.Prelude.{ℕ};

    ghost Value = { ℕ };

    ghost use Rattle.stamp.specs.Limits.{IsReplica};

    ghost view = { λ r. r.number };

    ghost invariant = { λ r. IsReplica r.number };

    ghost inverse = { λ n. record { number = n } };
}

impl ReplicaNo {
    /// The replica of this number, where it is one of 1 to 64.
    pub fn new(number: u8) -> Option<ReplicaNo>
        ensures { MatchOption result (¬ IsReplica number) (λ r. (r ≡ number) × IsReplica number) }
    {
        if number == 0 || number > 64 {
            return None;
        }
        Some(ReplicaNo { number })
    }

    /// Its number, from 1 to 64.
    pub fn get(self) -> u8
        ensures same { result ≡ self }
        ensures in_range { IsReplica self }
    {
        self.number
    }
}

/// What orders the records of one node and source time: the tick at which a record was made, and
/// then the replica that made it.
#[derive(Clone, Copy, Debug, PartialEq, Eq, PartialOrd, Ord, Hash)]
pub struct Stamp {
    /// The tick, from 1 to 2^62 - 1 at a record.
    pub tick: i64,
    /// The replica that made the record.
    pub origin: ReplicaNo,
}

/// The tick of a new record: the clock's reading `now`, but at most 2^62 - 1 and above `top`, the
/// greatest tick of all records. `None` where `top` is 2^62 - 1 or more.
pub fn lift(now: i64, top: i64) -> Option<i64>
    ensures { result ≡ lift now top }
{
    if top >= GREATEST_TICK {
        return None;
    }
    Some((top + 1).max(now.min(GREATEST_TICK)))
}
