//! Source times with their picoseconds.

ghost use Rattle.std.specs.Prelude.{◌≡◌, ◌≤◌, ◌↔◌, IsTrue, MatchOption, ◌<◌, ℤ, ◌<ℤ◌};
ghost use Rattle.std.specs.Int.{w64};
ghost use Rattle.std.specs.Int.RustNames.{FitsSigned};
ghost use Rattle.std.proofs.Common.{rules};
ghost use Rattle.std.specs.Cmp.{partial_order_from_own_ties, partial_equiv_from_equiv};
ghost use Rattle.std.specs.Cmp.Rules.{comparing};
ghost use Rattle.std.specs.Ordering.{int_cmp, int_eq, as_partial_cmp};
ghost use Rattle.records.specs.Moments.{moment, ticks_of, pico_of};

use std::cmp::Ordering;
use std::marker::Model;

/// A source time: a number of steps of 100 ns since 1601, and within that step a number of
/// 10 picoseconds, 0 to 9,999.
#[derive(Clone, Copy, Debug)]
pub struct Moment {
    pub ticks: i64,
    pub pico: u16,
}

impl Model for Moment {
    ghost use Rattle.std.specs.Prelude.{ℤ, ◌≤◌};

    ghost Value = { ℤ };

    ghost use Rattle.records.specs.Moments.{moment, ticks_of, pico_of, at_once};

    ghost view = { λ m. moment m.ticks m.pico };

    ghost invariant = { λ m. m.pico ≤ 9999 };

    ghost inverse = { λ z. record { ticks = ticks_of z; pico = pico_of z } };

    ghost inverse_ok = { at_once };
}

impl Moment {
    /// The moment of these ticks and picoseconds, where the latter are at most 9,999.
    pub fn new(ticks: i64, pico: u16) -> Option<Moment>
        ensures { MatchOption result (9999 < pico) (λ m. (m ≡ moment ticks pico) × (pico ≤ 9999)) }
    {
        if pico > 9999 {
            return None;
        }
        Some(Moment { ticks, pico })
    }

    /// The moment of these ticks, with no picoseconds.
    pub fn at(ticks: i64) -> Moment
        ensures { result ≡ moment ticks 0 }
    {
        Moment { ticks, pico: 0 }
    }

    /// Its ticks.
    pub fn ticks(self) -> i64
        ensures { result ≡ ticks_of self }
    {
        self.ticks
    }

    /// Its picoseconds, in tens.
    pub fn pico(self) -> u16
        ensures same { result ≡ pico_of self }
        ensures within { result ≤ 9999 }
    {
        self.pico
    }
}

impl PartialEq for Moment {
    ghost eq = { int_eq };

    ghost laws = { Prim.search (comparing, rules) };

    fn eq(&self, other: &Moment) -> bool {
        self.ticks == other.ticks && self.pico == other.pico
    }
}

impl Eq for Moment {
    ghost laws = { Prim.search (comparing, rules) };
}

impl Ord for Moment {
    ghost cmp = { int_cmp };

    ghost total = { Prim.search (comparing, rules) };

    ghost matches_partial_cmp = { Prim.search (comparing, rules) };

    ghost matches_eq = { Prim.search (comparing, rules) };

    #[tactic(auto, using(crate::proofs::Moments::in_order))]
    fn cmp(&self, other: &Moment) -> Ordering {
        let ticks = self.ticks.cmp(&other.ticks);
        ticks.then(self.pico.cmp(&other.pico))
    }
}

impl PartialOrd for Moment {
    ghost partial_cmp = { as_partial_cmp int_cmp };

    ghost laws = { partial_order_from_own_ties (Prim.search (comparing, rules))
        (Prim.search (comparing, rules)) };

    fn partial_cmp(&self, other: &Moment) -> Option<Ordering> {
        Some(self.cmp(other))
    }
}
