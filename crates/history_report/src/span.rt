//! Stretches of moments.

ghost use Rattle.std.specs.Prelude.{◌≡◌, ◌&&◌, ℤ, pos, ◌+ℤ◌, ◌-ℤ◌, ◌<ℤ◌, int_lt};
ghost use Rattle.archive.specs.Reading.{is_between};
ghost use Rattle.history_report.specs.Reports.{is_in_stretch};
ghost use Rattle.history_report.specs.Paging.{IsTime, greatest_time};

use crate::report::Report;
use records::Moment;

/// From one moment to another, both included; none where the first is the later one.
#[derive(Clone, Copy, Debug)]
pub(crate) struct Span {
    pub(crate) from: Moment,
    pub(crate) to: Moment,
}

/// No moment.
fn empty_span() -> Span
    ensures { result ≡ record { from = pos 10000; to = pos 0 } }
{
    Span {
        from: Moment::at(1),
        to: Moment::at(0),
    }
}

/// The moment right behind one.
fn next(time: Moment) -> Moment
    requires { time <ℤ greatest_time }
    ensures { result ≡ time +ℤ pos 1 }
{
    if time.pico < 9999 {
        Moment {
            ticks: time.ticks,
            pico: time.pico + 1,
        }
    } else {
        Moment {
            ticks: time.ticks + 1,
            pico: 0,
        }
    }
}

/// The moment right before one.
fn previous(time: Moment) -> Moment
    requires { pos 0 <ℤ time }
    ensures { result ≡ time -ℤ pos 1 }
{
    if time.pico > 0 {
        Moment {
            ticks: time.ticks,
            pico: time.pico - 1,
        }
    } else {
        Moment {
            ticks: time.ticks - 1,
            pico: 9999,
        }
    }
}

/// The moments that a report asks for, of those that a record may have.
pub(crate) fn span_of(report: &Report) -> Span
    ensures { (t : ℤ) → IsTime t → is_between result.from result.to t ≡ is_in_stretch report.now t }
{
    let from = match report.from {
        Some(from) => from,
        None => Moment::at(0),
    };
    let to = match report.to {
        Some(to) => {
            if to <= Moment::at(0) {
                return empty_span();
            }
            previous(to)
        }
        None => Moment {
            ticks: i64::MAX,
            pico: 9999,
        },
    };
    Span { from, to }
}

impl Span {
    /// Its moments that are behind one.
    pub(crate) fn behind(self, limit: Moment) -> Span
        ensures { (t : ℤ) → is_between result.from result.to t
            ≡ (is_between self.from self.to t && int_lt limit t) }
    {
        if self.to <= limit {
            return empty_span();
        }
        if limit < self.from {
            return self;
        }
        Span {
            from: next(limit),
            to: self.to,
        }
    }
}
