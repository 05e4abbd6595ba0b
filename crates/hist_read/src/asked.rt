//! What was asked, as stretches of time and sizes of pages.

ghost use Rattle.std.specs.Prelude.{◌≡◌, ◌≤◌, ◌&&◌, ◌||◌, IfSome, ℤ, pos, ◌≤ℤ◌, ◌<ℤ◌, ◌+ℤ◌, ◌-ℤ◌, IsTrue, false, not, nat_lt};
ghost use Rattle.records.specs.Moments.{moment};
ghost use Rattle.hist_read.specs.Asking.{is_given, has_both, first_time, origin_time, direction};
ghost use Rattle.hist_read.specs.Reads.{greatest_time, in_body, is_past_any, limit_at, page_size, given_before, is_spent, given_after};
ghost use Rattle.archive.specs.Reading.{is_between, is_past};

use crate::point::{Phase, Position};
use archive::Direction;
use records::Moment;
use ua_services::ReadRawModifiedDetails;

/// The most items of a page.
const LARGEST_PAGE: usize = 1000;

/// From one moment to another, both included; none where the first is the later one.
#[derive(Clone, Copy, Debug, PartialEq, Eq)]
pub(crate) struct Span {
    pub(crate) from: Moment,
    pub(crate) to: Moment,
}

/// The last moment of a time.
fn last_within(time: i64) -> Moment
    ensures { result ≡ moment time 9999 }
{
    Moment {
        ticks: time,
        pico: 9999,
    }
}

/// The moment right behind one.
fn next(time: Moment) -> Moment
    requires { time <ℤ greatest_time }
    ensures { result ≡ time +ℤ pos 1 }
{
    if time.pico < 9999 {
        Moment {
            ticks: time.ticks,
            pico: time.pico + 1,
        }
    } else {
        Moment {
            ticks: time.ticks + 1,
            pico: 0,
        }
    }
}

/// The moment right before one; the earliest of all has none.
fn previous(time: Moment) -> Moment
    ensures { first_time ≤ℤ time → result ≡ time -ℤ pos 1 }
{
    if time.pico > 0 {
        Moment {
            ticks: time.ticks,
            pico: time.pico - 1,
        }
    } else {
        Moment {
            ticks: time.ticks.saturating_sub(1),
            pico: 9999,
        }
    }
}

/// Whether both times are given.
pub(crate) fn has_both(details: &ReadRawModifiedDetails) -> bool
    ensures { result ≡ has_both details.now }
{
    details.start_time.0 >= 1 && details.end_time.0 >= 1
}

/// Where reading begins.
pub(crate) fn origin(details: &ReadRawModifiedDetails) -> Moment
    ensures { result ≡ origin_time details.now }
{
    if details.start_time.0 >= 1 {
        Moment::at(details.start_time.0)
    } else {
        Moment::at(details.end_time.0)
    }
}

/// The direction of reading.
pub(crate) fn direction(details: &ReadRawModifiedDetails) -> Direction
    ensures { result ≡ direction details.now }
{
    let (start, end) = (details.start_time.0, details.end_time.0);
    if start < 1 || (1 <= end && end < start) {
        Direction::Backward
    } else {
        Direction::Forward
    }
}

/// The moments of the body.
#[tactic(auto, using(records::specs::Moments::whole_again, records::specs::Moments::pico_within))]
pub(crate) fn body(details: &ReadRawModifiedDetails) -> Span
    requires { IsTrue (is_given details.now.start_time.0 || is_given details.now.end_time.0) }
    ensures { (t : ℤ) → first_time ≤ℤ t → t ≤ℤ greatest_time
        → is_between result.from result.to t ≡ in_body details.now t }
{
    let (start, end) = (details.start_time.0, details.end_time.0);
    if end < 1 {
        Span {
            from: Moment::at(start),
            to: last_within(i64::MAX),
        }
    } else if start < 1 {
        Span {
            from: Moment::at(1),
            to: Moment::at(end),
        }
    } else if start == end {
        Span {
            from: Moment::at(start),
            to: last_within(start),
        }
    } else if start < end {
        Span {
            from: Moment::at(start),
            to: last_within(end - 1),
        }
    } else {
        Span {
            from: Moment {
                ticks: end,
                pico: 1,
            },
            to: Moment::at(start),
        }
    }
}

impl Span {
    /// Its moments that are beyond a limit.
    fn beyond(&self, direction: Direction, limit: Moment) -> Span
        ensures { first_time ≤ℤ limit → (t : ℤ) → t ≤ℤ greatest_time
            → is_between result.from result.to t
            ≡ (is_between self.now.from self.now.to t && is_past direction limit t) }
    {
        match direction {
            Direction::Forward => {
                if limit == last_within(i64::MAX) {
                    Span {
                        from: Moment::at(1),
                        to: Moment::at(0),
                    }
                } else if self.from <= limit {
                    Span {
                        from: next(limit),
                        to: self.to,
                    }
                } else {
                    *self
                }
            }
            Direction::Backward => {
                if limit <= self.to {
                    Span {
                        from: self.from,
                        to: previous(limit),
                    }
                } else {
                    *self
                }
            }
        }
    }
}

/// What reading goes on from.
pub(crate) fn limit_at(
    details: &ReadRawModifiedDetails,
    position: &Option<Position>,
) -> Option<Moment>
    ensures limit { result ≡ limit_at details.now position.now }
    ensures some { IsTrue (is_given details.now.start_time.0 || is_given details.now.end_time.0)
        → IfSome position.now (λ p. first_time ≤ℤ p.time) → IfSome result (λ t. first_time ≤ℤ t) }
{
    match position {
        None => {
            if details.return_bounds {
                Some(origin(details))
            } else {
                None
            }
        }
        Some(p) => match p.phase {
            Phase::Near => Some(origin(details)),
            Phase::Body => Some(p.time),
        },
    }
}

/// The most items of a page.
pub(crate) fn page_size(details: &ReadRawModifiedDetails, position: &Option<Position>) -> usize
    ensures value { result ≡ page_size details.now position.now }
    ensures small { result ≤ 1000 }
{
    if details.num_values_per_node == 0 {
        return LARGEST_PAGE;
    }
    let count = if has_both(details) {
        details.num_values_per_node
    } else {
        details
            .num_values_per_node
            .saturating_sub(given_before(position))
    };
    LARGEST_PAGE.min(count as usize)
}

/// How many items were given before a page.
fn given_before(position: &Option<Position>) -> u32
    ensures { result ≡ given_before position.now }
{
    match position {
        None => 0,
        Some(p) => p.given,
    }
}

/// Whether no more items are due behind a page of this size.
fn is_spent(details: &ReadRawModifiedDetails, position: &Option<Position>) -> bool
    ensures { result ≡ is_spent details.now position.now }
{
    if has_both(details) {
        return false;
    }
    let given = given_before(position) as usize;
    details.num_values_per_node as usize <= given + page_size(details, position)
}

/// Whether a further page exists, of so many items that follow.
pub(crate) fn goes_on(
    details: &ReadRawModifiedDetails,
    position: &Option<Position>,
    count: usize,
) -> bool
    ensures { result
        ≡ (nat_lt (page_size details.now position.now) count
        && not (is_spent details.now position.now)) }
{
    page_size(details, position) < count && !is_spent(details, position)
}

/// How many items were given with a page, where reading goes on.
pub(crate) fn given_after(details: &ReadRawModifiedDetails, position: &Option<Position>) -> u32
    requires { is_spent details.now position.now ≡ false }
    ensures { result ≡ given_after details.now position.now }
{
    if has_both(details) {
        return 0;
    }
    let ReadRawModifiedDetails {
        num_values_per_node,
        ..
    } = details;
    let _count = *num_values_per_node;
    given_before(position) + page_size(details, position) as u32
}

/// The times of the body that are beyond a moment, where one is given.
pub(crate) fn span_beyond(details: &ReadRawModifiedDetails, limit: Option<Moment>) -> Span
    requires { IsTrue (is_given details.now.start_time.0 || is_given details.now.end_time.0) }
    ensures { IfSome limit (λ t. first_time ≤ℤ t)
        → (t : ℤ) → first_time ≤ℤ t → t ≤ℤ greatest_time
        → is_between result.from result.to t
        ≡ (in_body details.now t && is_past_any (direction details.now) limit t) }
{
    let span = body(details);
    match limit {
        None => span,
        Some(limit) => span.beyond(direction(details), limit),
    }
}
