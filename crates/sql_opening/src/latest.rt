//! The last numbers and the greatest tick of an archive's records, in memory.

ghost use Rattle.std.specs.Prelude.{true};
ghost use Rattle.records.specs.Spelling.{IsLawfulRecord};
ghost use Rattle.sql_opening.specs.Latest.{Raises};
ghost use Rattle.sql_tables.specs.Learning.{was_added};

use archive::{LearnFault, StoreFault};
use records::Record;
use stamp::Vector;

/// The number of each replica's last record, and the greatest tick.
#[derive(Clone, Copy, Debug)]
pub struct Latest {
    pub numbers: Vector,
    pub tick: i64,
}

/// The same, with a record's.
pub(crate) fn raised(before: Latest, r: &Record) -> Latest
    requires { IsLawfulRecord r.now }
    ensures { Raises r.now true before.numbers before.tick result.numbers result.tick }
{
    let mut numbers = before.numbers;
    numbers.raise(r.origin, r.number);
    Latest {
        numbers,
        tick: before.tick.max(r.tick),
    }
}

/// Those behind a call that learns a record, by its answer: raised where it was added, and else as they were.
pub fn latest_after(
    before: Latest,
    r: &Record,
    answer: &Result<Result<bool, LearnFault>, StoreFault>,
) -> Latest
    requires { IsLawfulRecord r.now }
    ensures { Raises r.now
        (was_added answer.now) before.numbers before.tick result.numbers result.tick }
{
    match answer {
        Ok(Ok(true)) => raised(before, r),
        _ => before,
    }
}
