//! What a page draws of its values: where they begin and end, and a thousand columns of them.

use crate::number::{Number, number_of};
use records::{Held, Moment};
use std::alloc::{AllocError, Global};
use std::num::saturating_f64_to_u16;

/// How many columns a drawing has.
const COLUMNS: u16 = 1000;

/// How high a drawing is.
pub(crate) const HEIGHT: u16 = 1000;

/// What looks at live values, one after the other.
pub(crate) trait Watch {
    /// It sees the next one.
    fn see(&mut self, held: &Held);
}

/// The edges of what is drawn: the first and the last time, the lowest and the highest number.
#[derive(Clone, Copy)]
pub(crate) struct Edges {
    pub(crate) first: Moment,
    pub(crate) last: Moment,
    pub(crate) low: Number,
    pub(crate) high: Number,
}

impl Edges {
    /// The edges of one number.
    fn of(time: Moment, number: Number) -> Edges {
        Edges {
            first: time,
            last: time,
            low: number,
            high: number,
        }
    }

    /// The edges of these numbers and a later one.
    fn with(self, time: Moment, number: Number) -> Edges {
        Edges {
            first: self.first,
            last: time,
            low: if number.near < self.low.near {
                number
            } else {
                self.low
            },
            high: if number.near > self.high.near {
                number
            } else {
                self.high
            },
        }
    }

    /// Whether a time is between the first and the last.
    fn include(self, time: Moment) -> bool {
        self.first <= time && time <= self.last
    }

    /// The column of a time.
    fn column(self, time: Moment) -> u16 {
        if time.ticks <= self.first.ticks {
            return 0;
        }
        let whole = u128::from(self.last.ticks.abs_diff(self.first.ticks));
        let part = u128::from(time.ticks.abs_diff(self.first.ticks));
        if part >= whole {
            return COLUMNS - 1;
        }
        (part * u128::from(COLUMNS - 1) / whole) as u16
    }

    /// How far below the upper edge a number is. The halves keep the difference finite.
    fn depth(self, number: Number) -> u16 {
        let (low, high) = (self.low.near * 0.5, self.high.near * 0.5);
        if low < high {
            let part = (high - number.near * 0.5) / (high - low);
            saturating_f64_to_u16(part * f64::from(HEIGHT) + 0.5).min(HEIGHT)
        } else {
            HEIGHT / 2
        }
    }
}

/// The edges of the numbers that were seen, if there was one.
#[derive(Drop)]
pub(crate) struct Seen {
    pub(crate) edges: Option<Edges>,
}

impl Watch for Seen {
    fn see(&mut self, held: &Held) {
        let Some(number) = number_of(held) else {
            return;
        };
        self.edges = match self.edges {
            Some(edges) => Some(edges.with(held.time, number)),
            None => Some(Edges::of(held.time, number)),
        };
    }
}

/// What a column has of the values of its times.
#[derive(Clone, Copy)]
pub(crate) struct Column {
    /// One of its values was corrected: another record stands at its time.
    pub(crate) corrected: bool,
    /// It has a number.
    pub(crate) drawn: bool,
    /// A gap is before its first number.
    pub(crate) opens: bool,
    /// A gap is behind its last number.
    pub(crate) closes: bool,
    /// The depths of its first, lowest, highest and last number.
    pub(crate) first: u16,
    pub(crate) low: u16,
    pub(crate) high: u16,
    pub(crate) last: u16,
}

impl Column {
    /// It has nothing.
    const EMPTY: Column = Column {
        corrected: false,
        drawn: false,
        opens: false,
        closes: false,
        first: 0,
        low: 0,
        high: 0,
        last: 0,
    };

    /// A value comes, and whether it was corrected.
    fn with_mark(self, corrected: bool) -> Column {
        Column {
            corrected: self.corrected || corrected,
            ..self
        }
    }

    /// A gap comes.
    fn with_gap(self) -> Column {
        Column {
            opens: self.opens || !self.drawn,
            closes: true,
            ..self
        }
    }

    /// A number comes, so deep.
    fn with(self, depth: u16) -> Column {
        if !self.drawn {
            return Column {
                corrected: self.corrected,
                drawn: true,
                opens: self.opens,
                closes: false,
                first: depth,
                low: depth,
                high: depth,
                last: depth,
            };
        }
        Column {
            closes: false,
            low: self.low.max(depth),
            high: self.high.min(depth),
            last: depth,
            ..self
        }
    }
}

/// What is seen, in columns between edges.
#[derive(Drop)]
pub(crate) struct Columns {
    pub(crate) edges: Edges,
    pub(crate) columns: Vec<Column>,
}

impl Columns {
    /// Empty ones.
    pub(crate) fn new(alloc: Global, edges: Edges) -> Result<Columns, AllocError> {
        let mut columns = Vec::new(alloc);
        for _ in 0..COLUMNS {
            columns.push(Column::EMPTY)?;
        }
        Ok(Columns { edges, columns })
    }
}

impl Watch for Columns {
    fn see(&mut self, held: &Held) {
        let place = usize::from(self.edges.column(held.time));
        if place < self.columns.len() {
            let column = self.columns[place].with_mark(held.extra && self.edges.include(held.time));
            self.columns[place] = match number_of(held) {
                Some(number) => column.with(self.edges.depth(number)),
                None => column.with_gap(),
            };
        }
    }
}
