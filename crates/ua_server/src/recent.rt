//! How many lines were told of late of what anybody may bring about.

ghost use Rattle.std.specs.Prelude.{◌≡◌};

/// So many ticks of a clock has a second.
const SECOND: i128 = 10_000_000;

/// So many of these lines are told in a second.
const MOST: u64 = 100;

/// How many lines were told of late of what anybody may bring about, and how many weren't.
#[derive(Clone, Copy, Debug, PartialEq, Eq)]
pub(crate) struct Recent {
    /// When the first one was told of the second in which the last one was.
    pub since: i64,
    /// How many were told in that second.
    pub lines: u64,
    /// How many weren't told since the last one.
    pub left_out: u64,
}

impl Recent {
    ghost use Rattle.std.specs.Prelude.{◌≡◌};
    ghost use Rattle.ua_server.specs.Telling.{none_recent};
    ghost use Rattle.ua_server.specs.Logging.{is_same_second, lines_at, is_second_full, with_told, with_left_out};

    /// None was told yet.
    pub fn none() -> Recent
        ensures { result ≡ none_recent }
    {
        Recent {
            since: 0,
            lines: 0,
            left_out: 0,
        }
    }

    /// Whether the second goes on in which the last line was told.
    fn is_same_second(self, at: i64) -> bool
        ensures { result ≡ is_same_second self at }
    {
        self.since <= at && i128::from(at) < i128::from(self.since) + SECOND
    }

    /// How many lines were told in this second.
    fn lines_at(self, at: i64) -> u64
        ensures { result ≡ lines_at self at }
    {
        if self.is_same_second(at) {
            self.lines
        } else {
            0
        }
    }

    /// Whether no more are told in this second.
    pub fn is_second_full(self, at: i64) -> bool
        ensures { result ≡ is_second_full self at }
    {
        self.lines_at(at) >= MOST
    }

    /// The same, with one more that was told.
    pub fn with_told(self, at: i64) -> Recent
        ensures { result ≡ with_told self at }
    {
        Recent {
            since: if self.is_same_second(at) {
                self.since
            } else {
                at
            },
            lines: self.lines_at(at).saturating_add(1),
            left_out: 0,
        }
    }

    /// The same, with one more that wasn't told.
    pub fn with_left_out(self) -> Recent
        ensures { result ≡ with_left_out self }
    {
        Recent {
            left_out: self.left_out.saturating_add(1),
            ..self
        }
    }
}
