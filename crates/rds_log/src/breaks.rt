//! The breaks in the times of a log.
ghost use Rattle.std.specs.Prelude.{◌≡◌, IsTrue, None, is_some};

use rds_arrivals::Break;
use rds_lines::BreakPlace;

/// The breaks in the times of a log (this project's own rule).
#[derive(Clone, Copy)]
pub struct Breaks {
    /// Their number.
    pub count: u64,
    /// The first one.
    pub first: Option<BreakPlace>,
    /// The first one that is not of the kind of `first`.
    pub other: Option<BreakPlace>,
}

impl Breaks {
    /// Returns the value of a log without a break.
    pub(crate) fn none() -> Breaks
        ensures { result.first ≡ None }
    {
        Breaks {
            count: 0,
            first: None,
            other: None,
        }
    }

    /// Adds the break before the group of this line.
    pub(crate) fn add(&mut self, why: Break, line: u64)
        ensures { IsTrue (is_some self.new.first) }
    {
        let kind = why;
        self.count = self.count.saturating_add(1);
        let Some(first) = self.first else {
            self.first = Some(BreakPlace { why, line });
            return;
        };
        if self.other.is_none() && is_back(first.why) != is_back(kind) {
            self.other = Some(BreakPlace { why, line });
        }
    }
}

/// Returns whether the time went back.
fn is_back(why: Break) -> bool {
    matches!(why, Break::Back)
}
