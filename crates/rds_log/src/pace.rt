//! The times of a log so far, their breaks, and whether they are too coarse.
ghost use Rattle.std.specs.Prelude.{◌≡◌, ◌⊎◌, ◌∷◌, ◌↔◌, [], IsTrue, List, is_some, option_map};
ghost use Rattle.rds_block.specs.declared.group.Group.{Group};
ghost use Rattle.rds_arrivals.specs.Arrivals.{Arrival};
ghost use Rattle.rds_log.specs.Fill.{BreaksAfter};

use crate::breaks::Breaks;
use rds_arrivals::{Grain, Stretch, lost_between};

/// The stretch of the newest group of a log, the newest stretch that was coarse, and the breaks.
#[derive(Clone, Copy)]
pub(crate) struct Pace {
    grain: Grain,
    pub(crate) stretch: Option<Stretch>,
    pub(crate) coarse: Option<Stretch>,
    pub(crate) breaks: Breaks,
}

impl Pace {
    ghost use Rattle.rds_log.specs.Inside.Pace.{PaceStandsAt};

    /// Starts a log.
    pub(crate) fn new(grain: Grain) -> Pace
        ensures grain { result.grain ≡ grain }
        ensures stands { PaceStandsAt result [] }
    {
        Pace {
            grain,
            stretch: None,
            coarse: None,
            breaks: Breaks::none(),
        }
    }

    /// Adds the group of this line with this time. So many lost slots before it were known before it came.
    pub(crate) fn add(&mut self, told: u32, time: u64, line: u64)
        ensures grain { self.new.grain ≡ self.old.grain }
        ensures stands { (arrivals : List (Arrival Group)) (a : Arrival Group) → a.told ≡ told → a.time ≡ time
            → PaceStandsAt self.old arrivals → PaceStandsAt self.new (a ∷ arrivals) }
    {
        self.note_break(time, line);
        let stretch = Stretch::after(self.stretch, told, time, self.grain);
        self.stretch = Some(stretch);
        if stretch.is_coarse(self.grain) {
            self.coarse = Some(stretch);
        }
    }

    /// Notes a break before the group of this line with this time, if there is one.
    #[tactic(auto, using(crate::proofs::Filled::break_is))]
    fn note_break(&mut self, time: u64, line: u64)
        ensures breaks { IsTrue (is_some self.new.breaks.first)
            ↔ (IsTrue (is_some self.old.breaks.first)
            ⊎ BreaksAfter (option_map (λ s. s.last) self.old.stretch) time) }
        ensures kept { self.new ≡ record self.old { breaks = self.new.breaks } }
    {
        let Some(stretch) = self.stretch else {
            return;
        };
        if let Err(why) = lost_between(stretch.last, time, self.grain) {
            self.breaks.add(why, line);
        }
    }
}
