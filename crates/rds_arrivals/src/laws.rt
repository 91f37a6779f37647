//! Laws about filled logs: a receiver of one counts no slot too few.
ghost use Rattle.rds_block.specs.declared.group.Group.{Group};
ghost use Rattle.rds_arrivals.specs.Laws.{EvenDelaysKeepPace};
ghost use Rattle.rds_arrivals.specs.Laws.{FilledLogsAreOwnClocks, LostSlotsAreCounted, OneCount};

/// States which number of lost slots is counted, and that there is one.
#[tactic(auto, using(crate::proofs::Fractions::are_lost, crate::proofs::Fractions::one_count))]
pub fn lost_slots_are_counted()
    ensures counted { LostSlotsAreCounted }
    ensures one { OneCount }
{}

/// States that a receiver of a filled log hears by a clock that counts no slot too few, whatever it loses and whenever
/// the times break. The delays of the groups vary by less than a slot less the grain.
pub fn filled_logs_are_own_clocks()
    ensures pace { EvenDelaysKeepPace Group }
    ensures own_clock { FilledLogsAreOwnClocks Group }
{}
