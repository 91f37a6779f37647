//! The reigns of a service: the current one, and how long ago the one before it ended.
ghost use Rattle.std.specs.Prelude.{◌≡◌, ◌<◌};
ghost use Rattle.rds_audit.specs.Ages.{ages_at};
ghost use Rattle.rds_audit.specs.ReignsState.{no_content};
ghost use Rattle.rds_audit.specs.Stored.{reigns_stored};

use crate::LogStart;
use crate::audited::Audited;
use crate::content::halves;
use crate::stored::{StoredCell, StoredReigns};
use rds_fields::Distance;

impl StoredReigns {
    /// Makes the state of a service before the first slot of a log that begins so.
    pub(crate) fn new<S: Audited>(distance: Distance, start: LogStart) -> StoredReigns
        requires { 0 < distance }
        ensures { reigns_stored result
            ≡ record { ages = ages_at start distance; content = no_content S.gauge.lengths } }
    {
        let age = start.age(distance);
        StoredReigns {
            lengths: halves(S::LENGTHS),
            since_last: age,
            since_before: age,
            since_start: 0,
            cells: [StoredCell::none(); 16],
            is_open: 0,
            flag: 0,
            tags_end: 0,
            turns: 1,
        }
    }
}
