//! Programme type names: eight bytes in two segments.
ghost use Rattle.std.specs.Prelude.{◌≡◌, ℕ, ◌≤◌, IfSome, IfNone, List, take};
ghost use Rattle.std.specs.FinMap as map;
ghost use Rattle.rds_assembly.specs.Cells.{Cells};
ghost use Rattle.rds_assembly.specs.Held.{held_cells};

use crate::Service;
use crate::text::LONGEST_TEXT;

/// The number of bytes of a name (IEC 62106, programme type name).
pub const NAME_LENGTH: usize = 8;

/// The service of programme type names, in groups 10A (IEC 62106, programme type name).
#[derive(Clone, Copy, Debug, PartialEq, Eq)]
pub struct TypeName;

impl Service for TypeName {
    ghost use Rattle.rds_assembly.specs.Whole.{IsWholeName};
    ghost use Rattle.rds_assembly.specs.Body.{name_body};
    ghost use Rattle.rds_assembly.specs.Value.{IsName};
    ghost use Rattle.rds_assembly.specs.ServiceLaws.{two_are_few, no_name_of_none, one_name};
    ghost use Rattle.rds_assembly.specs.OwnSegments.{all_name, own_name};

    ghost SEGMENTS = { 2 };

    const SEGMENTS: u8 = 2;

    ghost is_whole = { IsWholeName };

    ghost is_value = { IsName };

    ghost body_of = { name_body };

    ghost few = { two_are_few };

    ghost none = { no_name_of_none };

    ghost one = { one_name };

    ghost own = { own_name };

    ghost all = { all_name };

    /// Returns 8 if both segments are held. `None` otherwise.
    fn length(_bytes: &[u8; LONGEST_TEXT], mask: u16) -> Option<usize> {
        if mask & 0b11 == 0b11 {
            Some(NAME_LENGTH)
        } else {
            None
        }
    }
}
