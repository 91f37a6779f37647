//! RadioText: up to 64 bytes in sixteen segments. A carriage return ends a shorter text.
ghost use Rattle.std.specs.Prelude.{◌≡◌, ℕ, ◌≤◌, IfSome, IfNone, List, take};
ghost use Rattle.std.specs.FinMap as map;
ghost use Rattle.rds_assembly.specs.Cells.{Cells};
ghost use Rattle.rds_assembly.specs.Held.{held_cells};

use crate::Service;
use crate::lanes::{returns_in, spread};
use crate::text::LONGEST_TEXT;

/// The byte that ends a text of fewer than 64 bytes (IEC 62106, RadioText).
pub const CARRIAGE_RETURN: u8 = 0x0D;

/// The service of texts, in groups 2A (IEC 62106, RadioText).
#[derive(Clone, Copy, Debug, PartialEq, Eq)]
pub struct RadioText;

impl Service for RadioText {
    ghost use Rattle.rds_assembly.specs.Whole.{IsWholeText};
    ghost use Rattle.rds_assembly.specs.Body.{text_body};
    ghost use Rattle.rds_assembly.specs.Value.{IsText};
    ghost use Rattle.rds_assembly.specs.ServiceLaws.{sixteen_are_few, no_text_of_none, one_text};
    ghost use Rattle.rds_assembly.specs.OwnSegments.{all_text, own_text};

    ghost SEGMENTS = { 16 };

    const SEGMENTS: u8 = 16;

    ghost is_whole = { IsWholeText };

    ghost is_value = { IsText };

    ghost body_of = { text_body };

    ghost few = { sixteen_are_few };

    ghost none = { no_text_of_none };

    ghost one = { one_text };

    ghost own = { own_text };

    ghost all = { all_text };

    /// Returns the number of bytes before the first held carriage return, or 64 if no carriage return is held. `None`
    /// if one of these bytes is not held.
    fn length(bytes: &[u8; LONGEST_TEXT], mask: u16) -> Option<usize> {
        let held = spread(mask);
        // The place of the first held carriage return, or 64, the end of a full text.
        let place = (returns_in(bytes) & held).trailing_zeros();
        if place <= held.trailing_ones() {
            Some(place as usize)
        } else {
            None
        }
    }
}
