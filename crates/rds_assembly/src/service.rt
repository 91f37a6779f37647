//! The text services: their values, segments and laws.
ghost use Rattle.std.specs.Prelude.{◌≡◌, ℕ, ◌≤◌, IfSome, IfNone, List, take};
ghost use Rattle.std.specs.FinMap as map;
ghost use Rattle.rds_assembly.specs.Cells.{Cells};
ghost use Rattle.rds_assembly.specs.Held.{held_cells};
ghost use Rattle.rds_assembly.specs.Body.{AreAllHeld, AreSegmentsOf};

use crate::text::LONGEST_TEXT;

/// A service whose values are sent in segments of four bytes, each at an address.
pub trait Service {
    ghost SEGMENTS: { ℕ };

    /// The number of addresses.
    const SEGMENTS: u8;

    /// The cells make the value whole.
    ghost is_whole: { Cells → List ℕ → Type 0 };

    /// The bytes are a value that may be sent.
    ghost is_value: { List ℕ → Type 0 };

    /// The body that is sent for a value, four bytes in a segment.
    ghost body_of: { List ℕ → List ℕ };

    /// Returns the length of the value that the held segments make whole. Its bytes are the first of these. `None` if
    /// they make none whole. Segment a has the bytes at the places 4 * a to 4 * a + 3, and is held if bit a of the mask
    /// is 1.
    fn length(bytes: &[u8; LONGEST_TEXT], mask: u16) -> Option<usize>
        ensures within { IfSome result (λ n. n ≤ 64) }
        ensures whole { IfSome result (λ n. is_whole (held_cells mask bytes.now)
            (take n bytes.now)) }
        ensures none { IfNone result ((x : List ℕ)
            → is_whole (held_cells mask bytes.now) x → ⊥) };

    /// An address has at most four bits.
    // Prover: without this law `put` could index beyond the cells (PROVER.md, "Workarounds").
    ghost few: { SEGMENTS ≤ 16 };

    /// Without cells no value is whole.
    // Prover: without this law `new` could show a value (PROVER.md, "Workarounds").
    ghost none: { (x : List ℕ) → is_whole map.empty x → ⊥ };

    /// Cells make at most one value whole.
    ghost one: { (cells : Cells) (x y : List ℕ) → is_whole cells x → is_whole cells y → x ≡ y };

    /// Cells from the segments of one value make that value whole, or none.
    ghost own: { (cells : Cells) (x y : List ℕ) → is_value x → AreSegmentsOf (body_of x) cells
        → is_whole cells y → y ≡ x };

    /// All segments of a value make it whole.
    ghost all: { (cells : Cells) (x : List ℕ) → is_value x → AreAllHeld (body_of x) cells
        → is_whole cells x };
}
