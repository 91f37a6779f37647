//! The last segment heard at each address.
ghost use Rattle.std.specs.Prelude.{◌≡◌, ◌≢◌, ◌-◌, ◌<◌, ◌==◌, ◌↔◌, ℕ, IsTrue, map};
ghost use Rattle.std.specs.Int.{bit_at};
ghost use Rattle.rds_receiver.specs.Confirming.{RepeatsSegment, cell_in, one_slot_older};

use crate::Fragment;
use rds_assembly::is_same_segment;

/// The number of cells of text segments, one for each address.
pub(crate) const TEXT_CELLS: u8 = 16;

/// The number of all cells. Name segments have the last two.
const CELLS: usize = 18;

/// The last segment heard at each address, as plain numbers. Text address a has cell a, and name address a cell 16 + a.
#[repr(C)]
#[derive(Clone, Copy)]
pub struct StoredLastSegments {
    /// Bit c is the flag of the segment in cell c.
    pub flags: u32,
    /// The bytes of the segment in each cell.
    pub bytes: [[u8; 4]; CELLS],
    /// For how many more slots, the current one included, the segment in each cell confirms the same one.
    pub left: [u8; CELLS],
}

impl StoredLastSegments {
    /// Makes it without a segment.
    pub(crate) fn none() -> StoredLastSegments
        ensures { (c : ℕ) → c < 18 → (cell_in result c).left ≡ 0 }
    {
        StoredLastSegments {
            flags: 0,
            bytes: [[0; 4]; CELLS],
            left: [0; CELLS],
        }
    }

    /// Ages all segments by one slot.
    pub(crate) fn grow_older(&mut self)
        ensures { (c : ℕ) → c < 18 → cell_in self.new c ≡ one_slot_older (cell_in self.old c) }
    {
        self.left = less_one(&self.left);
    }

    /// Takes a segment into its cell. It confirms the same one within the window, in slots. Returns whether the last
    /// segment of the cell confirms this one.
    pub(crate) fn take(&mut self, cell: u8, fragment: Fragment, window: u8) -> bool
        requires { cell < 18 }
        ensures again { IsTrue result ↔ RepeatsSegment fragment (cell_in self.old cell) }
        ensures taken { cell_in self.new cell
            ≡ record { flag = fragment.flag; bytes = fragment.bytes; left = window } }
        ensures others { (c : ℕ) → c < 18 → c ≢ cell → cell_in self.new c ≡ cell_in self.old c }
    {
        let again = self.confirms(cell, fragment);
        let Fragment { flag, bytes, .. } = fragment;
        self.flags = with_bit(self.flags, cell, flag);
        self.bytes[cell as usize] = bytes;
        self.left[cell as usize] = window;
        again
    }

    /// Returns whether the segment in the cell confirms this one.
    fn confirms(&self, cell: u8, fragment: Fragment) -> bool
        requires { cell < 18 }
        ensures { IsTrue result ↔ RepeatsSegment fragment (cell_in self.now cell) }
    {
        let has_flag = (self.flags >> cell & 1 == 1) == fragment.flag;
        self.left[cell as usize] > 0
            && has_flag
            && is_same_segment(&self.bytes[cell as usize], &fragment.bytes)
    }
}

/// Returns each number less one, and 0 for 0.
fn less_one(left: &[u8; CELLS]) -> [u8; CELLS]
    ensures { result ≡ map (λ n. n - 1) left.now }
{
    let mut less = [0; CELLS];
    for i in 0..CELLS {
        less[i] = left[i].saturating_sub(1);
    }
    less
}

/// Returns the flags, with this one for the cell.
fn with_bit(flags: u32, cell: u8, flag: bool) -> u32
    requires { cell < 18 }
    ensures taken { (bit_at result cell == 1) ≡ flag }
    ensures others { (c : ℕ) → c < 18 → c ≢ cell → bit_at result c ≡ bit_at flags c }
{
    if flag {
        flags | 1 << cell
    } else {
        flags & !(1 << cell)
    }
}
