//! The held segments of a value, and the value that they make whole.
ghost use Rattle.std.specs.Prelude.{◌≡◌, ℕ, ◌<◌, ◌≤◌, ◌↔◌, IsFalse, IsTrue, IfSome, IfNone, List, length};
ghost use Rattle.std.specs.Ordering.{nat_cmp};
ghost use Rattle.std.specs.FinMap as map;
ghost use Rattle.rds_assembly.specs.Held.{held_cells};

use crate::Service;
use crate::text::LONGEST_TEXT;
use std::marker::{Model, PhantomData};

/// The held segments of one service, each at its address. Contracts see the map of cells.
#[derive(Drop)]
pub struct Assembly<S: Service> {
    /// Segment a has the places 4 * a to 4 * a + 3.
    bytes: [u8; LONGEST_TEXT],
    /// Bit a is 1 if segment a is held.
    mask: u16,
    service: PhantomData<S>,
}

impl<S: Service> Model for Assembly<S> {
    ghost use Rattle.std.specs.Prelude.{ℕ, List};
    ghost use Rattle.std.specs.Ordering.{nat_cmp};
    ghost use Rattle.std.specs.FinMap as map;
    ghost use Rattle.std.specs.Coded.{coded_ℕ, coded_list};

    ghost Value = { map.FinMap nat_cmp (List ℕ) };

    ghost coded = { map.code coded_ℕ (coded_list coded_ℕ) };

    ghost use Rattle.rds_assembly.specs.Held.{held_cells};

    ghost view = { λ a. held_cells a.mask a.bytes };
}

impl<S: Service> Assembly<S> {
    /// Makes an assembly without segments.
    #[tactic(auto, using(crate::proofs::HeldLemmas::nothing_held))]
    pub fn new() -> Self
        ensures { result ≡ map.empty }
    {
        Assembly {
            bytes: [0; LONGEST_TEXT],
            mask: 0,
            service: PhantomData,
        }
    }

    /// Drops all segments.
    #[tactic(auto, using(crate::proofs::HeldLemmas::nothing_held))]
    pub fn clear(&mut self)
        ensures { self.new ≡ map.empty }
    {
        self.mask = 0;
    }

    /// Holds the segment at its address, in place of the one that was held there. Returns false if that one has the
    /// same bytes; then nothing changes.
    pub fn put(&mut self, address: u8, bytes: [u8; 4]) -> bool
        requires { address < S.SEGMENTS }
        ensures put { self.new ≡ map.insert self.old address bytes }
        ensures same { IsFalse result → self.new ≡ self.old }
    {
        if has_segment(&self.bytes, self.mask, address, bytes) {
            return false;
        }
        self.mask = hold(&mut self.bytes, self.mask, address, bytes);
        true
    }

    /// Returns whether a segment is held at the address.
    pub fn has(&self, address: u8) -> bool
        requires { address < S.SEGMENTS }
        ensures { result ≡ map.contains_key self.now address }
    {
        self.mask >> address & 1 == 1
    }

    /// Returns whether no segment is held.
    #[tactic(auto, using(std::proofs::lemmas::Bool::Decides::nat_tests, crate::proofs::HeldLemmas::no_bit, crate::proofs::HeldLemmas::nothing_held))]
    pub fn is_empty(&self) -> bool
        ensures { IsTrue result ↔ (self.now ≡ map.empty) }
    {
        self.mask == 0
    }

    /// Returns the value that the held segments make whole, borrowed from the assembly. `None` if they make none whole.
    pub fn whole(&self) -> Option<&[u8]>
        ensures some { IfSome result (λ x. S.is_whole self.now x.now) }
        ensures only { IfSome result (λ x. (y : List ℕ) → S.is_whole self.now y → y ≡ x.now) }
        ensures none { IfNone result ((x : List ℕ) → S.is_whole self.now x → ⊥) }
    {
        whole::<S>(&self.bytes, self.mask)
    }
}

/// Returns whether this segment is held: its bit of the mask is 1, and these bytes are at its places.
pub fn has_segment(bytes: &[u8; LONGEST_TEXT], mask: u16, address: u8, segment: [u8; 4]) -> bool
    requires { address < 16 }
    ensures { IsTrue result
        → held_cells mask bytes.now ≡ map.insert (held_cells mask bytes.now) address segment }
{
    let first = 4 * address as usize;
    mask >> address & 1 == 1 && is_same_segment(&bytes[first..first + 4], &segment)
}

/// Writes the segment to its places. Returns the mask, with its bit set.
pub fn hold(bytes: &mut [u8; LONGEST_TEXT], mask: u16, address: u8, segment: [u8; 4]) -> u16
    requires { address < 16 }
    ensures { held_cells result bytes.new ≡ map.insert (held_cells mask bytes.old) address segment }
{
    let first = 4 * address as usize;
    bytes[first..first + 4].copy_from_slice(&segment);
    mask | 1 << address
}

/// Returns the value that the held segments make whole, borrowed from the bytes. `None` if they make none whole.
pub fn whole<S: Service>(bytes: &[u8; LONGEST_TEXT], mask: u16) -> Option<&[u8]>
    ensures some { IfSome result (λ x. S.is_whole (held_cells mask bytes.now) x.now) }
    ensures only { IfSome result (λ x. (y : List ℕ) → S.is_whole (held_cells mask bytes.now) y → y ≡ x.now) }
    ensures none { IfNone result ((x : List ℕ) → S.is_whole (held_cells mask bytes.now) x → ⊥) }
{
    let count = S::length(bytes, mask)?;
    Some(&bytes[..count])
}

/// Returns whether two segments are equal. Compares their four bytes as one word.
pub fn is_same_segment(one: &[u8], other: &[u8]) -> bool
    requires one { length one.now ≡ 4 }
    requires other { length other.now ≡ 4 }
    ensures { IsTrue result ↔ (one.now ≡ other.now) }
{
    let word = [one[0], one[1], one[2], one[3]];
    let other_word = [other[0], other[1], other[2], other[3]];
    u32::from_le_bytes(word) == u32::from_le_bytes(other_word)
}
