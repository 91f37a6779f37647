//! The content of a reign: its segments and tags.
ghost use Rattle.std.specs.Prelude.{◌≡◌, ◌+◌, ◌*◌, ◌^◌, ◌<◌, ◌≤◌, ◌↔◌, IsTrue, None, Some, slice_index};
ghost use Rattle.rds_audit.specs.ReignsState.{cell_at, changes_in, measured_in, no_content, tagged, taken};
ghost use Rattle.rds_audit.specs.Lengths.{is_past, pair_end, tag_end};
ghost use Rattle.rds_audit.specs.Stored.{ages_stored, cell_stored, content_stored, lengths_stored};

use crate::audited::{Audited, Measured, PaddedTexts, lengths_at, lengths_beside};
use crate::stored::{StoredCell, StoredReigns};
use rds_assembly::CARRIAGE_RETURN;
use rds_fields::{Tag, TagPair};

impl StoredCell {
    /// Makes the cell of an address at which nothing was sent.
    pub fn none() -> StoredCell
        ensures { cell_stored result ≡ None }
    {
        StoredCell {
            bytes: [0; 4],
            is_sent: 0,
        }
    }
}

impl StoredReigns {
    /// Drops the segments and the tags.
    pub(crate) fn clear<S: Audited>(&mut self)
        ensures content { content_stored self.new ≡ no_content S.LENGTHS }
        ensures ages { ages_stored self.new ≡ ages_stored self.old }
    {
        self.cells = [StoredCell::none(); 16];
        self.set_lengths(S::LENGTHS);
        self.tags_end = 0;
    }

    /// Returns the lengths that the value can have, a bit for each.
    pub(crate) fn lengths(&self) -> u128
        ensures { result ≡ lengths_stored self.now }
    {
        u128::from(self.lengths[1]) << 64 | u128::from(self.lengths[0])
    }

    fn set_lengths(&mut self, lengths: u128)
        ensures set { lengths_stored self.new ≡ lengths }
        ensures kept { self.new ≡ record self.old { lengths = self.new.lengths } }
    {
        self.lengths = halves(lengths);
    }

    /// Returns whether the segment of this address has these bytes.
    pub(crate) fn has(&self, address: u8, bytes: [u8; 4]) -> bool
        requires { address < 16 }
        ensures { IsTrue result ↔ (cell_at address (content_stored self.now) ≡ Some bytes) }
    {
        self.sent_at(address) == Some(bytes)
    }

    /// Takes a segment, whatever the segments and tags before. Returns whether some value has it beside the segments
    /// before it.
    pub(crate) fn put<S: Audited>(&mut self, address: u8, bytes: [u8; 4]) -> bool
        requires { address < S.gauge.segments }
        ensures fits { result ≡ (measured_in S.gauge address bytes (content_stored self.old)).fits }
        ensures taken { content_stored self.new
            ≡ taken (measured_in S.gauge address bytes (content_stored self.old)).lengths address bytes
            (content_stored self.old) }
        ensures ages { ages_stored self.new ≡ ages_stored self.old }
    {
        let measured = self.measure::<S>(address, bytes);
        self.cells[address as usize] = StoredCell { bytes, is_sent: 1 };
        self.set_lengths(measured.lengths);
        measured.fits
    }

    /// Returns what a segment leaves of the lengths. One that leaves none leaves them as they are.
    fn measure<S: Audited>(&self, address: u8, bytes: [u8; 4]) -> Measured
        requires { address < S.gauge.segments }
        ensures { result ≡ measured_in S.gauge address bytes (content_stored self.now) }
    {
        let before = self.lengths();
        let held = self.sent_at(address);
        if held == Some(bytes) {
            return Measured {
                lengths: before,
                fits: true,
            };
        }
        let left = before
            & (lengths_at::<S>(address, bytes) & lengths_beside::<S>(address, held, bytes));
        if left == 0 {
            return Measured {
                lengths: before,
                fits: false,
            };
        }
        Measured {
            lengths: left,
            fits: true,
        }
    }

    /// Takes the ends of a pair of tags, wherever they are.
    pub(crate) fn reach(&mut self, pair: TagPair)
        ensures tagged { content_stored self.new ≡ tagged pair (content_stored self.old) }
        ensures ages { ages_stored self.new ≡ ages_stored self.old }
    {
        self.tags_end = self.tags_end.max(end_of_pair(pair));
    }

    /// Returns whether the address was sent with other bytes, and no value has both.
    pub(crate) fn is_changed_by<S: Audited>(&self, address: u8, bytes: [u8; 4]) -> bool
        requires { address < S.gauge.segments }
        ensures { result ≡ changes_in S.gauge address bytes (content_stored self.now) }
    {
        let Some(held) = self.sent_at(address) else {
            return false;
        };
        if held == bytes {
            return false;
        }
        !self.measure::<S>(address, bytes).fits
    }

    /// Returns whether some text has all of the segments, with padding. For a person; no contract speaks of it.
    pub(crate) fn fits_padded(&self) -> bool {
        let mut left = PaddedTexts::LENGTHS;
        for (address, cell) in self.cells.iter().enumerate() {
            if cell.is_sent != 0 {
                left &= lengths_at::<PaddedTexts>(address as u8, cell.bytes);
            }
        }
        left != 0
    }

    /// Returns the least number of bytes that the value can have, for a person. No contract speaks of it.
    pub(crate) fn least(&self) -> u8 {
        self.lengths().trailing_zeros() as u8
    }

    /// Returns the greatest number of bytes that the value can have, for a person. No contract speaks of it.
    pub(crate) fn most(&self) -> u8 {
        127 - self.lengths().leading_zeros().min(127) as u8
    }

    /// Returns the bytes that were sent at the address, if any.
    pub(crate) fn sent_at(&self, address: u8) -> Option<[u8; 4]>
        requires { address < 16 }
        ensures { result ≡ cell_at address (content_stored self.now) }
    {
        let cell = self.cells[address as usize];
        if cell.is_sent != 0 {
            Some(cell.bytes)
        } else {
            None
        }
    }
}

/// Returns whether these segments make a complete text: all of them up to a carriage return came, or all 16. A receiver
/// shows no other text. No contract speaks of it.
pub fn is_complete_text(cells: &[StoredCell; 16]) -> bool {
    for cell in cells {
        if cell.is_sent == 0 {
            return false;
        }
        if cell.bytes.contains(&CARRIAGE_RETURN) {
            return true;
        }
    }
    true
}

/// Returns the two numbers of a set of lengths, the lower one first.
pub(crate) fn halves(lengths: u128) -> [u64; 2]
    ensures { slice_index result 1 * 2 ^ 64 + slice_index result 0 ≡ lengths }
{
    [(lengths % (1 << 64)) as u64, (lengths / (1 << 64)) as u64]
}

/// Returns whether each of these lengths is below this end.
#[tactic(auto, using(crate::proofs::LengthSets::past_far))]
pub(crate) fn is_past(lengths: u128, end: u8) -> bool
    ensures { result ≡ is_past lengths end }
{
    end >= 128 || lengths >> end == 0
}

/// Returns the greater place after the piece of a tag of the pair.
fn end_of_pair(pair: TagPair) -> u8
    ensures { result ≡ pair_end pair }
{
    end_of_tag(pair.one()).max(end_of_tag(pair.two()))
}

/// Returns the place after the piece of a tag; 0 for the dummy.
fn end_of_tag(tag: Tag) -> u8
    ensures { result ≡ tag_end tag }
{
    if tag.class() == 0 { 0 } else { tag.end() }
}
