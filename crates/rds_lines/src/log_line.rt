//! One line of a log, and its meaning.
ghost use Rattle.std.specs.Prelude.{◌≡◌, ◌<◌, ◌≤◌, ◌+◌, ◌↔◌, None, Option, Some, length, slice_index, IsTrue, IfSome};
ghost use Rattle.std.specs.Prelude.{IfNone};
ghost use Rattle.rds_block.specs.declared.group.Group.{Group};
ghost use Rattle.rds_lines.specs.declared.log_line.Block.{Block};
ghost use Rattle.rds_lines.specs.declared.log_line.LogLine.{LogLine};
ghost use Rattle.rds_lines.specs.LogLines.{content_length};
ghost use Rattle.rds_lines.specs.LineSays.{Carry, HasDashes, HasSpaces, IsBad, IsBlock, IsLaidOut, IsSkipped, LineSays};
ghost use Rattle.rds_lines.specs.LineSays.{SaysSlot, block_word};

use arrayvec::ArrayVec;
use rds_block::Blocks;
use rds_io::{four_words, word_at};

/// The number of bytes of the four blocks of a slot line and the spaces between them.
pub(crate) const BLOCKS: usize = 19;

/// The most bytes that are kept of a line: as many as a note on a malformed line shows. The first 21 of them decide the
/// meaning: the blocks, the byte after them, and one more, since a carriage return counts only at the end of a line.
pub const DECIDING: usize = 60;

/// The first bytes of a line.
pub(crate) type LineStart = ArrayVec<u8, DECIDING>;

/// The meaning of a line.
#[derive(Clone, Copy)]
pub enum LogLine {
    /// The line is skipped: it is not a slot.
    Skip,
    /// The line is a slot with this group, or a slot without a group.
    Slot(Option<Blocks>),
}

/// A block of a slot line.
#[derive(Clone, Copy)]
pub(crate) enum Block {
    /// Four hexadecimal digits.
    Word(u16),
    /// Four dashes.
    Missing,
}

impl Block {
    fn word(self) -> Option<u16>
        ensures { result ≡ block_word self }
    {
        match self {
            Block::Word(word) => Some(word),
            Block::Missing => None,
        }
    }
}

/// Returns the meaning of a line, from its first bytes. `None` for a malformed line.
// With `?` in the cold paths, the lines of groups do not clear the room of their results.
#[inline(always)]
pub(crate) fn said_by(line: &[u8]) -> Option<LogLine>
    ensures some { IfSome result (LineSays line.now) }
    ensures none { IfNone result (IsBad line.now) }
{
    if !is_laid_out(line) {
        let said = said_of_no_slot(line)?;
        return Some(said);
    }
    if let Some(group) = group_of(line) {
        return Some(LogLine::Slot(Some(group)));
    }
    let said = said_of_blocks(line)?;
    Some(said)
}

/// Returns the group of a line with four words, as most lines are.
#[inline(always)]
fn group_of(line: &[u8]) -> Option<Blocks>
    requires { IsLaidOut line.now }
    ensures { IfSome result (λ group. LineSays line.now (LogLine.Slot (Some group))) }
{
    let words = four_words(line)?;
    Some(Blocks::new(words))
}

/// Returns the meaning of a line that is not laid out as a slot.
// Cold path.
#[inline(never)]
fn said_of_no_slot(line: &[u8]) -> Option<LogLine>
    requires { IsLaidOut line.now → ⊥ }
    ensures some { IfSome result (LineSays line.now) }
    ensures none { IfNone result (IsBad line.now) }
{
    if is_skipped(line, content_length(line)) {
        return Some(LogLine::Skip);
    }
    None
}

/// Returns the meaning of a line that is laid out as a slot.
// Cold path.
#[inline(never)]
#[tactic(auto, using(crate::proofs::Cutting::bad_by_slot))]
fn said_of_blocks(line: &[u8]) -> Option<LogLine>
    requires { IsLaidOut line.now }
    ensures some { IfSome result (LineSays line.now) }
    ensures none { IfNone result (IsBad line.now) }
{
    if has_no_word(line) {
        return Some(LogLine::Slot(None));
    }
    if is_skipped(line, content_length(line)) {
        return Some(LogLine::Skip);
    }
    let slot = slot_of_blocks(line)?;
    Some(LogLine::Slot(slot))
}

/// Returns whether all four blocks of the line are missing.
#[inline(always)]
fn has_no_word(line: &[u8]) -> bool
    requires { 19 ≤ length line.now }
    ensures { IsTrue result → SaysSlot line.now None }
{
    is_missing(line, 0) && is_missing(line, 5) && is_missing(line, 10) && is_missing(line, 15)
}

/// Returns how many bytes the line has without one carriage return at its end.
pub(crate) fn content_length(line: &[u8]) -> usize
    ensures value { result ≡ content_length line.now }
    ensures within { result ≤ length line.now }
{
    if line.len() > 0 && line[line.len() - 1] == b'\r' {
        line.len() - 1
    } else {
        line.len()
    }
}

#[inline(always)]
pub(crate) fn is_skipped(line: &[u8], length: usize) -> bool
    requires { length ≡ content_length line.now }
    ensures { IsTrue result ↔ IsSkipped line.now }
{
    length == 0 || line[0] == b'<' || line[0] == b'#' || line[0] == b'%'
}

/// Returns whether a line has the layout of a slot. Most have a text behind their blocks, and need no look at their
/// end.
#[inline(always)]
fn is_laid_out(line: &[u8]) -> bool
    ensures { IsTrue result ↔ IsLaidOut line.now }
{
    has_text(line) || is_blocks_alone(line)
}

/// Returns whether a text follows the blocks of a line.
#[inline(always)]
fn has_text(line: &[u8]) -> bool
    ensures { IsTrue result ↔ ((19 < length line.now) × HasSpaces line.now × (slice_index line.now 19 ≡ 32)) }
{
    line.len() > BLOCKS && has_spaces(line) && line[BLOCKS] == b' '
}

/// Returns whether a line has the blocks and nothing behind them.
#[inline(always)]
fn is_blocks_alone(line: &[u8]) -> bool
    ensures { IsTrue result ↔ ((content_length line.now ≡ 19) × HasSpaces line.now) }
{
    ends_at_blocks(line) && has_spaces(line)
}

/// Returns whether a line has as many bytes as the blocks, beside one carriage return at its end.
#[inline(always)]
fn ends_at_blocks(line: &[u8]) -> bool
    ensures { IsTrue result ↔ (content_length line.now ≡ 19) }
{
    match line.len() {
        19 => line[18] != b'\r',
        20 => line[19] == b'\r',
        _ => false,
    }
}

/// Returns whether there are spaces between the blocks.
#[inline(always)]
fn has_spaces(line: &[u8]) -> bool
    requires { 19 ≤ length line.now }
    ensures { IsTrue result ↔ HasSpaces line.now }
{
    line[4] == b' ' && line[9] == b' ' && line[14] == b' '
}

/// Returns the group of a line's four blocks. `None` if a block is malformed.
// Cold path.
#[inline(never)]
fn slot_of_blocks(line: &[u8]) -> Option<Option<Blocks>>
    requires { 19 ≤ length line.now }
    ensures some { IfSome result (SaysSlot line.now) }
    ensures none { IfNone result ((slot : Option Group) → SaysSlot line.now slot → ⊥) }
{
    let first = block_at(line, 0)?;
    let second = block_at(line, 5)?;
    let third = block_at(line, 10)?;
    let fourth = block_at(line, 15)?;
    Some(carried(first, second, third, fourth))
}

/// Returns the group of four blocks. `None` if a block is missing.
#[inline(always)]
fn carried(first: Block, second: Block, third: Block, fourth: Block) -> Option<Blocks>
    ensures { Carry first second third fourth result }
{
    let blocks = [first.word()?, second.word()?, third.word()?, fourth.word()?];
    Some(Blocks::new(blocks))
}

/// Returns the block at this place. `None` if it is malformed.
#[inline(always)]
pub(crate) fn block_at(line: &[u8], place: usize) -> Option<Block>
    requires { place + 4 ≤ length line.now }
    ensures some { IfSome result (IsBlock line.now place) }
    ensures none { IfNone result ((block : Block) → IsBlock line.now place block → ⊥) }
{
    if let Some(word) = word_at(line, place) {
        return Some(Block::Word(word));
    }
    if is_missing(line, place) {
        return Some(Block::Missing);
    }
    None
}

/// Returns whether four dashes are at this place. Compares them as one number.
#[inline(always)]
fn is_missing(line: &[u8], place: usize) -> bool
    requires { place + 4 ≤ length line.now }
    ensures { IsTrue result ↔ HasDashes line.now place }
{
    let block = [
        line[place],
        line[place + 1],
        line[place + 2],
        line[place + 3],
    ];
    u32::from_le_bytes(block) == u32::from_le_bytes(*b"----")
}
