//! The log that reaches a receiver, made from the log of a station.
ghost use Rattle.std.specs.Prelude.{◌≡◌, ◌+◌, ◌<◌, ◌≤◌, ◌^◌, ◌∷◌, [], ℕ, IfOk, IfSome, filter, length, slice_get, true};
ghost use Rattle.std.specs.Option.{option_map_or};
ghost use Rattle.rds_lines.specs.LogLines.{IsLine};
ghost use Rattle.rds_wire.specs.Headline as specs;
ghost use Rattle.rds_wire.specs.Headline.{Reaches, lines, slots};

use rds_fields::Late;
use rds_lines::line_end;
use std::alloc::{AllocError, Global};

/// The line of a slot in which a receiver got nothing.
const LOST: &[u8] = b"---- ---- ---- ----";

/// Returns the log that a receiver gets. In each slot it gets what the station's log has in the slot that the arrival
/// names, or nothing. An arrival counts only if its slot is in the log, at most `late` slots ago, and after those that
/// came before.
pub(crate) fn received(
    alloc: Global,
    log: &[u8],
    late: Late,
    arrivals: &[Option<usize>],
) -> Result<Vec<u8>, AllocError>
    ensures reaches { IfOk result (λ got. (pi : ℕ) → Reaches pi late log.now got.items) }
    ensures slots { IfOk result (λ got. length (slots got.items) ≡ length arrivals.now) }
{
    let mut got = Vec::new(alloc);
    let mut next = 0;
    for slot in 0..arrivals.len() {
        let came = arrival(log, late, slot, next, arrivals[slot]);
        match came {
            Some((sent, line)) => {
                got.extend_from_slice(line)?;
                next = sent + 1;
            }
            None => got.extend_from_slice(LOST)?,
        }
        got.push(b'\n')?;
    }
    Ok(got)
}

/// Returns the slot of the log that an arrival in this slot names, and its line, if the arrival counts.
fn arrival<'a>(
    log: &'a [u8],
    late: Late,
    slot: usize,
    next: usize,
    named: Option<usize>,
) -> Option<(usize, &'a [u8])>
    ensures line { IfSome result (λ came. slice_get (filter specs.is_slot (lines log.now)) came.0 ≡ Some came.1.now) }
    ensures is { IfSome result (λ came. IsLine came.1.now) }
    ensures is_slot { IfSome result (λ came. specs.is_slot came.1.now ≡ true) }
    ensures due { IfSome result (λ came. (next ≤ came.0) × (came.0 ≤ slot) × (slot ≤ came.0 + late)) }
{
    let sent = named?;
    if sent < next || sent > slot || slot - sent > usize::from(late.get()) {
        return None;
    }
    let line = slot_line(log, sent)?;
    Some((sent, line))
}

/// Returns the line of this slot of a log.
fn slot_line(log: &[u8], slot: usize) -> Option<&[u8]>
    ensures line { IfSome result (λ line. slice_get (filter specs.is_slot (lines log.now)) slot ≡ Some line.now) }
    ensures is { IfSome result (λ line. IsLine line.now) }
    ensures is_slot { IfSome result (λ line. specs.is_slot line.now ≡ true) }
{
    let mut left = slot;
    let mut rest = Some(log);
    while let Some(text) = rest {
        let (line, more) = first_line(text);
        if is_slot(line) {
            if left == 0 {
                return Some(line);
            }
            left -= 1;
        }
        rest = more;
    }
    None
}

/// Returns the first line of a text, and what follows its line feed.
fn first_line(text: &[u8]) -> (&[u8], Option<&[u8]>)
    ensures lines { lines text.now ≡ result.0.now ∷ option_map_or (λ rest. lines rest.now) result.1 [] }
    ensures line { IsLine result.0.now }
    ensures shorter { IfSome result.1 (λ rest. length rest.now < length text.now) }
{
    match line_end(text) {
        Some(end) => (&text[..end], Some(&text[end + 1..])),
        None => (text, None),
    }
}

/// Returns whether a line is that of a slot.
fn is_slot(line: &[u8]) -> bool
    ensures { result ≡ specs.is_slot line.now }
{
    match line.first() {
        None => false,
        Some(first) => !matches!(*first, b'#' | b'%' | b'<' | b'\r'),
    }
}
