//! A text and its segments.
ghost use Rattle.std.specs.Prelude.{◌≡◌, ℕ, ◌<◌, ◌≤◌, ◌↔◌, List, length, slice_index, IsOk, IfOk, IfErr};
ghost use Rattle.rds_assembly.specs.Body.{segment_count, segment_of, text_body};
ghost use Rattle.rds_assembly.specs.Value.{IsRefusedFor, IsText, is_text_byte};

use crate::radio_text::CARRIAGE_RETURN;
use std::marker::Model;
use thiserror::Error;

/// Why bytes are not a valid text or name.
#[derive(Clone, Copy, Debug, PartialEq, Eq, Error)]
pub enum TextRefused {
    /// There are more than 64 bytes, or more than eight for a name.
    #[error("there are too many bytes")]
    TooLong,
    /// The byte at this place, counted from 0, is the first one that is not allowed.
    #[error("the byte at place {0} may not stand there")]
    BadByte(usize),
}

/// The most bytes of a text (IEC 62106, RadioText).
pub const LONGEST_TEXT: usize = 64;

/// A RadioText of at most 64 bytes (IEC 62106, RadioText). Contracts see its bytes.
// Prover: zeros follow the text, so that each list of bytes has exactly one buffer (PROVER.md, "Workarounds").
#[derive(Clone, Copy, Debug, PartialEq, Eq)]
pub struct Text {
    buffer: [u8; LONGEST_TEXT],
    end: u8,
}

impl Model for Text {
    ghost use Rattle.std.specs.Prelude.{List, ℕ, take, length};
    ghost use Rattle.rds_assembly.specs.Filled.{IsZeroFilled, zero_filled, filled_back, end_back};

    ghost Value = { List ℕ };

    ghost view = { λ t. take t.end t.buffer };

    ghost invariant = { λ t. IsZeroFilled t.end t.buffer };

    ghost inverse = { λ x. record { buffer = zero_filled x; end = length x } };

    ghost inverse_ok = { λ t h i. record {
      buffer = filled_back t.end t.buffer h i;
      end = end_back t.end t.buffer h i;
    } };
}

impl Text {
    /// Makes the text of these bytes.
    ///
    /// # Errors
    ///
    /// [`TextRefused`] if there are more than 64 bytes, or else for the first byte that is not allowed.
    pub fn new(bytes: &[u8]) -> Result<Text, TextRefused>
        ensures accepted { IsOk result ↔ IsText bytes.now }
        ensures value { IfOk result (λ text. text ≡ bytes.now) }
        ensures refused { IfErr result (IsRefusedFor 64 is_text_byte bytes.now) }
    {
        if bytes.len() > LONGEST_TEXT {
            return Err(TextRefused::TooLong);
        }
        if let Some(place) = bytes.iter().position(|byte| !is_text_byte(*byte)) {
            return Err(TextRefused::BadByte(place));
        }
        let mut buffer = [0; LONGEST_TEXT];
        buffer[..bytes.len()].copy_from_slice(bytes);
        Ok(Text {
            buffer,
            end: bytes.len() as u8,
        })
    }

    /// Returns the bytes, borrowed from the text.
    pub fn bytes(&self) -> &[u8]
        ensures value { result.now ≡ self.now }
        ensures text { IsText self.now }
    {
        &self.buffer[..self.end as usize]
    }

    /// Returns the number of segments, 1 to 16.
    pub fn count(&self) -> u8
        ensures value { result ≡ segment_count (text_body self.now) }
        ensures some { 0 < result }
        ensures few { result ≤ 16 }
    {
        text_count(self.bytes())
    }

    /// Returns the segment at the address.
    pub fn segment(&self, address: u8) -> [u8; 4]
        requires { address < segment_count (text_body self.now) }
        ensures { result ≡ segment_of (text_body self.now) address }
    {
        text_segment(self.bytes(), address)
    }
}

/// Returns the number of segments of a text with these bytes, 1 to 16.
pub fn text_count(text: &[u8]) -> u8
    requires { length text.now ≤ 64 }
    ensures value { result ≡ segment_count (text_body text.now) }
    ensures some { 0 < result }
    ensures few { result ≤ 16 }
{
    if text.len() == LONGEST_TEXT {
        16
    } else {
        text.len() as u8 / 4 + 1
    }
}

/// Returns the segment at the address of a text with these bytes. An address past its segments gives arbitrary bytes.
pub fn text_segment(text: &[u8], address: u8) -> [u8; 4]
    ensures { address < segment_count (text_body text.now) → result ≡ segment_of (text_body text.now) address }
{
    let first = address as usize * 4;
    // most segments end in the text
    if first + 4 <= text.len() {
        return [
            text[first],
            text[first + 1],
            text[first + 2],
            text[first + 3],
        ];
    }
    [
        sent(text, first),
        sent(text, first + 1),
        sent(text, first + 2),
        sent(text, first + 3),
    ]
}

/// Returns the byte at this place of the body: after the text come a carriage return and spaces.
fn sent(text: &[u8], place: usize) -> u8
    ensures { place < length (text_body text.now) → result ≡ slice_index (text_body text.now) place }
{
    if place < text.len() {
        text[place]
    } else if place == text.len() {
        CARRIAGE_RETURN
    } else {
        b' '
    }
}

/// Returns whether a text may have this byte: 0x20 or above, the line feed (0x0A), the end of a headline (0x0B) or the
/// soft hyphen (0x1F) (IEC 62106, RadioText; refusing other control characters is this project's own rule).
pub fn is_text_byte(byte: u8) -> bool
    ensures { result ≡ is_text_byte byte }
{
    matches!(byte, 0x0A | 0x0B | 0x1F | 0x20..)
}
