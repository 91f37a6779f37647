//! Texts as UTF-8: in their printed form, and as a display shows them.
ghost use Rattle.std.specs.Prelude.{◌≡◌, ◌≢◌, ◌<◌, ◌≤◌, ◌↔◌, ◌⊎◌, ℕ, List, IsUtf8, length, take, drop};
ghost use Rattle.rds_charset.specs.Displays.{displayed};
ghost use Rattle.rds_charset.specs.Printed.{printed};
ghost use Rattle.rds_charset.specs.ReadAs.{HasBadEscape, HasNoRoom, HasUnknownCharacter, IsReadAs};
ghost use Rattle.rds_ffi.specs.Codes.{RDSRT_BAD_ESCAPE, RDSRT_NOT_UTF8, RDSRT_NO_CHARACTER, RDSRT_NO_ROOM, RDSRT_OK};
ghost use Rattle.rds_ffi.specs.Codes.{RDSRT_TOO_LONG};
ghost use Rattle.rds_ffi.specs.Texts.{IsToldBy};

use crate::codes;
use rds_assembly::LONGEST_TEXT;
use rds_charset::{TextFault, push_displayed, push_text, read_text};
use rds_io::Lines;
use std::str;

/// The most bytes of a text in its printed form.
const ROOM: usize = 4 * LONGEST_TEXT;

/// The most bytes of a text on a display.
const DISPLAY_ROOM: usize = 3 * LONGEST_TEXT;

/// Writes a text of up to 64 bytes in its printed form, which is UTF-8, and returns the number of its bytes.
///
/// # Errors
///
/// `RDSRT_TOO_LONG` if the text has more than 64 bytes. `RDSRT_NO_ROOM` if the printed form does not fit; the number is
/// then the room that it needs. Nothing is written into the slice.
#[unsafe(no_mangle)]
pub extern "C" fn rdsrt_text_to_utf8(text: &[u8], into: &mut [u8], count: &mut usize) -> u32
    ensures printed { result ≡ RDSRT_OK → take count.new into.new ≡ printed text.now }
    ensures count { result ≢ RDSRT_TOO_LONG → count.new ≡ length (printed text.now) }
    ensures rest { result ≡ RDSRT_OK → drop count.new into.new ≡ drop count.new into.old }
    ensures done { result ≡ RDSRT_OK ↔ ((length text.now ≤ 64)
        × (length (printed text.now) ≤ length into.old)) }
    ensures long { result ≡ RDSRT_TOO_LONG ↔ 64 < length text.now }
    ensures room { result ≡ RDSRT_NO_ROOM
        ↔ ((length text.now ≤ 64) × (length into.old < length (printed text.now))) }
    ensures kept { result ≢ RDSRT_OK → into.new ≡ into.old }
    ensures uncounted { result ≡ RDSRT_TOO_LONG → count.new ≡ count.old }
{
    if text.len() > LONGEST_TEXT {
        return codes::TOO_LONG;
    }
    let mut line = Lines::<ROOM>::new();
    push_text(text, &mut line);
    put_whole(line.bytes(), into, count)
}

/// Writes a text of up to 64 bytes as a display shows it, which is UTF-8, and returns the number of its bytes.
///
/// # Errors
///
/// `RDSRT_TOO_LONG` if the text has more than 64 bytes. `RDSRT_NO_ROOM` if it does not fit; the number is then the room
/// that it needs. Nothing is written into the slice.
#[unsafe(no_mangle)]
pub extern "C" fn rdsrt_text_to_display(text: &[u8], into: &mut [u8], count: &mut usize) -> u32
    ensures displayed { result ≡ RDSRT_OK → take count.new into.new ≡ displayed text.now }
    ensures count { result ≢ RDSRT_TOO_LONG → count.new ≡ length (displayed text.now) }
    ensures rest { result ≡ RDSRT_OK → drop count.new into.new ≡ drop count.new into.old }
    ensures done { result ≡ RDSRT_OK ↔ ((length text.now ≤ 64)
        × (length (displayed text.now) ≤ length into.old)) }
    ensures long { result ≡ RDSRT_TOO_LONG ↔ 64 < length text.now }
    ensures room { result ≡ RDSRT_NO_ROOM
        ↔ ((length text.now ≤ 64) × (length into.old < length (displayed text.now))) }
    ensures kept { result ≢ RDSRT_OK → into.new ≡ into.old }
    ensures uncounted { result ≡ RDSRT_TOO_LONG → count.new ≡ count.old }
{
    if text.len() > LONGEST_TEXT {
        return codes::TOO_LONG;
    }
    let mut line = Lines::<DISPLAY_ROOM>::new();
    push_displayed(text, &mut line);
    put_whole(line.bytes(), into, count)
}

/// Writes these bytes to the front of the slice, if they fit, and returns their number.
fn put_whole(bytes: &[u8], into: &mut [u8], count: &mut usize) -> u32
    ensures count { count.new ≡ length bytes.now }
    ensures written { result ≡ RDSRT_OK → take (length bytes.now) into.new ≡ bytes.now }
    ensures rest { result ≡ RDSRT_OK
        → drop (length bytes.now) into.new ≡ drop (length bytes.now) into.old }
    ensures done { result ≡ RDSRT_OK ↔ length bytes.now ≤ length into.old }
    ensures room { result ≡ RDSRT_NO_ROOM ↔ length into.old < length bytes.now }
    ensures kept { result ≢ RDSRT_OK → into.new ≡ into.old }
    ensures codes { (result ≡ RDSRT_OK) ⊎ (result ≡ RDSRT_NO_ROOM) }
{
    let needed = bytes.len();
    *count = needed;
    if into.len() < needed {
        return codes::NO_ROOM;
    }
    into[..needed].copy_from_slice(bytes);
    codes::OK
}

/// Reads a text in its printed form into the front of the slice, and returns the number of its bytes.
///
/// # Errors
///
/// `RDSRT_NOT_UTF8`; then `RDSRT_BAD_ESCAPE` or `RDSRT_NO_CHARACTER`, whichever comes first, with its place in bytes;
/// then `RDSRT_NO_ROOM`. Nothing is written into the slice.
#[unsafe(no_mangle)]
pub extern "C" fn rdsrt_text_from_utf8(utf8: &[u8], into: &mut [u8], count: &mut usize) -> u32
    ensures read { result ≡ RDSRT_OK → IsReadAs utf8.now (take count.new into.new) }
    ensures rest { result ≡ RDSRT_OK → drop count.new into.new ≡ drop count.new into.old }
    ensures within { result ≡ RDSRT_OK → count.new ≤ length into.new }
    ensures whole { IsUtf8 utf8.now → (bytes : List ℕ) → IsReadAs utf8.now bytes
        → length bytes ≤ length into.old → result ≡ RDSRT_OK }
    ensures not_utf8 { result ≡ RDSRT_NOT_UTF8 ↔ (IsUtf8 utf8.now → ⊥) }
    ensures codes { (result ≡ RDSRT_OK) ⊎ ((RDSRT_NOT_UTF8 ≤ result) × (result ≤ RDSRT_NO_ROOM)) }
    ensures bad_escape { IsToldBy result RDSRT_BAD_ESCAPE utf8.now count.new HasBadEscape }
    ensures no_character { IsToldBy result RDSRT_NO_CHARACTER utf8.now count.new HasUnknownCharacter }
    ensures no_room { IsUtf8 utf8.now → (result ≡ RDSRT_NO_ROOM) ↔ HasNoRoom utf8.now (length into.old) }
    ensures kept { result ≢ RDSRT_OK → into.new ≡ into.old }
    ensures uncounted { (result ≡ RDSRT_NOT_UTF8) ⊎ (result ≡ RDSRT_NO_ROOM) → count.new ≡ count.old }
{
    let Ok(text) = str::from_utf8(utf8) else {
        return codes::NOT_UTF8;
    };
    let (code, number) = match read_text(text, into) {
        Ok(read) => (codes::OK, read),
        Err(TextFault::BadEscape(place)) => (codes::BAD_ESCAPE, place),
        Err(TextFault::NoSuchCharacter(place)) => (codes::NO_CHARACTER, place),
        Err(TextFault::NoRoom) => return codes::NO_ROOM,
    };
    *count = number;
    code
}
