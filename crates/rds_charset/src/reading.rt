//! The bytes of a text in its printed form.

ghost use Rattle.std.specs.Prelude.{◌≡◌, ◌≤◌, ◌<◌, ◌+◌, ◌*◌, ◌++◌, ◌∷◌, ◌↔◌, [], ℕ, List, length, take, drop};
ghost use Rattle.std.specs.Prelude.{encode_utf8, IfOk, IfErr, OnErr, IfSome, IfNone, chars};
ghost use Rattle.rds_charset.specs.Faults.{TextStopsBy};
ghost use Rattle.rds_charset.specs.ReadAs.{Begins, BeginsDigit, BeginsNoDigit, BeginsNoSymbol};
ghost use Rattle.rds_charset.specs.ReadAs.{HasBadEscape, HasNoRoom, HasUnknownCharacter};
ghost use Rattle.rds_charset.specs.ReadAs.{IsReadAs, IsReadUpTo, StopsAt};
ghost use Rattle.rds_charset.specs.BadCharacters.{IsBadCharacter};

use crate::table::byte_of;
use thiserror::Error;

/// Why a text cannot be read. Places are counted in bytes from the start of the text.
#[derive(Clone, Copy, Debug, PartialEq, Eq, Error)]
pub enum TextFault {
    /// The backslash at this place begins no escape.
    #[error("the backslash at byte {0} begins no escape")]
    BadEscape(usize),

    /// The character that begins at this place is not in the table.
    #[error("the character at byte {0} is not in the table")]
    NoSuchCharacter(usize),

    /// The text can be read, and gives more bytes than the slice has.
    #[error("the text gives too many bytes")]
    NoRoom,
}

/// Reads the printed form of a text into the front of a slice, and returns the number of its bytes.
///
/// A printed text gives the bytes from which it was printed. The rest of the slice does not change.
///
/// # Errors
///
/// [`TextFault::BadEscape`] or [`TextFault::NoSuchCharacter`], whichever is first in the text, or [`TextFault::NoRoom`]
/// if the text can be read. The slice does not change then.
pub fn read_text(text: &str, into: &mut [u8]) -> Result<usize, TextFault>
    ensures read { (bytes : List ℕ) → IsReadAs text.now bytes → length bytes ≤ length into.old
        → result ≡ Ok (length bytes) }
    ensures count { IfOk result (λ count. count ≤ length into.new) }
    ensures bytes { IfOk result (λ count. IsReadAs text.now (take count into.new)) }
    ensures rest { IfOk result (λ count. drop count into.new ≡ drop count into.old) }

    ensures bad_escape { (place : ℕ)
        → (result ≡ Err (TextFault.BadEscape place)) ↔ HasBadEscape text.now place }
    ensures no_such_character { (place : ℕ)
        → (result ≡ Err (TextFault.NoSuchCharacter place)) ↔ HasUnknownCharacter text.now place }
    ensures no_room { (result ≡ Err TextFault.NoRoom) ↔ HasNoRoom text.now (length into.old) }
    ensures err { OnErr result (into.new ≡ into.old) }
{
    let count = count_bytes(text)?;
    if into.len() < count {
        return Err(TextFault::NoRoom);
    }
    Ok(fill(text, into))
}

/// The first character of a text that cannot be read.
#[derive(Clone, Copy)]
pub struct BadCharacter {
    /// Its place, counted in characters from 1.
    pub place: usize,
    /// The character: a backslash that begins no escape, or a character that is not in the table.
    pub character: char,
}

/// Counts the bytes as which a text is read, however many they are.
///
/// # Errors
///
/// The first character that cannot be read, if there is one.
pub fn measure_text(text: &str) -> Result<usize, BadCharacter>
    ensures ok { IfOk result
        (λ count. (bytes : List ℕ) × IsReadAs text.now bytes × (length bytes ≡ count)) }
    ensures err { IfErr result (IsBadCharacter text.now) }
{
    let (count, rest) = count_symbols(text);
    let Some((character, _)) = first_character(rest) else {
        return Ok(count);
    };
    let place = count_characters(text) - count_characters(rest) + 1;
    Err(BadCharacter { place, character })
}

/// Counts the characters of a text.
#[tactic(auto, using(std::proofs::lemmas::Str::chars_from_encodes))]
fn count_characters(text: &str) -> usize
    ensures { result ≡ length (chars text.now) }
{
    text.chars().count()
}

/// Counts the bytes as which a text is read.
///
/// # Errors
///
/// The first fault of the text, if it cannot be read.
fn count_bytes(text: &str) -> Result<usize, TextFault>
    ensures ok { IfOk result
        (λ count. (bytes : List ℕ) × IsReadAs text.now bytes × (length bytes ≡ count)) }
    ensures err { IfErr result (TextStopsBy text.now) }
{
    let (count, rest) = count_symbols(text);
    if rest.is_empty() {
        return Ok(count);
    }
    Err(fault_at(text, text.len() - rest.len()))
}

/// Counts the symbols that begin the text, and returns the rest after them, which no symbol begins.
fn count_symbols(text: &str) -> (usize, &str)
    ensures read { (bytes : List ℕ) × IsReadUpTo text.now bytes result.1.now × (length bytes ≡ result.0) }
    ensures none { BeginsNoSymbol result.1.now }
{
    let mut rest = text;
    let mut count = 0;
    while let Some((_, after)) = first_symbol(rest) {
        count += 1;
        rest = after;
    }
    (count, rest)
}

/// Returns the fault of a text that cannot be read further at this place.
fn fault_at(text: &str, place: usize) -> TextFault
    requires { StopsAt text.now place }
    ensures { TextStopsBy text.now result }
{
    if text.as_bytes()[place] == b'\\' {
        TextFault::BadEscape(place)
    } else {
        TextFault::NoSuchCharacter(place)
    }
}

/// Puts the bytes of a text into the front of a slice that has room for them, and returns their number.
fn fill(text: &str, into: &mut [u8]) -> usize
    requires { (bytes : List ℕ)
        × IsReadAs text.now bytes × (length bytes ≤ length into.old) }
    ensures count { result ≤ length into.new }
    ensures bytes { IsReadAs text.now (take result into.new) }
    ensures rest { drop result into.new ≡ drop result into.old }
{
    let mut rest = text;
    let mut count = 0;
    while let Some((byte, after)) = first_symbol(rest) {
        into[count] = byte;
        count += 1;
        rest = after;
    }
    count
}

/// Returns the byte of the symbol that begins the text, and the rest after the symbol. `None` if no symbol begins it.
fn first_symbol(text: &str) -> Option<(u8, &str)>
    ensures some { IfSome result (λ found. Begins text.now found.0 found.1.now) }
    ensures none { IfNone result (BeginsNoSymbol text.now) }
{
    let (first, rest) = first_character(text)?;
    if first == '\\' {
        return escaped_byte(rest);
    }
    Some((byte_of(first)?, rest))
}

/// Returns the byte of an escape whose backslash was read, and the rest after the escape. `None` if it is not an
/// escape.
fn escaped_byte(text: &str) -> Option<(u8, &str)>
    ensures some { IfSome result (λ found. Begins (0x5C ∷ text.now) found.0 found.1.now) }
    ensures none { IfNone result (BeginsNoSymbol (0x5C ∷ text.now)) }
{
    let (marker, digits) = first_character(text)?;
    if marker != 'x' {
        return None;
    }
    let (high, rest) = hex_digit(digits)?;
    let (low, rest) = hex_digit(rest)?;
    Some((16 * high + low, rest))
}

/// Returns the first character of a text and the rest after it. `None` if the text is empty.
fn first_character(text: &str) -> Option<(char, &str)>
    ensures some { IfSome result (λ found. text.now ≡ encode_utf8 found.0 ++ found.1.now) }
    ensures none { IfNone result (text.now ≡ []) }
{
    let mut characters = text.chars();
    let first = characters.next()?;
    Some((first, characters.as_str()))
}

/// Returns the value of the hexadecimal digit that begins the text, and the rest after it. `None` if no digit begins
/// it.
fn hex_digit(text: &str) -> Option<(u8, &str)>
    ensures some { IfSome result (λ found. BeginsDigit text.now found.0 found.1.now) }
    ensures none { IfNone result (BeginsNoDigit text.now) }
{
    let (first, rest) = first_character(text)?;
    let digit = first.to_digit(16)?;
    Some((digit as u8, rest))
}
