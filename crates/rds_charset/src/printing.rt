//! The printed form of a text, written and appended.

ghost use Rattle.std.specs.Prelude.{◌≡◌, ◌≤◌, ◌<◌, ◌+◌, ◌*◌, ◌++◌, length};
ghost use Rattle.rds_charset.specs.Printed.{printed, printed_byte, shown_character};
ghost use Rattle.rds_io.specs.Digits.{upper_digit};
ghost use Rattle.rds_io.specs.Puts.{Puts};
ghost use Rattle.rds_io.specs.Told.{traffic};

use crate::table::character_of;
use rds_io::{Lines, TellingWrite, WriteFault};

/// The most bytes of a text in one chunk.
const CHUNK: usize = 64;

/// The most bytes of the printed form of one chunk.
const ROOM: usize = 4 * CHUNK;

/// The quotation mark. It is always escaped, so that a text can be shown between two of them.
const QUOTATION_MARK: u8 = b'"';

const UPPER_DIGITS: [u8; 16] = *b"0123456789ABCDEF";

/// Writes the printed form of a text, in chunks of 64 bytes of the text.
///
/// # Errors
///
/// [`WriteFault`] at the first write that fails. The bytes that were taken before it are out.
pub fn write_text<W: TellingWrite>(bytes: &[u8], writer: &mut W) -> Result<(), WriteFault>
    ensures { Puts (traffic W.contents W.failures writer.old writer.new) (printed bytes.now) result }
{
    for chunk in bytes.chunks(CHUNK) {
        let mut line = Lines::<ROOM>::new();
        push_text(chunk, &mut line);
        line.write(writer)?;
    }
    Ok(())
}

/// Appends the printed form of a text, at most four bytes for each byte of the text.
pub fn push_text<const N: usize>(text: &[u8], line: &mut Lines<N>)
    requires { length line.old + 4 * length text.now ≤ N }
    ensures printed { line.new ≡ line.old ++ printed text.now }
    ensures room { length line.new ≤ length line.old + 4 * length text.now }
{
    for &byte in text {
        push_byte(byte, line);
    }
}

/// Appends the printed form of one byte of a text to a line.
fn push_byte<const N: usize>(byte: u8, line: &mut Lines<N>)
    requires { length line.old + 4 ≤ N }
    ensures { line.new ≡ line.old ++ printed_byte byte }
{
    match shown_character(byte) {
        Some(character) => {
            let mut utf8 = [0; 4];
            let utf8 = character.encode_utf8(&mut utf8);
            line.push(utf8.as_bytes());
        }
        None => {
            let escape = [b'\\', b'x', upper_digit(byte / 16), upper_digit(byte % 16)];
            line.push(&escape);
        }
    }
}

/// Returns the character as which a byte is printed. `None` if the byte is escaped.
fn shown_character(byte: u8) -> Option<char>
    ensures { result ≡ shown_character byte }
{
    if byte == QUOTATION_MARK {
        None
    } else {
        character_of(byte)
    }
}

/// Returns the hexadecimal digit of a number below 16, with A to F for 10 to 15.
#[tactic(auto, using(std::proofs::lemmas::Grind::common_steps))]
fn upper_digit(number: u8) -> u8
    requires { number < 16 }
    ensures { result ≡ upper_digit number }
{
    UPPER_DIGITS[usize::from(number)]
}
