//! A text as a display shows it.

ghost use Rattle.std.specs.Prelude.{◌≡◌, ◌≤◌, ◌+◌, ◌*◌, ◌++◌, encode_utf8, length};
ghost use Rattle.rds_charset.specs.Displays.{displayed, displayed_character};

use crate::table::displayed_character;
use rds_io::Lines;

/// Appends a text as a display shows it, at most three bytes for each byte of the text.
pub fn push_displayed<const N: usize>(text: &[u8], line: &mut Lines<N>)
    requires { length line.old + 3 * length text.now ≤ N }
    ensures { line.new ≡ line.old ++ displayed text.now }
{
    for &byte in text {
        push_character(byte, line);
    }
}

/// Appends the character that a display shows for a byte.
fn push_character<const N: usize>(byte: u8, line: &mut Lines<N>)
    requires { length line.old + 3 ≤ N }
    ensures { line.new ≡ line.old ++ encode_utf8 (displayed_character byte) }
{
    let mut utf8 = [0; 4];
    let utf8 = displayed_character(byte).encode_utf8(&mut utf8);
    line.push(utf8.as_bytes());
}
