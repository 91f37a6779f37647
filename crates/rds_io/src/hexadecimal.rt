//! Words of four hexadecimal digits, read and written.
ghost use Rattle.std.specs.Prelude.{◌≡◌, ◌<◌, ◌≤◌, ◌+◌, ◌++◌, ℕ, length, slice_index, IfSome, IfNone};
ghost use Rattle.rds_io.specs.Digits.{HasWord, marked_value, word_digits};

use std::simd::prelude::*;

/// The value of a byte that is not a hexadecimal digit. It is larger than any word.
const NONE: u32 = 65536;

/// The weights of the first two digits of each word, for its high byte.
const HIGH: [u8; 16] = [16, 1, 0, 0, 16, 1, 0, 0, 16, 1, 0, 0, 16, 1, 0, 0];

/// The weights of the last two digits of each word, for its low byte.
const LOW: [u8; 16] = [0, 0, 16, 1, 0, 0, 16, 1, 0, 0, 16, 1, 0, 0, 16, 1];

/// Returns the word of the four hexadecimal digits from `place` on, of either case. `None` if one of the four bytes is
/// not a digit.
#[inline(always)]
pub fn word_at(text: &[u8], place: usize) -> Option<u16>
    requires { place + 4 ≤ length text.now }
    ensures some { IfSome result (HasWord text.now place) }
    ensures none { IfNone result ((w : ℕ) → HasWord text.now place w → ⊥) }
{
    let word = reading_at(text, place);
    if word < NONE { Some(word as u16) } else { None }
}

/// Returns the words of the four blocks of a line, at the places 0, 5, 10 and 15. `None` if a byte is not a digit. All
/// sixteen digits are tested and read at once, each in a lane.
#[inline(always)]
pub fn four_words(text: &[u8]) -> Option<[u16; 4]>
    requires { 19 ≤ length text.now }
    ensures four { IfSome result (λ words. length words ≡ 4) }
    ensures first { IfSome result (λ words. HasWord text.now 0 (slice_index words 0)) }
    ensures second { IfSome result (λ words. HasWord text.now 5 (slice_index words 1)) }
    ensures third { IfSome result (λ words. HasWord text.now 10 (slice_index words 2)) }
    ensures fourth { IfSome result (λ words. HasWord text.now 15 (slice_index words 3)) }
{
    let bytes = u8x16::from_array([
        text[0], text[1], text[2], text[3], text[5], text[6], text[7], text[8], text[10], text[11],
        text[12], text[13], text[15], text[16], text[17], text[18],
    ]);
    let digit = bytes - u8x16::splat(b'0');
    let letter = (bytes | u8x16::splat(0x20)) - u8x16::splat(b'a');
    let is_digit = digit.simd_le(u8x16::splat(9));
    let is_letter = letter.simd_le(u8x16::splat(5));
    if !(is_digit | is_letter).all() {
        return None;
    }
    let values = is_digit.select(digit, letter + u8x16::splat(10));
    let high = values.dot4(u8x16::from_array(HIGH));
    let low = values.dot4(u8x16::from_array(LOW));
    let words = (high * u32x4::splat(256) + low).to_array();
    Some([
        words[0] as u16,
        words[1] as u16,
        words[2] as u16,
        words[3] as u16,
    ])
}

/// Returns the word of the four digits from `place` on, or `NONE` or more if one of them is not a digit.
#[inline(always)]
fn reading_at(text: &[u8], place: usize) -> u32
    requires { place + 4 ≤ length text.now }
    ensures word { result < 65536 → HasWord text.now place result }
    ensures none { 65536 ≤ result → (w : ℕ) → HasWord text.now place w → ⊥ }
{
    let first = value_of(text[place]);
    let second = value_of(text[place + 1]);
    let third = value_of(text[place + 2]);
    let fourth = value_of(text[place + 3]);
    first * 4096 + second * 256 + third * 16 + fourth
}

/// Returns the value of the byte as a hexadecimal digit of either case, or `NONE`.
fn value_of(byte: u8) -> u32
    ensures value { result ≡ marked_value byte }
    ensures small { result ≤ 65536 }
{
    char::from(byte).to_digit(16).unwrap_or(NONE)
}

/// Returns the digits of four words, one word after the other, with A to F for 10 to 15. All sixteen digits are made at
/// once, each in a lane.
#[inline(always)]
pub fn digits_of_four(words: [u16; 4]) -> [u8; 16]
    ensures { result ≡ word_digits (slice_index words 0) ++ word_digits (slice_index words 1)
        ++ word_digits (slice_index words 2) ++ word_digits (slice_index words 3) }
{
    let [first, second, third, fourth] = words;
    let words = u32x4::from_array([
        u32::from(first),
        u32::from(second),
        u32::from(third),
        u32::from(fourth),
    ]);
    let low = u32x4::splat(15);
    let spread = (words >> u32x4::splat(12))
        + (words >> u32x4::splat(8) & low) * u32x4::splat(0x100)
        + (words >> u32x4::splat(4) & low) * u32x4::splat(0x1_0000)
        + (words & low) * u32x4::splat(0x100_0000);
    let values = spread.to_le_bytes();
    let letters = values.simd_gt(u8x16::splat(9));
    let digits = values + u8x16::splat(b'0');
    letters.select(digits + u8x16::splat(7), digits).to_array()
}
