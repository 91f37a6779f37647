//! The text and the name on air.
ghost use Rattle.std.specs.Prelude.{◌≡◌, ◌≤◌, ℕ, IfSome, List, None, Some, length, option_map, take, option_copied};
ghost use Rattle.rds_assembly.specs.Value.{IsName, IsText};
ghost use Rattle.rds_encoder.specs.Entries.{Move};
ghost use Rattle.rds_encoder.specs.EncoderAt.{with_next};
ghost use Rattle.rds_encoder.specs.Plan.{bytes_of, on_air};
ghost use Rattle.rds_encoder.specs.State.{advanced};
ghost use Rattle.rds_encoder.specs.Numbers.{IsValidName, IsValidText, name_in, text_in};

use rds_assembly::{LONGEST_TEXT, NAME_LENGTH, Name, Text, text_count};

/// The text on air: its first `length` bytes, and the address of its next segment.
#[repr(C)]
#[derive(Clone, Copy)]
pub struct TextOnAir {
    pub bytes: [u8; LONGEST_TEXT],
    pub length: u8,
    pub next: u8,
    pub is_on_air: u8,
}

/// The name on air.
#[repr(C)]
#[derive(Clone, Copy)]
pub struct NameOnAir {
    pub bytes: [u8; NAME_LENGTH],
    pub is_on_air: u8,
}

impl TextOnAir {
    /// Makes it without a text.
    pub(crate) fn none() -> TextOnAir
        ensures same { text_in result ≡ None }
        ensures good { IsValidText result }
    {
        TextOnAir {
            bytes: [0; LONGEST_TEXT],
            length: 0,
            next: 0,
            is_on_air: 0,
        }
    }

    /// Puts the text on air, with its first segment as the next one.
    pub(crate) fn of(text: Text) -> TextOnAir
        ensures same { text_in result ≡ Some record { bytes = text; next = 0 } }
        ensures good { IsValidText result }
    {
        let from = text.bytes();
        let mut bytes = [0; LONGEST_TEXT];
        bytes[..from.len()].copy_from_slice(from);
        TextOnAir {
            bytes,
            length: from.len() as u8,
            next: 0,
            is_on_air: 1,
        }
    }

    /// Returns the bytes of the text, borrowed from the numbers. `None` if no text is on air.
    pub(crate) fn on_air(&self) -> Option<&[u8]>
        ensures on_air { (m : ℕ) (moves : List Move)
            → text_in self.now ≡ option_map (with_next m moves) (on_air m moves)
            → option_copied result ≡ option_map bytes_of (on_air m moves) }
        ensures text { IsValidText self.now → IfSome result (λ x. IsText x.now) }
        ensures short { IfSome result (λ x. length x.now ≤ 64) }
    {
        if self.is_on_air == 0 {
            return None;
        }
        Some(self.text())
    }

    /// Returns the bytes of the text, borrowed from the numbers.
    fn text(&self) -> &[u8]
        ensures value { result.now ≡ take self.now.length self.now.bytes }
        ensures short { length result.now ≤ 64 }
    {
        &self.bytes[..usize::from(self.length).min(LONGEST_TEXT)]
    }

    /// Moves to the next segment. After the last segment comes the first.
    pub(crate) fn advance(&mut self)
        ensures same { text_in self.new ≡ option_map advanced (text_in self.old) }
        ensures good { IsValidText self.old → IsValidText self.new }
    {
        let count = text_count(self.text());
        self.next = ((u16::from(self.next) + 1) % u16::from(count)) as u8;
    }
}

impl NameOnAir {
    /// Makes it without a name.
    pub(crate) fn none() -> NameOnAir
        ensures same { name_in result ≡ None }
        ensures good { IsValidName result }
    {
        NameOnAir {
            bytes: [0; NAME_LENGTH],
            is_on_air: 0,
        }
    }

    /// Puts the name on air.
    pub(crate) fn of(name: Name) -> NameOnAir
        ensures same { name_in result ≡ Some name }
        ensures good { IsValidName result }
    {
        let mut bytes = [0; NAME_LENGTH];
        bytes.copy_from_slice(name.bytes());
        NameOnAir {
            bytes,
            is_on_air: 1,
        }
    }

    /// Returns the bytes of the name, borrowed from the numbers. `None` if no name is on air.
    pub(crate) fn on_air(&self) -> Option<&[u8]>
        ensures value { option_copied result ≡ name_in self.now }
        ensures name { IsValidName self.now → IfSome result (λ x. IsName x.now) }
        ensures short { IfSome result (λ x. length x.now ≡ 8) }
    {
        if self.is_on_air == 0 {
            return None;
        }
        Some(self.bytes.as_slice())
    }
}
