//! A programme type name and its segments.
ghost use Rattle.std.specs.Prelude.{◌≡◌, ℕ, ◌<◌, ◌≤◌, ◌↔◌, List, length, IsOk, IfOk, IfErr};
ghost use Rattle.rds_assembly.specs.Body.{segment_count, segment_of, name_body};
ghost use Rattle.rds_assembly.specs.Value.{IsGivenName, IsName, IsRefusedFor, is_name_byte};

use crate::text::TextRefused;
use crate::type_name::NAME_LENGTH;
use std::marker::Model;

/// A programme type name: eight bytes (IEC 62106, programme type name). Contracts see the bytes.
#[derive(Clone, Copy, Debug, PartialEq, Eq)]
pub struct Name {
    bytes: [u8; 8],
}

impl Model for Name {
    ghost use Rattle.std.specs.Prelude.{List, ℕ};
    ghost use Rattle.rds_assembly.specs.Value.{IsName};

    ghost Value = { List ℕ };

    ghost view = { λ n. n.bytes };

    ghost invariant = { λ n. IsName n.bytes };

    ghost inverse = { λ x. record { bytes = x } };
}

impl Name {
    /// Makes the name of these bytes, with spaces up to eight bytes.
    ///
    /// # Errors
    ///
    /// [`TextRefused`] if there are more than eight bytes, or else for the first byte that is not allowed.
    #[tactic(auto, using(std::proofs::lemmas::Grind::common_steps))]
    pub fn new(bytes: &[u8]) -> Result<Name, TextRefused>
        ensures accepted { IsOk result ↔ IsGivenName bytes.now }
        ensures value { IfOk result (λ name. name ≡ name_body bytes.now) }
        ensures refused { IfErr result (IsRefusedFor 8 is_name_byte bytes.now) }
    {
        if bytes.len() > NAME_LENGTH {
            return Err(TextRefused::TooLong);
        }
        if let Some(place) = bytes.iter().position(|byte| *byte < b' ') {
            return Err(TextRefused::BadByte(place));
        }
        let mut padded = [b' '; NAME_LENGTH];
        padded[..bytes.len()].copy_from_slice(bytes);
        Ok(Name { bytes: padded })
    }

    /// Returns the eight bytes, borrowed from the name.
    pub fn bytes(&self) -> &[u8]
        ensures value { result.now ≡ self.now }
        ensures name { IsName self.now }
    {
        &self.bytes
    }

    /// Returns the number of segments, which is 2.
    pub fn count(&self) -> u8
        ensures value { result ≡ segment_count (name_body self.now) }
        ensures two { result ≡ 2 }
    {
        (self.bytes().len() / 4) as u8
    }

    /// Returns the segment at the address.
    pub fn segment(&self, address: u8) -> [u8; 4]
        requires { address < segment_count (name_body self.now) }
        ensures { result ≡ segment_of (name_body self.now) address }
    {
        name_segment(self.bytes(), address)
    }
}

/// Returns the segment at the address of a name with these bytes.
pub fn name_segment(name: &[u8], address: u8) -> [u8; 4]
    requires eight { length name.now ≡ 8 }
    requires two { address < 2 }
    ensures { IsName name.now → result ≡ segment_of (name_body name.now) address }
{
    let first = address as usize * 4;
    [
        name[first],
        name[first + 1],
        name[first + 2],
        name[first + 3],
    ]
}
