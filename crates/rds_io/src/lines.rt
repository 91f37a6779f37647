//! Output lines, collected in a bounded buffer so that many go out in one write.
ghost use Rattle.std.specs.Prelude.{◌≡◌, ◌≤◌, ◌+◌, ◌++◌, ◌↔◌, [], ℕ, List, IsOk, IsTrue, MatchResult, OnOk};
ghost use Rattle.std.specs.Prelude.{decimal, length};
ghost use Rattle.rds_io.specs.Puts.{Puts};
ghost use Rattle.rds_io.specs.Told.{traffic};
ghost use Rattle.rds_io.specs.Waits.{IsLost, Waits};

use crate::told::{TellingWrite, WriteFault, put};
use arrayvec::ArrayVec;
use itoa::Buffer;
use std::marker::Model;

/// Lines of output, at most `N` bytes. Contracts see the bytes.
// Prover: an `ArrayVec`, since a part of an array whose length is a const parameter cannot be borrowed (PROVER.md,
// "Workarounds").
#[derive(Drop)]
pub struct Lines<const N: usize> {
    bytes: ArrayVec<u8, N>,
}

impl<const N: usize> Model for Lines<N> {
    ghost use Rattle.std.specs.Prelude.{ℕ, List, ◌≤◌, length};

    ghost Value = { List ℕ };

    ghost view = { λ lines. lines.bytes.items };
}

impl<const N: usize> Lines<N> {
    /// Makes an empty buffer.
    pub fn new() -> Self
        ensures { result ≡ [] }
    {
        Lines {
            bytes: ArrayVec::new(),
        }
    }

    /// Returns the bytes of the lines so far, borrowed from the buffer.
    pub fn bytes(&self) -> &[u8]
        ensures { result.now ≡ self.now }
    {
        self.bytes.as_slice()
    }

    /// Drops all lines.
    pub fn clear(&mut self)
        ensures { self.new ≡ [] }
    {
        self.bytes.clear();
    }

    /// Writes all lines and drops them. Does not call the writer if there are none.
    ///
    /// # Errors
    ///
    /// [`WriteFault`] at the first write that fails. Some first part of the lines is then written.
    pub fn write<W: TellingWrite>(&mut self, writer: &mut W) -> Result<(), WriteFault>
        ensures puts { Puts (traffic W.contents W.failures writer.old writer.new) self.old result }
        ensures empty { OnOk result (self.new ≡ []) }
        ensures nothing { self.old ≡ [] → IsOk result }
        ensures waits { (start : W) (total : List ℕ)
            → Waits (traffic W.contents W.failures start writer.old) self.old total
            → MatchResult result
            (λ _. Waits (traffic W.contents W.failures start writer.new) self.new total)
            (λ _. IsLost (traffic W.contents W.failures start writer.new) total) }
    {
        if self.bytes.is_empty() {
            return Ok(());
        }
        put(self.bytes.as_slice(), writer)?;
        self.bytes.clear();
        Ok(())
    }

    /// Returns whether there is room for `count` more bytes.
    pub fn has_room(&self, count: usize) -> bool
        ensures { IsTrue result ↔ (length self.now + count ≤ N) }
    {
        count <= self.bytes.remaining_capacity()
    }

    /// Appends bytes as they are.
    pub fn push(&mut self, bytes: &[u8])
        requires { length self.old + length bytes.now ≤ N }
        ensures { self.new ≡ self.old ++ bytes.now }
    {
        self.bytes.try_extend_from_slice(bytes).unwrap();
    }

    /// Appends a number in decimal digits, at most 20 bytes.
    pub fn push_number(&mut self, number: u64)
        requires { length self.old + 20 ≤ N }
        ensures decimal { self.new ≡ self.old ++ decimal number }
        ensures room { length self.new ≤ length self.old + 20 }
    {
        let mut digits = Buffer::new();
        self.push(digits.format(number).as_bytes());
    }
}
