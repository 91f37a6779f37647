//! Finds and counts the line ends of a script: LF, CR LF, or a lone CR, as `csv` takes them.
//!
//! `csv` counts the line feeds, so these functions count the other line ends: a return that no line feed follows.
//!
//! No clause says what they count, because the contract of `csv` says nothing of its positions and of how far it reads
//! ahead (PROVER.md, "What no contract can state"). Tests compare each line with a plain count.

use arrayvec::ArrayVec;
use memchr::{memchr_iter, memrchr2};

/// The most bytes that `csv` asks for in one read.
const PIECE: usize = 8192;

/// The most commas of a line. `csv` keeps the place of each until the record ends, and a row has three.
const MOST_COMMAS: u64 = 65_536;

/// The lone returns of bytes that come in pieces. A return at the end counts until a line feed follows.
#[derive(Clone, Copy)]
struct LoneReturns {
    count: u64,
    after_return: bool,
}

impl LoneReturns {
    /// Starts before the first byte.
    fn new() -> LoneReturns {
        LoneReturns {
            count: 0,
            after_return: false,
        }
    }

    /// Counts the next bytes.
    fn take(&mut self, bytes: &[u8]) {
        if self.after_return && bytes.first() == Some(&b'\n') {
            self.count = self.count.saturating_sub(1);
        }
        for place in memchr_iter(b'\r', bytes) {
            if bytes.get(place.saturating_add(1)) != Some(&b'\n') {
                self.count = self.count.saturating_add(1);
            }
        }
        if let Some(last) = bytes.last() {
            self.after_return = *last == b'\r';
        }
    }
}

/// Returns how many line ends these bytes have.
pub(crate) fn line_ends_in(bytes: &[u8]) -> u64 {
    let mut returns = LoneReturns::new();
    returns.take(bytes);
    let feeds = bytes.iter().filter(|byte| **byte == b'\n').count();
    returns.count.saturating_add(feeds as u64)
}

/// Returns how many bytes there are up to the end of the last complete line that is not empty, without its line end.
fn complete_in(bytes: &[u8]) -> usize {
    let end = memrchr2(b'\n', b'\r', bytes).unwrap_or(0);
    let line = bytes[..end]
        .iter()
        .rposition(|byte| *byte != b'\n' && *byte != b'\r');
    line.map_or(0, |last| last + 1)
}

/// The bytes that `csv` has read so far: how many, the last piece, and the lone returns before it.
///
/// A piece is counted when the next one replaces it.
#[derive(Drop)]
pub(crate) struct ReadSoFar {
    bytes: u64,
    /// How many of these bytes end with a complete line that is not empty, without its line end.
    complete: u64,
    last: ArrayVec<u8, PIECE>,
    before: LoneReturns,
    /// The commas in the last pieces, if none of these has a line end.
    commas: u64,
}

impl ReadSoFar {
    /// Starts before the first byte.
    pub(crate) fn new() -> ReadSoFar {
        ReadSoFar {
            bytes: 0,
            complete: 0,
            last: ArrayVec::new(),
            before: LoneReturns::new(),
            commas: 0,
        }
    }

    /// Takes the bytes of one read. An empty piece is the end.
    #[inline(never)]
    pub(crate) fn take(&mut self, piece: &[u8]) {
        self.before.take(self.last.as_slice());
        self.last.clear();
        let _ = self.last.try_extend_from_slice(piece);
        self.commas = if memrchr2(b'\n', b'\r', piece).is_some() {
            0
        } else {
            let more = memchr_iter(b',', piece).count();
            self.commas.saturating_add(more as u64)
        };
        self.complete = self.bytes.saturating_add(complete_in(piece) as u64);
        self.bytes = self.bytes.saturating_add(piece.len() as u64);
    }

    /// Returns how many of these bytes end with a complete line that is not empty, without its line end.
    pub(crate) fn complete(&self) -> u64 {
        self.complete
    }

    /// Returns whether the line that is read has too many commas to go on.
    pub(crate) fn has_too_many_commas(&self) -> bool {
        self.commas > MOST_COMMAS
    }

    /// Returns whether the last read found the end.
    pub(crate) fn is_at_end(&self) -> bool {
        self.last.is_empty()
    }

    /// Returns how many lone returns the first `place` bytes have. The place is in the last piece, or at its start.
    pub(crate) fn lone_returns_before(&self, place: u64) -> u64 {
        let unread = self.bytes.saturating_sub(place);
        let last = self.last.as_slice();
        let taken = (last.len() as u64).saturating_sub(unread) as usize;
        let mut returns = self.before;
        returns.take(&last[..taken.min(last.len())]);
        returns.count
    }
}
