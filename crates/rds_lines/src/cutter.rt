//! Cuts the bytes of a log into lines. Keeps the first 60 bytes of a line that spans two reads or is malformed.
ghost use Rattle.std.specs.Prelude.{◌≡◌, ◌⊎◌, ◌≤◌, ◌<◌, ◌+◌, ◌-◌, ◌^◌, ◌++◌, ◌↔◌, [], IfErr, IfNone, IfSome, IsTrue};
ghost use Rattle.std.specs.Prelude.{MatchResult, length, take};
ghost use Rattle.rds_lines.specs.declared.cutter.TheConstants.{ELSEWHERE};
ghost use Rattle.rds_lines.specs.LineSays.{IsBad, LineSays, deciding};
ghost use Rattle.rds_lines.specs.LogLines.{EndsAt, IsLine, Line};

use crate::log_line::{DECIDING, LineStart, LogLine, said_by};
use crate::person::line_cause::cause_of;
use crate::person::read_notes::BadStart;
use arrayvec::ArrayVec;
use memchr::memchr;
use rds_io::BadLine;
use std::simd::prelude::*;

/// How many bytes are searched for a line feed at once.
const LANES: usize = 16;

/// How many bytes are searched in lanes. Most lines are shorter.
const NEAR: usize = 64;

/// No place in a chunk: it is behind the last byte.
pub(crate) const ELSEWHERE: usize = 65536;

/// Where a line starts: at a place of the chunk that all of it is in, or else in a copy of its first bytes.
#[derive(Drop)]
pub(crate) struct Start {
    /// The place, or `ELSEWHERE`.
    pub(crate) place: usize,
    pub(crate) copy: LineStart,
}

impl Start {
    /// Returns the start of no line.
    pub(crate) fn none() -> Start {
        Start {
            place: ELSEWHERE,
            copy: ArrayVec::new(),
        }
    }

    /// Keeps a copy of the first bytes of a line.
    // Cold path.
    #[inline(never)]
    fn copy(&mut self, first: &[u8])
        requires { length first.now ≤ 60 }
        ensures place { self.new.place ≡ ELSEWHERE }
        ensures copy { self.new.copy.items ≡ first.now }
    {
        self.place = ELSEWHERE;
        self.copy.clear();
        self.copy.try_extend_from_slice(first).unwrap();
    }
}

/// Takes the bytes of a log, whatever the reads that they come in, and returns the meaning of each complete line.
///
/// Keeps the first bytes of an incomplete line: these decide its meaning.
#[derive(Drop)]
pub(crate) struct Cutter {
    kept: ArrayVec<u8, DECIDING>,
    /// The number of complete lines.
    pub(crate) lines: u64,
}

impl Cutter {
    ghost use Rattle.rds_lines.specs.Inside.Cutter.{Closes, CutterStandsAt, IsBadLine, WhereItCuts};

    /// Starts a log.
    pub(crate) fn new() -> Cutter
        ensures lines { result.lines ≡ 0 }
        ensures stands { CutterStandsAt result [] [] }
    {
        Cutter {
            kept: ArrayVec::new(),
            lines: 0,
        }
    }

    /// Returns whether no line is incomplete.
    pub(crate) fn is_between(&self) -> bool
        ensures { WhereItCuts self.now (λ _ begun. IsTrue result ↔ (begun ≡ [])) }
    {
        self.kept.is_empty()
    }

    /// Completes a line with its last bytes, which lie at this place of a chunk, and returns its meaning. Keeps the
    /// first bytes of a malformed line.
    #[inline(always)]
    pub(crate) fn close(
        &mut self,
        last: &[u8],
        place: usize,
        start: &mut Start,
    ) -> Result<LogLine, BadLine>
        requires lines { self.old.lines < 2 ^ 64 - 1 }
        ensures lines { self.new.lines ≤ self.old.lines + 1 }
        ensures closes { IsLine last.now → WhereItCuts self.old (λ closed begun. MatchResult result
            (Closes self.new closed (begun ++ last.now))
            (λ bad. IsBadLine bad.number closed (begun ++ last.now))) }
        ensures kept { WhereItCuts self.old (λ _ begun. IfErr result
            (λ _. self.new.kept.items ≡ take deciding (begun ++ last.now))) }
        ensures start { ((start.new.place ≡ place) × (self.old.kept.items ≡ [])) ⊎ ((start.new.place ≡ ELSEWHERE)
            × (start.new.copy.items ≡ take deciding (self.old.kept.items ++ last.now))) }
    {
        let Some(said) = self.said(last, place, start) else {
            return Err(BadLine {
                number: self.lines + 1,
            });
        };
        self.lines += 1;
        self.kept.clear();
        Ok(said)
    }

    /// Returns the first bytes of a malformed line, and why it is malformed.
    pub(crate) fn bad_start(&self) -> BadStart {
        let mut start = ArrayVec::new();
        start.try_extend_from_slice(self.kept.as_slice()).unwrap();
        BadStart {
            cause: cause_of(self.kept.as_slice()),
            start,
        }
    }

    /// Takes bytes of an incomplete line, and keeps those that decide its meaning.
    pub(crate) fn keep(&mut self, bytes: &[u8])
        ensures kept { self.new.kept.items ≡ take deciding (self.old.kept.items ++ bytes.now) }
        ensures lines { self.new.lines ≡ self.old.lines }
        ensures stands { IsLine bytes.now → WhereItCuts self.old (λ closed begun.
            CutterStandsAt self.new closed (begun ++ bytes.now)) }
    {
        let room = self.kept.remaining_capacity();
        let count = bytes.len().min(room);
        self.kept.try_extend_from_slice(&bytes[..count]).unwrap();
    }

    /// Keeps the first bytes of a malformed line.
    // Cold path.
    #[inline(never)]
    fn keep_bad(&mut self, line: &[u8])
        requires { self.old.kept.items ≡ [] }
        ensures kept { self.new.kept.items ≡ take deciding line.now }
        ensures lines { self.new.lines ≡ self.old.lines }
    {
        self.keep(line);
    }

    /// Returns the meaning of the line that ends with these bytes. `None` for a malformed line, whose first bytes are
    /// then kept.
    #[inline(always)]
    fn said(&mut self, last: &[u8], place: usize, start: &mut Start) -> Option<LogLine>
        ensures some { (begun : Line) → self.old.kept.items ≡ take deciding begun
            → IfSome result (LineSays (begun ++ last.now)) }
        ensures none { (begun : Line) → self.old.kept.items ≡ take deciding begun
            → IfNone result (IsBad (begun ++ last.now)) }
        ensures kept { (begun : Line) → self.old.kept.items ≡ take deciding begun
            → IfNone result (self.new.kept.items ≡ take deciding (begun ++ last.now)) }
        ensures lines { self.new.lines ≡ self.old.lines }
        ensures start { ((start.new.place ≡ place) × (self.old.kept.items ≡ [])) ⊎ ((start.new.place ≡ ELSEWHERE)
            × (start.new.copy.items ≡ take deciding (self.old.kept.items ++ last.now))) }
    {
        if self.kept.is_empty() {
            start.place = place;
            return self.said_at_once(last);
        }
        self.keep(last);
        start.copy(self.kept.as_slice());
        said_by(self.kept.as_slice())
    }

    /// Returns the meaning of a line that is not split between reads. `None` for a malformed line, whose first bytes
    /// are then kept.
    #[inline(always)]
    fn said_at_once(&mut self, line: &[u8]) -> Option<LogLine>
        requires { self.old.kept.items ≡ [] }
        ensures some { IfSome result (LineSays line.now) }
        ensures none { IfNone result (IsBad line.now) }
        ensures kept { IfNone result (self.new.kept.items ≡ take deciding line.now) }
        ensures lines { self.new.lines ≡ self.old.lines }
    {
        let said = said_by(line);
        if said.is_none() {
            self.keep_bad(line);
        }
        said
    }
}

/// Returns the place of the first line feed.
#[inline(always)]
pub fn line_end(bytes: &[u8]) -> Option<usize>
    ensures some { IfSome result (EndsAt bytes.now) }
    ensures none { IfNone result (IsLine bytes.now) }
{
    if let Some(count) = near_end(bytes) {
        return Some(count);
    }
    memchr(b'\n', bytes)
}

/// Returns the place of the first line feed, if it is one of the first 64 bytes and there are as many.
#[inline(always)]
fn near_end(bytes: &[u8]) -> Option<usize>
    ensures { IfSome result (EndsAt bytes.now) }
{
    if bytes.len() < NEAR {
        return None;
    }
    let mut from = 0;
    while from < NEAR {
        let feeds = u8x16::from_slice(&bytes[from..])
            .simd_eq(u8x16::splat(b'\n'))
            .to_bitmask();
        if feeds != 0 {
            return Some(from + feeds.trailing_zeros() as usize);
        }
        from += LANES;
    }
    None
}
