//! Reads the lines of a log.
ghost use Rattle.std.specs.Prelude.{◌≡◌, ◌≢◌, ◌≤◌, ◌<◌, ◌+◌, ◌-◌, ◌*◌, ◌^◌, ◌↔◌, [], ℕ, List, None, Some, IfOk, IsTrue};
ghost use Rattle.std.specs.Prelude.{MatchResult, OnOk, false, length, true};
ghost use Rattle.rds_lines.specs.LogLines.{Line};
ghost use Rattle.rds_lines.specs.Reads.{MadeReads, to_come};
ghost use Rattle.rds_io.specs.declared.fault.LogFault.TheVariants as faults;

use crate::cutter::{Cutter, Start, line_end};
use crate::log_line::{DECIDING, LogLine};
use crate::person::read_notes::BadStart;
use rds_io::{BadLine, LogFault, TellingRead};

/// The number of bytes of one read.
const CHUNK: usize = 65536;

/// A log, read line by line. rds_script has the same for the records of a script.
#[derive(Drop)]
pub struct Source {
    /// The bytes of the last read.
    chunk: [u8; CHUNK],
    /// The start of the unread bytes in `chunk`.
    at: usize,
    /// The end of the bytes in `chunk`.
    count: usize,
    /// The length of the next line in these bytes. `None` if it does not end in them.
    line: Option<usize>,
    /// Where the newest line starts.
    start: Start,
    /// The number of lines so far, and the first bytes of a line that spans two reads.
    cutter: Cutter,
    /// The number of reads that are left.
    left: u64,
    /// Whether the reader is at its end.
    ended: bool,
    ghost within: { at ≤ count },
    ghost room: { count ≤ 65536 },
    ghost held: { (n : ℕ) → line ≡ Some n → at + n < count },
    ghost few: { cutter.lines + to_come at count left ended ≤ 2 ^ 48 + 1 },
}

impl Source {
    ghost use Rattle.rds_lines.specs.Inside.Source.{GivesNext, HasNoNext, IsAtLast, IsBadLineFault, ReadsOn, start_of};
    ghost use Rattle.rds_lines.specs.Inside.Source.{ReaderState, SourceStandsAt, WhereItReads, budget, given_if};
    ghost use Rattle.rds_lines.specs.Inside.Source.{state_of};

    /// Starts a log of at most this many reads.
    pub(crate) fn new(reads: u64) -> Source
        requires { reads ≤ 2 ^ 32 }
        ensures budget { budget result ≤ 2 ^ 48 + 1 }
        ensures no_line { result.line ≡ None }
        ensures stands { (start : ReaderState) → SourceStandsAt result reads start start [] }
    {
        Source {
            chunk: [0; CHUNK],
            at: 0,
            count: 0,
            line: None,
            start: Start::none(),
            cutter: Cutter::new(),
            left: reads,
            ended: false,
        }
    }

    /// Returns whether the next line is complete without another read.
    pub(crate) fn has_line(&self) -> bool
        ensures { IsTrue result ↔ (self.now.line ≢ None) }
    {
        self.line.is_some()
    }

    /// Reads the next line. Returns `false` at the end.
    ///
    /// # Errors
    ///
    /// A malformed line, a failed read, or no end within the reads that are left.
    #[inline(always)]
    pub(crate) fn next<R: TellingRead>(
        &mut self,
        reader: &mut R,
        said: &mut LogLine,
    ) -> Result<bool, LogFault>
        ensures budget { IfOk result (λ given. given ≡ true → budget self.new < budget self.old) }
        ensures there { self.old.line ≢ None → MatchResult result (λ given. given ≡ true) IsBadLineFault }
        ensures reads { WhereItReads self.old (state_of R.remaining R.failures R.reads reader.old)
            (λ most start _. MadeReads most start.reads (R.reads reader.new) result) }
        ensures gives { WhereItReads self.old (state_of R.remaining R.failures R.reads reader.old)
            (λ most start lines. MatchResult result
            (λ given. GivesNext self.new most start (state_of R.remaining R.failures R.reads reader.new) lines
            (given_if given said.new))
            (HasNoNext most start (state_of R.remaining R.failures R.reads reader.new) lines
            self.new.cutter.kept.items)) }
    {
        loop {
            if let Some(count) = self.line {
                *said = self.close(count)?;
                return Ok(true);
            }
            if self.ended {
                return Ok(false);
            }
            if !self.read(reader)? {
                let Some(last) = self.last()? else {
                    return Ok(false);
                };
                *said = last;
                return Ok(true);
            }
        }
    }

    /// Returns the first bytes of the line that was read last: those that decide its meaning.
    #[tactic(auto, using(std::proofs::lemmas::List::take_min))]
    pub fn start(&self) -> &[u8]
        ensures bytes { result.now ≡ start_of self.now }
        ensures short { length result.now ≤ 60 }
    {
        if self.start.place >= self.at {
            return self.start.copy.as_slice();
        }
        let end = self.at - 1;
        let chunk: &[u8] = &self.chunk;
        let line = &chunk[self.start.place..end];
        &line[..DECIDING.min(line.len())]
    }

    /// Returns how many lines were read, including skipped ones.
    pub fn lines(&self) -> u64 {
        self.cutter.lines
    }

    /// Returns the note on a fault of this source: the first bytes of a malformed line, and why it is malformed.
    // Cold path.
    #[inline(never)]
    pub(crate) fn note(&self, fault: LogFault) -> Option<BadStart> {
        match fault {
            LogFault::BadLine(_) => Some(self.cutter.bad_start()),
            LogFault::BadRow(_)
            | LogFault::Read
            | LogFault::Write
            | LogFault::TooLong
            | LogFault::Memory => None,
        }
    }

    /// Returns the meaning of the line with this many of the unread bytes.
    #[inline(always)]
    fn close(&mut self, count: usize) -> Result<LogLine, BadLine>
        requires { self.old.line ≡ Some count }
        ensures budget { budget self.new < budget self.old }
        ensures gives { (now : ReaderState) → WhereItReads self.old now (λ most start lines.
            MatchResult result (λ said. GivesNext self.new most start now lines (Some said))
            (λ bad. HasNoNext most start now lines self.new.cutter.kept.items (faults.BadLine bad.number))) }
    {
        let end = self.at + count;
        let chunk: &[u8] = &self.chunk;
        let last = &chunk[self.at..end];
        let place = self.at;
        self.at = end + 1;
        self.line = line_end(&chunk[self.at..self.count]);
        self.cutter.close(last, place, &mut self.start)
    }

    /// Reads the next chunk. Returns `false` at the reader's end.
    #[inline(never)]
    fn read<R: TellingRead>(&mut self, reader: &mut R) -> Result<bool, LogFault>
        requires line { self.old.line ≡ None }
        requires inside { self.old.ended ≡ false }
        ensures budget { OnOk result (budget self.new ≤ budget self.old) }
        ensures fewer { OnOk result (self.new.left < self.old.left) }
        ensures at_end { IfOk result (λ more. more ≡ false → self.new.line ≡ None) }
        ensures inside { OnOk result (self.new.ended ≡ false) }
        ensures reads { WhereItReads self.old (state_of R.remaining R.failures R.reads reader.old)
            (λ most start _. MadeReads most start.reads (R.reads reader.new) result) }
        ensures reads_on { WhereItReads self.old (state_of R.remaining R.failures R.reads reader.old)
            (λ most start lines. ReadsOn self.new most start
            (state_of R.remaining R.failures R.reads reader.new) lines result) }
    {
        if self.left == 0 {
            return Err(LogFault::TooLong);
        }
        let chunk: &[u8] = &self.chunk;
        self.cutter.keep(&chunk[self.at..self.count]);
        self.left -= 1;
        match reader.read_one(&mut self.chunk) {
            None => Err(LogFault::Read),
            Some(0) => Ok(false),
            Some(count) => {
                self.at = 0;
                self.count = count;
                let chunk: &[u8] = &self.chunk;
                self.line = line_end(&chunk[..count]);
                Ok(true)
            }
        }
    }

    /// Returns the meaning of a last line without a line feed. `None` if there is none.
    #[inline(never)]
    fn last(&mut self) -> Result<Option<LogLine>, BadLine>
        requires line { self.old.line ≡ None }
        requires inside { self.old.ended ≡ false }
        ensures budget { budget self.new < budget self.old }
        ensures gives { (most : ℕ) (start now : ReaderState) (lines : List Line)
            → IsAtLast self.old most start now lines → MatchResult result
            (GivesNext self.new most start now lines)
            (λ bad. HasNoNext most start now lines self.new.cutter.kept.items (faults.BadLine bad.number)) }
    {
        self.ended = true;
        if self.cutter.is_between() {
            return Ok(None);
        }
        let said = self.cutter.close(&[], self.at, &mut self.start)?;
        Ok(Some(said))
    }
}
