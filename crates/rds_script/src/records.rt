//! Reads the records of a script.
ghost use Rattle.std.specs.Prelude.{◌≡◌, ◌∷◌, [], ℕ, List, IfErr, IfOk, MatchBool, Option};
ghost use Rattle.csv.specs.Records.{fields_of};
ghost use Rattle.rds_io.specs.ReadFailed.{SomeReadFailed};
ghost use Rattle.rds_script.specs.Inside.Player.{IsReadFault, ScriptStandsAt};
ghost use Rattle.rds_script.specs.Rows.{Record};
ghost use Rattle.rds_script.specs.Play.{HasAllRecords};

use crate::failure_flag::FailureFlag;
use crate::line_ends::line_ends_in;
use csv::{ByteRecord, Reader, ReaderBuilder};
use rds_io::{LogFault, TellingRead};
use std::alloc::Global;

/// A script, read record by record. Fields are between commas, with or without quotation marks. There is no header row,
/// and any number of fields.
#[derive(Drop)]
pub(crate) struct Records<R: TellingRead> {
    reader: Reader<FailureFlag<R>>,
}

impl<R: TellingRead> Records<R> {
    /// Starts before the first record.
    pub(crate) fn new(alloc: Global, reader: R) -> Records<R>
        ensures { ScriptStandsAt R.remaining (R.remaining reader) result [] }
    {
        Records {
            reader: ReaderBuilder::new()
                .has_headers(false)
                .flexible(true)
                .from_reader(alloc, FailureFlag::new(reader)),
        }
    }

    /// Returns the line on which the last record starts: 1 + the number of line ends before its first byte.
    ///
    /// `csv` notes the start of a record before the empty lines in front of it. So this function counts back from the
    /// end of the record: by the line ends inside its fields, and by the one that ended it, unless the script did.
    pub(crate) fn line_of(&self, row: &ByteRecord) -> u64 {
        let read = self.reader.get_ref().read_so_far();
        let end = self.reader.position();
        let mut line = end
            .line()
            .saturating_add(read.lone_returns_before(end.byte()));
        for field in row.iter() {
            line = line.saturating_sub(line_ends_in(field));
        }
        if read.is_at_end() {
            line
        } else {
            line.saturating_sub(1)
        }
    }

    /// Returns whether the bytes that were read hold one more complete line that is not empty. If not, the next record
    /// needs a read. If so, it needs one only if it has a line end between quotation marks.
    ///
    /// No clause says so; tests compare it with a plain count.
    pub(crate) fn has_next(&self) -> bool {
        let read = self.reader.get_ref().read_so_far();
        self.reader.position().byte() < read.complete()
    }

    /// Reads the next record. Returns `false` at the end.
    ///
    /// # Errors
    ///
    /// `Read` if a read of the reader failed, and `Memory` if not.
    #[tactic(auto, using(crate::proofs::PlayedRows::next_stands))]
    pub(crate) fn next(&mut self, row: &mut ByteRecord) -> Result<bool, LogFault>
        ensures found { (known : Option (List ℕ)) (records : List Record)
            → ScriptStandsAt R.remaining known self.old records
            → IfOk result (λ found. MatchBool found
            (ScriptStandsAt R.remaining known self.new (fields_of row.new ∷ records))
            (HasAllRecords known records)) }
        ensures fault { IfErr result (IsReadFault (SomeReadFailed R.failures)) }
    {
        match self.reader.read_byte_record(row) {
            Ok(found) => Ok(found),
            Err(_) if self.reader.get_ref().failed() => Err(LogFault::Read),
            Err(_) => Err(LogFault::Memory),
        }
    }
}
