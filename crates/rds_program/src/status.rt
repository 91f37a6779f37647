//! The exit statuses, and the ends of a run without an engine.
ghost use Rattle.std.specs.Prelude.{◌≡◌, codes, false, true};
ghost use Rattle.rds_io.specs.Told.{traffic};
ghost use Rattle.rds_program.specs.Run.{PutsLine};

use rds_io::{TellingWrite, Told, put};
use std::io::Write;

/// The status if all was done, if the audit answers yes, or if help was asked for.
pub(crate) const OK: u8 = 0;

/// The status if the audit answers no, if a witness was found, or if the times of a log are too coarse.
pub(crate) const NO: u8 = 1;

/// The status after a fault of the log, the script, the reader or the writer, or out of memory.
pub const FAULT: u8 = 1;

/// The status if the arguments are refused.
pub const REFUSED: u8 = 2;

/// Ends a run whose arguments could not be read, because the program is out of memory or for another cause. Writes the
/// fault line for the first, as far as the writer takes it, and a note for both. Returns the status.
pub fn no_words<W: Write + Drop, N: Write + Drop>(memory: bool, writer: W, notes: N) -> u8
    ensures memory { memory ≡ true → result ≡ 1 }
    ensures other { memory ≡ false → result ≡ 2 }
{
    let mut notes = Told::new(notes);
    if !memory {
        let _ = put(b"rdsrt: an argument is not UTF-8\n", &mut notes);
        return REFUSED;
    }
    write_no_memory(&mut Told::new(writer));
    let _ = put(b"rdsrt: fault memory: out of memory\n", &mut notes);
    FAULT
}

/// Writes the fault line of a run that is out of memory before its command is known, as far as the writer takes it.
pub fn write_no_memory<W: TellingWrite>(writer: &mut W)
    ensures { PutsLine (codes "fault memory\n") (traffic W.contents W.failures writer.old writer.new) }
{
    let _ = put(b"fault memory\n", writer);
}
