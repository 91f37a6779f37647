//! What a run reads: standard input, or the file of its arguments.
ghost use Rattle.std.specs.Prelude.{◌≡◌, IfNone, IfSome};
ghost use Rattle.rds_program.specs.RunInput.{IsOfFile};

use std::fs;
use std::io::{self, Read};
use std::rt::Files;

/// What a run reads (this project's own rule).
#[derive(Drop)]
pub enum RunInput<S, F> {
    Standard(S),
    File(F),
    /// A file that the system did not open: the first read fails for this reason.
    Unopened(io::Error),
    /// The same, after its first read.
    Failed,
    /// Standard input after its end. It is not read again, so that one Ctrl-D at a terminal is enough.
    Ended,
}

impl<S: Read + Drop, F: Read + Drop> Read for RunInput<S, F> {
    ghost use Rattle.rds_program.specs.RunInput.{bytes_left};

    ghost remaining = { bytes_left S.remaining F.remaining };

    fn read(&mut self, buf: &mut [u8]) -> io::Result<usize> {
        match self {
            RunInput::Standard(standard) => {
                let count = standard.read(buf)?;
                if count == 0 && !buf.is_empty() {
                    *self = RunInput::Ended;
                }
                Ok(count)
            }
            RunInput::File(file) => file.read(buf),
            RunInput::Unopened(_) | RunInput::Failed => Err(self.take_error()),
            RunInput::Ended => Ok(0),
        }
    }
}

impl<S: Drop, F: Drop> RunInput<S, F> {
    /// Returns why the file was not opened, once.
    fn take_error(&mut self) -> io::Error
        ensures failed { self.new ≡ RunInput.Failed }
    {
        match std::mem::replace(self, RunInput::Failed) {
            RunInput::Unopened(error) => error,
            _ => io::Error::from(io::ErrorKind::Other),
        }
    }
}

/// Opens the file to read. `None` for standard input. If the system does not open the file, each read fails.
pub fn input_of<R: Files, S: Drop>(rt: &R, standard: S, file: Option<&str>) -> RunInput<S, R::File>
    ensures standard { IfNone file.entry (result ≡ RunInput.Standard standard) }
    ensures named { IfSome file.entry (λ path. IsOfFile result) }
{
    let Some(path) = file else {
        return RunInput::Standard(standard);
    };
    match fs::open(rt, path) {
        Ok(file) => RunInput::File(file),
        Err(error) => RunInput::Unopened(error),
    }
}
