//! The program `rdsrt` as a WebAssembly module: its arguments, its input, its output and its notes are bytes of memory.
#![tactic(auto)]

mod answer;
mod slice_reader;

ghost use Rattle.std.specs.Prelude.{◌≡◌, []};
ghost use Rattle.rds_io.specs.Told.{failures_of, inner_of};
ghost use Rattle.rds_wasm.specs.Page.{Begun, RunsInPage};

use answer::answer;
use rds_io::Told;
use std::alloc::Global;

/// How the program ended.
#[repr(C)]
#[derive(Clone, Copy)]
pub struct Ended {
    /// How many bytes it printed. If the output has less room, it holds only the first of them.
    pub length: usize,
    /// How many writes failed because the program was out of memory.
    pub failures: u64,
    /// How many bytes of notes it printed. If the buffer of the notes has less room, it holds only the first of them.
    pub noted: usize,
    /// Its exit status.
    pub status: u8,
}

/// Runs the program over its arguments, one a line, the program's own name first, and over the bytes of its input.
/// Copies its standard output to `output` and its notes to `notes`.
#[unsafe(no_mangle)]
pub extern "C" fn rdsrt_run(
    alloc: Global,
    words: &[u8],
    input: &[u8],
    output: &mut [u8],
    notes: &mut [u8],
) -> Ended
    ensures { RunsInPage words.now input.now output.new notes.new (record {
      length = result.length;
      failures = result.failures;
      noted = result.noted;
      status = result.status;
    }) }
{
    let mut printed = empty(alloc);
    let mut screen = empty(alloc);
    let status = answer(alloc, words, input, &mut printed, &mut screen);
    Ended {
        length: copy_front(bytes_of(&printed), output),
        failures: printed.failures(),
        noted: copy_front(bytes_of(&screen), notes),
        status,
    }
}

/// Makes a writer into memory, with nothing written.
fn empty(alloc: Global) -> Told<Vec<u8>>
    ensures empty { (inner_of result).items ≡ [] }
    ensures unfailed { failures_of result ≡ 0 }
{
    Told::new(Vec::new(alloc))
}

/// Returns the bytes that were written.
fn bytes_of(printed: &Told<Vec<u8>>) -> &[u8]
    ensures { result.now ≡ (inner_of printed.now).items }
{
    printed.inner().as_slice()
}

/// Copies as many bytes as there is room for, and returns how many there are.
fn copy_front(printed: &[u8], output: &mut [u8]) -> usize
    ensures { Begun printed.now output.new result }
{
    let count = printed.len().min(output.len());
    output[..count].copy_from_slice(&printed[..count]);
    printed.len()
}

#[cfg(test)]
mod tests;
