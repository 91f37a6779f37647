//! The program over arguments that are lines of one text.
ghost use Rattle.std.specs.Prelude.{◌≡◌, IfOk, map, IsUtf8};
ghost use Rattle.rds_io.specs.Told.{PutsNothing, traffic};
ghost use Rattle.rds_wasm.specs.Page.{PagePrints, Refuses, words_in};

use crate::slice_reader::SliceReader;
use rds_cli::{Request, read_words, request_in};
use rds_io::TellingWrite;
use rds_lines::NoNews;
use rds_notes::{MissingPi, Run, print_notes, print_pi};
use rds_program::{FAULT, REFUSED, Report, run_read, write_no_memory};
use std::alloc::{AllocError, Global};

/// Runs the program over its arguments, one a line, and over the bytes of its input. Writes its notes to `screen`.
pub fn answer<W: TellingWrite, N: TellingWrite>(
    alloc: Global,
    words: &[u8],
    input: &[u8],
    writer: &mut W,
    screen: &mut N,
) -> u8
    ensures text { IsUtf8 words.now → PagePrints (words_in words.now) input.now
        (traffic W.contents W.failures writer.old writer.new) result }
    ensures no_text { (IsUtf8 words.now → ⊥)
        → Refuses (traffic W.contents W.failures writer.old writer.new) result }
    ensures unnoted { (IsUtf8 words.now → ⊥)
        → PutsNothing (traffic N.contents N.failures screen.old screen.new) }
{
    let Ok(text) = str::from_utf8(words) else {
        return REFUSED;
    };
    let Ok(words) = words_in(alloc, text) else {
        write_no_memory(writer);
        return FAULT;
    };
    let read = read_words(alloc, words.as_slice());
    let request = request_in(&read);
    let missing = match &read {
        Ok(_) => None,
        Err(error) => MissingPi::of(error, words.as_slice()),
    };
    let mut given = SliceReader::new(input);
    let mut report = Report::new();
    let status = run_read(alloc, read, &mut given, writer, &mut report, &mut NoNews);
    print_report(&request, &report, screen);
    if let Some(missing) = missing {
        print_pi(missing, None, screen);
    }
    status
}

/// Prints the notes of a run, if its arguments were a request.
fn print_report<'a, N: TellingWrite>(
    request: &'a Option<Request<'a>>,
    report: &'a Report,
    screen: &mut N,
) {
    let Some(request) = request else {
        return;
    };
    let run = Run {
        request,
        end: report.end,
        log: &report.log,
        slots: &report.slots,
        script: &report.script,
        reason: None,
    };
    print_notes(&run, screen);
}

/// Returns the lines of a text.
pub fn words_in(alloc: Global, text: &str) -> Result<Vec<&str>, AllocError>
    ensures { IfOk result (λ words. map (λ w. w.now) words.items ≡ words_in text.now) }
{
    let mut words = Vec::new(alloc);
    let mut rest = text;
    while let Some((word, after)) = rest.split_once('\n') {
        words.push(word)?;
        rest = after;
    }
    words.push(rest)?;
    Ok(words)
}
