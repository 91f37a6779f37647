//! `rdsrt` encodes, decodes, simulates and audits the text services of RDS.
//!
//! The program is the crate `rds_program`. `main` reads the arguments of the command line once. It passes what they ask
//! for, the file that they name or standard input, and standard output to `run_read`, whose contract says what it
//! writes. Notes for a person go to standard error.
//!
//! ```text
//! rdsrt decode --pi C201
//! ```
#![tactic(auto)]

use clap::Error;
use rds_cli::{Request, Task, identification_of, read_words, request_in};
use rds_io::{Told, put};
use rds_lines::{Heard, NoNews};
use rds_notes::{MissingPi, Run, Screen, print_no_group, print_notes, print_pi, print_refusal};
use rds_program::{Report, input_of, no_words, run_read, texts, words_of};
use std::fs;
use std::io::{self, ErrorKind, IsTerminal, Stderr};
use std::process::ExitCode;

fn main(rt: HostRuntime) -> ExitCode {
    let words = match words_of(&rt) {
        Ok(words) => words,
        Err(error) => {
            let memory = error.kind() == ErrorKind::OutOfMemory;
            return ExitCode::from(no_words(memory, rt.stdout(), rt.stderr()));
        }
    };
    let status = match texts(rt.alloc(), words.as_slice()) {
        Ok(words) => run(
            &rt,
            words.as_slice(),
            read_words(rt.alloc(), words.as_slice()),
        ),
        Err(_) => no_words(true, rt.stdout(), rt.stderr()),
    };
    ExitCode::from(status)
}

/// Runs the program, given its arguments and the result of reading them.
fn run(rt: &HostRuntime, words: &[&str], read: Result<Option<Request<'_>>, Error>) -> u8 {
    let request = request_in(&read);
    match &request {
        Some(request) => run_request(rt, read, request),
        None => refuse(rt, words, read),
    }
}

/// Runs the program over a request, the file that it names or standard input, and standard output.
fn run_request<'a>(
    rt: &HostRuntime,
    read: Result<Option<Request<'_>>, Error>,
    request: &'a Request<'a>,
) -> u8 {
    let mut screen = notes(rt);
    prompt(rt, request, &mut screen);
    let mut input = Told::new(input_of(rt, rt.stdin(), request.file));
    let mut output = Told::new(rt.stdout());
    let mut report = Report::new();
    let mut news = Screen::new(request, notes(rt));
    let status = run_read(
        rt.alloc(),
        read,
        &mut input,
        &mut output,
        &mut report,
        &mut news,
    );
    let run = Run {
        request,
        end: report.end,
        log: &report.log,
        slots: &report.slots,
        script: &report.script,
        reason: output.reason().or(input.reason()),
    };
    print_notes(&run, &mut screen);
    status
}

/// The place of the first argument behind the command.
const BEHIND_COMMAND: usize = 2;

/// Prints help, or why the arguments are refused, and what to type if they lack the PI.
fn refuse(rt: &HostRuntime, words: &[&str], read: Result<Option<Request<'_>>, Error>) -> u8 {
    let missing = match &read {
        Ok(_) => None,
        Err(error) => MissingPi::of(error, &*words),
    };
    match &read {
        Ok(_) => print_no_group(words, &mut notes(rt)),
        // A terminal shows the reason already: it is standard output.
        Err(_) if rt.stdout().is_terminal() => {}
        Err(error) => print_refusal(error, &mut notes(rt)),
    }
    let status = run_read(
        rt.alloc(),
        read,
        &mut Told::new(rt.stdin()),
        &mut Told::new(rt.stdout()),
        &mut Report::new(),
        &mut NoNews,
    );
    if let Some(missing) = missing {
        let log = if missing.is_unknown() {
            heard_in(rt, words)
        } else {
            None
        };
        print_pi(missing, log, &mut notes(rt));
    }
    status
}

/// Returns the programmes of the log that these arguments name: they lack the PI alone. `None` if they name none, and for
/// a script, a pipe or a device.
fn heard_in(rt: &HostRuntime, words: &[&str]) -> Option<Heard> {
    let mut whole = Vec::new(rt.alloc());
    for (place, &word) in words.iter().enumerate() {
        if place == BEHIND_COMMAND {
            whole.push("--pi").ok()?;
            whole.push("0000").ok()?;
        }
        whole.push(word).ok()?;
    }
    let read = read_words(rt.alloc(), whole.as_slice());
    let request = request_in(&read);
    match &request {
        Some(request) => heard_by(rt, read, request),
        None => None,
    }
}

/// Returns the programmes of the log of a request. `None` if it has none, and for a pipe or a device.
fn heard_by<'a>(
    rt: &HostRuntime,
    read: Result<Option<Request<'_>>, Error>,
    request: &'a Request<'a>,
) -> Option<Heard> {
    let path = request.file?;
    if !reads_log(request.task) || !fs::metadata(rt, path).ok()?.is_file() {
        return None;
    }
    // A reader of another type than that of a request: with the same one the compiler makes its commands slower.
    let mut input = Told::new(fs::open(rt, path).ok()?);
    let mut output = Told::new(io::sink());
    let mut report = Report::new();
    let _ = run_read(
        rt.alloc(),
        read,
        &mut input,
        &mut output,
        &mut report,
        &mut NoNews,
    );
    Some(report.log.input.heard)
}

/// Returns whether a task reads a log.
fn reads_log(task: Task) -> bool {
    !matches!(task, Task::Encode(..) | Task::Simulate { .. })
}

/// Prints a line for a person who types the input.
fn prompt(rt: &HostRuntime, request: &Request<'_>, screen: &mut Told<Stderr>) {
    let types = request.file.is_none() && rt.stdin().is_terminal();
    if request.quiet || !types || identification_of(request.pi).is_none() {
        return;
    }
    let line: &[u8] = match request.task {
        Task::Encode(..) | Task::Simulate { .. } => {
            b"rdsrt: reading a script from the terminal; Ctrl-D ends it\n"
        }
        _ => b"rdsrt: reading a log from the terminal; Ctrl-D ends it\n",
    };
    let _ = put(line, screen);
}

/// Returns standard error, for notes.
fn notes(rt: &HostRuntime) -> Told<Stderr> {
    Told::new(rt.stderr())
}
