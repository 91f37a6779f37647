//! The whole program over its arguments.
ghost use Rattle.std.specs.Prelude.{◌≡◌, ◌≤◌, ◌+◌, ◌^◌, ◌++◌, ℕ, List, None, codes, decimal, false, true};
ghost use Rattle.std.specs.Prelude.{if◌then◌else◌, length, map};
ghost use Rattle.rds_io.specs.Told.{traffic};
ghost use Rattle.rds_receiver.specs.Receipts.{tuned};
ghost use Rattle.clap.specs.Words.{kind_of};
ghost use Rattle.rds_audit.specs.AuditState.{form_if, start_if};
ghost use Rattle.rds_cli.specs.Asks.{ReadAs};
ghost use Rattle.rds_program.specs.Run as specs;
ghost use Rattle.rds_program.specs.Run.{EndsWith, IsUntouched, PutsAfter, PutsLine, RunsFrom, RunsRead, LossRuns};
ghost use Rattle.rds_program.specs.Run.{RunsWords, SimulationRuns, TaskRuns, TellsFault, done, listening, mark_of};
ghost use Rattle.rds_program.specs.Run.{reader_before, reader_over, script_in, status_of, times_status};
ghost use Rattle.rds_script.specs.Play.{Plays};
ghost use Rattle.rds_witness.specs.Spans.{bursts_in};

use crate::report::Report;
use crate::status::{FAULT, NO, OK, REFUSED, write_no_memory};
use clap::Error;
use clap::error::ErrorKind;
use rds_arrivals::Grain;
use rds_audit::{LogStart, TextForm};
use rds_cli::{End, Programme, Refusal, Request, Task, identification_of, read_words};
use rds_fields::{Dwell, Head, Late, TagGroup};
use rds_io::{Lines, LogFault, TellingRead, TellingWrite, put};
use rds_lines::{MOST_READS, News, NoNews};
use rds_log::{
    Auditing, Decoding, Filling, Stop, Times, audit_with_notes, decode_with_notes, fill_with_notes,
};
use rds_receiver::Window;
use rds_script::{Form, MOST_RECORDS, Playing, play_script};
use rds_witness::{Losing, bursts_of, lose_with_notes, witness_with_notes};
use rds_world::{Config, ReceiverKind};
use std::alloc::Global;
use std::io::Write;

/// The most bytes of a fault line.
const FAULT_LINE: usize = 64;

/// Runs the whole program over its arguments, the program's own name first. Returns its exit status (this project's own
/// command line).
///
/// `decode` reads a log and writes the view of a receiver. With a window the receiver shows only what it heard twice.
/// `encode` reads a script and writes the log of a station. `sim` reads a script and writes the station's groups and
/// the views of its receivers. `audit` reads a log and writes whether it passes. `witness` reads a log and writes
/// which slots a receiver must lose to show a mix, or all mixes of a receiver that loses given slots. The line of a
/// fault is the last line of the output.
///
/// If the arguments are refused or ask for help, `run` writes the text of `clap` and reads nothing: the contract of
/// [`run_read`] says so of its reader. `clap`'s contract does not promise that a number is in its range: for a
/// number outside, `nothing_asked` holds. Nor does it say whether `help` followed by an argument gives help or is
/// refused: `not_taken` bounds the status.
pub fn run<R: TellingRead + Drop, W: TellingWrite>(
    alloc: Global,
    words: &[&str],
    mut reader: R,
    writer: &mut W,
) -> u8
    ensures { RunsWords (map (λ w. w.now) words.entry.now)
        (RunsFrom (reader_before R.remaining R.failures reader)
        (traffic W.contents W.failures writer.old writer.new) result) (Unit {0})
        (traffic W.contents W.failures writer.old writer.new) result }
{
    let read = read_words(alloc, words);
    let mut report = Report::new();
    run_read(alloc, read, &mut reader, writer, &mut report, &mut NoNews)
}

/// Does what [`run`] does, given the result of reading its arguments, over a borrowed reader. Reports what the run met
/// in `report`, a new one, and tells the news of a log.
///
/// The contract says the reader's state after the call: if no command ran, its bytes and its counts of reads and
/// failures are unchanged. What it says of the request that was read holds for the arguments too (`words`).
pub fn run_read<R: TellingRead, W: TellingWrite, N: News>(
    alloc: Global,
    read: Result<Option<Request<'_>>, Error>,
    reader: &mut R,
    writer: &mut W,
    report: &mut Report,
    news: &mut N,
) -> u8
    ensures read { RunsRead read.entry
        (λ task lose t. TaskRuns task lose t (reader_over R.remaining R.failures R.reads reader.old reader.new)
        (traffic W.contents W.failures writer.old writer.new) result)
        (IsUntouched R.remaining R.failures R.reads reader.old reader.new)
        (traffic W.contents W.failures writer.old writer.new) result }
    ensures words { (words : List (List ℕ)) → ReadAs words read.entry → RunsWords words
        (λ task lose t. TaskRuns task lose t (reader_over R.remaining R.failures R.reads reader.old reader.new)
        (traffic W.contents W.failures writer.old writer.new) result)
        (IsUntouched R.remaining R.failures R.reads reader.old reader.new)
        (traffic W.contents W.failures writer.old writer.new) result }
{
    match read {
        Ok(Some(request)) => {
            let Some(pi) = identification_of(request.pi) else {
                report.end = End::BadPi;
                write_fault_text(request.task, b"fault pi", writer);
                return REFUSED;
            };
            run_task(alloc, &request, pi, reader, writer, report, news)
        }
        Ok(None) => REFUSED,
        Err(error) => write_error(&error, writer),
    }
}

/// Writes the text of `clap`, help or the reason of a refusal, as far as the writer takes it. Writes the fault line if
/// the program is out of memory.
fn write_error<W: TellingWrite>(error: &Error, writer: &mut W) -> u8
    ensures status { result ≡ status_of (kind_of error.now) }
    ensures memory { kind_of error.now ≡ ErrorKind.OutOfMemory
        → PutsLine (codes "fault memory\n") (traffic W.contents W.failures writer.old writer.new) }
{
    if error.kind() == ErrorKind::OutOfMemory {
        write_no_memory(writer);
        return FAULT;
    }
    let _ = write!(writer, "{}", Refusal::of(error));
    if error.use_stderr() { REFUSED } else { OK }
}

/// Runs the engine of a command for its programme, and writes the line of its fault.
fn run_task<R: TellingRead, W: TellingWrite, N: News>(
    alloc: Global,
    request: &Request<'_>,
    pi: u16,
    reader: &mut R,
    writer: &mut W,
    report: &mut Report,
    news: &mut N,
) -> u8
    ensures { TaskRuns request.now.task request.now.lose.now (listening request.now.rtplus pi request.now.dwell)
        (reader_over R.remaining R.failures R.reads reader.old reader.new)
        (traffic W.contents W.failures writer.old writer.new) result }
{
    // Prover: a matched value is copied by a new name before its second use (PROVER.md, "Workarounds").
    let (asked, rtplus, dwell) = (request.task, request.rtplus, request.dwell);
    match request.task {
        Task::Decode {
            window,
            says_why,
            keep,
        } => {
            let decoding = Decoding {
                pi,
                rtplus,
                dwell,
                window,
                says_why,
                keep,
            };
            let log = &mut report.log;
            let decoded = decode_with_notes(reader, writer, decoding, MOST_READS, log, news);
            end_with(asked, decoded, writer, &mut report.end)
        }
        Task::Encode(programme, late) => {
            let playing = Playing {
                form: Form::Log { rtplus },
                config: station_of(pi, dwell, programme, late, ReceiverKind::with_dwell()),
            };
            let encoded = run_script(playing, alloc, reader, writer, report);
            end_with(asked, encoded, writer, &mut report.end)
        }
        Task::Simulate {
            programme,
            late,
            window,
            flag_alone,
            says_why,
            keep,
        } => {
            let station = simulated_station(pi, dwell, programme, late, window, flag_alone);
            let form = Form::Simulation {
                says_why,
                rtplus,
                keep,
            };
            simulate(alloc, asked, form, station, reader, writer, report)
        }
        Task::Audit {
            late,
            running,
            padded,
            lists_all,
        } => {
            let auditing = Auditing {
                pi,
                rtplus,
                dwell,
                late,
                start: start_of(running),
                form: form_of(padded),
                stop: stop_of(lists_all),
            };
            let log = &mut report.log;
            match audit_with_notes(reader, writer, auditing, MOST_READS, log, news) {
                Ok(passed) => answer_by(passed, OK, NO, &mut report.end),
                Err(fault) => fail_with(asked, fault, writer, &mut report.end),
            }
        }
        Task::Slots(grain, only) => {
            let filling = filling_of(pi, dwell, Grain::of_milliseconds(grain), only);
            match fill_with_notes(reader, writer, filling, &mut report.slots, news) {
                Ok(times) => answer_by(can_count(times), OK, NO, &mut report.end),
                Err(fault) => fail_with(asked, fault, writer, &mut report.end),
            }
        }
        Task::Witness => {
            let input = &mut report.log.input;
            match witness_with_notes(alloc, reader, writer, pi, rtplus, dwell, input, news) {
                Ok(found) => answer_by(found, NO, OK, &mut report.end),
                Err(fault) => fail_with(asked, fault, writer, &mut report.end),
            }
        }
        Task::Lose { flag_alone } => lose(
            alloc, request, pi, flag_alone, reader, writer, report, news,
        ),
    }
}

/// Runs `witness` for a receiver that loses given slots. Refuses a text that does not give them.
// A function of its own: inside its caller it would change how the loops of the other engines are compiled.
#[inline(never)]
fn lose<R: TellingRead, W: TellingWrite, N: News>(
    alloc: Global,
    request: &Request<'_>,
    pi: u16,
    flag_alone: bool,
    reader: &mut R,
    writer: &mut W,
    report: &mut Report,
    news: &mut N,
) -> u8
    ensures { LossRuns (bursts_in request.now.lose.now) flag_alone (listening request.now.rtplus pi request.now.dwell)
        (reader_over R.remaining R.failures R.reads reader.old reader.new)
        (traffic W.contents W.failures writer.old writer.new) result }
{
    let task = Task::Lose { flag_alone };
    let Ok(bursts) = bursts_of(alloc, request.lose.as_bytes()) else {
        return fail_with(task, LogFault::Memory, writer, &mut report.end);
    };
    let Some(bursts) = bursts else {
        report.end = End::BadSpans;
        write_fault_text(task, b"fault lose", writer);
        return REFUSED;
    };
    let kind = ReceiverKind {
        window: None,
        is_flag_alone: flag_alone,
    };
    let losing = Losing {
        pi,
        rtplus: request.rtplus,
        dwell: kind.dwell(request.dwell),
        ahead: request.dwell,
        lost: bursts.as_slice(),
    };
    match lose_with_notes(alloc, reader, writer, &losing, &mut report.log.input, news) {
        Ok(found) => answer_by(found, NO, OK, &mut report.end),
        Err(fault) => fail_with(task, fault, writer, &mut report.end),
    }
}

/// Simulates a station and its receivers, and writes its slots in this form. Without a station the window is refused.
fn simulate<R: TellingRead, W: TellingWrite>(
    alloc: Global,
    task: Task,
    form: Form,
    station: Option<Config>,
    reader: &mut R,
    writer: &mut W,
    report: &mut Report,
) -> u8
    ensures { SimulationRuns form station task
        (reader_over R.remaining R.failures R.reads reader.old reader.new)
        (traffic W.contents W.failures writer.old writer.new) result }
{
    let Some(station) = station else {
        report.end = End::BadWindow;
        write_fault_text(task, b"fault confirm", writer);
        return REFUSED;
    };
    let playing = Playing {
        form,
        config: station,
    };
    let simulated = run_script(playing, alloc, reader, writer, report);
    end_with(task, simulated, writer, &mut report.end)
}

/// Plays a script.
fn run_script<R: TellingRead, W: TellingWrite>(
    playing: Playing,
    alloc: Global,
    reader: &mut R,
    writer: &mut W,
    report: &mut Report,
) -> Result<(), LogFault>
    ensures { Plays playing (2 ^ 32)
        (script_in (reader_over R.remaining R.failures R.reads reader.old reader.new))
        (traffic W.contents W.failures writer.old writer.new) result }
{
    let notes = &mut report.script;
    play_script(playing, alloc, reader, writer, MOST_RECORDS, notes)
}

/// Returns the station of these options.
fn station_of(pi: u16, dwell: Dwell, programme: Programme, late: Late, kind: ReceiverKind) -> Config
    ensures { result ≡ specs.tuned_station (tuned pi dwell) programme late kind }
{
    Config {
        head: Head {
            pi,
            tp: programme.tp,
            pty: programme.pty,
        },
        dwell,
        late,
        kind,
    }
}

/// Returns the station of a simulation. `None` if K + W - 1 is above 1024 slots.
fn simulated_station(
    pi: u16,
    dwell: Dwell,
    programme: Programme,
    late: Late,
    window: Option<Window>,
    alone: bool,
) -> Option<Config>
    ensures { result ≡ specs.simulated_station (tuned pi dwell) programme late window alone }
{
    let kind = ReceiverKind {
        window,
        is_flag_alone: alone,
    };
    if kind.lateness(late) > 1024 {
        return None;
    }
    Some(station_of(pi, dwell, programme, late, kind))
}

/// Returns how `slots` fills a log: with `only`, it leaves out the lines of other programmes.
fn filling_of(pi: u16, dwell: Dwell, grain: Grain, only: bool) -> Filling
    ensures { result ≡ specs.filling_of (tuned pi dwell) grain only }
{
    Filling {
        pi: if only { Some(pi) } else { None },
        grain,
        dwell,
    }
}

/// Returns where the log of an audit begins.
fn start_of(running: bool) -> LogStart
    ensures { result ≡ start_if running }
{
    if running {
        LogStart::Running
    } else {
        LogStart::Complete
    }
}

/// Returns the form of the texts of an audit.
fn form_of(padded: bool) -> TextForm
    ensures { result ≡ form_if padded }
{
    if padded {
        TextForm::Padded
    } else {
        TextForm::Plain
    }
}

/// Returns where an audit stops.
fn stop_of(lists_all: bool) -> Stop
    ensures { result ≡ specs.stop_if lists_all }
{
    if lists_all {
        Stop::LogEnd
    } else {
        Stop::FirstFault
    }
}

/// Returns whether the slots of a log can be counted by its times.
fn can_count(times: Times) -> bool
    ensures { times_status times ≡ if result then 0 else 1 }
{
    match times {
        Times::Fine => true,
        Times::Coarse | Times::Broken | Times::AllLeftOut => false,
    }
}

/// Returns the status of a command that answered yes or no.
fn answer_by(yes: bool, if_yes: u8, if_no: u8, end: &mut End) -> u8
    ensures { result ≡ if yes then if_yes else if_no }
{
    *end = End::Done;
    if yes { if_yes } else { if_no }
}

/// Returns the status of a command without an answer, or of its fault, and writes the line of the fault.
fn end_with<W: TellingWrite>(
    task: Task,
    outcome: Result<(), LogFault>,
    writer: &mut W,
    end: &mut End,
) -> u8
    ensures { EndsWith done task outcome (traffic W.contents W.failures writer.old writer.new) result }
{
    match outcome {
        Ok(()) => {
            *end = End::Done;
            OK
        }
        Err(fault) => fail_with(task, fault, writer, end),
    }
}

/// Returns the status of a fault, and writes its line.
fn fail_with<W: TellingWrite>(task: Task, fault: LogFault, writer: &mut W, end: &mut End) -> u8
    ensures status { result ≡ 1 }
    ensures told { PutsAfter task fault (traffic W.contents W.failures writer.old writer.new) }
{
    *end = End::Fault(fault);
    write_fault_line(task, fault, writer);
    FAULT
}

/// Writes the line of the fault as far as the writer takes it. Writes nothing after a failed write.
fn write_fault_line<W: TellingWrite>(task: Task, fault: LogFault, writer: &mut W)
    ensures { PutsAfter task fault (traffic W.contents W.failures writer.old writer.new) }
{
    match fault {
        LogFault::BadLine(number) => write_numbered_fault(task, b"fault line ", number, writer),
        LogFault::BadRow(number) => write_numbered_fault(task, b"fault row ", number, writer),
        LogFault::Read => write_fault_text(task, b"fault read", writer),
        LogFault::Write => {}
        LogFault::TooLong => write_fault_text(task, b"fault too long", writer),
        LogFault::Memory => write_fault_text(task, b"fault memory", writer),
    }
}

/// Writes the line of a fault at a numbered line or row.
fn write_numbered_fault<W: TellingWrite>(task: Task, text: &[u8], number: u64, writer: &mut W)
    requires { length text.now ≤ 32 }
    ensures { TellsFault task (text.now ++ decimal number)
        (traffic W.contents W.failures writer.old writer.new) }
{
    let mut line = Lines::<FAULT_LINE>::new();
    line.push(mark(task));
    line.push(text);
    line.push_number(number);
    line.push(b"\n");
    write_line(line.bytes(), writer);
}

/// Writes the line of a fault.
fn write_fault_text<W: TellingWrite>(task: Task, text: &[u8], writer: &mut W)
    requires { length text.now ≤ 32 }
    ensures { TellsFault task text.now (traffic W.contents W.failures writer.old writer.new) }
{
    let mut line = Lines::<FAULT_LINE>::new();
    line.push(mark(task));
    line.push(text);
    line.push(b"\n");
    write_line(line.bytes(), writer);
}

/// Returns the mark before the line of a fault: in the log that `encode` or `slots` writes, the line is a comment.
fn mark(task: Task) -> &'static [u8]
    ensures mark { result.now ≡ mark_of task }
    ensures short { length result.now ≤ 2 }
{
    match task {
        Task::Encode(..) | Task::Slots(..) => b"# ",
        Task::Decode { .. }
        | Task::Simulate { .. }
        | Task::Audit { .. }
        | Task::Witness
        | Task::Lose { .. } => b"",
    }
}

/// Writes a line as far as the writer takes it.
fn write_line<W: TellingWrite>(line: &[u8], writer: &mut W)
    ensures { PutsLine line.now (traffic W.contents W.failures writer.old writer.new) }
{
    let _ = put(line, writer);
}
