//! The request of the command line.
ghost use Rattle.std.specs.Prelude.{◌≡◌, ◌-◌, ◌<◌, ◌⊎◌, ℕ, IfErr, IfNone, IfOk, IfSome, None, false, map, option_map, true};
ghost use Rattle.clap.specs.Words.{FailsBy, fault_of, found_of, kind_of, rows_of};
ghost use Rattle.rds_cli.specs.Asks.{ReadAs, asked_by};
ghost use Rattle.rds_cli.specs.CommandLine.{AreRefused, AskForHelp, IsPi, TakesWords, asked_in, asked_of};
ghost use Rattle.rds_cli.specs.CommandLine.{file_in, flag_in, group_named};
ghost use Rattle.rds_cli.specs.CommandLine.{has_value, is_shown, keep_in, lose_in, pi_in};
ghost use Rattle.rds_cli.specs.CommandLine.{programme_in, option_number, rtplus_in};
ghost use Rattle.rds_cli.specs.CommandLine.{task_in, whole_app, window_in, witness_in};

use crate::command_line::whole;
use clap::error::ErrorKind;
use clap::{ArgMatches, Error};
use rds_block::Place;
use rds_fields::{Bounded, Dwell, Late, TagGroup};
use rds_io::word_at;
use rds_receiver::Window;
use std::alloc::Global;

/// The programme type and the traffic flag, which every group of a station carries.
#[derive(Clone, Copy)]
pub struct Programme {
    /// The programme type.
    pub pty: Place<32>,
    /// Whether the programme carries traffic announcements.
    pub tp: bool,
}

/// The command. `encode` and `sim` have a station; the lateness is the most slots that a group may come late.
#[derive(Clone, Copy)]
pub enum Task {
    /// Print what a receiver shows of a log.
    Decode {
        /// With a window it shows only what it heard twice within it.
        window: Option<Window>,
        /// Whether the line of a text or a name that is not shown any more says why.
        says_why: bool,
        /// For how many slots the display keeps a text and a name that the receiver does not show any more.
        keep: u16,
    },
    /// Print the groups that a station sends.
    Encode(Programme, Late),
    /// Print what a station sends and what its receivers show.
    Simulate {
        programme: Programme,
        late: Late,
        /// With a window the receivers show only what they heard twice within it.
        window: Option<Window>,
        /// Whether the receivers are radios that follow the A/B flag bit alone.
        flag_alone: bool,
        /// Whether the line of a text or a name that is not shown any more says why.
        says_why: bool,
        /// For how many slots the displays keep a text and a name that the receiver does not show any more.
        keep: u16,
    },
    /// Print whether a log of all groups that were sent passes the audit.
    Audit {
        late: Late,
        /// Whether the station was on air before the log began.
        running: bool,
        /// Whether texts may have padding.
        padded: bool,
        /// Whether each fault is printed, or the first one alone.
        lists_all: bool,
    },
    /// Print which slots of such a log a receiver has to lose to show a mix.
    Witness,
    /// Print all mixes of a receiver that loses given slots of such a log.
    Lose {
        /// Whether the receiver follows the A/B flag bit alone.
        flag_alone: bool,
    },
    /// Print a log with times, and a line for each slot that it lacks. Its times are off by at most so many
    /// milliseconds. The flag: lines of other programmes are left out.
    Slots(Place<88>, bool),
}

/// A command with its options.
#[derive(Clone, Copy)]
pub struct Request<'a> {
    pub task: Task,
    /// The argument of `--pi`, unchecked.
    pub pi: &'a str,
    /// The group type of the tags.
    pub rtplus: TagGroup,
    /// The argument of `--lose`, unchecked. Empty if there is none.
    pub lose: &'a str,
    pub dwell: Dwell,
    /// The file to read. `None` for standard input.
    pub file: Option<&'a str>,
    /// Whether warnings are left out. No contract speaks of it.
    pub quiet: bool,
    /// Whether notes are JSON objects instead of sentences. No contract speaks of it.
    pub json_notes: bool,
}

/// Reads the argument of `--pi`. `None` if it is not four hexadecimal digits, of either case.
pub fn identification_of(given: &str) -> Option<u16>
    ensures some { IfSome result (IsPi given.now) }
    ensures none { IfNone result ((pi : ℕ) → IsPi given.now pi → ⊥) }
{
    if given.len() == 4 {
        word_at(given.as_bytes(), 0)
    } else {
        None
    }
}

/// Reads the arguments, the program's own name first. `None` if `--rtplus` names no group type of the tags. It is also
/// the answer if they name no task or a number is out of its range; `clap` refuses both before.
///
/// # Errors
///
/// The answer of `clap`: the arguments are refused, or they ask for help, or the program is out of memory.
pub fn read_words<'a>(alloc: Global, words: &'a [&'a str]) -> Result<Option<Request<'a>>, Error>
    ensures { ReadAs (map (λ w. w.now) words.entry.now) result }
{
    parse(alloc, words)
}

/// Returns the request that was read, if there is one.
pub fn request_in<'a>(read: &Result<Option<Request<'a>>, Error>) -> Option<Request<'a>>
    ensures as_read { IfOk read.now (λ o. option_map asked_by o ≡ option_map asked_by result) }
    ensures refused { IfErr read.now (λ _. option_map asked_by result ≡ None) }
{
    match read {
        // Prover: a value with a lifetime is not copied from behind a reference (PROVER.md, "Workarounds").
        Ok(Some(request)) => Some(Request {
            task: request.task,
            pi: request.pi,
            rtplus: request.rtplus,
            lose: request.lose,
            dwell: request.dwell,
            file: request.file,
            quiet: request.quiet,
            json_notes: request.json_notes,
        }),
        Ok(None) | Err(_) => None,
    }
}

/// Reads the arguments by the command of `clap`.
fn parse<'a>(alloc: Global, words: &'a [&'a str]) -> Result<Option<Request<'a>>, Error>
    ensures ok { IfOk result (λ o. option_map asked_by o ≡ asked_in (map (λ w. w.now) words.entry.now)) }
    ensures err { IfErr result (λ e. TakesWords (map (λ w. w.now) words.entry.now)
        → kind_of e ≡ ErrorKind.OutOfMemory) }
    ensures kinds { FailsBy (fault_of whole_app (map (λ w. w.now) words.entry.now)) result }
    ensures taken { IfOk result (λ o. TakesWords (map (λ w. w.now) words.entry.now)) }
    ensures help { AskForHelp (map (λ w. w.now) words.entry.now)
        → IfErr result (λ e. (kind_of e ≡ ErrorKind.OutOfMemory) ⊎ (is_shown (kind_of e) ≡ true)) }
    ensures refused { AreRefused (map (λ w. w.now) words.entry.now)
        → IfErr result (λ e. (kind_of e ≡ ErrorKind.OutOfMemory) ⊎ (is_shown (kind_of e) ≡ false)) }
{
    let matches = match whole(alloc)?.try_get_matches_from(words) {
        Ok(matches) => matches,
        Err(error) => return Err(error),
    };
    let Some((name, inner)) = matches.subcommand() else {
        return Ok(None);
    };
    Ok(request_of(name, inner))
}

/// Reads a subcommand and its options.
#[tactic(auto, using(std::proofs::lemmas::Bool::Decides::nat_tests))]
fn request_of<'a>(name: &'a str, inner: &ArgMatches<'a>) -> Option<Request<'a>>
    ensures { option_map asked_by result ≡ asked_of (name.entry.now, rows_of (found_of inner.now)) }
{
    Some(Request {
        task: task_of(name, inner)?,
        pi: pi_of(name, inner)?,
        rtplus: rtplus_of(inner)?,
        lose: lose_of(inner),
        dwell: slots_of(inner, "m")?,
        file: file_of(inner),
        quiet: is_given(inner, "quiet"),
        json_notes: is_given(inner, "json-notes"),
    })
}

/// Reads the task of a subcommand.
fn task_of(name: &str, inner: &ArgMatches<'_>) -> Option<Task>
    ensures { result ≡ task_in name.now (rows_of (found_of inner.now)) }
{
    match name {
        "decode" => Some(Task::Decode {
            window: window_of(inner)?,
            says_why: is_given(inner, "why"),
            keep: keep_of(inner)?,
        }),
        "encode" => Some(Task::Encode(programme_of(inner)?, slots_of(inner, "k")?)),
        "sim" => {
            let window = window_of(inner)?;
            let keep = keep_of(inner)?;
            Some(Task::Simulate {
                programme: programme_of(inner)?,
                late: slots_of(inner, "k")?,
                window,
                flag_alone: is_given(inner, "flag-alone"),
                says_why: is_given(inner, "why"),
                keep,
            })
        }
        "audit" => Some(Task::Audit {
            late: slots_of(inner, "k")?,
            running: is_given(inner, "running"),
            padded: is_given(inner, "padded"),
            lists_all: is_given(inner, "all"),
        }),
        "witness" => Some(witness_of(inner)),
        "slots" => Some(Task::Slots(place_of(inner, "grain")?, has_value(inner, "pi"))),
        _ => None,
    }
}

/// Reads the argument of `--pi`. `slots` may have none.
fn pi_of<'a>(name: &str, inner: &ArgMatches<'a>) -> Option<&'a str>
    ensures { option_map (λ s. s.now) result ≡ pi_in name.now (rows_of (found_of inner.now)) }
{
    if let Some(pi) = inner.get_str("pi") {
        return Some(pi);
    }
    if name == "slots" { Some("0000") } else { None }
}

/// Reads the group type of the tags. `None` if the argument names none.
fn rtplus_of(inner: &ArgMatches<'_>) -> Option<TagGroup>
    ensures { result ≡ rtplus_in (rows_of (found_of inner.now)) }
{
    match inner.get_str("rtplus") {
        Some(name) => group_named(name),
        None => Some(TagGroup::usual()),
    }
}

/// Returns the group type of this name. `None` if the tags may not have it.
pub fn group_named(name: &str) -> Option<TagGroup>
    ensures { result ≡ group_named name.now }
{
    match name {
        "5A" => TagGroup::new(5),
        "6A" => TagGroup::new(6),
        "7A" => TagGroup::new(7),
        "8A" => TagGroup::new(8),
        "9A" => TagGroup::new(9),
        "11A" => TagGroup::new(11),
        "12A" => TagGroup::new(12),
        "13A" => TagGroup::new(13),
        _ => None,
    }
}

/// Reads the argument of `--lose`. Empty if there is none.
fn lose_of<'a>(inner: &ArgMatches<'a>) -> &'a str
    ensures { result.now ≡ lose_in (rows_of (found_of inner.now)) }
{
    match inner.get_str("lose") {
        Some(text) => text,
        None => "",
    }
}

/// Reads the file to read. `None` if it is standard input, which `-` names too.
fn file_of<'a>(inner: &ArgMatches<'a>) -> Option<&'a str>
    ensures { option_map (λ s. s.now) result ≡ file_in (rows_of (found_of inner.now)) }
{
    let file = inner.get_str("file")?;
    if file == "-" { None } else { Some(file) }
}

/// Reads the task of `witness`.
fn witness_of(inner: &ArgMatches<'_>) -> Task
    ensures { result ≡ witness_in (rows_of (found_of inner.now)) }
{
    let flag_alone = is_given(inner, "flag-alone");
    if has_value(inner, "lose") || flag_alone {
        Task::Lose { flag_alone }
    } else {
        Task::Witness
    }
}

/// Returns whether an option has a value.
fn has_value(inner: &ArgMatches<'_>, name: &str) -> bool
    ensures { result ≡ has_value name.now (rows_of (found_of inner.now)) }
{
    match inner.get_str(name) {
        Some(_) => true,
        None => false,
    }
}

/// Reads the window. `Some(None)` if none is given, and `None` if the number is out of its range.
fn window_of(inner: &ArgMatches<'_>) -> Option<Option<Window>>
    ensures { result ≡ window_in (rows_of (found_of inner.now)) }
{
    if !has_value(inner, "confirm") {
        return Some(None);
    }
    Some(Some(slots_of(inner, "confirm")?))
}

/// Reads for how many slots a display keeps a text and a name.
fn keep_of(inner: &ArgMatches<'_>) -> Option<u16>
    ensures { result ≡ keep_in (rows_of (found_of inner.now)) }
{
    let slots: Bounded<0, 65535> = slots_of(inner, "keep")?;
    Some(slots.get())
}

/// Reads the number of an option that has to be below `N`. `None` if it is not.
fn place_of<const N: u8>(inner: &ArgMatches<'_>, name: &str) -> Option<Place<N>>
    requires { 0 < N }
    ensures { result ≡ option_number 0 (N - 1) name.now (rows_of (found_of inner.now)) }
{
    Place::new(inner.get_one::<u8>(name)?)
}

/// Reads the number of slots of an option. `None` if it is out of its range.
fn slots_of<const LOW: u16, const HIGH: u16>(
    inner: &ArgMatches<'_>,
    name: &str,
) -> Option<Bounded<LOW, HIGH>>
    ensures { result ≡ option_number LOW HIGH name.now (rows_of (found_of inner.now)) }
{
    Bounded::new(inner.get_one::<u16>(name)?)
}

/// Reads the programme type and the traffic flag.
fn programme_of(inner: &ArgMatches<'_>) -> Option<Programme>
    ensures { result ≡ programme_in (rows_of (found_of inner.now)) }
{
    Some(Programme {
        pty: place_of(inner, "pty")?,
        tp: is_given(inner, "tp"),
    })
}

/// Returns whether a flag is given.
fn is_given(inner: &ArgMatches<'_>, name: &str) -> bool
    ensures { result ≡ flag_in name.now (rows_of (found_of inner.now)) }
{
    match inner.get_str(name) {
        Some(text) => text == "true",
        None => false,
    }
}
