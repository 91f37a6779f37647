//! The command line as a command of `clap`: commands, options and help texts.
ghost use Rattle.std.specs.Prelude.{◌≡◌, IfOk, codes, false};
ghost use Rattle.clap.specs.Words.{App, app_of, new_app, rule_of, with_rule, with_subcommand};
ghost use Rattle.clap.specs.declared.builder.command.Command.TheViews.{out-Command};
ghost use Rattle.rds_cli.specs.CommandLine.{audit_app, confirm_rule, decode_app, dwell_rule, file_rule, shown_app};
ghost use Rattle.rds_cli.specs.CommandLine.{all_rule, flag_alone_rule, flag_rule, grain_rule, judging_app, late_app};
ghost use Rattle.rds_cli.specs.CommandLine.{json_notes_rule, keep_rule, late_rule, log_app, number_rule, own_pi_rule};
ghost use Rattle.rds_cli.specs.CommandLine.{padded_rule, pi_rule, pty_rule, quiet_rule, running_rule};
ghost use Rattle.rds_cli.specs.CommandLine.{sim_app, slots_app, station_app, timed_app, top_app, tp_rule};
ghost use Rattle.rds_cli.specs.CommandLine.{lose_rule, rtplus_rule, whole_app, why_rule, witness_app};

use clap::builder::ValueParser;
use clap::{Arg, ArgAction, Command, value_parser};
use std::alloc::{AllocError, Global};

/// Makes the option `--pi`. `clap` accepts any text; `identification_of` checks the four digits.
fn pi<'a>(alloc: Global) -> Arg<'a>
    ensures rule { rule_of result ≡ pi_rule }
    ensures local { result.global ≡ false }
{
    Arg::new(alloc, "pi")
        .long("pi")
        .value_name("HHHH")
        .required(true)
        .help("PI code of the station: four hexadecimal digits, for example C201")
}

/// Makes the option `--pi` of `slots`, which takes the lines of all programmes without it.
fn own_pi<'a>(alloc: Global) -> Arg<'a>
    ensures rule { rule_of result ≡ own_pi_rule }
    ensures local { result.global ≡ false }
{
    Arg::new(alloc, "pi").long("pi").value_name("HHHH").help(
        "PI code: lines of other programmes are left out, their slots count as lost",
    )
}

/// Makes an option that takes a number.
fn number<'a>(
    alloc: Global,
    name: &'a str,
    parser: ValueParser<'a>,
    default: &'a str,
    help: &'a str,
) -> Arg<'a>
    ensures rule { rule_of result ≡ number_rule name.entry.now parser.entry default.entry.now }
    ensures local { result.global ≡ false }
{
    Arg::new(alloc, name)
        .long(name)
        .value_name("N")
        .value_parser(parser)
        .default_value(default)
        .help(help)
}

/// The dwell M of a command that is given none, in slots. include/rdsrt.h has it as `RDSRT_DEFAULT_DWELL`; a test
/// compares the other places with the help text.
const DEFAULT_DWELL: &str = "128";

/// Makes the option `-m`, `--m`.
fn dwell<'a>(alloc: Global) -> Arg<'a>
    ensures rule { rule_of result ≡ dwell_rule }
    ensures local { result.global ≡ false }
{
    let parser = value_parser!(u16).range(1..);
    number(
        alloc,
        "m",
        parser,
        DEFAULT_DWELL,
        "Dwell M in slots, 1 to 65535",
    )
    .short('m')
    .long_help(
        "Dwell M in slots, 1 to 65535. A slot is the time of one group, about 88 ms.\n\
             A receiver drops a text if no part of it arrived for M slots. The station needs\n\
             the same M or a larger one. Then lost groups make no mix of two texts.",
    )
}

/// Makes the option `--rtplus`. `clap` accepts any text; `rtplus_of` checks the group type.
fn rtplus<'a>(alloc: Global) -> Arg<'a>
    ensures rule { rule_of result ≡ rtplus_rule }
    ensures local { result.global ≡ false }
{
    Arg::new(alloc, "rtplus")
        .long("rtplus")
        .value_name("GROUP")
        .default_value("11A")
        .help("Group type of the RT+ tags, for example 12A")
        .long_help(
            "Group type of the RT+ tags: 5A, 6A, 7A, 8A, 9A, 11A, 12A or 13A. It is in the station's\n\
             groups 3A with the application 4BD7. Tags in another type are not looked at.",
        )
}

/// Makes the option `--confirm`, which has no default.
fn confirm<'a>(alloc: Global) -> Arg<'a>
    ensures rule { rule_of result ≡ confirm_rule }
    ensures local { result.global ≡ false }
{
    Arg::new(alloc, "confirm")
        .long("confirm")
        .value_name("W")
        .value_parser(value_parser!(u16).range(2..256))
        .help("Shows only what was received twice within W slots, 2 to 255")
        .long_help(
            "Shows only what was received twice within W slots, 2 to 255. Give it if the receiver\n\
             corrects bits, because then some of its groups are wrong. Correct at most 2 bits of\n\
             a block: with 5 bits it shows more wrong texts. W has to be longer than the station's\n\
             round, the time from a segment to the same one. The station has to space its texts\n\
             by M + K + W - 1 slots: one with an M of 128 serves -m 64 --confirm 65 if K is 0.",
        )
}

/// Makes the option `-k`, `--k`.
fn late<'a>(alloc: Global) -> Arg<'a>
    ensures rule { rule_of result ≡ late_rule }
    ensures local { result.global ≡ false }
{
    let parser = value_parser!(u16).range(0..1025);
    let help = "Lateness K in slots, 0 to 1024: how late a group may reach a receiver";
    number(alloc, "k", parser, "0", help).short('k').long_help(
        "Lateness K in slots, 0 to 1024: how late a group may reach a receiver, for example\n\
         through a buffer or a network. Late groups must stay in their order. The station\n\
         spaces its texts by M + K slots; a receiver needs M alone.",
    )
}

/// Makes the option `--grain`.
fn grain<'a>(alloc: Global) -> Arg<'a>
    ensures rule { rule_of result ≡ grain_rule }
    ensures local { result.global ≡ false }
{
    let parser = value_parser!(u8).range(0..88);
    let help = "By how many milliseconds the times may be off, 0 to 87";
    number(alloc, "grain", parser, "20", help)
}

/// Makes the option `--pty`.
fn pty<'a>(alloc: Global) -> Arg<'a>
    ensures rule { rule_of result ≡ pty_rule }
    ensures local { result.global ≡ false }
{
    let parser = value_parser!(u8).range(0..32);
    let help = "Programme type (PTY) in each group, 0 to 31; for example 10 is pop music";
    number(alloc, "pty", parser, "0", help)
}

/// Makes a flag.
fn flag<'a>(alloc: Global, name: &'a str, help: &'a str) -> Arg<'a>
    ensures rule { rule_of result ≡ flag_rule name.entry.now }
    ensures local { result.global ≡ false }
{
    Arg::new(alloc, name)
        .long(name)
        .action(ArgAction::SetTrue)
        .help(help)
}

/// Makes the flag `--tp`.
fn tp<'a>(alloc: Global) -> Arg<'a>
    ensures rule { rule_of result ≡ tp_rule }
    ensures local { result.global ≡ false }
{
    flag(
        alloc,
        "tp",
        "Sets the TP flag in each group: the programme carries traffic announcements",
    )
}

/// Makes the flag `--running`.
fn running<'a>(alloc: Global) -> Arg<'a>
    ensures rule { rule_of result ≡ running_rule }
    ensures local { result.global ≡ false }
{
    let help = "The station was on air before the log began, as in a recording";
    flag(alloc, "running", help).long_help(
        "The station was on air before the log began, as in a recording. The audit then\n\
         takes M + K lost slots before the first line. So the first text may have started\n\
         at any time, and RT+ tags before the first text segment are not judged.",
    )
}

/// Makes the flag `--padded`.
fn padded<'a>(alloc: Global) -> Arg<'a>
    ensures rule { rule_of result ≡ padded_rule }
    ensures local { result.global ≡ false }
{
    let help = "Bytes behind the carriage return of a text do not count";
    flag(alloc, "padded", help).long_help(
        "Bytes behind the carriage return of a text do not count: the rest of its segment and\n\
         all segments behind that one. Some encoders fill a text with them, and receivers show\n\
         nothing of them. They may be any bytes, and they may change.",
    )
}

/// Makes the flag `--all`.
fn all<'a>(alloc: Global) -> Arg<'a>
    ensures rule { rule_of result ≡ all_rule }
    ensures local { result.global ≡ false }
{
    flag(
        alloc,
        "all",
        "Prints each fault of the log, not the first one alone",
    )
    .long_help(
        "Prints each fault of the log, not the first one alone: a line `no SLOT NAME` for each,\n\
         as soon as its slot is read. Each text has each fault once, in the first slot in\n\
         which it breaks the rule. A text that changes without a flip of the flag counts as a\n\
         new text. Counts of the faults go to standard error.",
    )
}

/// Makes the flag `--flag-alone`.
fn flag_alone<'a>(alloc: Global) -> Arg<'a>
    ensures rule { rule_of result ≡ flag_alone_rule }
    ensures local { result.global ≡ false }
{
    let help = "The receivers follow the A/B flag alone, as radios without a dwell do";
    flag(alloc, "flag-alone", help).long_help(
        "The receivers follow the A/B flag alone, as radios without a dwell do: they drop a\n\
         text only after 65,535 slots without a part of it. The station keeps its M, and with\n\
         --confirm its spacing. The receivers have no window then, they may get wrong groups,\n\
         and --keep changes nothing. Prints too what is on air, as in `9 air text \"HI\"`. If\n\
         what a receiver shows was not on air in the last M + K slots, with --confirm in the\n\
         last M + K + W - 1, a line says which it is: `12 r0 text mix` if nobody sent it so\n\
         far, `old` if it was on air before, `replaced` if it is a tag that the station sent\n\
         for this text and has replaced since.",
    )
}

/// Makes the option `--lose`. `clap` accepts any text; the engine checks the spans.
fn lose<'a>(alloc: Global) -> Arg<'a>
    ensures rule { rule_of result ≡ lose_rule }
    ensures local { result.global ≡ false }
{
    let help = "Prints the mixes of a receiver that loses these slots, for example 3-7,12";
    Arg::new(alloc, "lose")
        .long("lose")
        .value_name("SPANS")
        .help(help)
        .long_help(
            "Prints the mixes of a receiver that loses these slots, for example 3-7,12: spans in\n\
             ascending order with a comma between them, each its first and its last slot or its\n\
             only one. Prints one line of `decode` for each mix, status 1.",
        )
}

/// Makes the flag `--flag-alone` of `witness`.
fn lossy_flag_alone<'a>(alloc: Global) -> Arg<'a>
    ensures rule { rule_of result ≡ flag_alone_rule }
    ensures local { result.global ≡ false }
{
    let help = "The receiver of --lose follows the A/B flag alone, as radios without a dwell do";
    flag(alloc, "flag-alone", help).long_help(
        "The receiver of --lose follows the A/B flag alone, as radios without a dwell do: it\n\
         drops a text only after 65,535 slots without a part of it. M is then only the number\n\
         of slots in which a receiver that loses nothing may still show the same.",
    )
}

/// Makes the flag `--why`.
fn why<'a>(alloc: Global) -> Arg<'a>
    ensures rule { rule_of result ≡ why_rule }
    ensures local { result.global ≡ false }
{
    let help = "Says why a text or a name is not shown any more";
    flag(alloc, "why", help).long_help(
        "Says why a text or a name is not shown any more, as in `9 text none dropped`:\n  \
           incomplete  segments of the next one came, or of the same one anew\n  \
           dropped     no segment came for M slots\n  \
           restarted   the receiver restarted (sim)",
    )
}

/// Makes the option `--keep`.
fn keep<'a>(alloc: Global) -> Arg<'a>
    ensures rule { rule_of result ≡ keep_rule }
    ensures local { result.global ≡ false }
{
    let parser = value_parser!(u16).range(0..65536);
    let help = "Keeps a text or a name on the display for N more slots, 0 to 65535";
    number(alloc, "keep", parser, "0", help).long_help(
        "Keeps a text or a name on the display for N more slots, 0 to 65535, after the receiver\n\
         dropped it. A text keeps its tags. It goes earlier if the receiver shows another one,\n\
         or if a segment with the other A/B flag comes. So a text may be old, but it is no mix:\n\
         it was on air in the last M + K + N slots. A minute has 685 slots.",
    )
}

/// Makes the flag `--quiet`. Help lists it after the other options.
fn quiet<'a>(alloc: Global) -> Arg<'a>
    ensures rule { rule_of result ≡ quiet_rule }
    ensures local { result.global ≡ false }
{
    let help = "Prints no warnings on standard error; faults are still printed";
    flag(alloc, "quiet", help).display_order(100)
}

/// Makes the argument for the file to read.
fn file<'a>(alloc: Global) -> Arg<'a>
    ensures rule { rule_of result ≡ file_rule }
    ensures local { result.global ≡ false }
{
    Arg::new(alloc, "file")
        .value_name("FILE")
        .help("File to read; without it, or with -, standard input")
}

/// Makes the flag `--json-notes`. Help lists it last.
fn json_notes<'a>(alloc: Global) -> Arg<'a>
    ensures rule { rule_of result ≡ json_notes_rule }
    ensures local { result.global ≡ false }
{
    let help = "Prints each note on standard error as a JSON object";
    flag(alloc, "json-notes", help).display_order(101).long_help(
        "Prints each note on standard error as one JSON object a line: its kind, its numbers and\n\
             its sentence (text)",
    )
}

/// The help texts of a subcommand.
#[derive(Clone, Copy)]
struct Page<'a> {
    /// One line: what the subcommand does.
    about: &'a str,
    /// The end of `--help`.
    ending: &'a str,
}

/// Makes a subcommand with its help texts.
fn bare<'a>(alloc: Global, name: &'a str, page: Page<'a>) -> Command<'a>
    ensures app { app_of result ≡ new_app name.entry.now }
    ensures local { (out-Command result).has_globals ≡ false }
{
    Command::new(alloc, name)
        .about(page.about)
        .after_long_help(page.ending)
}

/// Makes a subcommand that takes `--pi` and `--m`.
fn tuned<'a>(alloc: Global, name: &'a str, page: Page<'a>) -> Result<Command<'a>, AllocError>
    ensures app { IfOk result (λ c. app_of c ≡ with_rule (with_rule (new_app name.entry.now) pi_rule) dwell_rule) }
    ensures local { IfOk result (λ c. (out-Command c).has_globals ≡ false) }
{
    bare(alloc, name, page).arg(pi(alloc))?.arg(dwell(alloc))
}

/// Adds the options on notes.
// Prover: a search over three additions of arguments takes six times that over two.
fn noted<'a>(alloc: Global, command: Command<'a>) -> Result<Command<'a>, AllocError>
    requires { (out-Command command).has_globals ≡ false }
    ensures app { IfOk result (λ c. app_of c
        ≡ with_rule (with_rule (app_of command.entry) quiet_rule) json_notes_rule) }
    ensures local { IfOk result (λ c. (out-Command c).has_globals ≡ false) }
{
    command.arg(quiet(alloc))?.arg(json_notes(alloc))
}

/// Makes a subcommand that reads a log.
#[tactic(auto, unfolding(crate::specs::CommandLine::log_app))]
fn log_reader<'a>(alloc: Global, name: &'a str, page: Page<'a>) -> Result<Command<'a>, AllocError>
    ensures app { IfOk result (λ c. app_of c ≡ log_app name.entry.now) }
    ensures local { IfOk result (λ c. (out-Command c).has_globals ≡ false) }
{
    let reader = tuned(alloc, name, page)?
        .arg(rtplus(alloc))?
        .arg(file(alloc))?;
    noted(alloc, reader)
}

/// Makes the subcommand `decode`.
#[tactic(auto, unfolding(crate::specs::CommandLine::decode_app))]
fn decode<'a>(alloc: Global) -> Result<Command<'a>, AllocError>
    ensures app { IfOk result (λ c. app_of c ≡ decode_app (codes "decode")) }
    ensures local { IfOk result (λ c. (out-Command c).has_globals ≡ false) }
{
    let page = Page {
        about: "Reads a log of received groups and prints what a receiver shows",
        ending: "Prints one line for each change of the text, the name (PTYN) or the RT+ tags.\n\
                 A log has one line for each slot, lost slots too (---- ---- ---- ----).\n\n\
                 A receiver counts its own slots and needs M alone, so decode has no --k. K belongs\n\
                 to the station: encode, sim and audit have it.\n\n\
                 Example:\n  \
                   $ echo C201 2140 4849 0D20 | rdsrt decode --pi C201\n  \
                   0 text \"HI\"",
    };
    shown_reader(alloc, "decode", page)?.arg(keep(alloc))
}

/// Makes a subcommand that shows what a receiver of a log shows.
#[tactic(auto, unfolding(crate::specs::CommandLine::shown_app))]
fn shown_reader<'a>(alloc: Global, name: &'a str, page: Page<'a>) -> Result<Command<'a>, AllocError>
    ensures app { IfOk result (λ c. app_of c ≡ shown_app name.entry.now) }
    ensures local { IfOk result (λ c. (out-Command c).has_globals ≡ false) }
{
    log_reader(alloc, name, page)?
        .arg(confirm(alloc))?
        .arg(why(alloc))
}

/// Makes a subcommand that takes `--k`.
#[tactic(auto, unfolding(crate::specs::CommandLine::late_app))]
fn late_reader<'a>(alloc: Global, name: &'a str, page: Page<'a>) -> Result<Command<'a>, AllocError>
    ensures app { IfOk result (λ c. app_of c ≡ late_app name.entry.now) }
    ensures local { IfOk result (λ c. (out-Command c).has_globals ≡ false) }
{
    log_reader(alloc, name, page)?.arg(late(alloc))
}

/// Makes a subcommand that judges a log.
#[tactic(auto, unfolding(crate::specs::CommandLine::judging_app))]
fn judging_reader<'a>(
    alloc: Global,
    name: &'a str,
    page: Page<'a>,
) -> Result<Command<'a>, AllocError>
    ensures app { IfOk result (λ c. app_of c ≡ judging_app name.entry.now) }
    ensures local { IfOk result (λ c. (out-Command c).has_globals ≡ false) }
{
    late_reader(alloc, name, page)?
        .arg(running(alloc))?
        .arg(padded(alloc))
}

/// Makes the subcommand `audit`.
#[tactic(auto, unfolding(crate::specs::CommandLine::audit_app))]
fn audit<'a>(alloc: Global) -> Result<Command<'a>, AllocError>
    ensures app { IfOk result (λ c. app_of c ≡ audit_app (codes "audit")) }
    ensures local { IfOk result (λ c. (out-Command c).has_globals ≡ false) }
{
    let page = Page {
        about: "Reads a log of all groups that a station sent and says whether it keeps the rules",
        ending: "Prints `yes N` with the number of slots, status 0, or `no SLOT NAME` with the first\n\
                 slot that breaks a rule and the name of the fault, status 1.\n\n\
                 Yes: no receiver with this M shows a mix of two texts, whichever groups it loses,\n\
                 if it counts every slot and its groups come unchanged, in order and at most K slots\n\
                 late. A log without a group of this PI gets a yes too, and a warning.\n\
                 No: a rule was broken. A receiver may or may not show a mix; `witness` looks for\n\
                 one. A station that keeps the rules can get a no if it has few free slots.\n\n\
                 The log begins when the station starts. For a recording, give --running.\n\n\
                 Faults, each with its cure:\n  \
                   EarlyFlag   A text reused the A/B flag less than M + K slots after the last\n              \
                               group of the text before the previous one. Keep each text on\n              \
                               air for at least M + K slots, and flip the flag only for a new\n              \
                               text.\n  \
                   Changed     A text changed without a flip of the A/B flag. Flip the flag with\n              \
                               every change, even of one word.\n  \
                   NotOneText  The segments fit no text: a forbidden control character, a\n              \
                               character other than a space after the carriage return, or a\n              \
                               segment past it. Send printable characters, end the text with\n              \
                               one carriage return, fill its segment with spaces, and send no\n              \
                               segment past it.\n  \
                   EarlyTag    RT+ tags came before any text, or less than M + K slots after\n              \
                               their text started. Send the first tags M + K slots after the\n              \
                               start of their text.\n  \
                   TagOutside  An RT+ tag ends past the end of its text. Count the start from 0,\n              \
                               send the number of characters less one as the length, and set\n              \
                               the tags after their text.\n\
                 Names (PTYN) have the first three faults too.\n\n\
                 Example:\n  \
                   $ rdsrt audit --pi C201 --m 8 examples/flags.log\n  \
                   no 4 EarlyFlag",
    };
    judging_reader(alloc, "audit", page)?.arg(all(alloc))
}

/// Makes the subcommand `witness`.
#[tactic(auto, unfolding(crate::specs::CommandLine::witness_app))]
fn witness<'a>(alloc: Global) -> Result<Command<'a>, AllocError>
    ensures app { IfOk result (λ c. app_of c ≡ witness_app (codes "witness")) }
    ensures local { IfOk result (λ c. (out-Command c).has_globals ≡ false) }
{
    let page = Page {
        about: "Reads a log of all groups that a station sent and looks for lost slots that make a mix",
        ending: "Prints `lose A-B: ` and a line of `decode`, status 1: a receiver with this M that loses\n\
                 the slots A to B shows this text, name (PTYN) or tag in that slot. A receiver that\n\
                 loses nothing does not show it up to M - 1 slots after that slot.\n\n\
                 Prints `no witness found with one burst lost`, status 0, if no burst of lost slots\n\
                 makes a mix. The search leaves out tags that the station replaced for the same text.\n\
                 Two bursts may still make a mix. If the line ends with ` up to slot N`, the search\n\
                 stopped there, and no burst makes a mix before that slot.\n\n\
                 With --lose, prints the line of `decode` for each mix of a receiver that loses these\n\
                 slots, status 1, or `no mix with these slots lost`, status 0.\n\n\
                 Example:\n  \
                   $ rdsrt witness --pi C201 --m 8 examples/flags.log\n  \
                   lose 2-3: 4 text \"POP  FM\"\n  \
                   $ rdsrt witness --pi C201 --m 8 --lose 2-3 examples/flags.log\n  \
                   4 text \"POP  FM\"",
    };
    log_reader(alloc, "witness", page)?
        .arg(lose(alloc))?
        .arg(lossy_flag_alone(alloc))
}

/// Makes a subcommand that reads a log with times.
#[tactic(auto, unfolding(crate::specs::CommandLine::timed_app))]
fn timed_reader<'a>(alloc: Global, name: &'a str, page: Page<'a>) -> Result<Command<'a>, AllocError>
    ensures app { IfOk result (λ c. app_of c ≡ timed_app name.entry.now) }
    ensures local { IfOk result (λ c. (out-Command c).has_globals ≡ false) }
{
    bare(alloc, name, page).arg(own_pi(alloc))?.arg(file(alloc))
}

/// Makes the subcommand `slots`.
#[tactic(auto, unfolding(crate::specs::CommandLine::slots_app))]
fn slots<'a>(alloc: Global) -> Result<Command<'a>, AllocError>
    ensures app { IfOk result (λ c. app_of c ≡ slots_app (codes "slots")) }
    ensures local { IfOk result (λ c. (out-Command c).has_globals ≡ false) }
{
    let page = Page {
        about: "Reads a log of received groups with times and adds a line for each lost slot",
        ending: "Most receivers print only the groups that they received. The other commands need a\n\
                 line for each slot, so put this one before them. Give it their M.\n\n\
                 A time stands after the group: @2024/06/01 07:58:12.08, 2024-06-01T07:58:12.08Z,\n\
                 07:58:12.08, seconds such as 12.5, or 13 digits of milliseconds. A group without a time\n\
                 is left out. A line with a time and a lost block says that no group came until then. If\n\
                 a group's time is earlier than that of the group before it, or more than an hour later,\n\
                 a comment and at least M lost slots are added, and the status is 1: do not audit this\n\
                 output. A time without a date goes back at midnight.\n\n\
                 No slot is missing if the delay of the groups varies by less than a slot (87.5 ms)\n\
                 less the grain. None is added in vain if it varies by at most the grain. If more are\n\
                 counted than a station sends in that time, the times are too coarse: status 1.\n\n\
                 Example:\n  \
                   $ rdsrt slots spy.log | rdsrt decode --pi C201",
    };
    let reader = timed_reader(alloc, "slots", page)?
        .arg(grain(alloc))?
        .arg(dwell(alloc))?;
    noted(alloc, reader)
}

/// Makes a subcommand that has a station of its own.
#[tactic(auto, unfolding(crate::specs::CommandLine::station_app))]
fn station<'a>(alloc: Global, name: &'a str, page: Page<'a>) -> Result<Command<'a>, AllocError>
    ensures app { IfOk result (λ c. app_of c ≡ station_app name.entry.now) }
    ensures local { IfOk result (λ c. (out-Command c).has_globals ≡ false) }
{
    late_reader(alloc, name, page)?
        .arg(pty(alloc))?
        .arg(tp(alloc))
}

/// Makes the subcommand `encode`.
fn encode<'a>(alloc: Global) -> Result<Command<'a>, AllocError>
    ensures app { IfOk result (λ c. app_of c ≡ station_app (codes "encode")) }
    ensures local { IfOk result (λ c. (out-Command c).has_globals ≡ false) }
{
    let page = Page {
        about: "Reads a script and prints the log of the groups that a station sends",
        ending: "A row of the script is one slot: COMMAND,ARGUMENT,FREE,RECEPTIONS. The last field is\n\
                 empty here, for example text,HI,1, or -,,1, if nothing is set. Replies to commands\n\
                 are comments in the log. The station is silent in the first M + K rows. At the\n\
                 default M of 128, put 128 rows such as -,,1, before the first text.\n\n\
                 Example:\n  \
                   $ printf -- '-,,1,\\ntext,HI,1,\\n' | rdsrt encode --pi C201 --m 1\n  \
                   ---- ---- ---- ----\n  \
                   # 1 text ok\n  \
                   C201 2000 4849 0D20",
    };
    station(alloc, "encode", page)
}

/// Makes the subcommand `sim`.
#[tactic(auto, unfolding(crate::specs::CommandLine::sim_app))]
fn simulate<'a>(alloc: Global) -> Result<Command<'a>, AllocError>
    ensures app { IfOk result (λ c. app_of c ≡ sim_app (codes "sim")) }
    ensures local { IfOk result (λ c. (out-Command c).has_globals ≡ false) }
{
    let page = Page {
        about: "Reads a script and prints what a station sends and what up to eight receivers show",
        ending: "A row of the script is one slot: COMMAND,ARGUMENT,FREE,RECEPTIONS, for example\n\
                 text,HI,1,GGL. RECEPTIONS has a letter for each receiver: G gets the group of this\n\
                 slot, G3 gets the group sent 3 slots before, L loses it, R restarts. With --confirm,\n\
                 W214048490D20 gets a wrong group: W and its blocks 2 to 4. The station is silent in\n\
                 the first M + K rows, with --confirm in M + K + W - 1. At the default M of 128, put\n\
                 128 rows such as -,,1,GGL before the first text.\n\n\
                 Example:\n  \
                   $ printf -- '-,,1,G\\ntext,HI,1,G\\n' | rdsrt sim --pi C201 --m 1\n  \
                   1 text ok\n  \
                   1 sent C201 2000 4849 0D20\n  \
                   1 r0 text \"HI\"",
    };
    let station = station(alloc, "sim", page)?.arg(confirm(alloc))?;
    shown(alloc, station)?.arg(keep(alloc))
}

/// Adds the options on what receivers show.
fn shown<'a>(alloc: Global, command: Command<'a>) -> Result<Command<'a>, AllocError>
    requires { (out-Command command).has_globals ≡ false }
    ensures app { IfOk result (λ c. app_of c
        ≡ with_rule (with_rule (app_of command.entry) flag_alone_rule) why_rule) }
    ensures local { IfOk result (λ c. (out-Command c).has_globals ≡ false) }
{
    command.arg(flag_alone(alloc))?.arg(why(alloc))
}

/// Makes the command `rdsrt` with its version and text.
fn top<'a>(alloc: Global) -> Command<'a>
    ensures { app_of result ≡ top_app }
{
    Command::new(alloc, "rdsrt")
        .version("0.2.0")
        .about(
            "Checks RDS encoders, and sends and receives RadioText so that lost groups mix no texts\n\
             Each command reads a file or standard input and writes standard output.\n\
             Beside RadioText it handles the programme type name (PTYN, group 10A), here called\n\
             name, and RT+ tags. It does not handle the station name (PS).",
        )
        .after_help(
            "Example:\n  \
               $ echo C201 2140 4849 0D20 | rdsrt decode --pi C201\n  \
               0 text \"HI\"\n\n\
             `man rdsrt` has the formats of logs, scripts and output.",
        )
        .subcommand_required(true)
}

/// Adds a subcommand to a command.
fn with<'a>(
    command: Command<'a>,
    subcommand: Result<Command<'a>, AllocError>,
) -> Result<Command<'a>, AllocError>
    ensures { (app : App) → IfOk subcommand.entry (λ s. app_of s ≡ app)
        → IfOk subcommand.entry (λ s. (out-Command s).has_globals ≡ false)
        → IfOk result (λ c. app_of c ≡ with_subcommand (app_of command.entry) app.top) }
{
    command.subcommand(subcommand?)
}

/// Makes the whole command line.
#[tactic(auto, unfolding(crate::specs::CommandLine::log_readers_app))]
pub fn whole<'a>(alloc: Global) -> Result<Command<'a>, AllocError>
    ensures app { IfOk result (λ c. app_of c ≡ whole_app) }
{
    let with_decode = with(top(alloc), decode(alloc))?;
    let with_audit = with(with_decode, audit(alloc))?;
    let with_witness = with(with_audit, witness(alloc))?;
    let with_slots = with(with_witness, slots(alloc))?;
    let with_encode = with(with_slots, encode(alloc))?;
    with(with_encode, simulate(alloc))
}
