//! The lines of a command's reply and of the group that was sent.
ghost use Rattle.std.specs.Prelude.{◌≡◌, ◌≢◌, ◌≤◌, ◌+◌, ◌++◌, Option, decimal, length};
ghost use Rattle.rds_block.specs.declared.group.Group.{Group};
ghost use Rattle.rds_world.specs.declared.reply.Reply.TheVariants as replies;
ghost use Rattle.rds_script.specs.Outcomes.{answer_lines, block_digits, log_line, refusal_content, reply_content};
ghost use Rattle.rds_script.specs.Outcomes.{reply_line, reply_thing, sent_line, spaced_digits, thing_set};
ghost use Rattle.rds_script.specs.declared.answer_lines.TheConstants.{ANSWER_ROOM, GROUP_ROOM, REPLY_ROOM};

use crate::form::Form;
use rds_block::Group;
use rds_encoder::Refusal;
use rds_fields::Which;
use rds_io::{Lines, digits_of_four};
use rds_view_lines::Prefix;
use rds_world::{Answer, Command, Reply};

/// The most bytes of the line of a reply.
const REPLY_ROOM: usize = 96;

/// The most bytes of the line of a group.
const GROUP_ROOM: usize = 96;

/// The most bytes of both lines.
pub(crate) const ANSWER_ROOM: usize = REPLY_ROOM + GROUP_ROOM;

/// Appends the line of the reply, if there was a command, and then the line of the group.
#[tactic(auto, using(std::proofs::lemmas::Grind::common_steps))]
pub(crate) fn push_answer<const N: usize>(
    form: &Form,
    slot: u64,
    command: &Command,
    answer: Answer,
    lines: &mut Lines<N>,
)
    requires { length lines.old + ANSWER_ROOM ≤ N }
    ensures lines { lines.new
        ≡ lines.old ++ answer_lines form.now slot command.now answer.reply answer.sent }
    ensures room { length lines.new ≤ length lines.old + ANSWER_ROOM }
{
    match *form {
        Form::Simulation { rtplus, .. } => {
            push_reply(b"", slot, command, answer.reply, lines);
            push_sent(slot, rtplus.exchange_sent(answer.sent), lines);
        }
        Form::Log { rtplus } => {
            push_reply(b"# ", slot, command, answer.reply, lines);
            push_log_line(rtplus.exchange_sent(answer.sent), lines);
        }
    }
}

/// Appends a mark and the line of the reply, if there was a command.
#[inline(always)]
fn push_reply<const N: usize>(
    mark: &[u8],
    slot: u64,
    command: &Command,
    reply: Reply,
    lines: &mut Lines<N>,
)
    requires mark { length mark.now ≤ 2 }
    requires room { length lines.old + REPLY_ROOM ≤ N }
    ensures line { lines.new ≡ lines.old ++ reply_line mark.now slot command.now reply }
    ensures room { length lines.new ≤ length lines.old + REPLY_ROOM }
{
    if reply != Reply::Quiet {
        push_reply_line(mark, slot, command, reply, lines);
    }
}

/// Appends a mark and the line of the reply to a command.
fn push_reply_line<const N: usize>(
    mark: &[u8],
    slot: u64,
    command: &Command,
    reply: Reply,
    lines: &mut Lines<N>,
)
    requires told { reply ≢ replies.Quiet }
    requires mark { length mark.now ≤ 2 }
    requires room { length lines.old + REPLY_ROOM ≤ N }
    ensures line { lines.new ≡ lines.old ++ reply_line mark.now slot command.now reply }
    ensures room { length lines.new ≤ length lines.old + REPLY_ROOM }
{
    lines.push(mark);
    Prefix::Slot(slot).push(lines);
    lines.push(reply_thing(command, reply));
    push_content(reply, lines);
    lines.push(b"\n");
}

/// Returns the word for what the command sets.
fn reply_thing(command: &Command, reply: Reply) -> &'static [u8]
    ensures thing { result.now ≡ reply_thing command.now reply }
    ensures short { length result.now ≤ 7 }
{
    match reply {
        Reply::Quiet => b"",
        Reply::Restarted => b"restart",
        Reply::Done | Reply::Refused(_) => thing_set(command),
    }
}

/// Returns the thing that the command sets.
fn thing_set(command: &Command) -> &'static [u8]
    ensures thing { result.now ≡ thing_set command.now }
    ensures short { length result.now ≤ 4 }
{
    match command {
        Command::Quiet | Command::Restart => b"",
        Command::SetText(_) => b"text",
        Command::SetName(_) => b"name",
        Command::SetTags(_) => b"tags",
    }
}

/// Appends the content of the reply.
fn push_content<const N: usize>(reply: Reply, lines: &mut Lines<N>)
    requires { length lines.old + 28 ≤ N }
    ensures content { lines.new ≡ lines.old ++ reply_content reply }
    ensures room { length lines.new ≤ length lines.old + 28 }
{
    match reply {
        Reply::Quiet | Reply::Restarted => {}
        Reply::Done => lines.push(b" ok"),
        Reply::Refused(refusal) => push_refusal(refusal, lines),
    }
}

fn push_refusal<const N: usize>(refusal: Refusal, lines: &mut Lines<N>)
    requires { length lines.old + 28 ≤ N }
    ensures content { lines.new ≡ lines.old ++ refusal_content refusal }
    ensures room { length lines.new ≤ length lines.old + 28 }
{
    match refusal {
        Refusal::Silent(slots) => push_slots(b" silent ", slots, lines),
        Refusal::Held(slots) => push_slots(b" held ", slots, lines),
        Refusal::NoText => lines.push(b" notext"),
        Refusal::OutOfText(Which::One) => lines.push(b" outoftext 1"),
        Refusal::OutOfText(Which::Two) => lines.push(b" outoftext 2"),
    }
}

/// Appends a word and the number of slots of a refusal.
fn push_slots<const N: usize>(word: &[u8], slots: u32, lines: &mut Lines<N>)
    requires word { length word.now ≤ 8 }
    requires room { length lines.old + 28 ≤ N }
    ensures slots { lines.new ≡ lines.old ++ word.now ++ decimal slots }
    ensures room { length lines.new ≤ length lines.old + 28 }
{
    lines.push(word);
    lines.push_number(u64::from(slots));
}

/// Appends the line of the group, if one was sent.
fn push_sent<const N: usize>(slot: u64, sent: Option<Group>, lines: &mut Lines<N>)
    requires { length lines.old + GROUP_ROOM ≤ N }
    ensures line { lines.new ≡ lines.old ++ sent_line slot sent }
    ensures room { length lines.new ≤ length lines.old + GROUP_ROOM }
{
    if let Some(group) = sent {
        Prefix::Slot(slot).push(lines);
        lines.push(b"sent ");
        push_blocks(&group, lines);
        lines.push(b"\n");
    }
}

/// Appends the slot as a line of a log.
fn push_log_line<const N: usize>(sent: Option<Group>, lines: &mut Lines<N>)
    requires { length lines.old + GROUP_ROOM ≤ N }
    ensures line { lines.new ≡ lines.old ++ log_line sent }
    ensures room { length lines.new ≤ length lines.old + GROUP_ROOM }
{
    match sent {
        Some(group) => push_blocks(&group, lines),
        None => lines.push(b"---- ---- ---- ----"),
    }
    lines.push(b"\n");
}

/// Appends the four blocks of a group.
fn push_blocks<const N: usize>(group: &Group, lines: &mut Lines<N>)
    requires { length lines.old + 19 ≤ N }
    ensures blocks { lines.new ≡ lines.old ++ block_digits group.now }
    ensures room { length lines.new ≡ length lines.old + 19 }
{
    let d = digits_of_four(group.to_blocks());
    lines.push(&[
        d[0], d[1], d[2], d[3], b' ', d[4], d[5], d[6], d[7], b' ', d[8], d[9], d[10], d[11], b' ',
        d[12], d[13], d[14], d[15],
    ]);
}
