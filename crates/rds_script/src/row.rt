//! The event of a row.
ghost use Rattle.std.specs.Prelude.{◌≡◌, ◌≢◌, ◌<◌, ◌≤◌, [], ◌∷◌};
ghost use Rattle.std.specs.Prelude.{ℕ, Bool, List, IfNone, IfOk, IfSome, IsUtf8, OnErr, OnOk, length, slice_index};
ghost use Rattle.std.specs.Char.{IsAsciiHexdigit, IsNotAsciiHexdigit};
ghost use Rattle.std.specs.Int.{from_bool};
ghost use Rattle.csv.specs.Records.{fields_of};
ghost use Rattle.rds_charset.specs.ReadAs.{IsReadAs};
ghost use Rattle.rds_fields.specs.Tag.{IsPair, PairFields};
ghost use Rattle.rds_fields.specs.declared.message.Message.{Message};
ghost use Rattle.rds_assembly.specs.Value.{IsText};
ghost use Rattle.rds_world.specs.Event.{Event};
ghost use Rattle.rds_world.specs.declared.event.Command.{Command};
ghost use Rattle.rds_world.specs.declared.event.Command.TheVariants as commands;
ghost use Rattle.rds_world.specs.declared.event.Reception.{Reception};
ghost use Rattle.rds_world.specs.declared.event.TheConstants.{MOST_RECEIVERS};
ghost use Rattle.rds_script.specs.declared.row.Verb.{Verb};
ghost use Rattle.rds_script.specs.Verbs.{verb_word};
ghost use Rattle.rds_script.specs.Receptions.{AreReceptions, HasDigits, IsDigitCut, IsLateness, IsWrongGroup, letter};
ghost use Rattle.rds_script.specs.Rows.{AreNumbers, HasNoSpace, IsCut, IsNameArgument, IsNumber};
ghost use Rattle.rds_script.specs.Rows.{SaysCommand, SaysEvent, free_field, numbers_of_pair, numbers_of_tag};

use crate::causes::{name_cause, number_cause, pair_cause, reception_cause, text_cause};
use crate::row_cause::{ArgumentCause, ReceptionsCause, RowCause};
use arrayvec::ArrayVec;
use csv::ByteRecord;
use rds_assembly::{LONGEST_TEXT, Name, Text};
use rds_block::Blocks;
use rds_charset::{read_text, text_is_read_one_way};
use rds_fields::{Message, Tag, TagPair};
use rds_io::word_at;
use rds_world::{Command, MOST_RECEIVERS, Reception, SlotEvent};

/// The command of a row, without its argument.
#[derive(Clone, Copy)]
pub(crate) enum Verb {
    Nothing,
    Restart,
    Text,
    Name,
    Tags,
}

/// Why a record is not played.
#[derive(Clone, Copy)]
pub(crate) enum RowRefused {
    /// It is not a row, for this cause.
    NoRow(RowCause),
    /// There is no memory for the world, or for what was on air.
    Memory,
}

/// Reads a record into an empty event, without a copy.
///
/// # Errors
///
/// The first cause, in the order of the fields, if the record says no event. The event may then hold a part of it.
pub(crate) fn read_event(row: &ByteRecord, event: &mut SlotEvent) -> Result<(), RowCause>
    requires quiet { event.old.command ≡ commands.Quiet }
    requires empty { event.old.receptions ≡ [] }
    ensures says { OnOk result (SaysEvent (fields_of row.now) event.new) }
    ensures none { OnErr result ((e : Event) → length e.receptions ≤ MOST_RECEIVERS
        → SaysEvent (fields_of row.now) e → ⊥) }
{
    let Some(fields) = four_fields(row) else {
        return Err(RowCause::Fields(row.len()));
    };
    read_command(fields.word, fields.argument, &mut event.command)?;
    let Some(free) = free_of(fields.free) else {
        return Err(RowCause::Free);
    };
    event.free = free;
    read_receptions(fields.receptions, &mut event.receptions)
}

/// The four fields of a row.
#[derive(Clone, Copy)]
struct Fields<'a> {
    word: &'a [u8],
    argument: &'a [u8],
    free: &'a [u8],
    receptions: &'a [u8],
}

/// Returns the fields of a record. `None` if they are not four.
#[tactic(auto, using(crate::proofs::Commands::no_field, crate::proofs::Commands::four))]
fn four_fields(row: &ByteRecord) -> Option<Fields<'_>>
    ensures some { IfSome result (λ fields. fields_of row.now ≡ fields.word.now
        ∷ fields.argument.now ∷ fields.free.now ∷ fields.receptions.now ∷ []) }
    ensures none { IfNone result (length (fields_of row.now) ≢ 4) }
{
    if row.len() != 4 {
        return None;
    }
    Some(Fields {
        word: row.get(0)?,
        argument: row.get(1)?,
        free: row.get(2)?,
        receptions: row.get(3)?,
    })
}

/// Reads the command of a word and its argument, if there is one. Most rows have none, and pay for none.
#[inline(always)]
fn read_command(word: &[u8], argument: &[u8], command: &mut Command) -> Result<(), RowCause>
    requires { command.old ≡ commands.Quiet }
    ensures text { OnOk result (IsUtf8 argument.now) }
    ensures says { OnOk result (SaysCommand word.now argument.now command.new) }
    ensures none { OnErr result ((other : Command) → IsUtf8 argument.now
        → SaysCommand word.now argument.now other → ⊥) }
{
    if word == b"-".as_slice() && argument.is_empty() {
        return Ok(());
    }
    read_any_command(word, argument, command)
}

/// Reads any command of a word and its argument.
// Cold path.
#[inline(never)]
fn read_any_command(word: &[u8], argument: &[u8], command: &mut Command) -> Result<(), RowCause>
    ensures text { OnOk result (IsUtf8 argument.now) }
    ensures says { OnOk result (SaysCommand word.now argument.now command.new) }
    ensures none { OnErr result ((other : Command) → IsUtf8 argument.now
        → SaysCommand word.now argument.now other → ⊥) }
{
    *command = command_of(word, argument)?;
    Ok(())
}

/// Returns the command of a word and its argument.
fn command_of(word: &[u8], argument: &[u8]) -> Result<Command, RowCause>
    ensures text { OnOk result (IsUtf8 argument.now) }
    ensures says { IfOk result (SaysCommand word.now argument.now) }
    ensures none { OnErr result ((command : Command) → IsUtf8 argument.now
        → SaysCommand word.now argument.now command → ⊥) }
{
    let Some(verb) = verb_of(word) else {
        return Err(RowCause::UnknownCommand);
    };
    match verb {
        Verb::Nothing if argument.is_empty() => Ok(Command::Quiet),
        Verb::Restart if argument.is_empty() => Ok(Command::Restart),
        Verb::Nothing | Verb::Restart => Err(RowCause::Argument(ArgumentCause::NotEmpty)),
        Verb::Text => Ok(Command::SetText(text_of(characters(argument)?)?)),
        Verb::Name => Ok(Command::SetName(name_of(characters(argument)?)?)),
        Verb::Tags => Ok(Command::SetTags(pair_of(characters(argument)?)?)),
    }
}

/// Returns the characters of an argument.
fn characters(argument: &[u8]) -> Result<&str, RowCause>
    ensures ok { IfOk result (λ text. (text.now ≡ argument.now) × IsUtf8 argument.now) }
    ensures none { OnErr result (IsUtf8 argument.now → ⊥) }
{
    str::from_utf8(argument).ok().ok_or(RowCause::NotUtf8)
}

/// Returns the verb of a word.
fn verb_of(word: &[u8]) -> Option<Verb>
    ensures some { IfSome result (λ verb. word.now ≡ verb_word verb) }
    ensures none { IfNone result ((verb : Verb) → word.now ≡ verb_word verb → ⊥) }
{
    match word {
        b"-" => Some(Verb::Nothing),
        b"restart" => Some(Verb::Restart),
        b"text" => Some(Verb::Text),
        b"name" => Some(Verb::Name),
        b"tags" => Some(Verb::Tags),
        _ => None,
    }
}

/// Reads a text in its printed form.
fn text_of(argument: &str) -> Result<Text, RowCause>
    ensures ok { IfOk result (λ x. IsReadAs argument.now x × IsText x) }
    ensures none { OnErr result ((x : List ℕ) → IsReadAs argument.now x → IsText x → ⊥) }
{
    // No other text has this printed form: this law is used below.
    text_is_read_one_way();
    let mut bytes = [0; LONGEST_TEXT];
    let Ok(count) = read_text(argument, &mut bytes) else {
        return Err(text_cause(argument, &[], None));
    };
    match Text::new(&bytes[..count]) {
        Ok(text) => Ok(text),
        Err(why) => Err(text_cause(argument, &bytes, Some(why))),
    }
}

/// Reads a name in its printed form.
fn name_of(argument: &str) -> Result<Name, RowCause>
    ensures ok { IfOk result (IsNameArgument argument.now) }
    ensures none { OnErr result ((x : List ℕ) → IsNameArgument argument.now x → ⊥) }
{
    // No other name has this printed form: this law is used below.
    text_is_read_one_way();
    let mut bytes = [0; LONGEST_TEXT];
    let Ok(count) = read_text(argument, &mut bytes) else {
        return Err(name_cause(argument, &[], None));
    };
    match Name::new(&bytes[..count]) {
        Ok(name) => Ok(name),
        Err(why) => Err(name_cause(argument, &bytes, Some(why))),
    }
}

/// Reads a pair of tags from eight numbers.
#[tactic(auto, using(crate::proofs::Numbers::no_other_length, crate::proofs::Numbers::same_numbers))]
fn pair_of(argument: &str) -> Result<TagPair, RowCause>
    ensures ok { IfOk result
        (λ pair. AreNumbers argument.now (numbers_of_pair pair) × IsPair pair) }
    ensures none { OnErr result ((pair : PairFields)
        → AreNumbers argument.now (numbers_of_pair pair) → IsPair pair → ⊥) }
{
    let Ok(numbers) = numbers_of(argument)?.into_inner() else {
        return Err(number_cause(argument, 0));
    };
    match pair_of_numbers(numbers) {
        Some(pair) => Ok(pair),
        None => Err(pair_cause(numbers)),
    }
}

/// Makes a pair of tags from numbers: toggle bit and running bit, then content type, start and length marker of each
/// tag.
fn pair_of_numbers(numbers: [u8; 8]) -> Option<TagPair>
    ensures some { IfSome result (λ pair. (numbers ≡ numbers_of_pair pair) × IsPair pair) }
    ensures none { IfNone result ((pair : PairFields) → numbers ≡ numbers_of_pair pair
        → IsPair pair → ⊥) }
{
    let [
        toggle,
        running,
        class,
        start,
        extra,
        other_class,
        other_start,
        other_extra,
    ] = numbers;
    let one = Tag::new(class, start, extra).ok()?;
    let two = Tag::new(other_class, other_start, other_extra).ok()?;
    TagPair::new(bit_of(toggle)?, bit_of(running)?, one, two).ok()
}

/// Reads a bit, 0 or 1.
fn bit_of(number: u8) -> Option<bool>
    ensures some { IfSome result (λ bit. number ≡ from_bool bit) }
    ensures none { IfNone result ((bit : Bool) → number ≡ from_bool bit → ⊥) }
{
    match number {
        0 => Some(false),
        1 => Some(true),
        _ => None,
    }
}

/// Reads the numbers of a text, at most eight.
#[tactic(auto, using(crate::proofs::Numbers::reading_numbers))]
fn numbers_of(text: &str) -> Result<ArrayVec<u8, 8>, RowCause>
    ensures ok { IfOk result (λ numbers. AreNumbers text.now numbers.items) }
    ensures none { OnErr result ((numbers : List ℕ) → length numbers ≤ 8
        → AreNumbers text.now numbers → ⊥) }
{
    let mut numbers = ArrayVec::new();
    let mut rest = text;
    while let Some((first, after)) = cut_at_space(rest) {
        let Some(number) = number_of(first) else {
            return Err(number_cause(text, numbers.len()));
        };
        let Ok(()) = numbers.try_push(number) else {
            return Err(number_cause(text, 8));
        };
        rest = after;
    }
    let Some(number) = number_of(rest) else {
        return Err(number_cause(text, numbers.len()));
    };
    let Ok(()) = numbers.try_push(number) else {
        return Err(number_cause(text, 8));
    };
    Ok(numbers)
}

/// Splits a text at its first space.
fn cut_at_space(text: &str) -> Option<(&str, &str)>
    ensures some { IfSome result (λ cut. IsCut text.now cut.0.now cut.1.now) }
    ensures none { IfNone result (HasNoSpace text.now) }
{
    text.split_once(' ')
}

/// Reads a number up to 255 of one to three decimal digits.
fn number_of(text: &str) -> Option<u8>
    ensures some { IfSome result (IsNumber text.now) }
    ensures none { IfNone result ((n : ℕ) → IsNumber text.now n → ⊥) }
{
    if text.len() > 3 || text.starts_with('+') {
        return None;
    }
    text.parse().ok()
}

/// Reads whether the slot is free.
fn free_of(field: &[u8]) -> Option<bool>
    ensures some { IfSome result (λ free. field.now ≡ free_field free) }
    ensures none { IfNone result ((free : Bool) → field.now ≡ free_field free → ⊥) }
{
    match field {
        b"0" => Some(false),
        b"1" => Some(true),
        _ => None,
    }
}

/// Reads the reception of each receiver into an empty list.
fn read_receptions(
    field: &[u8],
    receptions: &mut ArrayVec<Reception, MOST_RECEIVERS>,
) -> Result<(), RowCause>
    requires { receptions.old.items ≡ [] }
    ensures are { OnOk result (AreReceptions field.now receptions.new.items) }
    ensures none { OnErr result ((others : List Reception) → length others ≤ MOST_RECEIVERS
        → AreReceptions field.now others → ⊥) }
{
    // Prover: a variable of the type in `Reception::Wrong`, for the borrow checker (PROVER.md, "Workarounds").
    let _message: Option<Message> = None;
    let mut rest = field;
    while let Some((letter, after)) = rest.split_first() {
        if receptions.len() == MOST_RECEIVERS {
            return Err(RowCause::Receptions(ReceptionsCause::TooManyReceivers));
        }
        if let Some(reception) = plain_reception(*letter, after) {
            receptions.push(reception);
            rest = after;
            continue;
        }
        let Some((reception, others)) = next_reception(*letter, after) else {
            let place = field.len().saturating_sub(after.len());
            return Err(reception_cause(*letter, place));
        };
        receptions.push(reception);
        rest = others;
    }
    Ok(())
}

/// Returns the reception of a letter that no digit follows, as most are. `None` for others.
#[inline(always)]
fn plain_reception(byte: u8, after: &[u8]) -> Option<Reception>
    ensures { IfSome result (λ reception. IsDigitCut after.now [] after.now
        × (byte ≡ letter reception) × HasDigits reception []) }
{
    match after.first() {
        None | Some(b'G'..=b'Z') => letter_alone(byte),
        Some(_) => None,
    }
}

/// Returns the reception of a letter and the digits after it, and what comes after them.
#[inline(always)]
fn next_reception(byte: u8, after: &[u8]) -> Option<(Reception, &[u8])>
    ensures some { IfSome result (λ next. (digits : List ℕ) × IsDigitCut after.now digits next.1.now
        × (byte ≡ letter next.0) × HasDigits next.0 digits) }
    ensures none { IfNone result ((digits rest : List ℕ) → IsDigitCut after.now digits rest
        → (reception : Reception) → byte ≡ letter reception → HasDigits reception digits → ⊥) }
{
    let (digits, rest) = after.split_at(digits_in_front(after));
    Some((reception_of(byte, digits)?, rest))
}

/// Returns how many hexadecimal digits the text begins with.
#[inline(always)]
fn digits_in_front(text: &[u8]) -> usize
    ensures within { result ≤ length text.now }
    ensures digits { (k : ℕ) → k < result → IsAsciiHexdigit (slice_index text.now k) }
    ensures ends { result < length text.now → IsNotAsciiHexdigit (slice_index text.now result) }
{
    text.iter()
        .position(|byte| !byte.is_ascii_hexdigit())
        .unwrap_or(text.len())
}

/// Returns the reception of a letter and the digits after it.
#[inline(always)]
fn reception_of(byte: u8, digits: &[u8]) -> Option<Reception>
    ensures some { IfSome result (λ reception. (byte ≡ letter reception)
        × HasDigits reception digits.now) }
    ensures none { IfNone result ((reception : Reception) → byte ≡ letter reception
        → HasDigits reception digits.now → ⊥) }
{
    if digits.is_empty() {
        return letter_alone(byte);
    }
    match byte {
        b'G' => Some(Reception::Got(lateness_of(digits)?)),
        b'W' => Some(Reception::Wrong(wrong_message(digits)?)),
        _ => None,
    }
}

/// Returns the reception of a letter without digits.
#[inline(always)]
fn letter_alone(byte: u8) -> Option<Reception>
    ensures some { IfSome result (λ reception. (byte ≡ letter reception) × HasDigits reception []) }
    ensures none { IfNone result ((reception : Reception) → byte ≡ letter reception
        → HasDigits reception [] → ⊥) }
{
    match byte {
        b'G' => Some(Reception::Got(0)),
        b'L' => Some(Reception::Lost),
        b'R' => Some(Reception::Restart),
        _ => None,
    }
}

/// Reads blocks 2 to 4 of a wrong group. Returns the message that the group spells.
// Cold path.
#[inline(never)]
fn wrong_message(digits: &[u8]) -> Option<Message>
    ensures some { IfSome result (IsWrongGroup digits.now) }
    ensures none { IfNone result ((message : Message) → IsWrongGroup digits.now message → ⊥) }
{
    if digits.len() != 12 {
        return None;
    }
    let second = word_at(digits, 0)?;
    let third = word_at(digits, 4)?;
    let fourth = word_at(digits, 8)?;
    Some(Message::of_blocks(Blocks::new([0, second, third, fourth])))
}

/// Reads a number of slots of up to four decimal digits. Returns 0 if there are none.
#[inline(never)]
#[tactic(auto, using(crate::proofs::Receptions::no_lateness, crate::proofs::Receptions::three_digits))]
fn lateness_of(digits: &[u8]) -> Option<u16>
    ensures some { IfSome result (IsLateness digits.now) }
    ensures none { IfNone result ((late : ℕ) → IsLateness digits.now late → ⊥) }
{
    if digits.len() > 4 {
        return None;
    }
    let mut late = 0;
    for digit in digits {
        let value = char::from(*digit).to_digit(10)?;
        late = late * 10 + value as u16;
    }
    Some(late)
}
