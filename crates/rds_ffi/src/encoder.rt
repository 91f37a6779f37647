//! An encoder in the caller's memory.
ghost use Rattle.std.specs.Prelude.{◌≡◌, ◌≢◌, ◌+◌, ◌<◌, ◌≤◌, ◌↔◌, ℕ, List, [], ◌∷◌, Option, option_map};
ghost use Rattle.rds_block.specs.declared.group.Group.{Group};
ghost use Rattle.rds_fields.specs.declared.head.Head.{Head};
ghost use Rattle.rds_fields.specs.Stored.{is_set};
ghost use Rattle.rds_assembly.specs.declared.text.TextRefused.{TextRefused};
ghost use Rattle.rds_assembly.specs.Body.{name_body};
ghost use Rattle.rds_assembly.specs.Value.{IsGivenName, IsRefusedFor, IsText, is_name_byte, is_text_byte};
ghost use Rattle.rds_encoder.specs.Entries.{Entry, Restart, SetName, SetTags, SetText, Tick, name_moves, text_moves};
ghost use Rattle.rds_encoder.specs.Plan.{bytes_of, on_air};
ghost use Rattle.rds_encoder.specs.Reply.{IsSetReply, IsTagsReply, held_for, reply_to, silent_for};
ghost use Rattle.rds_encoder.specs.Sent.{IsSent, sent_in};
ghost use Rattle.rds_encoder.specs.EncoderAt.{EncoderAt, Takes, WhereEncoderStands};
ghost use Rattle.rds_encoder.specs.Tags.{tags_reply};
ghost use Rattle.rds_ffi.specs.Codes.{RDSRT_BAD_ARGUMENT, RDSRT_BAD_TAGS, RDSRT_OK, IsReplyOf, refusal_of, reply_of};
ghost use Rattle.rds_ffi.specs.Sent.{IsOut};
ghost use Rattle.rds_ffi.specs.Tagged.{AreGiven, pair_of};
ghost use Rattle.rds_ffi.specs.Viewed.{IsPlainName, IsPlainText, name_viewed, text_viewed};

use crate::codes;
use crate::reply::{RdsrtReply, plain_refusal, plain_reply};
use crate::slots::spacing_of;
use crate::tags::{RdsrtTags, pair_given};
use crate::view::{RdsrtName, RdsrtText, plain_name, plain_text};
use rds_assembly::{Name, Text};
use rds_block::Place;
use rds_encoder::Encoder;
use rds_fields::Head;

/// The text and the name on air.
#[repr(C)]
#[derive(Clone, Copy)]
pub struct RdsrtOnAir {
    pub text: RdsrtText,
    pub name: RdsrtName,
}

/// The number of slots for which a set would be refused. 0 if it would be accepted.
#[repr(C)]
#[derive(Clone, Copy)]
pub struct RdsrtWait {
    pub silent: u32,
    pub text: u32,
    pub name: u32,
}

/// Makes an encoder at a restart. It is silent for the dwell and the lateness, both in slots, from this slot on.
///
/// # Errors
///
/// `RDSRT_BAD_ARGUMENT` and no change if the programme type is over 31, the dwell 0 or the lateness over 1024.
#[unsafe(no_mangle)]
pub extern "C" fn rdsrt_encoder_init(
    encoder: &mut Encoder,
    pi: u16,
    tp: u8,
    pty: u8,
    dwell: u16,
    late: u16,
) -> u32
    ensures code { result ≡ RDSRT_OK ↔ ((pty < 32) × (0 < dwell) × (late ≤ 1024)) }
    ensures first { result ≡ RDSRT_OK → EncoderAt record { pi = pi; tp = is_set tp; pty = pty } (dwell + late)
        encoder.new [] }
    ensures again { result ≡ RDSRT_OK → (entries : List Entry)
        → EncoderAt record { pi = pi; tp = is_set tp; pty = pty } (dwell + late)
        encoder.new (Restart ∷ entries) }
    ensures bad { result ≢ RDSRT_OK → result ≡ RDSRT_BAD_ARGUMENT }
    ensures kept { result ≢ RDSRT_OK → encoder.new ≡ encoder.old }
{
    let Some(pty) = Place::new(pty) else {
        return codes::BAD_ARGUMENT;
    };
    let Some((dwell, late)) = spacing_of(dwell, late) else {
        return codes::BAD_ARGUMENT;
    };
    let head = Head {
        pi,
        tp: tp != 0,
        pty,
    };
    *encoder = Encoder::new(head, dwell, late);
    codes::OK
}

/// Puts the text of these bytes on air from this slot on.
///
/// # Errors
///
/// `RDSRT_TOO_LONG` for over 64 bytes, `RDSRT_BAD_BYTE` with the place of the first byte that a text may not contain,
/// and then `RDSRT_SILENT` or `RDSRT_HELD` with the slots to wait. Nothing changes.
#[unsafe(no_mangle)]
pub extern "C" fn rdsrt_encoder_set_text(encoder: &mut Encoder, text: &[u8]) -> RdsrtReply
    ensures reply { IsText text.now → WhereEncoderStands encoder.old
        (λ _ m entries. result ≡ reply_of (reply_to m (text_moves entries))) }
    ensures stands { IsText text.now → Takes encoder.old encoder.new (SetText text.now) }
    ensures refused { (IsText text.now → ⊥) → (refused : TextRefused)
        × IsRefusedFor 64 is_text_byte text.now refused × (result ≡ refusal_of refused) }
    ensures codes { IsText text.now → IsReplyOf IsSetReply result }
    ensures kept { result.code ≢ RDSRT_OK → encoder.new ≡ encoder.old }
{
    let text = match Text::new(text) {
        Ok(text) => text,
        Err(refused) => return plain_refusal(refused),
    };
    plain_reply(encoder.set_text(text))
}

/// Puts the name of these bytes on air from this slot on, padded with spaces to eight.
///
/// # Errors
///
/// `RDSRT_TOO_LONG` for over 8 bytes, `RDSRT_BAD_BYTE` with the place of the first byte that a name may not contain,
/// and then `RDSRT_SILENT` or `RDSRT_HELD` with the slots to wait. Nothing changes.
#[unsafe(no_mangle)]
pub extern "C" fn rdsrt_encoder_set_name(encoder: &mut Encoder, name: &[u8]) -> RdsrtReply
    ensures reply { IsGivenName name.now → WhereEncoderStands encoder.old
        (λ _ m entries. result ≡ reply_of (reply_to m (name_moves entries))) }
    ensures stands { IsGivenName name.now
        → Takes encoder.old encoder.new (SetName (name_body name.now)) }
    ensures refused { (IsGivenName name.now → ⊥) → (refused : TextRefused)
        × IsRefusedFor 8 is_name_byte name.now refused × (result ≡ refusal_of refused) }
    ensures codes { IsGivenName name.now → IsReplyOf IsSetReply result }
    ensures kept { result.code ≢ RDSRT_OK → encoder.new ≡ encoder.old }
{
    let name = match Name::new(name) {
        Ok(name) => name,
        Err(refused) => return plain_refusal(refused),
    };
    plain_reply(encoder.set_name(name))
}

/// Sets the tags of the text on air.
///
/// # Errors
///
/// `RDSRT_BAD_TAGS` if the numbers are not a valid pair of tags, and then `RDSRT_SILENT` with the slots to wait,
/// `RDSRT_NO_TEXT`, or `RDSRT_OUT_OF_TEXT_1` or `_2` for the first tag that does not end in the text. Nothing changes.
#[unsafe(no_mangle)]
pub extern "C" fn rdsrt_encoder_set_tags(encoder: &mut Encoder, tags: &RdsrtTags) -> RdsrtReply
    ensures reply { AreGiven tags.now → WhereEncoderStands encoder.old
        (λ _ m entries. result ≡ reply_of (tags_reply m (pair_of tags.now) entries)) }
    ensures stands { AreGiven tags.now → Takes encoder.old encoder.new (SetTags (pair_of tags.now)) }
    ensures refused { (AreGiven tags.now → ⊥) → result ≡ record { code = RDSRT_BAD_TAGS; number = 0 } }
    ensures codes { AreGiven tags.now → IsReplyOf IsTagsReply result }
    ensures kept { result.code ≢ RDSRT_OK → encoder.new ≡ encoder.old }
{
    let Some(pair) = pair_given(tags) else {
        return RdsrtReply {
            code: codes::BAD_TAGS,
            number: 0,
        };
    };
    plain_reply(encoder.set_tags(pair))
}

/// Ends the slot, and writes the four blocks of its group. Returns `RDSRT_SENT`, or `RDSRT_OK` and unchanged blocks if
/// no group is sent. A slot that is not free belongs to other services.
#[unsafe(no_mangle)]
pub extern "C" fn rdsrt_encoder_tick(encoder: &mut Encoder, free: u8, blocks: &mut [u16; 4]) -> u32
    ensures sent { WhereEncoderStands encoder.old (λ station m entries. (group : Option Group)
        × IsSent station (sent_in m (is_set free) entries) group × IsOut result blocks.new group) }
    ensures stands { Takes encoder.old encoder.new (Tick (is_set free)) }
    ensures few { result ≤ 1 }
    ensures kept { result ≡ RDSRT_OK → blocks.new ≡ blocks.old }
{
    let Some(group) = encoder.tick(free != 0) else {
        return codes::OK;
    };
    *blocks = group.to_blocks();
    codes::SENT
}

/// The text and the name on air.
#[unsafe(no_mangle)]
pub extern "C" fn rdsrt_encoder_on_air(encoder: &Encoder, air: &mut RdsrtOnAir)
    ensures text { WhereEncoderStands encoder.now (λ _ m entries.
        text_viewed air.new.text ≡ option_map bytes_of (on_air m (text_moves entries))) }
    ensures name { WhereEncoderStands encoder.now (λ _ m entries.
        name_viewed air.new.name ≡ option_map bytes_of (on_air m (name_moves entries))) }
    ensures plain_text { IsPlainText air.new.text }
    ensures plain_name { IsPlainName air.new.name }
{
    *air = RdsrtOnAir {
        text: plain_text(encoder.text()),
        name: plain_name(encoder.name()),
    };
}

/// Returns the number of slots for which a set would be refused, including this one.
#[unsafe(no_mangle)]
pub extern "C" fn rdsrt_encoder_wait(encoder: &Encoder, wait: &mut RdsrtWait)
    ensures silent { WhereEncoderStands encoder.now
        (λ _ m entries. wait.new.silent ≡ silent_for (reply_to m (text_moves entries))) }
    ensures text { WhereEncoderStands encoder.now
        (λ _ m entries. wait.new.text ≡ held_for (reply_to m (text_moves entries))) }
    ensures name { WhereEncoderStands encoder.now
        (λ _ m entries. wait.new.name ≡ held_for (reply_to m (name_moves entries))) }
{
    let left = encoder.wait();
    *wait = RdsrtWait {
        silent: left.silent,
        text: left.text,
        name: left.name,
    };
}
