//! The wrong messages of the last slots.
ghost use Rattle.std.specs.Prelude.{◌≡◌, ◌≢◌, ◌↔◌, [], ◌∷◌, ℕ, Contains, IfErr, IfOk, IsTrue, List, Option, Some};
ghost use Rattle.std.specs.Prelude.{MatchResult, is_some, length, take};
ghost use Rattle.circular_buffer.specs.Buffer.{buffer};
ghost use Rattle.rds_fields.specs.declared.message.Message.{Message};
ghost use Rattle.rds_receiver.specs.Confirmed.{needs_two};
ghost use Rattle.rds_world.specs.Event.{Event};
ghost use Rattle.rds_world.specs.Replies.{IsUnfit};
ghost use Rattle.rds_world.specs.WorldAt.{HavePasts};
ghost use Rattle.rds_world.specs.Wrong.{IsFirstWrong, IsFit, IsFitToAll, slots_back, with_wrong};

use crate::{Reception, SlotEvent, StepRefused};
use circular_buffer::HeapCircularBuffer;
use rds_fields::Message;
use rds_receiver::Window;
use std::alloc::{AllocError, Global};
use std::marker::Model;

/// A ring of the last W - 1 slots of a receiver, the newest first: the wrong message that it got in each. Without a
/// window the ring has no places. A restart empties it.
#[derive(Drop)]
pub(crate) struct Past {
    wrong: HeapCircularBuffer<Option<Message>>,
}

impl Model for Past {
    ghost use Rattle.std.specs.Prelude.{Option};
    ghost use Rattle.rds_fields.specs.declared.message.Message.{Message};
    ghost use Rattle.circular_buffer.specs.Buffer.{Buffer};

    ghost Value = { Buffer (Option Message) };

    ghost view = { λ p. p.wrong };
}

impl Past {
    /// Makes an empty ring.
    ///
    /// # Errors
    ///
    /// [`AllocError`] if out of memory.
    fn new(alloc: Global, window: Option<Window>) -> Result<Past, AllocError>
        ensures { IfOk result (λ p. p ≡ buffer [] (slots_back window)) }
    {
        let slots = match window {
            Some(window) => window.get() - 1,
            None => 0,
        };
        Ok(Past {
            wrong: HeapCircularBuffer::with_capacity(alloc, usize::from(slots))?,
        })
    }

    /// Adds the reception of one more slot.
    fn push(&mut self, reception: Reception)
        ensures { self.new
            ≡ buffer (take self.old.capacity (with_wrong reception self.old.items)) self.old.capacity }
    {
        match reception {
            Reception::Got(_) | Reception::Lost => {
                self.wrong.push_front(None);
            }
            Reception::Wrong(message) => {
                self.wrong.push_front(Some(message));
            }
            Reception::Restart => self.wrong.clear(),
        }
    }

    /// Returns true if the receiver may get this.
    fn is_fit(&self, has_window: bool, reception: &Reception) -> bool
        ensures { (window : Option ℕ) (wrong : List (Option Message)) → has_window ≡ is_some window
            → self.now ≡ buffer (take (slots_back window) wrong) (slots_back window)
            → IsTrue result ↔ IsFit window wrong reception.now }
    {
        match reception {
            Reception::Wrong(message) => {
                has_window && !(takes_two(message) && is_among(&self.wrong, message))
            }
            Reception::Got(_) | Reception::Lost | Reception::Restart => true,
        }
    }
}

/// Returns true if this message is in the ring.
fn is_among(wrong: &HeapCircularBuffer<Option<Message>>, message: &Message) -> bool
    ensures { IsTrue result ↔ Contains wrong.now.items (Some message.now) }
{
    for i in 0..wrong.len() {
        match wrong.get(i) {
            Some(Some(before)) if before == message => return true,
            _ => {}
        }
    }
    false
}

/// Returns true if a receiver with a window shows the message only if it comes twice.
fn takes_two(message: &Message) -> bool
    ensures { result ≡ needs_two message.now }
{
    match message {
        Message::Text { .. } | Message::Name { .. } | Message::Tags(_) => true,
        Message::Announce { .. } | Message::Other => false,
    }
}

/// Makes an empty ring for each receiver.
///
/// # Errors
///
/// [`AllocError`] if out of memory.
pub(crate) fn new_pasts(
    alloc: Global,
    window: Option<Window>,
    receivers: usize,
) -> Result<Vec<Past>, AllocError>
    ensures count { IfOk result (λ v. length v.items ≡ receivers) }
    ensures empty { IfOk result (λ v. HavePasts window [] v.items) }
{
    let mut pasts = Vec::new(alloc);
    for _ in 0..receivers {
        pasts.push(Past::new(alloc, window)?)?;
    }
    Ok(pasts)
}

/// Finds the first reception of this event that breaks the premise.
///
/// # Errors
///
/// [`StepRefused::Wrong`] or [`StepRefused::WrongConfirmed`] with the number of its receiver.
pub(crate) fn check_wrong(
    pasts: &[Past],
    window: Option<Window>,
    event: &SlotEvent,
) -> Result<(), StepRefused>
    requires same { length event.now.receptions ≡ length pasts.now }
    ensures fit { (before : List Event) → HavePasts window before pasts.now
        → MatchResult result (λ _. IsFitToAll window event.now before) (IsUnfit window event.now before) }
    ensures kind { IfErr result (λ why. why ≢ StepRefused.ReceiverCount) }
{
    let has_window = window.is_some();
    let receptions = event.receptions.as_slice();
    for i in 0..receptions.len() {
        if !pasts[i].is_fit(has_window, &receptions[i]) {
            return Err(refusal_of(has_window, i));
        }
    }
    Ok(())
}

/// Returns why this receiver may not get a wrong message.
fn refusal_of(has_window: bool, receiver: usize) -> StepRefused
    ensures unfit { (window : Option ℕ) (e : Event) (before : List Event) → has_window ≡ is_some window
        → IsFirstWrong window e before receiver → IsUnfit window e before result }
    ensures kind { result ≢ StepRefused.ReceiverCount }
{
    if has_window {
        StepRefused::WrongConfirmed(receiver)
    } else {
        StepRefused::Wrong(receiver)
    }
}

/// Adds the receptions of one more slot. Without a window the rings have no places, and stay as they are.
pub(crate) fn note_wrong(pasts: &mut [Past], window: Option<Window>, event: &SlotEvent)
    requires same { length event.now.receptions ≡ length pasts.old }
    ensures count { length pasts.new ≡ length pasts.old }
    ensures pasts { (before : List Event) → HavePasts window before pasts.old
        → HavePasts window (event.now ∷ before) pasts.new }
{
    if window.is_none() {
        return;
    }
    let receptions = event.receptions.as_slice();
    for i in 0..receptions.len() {
        pasts[i].push(receptions[i]);
    }
}
