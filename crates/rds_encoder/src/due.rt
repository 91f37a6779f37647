//! What an encoder sends in a slot, and how it ends the slot.
ghost use Rattle.std.specs.Prelude.{◌≡◌, ◌≢◌, ◌+◌, ◌%◌, ◌<◌, IfSome, option_map};
ghost use Rattle.rds_fields.specs.declared.message.Message.{Message};
ghost use Rattle.rds_encoder.specs.Entries.{Tick, name_moves, slot_of, text_moves};
ghost use Rattle.rds_encoder.specs.Plan.{on_air};
ghost use Rattle.rds_encoder.specs.Round.{turn_in};
ghost use Rattle.rds_encoder.specs.Sent.{is_turn, name_segment, sent_in, tags_due, text_segment};
ghost use Rattle.rds_encoder.specs.EncoderAt.{Takes, WhereEncoderStands};
ghost use Rattle.rds_encoder.specs.State.{advanced};
ghost use Rattle.rds_encoder.specs.Numbers.{IsValidText, text_in};
ghost use Rattle.rds_encoder.specs.Tags.{pair_on_air};

use crate::Encoder;
use crate::round::{Turn, place_after, turn_at};
use rds_assembly::{name_segment, text_segment};
use rds_block::Place;
use rds_fields::{Head, Message, rtplus_announcement};

impl Encoder {
    /// Returns the message that is due in this slot. `None` if nothing is sent.
    pub(crate) fn due(&self, free: bool) -> Option<Message>
        ensures sent { WhereEncoderStands self.now (λ _ m entries. result ≡ sent_in m free entries) }
        ensures said { IfSome result (λ message. message ≢ Message.Other) }
    {
        if !self.has_turn(free) {
            return None;
        }
        match turn_at(self.round) {
            Turn::Text => self.text_segment(),
            Turn::Name(address) => self.name_segment(address),
            Turn::Announcement => Some(rtplus_announcement()),
            Turn::Tags => self.tags_due(),
        }
    }

    /// Returns the next segment of the text on air. `None` if no text is on air.
    #[tactic(auto, using(std::proofs::lemmas::Bool::Decides::nat_tests))]
    fn text_segment(&self) -> Option<Message>
        ensures sent { WhereEncoderStands self.now (λ _ m entries. result
            ≡ text_segment m (text_moves entries) (on_air m (text_moves entries))) }
        ensures said { IfSome result (λ message. message ≢ Message.Other) }
    {
        let text = self.text.on_air()?;
        Some(Message::Text {
            flag: self.text_hold.flag(),
            address: Place::new(self.text.next)?,
            bytes: text_segment(text, self.text.next),
        })
    }

    /// Returns a segment of the name on air. `None` if no name is on air.
    fn name_segment(&self, address: u8) -> Option<Message>
        requires { address < 2 }
        ensures sent { WhereEncoderStands self.now (λ _ m entries. result
            ≡ name_segment address (on_air m (name_moves entries))) }
        ensures said { IfSome result (λ message. message ≢ Message.Other) }
    {
        let name = self.name.on_air()?;
        Some(Message::Name {
            flag: self.name_hold.flag(),
            address: Place::new(address).unwrap(),
            bytes: name_segment(name, address),
        })
    }

    /// Returns the tags of the text on air. `None` if it has none, or has been on air for less than M + K slots.
    #[tactic(auto, using(std::proofs::lemmas::Bool::Decides::nat_tests, crate::proofs::Turns::due, crate::proofs::Turns::with_pair))]
    fn tags_due(&self) -> Option<Message>
        ensures sent { WhereEncoderStands self.now (λ _ m entries. result
            ≡ tags_due m (slot_of (text_moves entries)) (on_air m (text_moves entries)) (pair_on_air m entries)) }
        ensures said { IfSome result (λ message. message ≢ Message.Other) }
    {
        let pair = self.pair.pair()?;
        if !self.text_hold.has_lasted(self.distance) {
            return None;
        }
        Some(Message::Tags(pair))
    }

    /// Ends a slot.
    pub(crate) fn end_slot(&mut self, free: bool)
        ensures { Takes self.old self.new (Tick free) }
    {
        if self.has_turn(free) {
            self.end_turn();
        }
        self.silence = self.silence.saturating_sub(1);
        self.text_hold.end_slot();
        self.name_hold.end_slot();
    }

    /// Ends a turn.
    fn end_turn(&mut self)
        ensures kept { self.new ≡ record self.old { round = (self.old.round + 1) % 8; text = self.new.text } }
        ensures text { turn_in self.old.round ≡ Turn.Text
            → text_in self.new.text ≡ option_map advanced (text_in self.old.text) }
        ensures other { turn_in self.old.round ≢ Turn.Text → self.new.text ≡ self.old.text }
        ensures good { IsValidText self.old.text → IsValidText self.new.text }
    {
        if matches!(turn_at(self.round), Turn::Text) {
            self.text.advance();
        }
        self.round = place_after(self.round);
    }

    /// Returns whether the slot has a turn: it is free, and the silence is over.
    fn has_turn(&self, free: bool) -> bool
        ensures { WhereEncoderStands self.now (λ _ m entries. result ≡ is_turn m free (text_moves entries)) }
    {
        free && self.silence == 0
    }

    /// Returns the head of the station's groups.
    pub(crate) fn head(&self) -> Head
        ensures { WhereEncoderStands self.now (λ station _ _. result ≡ station) }
    {
        Head {
            pi: self.pi,
            tp: self.tp != 0,
            pty: Place::new(self.pty).unwrap_or(Place::new(0).unwrap()),
        }
    }
}
