//! The encoder: it takes sets, and sends a group or nothing in each slot.
ghost use Rattle.std.specs.Prelude.{◌≡◌, ◌+◌, ◌≤◌, List, [], ◌∷◌, IfSome, OnErr, length, option_map, option_copied};
ghost use Rattle.rds_assembly.specs.Value.{IsName, IsText};
ghost use Rattle.rds_encoder.specs.Entries.{Entry, Restart, SetText, SetName, SetTags, Tick, name_moves, text_moves};
ghost use Rattle.rds_encoder.specs.Plan.{bytes_of, on_air};
ghost use Rattle.rds_encoder.specs.Reply.{IsSetReply, IsTagsReply, held_for, reply_to, silent_for};
ghost use Rattle.rds_encoder.specs.Sent.{IsSent, sent_in};
ghost use Rattle.rds_encoder.specs.EncoderAt.{EncoderAt, Takes, WhereEncoderStands};
ghost use Rattle.rds_encoder.specs.Tags.{fitting_reply, pair_on_air, tags_reply};

use crate::silence::check_silence;
use crate::{Hold, NameOnAir, Refusal, TextOnAir, Wait};
use rds_assembly::{Name, Text};
use rds_block::Group;
use rds_fields::{Distance, Dwell, Head, Late, StoredPair, TagPair, Which};

/// Sends the text, the name and the tags of one station. It keeps counters that stop at their limits, and no slot
/// number.
///
/// `EncoderAt` relates an encoder to the list of its entries: restarts, sets and ends of slots. A new encoder stands at
/// the empty list, and at each list whose newest entry is a restart. Each call adds its entry to the list.
///
/// It is plain numbers, so a program may store it. A bit is 0 for no and any other number for yes. With numbers that no
/// encoder has, each call returns something arbitrary.
#[repr(C)]
#[derive(Clone, Copy)]
pub struct Encoder {
    /// The spacing d in slots: the dwell plus the lateness.
    pub distance: u32,
    /// The number of slots left of the silence.
    pub silence: u32,
    pub text_hold: Hold,
    pub name_hold: Hold,
    pub pi: u16,
    pub tp: u8,
    pub pty: u8,
    /// The place of the next turn in the round of eight.
    pub round: u8,
    pub text: TextOnAir,
    pub name: NameOnAir,
    pub pair: StoredPair,
}

impl Encoder {
    /// Makes an encoder at a restart, which is silent for M + K slots from this slot on. All its groups have this head.
    /// The dwell is that of its receivers, and the lateness is how many slots late a group may reach them (this
    /// project's own rule).
    pub fn new(head: Head, dwell: Dwell, late: Late) -> Encoder
        ensures first { EncoderAt head (dwell + late) result [] }
        ensures again { (entries : List Entry)
            → EncoderAt head (dwell + late) result (Restart ∷ entries) }
    {
        Encoder::spaced(head, Distance::new(dwell, late))
    }

    /// Makes an encoder at a restart with this spacing, in place of M + K slots.
    pub fn spaced(head: Head, distance: Distance) -> Encoder
        ensures first { EncoderAt head distance result [] }
        ensures again { (entries : List Entry) → EncoderAt head distance result (Restart ∷ entries) }
    {
        let distance = distance.get();
        Encoder {
            distance,
            silence: distance,
            text_hold: Hold::none(),
            name_hold: Hold::none(),
            pi: head.pi,
            tp: u8::from(head.tp),
            pty: head.pty.get(),
            round: 0,
            text: TextOnAir::none(),
            name: NameOnAir::none(),
            pair: StoredPair::none(),
        }
    }

    /// Puts the text on air from this slot on, in place of the text before and its tags. It has the other flag, even if
    /// its bytes are the same.
    ///
    /// # Errors
    ///
    /// `Silent` for M + K slots from a restart on. Otherwise `Held` for 2 (M + K) slots from the text before on (this
    /// project's own rule). Both have the number of slots left. After an error nothing has changed.
    pub fn set_text(&mut self, text: Text) -> Result<(), Refusal>
        ensures reply { WhereEncoderStands self.old
            (λ _ m entries. result ≡ reply_to m (text_moves entries)) }
        ensures kind { IsSetReply result }
        ensures text { IsText text }
        ensures stands { Takes self.old self.new (SetText text) }
        ensures kept { OnErr result (self.new ≡ self.old) }
    {
        check_silence(self.silence)?;
        let distance = Distance::restore(self.distance);
        self.text_hold.set(distance)?;
        self.text = TextOnAir::of(text);
        self.pair = StoredPair::none();
        Ok(())
    }

    /// Puts the name on air from this slot on, in place of the name before. It has the other flag, even if its bytes
    /// are the same.
    ///
    /// # Errors
    ///
    /// `Silent` for M + K slots from a restart on. Otherwise `Held` for 2 (M + K) slots from the name before on (this
    /// project's own rule). Both have the number of slots left. After an error nothing has changed.
    pub fn set_name(&mut self, name: Name) -> Result<(), Refusal>
        ensures reply { WhereEncoderStands self.old
            (λ _ m entries. result ≡ reply_to m (name_moves entries)) }
        ensures kind { IsSetReply result }
        ensures name { IsName name }
        ensures stands { Takes self.old self.new (SetName name) }
        ensures kept { OnErr result (self.new ≡ self.old) }
    {
        check_silence(self.silence)?;
        let distance = Distance::restore(self.distance);
        self.name_hold.set(distance)?;
        self.name = NameOnAir::of(name);
        Ok(())
    }

    /// Gives the text on air these tags, in place of those before. They go off air with it. They are first sent when it
    /// has been on air for M + K slots (this project's own rule).
    ///
    /// # Errors
    ///
    /// `Silent` for M + K slots from a restart on, with the slots left. Otherwise `NoText` if no text is on air,
    /// and otherwise `OutOfText` for the first tag that does not end in the text. The dummy, of class 0, ends in each
    /// text. After an error nothing has changed.
    pub fn set_tags(&mut self, pair: TagPair) -> Result<(), Refusal>
        ensures reply { WhereEncoderStands self.old (λ _ m entries. result ≡ tags_reply m pair entries) }
        ensures kind { IsTagsReply result }
        ensures stands { Takes self.old self.new (SetTags pair) }
        ensures kept { OnErr result (self.new ≡ self.old) }
    {
        check_silence(self.silence)?;
        self.check_tags(pair)?;
        self.pair = StoredPair::of(Some(pair));
        Ok(())
    }

    /// Refuses tags if no text is on air, or if one does not end in the text on air.
    fn check_tags(&self, pair: TagPair) -> Result<(), Refusal>
        ensures kind { IsTagsReply result }
        ensures reply { WhereEncoderStands self.now (λ _ m entries. result
            ≡ fitting_reply pair (on_air m (text_moves entries))) }
    {
        let Some(text) = self.text.on_air() else {
            return Err(Refusal::NoText);
        };
        if !pair.one().ends_in(text.len()) {
            return Err(Refusal::OutOfText(Which::One));
        }
        if !pair.two().ends_in(text.len()) {
            return Err(Refusal::OutOfText(Which::Two));
        }
        Ok(())
    }

    /// Ends the slot and returns the group that is sent in it. `None` if nothing is sent. A slot that is not free
    /// belongs to other services. The sets of a slot come before its `tick`.
    pub fn tick(&mut self, free: bool) -> Option<Group>
        ensures sent { WhereEncoderStands self.old
            (λ station m entries. IsSent station (sent_in m free entries) result) }
        ensures stands { Takes self.old self.new (Tick free) }
    {
        let message = self.due(free);
        self.end_slot(free);
        message?.group(self.head())
    }

    /// Returns the text on air, at most 64 bytes, borrowed from the encoder. `None` if no text is on air.
    pub fn text(&self) -> Option<&[u8]>
        ensures on_air { WhereEncoderStands self.now
            (λ _ m entries. option_copied result
            ≡ option_map bytes_of (on_air m (text_moves entries))) }
        ensures text { WhereEncoderStands self.now (λ _ _ _. IfSome result (λ x. IsText x.now)) }
        ensures short { IfSome result (λ x. length x.now ≤ 64) }
    {
        self.text.on_air()
    }

    /// Returns the name on air, eight bytes, padded with spaces, borrowed from the encoder. `None` if no name is on
    /// air.
    pub fn name(&self) -> Option<&[u8]>
        ensures on_air { WhereEncoderStands self.now
            (λ _ m entries. option_copied result
            ≡ option_map bytes_of (on_air m (name_moves entries))) }
        ensures name { WhereEncoderStands self.now (λ _ _ _. IfSome result (λ x. IsName x.now)) }
        ensures short { IfSome result (λ x. length x.now ≡ 8) }
    {
        self.name.on_air()
    }

    /// Returns the tags of the text on air, even if they have not been sent yet. `None` if it has none.
    pub fn tags(&self) -> Option<TagPair>
        ensures { WhereEncoderStands self.now (λ _ m entries. result ≡ pair_on_air m entries) }
    {
        self.pair.pair()
    }

    /// Returns for how many more slots a set would be refused, this slot included.
    #[tactic(auto, using(std::proofs::lemmas::Bool::Decides::nat_tests, crate::proofs::Turns::left_of_hold))]
    pub fn wait(&self) -> Wait
        ensures silent { WhereEncoderStands self.now
            (λ _ m entries. result.silent ≡ silent_for (reply_to m (text_moves entries))) }
        ensures text { WhereEncoderStands self.now
            (λ _ m entries. result.text ≡ held_for (reply_to m (text_moves entries))) }
        ensures name { WhereEncoderStands self.now
            (λ _ m entries. result.name ≡ held_for (reply_to m (name_moves entries))) }
    {
        Wait {
            silent: self.silence,
            text: self.text_hold.left,
            name: self.name_hold.left,
        }
    }
}
