//! The lines of the views of a receiver of a log.
ghost use Rattle.std.specs.Prelude.{◌≡◌, ◌≤◌, ◌<◌, ◌+◌, ◌-◌, ◌^◌, ◌++◌, [], length};
ghost use Rattle.std.proofs.Common.{rules};
ghost use Rattle.rds_receiver.specs.Receipts.{Tuning};
ghost use Rattle.rds_receiver.specs.Counts.{keeping};
ghost use Rattle.rds_receiver.specs.Shown.{IsView, ShownView};
ghost use Rattle.rds_receiver.specs.ReceiverAt.{ReceiverAt, WhereReceiverStands};
ghost use Rattle.rds_view_lines.specs.KeptView.{view_kept};
ghost use Rattle.rds_view_lines.specs.Output.{change};
ghost use Rattle.rds_view_lines.specs.Part.{prefix_of};
ghost use Rattle.rds_log.specs.LogWrites.{LinesWrite, SayWhys};
ghost use Rattle.rds_view_lines.specs.declared.change.TheConstants.{SLOT_ROOM};

use crate::decode_log::Decoding;
use crate::person::incomplete::IncompleteTexts;
use rds_block::Blocks;
use rds_fields::TagGroup;
use rds_io::{Lines, TellingWrite, WriteFault};
use rds_lines::{Heard, LogLine, News, OUTPUT_ROOM, Source, TakesLines};
use rds_receiver::{Kept, Receiver, Whys};
use rds_view_lines::{KeptView, Prefix, SLOT_ROOM, Shown, show};

/// Feeds a receiver slot by slot, and appends a line for each part of its view that changed. The line of a text or a
/// name that is not shown any more may say why.
#[derive(Drop)]
pub(crate) struct ViewLines {
    receiver: Receiver,
    says_why: bool,
    pub(crate) slot: u64,
    shown: Shown,
}

impl ViewLines {
    ghost use Rattle.rds_log.specs.Inside.ViewLines.{GivesChange, ViewsStandAt};

    /// Starts before the first slot, with nothing shown. The display keeps a text and a name for `keep` slots.
    pub(crate) fn new(receiver: Receiver, says_why: bool, keep: u16) -> ViewLines
        ensures count { result.slot ≡ 0 }
        ensures keep { result.shown.keeping.keep ≡ keep }
        ensures stands { (t : Tuning) → ReceiverAt t receiver [] → ViewsStandAt keep says_why t result [] [] }
    {
        ViewLines {
            receiver,
            says_why,
            slot: 0,
            shown: Shown::new(keep),
        }
    }

    /// Handles the group of one slot, if one came, and appends the line of each changed part.
    #[inline(always)]
    pub(crate) fn slot<const N: usize>(&mut self, group: Option<Blocks>, lines: &mut Lines<N>)
        requires slots { self.old.slot < 2 ^ 64 - 1 }
        requires room { length lines.old + SLOT_ROOM ≤ N }
        ensures count { self.new.slot ≡ self.old.slot + 1 }
        ensures room { length lines.new ≤ length lines.old + SLOT_ROOM }
        ensures change { GivesChange self.old self.new group lines.old lines.new }
    {
        let is_changed = self.receiver.slot_blocks(group);
        let change = self.shown.keeping.slot(&self.receiver, is_changed);
        let Some(kept) = change else {
            self.slot += 1;
            return;
        };
        show_slot(
            self.slot,
            self.whys(),
            kept,
            &mut self.shown.view,
            &self.receiver,
            lines,
        );
        self.slot += 1;
    }

    /// Returns why a text and a name are not shown, if the lines say why.
    fn whys(&self) -> Option<Whys>
        ensures { WhereReceiverStands self.now.receiver (λ t input. SayWhys self.now.says_why t input result) }
    {
        if self.says_why {
            Some(self.receiver.whys())
        } else {
            None
        }
    }
}

/// Appends the line of each part of a view that changed in this slot. Few slots change one, so the prefix is made here.
// Cold path.
#[inline(never)]
fn show_slot<const N: usize>(
    slot: u64,
    whys: Option<Whys>,
    kept: Kept,
    shown: &mut KeptView,
    receiver: &Receiver,
    lines: &mut Lines<N>,
)
    requires { length lines.old + SLOT_ROOM ≤ N }
    ensures changes { lines.new
        ≡ lines.old ++ change (prefix_of (Prefix.Slot slot)) whys (view_kept shown.old) (view_kept shown.new) }
    ensures shows { WhereReceiverStands receiver.now (λ t input. (now : ShownView) × IsView t input now
        × (view_kept shown.new ≡ keeping kept (view_kept shown.old) now)) }
    ensures room { length lines.new ≤ length lines.old + SLOT_ROOM }
{
    show(Prefix::Slot(slot), whys, kept, shown, receiver, lines);
}

/// Takes the lines of a log for `decode`, with the programmes of their groups.
#[derive(Drop)]
pub(crate) struct Decoder {
    pub(crate) views: ViewLines,
    pi: u16,
    rtplus: TagGroup,
    pub(crate) heard: Heard,
    pub(crate) incomplete: IncompleteTexts,
}

impl Decoder {
    ghost use Rattle.rds_log.specs.Inside.Decoder.{HasDecoded};

    /// Starts a log.
    pub(crate) fn new(how: Decoding) -> Decoder
        ensures none { result.views.slot ≡ 0 }
        ensures decoded { HasDecoded how result.views result.rtplus [] [] }
    {
        let receiver = Receiver::tuned(how.pi, how.dwell, how.window);
        Decoder {
            views: ViewLines::new(receiver, how.says_why, how.keep),
            pi: how.pi,
            rtplus: how.rtplus,
            heard: Heard::new(),
            incomplete: IncompleteTexts::new(how.dwell),
        }
    }
}

impl TakesLines for Decoder {
    ghost use Rattle.rds_log.specs.Inside.Decoder.{HasDecoded, decoded_lines, decoded_part};

    type How = Decoding;

    ghost ROOM = { SLOT_ROOM };

    const ROOM: usize = SLOT_ROOM;

    ghost gives = { LinesWrite };

    ghost begins = { LinesWrite };

    ghost took = { λ how it lines total. HasDecoded how it.views it.rtplus lines total };

    ghost done = { λ it. ⊥ };

    ghost counted = { λ it. it.views.slot };

    #[inline(always)]
    fn line<W: TellingWrite>(
        &mut self,
        said: LogLine,
        source: &Source,
        output: &mut Lines<OUTPUT_ROOM>,
        _writer: &mut W,
    ) -> Result<bool, WriteFault> {
        match said {
            LogLine::Skip => Ok(true),
            LogLine::Slot(group) => {
                let read = self.rtplus.exchange_read(group);
                // Prover: a value is copied by a new name before its second use (PROVER.md, "Workarounds").
                let heard = read;
                let lost = read;
                let begun = read;
                self.heard.slot(self.pi, heard);
                self.heard.lost(self.pi, lost, source);
                self.incomplete.note(self.pi, self.views.slot, begun);
                self.views.slot(read, output);
                Ok(true)
            }
        }
    }

    fn tell<N: News>(&self, _news: &mut N) {}

    ghost meant = { λ how it lines total. decoded_lines how it.views it.rtplus lines total };

    ghost begun = { λ how it lines total. decoded_part how it.views it.rtplus lines total };

    ghost fits = { Prim.search rules };
}
