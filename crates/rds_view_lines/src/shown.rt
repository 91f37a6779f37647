//! What is displayed of a receiver, and the lines of its changes.
ghost use Rattle.std.specs.Prelude.{◌≡◌, ◌≤◌, ◌+◌, ◌++◌, [], length};
ghost use Rattle.rds_view_lines.specs.declared.change.TheConstants.{SLOT_ROOM};
ghost use Rattle.rds_receiver.specs.Borrowed.{view_of};
ghost use Rattle.rds_receiver.specs.Counts.{keeping};
ghost use Rattle.rds_receiver.specs.Shown.{IsView, ShownView};
ghost use Rattle.rds_receiver.specs.ReceiverAt.{WhereReceiverStands};
ghost use Rattle.rds_view_lines.specs.KeptView.{view_kept};
ghost use Rattle.rds_view_lines.specs.Output.{change};
ghost use Rattle.rds_view_lines.specs.Part.{prefix_of};

use crate::change::{Prefix, push_changes};
use crate::kept::KeptView;
use rds_io::Lines;
use rds_receiver::{Keeping, Kept, Receiver, View, Whys};

/// What is displayed of a receiver: a copy of its view, in which a text and a name may be kept.
#[derive(Drop)]
pub struct Shown {
    pub view: KeptView,
    /// For how long a text and a name are kept.
    pub keeping: Keeping,
}

impl Shown {
    ghost use Rattle.rds_receiver.specs.Counts.{DisplayOf};
    ghost use Rattle.rds_receiver.specs.Receipts.{Tuning};
    ghost use Rattle.rds_view_lines.specs.KeptView.{view_shown};
    ghost use Rattle.rds_view_lines.specs.Output.{nothing_shown};

    /// Starts before the first slot of a receiver, with nothing shown. A text and a name are kept for `keep` slots.
    pub fn new(keep: u16) -> Shown
        ensures keep { result.keeping.keep ≡ keep }
        ensures nothing { view_shown result ≡ nothing_shown }
        ensures stands { (t : Tuning) → DisplayOf keep t result.keeping (view_shown result) [] }
    {
        Shown {
            view: KeptView::new(),
            keeping: Keeping::new(keep),
        }
    }
}

impl Default for Shown {
    /// Starts a display that keeps nothing.
    fn default() -> Shown {
        Shown::new(0)
    }
}

/// Returns the view of a display that keeps these parts of what it showed before. The others are those of the receiver.
fn beside<'a>(kept: Kept, before: View<'a>, now: View<'a>) -> View<'a>
    ensures { view_of result ≡ keeping kept (view_of before.entry) (view_of now.entry) }
{
    let text = if kept.text { before } else { now };
    let name = if kept.name { before } else { now };
    View {
        text: text.text,
        name: name.name,
        item: text.item,
        one: text.one,
        two: text.two,
    }
}

/// Appends the line of each part that differs from the view that was displayed. Displays the receiver's view then, and
/// beside it what is kept of the view before. With `whys` the line of a text or a name that is not shown any more says
/// why.
// Cold path: few slots change a view.
#[inline(never)]
pub fn show<const N: usize>(
    prefix: Prefix,
    whys: Option<Whys>,
    kept: Kept,
    shown: &mut KeptView,
    receiver: &Receiver,
    lines: &mut Lines<N>,
)
    requires { length lines.old + SLOT_ROOM ≤ N }
    ensures changes { lines.new
        ≡ lines.old ++ change (prefix_of prefix) whys (view_kept shown.old) (view_kept shown.new) }
    ensures shows { WhereReceiverStands receiver.now (λ t input. (now : ShownView) × IsView t input now
        × (view_kept shown.new ≡ keeping kept (view_kept shown.old) now)) }
    ensures room { length lines.new ≤ length lines.old + SLOT_ROOM }
{
    let before = shown.view();
    let now = beside(kept, before, receiver.view());
    push_changes(prefix, whys, before, now, lines);
    *shown = KeptView::of(now);
}
