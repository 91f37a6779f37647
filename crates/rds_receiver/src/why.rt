//! Why a text or a name is not shown.
ghost use Rattle.std.specs.Prelude.{◌≡◌, ◌≢◌, ℕ, List, Option};
ghost use Rattle.rds_fields.specs.declared.message.Message.{Message};
ghost use Rattle.rds_receiver.specs.Holds.{HoldsAt};
ghost use Rattle.rds_receiver.specs.Stored.{IsStoredDisplay, display_stored};
ghost use Rattle.rds_receiver.specs.NotShown.{whys_in};
ghost use Rattle.rds_receiver.specs.declared.why.WhyNone.TheVariants.{Dropped, Incomplete};

use crate::display::{StoredDisplay, StoredSegments};

/// Why a text or a name is not shown (this project's own rule).
#[derive(Clone, Copy, Debug, PartialEq, Eq)]
pub enum WhyNone {
    /// Segments are held that make nothing whole: the next one began, or the same one anew.
    Incomplete,
    /// No segment came for as long as the dwell.
    Dropped,
    /// The receiver restarted.
    Restarted,
}

/// Why a text and a name are not shown, if they are not.
#[derive(Clone, Copy, Debug, PartialEq, Eq)]
pub struct Whys {
    pub text: WhyNone,
    pub name: WhyNone,
}

impl StoredSegments {
    /// Returns why no value is shown, if none is.
    fn why(&self) -> WhyNone
        ensures held { self.now.mask ≢ 0 → result ≡ Incomplete }
        ensures none { self.now.mask ≡ 0 → result ≡ Dropped }
    {
        if self.is_held() {
            WhyNone::Incomplete
        } else {
            WhyNone::Dropped
        }
    }
}

impl StoredDisplay {
    /// Returns why a text and a name are not shown, if they are not.
    pub(crate) fn whys(&self) -> Whys
        ensures { IsStoredDisplay self.now → (m t first : ℕ) (heard : List (Option Message))
            → HoldsAt m t first (display_stored self.now) heard → result ≡ whys_in m t first heard }
    {
        Whys {
            text: self.text.why(),
            name: self.name.why(),
        }
    }
}
