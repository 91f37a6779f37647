//! The kind of receivers that a world has.
ghost use Rattle.std.specs.Prelude.{◌≡◌, ◌<◌, ◌≤◌};
ghost use Rattle.rds_world.specs.ReceiverKind.{dwell_of, lateness_in, own_window, with_dwell};

use rds_fields::{Dwell, Late};
use rds_receiver::Window;

/// The kind of receivers that a world has (this project's own rule).
#[derive(Clone, Copy, Debug, PartialEq, Eq)]
pub struct ReceiverKind {
    /// The window of the station. It adds W - 1 slots to the spacing, and with it receivers may get wrong groups: they
    /// show only what they heard twice within W slots.
    pub window: Option<Window>,
    /// Whether the receivers are radios that follow the A/B flag bit alone (IEC 62106, RadioText): they have the longest
    /// dwell, and show what they heard once. Over as many slots, a receiver with this dwell shows what the flag bit
    /// alone gives. If not, the receivers have the dwell of the station.
    pub is_flag_alone: bool,
}

impl ReceiverKind {
    /// Returns receivers with the dwell of the station, which show what they heard once.
    pub fn with_dwell() -> ReceiverKind
        ensures { result ≡ with_dwell }
    {
        ReceiverKind {
            window: None,
            is_flag_alone: false,
        }
    }

    /// Returns how late a message may be that counts, in slots: K, and with a window K + W - 1.
    pub fn lateness(&self, late: Late) -> u16
        ensures value { result ≡ lateness_in self.now.window late }
        ensures most { result ≤ 1278 }
    {
        match self.window {
            Some(window) => late.get() + (window.get() - 1),
            None => late.get(),
        }
    }

    /// Returns the window of such a receiver. `None` if it has none.
    pub(crate) fn own_window(&self) -> Option<Window>
        ensures { result ≡ own_window self.now }
    {
        if self.is_flag_alone {
            None
        } else {
            self.window
        }
    }

    /// Returns the dwell of such a receiver, if the station's is this one.
    pub fn dwell(&self, dwell: Dwell) -> Dwell
        ensures same { result ≡ dwell_of self.now.is_flag_alone dwell }
        ensures some { 0 < dwell }
    {
        if self.is_flag_alone {
            Dwell::longest()
        } else {
            dwell
        }
    }
}
