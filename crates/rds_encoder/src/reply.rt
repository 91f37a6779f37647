//! The reply to a set: why it is refused, and for how many slots.

use rds_fields::Which;
use thiserror::Error;

/// Why a text, a name or a pair of tags is refused now.
#[derive(Clone, Copy, Debug, PartialEq, Eq, Error)]
pub enum Refusal {
    /// The encoder is silent after a restart, for this many more slots.
    #[error("silent for {0} slots more")]
    Silent(u32),
    /// The text or name before holds the next one back, for this many more slots.
    #[error("held back for {0} slots more")]
    Held(u32),
    /// No text is on air that the tags could belong to.
    #[error("no text is on air")]
    NoText,
    /// This tag does not end in the text on air.
    #[error("the {0} tag does not end in the text")]
    OutOfText(Which),
}

/// For how many more slots a set would be refused; 0 if it would not be.
#[derive(Clone, Copy, Debug, PartialEq, Eq)]
pub struct Wait {
    /// Each set, since the encoder is silent after a restart.
    pub silent: u32,
    /// A text, since the one before holds it back.
    pub text: u32,
    /// A name, since the one before holds it back.
    pub name: u32,
}
