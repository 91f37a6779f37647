//! The replies of a world, and why a slot or a world is refused.
use rds_block::Group;
use rds_encoder::Refusal;
use thiserror::Error;

/// The reply to a command.
#[derive(Clone, Copy, Debug, PartialEq, Eq)]
pub enum Reply {
    /// There was no command.
    Quiet,
    /// The encoder restarted.
    Restarted,
    /// A text, a name or tags were accepted.
    Done,
    /// The text, name or tags were refused. The slot goes on.
    Refused(Refusal),
}

/// The result of a slot: the reply to its command, and the group that was sent.
#[derive(Clone, Copy, Debug, PartialEq, Eq)]
pub struct Answer {
    pub reply: Reply,
    /// The group that was sent. `None` if nothing was sent.
    pub sent: Option<Group>,
}

/// Why a world cannot be made.
#[derive(Clone, Copy, Debug, PartialEq, Eq, Error)]
pub enum WorldRefused {
    /// There are more than 8 receivers.
    #[error("there are more than 8 receivers")]
    TooManyReceivers,
    /// Out of memory for the groups of the last K + 1 slots, or for the wrong messages of the last W - 1.
    #[error("out of memory")]
    Memory,
}

/// Why a slot is refused.
#[derive(Clone, Copy, Debug, PartialEq, Eq, Error)]
pub enum StepRefused {
    /// The slot has another number of receptions than there are receivers.
    #[error("the slot has another number of receptions than there are receivers")]
    ReceiverCount,
    /// The first receiver whose reception is not due: sent more than K slots before, before slot 0, or no later than
    /// what its last `Got` gave.
    #[error("receiver {0} was to get what is not due to it")]
    Late(usize),
    /// The first receiver that was to get a wrong group although it has no window.
    #[error("receiver {0} was to get a wrong group, and has no window")]
    Wrong(usize),
    /// The first receiver that was to get a text segment, a name segment or a pair of tags that was wrong before, less
    /// than its window before.
    #[error("receiver {0} was to get the same wrong group twice within its window")]
    WrongConfirmed(usize),
}
