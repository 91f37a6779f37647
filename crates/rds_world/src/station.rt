//! The encoder's part of a slot: the command.
ghost use Rattle.std.specs.Prelude.{◌≡◌, [], ◌∷◌, List};
ghost use Rattle.rds_encoder.specs.Entries.{Entry, Restart};
ghost use Rattle.rds_encoder.specs.EncoderAt.{EncoderAt};
ghost use Rattle.rds_world.specs.Replies.{answered, reply_at};
ghost use Rattle.rds_world.specs.Slots.{SetsAValue, commanded};
ghost use Rattle.rds_world.specs.State.{distance};

use crate::{Command, Config, Reply};
use rds_encoder::{Encoder, Refusal};

/// Makes the encoder at a restart.
pub(crate) fn new_encoder(config: &Config) -> Encoder
    ensures first { EncoderAt config.now.head (distance config.now) result [] }
    ensures again { (entries : List Entry)
        → EncoderAt config.now.head (distance config.now) result (Restart ∷ entries) }
{
    Encoder::spaced(config.head, config.distance())
}

/// Gives the command to the encoder and returns the reply.
pub(crate) fn obey(encoder: &mut Encoder, config: &Config, command: &Command) -> Reply
    ensures value { SetsAValue command.now }
    ensures reply { (entries : List Entry)
        → EncoderAt config.now.head (distance config.now) encoder.old entries
        → result ≡ reply_at (distance config.now) command.now entries }
    ensures stands { (entries : List Entry)
        → EncoderAt config.now.head (distance config.now) encoder.old entries
        → EncoderAt config.now.head (distance config.now) encoder.new (commanded command.now entries) }
{
    match *command {
        Command::Quiet => Reply::Quiet,
        Command::Restart => {
            *encoder = new_encoder(config);
            Reply::Restarted
        }
        Command::SetText(text) => answer(encoder.set_text(text)),
        Command::SetName(name) => answer(encoder.set_name(name)),
        Command::SetTags(pair) => answer(encoder.set_tags(pair)),
    }
}

fn answer(reply: Result<(), Refusal>) -> Reply
    ensures { result ≡ answered reply }
{
    match reply {
        Ok(()) => Reply::Done,
        Err(refusal) => Reply::Refused(refusal),
    }
}
