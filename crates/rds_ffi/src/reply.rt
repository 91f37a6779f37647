//! Replies of an encoder as numbers.
ghost use Rattle.std.specs.Prelude.{◌≡◌, ◌<◌, ℕ};
ghost use Rattle.rds_ffi.specs.Codes.{refusal_of, reply_of};

use crate::codes;
use rds_assembly::TextRefused;
use rds_encoder::Refusal;
use rds_fields::Which;

/// The reply to a set. `number` is the slots to wait (`RDSRT_SILENT`, `RDSRT_HELD`), the place of the byte
/// (`RDSRT_BAD_BYTE`), or 0.
#[repr(C)]
#[derive(Clone, Copy)]
pub struct RdsrtReply {
    pub code: u32,
    pub number: u32,
}

/// Returns the reply of an encoder.
pub(crate) fn plain_reply(reply: Result<(), Refusal>) -> RdsrtReply
    ensures { result ≡ reply_of reply }
{
    let (code, number) = match reply {
        Ok(()) => (codes::OK, 0),
        Err(Refusal::Silent(slots)) => (codes::SILENT, slots),
        Err(Refusal::Held(slots)) => (codes::HELD, slots),
        Err(Refusal::NoText) => (codes::NO_TEXT, 0),
        Err(Refusal::OutOfText(Which::One)) => (codes::OUT_OF_TEXT_1, 0),
        Err(Refusal::OutOfText(Which::Two)) => (codes::OUT_OF_TEXT_2, 0),
    };
    RdsrtReply { code, number }
}

/// Returns the reply to bytes that are not a valid text or name.
pub(crate) fn plain_refusal(refused: TextRefused) -> RdsrtReply
    requires { (place : ℕ) → refused ≡ TextRefused.BadByte place → place < 64 }
    ensures { result ≡ refusal_of refused }
{
    match refused {
        TextRefused::TooLong => RdsrtReply {
            code: codes::TOO_LONG,
            number: 0,
        },
        TextRefused::BadByte(place) => RdsrtReply {
            code: codes::BAD_BYTE,
            number: place as u32,
        },
    }
}
