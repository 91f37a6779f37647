//! The announcement of RadioText Plus.
ghost use Rattle.std.specs.Prelude.{◌≡◌};
ghost use Rattle.rds_fields.specs.RadioTextPlus.{announcement};

use crate::Message;
use rds_block::Place;

/// The code of group type 11A, which carries the tags (IEC 62106, group 3A).
pub const RTPLUS_CODE: u8 = 22;

/// The application identification (AID) of RadioText Plus (IEC 62106-6).
pub const RTPLUS_AID: u16 = 0x4BD7;

/// Makes the announcement that RadioText Plus uses groups 11A. Its own bits are 0.
pub fn rtplus_announcement() -> Message
    ensures { result ≡ announcement }
{
    Message::Announce {
        code: Place::new(RTPLUS_CODE).unwrap(),
        bits: 0,
        aid: RTPLUS_AID,
    }
}
