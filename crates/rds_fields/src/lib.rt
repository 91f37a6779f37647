//! The message of an RDS group: a segment of a text or name, an announcement or tags (IEC 62106, groups 2A, 10A and 3A;
//! IEC 62106-6, RadioText Plus in group 11A).
//!
//! The model is the relation `Spells` between messages and groups: sums of fields, by cases. The code shifts and masks.
//! `Message::of` returns the one message that a group spells. `Message::group` returns the one canonical group of a
//! message, which is read as that message again.
//!
//! ```text
//! let message = Message::of(&Group::from_blocks([0xC201, 0x2150, 0x594F, 0x0D20]));
//! matches!(message, Message::Text { flag: true, bytes: [b'Y', b'O', 0x0D, b' '], .. })
//! ```
#![tactic(auto)]

mod bounded;
mod distance;
mod head;
mod laws;
mod message;
mod pair;
mod radiotext_plus;
mod stored;
mod tag;
mod tag_group;

pub use bounded::{Bounded, Dwell, Late};
pub use distance::Distance;
pub use head::Head;
pub use laws::{an_exchange_is_its_own_inverse, one_group, one_message};
pub use message::{ANNOUNCEMENT_CODE, Message, NAME_CODE, RADIOTEXT_CODE};
pub use pair::{TagPair, Which};
pub use radiotext_plus::{RTPLUS_AID, RTPLUS_CODE, rtplus_announcement};
pub use stored::{StoredPair, StoredTag};
pub use tag::{Tag, TagRefused};
pub use tag_group::TagGroup;
