//! A group of the Radio Data System (RDS) and its four words (IEC 62106, group structure).
//!
//! A group has four blocks of 16 bits. In the model, block 2 is the sum of its fields, each times a power of two. The
//! code shifts and masks. `Group::from_blocks` and `Group::to_blocks` accept any input and are inverse to each other;
//! the law `words_are_one_to_one` states this. The crate does not interpret a group: `rds_fields` does.
//!
//! ```text
//! let group = Group::from_blocks([0xC201, 0x2140, 0x4849, 0x0D20]);
//! group.number.get() == 2 && !group.version && group.low.get() == 0
//! ```
#![tactic(auto)]

mod blocks;
mod group;
mod laws;
mod place;

pub use blocks::Blocks;
pub use group::Group;
pub use laws::words_are_one_to_one;
pub use place::Place;
