//! A slot in which a receiver that lost some slots may show a mix.

use crate::burst::Burst;
use crate::firsts::Firsts;
use rds_block::Blocks;
use rds_fields::Dwell;

/// A log, the receivers that lose some of its slots, and the slot in which one may show a mix.
#[derive(Drop)]
pub(crate) struct Candidate<'a> {
    pub(crate) log: &'a [Option<Blocks>],
    pub(crate) pi: u16,
    pub(crate) dwell: Dwell,
    /// A thing is no mix if a receiver that loses nothing shows it less than so many slots later.
    pub(crate) ahead: Dwell,
    pub(crate) lost: &'a [Burst],
    pub(crate) firsts: &'a Firsts,
    /// The words before each line.
    pub(crate) words: &'a [u8],
    pub(crate) slot: usize,
}
