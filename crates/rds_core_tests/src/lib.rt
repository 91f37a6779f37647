//! The tests of the crates that know of no log and no script: blocks, fields, segments, characters, the encoder, the
//! receiver, the world and the audit. They make the public calls of these as any crate above them does.
//!
//! They are in a crate of their own, since a crate with tests is proved once more for them.
#![tactic(auto)]

#[cfg(test)]
mod blocks;
#[cfg(test)]
mod characters;
#[cfg(test)]
mod confirming;
#[cfg(test)]
mod encoders;
#[cfg(test)]
mod listings;
#[cfg(test)]
mod messages;
#[cfg(test)]
mod receivers;
#[cfg(test)]
mod same;
#[cfg(test)]
mod segments;
#[cfg(test)]
mod stored_audit;
#[cfg(test)]
mod stored_encoder;
#[cfg(test)]
mod worlds;
#[cfg(test)]
mod wrong_groups;
