//! The tests of rds_log, rds_witness and rds_script, which make their public calls as rds_program does, and of the
//! public call of rds_program. The other worked rows are cases of the built program.
//!
//! They are in a crate of their own, since a crate with tests is proved once more for them.
#![tactic(auto)]

#[cfg(test)]
mod audit_engine;
#[cfg(test)]
mod log_notes;
#[cfg(test)]
mod logs;
#[cfg(test)]
mod programs;
#[cfg(test)]
mod same;
#[cfg(test)]
mod scripts;
#[cfg(test)]
mod slots_engine;
#[cfg(test)]
mod stops;
#[cfg(test)]
mod witnesses;
