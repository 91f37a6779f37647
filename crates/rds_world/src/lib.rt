//! A world: a station and its receivers, slot by slot. It has one encoder and up to eight receivers. Each receiver gets
//! a group that was sent, in its slot or some slots late, or nothing, or with a window a wrong group.
//!
//! Lists of slots have the newest first. Whatever the slots are, each text that a receiver shows was on air in one of
//! the last d slots: M + K slots, or M + K + W - 1 if the receivers have a window of W slots.
#![tactic(auto)]

mod event;
mod past;
mod reach;
mod receiver_kind;
mod receivers;
mod recent;
mod reply;
mod slots;
mod station;
mod station_laws;
mod world;

pub use event::{Command, MOST_RECEIVERS, Reception, SlotEvent};
pub use rds_safety::{safe_by_plans, the_dwell_is_the_least};
pub use receiver_kind::ReceiverKind;
pub use reply::{Answer, Reply, StepRefused, WorldRefused};
pub use slots::{PlayRefused, play};
pub use station_laws::{
    a_confirmed_station_is_safe, a_restart_mixes, a_station_is_safe, a_station_is_safe_by_the_flag,
    on_air_is_delivered, only_what_was_on_air_is_shown, the_encoder_is_lawful,
    the_station_turns_the_flag, what_is_fit_keeps_the_premise,
};
pub use world::{Config, World};
