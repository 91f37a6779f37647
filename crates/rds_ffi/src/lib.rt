//! Receivers, encoders and audits for C programs: plain structs in the caller's memory, and functions over them.
//!
//! Each call is safe for any numbers in a struct. If only these functions wrote them, the result of a call is the one
//! that the definitions give for all slots since the struct was made.
#![tactic(auto)]

mod arrivals;
mod audit;
mod codes;
mod display;
mod encoder;
mod held;
mod label;
mod receiver;
mod reply;
mod slots;
mod tag_group;
mod tags;
mod text;
mod version;
mod view;

// The sizes that the C header states.
const _: () = prove!(size_of::<rds_receiver::Receiver>() == 264);

const _: () = prove!(size_of::<rds_encoder::Encoder>() == 116);

const _: () = prove!(size_of::<rds_audit::Audit>() == 312);

const _: () = prove!(size_of::<rds_audit::StoredFaults>() == 5);

const _: () = prove!(size_of::<view::RdsrtView>() == 84);

const _: () = prove!(size_of::<display::RdsrtDisplay>() == 94);

const _: () = prove!(size_of::<held::RdsrtHeld>() == 8);

const _: () = prove!(size_of::<label::RdsrtLabel>() == 32);

const _: () = prove!(size_of::<encoder::RdsrtOnAir>() == 75);

const _: () = prove!(size_of::<tags::RdsrtTags>() == 8);

const _: () = prove!(size_of::<version::RdsrtVersion>() == 16);
