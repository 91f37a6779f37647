//! What receivers may safely show. Lawful plans of broadcasts make each slot safe for any number of receivers, which
//! may hear late or keep clocks of their own. No bound for this can be smaller.
//!
//! Lists of slots have the newest first.
#![tactic(auto)]

mod laws;

pub use laws::{
    often_is_enough, on_time, one_source, own_clocks, plan_laws, safe_by_padded_plans,
    safe_by_plans, safe_by_the_flag, safe_if_confirmed, the_dwell_is_the_least,
    the_flag_alone_is_a_long_dwell, what_is_kept_was_safe,
};
