//! The audit of a log: an `Audit` takes the groups of some encoder, slot by slot. A log passes exactly if it has plans
//! of broadcasts that are lawful and dense. Then no receiver of that log that keeps to M and K shows a mix.
#![tactic(auto)]

mod account;
mod ages;
mod audit;
mod audit_laws;
mod audited;
mod content;
mod fault_set;
mod judge;
mod log_start;
mod reigns;
mod spans;
mod stored;
mod text_form;

pub use account::Account;
pub use audit::{Audit, AuditFault};
pub use audit_laws::{
    broadcasts_are_the_reigns, passes_by_plans, passes_without_a_fault, the_list_judges_the_reigns,
    what_passes_as_a_recording_is_safe, what_passes_is_safe, what_passes_is_safe_by_the_flag,
};
pub use content::is_complete_text;
pub use fault_set::{FAULTS, FaultSet};
pub use log_start::LogStart;
pub use stored::{StoredCell, StoredFaults, StoredReigns, StoredSpans};
pub use text_form::TextForm;
