//! What a run met.

use rds_cli::End;
use rds_log::{LogNotes, SlotNotes};
use rds_script::ScriptNotes;

/// What a run met, for its notes (this project's own rule). No contract speaks of it.
#[derive(Drop)]
pub struct Report {
    pub end: End,
    /// Notes on the log of `decode`, `audit` and `witness`.
    pub log: LogNotes,
    /// Notes on the log of `slots`.
    pub slots: SlotNotes,
    /// Notes on the script of `encode` and `sim`.
    pub script: ScriptNotes,
}

impl Report {
    /// Returns the report before a run.
    pub fn new() -> Report {
        Report {
            end: End::NotRun,
            log: LogNotes::new(),
            slots: SlotNotes::new(),
            script: ScriptNotes::new(),
        }
    }
}
