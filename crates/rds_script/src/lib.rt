//! Scripts of a station. [`simulate`] and [`encode`] play a script and write the station's groups.
//!
//! The model of a script is the list of its records. They are rows, and rows write one output (`ScriptWrites`). Only
//! `simulate` and `encode` write; the other functions turn bytes into rows, and rows into output. Memory is taken for a
//! record, for the world, and for what was on air.
#![tactic(auto)]

mod airing;
mod airs;
mod answer_lines;
mod causes;
mod compared;
mod failure_flag;
mod form;
mod laws;
mod line_ends;
mod notes;
mod play;
mod player;
mod records;
mod row;
mod row_cause;
mod watched;

pub use form::Form;
pub use laws::{rows_write_one_output, script_writes_one_output};
pub use notes::{BadRow, EarlySet, ScriptNotes, SetKind};
pub use play::{
    MOST_RECORDS, Playing, encode, encode_within, play_script, simulate, simulate_within,
};
pub use rds_io::LogFault;
pub use row_cause::{ArgumentCause, ReceiverCause, ReceptionsCause, RowCause, TagNumber};
