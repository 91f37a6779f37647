//! The note of the fault that no test of the program can bring about: 2^32 reads or rows take hours.

use crate::{Run, print_notes};
use rds_cli::{End, Request, Task};
use rds_fields::{Dwell, TagGroup};
use rds_io::{LogFault, Told};
use rds_log::{LogNotes, SlotNotes};
use rds_script::ScriptNotes;
use std::test::Fail;

/// An input without an end is told, with warnings and without.
#[test]
fn too_long(rt: HostRuntime) -> Result<(), Fail> {
    for quiet in [false, true] {
        let request = Request {
            task: Task::Decode {
                window: None,
                says_why: false,
                keep: 0,
            },
            pi: "C201",
            rtplus: TagGroup::usual(),
            lose: "",
            dwell: Dwell::new(128).ok_or("dwell")?,
            file: None,
            quiet,
            json_notes: false,
        };
        let (log, slots, script) = (LogNotes::new(), SlotNotes::new(), ScriptNotes::new());
        let run = Run {
            request: &request,
            end: End::Fault(LogFault::TooLong),
            log: &log,
            slots: &slots,
            script: &script,
            reason: None,
        };
        let mut told = Vec::new(rt.alloc());
        print_notes(&run, &mut Told::new(&mut told));
        let wanted = b"rdsrt: fault too long: the input has 4294967296 reads or more\n";
        assert_eq!(rt; told.as_slice(), wanted.as_slice());
    }
    Ok(())
}
