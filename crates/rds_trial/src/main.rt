//! Runs the headline. It encodes the script on standard input with M = 6 and K = 2, and prints what two receivers of its
//! log display. The first one loses the slots 22 to 44. The second one loses each third slot, and gets the others two
//! slots late. The contract of [`trial`] says that both displays are safe in each slot.
//!
//! ```text
//! rds_trial < examples/three.csv
//! ```
#![tactic(auto)]

use rds_block::Place;
use rds_fields::{Dwell, Head, Late};
use rds_wire::trial;
use std::alloc::{AllocError, Global};
use std::io::{self, Write};
use std::process::ExitCode;

fn main(rt: HostRuntime) -> io::Result<ExitCode> {
    let mut script = Vec::new(rt.alloc());
    let mut rows = 0usize;
    for line in rt.lines(rt.alloc()) {
        script.extend_from_slice(line?.as_str().as_bytes())?;
        script.push(b'\n')?;
        rows = rows.saturating_add(1);
    }
    let (Some(dwell), Some(late), Some(pty)) = (Dwell::new(6), Late::new(2), Place::new(10)) else {
        return Ok(ExitCode::FAILURE);
    };
    let head = Head {
        pi: 0xC201,
        tp: false,
        pty,
    };
    let one = in_a_tunnel(rt.alloc(), rows)?;
    let other = two_slots_late(rt.alloc(), rows)?;
    let Ok(tried) = trial(
        rt.alloc(),
        script.as_slice(),
        head,
        dwell,
        late,
        one.as_slice(),
        other.as_slice(),
    ) else {
        return Ok(ExitCode::FAILURE);
    };
    let mut screen = rt.stdout();
    screen.write_all(b"one receiver:\n")?;
    screen.write_all(tried.one.output.inner().as_slice())?;
    screen.write_all(b"the other receiver:\n")?;
    screen.write_all(tried.other.output.inner().as_slice())?;
    Ok(ExitCode::SUCCESS)
}

/// Returns the arrivals at a receiver that gets nothing in the slots 22 to 44.
fn in_a_tunnel(alloc: Global, slots: usize) -> Result<Vec<Option<usize>>, AllocError> {
    let mut arrivals = Vec::new(alloc);
    for slot in 0..slots {
        let is_lost = 22 <= slot && slot <= 44;
        arrivals.push(if is_lost { None } else { Some(slot) })?;
    }
    Ok(arrivals)
}

/// Returns the arrivals at a receiver that gets nothing in each third slot, and else what was sent two slots before.
fn two_slots_late(alloc: Global, slots: usize) -> Result<Vec<Option<usize>>, AllocError> {
    let mut arrivals = Vec::new(alloc);
    for slot in 0..slots {
        let is_lost = slot % 3 == 0;
        arrivals.push(if is_lost { None } else { slot.checked_sub(2) })?;
    }
    Ok(arrivals)
}
