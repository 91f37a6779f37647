//! The headline on a call: a script, and what two receivers of its log display.
ghost use Rattle.std.specs.Prelude.{IfOk, [], ◌≡◌, ◌+◌, length};
ghost use Rattle.rds_io.specs.Told.{failures_of, inner_of};
ghost use Rattle.rds_log.specs.LogWrites.{LogWrites, plain};
ghost use Rattle.rds_script.specs.Play.{ScriptWrites, with_form};
ghost use Rattle.rds_script.specs.declared.form.Form.TheVariants as forms;
ghost use Rattle.rds_wire.specs.Headline.{Reaches, slots};
ghost use Rattle.rds_wire.specs.Trial.{IsSafeTrial};
ghost use Rattle.rds_wire.specs.Wire.{station_of};

use crate::arrivals::received;
use crate::laws::the_headline;
use rds_fields::{Dwell, Head, Late};
use rds_io::{LogFault, Told};
use rds_log::decode;
use rds_script::encode;
use rds_world::{Config, ReceiverKind};
use std::alloc::Global;

/// A receiver of a log: what it got, and what `decode` wrote for it.
#[derive(Drop)]
pub struct Receiver {
    pub received: Vec<u8>,
    pub output: Told<Vec<u8>>,
}

/// The log that `encode` wrote of a script, and two receivers of it.
#[derive(Drop)]
pub struct Tried {
    pub log: Told<Vec<u8>>,
    pub one: Receiver,
    pub other: Receiver,
}

/// Encodes a script for a station with this head, M and K, and decodes what two receivers get of its log. What they
/// display is safe in each slot.
///
/// `one` and `other` have an arrival for each slot of a receiver: it gets what the log has in the slot with this number,
/// or nothing. An arrival counts only if its slot is in the log, at most K slots ago, and after those that came before. All
/// others are lost.
///
/// # Errors
///
/// The first fault of the script, or no memory.
pub fn trial(
    alloc: Global,
    script: &[u8],
    head: Head,
    dwell: Dwell,
    late: Late,
    one: &[Option<usize>],
    other: &[Option<usize>],
) -> Result<Tried, LogFault>
    ensures log { IfOk result (λ trial. ScriptWrites (with_form (forms.Log 11) (station_of head dwell late)) script.now
        (inner_of trial.log).items) }
    ensures one { IfOk result (λ trial. Reaches head.pi late (inner_of trial.log).items trial.one.received.items) }
    ensures other { IfOk result (λ trial. Reaches head.pi late (inner_of trial.log).items trial.other.received.items) }
    ensures safe { IfOk result (λ trial. IsSafeTrial (dwell + late) (length one.now) (length other.now) script.now
        (inner_of trial.one.output).items (inner_of trial.other.output).items) }
{
    the_headline();
    let pi = head.pi;
    // Prover: a copied value has a name of its own (PROVER.md, "Workarounds").
    let (first, second) = (dwell, dwell);
    let (early, later) = (late, late);
    let log = encoded(alloc, script, head, dwell, late)?;
    let one = receiver_of(alloc, log.inner(), one, pi, first, early)?;
    let other = receiver_of(alloc, log.inner(), other, pi, second, later)?;
    Ok(Tried { log, one, other })
}

/// Returns the log of a script.
fn encoded(
    alloc: Global,
    script: &[u8],
    head: Head,
    dwell: Dwell,
    late: Late,
) -> Result<Told<Vec<u8>>, LogFault>
    ensures writes { IfOk result (λ log.
        ScriptWrites (with_form (forms.Log 11) (station_of head dwell late)) script.now (inner_of log).items) }
{
    let config = Config {
        head,
        dwell,
        late,
        kind: ReceiverKind::with_dwell(),
    };
    let mut log = empty(alloc);
    encode(alloc, Told::new(script), &mut log, config)?;
    Ok(log)
}

/// Returns the receiver of a log with these arrivals.
fn receiver_of(
    alloc: Global,
    log: &[u8],
    arrivals: &[Option<usize>],
    pi: u16,
    dwell: Dwell,
    late: Late,
) -> Result<Receiver, LogFault>
    ensures reaches { IfOk result (λ it. Reaches pi late log.now it.received.items) }
    ensures slots { IfOk result (λ it. length (slots it.received.items) ≡ length arrivals.now) }
    ensures decodes { IfOk result (λ it. LogWrites (plain pi dwell) it.received.items (inner_of it.output).items) }
{
    let Ok(received) = received(alloc, log, late, arrivals) else {
        return Err(LogFault::Memory);
    };
    let output = decoded(alloc, received.as_slice(), pi, dwell)?;
    Ok(Receiver { received, output })
}

/// Returns what a receiver of this log displays.
fn decoded(alloc: Global, received: &[u8], pi: u16, dwell: Dwell) -> Result<Told<Vec<u8>>, LogFault>
    ensures writes { IfOk result (λ output. LogWrites (plain pi dwell) received.now (inner_of output).items) }
{
    let mut output = empty(alloc);
    decode(&mut Told::new(received), &mut output, pi, dwell)?;
    Ok(output)
}

/// Makes a writer into memory, with nothing written.
fn empty(alloc: Global) -> Told<Vec<u8>>
    ensures empty { (inner_of result).items ≡ [] }
    ensures unfailed { failures_of result ≡ 0 }
{
    Told::new(Vec::new(alloc))
}
