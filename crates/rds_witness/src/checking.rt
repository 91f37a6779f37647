//! A receiver before the slot in which it may show a mix, and the slots to look at then.
ghost use Rattle.std.specs.Prelude.{◌≡◌, ◌<◌, ◌≤◌, ◌+◌, Option, length};
ghost use Rattle.rds_receiver.specs.Receipts.{tuned};
ghost use Rattle.rds_receiver.specs.ReceiverAt.{ReceiverAt};
ghost use Rattle.rds_witness.specs.Lost.{got};
ghost use Rattle.rds_witness.specs.Mix.{until};

use crate::burst::{Burst, received};
use rds_block::Blocks;
use rds_fields::Dwell;
use rds_receiver::Receiver;

/// Returns the receiver before a slot, after all earlier slots except the lost ones.
pub(crate) fn receiver_before(
    log: &[Option<Blocks>],
    pi: u16,
    dwell: Dwell,
    lost: &[Burst],
    slot: usize,
) -> Receiver
    requires { slot ≤ length log.now }
    ensures { ReceiverAt (tuned pi dwell) result (got lost.now log.now slot) }
{
    let mut receiver = Receiver::new(pi, dwell);
    for n in 0..slot {
        receiver.slot_blocks(received(log, lost, n));
    }
    receiver
}

/// Returns the number of slots up to `ahead` after the slot, or the length of the log if that is less.
pub(crate) fn slots_until(log: &[Option<Blocks>], ahead: Dwell, slot: usize) -> usize
    requires { slot < length log.now }
    ensures value { result ≡ until ahead log.now slot }
    ensures within { result ≤ length log.now }
{
    let slots = usize::from(ahead.get());
    if slots <= log.len() - slot {
        slot + slots
    } else {
        log.len()
    }
}
