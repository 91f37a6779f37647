//! Which segments a receiver holds, as a plain struct.
ghost use Rattle.std.specs.Prelude.{◌≡◌, ◌<◌};
ghost use Rattle.rds_ffi.specs.Held.{IsHeld};
ghost use Rattle.rds_receiver.specs.ReceiverAt.{WhereReceiverStands};

use rds_receiver::{Receiver, StoredSegments};

/// The held segments of a text or a name. Bit a of `held` is 1 if segment a is held. `age` is the number of slots since
/// the newest one came, or the dwell if none is held.
#[repr(C)]
#[derive(Clone, Copy)]
pub struct RdsrtSegments {
    pub held: u16,
    pub age: u16,
}

/// The held segments of the text and of the name.
#[repr(C)]
#[derive(Clone, Copy)]
pub struct RdsrtHeld {
    pub text: RdsrtSegments,
    pub name: RdsrtSegments,
}

/// The bits of the two segments of a name.
const NAME_SEGMENTS: u16 = 0b11;

/// Writes which segments of what counts the receiver holds. Whatever the bytes of the receiver are, no bit of the name
/// is set that stands for no segment of a name.
#[unsafe(no_mangle)]
pub extern "C" fn rdsrt_receiver_held(receiver: &Receiver, held: &mut RdsrtHeld)
    ensures held { WhereReceiverStands receiver.now (λ t input. IsHeld t input held.new) }
    ensures name { held.new.name.held < 4 }
{
    let text = held_in(&receiver.display.text, receiver.display.text_age());
    let name = held_in(&receiver.display.name, receiver.display.name_age());
    *held = RdsrtHeld {
        text,
        name: RdsrtSegments {
            held: name.held & NAME_SEGMENTS,
            age: name.age,
        },
    };
}

/// Returns the numbers of held segments of this age.
fn held_in(segments: &StoredSegments, age: u16) -> RdsrtSegments
    ensures { result ≡ record { held = segments.now.mask; age = age } }
{
    RdsrtSegments {
        held: segments.mask,
        age,
    }
}
