//! A segment as a receiver or an audit takes it: flag, address and bytes as one value.
ghost use Rattle.std.specs.Prelude.{◌≡◌, ◌<◌};

use rds_block::Place;

/// Four characters of a text or name, from `4 * address` on, and the A/B flag (IEC 62106, groups 2A and 10A).
#[derive(Clone, Copy)]
pub struct Fragment {
    pub flag: bool,
    pub address: u8,
    pub bytes: [u8; 4],
}

impl Fragment {
    /// Makes the fragment of a message with these fields.
    #[inline(always)]
    pub fn new<const N: u8>(flag: bool, address: Place<N>, bytes: [u8; 4]) -> Fragment
        ensures place { result ≡ record { flag = flag; address = address.entry; bytes = bytes } }
        ensures below { result.address < N }
    {
        Fragment {
            flag,
            address: address.get(),
            bytes,
        }
    }
}
