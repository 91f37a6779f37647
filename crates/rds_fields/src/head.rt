//! The fields that all groups of a station share.
ghost use Rattle.std.specs.Prelude.{◌≡◌, ◌<◌, ◌/◌, false};

use rds_block::{Group, Place};

/// The fields of a group that belong to the station and not to a message (IEC 62106, group structure).
#[derive(Clone, Copy)]
pub struct Head {
    /// The programme identification (PI).
    pub pi: u16,
    /// The traffic programme flag.
    pub tp: bool,
    /// The programme type.
    pub pty: Place<32>,
}

impl Head {
    /// Makes the group of version A with this head, type code, low bits, block 3 and block 4.
    pub(crate) fn group_of(self, code: u8, low: u8, c: u16, d: u16) -> Group
        requires code { code < 32 }
        requires low { low < 32 }
        ensures pty { result.pty < 32 }
        ensures fields { result ≡ record {
          pi = self.pi;
          number = code / 2;
          version = false;
          tp = self.tp;
          pty = self.pty;
          low = low;
          c = c;
          d = d;
        } }
    {
        Group {
            pi: self.pi,
            number: Place::new(code >> 1).unwrap(),
            version: false,
            tp: self.tp,
            pty: self.pty,
            low: Place::new(low).unwrap(),
            c,
            d,
        }
    }
}
