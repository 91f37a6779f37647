//! The parts of an audit, as plain numbers: a program may store them, and each slot changes them in place. A bit is 0
//! for no and any other number for yes.
ghost use Rattle.std.specs.Prelude.{◌≡◌};
ghost use Rattle.rds_audit.specs.Stored.{code_of_fault, fault_stored};

use crate::AuditFault;

/// The bytes that were sent at one address, if any.
#[repr(C)]
#[derive(Clone, Copy)]
pub struct StoredCell {
    pub bytes: [u8; 4],
    pub is_sent: u8,
}

/// The current reign of a service, and the ages of it and of the one before, in slots.
#[repr(C)]
#[derive(Clone, Copy)]
pub struct StoredReigns {
    /// The numbers of bytes that its value can have, from 0 to 127, the first 64 in the first number: bit n for n bytes.
    pub lengths: [u64; 2],
    pub since_last: u32,
    pub since_before: u32,
    pub since_start: u32,
    pub cells: [StoredCell; 16],
    pub is_open: u8,
    pub flag: u8,
    /// The greatest end of a tag, in bytes.
    pub tags_end: u8,
    /// Whether the flag turned from each reign to the next one.
    pub turns: u8,
}

/// Which rules the current text or name breaks: 0 for no and any other number for yes.
#[repr(C)]
#[derive(Clone, Copy)]
pub struct StoredFaults {
    pub changed: u8,
    pub early_flag: u8,
    pub not_one_text: u8,
    pub early_tag: u8,
    pub tag_outside: u8,
}

/// The current text or name of a service, the ages of it and of the one before, and what a person asks about it.
#[repr(C)]
#[derive(Clone, Copy)]
pub struct StoredSpans {
    /// The number of texts or names so far. It stops at 2^64 - 1.
    pub count: u64,
    /// How many slots the first segment of the current one came after the first slot in which that can have started, at
    /// most M + K. No contract speaks of it.
    pub waited: u32,
    /// How many slots the first segment of the current one came after the last slot of the one before the previous one,
    /// at most 2 (M + K). No contract speaks of it.
    pub apart: u32,
    pub reigns: StoredReigns,
    pub broken: StoredFaults,
    /// The number of complete texts before the current one. It stops at 2^32 - 1. No contract speaks of it.
    pub complete: u32,
    /// The number of segments that were new in their text or name when they came, modulo 2^32. No contract speaks of it.
    pub puts: u32,
}

impl AuditFault {
    /// Returns the code of the fault, the same as in the C library. 0 if there is none.
    pub fn code(fault: Option<AuditFault>) -> u8
        ensures value { result ≡ code_of_fault fault }
        ensures back { fault_stored result ≡ fault }
    {
        match fault {
            None => 0,
            Some(AuditFault::Changed) => 17,
            Some(AuditFault::NotOneText) => 18,
            Some(AuditFault::EarlyFlag) => 19,
            Some(AuditFault::EarlyTag) => 20,
            Some(AuditFault::TagOutside) => 21,
        }
    }

    /// Returns the fault with this code. `None` for 0.
    pub(crate) fn of_code(code: u8) -> Option<AuditFault>
        ensures { result ≡ fault_stored code }
    {
        match code {
            0 => None,
            17 => Some(AuditFault::Changed),
            18 => Some(AuditFault::NotOneText),
            19 => Some(AuditFault::EarlyFlag),
            20 => Some(AuditFault::EarlyTag),
            _ => Some(AuditFault::TagOutside),
        }
    }
}
