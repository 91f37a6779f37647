//! The rules that a text, a name or a slot breaks.
ghost use Rattle.std.specs.Prelude.{◌≡◌, ◌↔◌, IsTrue, Some, None};
ghost use Rattle.rds_audit.specs.Listing.{first_of, has_fault, none_broken, not_before};
ghost use Rattle.rds_audit.specs.Stored.{AreBits, faults_stored};

use crate::AuditFault;
use crate::stored::StoredFaults;

/// The faults in the order of a list.
pub const FAULTS: [AuditFault; 5] = [
    AuditFault::Changed,
    AuditFault::EarlyFlag,
    AuditFault::NotOneText,
    AuditFault::EarlyTag,
    AuditFault::TagOutside,
];

/// The faults that a slot adds to the list of a log, or those of a text or a name so far (this project's own rules). In
/// a list they stand in the order of [`FAULTS`].
#[derive(Clone, Copy, Debug, Default, PartialEq, Eq)]
pub struct FaultSet {
    pub changed: bool,
    pub early_flag: bool,
    pub not_one_text: bool,
    pub early_tag: bool,
    pub tag_outside: bool,
}

impl FaultSet {
    /// Makes the value without a fault.
    pub fn none() -> FaultSet
        ensures { result ≡ none_broken }
    {
        FaultSet {
            changed: false,
            early_flag: false,
            not_one_text: false,
            early_tag: false,
            tag_outside: false,
        }
    }

    /// Returns whether this fault is there.
    pub fn has(self, fault: AuditFault) -> bool
        ensures { result ≡ has_fault self fault }
    {
        match fault {
            AuditFault::Changed => self.changed,
            AuditFault::EarlyFlag => self.early_flag,
            AuditFault::NotOneText => self.not_one_text,
            AuditFault::EarlyTag => self.early_tag,
            AuditFault::TagOutside => self.tag_outside,
        }
    }

    /// Returns whether there is no fault.
    pub fn is_empty(self) -> bool
        ensures { IsTrue result ↔ (self ≡ none_broken) }
    {
        !(self.changed | self.early_flag | self.not_one_text | self.early_tag | self.tag_outside)
    }

    /// Returns the first fault in the order of a list, if there is one.
    pub fn first(self) -> Option<AuditFault>
        ensures { result ≡ first_of self }
    {
        if self.changed {
            Some(AuditFault::Changed)
        } else if self.early_flag {
            Some(AuditFault::EarlyFlag)
        } else if self.not_one_text {
            Some(AuditFault::NotOneText)
        } else if self.early_tag {
            Some(AuditFault::EarlyTag)
        } else if self.tag_outside {
            Some(AuditFault::TagOutside)
        } else {
            None
        }
    }

    /// Returns the faults that were not there before.
    pub(crate) fn not_in(self, before: FaultSet) -> FaultSet
        ensures { result ≡ not_before before self }
    {
        FaultSet {
            changed: self.changed && !before.changed,
            early_flag: self.early_flag && !before.early_flag,
            not_one_text: self.not_one_text && !before.not_one_text,
            early_tag: self.early_tag && !before.early_tag,
            tag_outside: self.tag_outside && !before.tag_outside,
        }
    }
}

impl StoredFaults {
    /// Makes the value without a fault.
    pub(crate) fn none() -> StoredFaults
        ensures { faults_stored result ≡ none_broken }
    {
        StoredFaults {
            changed: 0,
            early_flag: 0,
            not_one_text: 0,
            early_tag: 0,
            tag_outside: 0,
        }
    }

    /// Stores the faults as bits.
    pub fn of(faults: FaultSet) -> StoredFaults
        ensures same { faults_stored result ≡ faults }
        ensures bits { AreBits result }
    {
        StoredFaults {
            changed: u8::from(faults.changed),
            early_flag: u8::from(faults.early_flag),
            not_one_text: u8::from(faults.not_one_text),
            early_tag: u8::from(faults.early_tag),
            tag_outside: u8::from(faults.tag_outside),
        }
    }

    /// Returns the faults.
    pub(crate) fn get(&self) -> FaultSet
        ensures { result ≡ faults_stored self.now }
    {
        FaultSet {
            changed: self.changed != 0,
            early_flag: self.early_flag != 0,
            not_one_text: self.not_one_text != 0,
            early_tag: self.early_tag != 0,
            tag_outside: self.tag_outside != 0,
        }
    }
}
