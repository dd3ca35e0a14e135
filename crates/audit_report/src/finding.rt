//! What an audit finds.
ghost use Rattle.std.specs.Prelude.{Some};

use rbac_policy::objects::SlotNumber;
use std::fmt;

/// The first thing that is wrong in journals. Places are counted from 1.
#[derive(Clone, Copy, PartialEq, Eq, Debug)]
pub enum Finding {
    /// The entry at this place of the policy list is not the opening entry that belongs there; or
    /// it is not the one that the policy step gives for its session and command; or the list had no
    /// room for it. A list that ends too early is wrong just after its last entry.
    Policy {
        place: u64,
    },
    /// The version of this entry of the slot is under that of the entry before it, or over the
    /// length of the policy list.
    Version {
        slot: SlotNumber,
        place: u64,
    },
    /// The command of this entry would have been refused at its version, with this number.
    Refused {
        slot: SlotNumber,
        place: u64,
        code: u8,
    },
    /// The inputs or outputs that this step keeps aren't those of its reaction.
    Reaction {
        slot: SlotNumber,
        place: u64,
    },
    /// Memory was refused to the audit.
    Memory,
}

impl fmt::Display for Finding {
    ghost use Rattle.std.specs.Prelude.{Some};
    ghost use Rattle.audit_report.specs.ReportText.{finding_text};

    ghost output = { λ finding. Some (finding_text finding) };

    fn fmt<W: fmt::Write>(&self, f: &mut fmt::Formatter<W>) -> fmt::Result {
        match self {
            Finding::Policy { place } => write!(f, "policy {place}"),
            Finding::Version { slot, place } => write!(f, "version {} {place}", slot.number()),
            Finding::Refused { slot, place, code } => {
                write!(f, "refused {} {place} {code}", slot.number())
            }
            Finding::Reaction { slot, place } => write!(f, "reaction {} {place}", slot.number()),
            Finding::Memory => write!(f, "memory"),
        }
    }
}

impl From<std::alloc::AllocError> for Finding {
    ghost use Rattle.std.specs.Prelude.{◌≡◌};
    ghost use Rattle.audit_report.specs.declared.finding.Finding.TheVariants.{Memory};

    ghost from_gives = { λ error finding. finding ≡ Memory };

    fn from(_error: std::alloc::AllocError) -> Finding {
        Finding::Memory
    }
}
