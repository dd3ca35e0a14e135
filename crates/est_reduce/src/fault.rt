//! Why a flat module has no kernel.
use est_kernel::kernel::LoadFault;
use est_kernel::limits::Limit;
use std::alloc::AllocError;

/// Why a flat module has no kernel.
#[derive(Clone, Copy, PartialEq, Eq, Debug)]
pub enum ReduceFault {
    /// Its kernel term passes a limit. The first one is named.
    TooLarge(Limit),
    /// The body of a loop can end in the instant in which it begins.
    InstantLoop,
    /// Memory was refused.
    Memory,
}

impl From<LoadFault> for ReduceFault {
    ghost use Rattle.std.specs.Prelude.{◌≡◌};
    ghost use Rattle.est_reduce.specs.Faults.{fault_of};

    ghost from_gives = { λ fault r. r ≡ fault_of fault };

    fn from(fault: LoadFault) -> ReduceFault {
        match fault {
            LoadFault::TooLarge(limit) => ReduceFault::TooLarge(limit),
            LoadFault::InstantLoop => ReduceFault::InstantLoop,
        }
    }
}

impl From<AllocError> for ReduceFault {
    ghost use Rattle.std.specs.Prelude.{◌≡◌};
    ghost use Rattle.est_reduce.specs.declared.fault.ReduceFault.TheVariants.{Memory};

    ghost from_gives = { λ error r. r ≡ Memory };

    fn from(error: AllocError) -> ReduceFault {
        ReduceFault::Memory
    }
}
