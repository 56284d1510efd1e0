//! Conversions of allocation failures and read faults into `Cause` and `LoadFault`.

ghost use Rattle.std.specs.Prelude.{◌≡◌};
ghost use Rattle.dwarf_bytes.specs.Words.{cause_of};
ghost use Rattle.dwarf_bytes.specs.Refusals.{memory_fault};
ghost use Rattle.dwarf_bytes.specs.declared.fault.Cause.TheVariants as causes;

use crate::fault::{Cause, LoadFault, MEMORY_FAULT, ReadFault};
use std::alloc::{AllocError, AllocFailed};

impl From<AllocError> for Cause {
    ghost from_gives = { λ _ cause. cause ≡ causes.Memory };

    fn from(_: AllocError) -> Cause {
        Cause::Memory
    }
}

impl<T: Drop> From<AllocFailed<T>> for Cause {
    ghost from_gives = { λ _ cause. cause ≡ causes.Memory };

    fn from(_: AllocFailed<T>) -> Cause {
        Cause::Memory
    }
}

impl From<ReadFault> for Cause {
    ghost from_gives = { λ fault cause. cause ≡ cause_of fault };

    fn from(fault: ReadFault) -> Cause {
        match fault {
            ReadFault::Short => Cause::Short,
            ReadFault::Leb => Cause::Leb,
            ReadFault::Unterminated => Cause::String,
            ReadFault::Length => Cause::Length,
        }
    }
}

impl From<AllocError> for LoadFault {
    ghost from_gives = { λ _ fault. fault ≡ memory_fault };

    fn from(_: AllocError) -> LoadFault {
        MEMORY_FAULT
    }
}

impl<T: Drop> From<AllocFailed<T>> for LoadFault {
    ghost from_gives = { λ _ fault. fault ≡ memory_fault };

    fn from(_: AllocFailed<T>) -> LoadFault {
        MEMORY_FAULT
    }
}
