// Why a row could not be read. The conversions are written out, since derived ones say nothing of the fault they make.
ghost use Rattle.std.specs.Prelude.{◌≡◌};
ghost use Rattle.vectors.specs.Faults.{fault_of};
ghost use Rattle.vectors.specs.declared.fault.Fault.TheVariants.{Malformed, Memory};

use hexadecimal::HexFault;
use std::alloc::{AllocError, AllocFailed};
use std::num::{ParseIntError, TryFromIntError};
use std::str::Utf8Error;

#[derive(Clone, Copy, Debug, PartialEq, Eq)]
pub enum Fault {
    // the row is not written as rows are
    Malformed,
    Memory,
}

impl From<AllocError> for Fault {
    ghost from_gives = { λ _ fault. fault ≡ Memory };

    fn from(_e: AllocError) -> Fault {
        Fault::Memory
    }
}

impl<T: Drop> From<AllocFailed<T>> for Fault {
    ghost from_gives = { λ _ fault. fault ≡ Memory };

    fn from(_e: AllocFailed<T>) -> Fault {
        Fault::Memory
    }
}

impl From<HexFault> for Fault {
    ghost from_gives = { λ error fault. fault ≡ fault_of error };

    fn from(error: HexFault) -> Fault {
        match error {
            HexFault::Digits => Fault::Malformed,
            HexFault::Memory => Fault::Memory,
        }
    }
}

impl From<Utf8Error> for Fault {
    ghost from_gives = { λ _ fault. fault ≡ Malformed };

    fn from(_e: Utf8Error) -> Fault {
        Fault::Malformed
    }
}

impl From<ParseIntError> for Fault {
    ghost from_gives = { λ _ fault. fault ≡ Malformed };

    fn from(_e: ParseIntError) -> Fault {
        Fault::Malformed
    }
}

impl From<TryFromIntError> for Fault {
    ghost from_gives = { λ _ fault. fault ≡ Malformed };

    fn from(_e: TryFromIntError) -> Fault {
        Fault::Malformed
    }
}
