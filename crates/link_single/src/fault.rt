//! Why there is no one module.

use std::alloc::{AllocError, AllocFailed};
use thiserror::Error;
use wasm_core::{EncodeError, WFault};

/// Why modules do not become one.
#[derive(Clone, Copy, Debug, PartialEq, Eq, Error)]
pub enum SingleFault {
    /// Bytes are no module of this compiler, or modules are not those of one program.
    #[error("a module was not written by this compiler")]
    NotOurs,
    /// A part of the one module is longer than the format allows.
    #[error("the program is too large for one module")]
    TooLarge,
    /// What was made is not valid.
    #[error("the one module is not valid")]
    NotValid,
    /// A request for memory was refused.
    #[error("no memory left (90)")]
    NoMemory,
}

impl From<AllocError> for SingleFault {
    ghost use Rattle.std.specs.Prelude.{◌≡◌};
    ghost use Rattle.link_single.specs.declared.fault.SingleFault.TheVariants.{NoMemory};

    ghost from_gives = { λ _ e. e ≡ NoMemory };

    fn from(_: AllocError) -> SingleFault {
        SingleFault::NoMemory
    }
}

impl<T: Drop> From<AllocFailed<T>> for SingleFault {
    ghost use Rattle.std.specs.Prelude.{◌≡◌};
    ghost use Rattle.link_single.specs.declared.fault.SingleFault.TheVariants.{NoMemory};

    ghost from_gives = { λ _ e. e ≡ NoMemory };

    fn from(_: AllocFailed<T>) -> SingleFault {
        SingleFault::NoMemory
    }
}

/// Why bytes were not read.
pub fn unread(fault: WFault) -> SingleFault {
    match fault {
        WFault::NoMemory => SingleFault::NoMemory,
        _ => SingleFault::NotOurs,
    }
}

/// Why a module was not validated.
pub fn invalid(fault: WFault) -> SingleFault {
    match fault {
        WFault::NoMemory => SingleFault::NoMemory,
        _ => SingleFault::NotValid,
    }
}

/// Why a module was not written.
pub fn unwritten(error: EncodeError) -> SingleFault {
    match error {
        EncodeError::NoMemory => SingleFault::NoMemory,
        EncodeError::NoEncoding => SingleFault::TooLarge,
    }
}
