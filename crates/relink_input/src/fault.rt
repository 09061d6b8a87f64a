//! Why an input is not exchanged.

use std::alloc::{AllocError, AllocFailed};
use thiserror::Error;
use wasm_core::{EncodeError, WFault};

/// Why an input is not exchanged.
#[derive(Clone, Copy, Debug, PartialEq, Eq, Error)]
pub enum RelinkFault {
    /// The program does not import Input.
    #[error("the program reads no input")]
    ReadsNone,
    /// Bytes are no module of this compiler.
    #[error("a module was not written by this compiler")]
    NotOurs,
    /// The memory of the program has no room for the input.
    #[error("the program's memory has no room for this input: build it with a larger --memory")]
    NoRoom,
    /// A request for memory was refused.
    #[error("no memory left (90)")]
    NoMemory,
}

impl From<AllocError> for RelinkFault {
    ghost use Rattle.std.specs.Prelude.{◌≡◌};
    ghost use Rattle.relink_input.specs.declared.fault.RelinkFault.TheVariants.{NoMemory};

    ghost from_gives = { λ _ e. e ≡ NoMemory };

    fn from(_: AllocError) -> RelinkFault {
        RelinkFault::NoMemory
    }
}

impl<T: Drop> From<AllocFailed<T>> for RelinkFault {
    ghost use Rattle.std.specs.Prelude.{◌≡◌};
    ghost use Rattle.relink_input.specs.declared.fault.RelinkFault.TheVariants.{NoMemory};

    ghost from_gives = { λ _ e. e ≡ NoMemory };

    fn from(_: AllocFailed<T>) -> RelinkFault {
        RelinkFault::NoMemory
    }
}

/// Why bytes were not read.
pub fn unread(fault: WFault) -> RelinkFault {
    match fault {
        WFault::NoMemory => RelinkFault::NoMemory,
        _ => RelinkFault::NotOurs,
    }
}

/// Why link was not written anew.
pub fn unwritten(error: EncodeError) -> RelinkFault {
    match error {
        EncodeError::NoMemory => RelinkFault::NoMemory,
        EncodeError::NoEncoding => RelinkFault::NotOurs,
    }
}
