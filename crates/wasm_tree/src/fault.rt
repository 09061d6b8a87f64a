//! Why bytes are no module, a module is refused, or modules cannot be linked.

ghost use Rattle.std.specs.Prelude.{◌≡◌};
ghost use Rattle.wasm_tree.specs.declared.fault.WFault.TheVariants.{NoMemory};

use std::alloc::{AllocError, AllocFailed};
use thiserror::Error;

/// A fault of a module. Each has a number, which the programs print.
#[derive(Clone, Copy, Debug, PartialEq, Eq, Error)]
pub enum WFault {
    /// 80: the bytes are not in the grammar of the binary format (Core 1.0, section 5).
    #[error("refusal 80")]
    Malformed,
    /// 81: the first byte that may not stand where it stands is in the place of an opcode, a section number or a value type.
    #[error("refusal 81")]
    OutsideProfile,
    /// 82: the module is not valid (Core 1.0, section 3).
    #[error("refusal 82")]
    Invalid,
    /// 83: no function to run, or an import that is missing or of another type (Core 1.0, section 4.5.4).
    #[error("refusal 83")]
    Unlinked,
    /// 84: a segment reaches outside its table or memory (Core 1.0, section 4.5.4).
    #[error("refusal 84")]
    SegmentOutside,
    /// 90: a request for memory was refused.
    #[error("refusal 90")]
    NoMemory,
}

impl From<AllocError> for WFault {
    ghost from_gives = { λ _ e. e ≡ NoMemory };

    fn from(_: AllocError) -> WFault {
        WFault::NoMemory
    }
}

impl<T: Drop> From<AllocFailed<T>> for WFault {
    ghost from_gives = { λ _ e. e ≡ NoMemory };

    fn from(_: AllocFailed<T>) -> WFault {
        WFault::NoMemory
    }
}
