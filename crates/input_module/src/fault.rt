//! Why an input has no module.

use std::alloc::AllocError;
use thiserror::Error;

/// Why an input has no module.
#[derive(Clone, Copy, Debug, PartialEq, Eq, Error)]
pub enum InputFault {
    /// The text of its module would have more than `MAX_TEXT` bytes.
    #[error("it is too long: its module's text may have 1048576 bytes, which is enough for any 500000 bytes")]
    TooLong,
    /// A request for memory was refused.
    #[error("no memory left (90)")]
    NoMemory,
}

impl From<AllocError> for InputFault {
    ghost use Rattle.std.specs.Prelude.{◌≡◌};
    ghost use Rattle.input_module.specs.declared.fault.InputFault.TheVariants.{NoMemory};

    ghost from_gives = { λ _ e. e ≡ NoMemory };

    fn from(_: AllocError) -> InputFault {
        InputFault::NoMemory
    }
}
