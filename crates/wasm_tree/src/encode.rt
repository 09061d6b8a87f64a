//! Why a module gets no bytes.

ghost use Rattle.std.specs.Prelude.{◌≡◌};
ghost use Rattle.wasm_tree.specs.declared.encode.EncodeError.TheVariants.{NoMemory};

use std::alloc::{AllocError, AllocFailed};
use thiserror::Error;

/// Why no bytes were made.
#[derive(Clone, Copy, Debug, PartialEq, Eq, Error)]
pub enum EncodeError {
    /// A request for memory was refused.
    #[error("out of memory")]
    NoMemory,
    /// There is no encoding: a number has no place in its width, a vector or a part is too long, blocks nest too deep, or a
    /// name is not UTF-8.
    #[error("too large to encode")]
    NoEncoding,
}

impl From<AllocError> for EncodeError {
    ghost from_gives = { λ _ e. e ≡ NoMemory };

    fn from(_: AllocError) -> EncodeError {
        EncodeError::NoMemory
    }
}

impl<T: Drop> From<AllocFailed<T>> for EncodeError {
    ghost from_gives = { λ _ e. e ≡ NoMemory };

    fn from(_: AllocFailed<T>) -> EncodeError {
        EncodeError::NoMemory
    }
}
