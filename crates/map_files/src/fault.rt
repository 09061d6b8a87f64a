//! Why a map is not read.

use std::alloc::{AllocError, AllocFailed};
use thiserror::Error;

/// Why a text is no map.
#[derive(Clone, Copy, Debug, PartialEq, Eq, Error)]
pub enum MapFault {
    /// A request for memory was refused.
    #[error("no memory left (90)")]
    NoMemory,
    /// Its form is that of another version.
    #[error("it is a map of another version")]
    Version,
    /// It is not as it was written.
    #[error("it was cut or altered")]
    Altered,
}

impl From<AllocError> for MapFault {
    fn from(_: AllocError) -> MapFault {
        MapFault::NoMemory
    }
}

impl<T: Drop> From<AllocFailed<T>> for MapFault {
    fn from(_: AllocFailed<T>) -> MapFault {
        MapFault::NoMemory
    }
}
