//! Why a program ends early.

use anyhow::{Error, Result};
use std::alloc::{AllocError, AllocFailed};
use std::io;

/// Why a program ends before it does what its words ask for.
#[derive(Drop)]
pub enum Exit {
    /// It is reported why: the status.
    Reported(u8),
    /// Memory or a stream failed, and that is not reported yet.
    Failed(Error),
}

impl Exit {
    /// The status, or the error that is not reported yet.
    pub fn status(self) -> Result<u8> {
        match self {
            Exit::Reported(status) => Ok(status),
            Exit::Failed(error) => Err(error),
        }
    }
}

impl From<Error> for Exit {
    fn from(error: Error) -> Exit {
        Exit::Failed(error)
    }
}

impl From<io::Error> for Exit {
    fn from(error: io::Error) -> Exit {
        Exit::Failed(Error::from(error))
    }
}

impl From<AllocError> for Exit {
    fn from(error: AllocError) -> Exit {
        Exit::Failed(Error::from(error))
    }
}

impl<T: Drop> From<AllocFailed<T>> for Exit {
    fn from(error: AllocFailed<T>) -> Exit {
        Exit::Failed(Error::from(AllocError::from(error)))
    }
}
