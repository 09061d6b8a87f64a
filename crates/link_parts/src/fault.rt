//! Why modules are not linked.

ghost use Rattle.std.specs.Prelude.{◌≡◌};

use std::alloc::{AllocError, AllocFailed};
use thiserror::Error;

/// Why a text is not what link has to know of a module.
#[derive(Clone, Copy, Debug, PartialEq, Eq, Error)]
pub enum PartFault {
    /// A request for memory was refused.
    #[error("no memory left (90)")]
    NoMemory,
    /// It was written by another version.
    #[error("it was written by another version of m2")]
    Version,
    /// It is not as it was written.
    #[error("it was cut or altered")]
    Altered,
}

impl From<AllocError> for PartFault {
    fn from(_: AllocError) -> PartFault {
        PartFault::NoMemory
    }
}

impl<T: Drop> From<AllocFailed<T>> for PartFault {
    fn from(_: AllocFailed<T>) -> PartFault {
        PartFault::NoMemory
    }
}

/// Why modules do not make a program. Modules go by their numbers among those that were given.
#[derive(Debug, Drop, Error)]
pub enum LinkFault {
    /// A request for memory was refused.
    #[error("no memory left (90)")]
    NoMemory,
    /// The first module is no program module.
    #[error("it is no program module")]
    NoProgram,
    /// This module is a program module, and is imported.
    #[error("it is a program module")]
    Program(usize),
    /// Two modules were compiled with different definitions of the module of this name.
    #[error("they were compiled with different definitions of {2}")]
    Interfaces(usize, usize, String),
    /// The imports have no order: the number of the rule that is broken.
    #[error("refusal {0}")]
    Imports(u32),
    /// 61: they need so many pages of 65536 bytes.
    #[error("they need {0} pages")]
    Pages(u64),
}

impl From<AllocError> for LinkFault {
    ghost use Rattle.link_parts.specs.declared.fault.LinkFault.TheVariants.{NoMemory};

    ghost from_gives = { λ _ e. e ≡ NoMemory };

    fn from(_: AllocError) -> LinkFault {
        LinkFault::NoMemory
    }
}

impl<T: Drop> From<AllocFailed<T>> for LinkFault {
    ghost use Rattle.link_parts.specs.declared.fault.LinkFault.TheVariants.{NoMemory};

    ghost from_gives = { λ _ e. e ≡ NoMemory };

    fn from(_: AllocFailed<T>) -> LinkFault {
        LinkFault::NoMemory
    }
}
