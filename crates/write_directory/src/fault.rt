//! Why modules were not saved.

use std::alloc::AllocError;
use thiserror::Error;

/// Why modules were not saved.
#[derive(Clone, Copy, Debug, PartialEq, Eq, Error)]
pub enum SaveFault {
    /// 90: a request for memory was refused.
    #[error("refusal 90")]
    NoMemory,
    /// 93: the directory failed.
    #[error("refusal 93")]
    Device,
}

impl SaveFault {
    ghost use Rattle.std.specs.Prelude.{◌≡◌};
    ghost use Rattle.write_directory.specs.FaultNumber.{number_of};

    /// The number by which the fault is reported.
    pub fn number(self) -> u32
        ensures { result ≡ number_of self }
    {
        match self {
            SaveFault::NoMemory => 90,
            SaveFault::Device => 93,
        }
    }
}

impl From<AllocError> for SaveFault {
    ghost use Rattle.std.specs.Prelude.{◌≡◌};
    ghost use Rattle.write_directory.specs.declared.fault.SaveFault.TheVariants.{NoMemory};

    ghost from_gives = { λ _ e. e ≡ NoMemory };

    fn from(_: AllocError) -> SaveFault {
        SaveFault::NoMemory
    }
}
