// Why a graph or a board is refused.
ghost use Rattle.std.specs.Prelude.{◌≡◌, Some};
ghost use Rattle.pool_board.specs.Refusal.{number_of, words_of};

use std::alloc::AllocError;
use std::fmt;
use thiserror::Error;

/// Why a graph, a board or the results of its jobs were not made.
#[derive(Clone, Copy, PartialEq, Eq, Debug, Error)]
pub enum PoolRefusal {
    /// There are not 1 to 64 workers.
    Workers,
    /// A prerequisite is not smaller than its job, or is repeated.
    Prerequisite,
    /// There was no memory.
    NoMemory,
}

impl PoolRefusal {
    /// The number by which a program reports it: 70, 71 or 90, in the order above.
    pub fn number(self) -> u8
        ensures { result ≡ number_of self }
    {
        match self {
            PoolRefusal::Workers => 70,
            PoolRefusal::Prerequisite => 71,
            PoolRefusal::NoMemory => 90,
        }
    }
}

impl fmt::Display for PoolRefusal {
    ghost output = { λ refusal. Some (words_of refusal) };

    fn fmt<W: fmt::Write>(&self, f: &mut fmt::Formatter<W>) -> fmt::Result {
        match self {
            PoolRefusal::Workers => write!(f, "there are not 1 to 64 workers"),
            PoolRefusal::Prerequisite => {
                write!(f, "a prerequisite is repeated or not smaller than its job")
            }
            PoolRefusal::NoMemory => write!(f, "no memory"),
        }
    }
}

impl From<AllocError> for PoolRefusal {
    ghost use Rattle.std.specs.Prelude.{◌≡◌};
    ghost use Rattle.pool_board.specs.declared.refusal.PoolRefusal.TheVariants.{NoMemory};

    ghost from_gives = { λ _ refusal. refusal ≡ NoMemory };

    fn from(_: AllocError) -> PoolRefusal {
        PoolRefusal::NoMemory
    }
}
