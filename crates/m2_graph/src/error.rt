//! Why there is no graph.

ghost use Rattle.std.specs.Prelude.{◌≡◌};

use m2_tree::Refusal;
use std::alloc::AllocError;
use thiserror::Error;

/// Why files have no graph.
#[derive(Debug, Drop, Error)]
pub enum GraphError {
    /// Rules of imports (20 to 25) that files break, one for each of these files, in order of their names.
    #[error("refusals 20 to 25")]
    Refused(Vec<Refusal>),
    /// 90: a request for memory was refused.
    #[error("refusal 90")]
    NoMemory,
}

impl From<AllocError> for GraphError {
    ghost use Rattle.m2_graph.specs.declared.error.GraphError.TheVariants.{NoMemory};

    ghost from_gives = { λ _ e. e ≡ NoMemory };

    fn from(_: AllocError) -> GraphError {
        GraphError::NoMemory
    }
}
