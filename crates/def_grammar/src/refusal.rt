//! Why a list of tokens has no tree.

ghost use Rattle.std.specs.Prelude.{◌≡◌};
ghost use Rattle.def_grammar.specs.declared.refusal.Stop.TheVariants.{NoMemory};

use m2_tree::Pos;
use std::alloc::{AllocError, AllocFailed};
use thiserror::Error;

/// Which rule a list of tokens breaks.
#[derive(Clone, Copy, Debug, PartialEq, Eq)]
pub enum GrammarRule {
    /// No module goes on with this token.
    Unfit,
    /// The closing name is not the opening one.
    Misnamed,
    /// One level of nesting too many begins here.
    TooDeep,
}

/// Why a part was not read. What is left of the tokens begins with the one that is refused.
#[derive(Clone, Copy, Debug, PartialEq, Eq)]
pub enum Stop {
    /// Memory ran out.
    NoMemory,
    Refused(GrammarRule),
}

impl From<AllocError> for Stop {
    ghost from_gives = { λ _ e. e ≡ NoMemory };

    fn from(_e: AllocError) -> Stop {
        Stop::NoMemory
    }
}

impl<T: Drop> From<AllocFailed<T>> for Stop {
    ghost from_gives = { λ _ e. e ≡ NoMemory };

    fn from(_e: AllocFailed<T>) -> Stop {
        Stop::NoMemory
    }
}

/// What is refused in a list of tokens, and where.
#[derive(Clone, Copy, Debug, PartialEq, Eq)]
pub struct ParseRefusal {
    /// The place of the token that is refused, and 1:1 if the list ends too early with no token of its end.
    pub pos: Pos,
    /// 11 for a closing name that is not the opening one, 12 for the 201st level of nesting, 13 for one of the words
    /// POINTER, QUALIFIED, EXPORT, SET and MODULE where it may not stand, and 10 for any other token.
    pub number: u32,
}

/// Why a list of tokens has no tree.
#[derive(Clone, Copy, Debug, PartialEq, Eq, Error)]
pub enum ParseError {
    /// The least refused place of the list.
    #[error("{}:{}: refusal {}", .0.pos.line, .0.pos.col, .0.number)]
    Refused(ParseRefusal),
    /// Memory ran out.
    #[error("refusal 90")]
    NoMemory,
}
