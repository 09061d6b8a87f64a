//! What is refused in a text.

ghost use Rattle.std.specs.Prelude.{◌≡◌};
ghost use Rattle.scan_tokens.specs.declared.refusal.ScanError.TheVariants.{NoMemory};

use m2_tree::Pos;
use std::alloc::{AllocError, AllocFailed};
use thiserror::Error;

/// A rule of the language that a text can break before there are tokens.
#[derive(Clone, Copy, Debug, PartialEq, Eq)]
pub enum TokenRule {
    /// The text has more than 1048576 bytes. It is reported at 1:1, and before all others.
    TooLong,
    /// A byte that begins no token, or that may not stand in a string.
    StrayByte,
    /// A comment without its end, at the outermost `(*`.
    OpenComment,
    /// A string without its end on its line, at its quote.
    OpenString,
    /// Digits and letters that are no number.
    BadNumber,
    /// A number over 4294967295, or a character's code over 377C.
    LargeNumber,
    /// A name of more than 64 letters and digits.
    LongName,
}

impl TokenRule {
    ghost use Rattle.scan_tokens.specs.FaultNumber.{number_of};

    /// The number by which the refusal is reported, from 1 to 7.
    pub fn number(self) -> u32
        ensures { result ≡ number_of self }
    {
        match self {
            TokenRule::TooLong => 1,
            TokenRule::StrayByte => 2,
            TokenRule::OpenComment => 3,
            TokenRule::OpenString => 4,
            TokenRule::BadNumber => 5,
            TokenRule::LargeNumber => 6,
            TokenRule::LongName => 7,
        }
    }
}

/// What is refused in a text, and where.
#[derive(Clone, Copy, Debug, PartialEq, Eq)]
pub struct ScanRefusal {
    pub pos: Pos,
    pub broken: TokenRule,
}

/// Why a text has no tokens.
#[derive(Debug, Drop, Error)]
pub enum ScanError {
    /// The least refused place of the text.
    #[error("{}:{}: refusal {}", .0.pos.line, .0.pos.col, .0.broken.number())]
    Refused(ScanRefusal),
    /// Memory ran out.
    #[error("refusal 90")]
    NoMemory,
}

impl From<AllocError> for ScanError {
    ghost from_gives = { λ _ e. e ≡ NoMemory };

    fn from(_e: AllocError) -> ScanError {
        ScanError::NoMemory
    }
}

impl<T: Drop> From<AllocFailed<T>> for ScanError {
    ghost from_gives = { λ _ e. e ≡ NoMemory };

    fn from(_e: AllocFailed<T>) -> ScanError {
        ScanError::NoMemory
    }
}
