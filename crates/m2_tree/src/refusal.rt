//! What is reported of a program that is refused.

ghost use Rattle.std.specs.Prelude.{Some, codes, ◌++◌};
ghost use Rattle.std.specs.String.{string_bytes};
ghost use Rattle.std.specs.Fmt.{decimal};

use crate::pos::Pos;
use std::fmt;

/// A rule that a file breaks, and where.
///
/// It is printed as `FILE:LINE:COL: refusal NUMBER`.
#[derive(Debug, Drop)]
pub struct Refusal {
    /// The file's name as it was given. It is empty if a call was borrowed no name.
    pub file: String,
    /// The place of the token or byte that is refused.
    pub pos: Pos,
    /// Which rule it is.
    pub number: u32,
}

impl fmt::Display for Refusal {
    ghost output = { λ r.
        Some
        (string_bytes r.file ++ codes ":" ++ decimal r.pos.line ++ codes ":"
        ++ decimal r.pos.col ++ codes ": refusal " ++ decimal r.number) };

    fn fmt<W: fmt::Write>(&self, f: &mut fmt::Formatter<W>) -> fmt::Result {
        let Pos { line, col } = self.pos;
        write!(f, "{}:{line}:{col}: refusal {}", self.file, self.number)
    }
}
