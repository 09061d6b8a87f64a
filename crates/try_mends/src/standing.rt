//! How far a program comes.

use m2_tree::{Pos, Refusal};

/// The last rule of tokens.
const LAST_OF_TOKENS: u32 = 7;

/// The last rule of the grammar.
const LAST_OF_GRAMMAR: u32 = 13;

/// The last rule of imports.
const LAST_OF_IMPORTS: u32 = 25;

/// What the compiler looks at, in this order.
#[derive(Clone, Copy, Debug, PartialEq, Eq, PartialOrd, Ord)]
pub enum Stage {
    Tokens,
    Grammar,
    Imports,
    Meaning,
    /// Nothing is refused in the file.
    File,
    /// Nothing is refused.
    Program,
}

/// How far a file of a program comes: what is refused of it, and where.
#[derive(Clone, Copy, Debug, PartialEq, Eq, PartialOrd, Ord)]
pub struct Standing {
    pub stage: Stage,
    pub pos: Pos,
}

/// What a mend comes to.
#[derive(Clone, Copy, Debug, PartialEq, Eq)]
pub enum Reach {
    /// Nothing is refused of the program any more.
    Program,
    /// Nothing is refused of the file any more.
    File,
    /// What is refused next stands at this place of the mended text.
    Further(Pos),
}

/// The place of what is nowhere refused.
const NOWHERE: Pos = Pos { line: 1, col: 1 };

/// When a rule is looked at.
fn stage_of(rule: u32) -> Stage {
    if rule <= LAST_OF_TOKENS {
        Stage::Tokens
    } else if rule <= LAST_OF_GRAMMAR {
        Stage::Grammar
    } else if rule <= LAST_OF_IMPORTS {
        Stage::Imports
    } else {
        Stage::Meaning
    }
}

impl Standing {
    /// Where a refusal stands.
    pub fn of(refusal: &Refusal) -> Standing {
        Standing {
            stage: stage_of(refusal.number),
            pos: refusal.pos,
        }
    }

    /// How far a file comes of whose program this is refused.
    pub fn of_file(refusals: &[Refusal], file: &str) -> Standing {
        match refusals.iter().find(|it| it.file.as_str() == file) {
            Some(refusal) => Standing::of(refusal),
            None => Standing {
                stage: Stage::File,
                pos: NOWHERE,
            },
        }
    }

    /// Of a program of which nothing is refused.
    pub fn accepted() -> Standing {
        Standing {
            stage: Stage::Program,
            pos: NOWHERE,
        }
    }

    /// Whether this is further than another: a later stage, or at least a line behind it. Tokens and grammar count as one
    /// stage, since both are read from the first byte on.
    pub fn is_behind(self, other: Standing) -> bool {
        let is_later = self.stage > other.stage && self.stage != Stage::Grammar;
        is_later || self.stage >= other.stage && self.pos.line > other.pos.line
    }

    /// What a mend comes to that leads here.
    pub fn reach(self) -> Reach {
        match self.stage {
            Stage::Program => Reach::Program,
            Stage::File => Reach::File,
            Stage::Tokens | Stage::Grammar | Stage::Imports | Stage::Meaning => Reach::Further(
                self.pos,
            ),
        }
    }
}
