//! Texts with their tokens and trees.

use m2_parse::{ParseError, parse};
use m2_tree::{Contents, Module, Token};
use scan_tokens::{ScanError, scan};
use serve_scopes::Marks;
use std::alloc::{AllocError, Global};

/// The tokens and the tree of a text.
pub struct Parsed {
    pub tokens: Vec<Token>,
    pub tree: Module,
}

// Written by hand, so that proofs above take a drop as one call.
impl Drop for Parsed {
    fn drop(self) {
        let Parsed { tokens, tree } = self;
        drop(tokens);
        drop(tree);
    }
}

/// The tree of a text, and of its tokens what tells where declarations begin and end.
#[derive(Drop)]
pub struct Outline {
    pub(crate) marks: Marks,
    pub(crate) tree: Module,
}

/// Whether a tree is a definition's.
pub(crate) fn is_definition(tree: &Module) -> bool {
    matches!(&tree.contents, Contents::Definition(_))
}

impl Parsed {
    /// What tells where the declarations begin and end. The only error is that memory ran out.
    pub(crate) fn marks(&self, alloc: Global) -> Result<Marks, AllocError> {
        Marks::of(alloc, &self.tokens, is_definition(&self.tree))
    }

    /// The tree, without the tokens. The only error is that memory ran out.
    pub fn outline(self, alloc: Global) -> Result<Outline, AllocError> {
        let marks = self.marks(alloc)?;
        let Parsed { tokens, tree } = self;
        drop(tokens);
        Ok(Outline { marks, tree })
    }
}

/// The tokens and the tree of a text, or none if it has no tree. The only error is that memory ran out.
pub fn read(alloc: Global, text: &[u8]) -> Result<Option<Parsed>, AllocError> {
    let tokens = match scan(alloc, text) {
        Ok(tokens) => tokens,
        Err(ScanError::Refused(_)) => return Ok(None),
        Err(ScanError::NoMemory) => return Err(AllocError),
    };
    match parse(alloc, &tokens) {
        Ok(tree) => Ok(Some(Parsed { tokens, tree })),
        Err(ParseError::Refused(_)) => Ok(None),
        Err(ParseError::NoMemory) => Err(AllocError),
    }
}
