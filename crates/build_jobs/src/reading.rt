//! Texts to trees.

ghost use Rattle.std.specs.Prelude.{IfOk, List, ℕ};
ghost use Rattle.build_jobs.specs.Reading.{AreTokens, HasTree, IsRead};

use m2_parse::{ParseError, parse};
use m2_tree::{Module, Pos, Token};
use scan_tokens::{ScanError, scan};
use std::alloc::{AllocError, Global};
use std::sync::Arc;

/// What is read of a text.
#[derive(Drop)]
pub enum Read {
    /// Its tree, which several threads may hold.
    Parsed(Arc<Module>),
    /// The place and the number of the rule that it breaks first.
    Refused(Pos, u32),
}

/// What is read of each text with this tree.
fn share_tree(alloc: Global, tree: Module) -> Result<Read, AllocError>
    ensures { IfOk result (λ r. (text : List ℕ) → HasTree text tree → IsRead text r) }
{
    Ok(Read::Parsed(Arc::new(alloc, tree)?))
}

/// What is read of a text with these tokens.
fn read_tokens(alloc: Global, tokens: &[Token], text: &[u8]) -> Result<Read, AllocError>
    requires { AreTokens text.now tokens.now }
    ensures { IfOk result (λ r. IsRead text.now r) }
{
    match parse(alloc, tokens) {
        Ok(tree) => share_tree(alloc, tree),
        Err(ParseError::Refused(refusal)) => Ok(Read::Refused(refusal.pos, refusal.number)),
        Err(ParseError::NoMemory) => Err(AllocError),
    }
}

/// What is read of a text: its tree, or the least refusal of scanning, or else of parsing.
pub fn read_text(alloc: Global, text: &[u8]) -> Result<Read, AllocError>
    ensures { IfOk result (λ r. IsRead text.now r) }
{
    match scan(alloc, text) {
        Ok(tokens) => read_tokens(alloc, &tokens, text),
        Err(ScanError::Refused(refusal)) => Ok(Read::Refused(refusal.pos, refusal.broken.number())),
        Err(ScanError::NoMemory) => Err(AllocError),
    }
}
