//! The tokens of a text.

ghost use Rattle.std.specs.Prelude.{◌≡◌, ◌≤◌, List, [], MatchResult, IfOk, IfErr, Ok, Err, length, ◌⊎◌};
ghost use Rattle.m2_tree.specs.declared.token.Token.{Token};
ghost use Rattle.scan_tokens.specs.declared.refusal.ScanRefusal.{ScanRefusal};
ghost use Rattle.scan_tokens.specs.declared.refusal.ScanError.TheVariants.{Refused, NoMemory};
ghost use Rattle.scan_tokens.specs.Bytes.{Text};
ghost use Rattle.scan_tokens.specs.Forms.{Member};
ghost use Rattle.scan_tokens.specs.Division.{Divides, HasTokens, Refuses, max_text};
ghost use Rattle.scan_tokens.specs.Steps.{IfRefused};

use crate::cut::{Cut, cut_blanks, next_cut, put, scan_refusal};
use crate::refusal::{ScanError, TokenRule};
use m2_tree::{Lexeme, Pos, Token};
use std::alloc::Global;

/// The bytes of the longest text.
pub const MAX_TEXT: usize = 1_048_576;

/// The tokens of a text, with their places, and the end of the text behind them.
///
/// A text divides into spaces, comments and tokens, each as long as it can be ("Programming in Modula-2", 4th edition,
/// Report, section 3). A text that does not divide is refused at the least place at which it cannot go on, and one of
/// more than 1048576 bytes at 1:1 before all else. The other error is that memory ran out.
pub fn scan(alloc: Global, text: &[u8]) -> Result<Vec<Token>, ScanError>
    // What is answered are the tokens of the text.
    ensures tokens { IfOk result (λ tokens.
        (length text.now ≤ max_text) × HasTokens text.now tokens.items) }
    // What is refused is the refusal of the text.
    ensures refused { IfErr result (IfRefused (Refuses text.now)) }
    // A text that has tokens is not refused.
    ensures accepted { (ts : List Token) → length text.now ≤ max_text → HasTokens text.now ts
        → MatchResult result (λ tokens. tokens.items ≡ ts) (λ e. e ≡ NoMemory) }
    // A text that has a refusal is refused so.
    ensures reported { (r : ScanRefusal) → Refuses text.now r
        → MatchResult result (λ _. ⊥) (λ e. (e ≡ Refused r) ⊎ (e ≡ NoMemory)) }
{
    let pos = Pos { line: 1, col: 1 };
    if text.len() > MAX_TEXT {
        return Err(scan_refusal(pos, TokenRule::TooLong));
    }
    let mut tokens = Vec::new(alloc);
    let mut cut = Cut { rest: text, pos };
    while !cut.rest.is_empty() {
        next_cut(alloc, &mut cut, &mut tokens)?;
        cut_blanks(&mut cut);
    }
    put(&mut tokens, Lexeme::End, cut.pos)?;
    Ok(tokens)
}

/// A text divides in at most one way.
pub fn one_division()
    ensures { (text : Text) (ms ns : List Member) → Divides text ms [] → Divides text ns []
        → ms ≡ ns }
{}

/// A text that divides is not refused, unless it is too long.
pub fn tokens_or_refusal()
    ensures { (text : Text) (ts : List Token) (r : ScanRefusal)
        → length text ≤ max_text
        → HasTokens text ts
        → Refuses text r
        → ⊥ }
{}

/// A text has at most one refusal.
pub fn one_refusal()
    ensures { (text : Text) (r q : ScanRefusal) → Refuses text r → Refuses text q → r ≡ q }
{}
