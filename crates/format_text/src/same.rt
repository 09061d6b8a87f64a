//! Whether a text is another in a new layout.

ghost use Rattle.std.specs.Prelude.{◌≡◌, IfOk, Ok, true};
ghost use Rattle.m2_tree.specs.declared.token.Token.{Token};
ghost use Rattle.scan_tokens.specs.Division.{HasTokens};
ghost use Rattle.format_text.specs.Layout.{lexemes, ink, IsLayoutOf};

use m2_tree::{Lexeme, Token};
use scan_tokens::{ScanError, scan};
use std::alloc::{AllocError, Global};

/// The bytes of a text that are no blanks.
fn ink_of(alloc: Global, text: &[u8]) -> Result<Vec<u8>, AllocError>
    ensures kept { IfOk result (λ bytes. bytes.items ≡ ink text.now) }
{
    text.iter()
        .copied()
        .filter(|byte| !byte.is_ascii_whitespace())
        .collect(alloc)
}

/// What tokens say, wherever they stand.
fn lexemes_of(alloc: Global, tokens: Vec<Token>) -> Result<Vec<Lexeme>, AllocError>
    ensures said { IfOk result (λ all. all.items ≡ lexemes tokens.items) }
{
    tokens.into_iter().map(|token| token.lexeme).collect(alloc)
}

/// Whether two texts have the same bytes but for blanks.
fn has_ink(alloc: Global, text: &[u8], out: &[u8]) -> Result<bool, AllocError>
    ensures same { result ≡ Ok true → ink out.now ≡ ink text.now }
{
    Ok(ink_of(alloc, out)? == ink_of(alloc, text)?)
}

/// Whether tokens say the same as those of another text.
#[tactic(auto, using(crate::proofs::Lexemes::lexemes_are_equal))]
fn say_the_same(alloc: Global, tokens: Vec<Token>, others: Vec<Token>) -> Result<bool, AllocError>
    ensures same { result ≡ Ok true → lexemes others.items ≡ lexemes tokens.items }
{
    Ok(lexemes_of(alloc, others)? == lexemes_of(alloc, tokens)?)
}

/// Whether `out` is the text with these tokens in another layout.
pub fn is_layout(
    alloc: Global,
    text: &[u8],
    tokens: Vec<Token>,
    out: &[u8],
) -> Result<bool, AllocError>
    requires tokens { HasTokens text.now tokens.items }
    ensures same { result ≡ Ok true → IsLayoutOf text.now out.now }
{
    let others = match scan(alloc, out) {
        Ok(others) => others,
        Err(ScanError::NoMemory) => return Err(AllocError),
        Err(ScanError::Refused(_)) => return Ok(false),
    };
    if !has_ink(alloc, text, out)? {
        return Ok(false);
    }
    say_the_same(alloc, tokens, others)
}
