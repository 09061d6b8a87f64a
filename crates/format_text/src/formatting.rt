//! A text is formatted.

ghost use Rattle.std.specs.Prelude.{IfOk};
ghost use Rattle.scan_tokens.specs.Division.{HasTokens};
ghost use Rattle.format_text.specs.Layout.{IsLayoutOf};

use crate::indenting::place_all;
use crate::pieces::pieces_of;
use crate::same::is_layout;
use crate::writing::written;
use m2_parse::{ParseError, parse};
use m2_tree::{Pos, Token};
use scan_tokens::{ScanError, scan};
use std::alloc::{AllocError, Global};

/// Why a text is not formatted.
#[derive(Clone, Copy, PartialEq, Eq)]
pub enum FormatFault {
    /// It breaks a rule of tokens or of the grammar, at this place: the refusal with this number.
    Refused(Pos, u32),
    /// A request for memory was refused.
    NoMemory,
}

impl From<AllocError> for FormatFault {
    ghost use Rattle.std.specs.Prelude.{◌≡◌};
    ghost use Rattle.format_text.specs.declared.formatting.FormatFault.TheVariants.{NoMemory};

    ghost from_gives = { λ _ e. e ≡ NoMemory };

    fn from(_: AllocError) -> FormatFault {
        FormatFault::NoMemory
    }
}

/// The tokens of a text that has a tree.
fn tokens_of(alloc: Global, text: &[u8]) -> Result<Vec<Token>, FormatFault>
    ensures tokens { IfOk result (λ tokens. HasTokens text.now tokens.items) }
{
    let tokens = match scan(alloc, text) {
        Ok(tokens) => tokens,
        Err(ScanError::NoMemory) => return Err(FormatFault::NoMemory),
        Err(ScanError::Refused(refusal)) => {
            return Err(FormatFault::Refused(refusal.pos, refusal.broken.number()));
        }
    };
    match parse(alloc, &tokens) {
        Ok(_) => Ok(tokens),
        Err(ParseError::NoMemory) => Err(FormatFault::NoMemory),
        Err(ParseError::Refused(refusal)) => Err(FormatFault::Refused(refusal.pos, refusal.number)),
    }
}

/// The tokens and comments of a text in the style of this house.
fn laid_out(alloc: Global, text: &[u8], tokens: &[Token]) -> Result<Vec<u8>, AllocError> {
    let pieces = pieces_of(alloc, text, tokens)?;
    written(alloc, &place_all(alloc, &pieces)?)
}

/// A text in the style of this house: its tokens, and its bytes but for blanks. The errors are the refusal of a text that breaks
/// a rule of tokens or of the grammar, and that memory ran out.
pub fn format(alloc: Global, text: &[u8]) -> Result<Vec<u8>, FormatFault>
    ensures layout { IfOk result (λ out. IsLayoutOf text.now out.items) }
{
    let tokens = tokens_of(alloc, text)?;
    let out = laid_out(alloc, text, &tokens)?;
    if is_layout(alloc, text, tokens, &out)? {
        return Ok(out);
    }
    Ok(Vec::from_slice(alloc, text)?)
}
