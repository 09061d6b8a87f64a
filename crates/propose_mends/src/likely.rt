//! The mends that may help at a refused place.

use crate::grammar::propose_tokens;
use crate::imports::propose_imported;
use crate::types::propose_types;
use m2_tree::Pos;
use refused_text::{Export, Source, known_way};
use std::alloc::{AllocError, Global};
use text_mends::{Mend, Mends, propose_bytes};

/// The last rule of tokens.
const LAST_OF_TOKENS: u32 = 7;

/// The last rule of the grammar.
const LAST_OF_GRAMMAR: u32 = 13;

/// The last rule of imports.
const LAST_OF_IMPORTS: u32 = 25;

/// Adds the mends of a refused token.
fn propose_at(
    mends: &mut Mends<'_>,
    rule: u32,
    at: usize,
    exports: &[Export],
    partner: &[u8],
) -> Result<(), AllocError> {
    if rule <= LAST_OF_GRAMMAR {
        return propose_tokens(mends, rule, at);
    }
    if rule <= LAST_OF_IMPORTS {
        return propose_imported(mends, at, exports);
    }
    propose_types(mends, rule, at, exports, partner)
}

/// The mends that may help where this rule refuses a text, the likeliest first, at most 300. `exports` are the names that
/// modules export which the text may import, and `partner` is the text of its own definition, if it has one. Nothing if no edit
/// helps there. An error if memory ran out.
pub fn proposals(
    alloc: Global,
    text: &[u8],
    rule: u32,
    pos: Pos,
    exports: &[Export],
    partner: &[u8],
) -> Result<Vec<Mend>, AllocError> {
    let source = Source::of(alloc, text, pos)?;
    let is_known = known_way(&source, rule, pos).is_some();
    let number = source.number_at(pos);
    let mut mends = Mends {
        alloc,
        source,
        all: Vec::new(alloc),
        is_bold: false,
    };
    if is_known {
        return Ok(mends.all);
    }
    if rule <= LAST_OF_TOKENS {
        propose_bytes(&mut mends, rule, pos)?;
    } else if let Some(at) = number {
        propose_at(&mut mends, rule, at, exports, partner)?;
    }
    Ok(mends.all)
}
