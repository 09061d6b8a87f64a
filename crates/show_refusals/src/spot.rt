//! Where a refusal stands in a text.

ghost use Rattle.std.specs.Prelude.{◌≡◌, ◌≤◌, ◌-◌, length, min};

use crate::line::line_at;
use crate::token::token_length;
use m2_tree::Pos;

/// A line of source, and the token of it that is meant.
#[derive(Drop)]
pub struct Spot<'a> {
    /// The line, without its end.
    pub line: &'a [u8],
    /// The token's first byte, counted from 0, or the line's length.
    pub start: usize,
    /// The byte behind the token.
    pub end: usize,
    pub ghost inside: { (start ≤ end) × (end ≤ length line.now) },
}

/// The token at a place of a text. A place behind its line's end, or behind the text, has no token.
pub fn spot_at(text: &[u8], pos: Pos) -> Spot<'_>
    ensures { result.start ≡ min (pos.col - 1) (length result.line.now) }
{
    let line = line_at(text, pos.line);
    let start = line.len().min(pos.col.saturating_sub(1) as usize);
    let end = start + token_length(&line[start..]);
    Spot { line, start, end }
}
