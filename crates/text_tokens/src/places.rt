//! Places of a text as numbers of bytes.

use m2_tree::Pos;

/// How many bytes of a text stand in front of a place.
pub fn offset_of(text: &[u8], pos: Pos) -> usize {
    let mut line = 1u32;
    let mut begin = 0;
    for (at, byte) in text.iter().enumerate() {
        if line >= pos.line {
            break;
        }
        if *byte == b'\n' {
            line = line.saturating_add(1);
            begin = at.saturating_add(1);
        }
    }
    let column = pos.col.saturating_sub(1) as usize;
    begin.saturating_add(column).min(text.len())
}

/// The bytes from one place to another, as far as the text has them.
pub fn part(text: &[u8], from: usize, to: usize) -> &[u8] {
    let front = &text[..to.min(text.len())];
    &front[from.min(front.len())..]
}

/// The bytes from a place on.
pub fn rest(text: &[u8], from: usize) -> &[u8] {
    &text[from.min(text.len())..]
}
