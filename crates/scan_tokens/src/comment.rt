//! Comments, and places.

ghost use Rattle.std.specs.Prelude.{◌≡◌, ◌+◌, ◌<◌, ◌^◌, MatchOption};
ghost use Rattle.scan_tokens.specs.Steps.{place_after, HasRoom, IsMark, Closes, NeverCloses};

use m2_tree::Pos;

/// The place behind a byte.
#[tactic(auto, unfolding(crate::specs::Bytes::is_line_end))]
pub fn behind(pos: Pos, byte: u8) -> Pos
    requires line { pos.line + 1 < 2 ^ 32 }
    requires col { pos.col + 1 < 2 ^ 32 }
    ensures { result ≡ place_after pos byte }
{
    if byte == b'\n' {
        Pos {
            line: pos.line + 1,
            col: 1,
        }
    } else {
        Pos {
            line: pos.line,
            col: pos.col + 1,
        }
    }
}

/// The place `count` bytes to the right.
pub fn right(pos: Pos, count: usize) -> Pos
    requires { pos.col + count < 2 ^ 32 }
    ensures line { result.line ≡ pos.line }
    ensures col { result.col ≡ pos.col + count }
{
    Pos {
        line: pos.line,
        col: pos.col + count as u32,
    }
}

/// What stands at the front of a text inside of a comment.
#[derive(Clone, Copy)]
pub enum Mark {
    Opening,
    Closing,
    /// A byte, and more.
    Byte,
    /// No two bytes are left.
    End,
}

fn mark_of(text: &[u8]) -> Mark
    ensures { IsMark text.now result }
{
    if text.len() < 2 {
        return Mark::End;
    }
    match (text[0], text[1]) {
        (b'(', b'*') => Mark::Opening,
        (b'*', b')') => Mark::Closing,
        _ => Mark::Byte,
    }
}

/// What stands behind the comment whose opening stands before this text, and its place.
pub fn comment_end(text: &[u8], start: Pos) -> Option<(&[u8], Pos)>
    requires { HasRoom start text.now }
    ensures { MatchOption result (NeverCloses text.now) (λ end.
        Closes text.now start end.0.now end.1) }
{
    let mut rest = text;
    let mut pos = start;
    let mut levels = 1usize;
    loop {
        match mark_of(rest) {
            Mark::Opening => {
                rest = &rest[2..];
                pos = right(pos, 2);
                levels += 1;
            }
            Mark::Closing => {
                rest = &rest[2..];
                pos = right(pos, 2);
                levels -= 1;
                if levels == 0 {
                    return Some((rest, pos));
                }
            }
            Mark::Byte => {
                pos = behind(pos, rest[0]);
                rest = &rest[1..];
            }
            Mark::End => return None,
        }
    }
}
