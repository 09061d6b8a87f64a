//! A line of source with a mark under a token.

ghost use Rattle.std.specs.Prelude.{◌≡◌, ◌≤◌, ◌+◌, ◌-◌, ◌++◌, IfOk, OnOk, replicate, string_bytes, length, max};
ghost use Rattle.show_refusals.specs.Layout.{blanks_under, mark_row, paint_mark, picture};
ghost use Rattle.show_refusals.specs.Part.{IsPart};

use crate::layout::{push_times, show_bytes};
use crate::spot::Spot;
use std::alloc::{AllocError, Global};

/// The most bytes of a line that are shown.
const MOST_SHOWN: usize = 100;

/// The most bytes that are shown before the token, if the line is longer.
const MOST_BEFORE: usize = 60;

/// What stands for bytes that are not shown.
const CUT: &str = "...";

/// Begins red.
const RED: &str = "\x1b[1;31m";

/// Ends a colour.
const PLAIN: &str = "\x1b[0m";

/// What is shown of a line.
#[derive(Drop)]
pub struct Part<'a> {
    /// What stands for bytes before.
    front: &'static str,
    /// The bytes that are shown.
    bytes: &'a [u8],
    /// What stands for bytes behind.
    back: &'static str,
    /// The token's first byte, counted from 0.
    start: usize,
    /// The byte behind the token.
    end: usize,
    pub ghost inside: { (start ≤ end) × (end ≤ length bytes.now) },
}

/// What stands for bytes that are not shown, if there are any.
fn cut_if(is_cut: bool) -> &'static str {
    if is_cut { CUT } else { "" }
}

/// The first byte that is shown of a line of this many bytes, if the token begins at this byte.
fn first_shown(bytes: usize, start: usize) -> usize
    requires { start ≤ bytes }
    ensures before { result ≤ start }
    ensures near { start ≤ result + 100 }
{
    if bytes <= MOST_SHOWN {
        0
    } else {
        start.saturating_sub(MOST_BEFORE)
    }
}

/// The part of a line around a token: the whole line, or 100 bytes of a longer one.
pub fn part_around<'a>(spot: &Spot<'a>) -> Part<'a>
    ensures { IsPart spot.now.line.now result.bytes.now spot.now.start result.start }
{
    let length = spot.line.len();
    let first = first_shown(length, spot.start);
    let last = length.min(first + MOST_SHOWN);
    Part {
        front: cut_if(first > 0),
        bytes: &spot.line[first..last],
        back: cut_if(last < length),
        start: spot.start - first,
        end: spot.end.min(last) - first,
    }
}

/// Writes the mark, in red if colour is asked for.
fn push_mark(text: &mut String, count: usize, colour: bool) -> Result<(), AllocError>
    ensures { OnOk result
        (string_bytes text.new ≡ string_bytes text.old ++ paint_mark colour (replicate count 94)) }
{
    if !colour {
        return push_times(text, '^', count);
    }
    text.push_str(RED)?;
    push_times(text, '^', count)?;
    text.push_str(PLAIN)
}

/// Blanks under a gutter and what stands behind it.
fn indent(alloc: Global, gutter: &str, before: &str) -> Result<String, AllocError>
    ensures { IfOk result (λ line. string_bytes line ≡ blanks_under (gutter.now ++ before.now)) }
{
    let mut line = String::new(alloc);
    push_times(&mut line, ' ', gutter.len() + before.len())?;
    Ok(line)
}

/// How many signs the mark has under a token between two texts: at least one.
fn mark_width(before: &str, through: &str) -> usize
    ensures { result ≡ max (length through.now - length before.now) 1 }
{
    through.len().saturating_sub(before.len()).max(1)
}

/// The line with the mark: blanks under the gutter and all before the token, and then the mark.
fn mark_line(
    alloc: Global,
    gutter: &str,
    part: &Part<'_>,
    colour: bool,
) -> Result<String, AllocError>
    ensures { IfOk result (λ line. string_bytes line ≡ mark_row colour gutter.now
        part.now.front.now part.now.bytes.now part.now.start part.now.end) }
{
    let before = show_bytes(alloc, part.front, &part.bytes[..part.start])?;
    let through = show_bytes(alloc, part.front, &part.bytes[..part.end])?;
    let mut line = indent(alloc, gutter, before.as_str())?;
    let width = mark_width(before.as_str(), through.as_str());
    push_mark(&mut line, width, colour)?;
    Ok(line)
}

/// A line of source with its number, and a line with a mark under the token.
pub fn draw(alloc: Global, number: u32, part: &Part<'_>, colour: bool) -> Result<String, AllocError>
    ensures { IfOk result (λ lines.
        string_bytes lines
        ≡ picture colour number part.now.front.now part.now.bytes.now part.now.back.now
        part.now.start part.now.end) }
{
    let gutter = format!(in alloc; "{number} | ")?;
    let text = show_bytes(alloc, part.front, part.bytes)?;
    let under = mark_line(alloc, gutter.as_str(), part, colour)?;
    format!(in alloc; "{gutter}{text}{}\n{under}\n", part.back)
}
