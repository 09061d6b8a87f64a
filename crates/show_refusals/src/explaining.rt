//! What is said of a refusal on standard error.

use crate::picture::{draw, part_around};
use crate::spot::{Spot, spot_at};
use build_jobs::SourceFile;
use explain_rules::sentence;
use m2_tree::{Pos, Refusal};
use propose_mends::{Source, known_way};
use std::alloc::{AllocError, Global};
use std::fmt::Write;

/// The bytes of the file of this name, if it is there.
fn bytes_of<'a>(files: &'a [SourceFile], name: &str) -> Option<&'a [u8]> {
    files
        .iter()
        .find(|it| it.name.as_str() == name)
        .map(|it| it.bytes.as_slice())
}

/// Where a refusal stands, if its file is there.
pub fn spot_of<'a>(files: &'a [SourceFile], refusal: &Refusal) -> Option<Spot<'a>> {
    let bytes = bytes_of(files, refusal.file.as_str())?;
    Some(spot_at(bytes, refusal.pos))
}

/// The rule in a sentence, and how to ask for more.
fn rule_line(alloc: Global, number: u32) -> Result<String, AllocError> {
    match sentence(number) {
        Some(words) => format!(in alloc; "  {words} (m2 explain {number})\n"),
        None => Ok(String::new(alloc)),
    }
}

/// What to do about what is refused, if that is known and no edit helps.
pub fn way_of(
    alloc: Global,
    files: &[SourceFile],
    refusal: &Refusal,
) -> Result<Option<&'static str>, AllocError> {
    match bytes_of(files, refusal.file.as_str()) {
        Some(bytes) => {
            let source = Source::of(alloc, bytes, refusal.pos)?;
            Ok(known_way(&source, refusal.number, refusal.pos))
        }
        None => Ok(None),
    }
}

/// The line of a text with its number, and below it a mark under the token at a place. The only error is that memory ran out.
pub fn marked_line(
    alloc: Global,
    text: &[u8],
    pos: Pos,
    colour: bool,
) -> Result<String, AllocError> {
    draw(alloc, pos.line, &part_around(&spot_at(text, pos)), colour)
}

/// Writes the line of source, and the mark under the token.
fn push_source(
    alloc: Global,
    text: &mut String,
    refusal: &Refusal,
    spot: &Spot<'_>,
    colour: bool,
) -> Result<(), AllocError> {
    let lines = draw(alloc, refusal.pos.line, &part_around(spot), colour)?;
    text.push_str(lines.as_str())
}

/// All that is said of a refusal: its rule, if its file is there also the line of source with a mark, and what to do
/// if no edit helps.
pub fn explanation(
    alloc: Global,
    files: &[SourceFile],
    refusal: &Refusal,
    colour: bool,
) -> Result<String, AllocError> {
    let mut text = rule_line(alloc, refusal.number)?;
    if let Some(bytes) = bytes_of(files, refusal.file.as_str()) {
        let spot = spot_at(bytes, refusal.pos);
        push_source(alloc, &mut text, refusal, &spot, colour)?;
    }
    if let Some(way) = way_of(alloc, files, refusal)? {
        write!(text, "  {way}.\n")?;
    }
    Ok(text)
}
