//! Refusals with their mends, for programs.

use crate::explaining::spot_of;
use build_jobs::SourceFile;
use explain_rules::sentence;
use m2_tree::{Pos, Refusal};
use serde_json::{Value, json};
use std::alloc::{AllocError, Global};

/// An edit of a file that was tried, with what it comes to.
#[derive(Clone, Copy)]
pub struct Mended<'a> {
    /// What to do, and what it comes to.
    pub words: &'a str,
    /// Where the bytes begin that it replaces, and where those behind them do.
    pub begin: Pos,
    pub end: Pos,
    /// What it puts there.
    pub text: &'a str,
}

/// The object of an edit, or null.
fn edit_of(alloc: Global, mended: Option<Mended<'_>>) -> Result<Value, AllocError> {
    match mended {
        Some(it) => json!(in alloc; {
            "column": it.begin.col,
            "end_column": it.end.col,
            "end_line": it.end.line,
            "line": it.begin.line,
            "text": it.text
        }),
        None => Ok(Value::Null),
    }
}

/// The JSON object of a refusal, without a line end: as `show_json` has it, with `edit`, the edit that mends it or
/// null, `mend`, what the edit does in words or an empty text, and `then`, whether it is refused only if the edits of
/// those before are made.
pub fn object_of(
    alloc: Global,
    files: &[SourceFile],
    refusal: &Refusal,
    detail: &str,
    mended: Option<Mended<'_>>,
    is_then: bool,
) -> Result<String, AllocError> {
    let length = spot_of(files, refusal).map_or(0, |it| it.end - it.start);
    let end = u64::from(refusal.pos.col).saturating_add(length as u64);
    let edit = edit_of(alloc, mended)?;
    let words = mended.map_or("", |it| it.words);
    let object = json!(in alloc; {
        "column": refusal.pos.col,
        "detail": detail,
        "edit": edit,
        "end": end,
        "file": refusal.file.as_str(),
        "line": refusal.pos.line,
        "mend": words,
        "rule": refusal.number,
        "then": is_then,
        "words": sentence(refusal.number).unwrap_or("")
    })?;
    object.to_string(alloc)
}
