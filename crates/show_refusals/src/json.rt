//! Refusals for programs.

ghost use Rattle.std.specs.Prelude.{◌≡◌, ◌<◌, ◌^◌, ◌+◌, ℕ, Bool, true, List, IfOk, IsOk, length, map, take, string_bytes};
ghost use Rattle.std.specs.List.{flat_map};
ghost use Rattle.serde_json.specs.View.{view};
ghost use Rattle.serde_json.specs.Written.{compact_text};
ghost use Rattle.run_directory.specs.Reported.{Says};
ghost use Rattle.show_refusals.specs.Objects.{Row, line_of, object_of};

use crate::explaining::spot_of;
use build_jobs::SourceFile;
use explain_rules::sentence;
use m2_tree::Refusal;
use run_directory::{Sink, say_all};
use serde_json::{Value, json};
use std::alloc::{AllocError, Global};

/// The object of a refusal whose token ends before this column.
fn make_object(
    alloc: Global,
    refusal: &Refusal,
    end: u64,
    words: &str,
    detail: &str,
) -> Result<Value, AllocError>
    ensures { IfOk result (λ v. view v ≡ object_of refusal.now end words.now detail.now) }
{
    json!(in alloc; {
        "column": refusal.pos.col,
        "detail": detail,
        "end": end,
        "file": refusal.file.as_str(),
        "line": refusal.pos.line,
        "rule": refusal.number,
        "words": words
    })
}

/// The text of a refusal's object.
fn object_text(
    alloc: Global,
    refusal: &Refusal,
    end: u64,
    words: &str,
    detail: &str,
) -> Result<String, AllocError>
    ensures { IfOk result (λ text. string_bytes text
        ≡ compact_text (object_of refusal.now end words.now detail.now)) }
{
    let object = make_object(alloc, refusal, end, words, detail)?;
    object.to_string(alloc)
}

/// The column behind a refusal's token, or its own column if its file is not there.
fn end_of(files: &[SourceFile], refusal: &Refusal) -> u64 {
    let length = spot_of(files, refusal).map_or(0, |it| it.end - it.start);
    u64::from(refusal.pos.col).saturating_add(length as u64)
}

/// What is known of the refusal of this number beside its rule, or nothing.
fn detail_of(details: &[String], number: usize) -> &str {
    details.get(number).map_or("", |it| it.as_str())
}

/// Prints each refusal on `out` as a JSON object in a line: `file`, `line`, `column` and `end` (the column behind the token)
/// as in the printed form, counted from 1 in bytes, `rule` and `words`, the rule in a sentence, and `detail`, what stood there.
///
/// The detail of each refusal stands in `details` at its number; if none stands there, it is empty. The files are those that were compiled; `end` of a refusal of none of them is its column. Nothing is printed after the
/// first failure of `out`. The error is want of memory: then the first refusals are printed.
pub fn show_json<O: Sink>(
    alloc: Global,
    files: &[SourceFile],
    refusals: &[Refusal],
    details: &[String],
    out: &mut O,
) -> Result<(), AllocError>
    requires { O.failed out.old + 1 < 2 ^ 64 }
    // The objects of the first refusals are printed in order, and the objects of all unless memory ran out or the
    // stream failed.
    ensures { (count : ℕ) × (rows : List Row) × (all : Bool)
        × (map (λ (row : Row). row.refusal) rows ≡ take count refusals.now)
        × (IsOk result → all ≡ true → count ≡ length refusals.now)
        × Says O.reported O.failed all (flat_map line_of rows) out.old out.new }
{
    let mut number: usize = 0;
    for refusal in refusals {
        let end = end_of(files, refusal);
        let words = sentence(refusal.number).unwrap_or("");
        let detail = detail_of(details, number);
        let line = object_text(alloc, refusal, end, words, detail)?;
        if !say_all(out, &[line.as_str(), "\n"]) {
            return Ok(());
        }
        number = number.saturating_add(1);
    }
    Ok(())
}
