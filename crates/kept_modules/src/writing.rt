//! The text in which it stands what is kept.

use crate::kept::{Definition, Kept};
use crate::sums::short_sum;
use link_parts::{begun, push_imports, push_part, sealed_by};
use std::alloc::{AllocError, Global};
use std::fmt::Write;

/// What the first line begins with, and the version of this form.
pub const FORM: &str = "m2-kept 2";

/// What stands between two modules: an empty line.
pub const BETWEEN: &str = "\n\n";

/// Puts the lines of a definition, and an empty one.
fn push_definition(page: &mut String, definition: &Definition) -> Result<(), AllocError> {
    let Definition {
        name,
        text,
        tokens,
        ..
    } = definition;
    write!(*page, "definition {name}\ntext {text}\ntokens {tokens}\n")?;
    push_imports(page, &definition.imports)?;
    page.push('\n')
}

/// Puts the definitions.
fn push_definitions(page: &mut String, kept: &Kept) -> Result<(), AllocError> {
    for definition in &kept.definitions {
        push_definition(page, definition)?;
    }
    Ok(())
}

/// The text of what is kept, written by this version. The only error is that memory ran out.
pub fn write_kept(alloc: Global, version: &str, kept: &Kept) -> Result<String, AllocError> {
    let mut page = begun(alloc, FORM, version)?;
    push_definitions(&mut page, kept)?;
    for body in &kept.bodies {
        push_part(&mut page, body)?;
        page.push('\n')?;
    }
    let sum = short_sum(alloc, page.as_bytes())?;
    sealed_by(page, sum.as_str())
}
