//! The text of a file M.link.

use crate::part::Part;
use crate::sealing::{begun, sealed};
use std::alloc::{AllocError, Global};
use std::fmt::Write;

/// What the first line begins with, and the version of this form.
pub const FORM: &str = "m2-link 3";

/// Puts the lines that each module has once.
fn push_head(page: &mut String, part: &Part) -> Result<(), AllocError> {
    let word = if part.is_program {
        "program"
    } else {
        "implementation"
    };
    write!(*page, "{word} {}\n", part.name)?;
    write!(*page, "text {}\ncode {}\n", part.text, part.code)?;
    let sizes = part.sizes;
    write!(
        *page,
        "variables {}\ntexts {}\n",
        sizes.variables, sizes.texts
    )?;
    write!(*page, "slots {}\n", sizes.slots)
}

/// Puts the lines of a module. The only error is that memory ran out.
pub fn push_part(page: &mut String, part: &Part) -> Result<(), AllocError> {
    push_head(page, part)?;
    push_imports(page, &part.imports)?;
    for interface in &part.interfaces {
        write!(*page, "interface {} {}\n", interface.name, interface.sum)?;
    }
    Ok(())
}

/// Puts a line for each module that is imported. The only error is that memory ran out.
pub fn push_imports(page: &mut String, imports: &[String]) -> Result<(), AllocError> {
    for import in imports {
        write!(*page, "import {import}\n")?;
    }
    Ok(())
}

/// The text of the file M.link of a module that this version compiled. The only error is that memory ran out.
pub fn write_part(alloc: Global, version: &str, part: &Part) -> Result<String, AllocError> {
    let mut page = begun(alloc, FORM, version)?;
    push_part(&mut page, part)?;
    sealed(alloc, page)
}
