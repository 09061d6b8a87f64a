//! Texts whose first line tells their form and who wrote them, and whose last line has the checksum of all lines in front.

use crate::fault::PartFault;
use crate::sums::sum_of;
use std::alloc::{AllocError, Global};
use std::fmt::Write;
use std::str;

/// What the last line begins with.
const LAST: &str = "end ";

/// A text that has its first line alone: of this form, and written by this version of m2. The only error is that memory ran out.
pub fn begun(alloc: Global, form: &str, version: &str) -> Result<String, AllocError> {
    format!(in alloc; "{form} {version}\n")
}

/// A text with the last line behind its others, which has this checksum of them. The only error is that memory ran out.
pub fn sealed_by(page: String, sum: &str) -> Result<String, AllocError> {
    let mut page = page;
    write!(page, "{LAST}{sum}\n")?;
    Ok(page)
}

/// A text with the last line behind its others. The only error is that memory ran out.
pub fn sealed(alloc: Global, page: String) -> Result<String, AllocError> {
    let sum = sum_of(alloc, page.as_bytes())?;
    sealed_by(page, sum.as_str())
}

/// Whether a first line is that of this form and this version.
fn check_first(line: &str, form: &str, version: &str) -> Result<(), PartFault> {
    let word = form.split_once(' ').map_or(form, |it| it.0);
    if !line.starts_with(word) {
        return Err(PartFault::Altered);
    }
    let Some(rest) = line.strip_prefix(form) else {
        return Err(PartFault::Version);
    };
    match rest.strip_prefix(' ') {
        Some(found) if found.as_bytes() == version.as_bytes() => Ok(()),
        _ => Err(PartFault::Version),
    }
}

/// What stands in front of the last line, and the checksum in this.
fn parted(text: &str) -> Result<(&str, &str), PartFault> {
    let Some(whole) = text.strip_suffix('\n') else {
        return Err(PartFault::Altered);
    };
    let at = whole.rfind('\n').map_or(0, |it| it.saturating_add(1));
    let (front, last) = (text.get(..at).unwrap_or(""), whole.get(at..).unwrap_or(""));
    match last.strip_prefix(LAST) {
        Some(sum) => Ok((front, sum)),
        None => Err(PartFault::Altered),
    }
}

/// What stands in front of the last line of a text, and the checksum in this, which nobody has looked at yet.
///
/// `Version` if its first line is that of another form or version, else `Altered` if its last line has no checksum.
pub fn unsealed<'a>(
    form: &str,
    version: &str,
    text: &'a [u8],
) -> Result<(&'a str, &'a str), PartFault> {
    let Ok(text) = str::from_utf8(text) else {
        return Err(PartFault::Altered);
    };
    let Some((first, _)) = text.split_once('\n') else {
        return Err(PartFault::Altered);
    };
    check_first(first, form, version)?;
    parted(text)
}

/// What stands behind the first line of a text.
pub fn behind_first(text: &str) -> &str {
    text.split_once('\n').map_or("", |it| it.1)
}

/// The lines of a text between its first and its last.
///
/// `Version` if its first line is that of another form or version, else `Altered` if the checksum in its last line is not that of the
/// text in front of it. `NoMemory` if memory ran out.
pub fn opened<'a>(
    alloc: Global,
    form: &str,
    version: &str,
    text: &'a [u8],
) -> Result<&'a str, PartFault> {
    let (front, found) = unsealed(form, version, text)?;
    let sum = sum_of(alloc, front.as_bytes())?;
    if found.as_bytes() == sum.as_bytes() {
        Ok(behind_first(front))
    } else {
        Err(PartFault::Altered)
    }
}
