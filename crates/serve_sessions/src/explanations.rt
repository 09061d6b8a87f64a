//! Where the refusals are explained.

use crate::params::text_at;
use serde_json::Value;
use serve_programs::{Folder, folder_of};
use serve_texts::uri_of;
use std::alloc::{AllocError, Global};

/// Where an editor says whether it shows links beside what is refused.
const LINKS: &str = "/capabilities/textDocument/publishDiagnostics/codeDescriptionSupport";

/// Where it says at which address the explanations are.
const ADDRESS: &str = "/initializationOptions/explanations";

/// What stands in an address for the number of a refusal.
const NUMBER: &str = "{number}";

/// The ending of the name of a page.
const ENDING: &str = ".md";

/// Where the pages stand from the folder on in which that of a library stands: in a clone, and as they are installed.
const IN_CLONE: &str = "docs/refusals/";

const INSTALLED: &str = "doc/m2c/docs/refusals/";

/// A page that there is.
const A_PAGE: &str = "10.md";

/// The addresses of the explanations: what stands in front of the number of a refusal, and behind it.
#[derive(Drop)]
pub struct Explanations {
    front: String,
    behind: String,
}

/// Whether an editor shows links beside what is refused.
fn has_links(params: &Value) -> bool {
    params.pointer(LINKS).and_then(Value::as_bool) == Some(true)
}

/// The addresses that this one stands for: the number of a refusal takes its place in it, or stands at its end.
fn addresses(alloc: Global, address: &str) -> Result<Explanations, AllocError> {
    let (front, behind) = match address.split_once(NUMBER) {
        Some(parts) => parts,
        None => (address, ""),
    };
    Ok(Explanations {
        front: String::from_str(alloc, front)?,
        behind: String::from_str(alloc, behind)?,
    })
}

/// The folder around a folder, with the slash behind it.
fn around(folder: &str) -> &str {
    folder_of(folder.strip_suffix('/').unwrap_or(folder))
}

/// The pages of a folder, if there are some.
fn pages_at<F: Folder>(
    alloc: Global,
    folder: &F,
    front: &str,
    place: &str,
) -> Result<Option<Explanations>, AllocError> {
    let pages = format!(in alloc; "{front}{place}")?;
    let page = format!(in alloc; "{front}{place}{A_PAGE}")?;
    if folder.read(alloc, page.as_str())?.is_none() {
        return Ok(None);
    }
    Ok(Some(Explanations {
        front: uri_of(alloc, pages.as_str())?,
        behind: String::from_str(alloc, ENDING)?,
    }))
}

/// The pages that stand beside a library.
fn pages_beside<F: Folder>(
    alloc: Global,
    folder: &F,
    library: &str,
) -> Result<Option<Explanations>, AllocError> {
    let inner = around(library);
    match pages_at(alloc, folder, inner, IN_CLONE)? {
        Some(pages) => Ok(Some(pages)),
        None => pages_at(alloc, folder, around(inner), INSTALLED),
    }
}

/// The pages that came with the first library that has some.
fn own_pages<F: Folder>(
    alloc: Global,
    folder: &F,
    libraries: &[String],
) -> Result<Option<Explanations>, AllocError> {
    for library in libraries {
        let pages = pages_beside(alloc, folder, library.as_str())?;
        if pages.is_some() {
            return Ok(pages);
        }
    }
    Ok(None)
}

/// The explanations to which links lead: those that an editor names, or the pages that came with a library. None if the editor shows
/// no links, or names an empty address.
pub fn explanations_for<F: Folder>(
    alloc: Global,
    folder: &F,
    libraries: &[String],
    params: &Value,
) -> Result<Option<Explanations>, AllocError> {
    if !has_links(params) {
        return Ok(None);
    }
    match text_at(params, ADDRESS) {
        Some("") => Ok(None),
        Some(address) => Ok(Some(addresses(alloc, address)?)),
        None => own_pages(alloc, folder, libraries),
    }
}

impl Explanations {
    /// The address of the explanation of a refusal, in which its number has two digits.
    pub fn address_of(&self, alloc: Global, number: u32) -> Result<String, AllocError> {
        let (front, behind) = (self.front.as_str(), self.behind.as_str());
        format!(in alloc; "{front}{number:02}{behind}")
    }
}
