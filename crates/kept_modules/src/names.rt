//! Names of files.

use build_jobs::SourceFile;
use indexmap::IndexMap;
use std::alloc::{AllocError, Global};

/// How the name of a definition's file ends.
const DEFINITION: &str = ".def";

/// How the name of a body's file ends.
const BODY: &str = ".mod";

/// The name of a file without its folder.
fn last_of(path: &str) -> &str {
    path.rsplit_once('/').map_or(path, |it| it.1)
}

/// The name of a file without its folder and without `.mod`.
pub fn stem_of(path: &str) -> &str {
    let name = last_of(path);
    name.strip_suffix(BODY).unwrap_or(name)
}

/// The module of which this file is the definition, by its name.
pub fn defined_by(path: &str) -> Option<&str> {
    last_of(path).strip_suffix(DEFINITION)
}

/// Files behind the first by the names of their modules: those of definitions, or those of bodies.
pub fn files_by_name(
    alloc: Global,
    files: &[SourceFile],
    is_definition: bool,
) -> Result<IndexMap<&[u8], usize>, AllocError> {
    let ending = if is_definition { DEFINITION } else { BODY };
    let mut places = IndexMap::new(alloc);
    for (number, file) in files.iter().enumerate().skip(1) {
        if let Some(name) = last_of(file.name.as_str()).strip_suffix(ending) {
            places.insert(name.as_bytes(), number)?;
        }
    }
    Ok(places)
}
