//! Files to build.

use m2c::SourceFile;
use std::alloc::{AllocError, Global};

/// Files with these names and texts.
pub fn files_of(alloc: Global, texts: &[(&str, &str)]) -> Result<Vec<SourceFile>, AllocError> {
    let mut files = Vec::new(alloc);
    for text in texts {
        files.push(SourceFile {
            name: String::from_str(alloc, text.0)?,
            bytes: Vec::from_slice(alloc, text.1.as_bytes())?,
        })?;
    }
    Ok(files)
}
