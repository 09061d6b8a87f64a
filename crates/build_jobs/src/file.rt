//! Source files.

/// A file and its name as it was given.
#[derive(Drop)]
pub struct SourceFile {
    pub name: String,
    pub bytes: Vec<u8>,
}
