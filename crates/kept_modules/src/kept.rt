//! What is kept of a build.

use link_parts::Part;

/// What is kept of a definition.
#[derive(Drop)]
pub struct Definition {
    pub name: String,
    /// The checksum of its text.
    pub text: String,
    /// The checksum of its tokens.
    pub tokens: String,
    /// The modules that it imports, in order, each once, without Console.
    pub imports: Vec<String>,
}

/// What is kept of a program. All bodies were compiled with the same definitions, so no body names those that it needs. Checksums are
/// those of `short_sum`, and those of tokens of `definition_sum`.
#[derive(Drop)]
pub struct Kept {
    /// The definitions, in the order of the program's files.
    pub definitions: Vec<Definition>,
    /// The program module, and behind it the others in the order in which they start.
    pub bodies: Vec<Part>,
}
