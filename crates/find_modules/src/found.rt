//! What is found of modules.

use m2_tree::Name;

/// The two texts of a module, and where they were found.
#[derive(Drop)]
pub struct Sources {
    /// The number of the folder that has them.
    pub folder: usize,
    /// The text of the definition.
    pub definition: Vec<u8>,
    /// The text of the implementation, if this folder has one.
    pub implementation: Option<Vec<u8>>,
}

/// A module that is imported.
#[derive(Drop)]
pub struct FoundModule {
    /// Its name.
    pub name: Name,
    /// Its texts, or nothing if no folder has its definition.
    pub sources: Option<Sources>,
}
