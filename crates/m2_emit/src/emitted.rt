//! What is emitted for a module.

use m2_tree::Name;
use tree_parts::Items;

/// The bytes of a module, and what the module link needs to know of it.
#[derive(Drop)]
pub struct ModuleBytes {
    pub name: Name,
    pub bytes: Items<u8>,
    /// How many bytes its variables take.
    pub variables: u32,
    /// How many bytes its texts take.
    pub texts: u32,
    /// How many slots of the table it fills: one for its body, and one for each of its procedures.
    pub slots: u32,
}
