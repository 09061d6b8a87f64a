//! What comes of a module that is compiled alone.

use m2_emit::ModuleBytes;
use m2_tree::Refusal;
use tree_parts::Shared;

/// A definition that a module was compiled with.
#[derive(Drop)]
pub struct Interface {
    /// The name of its module.
    pub name: String,
    /// The place of its file among those that were given.
    pub file: usize,
}

/// What comes of a module that is compiled alone.
#[derive(Drop)]
pub enum Made {
    /// The rules that the texts break, in order of the names of their files.
    Refused(Vec<Refusal>),
    /// A definition, in which no rule is broken.
    Defined,
    /// A body, in which no rule is broken.
    Built {
        module: Shared<ModuleBytes>,
        /// Whether it is a program module.
        is_program: bool,
        /// The modules that its definition and then its body imports, in order, each once, without Console.
        imports: Vec<String>,
        /// The definitions behind the first file, in the order in which they were given.
        interfaces: Vec<Interface>,
    },
}
