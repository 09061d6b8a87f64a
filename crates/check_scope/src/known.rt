//! What is known of a name.

use crate::meaningless::Meaningless;
use typed_tree::Meaning;

/// Where a name of a block comes from.
#[derive(Clone, Copy, PartialEq, Eq)]
pub enum Origin {
    /// It is declared in the block.
    Here,
    /// It is a module, by the place of its table.
    Module(usize),
    /// It is a name of a module, by the place of the module's table.
    Export(usize),
}

/// What is known of a name of a block.
#[derive(Drop)]
pub enum Known<T> {
    /// It is declared later in the block.
    Later,
    /// It is a procedure whose heading stands later in the block.
    Ahead,
    /// Its declaration has begun.
    Begun,
    /// It is a procedure, with the meaning of its heading. It is known in all bodies of the block.
    Headed(Result<Meaning, Meaningless<T>>),
    /// What it means, or what is reported of its declaration.
    Declared(Origin, Result<Meaning, T>),
}
