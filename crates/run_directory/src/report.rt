//! What comes of a directory.

use wasm_engine::{End, RunFault};
use wasm_tree::WFault;

/// What comes of the modules of a directory.
#[derive(Clone, Copy)]
pub enum Report<'a> {
    /// They were linked and executed up to here.
    Ran(End),
    /// The file of the module of this name could not be read.
    Unread(&'a str),
    /// A fault of the module of this name; `link` stands for all if they could not be linked.
    Refused(&'a str, WFault),
    /// The run was broken off.
    Broken(RunFault),
}
