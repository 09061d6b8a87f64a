//! Where a run is (Core 1.0, section 4.2): functions that run or wait, with their labels and operands.

use wasm_operands::Operands;
use wasm_tree::{Op, Store};

/// A block that was begun. A branch to it keeps `arity` operands above the lowest `height` ones and goes on with `again`;
/// behind its end stands `rest`.
#[derive(Clone, Copy)]
pub struct Label<'a> {
    pub arity: usize,
    pub height: usize,
    pub again: &'a [Op],
    pub rest: &'a [Op],
}

/// A function that runs, or waits for one that it called. The last label is the innermost one.
pub struct Frame<'a> {
    pub instance: usize,
    pub arity: usize,
    pub locals: Operands,
    pub labels: Vec<Label<'a>>,
    pub rest: &'a [Op],
    pub stack: Operands,
}

// Written by hand, so that proofs above take a drop as one call, and not as one for each field.
impl Drop for Frame<'_> {
    fn drop(self) {
        let Frame {
            instance: _,
            arity: _,
            locals,
            labels,
            rest: _,
            stack,
        } = self;
        drop(locals);
        drop(labels);
        drop(stack);
    }
}

/// A memory while the run goes on: its bytes, and the most pages that it may have.
#[derive(Drop)]
pub struct Pages {
    pub bytes: Vec<u8>,
    pub max: Option<u32>,
}

/// Linked modules while their run goes on. The memories and the values of globals stand apart from the store. The spare frames are those that were
/// left: what they hold means nothing, and the room that they have is used by later calls.
pub struct Machine<'a> {
    pub store: Store,
    pub memories: Vec<Pages>,
    pub globals: Operands,
    pub now: Frame<'a>,
    pub callers: Vec<Frame<'a>>,
    pub spare: Vec<Frame<'a>>,
}

// Written by hand, as the drop of a frame.
impl Drop for Machine<'_> {
    fn drop(self) {
        let Machine {
            store,
            memories,
            globals,
            now,
            callers,
            spare,
        } = self;
        drop(store);
        drop(memories);
        drop(globals);
        drop(now);
        drop(callers);
        drop(spare);
    }
}

/// What a reduction led to.
#[derive(Clone, Copy, PartialEq, Eq)]
pub enum Reduced {
    /// The run goes on.
    On,
    /// The run goes on, and this byte is printed.
    Printed(u8),
    /// The run is over, with this number.
    Over(u8),
    /// The run trapped.
    Trapped,
}
