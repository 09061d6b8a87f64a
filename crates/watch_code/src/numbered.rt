//! Code with signals at instructions that are known by their numbers.

use crate::module::HELPERS;
use crate::rewriting::Rewriting;
use crate::signals::{LEFT, PRINTED, PUT, entered, mark_signal};
use std::alloc::{AllocError, Global};
use std::mem;
use tree_parts::Items;
use wasm_tree::{Code, Function, Op, WModule};

/// A walk over the code of a function.
#[derive(Drop)]
struct Walk<'a> {
    /// The numbers of the instructions with signals, and how many of them were come to.
    numbers: &'a [u32],
    met: usize,
    made: Rewriting,
}

impl Walk<'_> {
    /// The operation of this number.
    fn pass(&mut self, at: usize, op: Op) -> Result<(), AllocError> {
        self.made.begin()?;
        if self
            .numbers
            .get(self.met)
            .is_some_and(|it| *it as usize == at)
        {
            if let Some(signal) = mark_signal(self.met) {
                self.made.signal(&signal)?;
            }
            self.met = self.met.saturating_add(1);
        }
        match op {
            Op::Call(PUT) => self.made.signal(&[PRINTED])?,
            Op::Return => self.made.signal(&[LEFT])?,
            _ => {}
        }
        self.made.put(op)
    }
}

/// The code of the function of this number with signals at these instructions.
fn code_with_numbers(
    alloc: Global,
    code: &Code,
    number: u32,
    numbers: &[u32],
) -> Result<Code, AllocError> {
    let ops = code.ops();
    let mut walk = Walk {
        numbers,
        met: 0,
        made: Rewriting::new(alloc),
    };
    walk.made.signal(&entered(number))?;
    for (at, op) in ops.iter().enumerate() {
        walk.pass(at, *op)?;
    }
    if ops.last() != Some(&Op::Unreachable) {
        walk.made.begin()?;
        walk.made.signal(&[LEFT])?;
    }
    let Walk { made, .. } = walk;
    Ok(Code::new(made.finish(ops)))
}

/// Puts signals into one of the module's own functions.
fn signal_in(
    alloc: Global,
    function: &mut Function,
    own: usize,
    first: u32,
    numbers: &[Vec<u32>],
) -> Result<(), AllocError> {
    if let Some(numbers) = numbers.get(own) {
        let number = first.saturating_add(u32::try_from(own).unwrap_or(u32::MAX));
        let code = code_with_numbers(alloc, &function.body.code, number, numbers.as_slice())?;
        function.body.code = code;
    }
    Ok(())
}

/// A module of a program as it was built, with signals. `numbers` has for each of its functions, the body first, the numbers of the
/// instructions at which it signals, as `watch_module` does at marks. The functions have numbers from `first` on.
///
/// The only error is that memory ran out.
pub fn watch_numbered(
    alloc: Global,
    tree: WModule,
    first: u32,
    numbers: &[Vec<u32>],
) -> Result<WModule, AllocError> {
    let mut tree = tree;
    let mut functions = mem::replace(&mut tree.functions, Items::new(alloc)).into_vec();
    for (at, function) in functions.iter_mut().enumerate() {
        if at >= HELPERS {
            signal_in(alloc, function, at.saturating_sub(HELPERS), first, numbers)?;
        }
    }
    tree.functions = Items::from_vec(functions);
    Ok(tree)
}
