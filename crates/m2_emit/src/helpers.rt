//! The functions that each module has before its own.

ghost use Rattle.std.specs.Prelude.{◌≡◌, ◌∷◌, [], IfOk};
ghost use Rattle.def_scheme.specs.Modules.{helper, helpers, mod_function};

use crate::code::code_of;
use std::alloc::{AllocError, Global};
use tree_parts::Items;
use wasm_helpers::{check_ops, copy_ops, div_ops, fill_ops, mod_ops};
use wasm_tree::{Body, Code, Function, Locals, ValueType};

/// A function of this type without locals of its own.
pub fn helper(alloc: Global, type_index: u32, code: Code) -> Function
    ensures { result ≡ helper type_index code }
{
    Function {
        type_index,
        body: Body {
            locals: Items::new(alloc),
            code,
        },
    }
}

fn mod_function(alloc: Global) -> Result<Function, AllocError>
    ensures { IfOk result (λ f. f ≡ mod_function) }
{
    let remainder = Locals {
        count: 1,
        value_type: ValueType::I64,
    };
    Ok(Function {
        type_index: 4,
        body: Body {
            locals: Items::from_slice(alloc, &[remainder])?,
            code: code_of(alloc, mod_ops().as_slice())?,
        },
    })
}

/// The helpers, in order of their numbers.
pub fn helpers(alloc: Global) -> Result<Items<Function>, AllocError>
    ensures { IfOk result (λ functions. functions ≡ helpers) }
{
    let mut functions = Items::new(alloc);
    functions.push(helper(alloc, 1, code_of(alloc, copy_ops().as_slice())?))?;
    functions.push(helper(alloc, 2, code_of(alloc, fill_ops().as_slice())?))?;
    functions.push(helper(alloc, 3, code_of(alloc, check_ops().as_slice())?))?;
    functions.push(helper(alloc, 4, code_of(alloc, div_ops().as_slice())?))?;
    functions.push(mod_function(alloc)?)?;
    Ok(functions)
}
