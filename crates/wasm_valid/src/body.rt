//! Bodies of functions (Core 1.0, section 3.4.1).

ghost use Rattle.std.specs.Prelude.{[], ◌≡◌, ◌≤◌, length};
ghost use Rattle.wasm_tree.specs.Validity.{IsFuncType, function_context, result_types, Leads};
ghost use Rattle.wasm_valid.specs.CodeScope.{scope_of};
ghost use Rattle.wasm_valid.specs.Typing.{Decides};

use crate::code_scope::Scope;
use crate::frame::Frame;
use crate::grouped::{Groups, count_ends};
use crate::operands::Spares;
use crate::typing::check_code;
use std::alloc::Global;
use tree_parts::Items;
use wasm_tree::{Body, FuncType, ValueType, WFault};

/// What the function gives.
fn result_of(results: &[ValueType]) -> Option<ValueType>
    requires { length results.now ≤ 1 }
    ensures { result_types result ≡ results.now }
{
    if results.is_empty() {
        None
    } else {
        Some(results[0])
    }
}

/// Whether the body is the body of a function of this type. `Invalid` if it is not; `NoMemory` if memory is refused.
/// `spares` and `ends` are room that the next body may use again.
pub fn check_body<'a>(
    alloc: Global,
    spares: &mut Spares,
    ends: &'a mut Vec<u128>,
    scope: Scope<'a>,
    func_type: &'a FuncType,
    body: &'a Body,
) -> Result<(), WFault>
    requires { IsFuncType func_type.now }
    ensures { Decides result
        (Leads (function_context (scope_of scope.entry) func_type.now body.now.locals)
        body.now.code [] func_type.now.results) }
{
    let returns = result_of(func_type.results.as_slice());
    let groups = body.locals.as_slice();
    count_ends(ends, groups)?;
    let frame = Frame {
        scope,
        params: func_type.params.as_slice(),
        locals: Groups {
            groups,
            ends: ends.as_slice(),
        },
        returns,
    };
    let mut blocks = Items::new(alloc);
    blocks.push(returns)?;
    check_code(spares, &frame, &mut blocks, body.code.ops(), returns)
}
