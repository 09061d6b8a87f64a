//! Functions of modules and their types (Core 1.0, section 3.3.2).

ghost use Rattle.std.specs.Prelude.{◌≡◌, ◌&&◌};
ghost use Rattle.wasm_tree.specs.Machine.{is_same_value_type, are_same, is_same_type, callee_type, own_function, agree, Typed};
ghost use Rattle.wasm_link.specs.Placed.{typed_of, type_of_ref};

use tree_parts::at;
use wasm_tree::{Callee, FuncType, Function, ValueType};
use wasm_valid::ValidModule;

pub fn is_same_value_type(x: ValueType, y: ValueType) -> bool
    ensures { result ≡ is_same_value_type x y }
{
    match x {
        ValueType::I32 => matches!(y, ValueType::I32),
        ValueType::I64 => matches!(y, ValueType::I64),
    }
}

fn are_same(xs: &[ValueType], ys: &[ValueType]) -> bool
    ensures { result ≡ are_same xs.now ys.now }
{
    if xs.len() != ys.len() {
        return false;
    }
    for k in 0..xs.len() {
        if !is_same_value_type(xs[k], ys[k]) {
            return false;
        }
    }
    true
}

/// Whether a function takes and gives these.
pub fn has_types(t: &FuncType, params: &[ValueType], results: &[ValueType]) -> bool
    ensures { result ≡ (are_same t.now.params params.now && are_same t.now.results results.now) }
{
    are_same(t.params.as_slice(), params) && are_same(t.results.as_slice(), results)
}

/// Whether two functions take and give the same.
pub fn is_same_type(t: &FuncType, u: &FuncType) -> bool
    ensures { result ≡ is_same_type t.now u.now }
{
    has_types(t, u.params.as_slice(), u.results.as_slice())
}

/// A function that a module declares.
#[derive(Clone, Copy)]
pub struct TypedFunction<'a> {
    pub func_type: &'a FuncType,
    pub function: &'a Function,
}

/// The function of this number that the module of that number declares.
pub fn own_function(
    modules: &[ValidModule],
    number: usize,
    function: usize,
) -> Option<TypedFunction<'_>>
    ensures { typed_of result ≡ own_function modules.now number function }
{
    let tree = at(modules, number)?.module();
    let function = at(tree.functions.as_slice(), function)?;
    let func_type = at(tree.types.as_slice(), function.type_index as usize)?;
    Some(TypedFunction {
        func_type,
        function,
    })
}

/// Whether the function can be called as one of the type asked for.
pub fn agrees(modules: &[ValidModule], asked: Option<&FuncType>, callee: Callee) -> bool
    ensures { result ≡ agree (type_of_ref asked.entry) (callee_type modules.now callee) }
{
    let Some(asked) = asked else {
        return false;
    };
    match callee {
        Callee::Put | Callee::Stop => has_types(asked, &[ValueType::I64], &[]),
        Callee::Own { module, function } => match own_function(modules, module, function) {
            None => false,
            Some(typed) => is_same_type(asked, typed.func_type),
        },
    }
}
