//! What indices stand for (Core 1.0, section 4.2.7): in linked modules it is there.

ghost use Rattle.std.specs.Prelude.{◌≡◌, Some, slice_get, map};
ghost use Rattle.wasm_tree.specs.Machine.{callee_at, callee_in, global_at, memory_of, own_function, type_at};
ghost use Rattle.wasm_link.specs.Placed.{typed_function};
ghost use Rattle.wasm_machine.specs.Going.{memory_from};
ghost use Rattle.wasm_machine.specs.There.{IsThere, HasSlots};

use crate::frame::Pages;
use tree_parts::at;
use wasm_link::TypedFunction;
use wasm_operands::Operands;
use wasm_tree::{Callee, FuncType, Store};
use wasm_valid::ValidModule;

/// The element at an index.
#[inline(always)]
pub fn the<T>(items: &[T], index: usize) -> &T
    requires { IsThere (slice_get items.now index) }
    ensures { slice_get items.now index ≡ Some result.now }
{
    &items[index]
}

/// Where the value of a global stands among the values of all.
#[inline(always)]
pub fn place_of_global(store: &Store, globals: &Operands, instance: usize, index: u32) -> usize
    requires { IsThere
        (global_at (record store.now { globals = globals.now.known.values }) instance index) }
    ensures { global_at (record store.now { globals = globals.now.known.values }) instance index
        ≡ slice_get globals.now.known.values result }
{
    let instance = the(store.instances.as_slice(), instance);
    *the(instance.globals.as_slice(), index as usize)
}

/// The function of an index.
#[inline(always)]
pub fn callee_at(store: &Store, instance: usize, index: u32) -> Callee
    requires { IsThere (callee_at store.now instance index) }
    ensures { callee_at store.now instance index ≡ Some result }
{
    let instance = the(store.instances.as_slice(), instance);
    let address = the(instance.functions.as_slice(), index as usize);
    *the(store.functions.as_slice(), *address)
}

/// The function in a slot of the module's table, if the table has the slot and it is filled.
#[inline(always)]
pub fn callee_in(store: &Store, instance: usize, slot: u32) -> Option<Callee>
    requires { ∥ HasSlots store.now instance slot ∥₁ }
    ensures { result ≡ callee_in store.now instance slot }
{
    let instance = the(store.instances.as_slice(), instance);
    let table = the(instance.tables.as_slice(), 0);
    let table = the(store.tables.as_slice(), *table);
    let address = (*at(table.slots.as_slice(), slot as usize)?)?;
    Some(*the(store.functions.as_slice(), address))
}

/// The module's memory, behind its place.
#[inline(always)]
pub fn memory_of<'m>(store: &Store, memories: &'m [Pages], instance: usize) -> (usize, &'m Pages)
    requires { IsThere
        (memory_of (record store.now { memories = map memory_from memories.now }) instance) }
    ensures { memory_of (record store.now { memories = map memory_from memories.now }) instance
        ≡ Some (result.0, memory_from result.1.now) }
{
    let instance = the(store.instances.as_slice(), instance);
    let address = *the(instance.memories.as_slice(), 0);
    (address, the(memories, address))
}

/// The type of an index.
#[inline(always)]
pub fn type_at(modules: &[ValidModule], number: usize, index: u32) -> &FuncType
    requires { IsThere (type_at modules.now number index) }
    ensures { type_at modules.now number index ≡ Some result.now }
{
    the(
        the(modules, number).module().types.as_slice(),
        index as usize,
    )
}

/// The function of this number that the module of that number declares.
#[inline(always)]
pub fn function_at(modules: &[ValidModule], number: usize, function: usize) -> TypedFunction<'_>
    requires { IsThere (own_function modules.now number function) }
    ensures { own_function modules.now number function ≡ Some (typed_function result) }
{
    let tree = the(modules, number).module();
    let function = the(tree.functions.as_slice(), function);
    let func_type = the(tree.types.as_slice(), function.type_index as usize);
    TypedFunction {
        func_type,
        function,
    }
}
