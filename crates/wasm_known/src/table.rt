//! Which functions are known, found once for all when modules are linked.

ghost use Rattle.std.specs.Prelude.{◌≡◌, ℕ, IfOk, IfSome, IsTrue, Some};
ghost use Rattle.wasm_tree.specs.Machine.{callee_at, own_function};
ghost use Rattle.wasm_tree.specs.declared.store.Callee.TheVariants.{Own};
ghost use Rattle.wasm_link.specs.Placed.{typed_function};
ghost use Rattle.wasm_helpers.specs.Codes.{check_typed};
ghost use Rattle.wasm_known.specs.Table.{IsRight, Means, RowIsRight, Stands, known_in};

use crate::codes::{is_check, is_copy, is_div, is_fill, is_mod};
use std::alloc::{AllocError, Global};
use tree_parts::{Items, at};
use wasm_link::{TypedFunction, own_function};
use wasm_tree::{Callee, Store};
use wasm_valid::ValidModule;

/// The number of check among the functions of its module, as div and mod call it.
const CHECK: usize = 4;

/// A function, by its code.
#[derive(Clone, Copy, PartialEq, Eq)]
pub enum KnownFunction {
    /// None of those that are known.
    Other,
    /// Leaves a number that is between its bounds.
    Check,
    /// The quotient of two numbers, rounded down.
    Divide,
    /// The remainder of two numbers, from 0 up.
    Modulo,
    /// Sets bytes to 0.
    Fill,
    /// Copies bytes, from the first to the last.
    Copy,
}

/// What the table says of the function of this index in a module.
#[inline(always)]
pub fn known_at(table: &[Items<KnownFunction>], instance: usize, index: u32) -> KnownFunction
    ensures { result ≡ known_in table.now instance index }
{
    if instance < table.len() {
        let row = table[instance].as_slice();
        if (index as usize) < row.len() {
            return row[index as usize];
        }
    }
    KnownFunction::Other
}

/// The function of an index, if it is there.
fn callee_found(store: &Store, instance: usize, index: usize) -> Option<Callee>
    ensures { result ≡ callee_at store.now instance index }
{
    let instance = at(store.instances.as_slice(), instance)?;
    let address = at(instance.functions.as_slice(), index)?;
    Some(*at(store.functions.as_slice(), *address)?)
}

/// The function of an index behind the number of its module, if a module declares it.
fn own_found<'a>(
    modules: &'a [ValidModule],
    store: &Store,
    instance: usize,
    index: usize,
) -> Option<(usize, TypedFunction<'a>)>
    ensures { IfSome result (λ p.
        (f : ℕ) × (callee_at store.now instance index ≡ Some (Own p.0 f))
        × (own_function modules.now p.0 f ≡ Some (typed_function p.1))) }
{
    match callee_found(store, instance, index)? {
        Callee::Own { module, function } => {
            Some((module, own_function(modules, module, function)?))
        }
        _ => None,
    }
}

/// Whether the function of this module that div and mod call is check.
fn has_check(modules: &[ValidModule], store: &Store, number: usize) -> bool
    ensures { IsTrue result → Stands modules.now store.now number 4 number check_typed }
{
    match own_found(modules, store, number, CHECK) {
        Some((own, function)) => own == number && is_check(function),
        None => false,
    }
}

/// What the function of an index is.
fn kind_of(modules: &[ValidModule], store: &Store, instance: usize, index: usize) -> KnownFunction
    ensures { Means modules.now store.now instance index result }
{
    let Some((own, function)) = own_found(modules, store, instance, index) else {
        return KnownFunction::Other;
    };
    if is_check(function) {
        return KnownFunction::Check;
    }
    if is_fill(function) {
        return KnownFunction::Fill;
    }
    if is_copy(function) {
        return KnownFunction::Copy;
    }
    if is_div(function) && has_check(modules, store, own) {
        return KnownFunction::Divide;
    }
    if is_mod(function) && has_check(modules, store, own) {
        return KnownFunction::Modulo;
    }
    KnownFunction::Other
}

/// How many functions a module has.
fn count_functions(store: &Store, instance: usize) -> usize {
    match at(store.instances.as_slice(), instance) {
        Some(instance) => instance.functions.len(),
        None => 0,
    }
}

/// What the functions of a module are.
fn row(
    alloc: Global,
    modules: &[ValidModule],
    store: &Store,
    instance: usize,
) -> Result<Items<KnownFunction>, AllocError>
    ensures { IfOk result (λ row. RowIsRight modules.now store.now instance row) }
{
    let mut row = Vec::new(alloc);
    for index in 0..count_functions(store, instance) {
        row.push(kind_of(modules, store, instance, index))?;
    }
    Ok(Items::from_vec(row))
}

/// What the functions of all modules are.
pub fn known_functions(
    alloc: Global,
    modules: &[ValidModule],
    store: &Store,
) -> Result<Items<Items<KnownFunction>>, AllocError>
    ensures { IfOk result (λ table. IsRight modules.now store.now table) }
{
    let mut table = Vec::new(alloc);
    for instance in 0..store.instances.len() {
        let functions = row(alloc, modules, store, instance)?;
        table.push(functions)?;
    }
    Ok(Items::from_vec(table))
}
