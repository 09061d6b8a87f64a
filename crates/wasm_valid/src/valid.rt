//! Valid modules (Core 1.0, section 3.4).

ghost use Rattle.std.specs.Prelude.{◌≢◌, Err, List, ℕ, not, cond, true, ◌≡◌, ◌<◌, ◌^◌, ◌↔◌, ◌⊎◌, All, IsTrue, OnOk, IfOk, MatchResult, map, length};
ghost use Rattle.wasm_tree.specs.Limits.{max_memory};
ghost use Rattle.wasm_tree.specs.Validity.{Context, context, AreLimits, IsFuncType, IsImport, IsFunction, IsGlobal, IsExport, IsElement, IsData, AreDistinct, AreKinds, AreBodies, IsValid};
ghost use Rattle.wasm_valid.specs.CodeScope.{scope_of};
ghost use Rattle.std.specs.Str.{bytes_eq};
ghost use Rattle.wasm_valid.specs.Named.{holds};
ghost use Rattle.wasm_valid.specs.Typing.{Decides};
ghost use Rattle.wasm_valid.specs.Single.{AreSingle};

use crate::scope::{functions_of, initial_scope, names_of, whole_scope};
use crate::{Scope, Spares, check_body, check_constant};
use std::alloc::{AllocError, Global};
use std::collections::HashSet;
use std::marker::Model;
use tree_parts::at;
use wasm_tree::{
    Data, Element, Export, ExportKind, FuncType, Function, Global as Constant, Import, ImportKind,
    Limits, MAX_MEMORY, MemoryType, TableType, ValueType, WFault, WModule,
};

fn are_limits(limits: Limits, most: u64) -> bool
    ensures { IsTrue result ↔ AreLimits most limits }
{
    let min = u64::from(limits.min);
    match limits.max {
        None => min <= most,
        Some(max) => min <= most && u64::from(max) <= most && limits.min <= max,
    }
}

fn is_func_type(func_type: &FuncType) -> bool
    ensures { IsTrue result ↔ IsFuncType func_type.now }
{
    func_type.results.len() <= 1
}

fn is_import(scope: Scope<'_>, import: &Import) -> bool
    ensures { IsTrue result ↔ IsImport (scope_of scope.entry) import.now }
{
    match import.kind {
        ImportKind::Function(type_index) => (type_index as usize) < scope.types.len(),
        ImportKind::Table(table) => are_limits(table.limits, 1 << 32),
        ImportKind::Memory(memory) => are_limits(memory.limits, MAX_MEMORY),
        ImportKind::Global(_) => true,
    }
}

fn check_function(
    alloc: Global,
    spares: &mut Spares,
    ends: &mut Vec<u128>,
    scope: Scope<'_>,
    function: &Function,
) -> Result<(), WFault>
    requires { All IsFuncType scope.types.now }
    ensures { Decides result (IsFunction (scope_of scope.entry) function.now) }
{
    match at(scope.types, function.type_index as usize) {
        Some(func_type) => check_body(alloc, spares, ends, scope, func_type, &function.body),
        None => Err(WFault::Invalid),
    }
}

fn is_export(scope: Scope<'_>, export: &Export) -> bool
    ensures { IsTrue result ↔ IsExport (scope_of scope.entry) export.now }
{
    match export.kind {
        ExportKind::Function(index) => (index as usize) < scope.functions.len(),
        ExportKind::Table(index) => (index as usize) < scope.tables.len(),
        ExportKind::Memory(index) => (index as usize) < scope.memories.len(),
        ExportKind::Global(index) => (index as usize) < scope.globals.len(),
    }
}

fn are_functions(scope: Scope<'_>, functions: &[u32]) -> bool
    ensures { IsTrue result ↔ All (λ f. f < length (scope_of scope.entry).functions) functions.now }
{
    functions
        .iter()
        .all(|f| (*f as usize) < scope.functions.len())
}

/// What stands in a module and is valid or not by itself.
trait Part {
    ghost IsPart: { Context → Self → Type 0 };

    fn check(&self, alloc: Global, scope: Scope<'_>) -> Result<(), WFault>
        ensures { Decides result (IsPart (scope_of scope.entry) self.now) };
}

impl Part for Constant {
    ghost IsPart = { IsGlobal };

    fn check(&self, alloc: Global, scope: Scope<'_>) -> Result<(), WFault> {
        check_constant(alloc, scope, self.value.ops(), self.value_type)
    }
}

impl Part for Element {
    ghost IsPart = { IsElement };

    fn check(&self, alloc: Global, scope: Scope<'_>) -> Result<(), WFault> {
        if scope.tables.len() <= self.table as usize {
            return Err(WFault::Invalid);
        }
        if !are_functions(scope, self.functions.as_slice()) {
            return Err(WFault::Invalid);
        }
        check_constant(alloc, scope, self.offset.ops(), ValueType::I32)
    }
}

impl Part for Data {
    ghost IsPart = { IsData };

    fn check(&self, alloc: Global, scope: Scope<'_>) -> Result<(), WFault> {
        if scope.memories.len() <= self.memory as usize {
            return Err(WFault::Invalid);
        }
        check_constant(alloc, scope, self.offset.ops(), ValueType::I32)
    }
}

fn check_parts<T: Part>(alloc: Global, scope: Scope<'_>, parts: &[T]) -> Result<(), WFault>
    ensures { Decides result (All (T.IsPart (scope_of scope.entry)) parts.now) }
{
    for part in parts {
        part.check(alloc, scope)?;
    }
    Ok(())
}

fn check_functions(alloc: Global, scope: Scope<'_>, functions: &[Function]) -> Result<(), WFault>
    requires { All IsFuncType scope.types.now }
    ensures { Decides result (All (IsFunction (scope_of scope.entry)) functions.now) }
{
    let mut spares = Spares::new(alloc);
    let mut ends = Vec::new(alloc);
    for function in functions {
        check_function(alloc, &mut spares, &mut ends, scope, function)?;
    }
    Ok(())
}

/// Puts the name into the set. Whether it is new there.
fn is_added<'a>(names: &mut HashSet<&'a [u8]>, name: &'a [u8]) -> Result<bool, AllocError>
    ensures new { IfOk result (λ new. new ≡ not (holds names.old name.now)) }
    ensures held { OnOk result
        ((n : List ℕ) → holds names.new n ≡ cond (bytes_eq name.now n) true (holds names.old n)) }
{
    let is_new = names.insert(name)?;
    Ok(is_new)
}

/// Whether no two exports have one name.
fn are_distinct(alloc: Global, exports: &[Export]) -> Result<bool, AllocError>
    ensures { IfOk result (λ yes. IsTrue yes ↔ AreDistinct (map (λ e. e.name) exports.now)) }
{
    let mut names = HashSet::new(alloc);
    let mut left = exports.len();
    while left > 0 {
        left -= 1;
        if !is_added(&mut names, exports[left].name.as_slice())? {
            return Ok(false);
        }
    }
    Ok(true)
}

fn are_func_types(types: &[FuncType]) -> bool
    ensures { IsTrue result ↔ All IsFuncType types.now }
{
    types.iter().all(|t| is_func_type(t))
}

fn are_imports(scope: Scope<'_>, imports: &[Import]) -> bool
    ensures { IsTrue result ↔ All (IsImport (scope_of scope.entry)) imports.now }
{
    imports.iter().all(|i| is_import(scope, i))
}

fn are_tables(tables: &[TableType]) -> bool
    ensures { IsTrue result ↔ All (λ t. AreLimits (2 ^ 32) t.limits) tables.now }
{
    tables.iter().all(|t| are_limits(t.limits, 1 << 32))
}

fn are_memories(memories: &[MemoryType]) -> bool
    ensures { IsTrue result ↔ All (λ m. AreLimits max_memory m.limits) memories.now }
{
    memories.iter().all(|m| are_limits(m.limits, MAX_MEMORY))
}

fn are_exports(scope: Scope<'_>, exports: &[Export]) -> bool
    ensures { IsTrue result ↔ All (IsExport (scope_of scope.entry)) exports.now }
{
    exports.iter().all(|e| is_export(scope, e))
}

fn check_kinds(scope: Scope<'_>, tree: &WModule) -> Result<(), WFault>
    ensures kinds { Decides result (AreKinds (scope_of scope.entry) tree.now) }
    ensures memory { result ≢ Err WFault.NoMemory }
{
    if !are_func_types(tree.types.as_slice()) {
        return Err(WFault::Invalid);
    }
    if !are_imports(scope, tree.imports.as_slice()) {
        return Err(WFault::Invalid);
    }
    if !are_tables(tree.tables.as_slice()) {
        return Err(WFault::Invalid);
    }
    if !are_memories(tree.memories.as_slice()) {
        return Err(WFault::Invalid);
    }
    if !are_exports(scope, tree.exports.as_slice()) {
        return Err(WFault::Invalid);
    }
    Ok(())
}

fn check_bodies(alloc: Global, scope: Scope<'_>, tree: &WModule) -> Result<(), WFault>
    requires { All IsFuncType scope.types.now }
    ensures { Decides result (AreBodies (scope_of scope.entry) tree.now) }
{
    check_functions(alloc, scope, tree.functions.as_slice())?;
    check_parts(alloc, scope, tree.elements.as_slice())?;
    check_parts(alloc, scope, tree.data.as_slice())?;
    Ok(())
}

/// Whether there is at most one table and one memory, and no two exports have one name.
fn check_single(alloc: Global, scope: Scope<'_>, tree: &WModule) -> Result<(), WFault>
    ensures { Decides result (AreSingle (scope_of scope.entry) tree.now) }
{
    if scope.tables.len() > 1 {
        return Err(WFault::Invalid);
    }
    if scope.memories.len() > 1 {
        return Err(WFault::Invalid);
    }
    if !are_distinct(alloc, tree.exports.as_slice())? {
        return Err(WFault::Invalid);
    }
    Ok(())
}

fn check_whole(alloc: Global, tree: &WModule) -> Result<(), WFault>
    ensures { Decides result (IsValid tree.now) }
{
    let names = names_of(alloc, tree)?;
    let scope = whole_scope(tree, &names);
    check_single(alloc, scope, tree)?;
    check_kinds(scope, tree)?;
    check_bodies(alloc, scope, tree)?;
    check_parts(alloc, initial_scope(tree, &names), tree.globals.as_slice())?;
    Ok(())
}

/// A module that is valid.
pub struct ValidModule {
    tree: WModule,
}

// Written by hand, as the drop of a tree.
impl Drop for ValidModule {
    fn drop(self) {
        let ValidModule { tree } = self;
        drop(tree);
    }
}

impl Model for ValidModule {
    ghost use Rattle.wasm_tree.specs.declared.module.WModule.{WModule};
    ghost use Rattle.wasm_tree.specs.Validity.{IsValid};
    ghost use Rattle.wasm_tree.specs.contracts.instr.Instr as e;
    ghost use Rattle.std.specs.Coded.{codes};

    ghost Value = { WModule };

    ghost coded = { Prim.hlevel (codes, e.the_row.coded) };

    ghost view = { λ v. v.tree };

    ghost invariant = { λ v. IsValid v.tree };
}

impl ValidModule {
    /// The module.
    pub fn module(&self) -> &WModule
        ensures value { result.now ≡ self.now }
        ensures valid { IsValid self.now }
    {
        &self.tree
    }

    /// The index of each of its functions' types, the types of imported functions first.
    pub fn function_types(&self, alloc: Global) -> Result<Vec<u32>, AllocError>
        ensures { IfOk result (λ v. v.items ≡ (context self.now).functions) }
    {
        functions_of(alloc, &self.tree)
    }

    /// Its exports, in order.
    pub fn exports(&self) -> &[Export]
        ensures { result.now ≡ self.now.exports }
    {
        self.tree.exports.as_slice()
    }
}

/// The module, if it is valid. `Invalid` if it is not; the module is then dropped.
pub fn validate(alloc: Global, tree: WModule) -> Result<ValidModule, WFault>
    ensures { MatchResult result (λ v. (v ≡ tree) × IsValid tree)
        (λ e. ((e ≡ WFault.Invalid) × (¬ IsValid tree)) ⊎ (e ≡ WFault.NoMemory)) }
{
    match check_whole(alloc, &tree) {
        Ok(()) => Ok(ValidModule { tree }),
        Err(e) => Err(e),
    }
}
