//! The module link.

ghost use Rattle.std.specs.Prelude.{◌≡◌, ◌≤◌, ◌+◌, ◌++◌, ◌∷◌, [], IfOk, OnOk, Some, map};
ghost use Rattle.wasm_tree.specs.declared.code.Op.TheVariants as op;
ghost use Rattle.wasm_tree.specs.declared.kinds.ValueType.TheVariants as types;
ghost use Rattle.wasm_tree.specs.declared.module.ExportKind.TheVariants as exported;
ghost use Rattle.def_scheme.specs.Scheme.{exported_as, type_from};
ghost use Rattle.def_scheme.specs.Modules.{all_slots, calls_from, exports_from, globals_from, link_of, max_pages, stack_begin};
ghost use Rattle.emit_buffer.specs.Cut.{cut, cut_code, cut_export, cut_global, cut_module};
ghost use Rattle.m2_emit.specs.Emitted.{parts, link_exports};

use crate::emitted::ModuleBytes;
use crate::helpers::helper;
use crate::parts::{constant_global, exported_as, name_behind_word, one, type_from};
use emit_buffer::Amount;
use std::alloc::{AllocError, Global};
use tree_parts::Items;
use wasm_tree::{
    Code, Export, ExportKind, FuncType, Function, Global as Constant, Limits, MemoryType, Op,
    PAGE_SIZE, TableType, ValueType, WModule,
};

/// How many globals link has for each module: where its variables, its texts and its slots begin.
const GLOBALS: usize = 3;

/// Where the stack begins: behind the variables and texts of all modules.
fn stack_begin(modules: &[&ModuleBytes]) -> Amount
    ensures { result ≡ stack_begin (parts (map (λ m. m.now) modules.now)) }
{
    let mut all = Amount::of(0);
    for module in modules {
        let variables = Amount::of(module.variables as usize);
        all = all.plus(&variables.plus(&Amount::of(module.texts as usize)));
    }
    all
}

/// The slots of all modules.
fn all_slots(modules: &[&ModuleBytes]) -> Amount
    ensures { result ≡ all_slots (parts (map (λ m. m.now) modules.now)) }
{
    let mut all = Amount::of(0);
    for module in modules {
        all = all.plus(&Amount::of(module.slots as usize));
    }
    all
}

/// Appends of each module the places of its variables and texts, and its first slot.
fn push_globals(
    alloc: Global,
    globals: &mut Items<Constant>,
    modules: &[&ModuleBytes],
) -> Result<(), AllocError>
    ensures { let ms = parts (map (λ m. m.now) modules.now) in
        OnOk result (globals.new ≡ globals.old ++ map cut_global (globals_from 0 1 ms)) }
{
    let mut place = Amount::of(0);
    let mut slot = Amount::of(1);
    for module in modules {
        let texts = place.plus(&Amount::of(module.variables as usize));
        globals.push(constant_global(alloc, &place)?)?;
        globals.push(constant_global(alloc, &texts)?)?;
        globals.push(constant_global(alloc, &slot)?)?;
        place = texts.plus(&Amount::of(module.texts as usize));
        slot = slot.plus(&Amount::of(module.slots as usize));
    }
    Ok(())
}

/// A global under a name that begins with a word.
fn exported_global(
    alloc: Global,
    word: &[u8],
    name: &[u8],
    global: &Amount,
) -> Result<Export, AllocError>
    ensures { let kind = exported.Global global.now in
        IfOk result (λ e. e ≡ cut_export (exported_as (word.now ++ name.now) kind)) }
{
    Ok(Export {
        name: name_behind_word(alloc, word, name)?,
        kind: ExportKind::Global(global.kept()),
    })
}

/// Appends the three globals of each module.
fn push_modules(
    alloc: Global,
    exports: &mut Items<Export>,
    modules: &[&ModuleBytes],
) -> Result<(), AllocError>
    ensures { let ms = parts (map (λ m. m.now) modules.now) in
        OnOk result (exports.new ≡ exports.old ++ map cut_export (exports_from 1 ms)) }
{
    let mut global = Amount::of(1);
    for module in modules {
        let name = module.name.as_bytes();
        let text = global.plus(&Amount::of(1));
        let slot = global.plus(&Amount::of(2));
        exports.push(exported_global(alloc, b"base.", name, &global)?)?;
        exports.push(exported_global(alloc, b"text.", name, &text)?)?;
        exports.push(exported_global(alloc, b"tab.", name, &slot)?)?;
        global = global.plus(&Amount::of(GLOBALS));
    }
    Ok(())
}

/// The memory, the table, the globals, and the function that runs the bodies.
fn link_exports(alloc: Global, modules: &[&ModuleBytes]) -> Result<Items<Export>, AllocError>
    ensures { let ms = parts (map (λ m. m.now) modules.now) in
        IfOk result (λ exports. exports ≡ map cut_export (link_exports ms)) }
{
    let mut exports = one(alloc, exported_as(alloc, b"memory", ExportKind::Memory(0))?)?;
    exports.push(exported_as(alloc, b"table", ExportKind::Table(0))?)?;
    exports.push(exported_as(alloc, b"limit", ExportKind::Global(0))?)?;
    push_modules(alloc, &mut exports, modules)?;
    exports.push(exported_as(alloc, b"run", ExportKind::Function(0))?)?;
    Ok(exports)
}

/// Appends a call of the body whose slot is in this global, on a stack that begins here.
fn push_call(ops: &mut Vec<Op>, stack: &Amount, global: &Amount) -> Result<(), AllocError>
    ensures { let more =
        op.I32Const (cut stack.now) ∷ op.GlobalGet (cut global.now) ∷ op.CallIndirect 1 ∷ [] in
        OnOk result (ops.new.items ≡ ops.old.items ++ more) }
{
    ops.push(Op::I32Const(stack.kept()))?;
    ops.push(Op::GlobalGet(global.kept()))?;
    ops.push(Op::CallIndirect(1))?;
    Ok(())
}

/// Calls of the bodies, one after another.
fn calls(alloc: Global, stack: &Amount, modules: &[&ModuleBytes]) -> Result<Code, AllocError>
    ensures { let ms = parts (map (λ m. m.now) modules.now) in
        IfOk result (λ code. code ≡ cut_code (calls_from stack.now 3 ms)) }
{
    let mut ops = Vec::new(alloc);
    let mut global = Amount::of(GLOBALS);
    for _ in modules {
        push_call(&mut ops, stack, &global)?;
        global = global.plus(&Amount::of(GLOBALS));
    }
    Ok(Code::new(ops))
}

fn link_types(alloc: Global) -> Result<Items<FuncType>, AllocError>
    ensures { IfOk result (λ ts. ts ≡ type_from [] [] ∷ type_from (types.I32 ∷ []) [] ∷ []) }
{
    let run = type_from(alloc, &[], &[])?;
    let body = type_from(alloc, &[ValueType::I32], &[])?;
    Ok(Items::from_vec(vec![in alloc; run, body]?))
}

fn fixed_limits(size: u32) -> Limits
    ensures { result ≡ record { min = size; max = Some size } }
{
    Limits {
        min: size,
        max: Some(size),
    }
}

/// The module link for these modules in start order, with `pages` pages of memory and its numbers cut.
pub fn link_of(alloc: Global, modules: &[&ModuleBytes], pages: u32) -> Result<WModule, AllocError>
    requires { pages ≤ max_pages }
    ensures { let ms = parts (map (λ m. m.now) modules.now) in
        IfOk result (λ m. m ≡ cut_module (link_of ms pages)) }
{
    let slots = fixed_limits(Amount::of(1).plus(&all_slots(modules)).kept());
    let stack = stack_begin(modules);
    let run = helper(alloc, 0, calls(alloc, &stack, modules)?);
    let limit = Amount::of((PAGE_SIZE * pages) as usize);
    let mut globals = one(alloc, constant_global(alloc, &limit)?)?;
    push_globals(alloc, &mut globals, modules)?;
    Ok(WModule {
        types: link_types(alloc)?,
        imports: Items::new(alloc),
        functions: one(alloc, run)?,
        tables: one(alloc, TableType { limits: slots })?,
        memories: one(
            alloc,
            MemoryType {
                limits: fixed_limits(pages),
            },
        )?,
        globals,
        exports: link_exports(alloc, modules)?,
        elements: Items::new(alloc),
        data: Items::new(alloc),
    })
}
