//! Modules in the text format.

ghost use Rattle.std.specs.Prelude.{◌++◌, codes, decimal};
ghost use Rattle.std.specs.List.{flat_map};
ghost use Rattle.show_code.specs.Pages.{Puts};
ghost use Rattle.show_code.specs.Instructions.{code_text, label_text};
ghost use Rattle.show_code.specs.Modules.{back_text, data_text, element_text, export_text, front_text, function_kind_text, function_text, functions_text, global_head, global_text, heading_text, import_parts, import_text, kind_text, limits_text, locals_text, memory_text, middle_text, module_text, most_text, offset_text, repeat_bytes, signature_text, table_text, thing_text, title_at, type_text, types_text};

use crate::instructions::put_ops;
use crate::page::Page;
use crate::strings::put_string;
use crate::words::value_type_word;
use wasm_tree::{
    Code, Data, Element, Export, ExportKind, FuncType, Function, Global, Import, ImportKind,
    Limits, Locals, MemoryType, TableType, ValueType, WModule,
};

/// The level of code in a module.
const CODE_LEVEL: usize = 2;

/// Puts code.
fn put_code(page: &mut Page, code: &Code)
    ensures { Puts page.old page.new (code_text 2 code.now) }
{
    put_ops(page, CODE_LEVEL, code.ops());
}

/// Puts types of numbers, each behind a word.
fn put_value_types(page: &mut Page, word: &str, types: &[ValueType])
    ensures { Puts page.old page.new (types_text word.now types.now) }
{
    for value_type in types {
        page.put(word.as_bytes());
        page.put(value_type_word(*value_type).as_bytes());
        page.put(b")");
    }
}

/// Puts the type of a function that takes and gives these.
fn put_signature(page: &mut Page, params: &[ValueType], results: &[ValueType])
    ensures { Puts page.old page.new (signature_text params.now results.now) }
{
    page.put(b"  (type (func");
    put_value_types(page, " (param ", params);
    put_value_types(page, " (result ", results);
    page.put(b"))\n");
}

fn put_type(page: &mut Page, of: &FuncType)
    ensures { Puts page.old page.new (type_text of.now) }
{
    put_signature(page, of.params.as_slice(), of.results.as_slice());
}

fn put_types(page: &mut Page, types: &[FuncType])
    ensures { Puts page.old page.new (flat_map type_text types.now) }
{
    for of in types {
        put_type(page, of);
    }
}

/// Puts the greatest size, if there is one.
fn put_most(page: &mut Page, most: Option<u32>)
    ensures { Puts page.old page.new (most_text most) }
{
    match most {
        None => {}
        Some(most) => {
            page.put(b" ");
            page.put_number(u64::from(most));
        }
    }
}

fn put_limits(page: &mut Page, limits: Limits)
    ensures { Puts page.old page.new (limits_text limits) }
{
    page.put(b" ");
    page.put_number(u64::from(limits.min));
    put_most(page, limits.max);
}

/// Puts that an import asks for a function of this type.
fn put_function_kind(page: &mut Page, type_index: u32)
    ensures { Puts page.old page.new (function_kind_text type_index) }
{
    page.put(b" (func (type ");
    page.put_number(u64::from(type_index));
    page.put(b"))");
}

/// Puts what an import asks for.
#[tactic(auto, unfolding(crate::specs::Modules::kind_text))]
fn put_kind(page: &mut Page, kind: ImportKind)
    ensures { Puts page.old page.new (kind_text kind) }
{
    match kind {
        ImportKind::Function(type_index) => put_function_kind(page, type_index),
        ImportKind::Table(table) => {
            page.put(b" (table");
            put_limits(page, table.limits);
            page.put(b" funcref)");
        }
        ImportKind::Memory(memory) => {
            page.put(b" (memory");
            put_limits(page, memory.limits);
            page.put(b")");
        }
        ImportKind::Global(value_type) => {
            page.put(b" (global ");
            page.put(value_type_word(value_type).as_bytes());
            page.put(b")");
        }
    }
}

/// Puts an import of this name from the module of this name.
fn put_import_parts(page: &mut Page, module_name: &[u8], name: &[u8], kind: ImportKind)
    ensures { Puts page.old page.new (import_parts module_name.now name.now kind) }
{
    page.put(b"  (import");
    put_string(page, module_name);
    put_string(page, name);
    put_kind(page, kind);
    page.put(b")\n");
}

fn put_import(page: &mut Page, import: &Import)
    ensures { Puts page.old page.new (import_text import.now) }
{
    let module_name = import.module_name.as_slice();
    put_import_parts(page, module_name, import.name.as_slice(), import.kind);
}

fn put_imports(page: &mut Page, imports: &[Import])
    ensures { Puts page.old page.new (flat_map import_text imports.now) }
{
    for import in imports {
        put_import(page, import);
    }
}

fn put_tables(page: &mut Page, tables: &[TableType])
    ensures { Puts page.old page.new (flat_map table_text tables.now) }
{
    for table in tables {
        page.put(b"  (table");
        put_limits(page, table.limits);
        page.put(b" funcref)\n");
    }
}

fn put_memories(page: &mut Page, memories: &[MemoryType])
    ensures { Puts page.old page.new (flat_map memory_text memories.now) }
{
    for memory in memories {
        page.put(b"  (memory");
        put_limits(page, memory.limits);
        page.put(b")\n");
    }
}

/// Puts the begin of a global.
#[tactic(auto, unfolding(crate::specs::Modules::global_head))]
fn put_global_head(page: &mut Page, value_type: ValueType)
    ensures { Puts page.old page.new (global_head value_type) }
{
    page.put(b"  (global ");
    page.put(value_type_word(value_type).as_bytes());
    page.put(b"\n");
}

#[tactic(auto, unfolding(crate::specs::Modules::global_text))]
fn put_global(page: &mut Page, global: &Global)
    ensures { Puts page.old page.new (global_text global.now) }
{
    put_global_head(page, global.value_type);
    put_code(page, &global.value);
    page.put(b"  )\n");
}

fn put_globals(page: &mut Page, globals: &[Global])
    ensures { Puts page.old page.new (flat_map global_text globals.now) }
{
    for global in globals {
        put_global(page, global);
    }
}

/// Puts a word and a number.
fn put_counted(page: &mut Page, word: &[u8], number: u32)
    ensures { Puts page.old page.new (word.now ++ decimal number) }
{
    page.put(word);
    page.put_number(u64::from(number));
}

/// Puts what is exported.
fn put_thing(page: &mut Page, kind: ExportKind)
    ensures { Puts page.old page.new (thing_text kind) }
{
    match kind {
        ExportKind::Function(number) => put_counted(page, b" (func ", number),
        ExportKind::Table(number) => put_counted(page, b" (table ", number),
        ExportKind::Memory(number) => put_counted(page, b" (memory ", number),
        ExportKind::Global(number) => put_counted(page, b" (global ", number),
    }
}

#[tactic(auto, unfolding(crate::specs::Modules::export_text))]
fn put_export(page: &mut Page, export: &Export)
    ensures { Puts page.old page.new (export_text export.now) }
{
    page.put(b"  (export");
    put_string(page, export.name.as_slice());
    put_thing(page, export.kind);
    page.put(b"))\n");
}

fn put_exports(page: &mut Page, exports: &[Export])
    ensures { Puts page.old page.new (flat_map export_text exports.now) }
{
    for export in exports {
        put_export(page, export);
    }
}

/// Puts the numbers of functions.
fn put_numbers(page: &mut Page, numbers: &[u32])
    ensures { Puts page.old page.new (flat_map label_text numbers.now) }
{
    for number in numbers {
        put_counted(page, b" ", *number);
    }
}

/// Puts the begin of what stands in a table or a memory from an offset on.
fn put_offset(page: &mut Page, word: &[u8], offset: &Code)
    ensures { Puts page.old page.new (offset_text word.now offset.now) }
{
    page.put(b"  (");
    page.put(word);
    page.put(b" (offset\n");
    put_code(page, offset);
    page.put(b"    )");
}

#[tactic(auto, unfolding(crate::specs::Modules::element_text))]
fn put_element(page: &mut Page, element: &Element)
    ensures { Puts page.old page.new (element_text element.now) }
{
    put_offset(page, b"elem", &element.offset);
    page.put(b" func");
    put_numbers(page, element.functions.as_slice());
    page.put(b")\n");
}

fn put_elements(page: &mut Page, elements: &[Element])
    ensures { Puts page.old page.new (flat_map element_text elements.now) }
{
    for element in elements {
        put_element(page, element);
    }
}

/// Puts bytes several times.
fn put_times(page: &mut Page, count: u32, word: &str)
    ensures { Puts page.old page.new (repeat_bytes count (codes " " ++ word.now)) }
{
    for _ in 0..count {
        page.put(b" ");
        page.put(word.as_bytes());
    }
}

/// Puts locals of one type.
fn put_locals(page: &mut Page, locals: Locals)
    ensures { Puts page.old page.new (locals_text locals) }
{
    page.put(b"    (local");
    put_times(page, locals.count, value_type_word(locals.value_type));
    page.put(b")\n");
}

fn put_all_locals(page: &mut Page, groups: &[Locals])
    ensures { Puts page.old page.new (flat_map locals_text groups.now) }
{
    for locals in groups {
        put_locals(page, *locals);
    }
}

/// Puts what is said of the function of this number, as a comment.
fn put_title(page: &mut Page, titles: &[Vec<u8>], number: usize)
    ensures { Puts page.old page.new (title_at titles.now number) }
{
    match titles.get(number) {
        None => {}
        Some(title) => {
            page.put(b" ;; ");
            page.put(title);
        }
    }
}

/// Puts the begin of a function: its type, and what is said of it.
fn put_heading(page: &mut Page, titles: &[Vec<u8>], number: usize, type_index: u32)
    ensures { Puts page.old page.new (heading_text (title_at titles.now number) type_index) }
{
    page.put(b"  (func (type ");
    page.put_number(u64::from(type_index));
    page.put(b")");
    put_title(page, titles, number);
    page.put(b"\n");
}

#[tactic(auto, unfolding(crate::specs::Modules::function_text))]
fn put_function(page: &mut Page, titles: &[Vec<u8>], number: usize, function: &Function)
    ensures { Puts page.old page.new (function_text (title_at titles.now number) function.now) }
{
    put_heading(page, titles, number, function.type_index);
    put_all_locals(page, function.body.locals.as_slice());
    put_code(page, &function.body.code);
    page.put(b"  )\n");
}

fn put_functions(page: &mut Page, titles: &[Vec<u8>], functions: &[Function])
    ensures { Puts page.old page.new (functions_text titles.now 0 functions.now) }
{
    for (number, function) in functions.iter().enumerate() {
        put_function(page, titles, number, function);
    }
}

#[tactic(auto, unfolding(crate::specs::Modules::data_text))]
fn put_data(page: &mut Page, part: &Data)
    ensures { Puts page.old page.new (data_text part.now) }
{
    put_offset(page, b"data", &part.offset);
    put_string(page, part.bytes.as_slice());
    page.put(b")\n");
}

fn put_all_data(page: &mut Page, parts: &[Data])
    ensures { Puts page.old page.new (flat_map data_text parts.now) }
{
    for part in parts {
        put_data(page, part);
    }
}

/// Puts what stands before the globals.
#[tactic(auto, unfolding(crate::specs::Modules::front_text))]
fn put_front(page: &mut Page, module_tree: &WModule)
    ensures { Puts page.old page.new (front_text module_tree.now) }
{
    page.put(b"(module\n");
    put_types(page, module_tree.types.as_slice());
    put_imports(page, module_tree.imports.as_slice());
    put_tables(page, module_tree.tables.as_slice());
    put_memories(page, module_tree.memories.as_slice());
}

/// Puts what stands from there on before the functions.
#[tactic(auto, unfolding(crate::specs::Modules::middle_text))]
fn put_middle(page: &mut Page, module_tree: &WModule)
    ensures { Puts page.old page.new (middle_text module_tree.now) }
{
    put_globals(page, module_tree.globals.as_slice());
    put_exports(page, module_tree.exports.as_slice());
    put_elements(page, module_tree.elements.as_slice());
}

/// Puts the functions of a module.
fn put_all_functions(page: &mut Page, titles: &[Vec<u8>], module_tree: &WModule)
    ensures { Puts page.old page.new (functions_text titles.now 0 module_tree.now.functions) }
{
    put_functions(page, titles, module_tree.functions.as_slice());
}

/// Puts what stands behind the functions.
#[tactic(auto, unfolding(crate::specs::Modules::back_text))]
fn put_back(page: &mut Page, module_tree: &WModule)
    ensures { Puts page.old page.new (back_text module_tree.now) }
{
    put_all_data(page, module_tree.data.as_slice());
    page.put(b")\n");
}

/// Puts a module, in the text format that `wat2wasm` reads: each part of it in rows, in the order of its sections. What is
/// said of a function, by its number among those that the module has itself, stands behind its type as a comment. It is to
/// have no end of a line. Each instruction has a row, and the code inside of one has more blanks in front, up to the 32nd
/// level.
///
///
pub fn put_module(page: &mut Page, titles: &[Vec<u8>], module_tree: &WModule)
    ensures { Puts page.old page.new (module_text titles.now module_tree.now) }
{
    put_front(page, module_tree);
    put_middle(page, module_tree);
    put_all_functions(page, titles, module_tree);
    put_back(page, module_tree);
}
