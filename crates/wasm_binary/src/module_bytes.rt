//! Whole modules in bytes (Core 1.0, section 5.5.15).

ghost use Rattle.std.specs.Prelude.{◌≡◌, ◌≢◌, Err, IsOk, ◌++◌, List, ℕ, true, false, ◌&&◌, [], map, OnOk, IfOk, Ok, MatchResult, ◌⊎◌, length, nat_lt, ◌^◌};
ghost use Rattle.std.specs.List.{list_all};
ghost use Rattle.wasm_code.specs.Bytes as byte;
ghost use Rattle.wasm_code.specs.Number.{unsigned};
ghost use Rattle.wasm_code.specs.Parts.{section};
ghost use Rattle.wasm_tree.specs.Format.{Format, Gives};
ghost use Rattle.wasm_binary.specs.Binary.{body, data_segment, element_segment, export, func_type, global, import, memory_type, table_type, header, skip_all, bodies, code_entries, code_content, code_section, at_end, module_at, types_of, bodies_encoding, code_encoding, first_sections, middle_sections, last_sections, module_encoding, module_fits, Encodes, IsOnlyEncoding};
ghost use Rattle.wasm_tree.specs.declared.fault.WFault.TheVariants.{NoMemory};
ghost use Rattle.wasm_tree.specs.declared.module.WModule.{WModule};

use crate::binary::{Binary, body_over, section, write_section};
use std::alloc::{AllocError, Global};
use tree_parts::Items;
use wasm_code::{Writer, byte, close_part, front, skip, unsigned_at};
use wasm_tree::{EncodeError, Function, WFault, WModule};

/// The magic number and the version.
const HEADER: [u8; 8] = [0x00, 0x61, 0x73, 0x6D, 0x01, 0x00, 0x00, 0x00];

/// The bytes behind all of these.
fn skip_all_at<'a>(expected: &[u8], bytes: &'a [u8]) -> Result<&'a [u8], WFault>
    ensures gives { Gives (λ x. x.now) result (skip_all expected.now bytes.now) }
    ensures memory { result ≢ Err WFault.NoMemory }
{
    let mut rest = bytes;
    for byte in expected {
        rest = skip(*byte, rest)?;
    }
    Ok(rest)
}

/// The bodies of functions of these types.
fn bodies_at<'a>(
    alloc: Global,
    types: &[u32],
    bytes: &'a [u8],
) -> Result<(Items<Function>, &'a [u8]), WFault>
    ensures { Gives (λ x. (x.0, x.1.now)) result (bodies types.now bytes.now) }
{
    let mut functions = Items::from_vec(Vec::with_capacity(alloc, types.len())?);
    let mut scratch = Vec::new(alloc);
    let mut rest = bytes;
    for type_index in types {
        let (body, after) = body_over(alloc, &mut scratch, rest)?;
        functions.push(Function {
            type_index: *type_index,
            body,
        })?;
        rest = after;
    }
    Ok((functions, rest))
}

/// The content of the code section: as many bodies as there are types.
#[tactic(auto, unfolding(crate::specs::Binary::code_entries))]
fn code_entries_at<'a>(
    alloc: Global,
    types: &[u32],
    bytes: &'a [u8],
) -> Result<(Items<Function>, &'a [u8]), WFault>
    ensures { Gives (λ x. (x.0, x.1.now)) result (code_entries types.now bytes.now) }
{
    let (count, rest) = unsigned_at(bytes)?;
    if count as usize != types.len() {
        return Err(WFault::Malformed);
    }
    bodies_at(alloc, types, rest)
}

#[tactic(auto, unfolding(crate::specs::Binary::code_content))]
fn code_content_at<'a>(
    alloc: Global,
    types: &[u32],
    bytes: &'a [u8],
) -> Result<(Items<Function>, &'a [u8]), WFault>
    ensures { Gives (λ x. (x.0, x.1.now)) result (code_content types.now bytes.now) }
{
    let (size, after) = unsigned_at(bytes)?;
    let (functions, left) = code_entries_at(alloc, types, front(after, size))?;
    let rest = close_part(size, after, left)?;
    Ok((functions, rest))
}

/// The code section, which has to come if functions have types, and may not if none has.
fn code_section_at<'a>(
    alloc: Global,
    types: &[u32],
    bytes: &'a [u8],
) -> Result<(Items<Function>, &'a [u8]), WFault>
    ensures { Gives (λ x. (x.0, x.1.now)) result (code_section types.now bytes.now) }
{
    if types.is_empty() {
        return Ok((Items::new(alloc), bytes));
    }
    match bytes {
        [] => Err(WFault::Malformed),
        [byte::CODE_SECTION, rest @ ..] => code_content_at(alloc, types, rest),
        [_, ..] => Err(WFault::OutsideProfile),
    }
}

/// Nothing may follow the last section.
fn at_end(bytes: &[u8]) -> Result<(), WFault>
    ensures gives { Gives (λ _. tt) result (at_end bytes.now) }
    ensures memory { result ≢ Err WFault.NoMemory }
{
    if bytes.is_empty() {
        Ok(())
    } else {
        Err(WFault::OutsideProfile)
    }
}

#[tactic(auto, unfolding(crate::specs::Binary::module_at))]
fn module_at(alloc: Global, bytes: &[u8]) -> Result<WModule, WFault>
    ensures gives { Gives (λ m. (m, [])) result (module_at bytes.now) }
    ensures memory { result ≡ Err WFault.NoMemory → IsOk (skip_all header bytes.now) }
{
    let rest = skip_all_at(&HEADER, bytes)?;
    let (types, rest) = section(alloc, byte::TYPE_SECTION, rest)?;
    let (imports, rest) = section(alloc, byte::IMPORT_SECTION, rest)?;
    let (uses, rest) = section::<u32>(alloc, byte::FUNCTION_SECTION, rest)?;
    let (tables, rest) = section(alloc, byte::TABLE_SECTION, rest)?;
    let (memories, rest) = section(alloc, byte::MEMORY_SECTION, rest)?;
    let (globals, rest) = section(alloc, byte::GLOBAL_SECTION, rest)?;
    let (exports, rest) = section(alloc, byte::EXPORT_SECTION, rest)?;
    let (elements, rest) = section(alloc, byte::ELEMENT_SECTION, rest)?;
    let (functions, rest) = code_section_at(alloc, uses.as_slice(), rest)?;
    let (data, rest) = section(alloc, byte::DATA_SECTION, rest)?;
    at_end(rest)?;
    Ok(WModule {
        types,
        imports,
        functions,
        tables,
        memories,
        globals,
        exports,
        elements,
        data,
    })
}

/// The module that the bytes encode. `Malformed` or `OutsideProfile` if they encode none: which of the two, the first
/// byte decides that cannot continue an encoding or that breaks a stated size.
pub fn read_module(alloc: Global, bytes: &[u8]) -> Result<WModule, WFault>
    // A module exactly if the bytes encode it.
    ensures decided { MatchResult result (λ m. Encodes bytes.now m)
        (λ e. (e ≡ NoMemory) ⊎ ((m : WModule) → ¬ (Encodes bytes.now m))) }
    // Which fault it is.
    ensures exact { Gives (λ m. (m, [])) result (module_at bytes.now) }
    // No memory is asked for before the header is there.
    ensures memory { result ≡ Err WFault.NoMemory → IsOk (skip_all header bytes.now) }
{
    module_at(alloc, bytes)
}

/// Appends the code section, or nothing if there is no function.
fn write_code_section(out: &mut Writer, functions: &[Function]) -> Result<(), EncodeError>
    ensures written { OnOk result (out.new ≡ out.old ++ code_encoding functions.now) }
    ensures bodies { OnOk result (list_all (λ f. body.fits f.body) functions.now ≡ true) }
    ensures size { OnOk result (nat_lt (length (bodies_encoding functions.now)) (2 ^ 32) ≡ true) }
    ensures unfit { result ≡ Err EncodeError.NoEncoding
        → (list_all (λ f. body.fits f.body) functions.now
        && nat_lt (length (bodies_encoding functions.now)) (2 ^ 32))
        ≡ false }
{
    if functions.is_empty() {
        return Ok(());
    }
    let mut content = out.inner();
    write_bodies(&mut content, functions)?;
    out.byte(byte::CODE_SECTION)?;
    out.part(content.as_slice())
}

fn write_bodies(out: &mut Writer, functions: &[Function]) -> Result<(), EncodeError>
    ensures written { OnOk result (out.new ≡ out.old ++ bodies_encoding functions.now) }
    ensures fits { OnOk result (list_all (λ f. body.fits f.body) functions.now ≡ true) }
    ensures unfit { result ≡ Err EncodeError.NoEncoding
        → list_all (λ f. body.fits f.body) functions.now ≡ false }
{
    out.unsigned(functions.len() as u64)?;
    for function in functions {
        function.body.write(out)?;
    }
    Ok(())
}

fn types_of(alloc: Global, functions: &[Function]) -> Result<Vec<u32>, AllocError>
    ensures { IfOk result (λ v. v.items ≡ types_of functions.now) }
{
    let mut uses = Vec::new(alloc);
    for function in functions {
        uses.push(function.type_index)?;
    }
    Ok(uses)
}

/// The header, and the sections of types, imports and functions.
#[tactic(auto, using(crate::proofs::Whole::unfit_types, crate::proofs::Whole::unfit_imports, crate::proofs::Whole::unfit_uses), unfolding(crate::specs::Binary::first_sections))]
fn write_first(out: &mut Writer, uses: &[u32], tree: &WModule) -> Result<(), EncodeError>
    requires { uses.now ≡ types_of tree.now.functions }
    ensures written { OnOk result (out.new ≡ out.old ++ first_sections tree.now) }
    ensures types { OnOk result ((section byte.type_section func_type).fits tree.now.types ≡ true) }
    ensures imports { OnOk result
        ((section byte.import_section import).fits tree.now.imports ≡ true) }
    ensures uses { OnOk result ((section byte.function_section unsigned).fits uses.now ≡ true) }
    ensures unfit { result ≡ Err EncodeError.NoEncoding → module_fits tree.now ≡ false }
{
    out.bytes(&HEADER)?;
    write_section(out, byte::TYPE_SECTION, tree.types.as_slice())?;
    write_section(out, byte::IMPORT_SECTION, tree.imports.as_slice())?;
    write_section(out, byte::FUNCTION_SECTION, uses)
}

/// The sections of tables, memories, globals and exports.
#[tactic(auto, using(crate::proofs::Whole::unfit_tables, crate::proofs::Whole::unfit_memories, crate::proofs::Whole::unfit_globals, crate::proofs::Whole::unfit_exports), unfolding(crate::specs::Binary::middle_sections))]
fn write_middle(out: &mut Writer, tree: &WModule) -> Result<(), EncodeError>
    ensures written { OnOk result (out.new ≡ out.old ++ middle_sections tree.now) }
    ensures tables { OnOk result
        ((section byte.table_section table_type).fits tree.now.tables ≡ true) }
    ensures memories { OnOk result
        ((section byte.memory_section memory_type).fits tree.now.memories ≡ true) }
    ensures globals { OnOk result
        ((section byte.global_section global).fits tree.now.globals ≡ true) }
    ensures exports { OnOk result
        ((section byte.export_section export).fits tree.now.exports ≡ true) }
    ensures unfit { result ≡ Err EncodeError.NoEncoding → module_fits tree.now ≡ false }
{
    write_section(out, byte::TABLE_SECTION, tree.tables.as_slice())?;
    write_section(out, byte::MEMORY_SECTION, tree.memories.as_slice())?;
    write_section(out, byte::GLOBAL_SECTION, tree.globals.as_slice())?;
    write_section(out, byte::EXPORT_SECTION, tree.exports.as_slice())
}

/// The sections of elements, code and data.
#[tactic(auto, using(crate::proofs::Whole::unfit_elements, crate::proofs::Whole::unfit_code, crate::proofs::Whole::unfit_contents), unfolding(crate::specs::Binary::last_sections))]
fn write_last(out: &mut Writer, tree: &WModule) -> Result<(), EncodeError>
    ensures written { OnOk result (out.new ≡ out.old ++ last_sections tree.now) }
    ensures elements { OnOk result
        ((section byte.element_section element_segment).fits tree.now.elements ≡ true) }
    ensures bodies { OnOk result (list_all (λ f. body.fits f.body) tree.now.functions ≡ true) }
    ensures size { OnOk result
        (nat_lt (length (bodies_encoding tree.now.functions)) (2 ^ 32) ≡ true) }
    ensures contents { OnOk result
        ((section byte.data_section data_segment).fits tree.now.data ≡ true) }
    ensures unfit { result ≡ Err EncodeError.NoEncoding → module_fits tree.now ≡ false }
{
    write_section(out, byte::ELEMENT_SECTION, tree.elements.as_slice())?;
    write_code_section(out, tree.functions.as_slice())?;
    write_section(out, byte::DATA_SECTION, tree.data.as_slice())
}

#[tactic(auto, using(crate::proofs::Whole::whole_fits), unfolding(crate::specs::Binary::module_encoding))]
fn write_whole(alloc: Global, tree: &WModule) -> Result<Vec<u8>, EncodeError>
    ensures written { IfOk result (λ v. v.items ≡ module_encoding tree.now) }
    ensures fits { OnOk result (module_fits tree.now ≡ true) }
    ensures unfit { result ≡ Err EncodeError.NoEncoding → module_fits tree.now ≡ false }
{
    let uses = types_of(alloc, tree.functions.as_slice())?;
    let mut out = Writer::new(alloc);
    write_first(&mut out, &uses, tree)?;
    write_middle(&mut out, tree)?;
    write_last(&mut out, tree)?;
    Ok(out.into_bytes())
}

/// The bytes that encode the module: no others do. The only error is that memory ran out, or that the module has no
/// encoding: a vector or a part too long, blocks that nest too deep, a name that is not UTF-8.
pub fn write_module(alloc: Global, tree: &WModule) -> Result<Vec<u8>, EncodeError>
    ensures written { IfOk result (λ v. v.items ≡ module_encoding tree.now) }
    ensures only { IfOk result (λ v. IsOnlyEncoding v.items tree.now) }
    // Each module that has an encoding is written, as long as there is memory.
    ensures unfit { result ≡ Err EncodeError.NoEncoding → module_fits tree.now ≡ false }
{
    write_whole(alloc, tree)
}
