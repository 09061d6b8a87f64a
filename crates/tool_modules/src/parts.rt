//! What link has to know of a module that was compiled alone.

ghost use Rattle.std.specs.Prelude.{◌≡◌, IfOk, map, slice_get};
ghost use Rattle.std.specs.List.{AllZip};
ghost use Rattle.std.specs.String.{string_bytes};
ghost use Rattle.tool_modules.specs.Parts.{IsPartOf, IsTextSum, IsTokensSum, IsTold};

use build_jobs::SourceFile;
use compile_module::Interface as Needed;
use link_parts::{Interface, Part, Sizes, interface_sum, sum_of};
use m2_emit::ModuleBytes;
use std::alloc::{AllocError, Global};

/// The checksum of the text of a file.
fn sum_in(alloc: Global, files: &[SourceFile], file: usize) -> Result<String, AllocError>
    ensures { IfOk result (λ sum. IsTextSum (slice_get files.now file) (string_bytes sum)) }
{
    match files.get(file) {
        None => Ok(String::new(alloc)),
        Some(file) => sum_of(alloc, &file.bytes),
    }
}

/// The checksum of the definition in a file.
fn tokens_in(alloc: Global, files: &[SourceFile], file: usize) -> Result<String, AllocError>
    ensures { IfOk result (λ sum. IsTokensSum (slice_get files.now file) (string_bytes sum)) }
{
    match files.get(file) {
        None => Ok(String::new(alloc)),
        Some(file) => interface_sum(alloc, &file.bytes),
    }
}

/// A definition that a module was compiled with, and its checksum.
fn interface_of(
    alloc: Global,
    files: &[SourceFile],
    needed: &Needed,
) -> Result<Interface, AllocError>
    ensures { IfOk result (IsTold files.now needed.now) }
{
    Ok(Interface {
        name: needed.name.clone()?,
        sum: tokens_in(alloc, files, needed.file)?,
    })
}

/// The definitions that a module was compiled with, and their checksums.
fn interfaces_of(
    alloc: Global,
    files: &[SourceFile],
    needed: &[Needed],
) -> Result<Vec<Interface>, AllocError>
    ensures { IfOk result (λ is. AllZip (IsTold files.now) needed.now is.items) }
{
    let mut interfaces = Vec::new(alloc);
    for it in needed {
        interfaces.push(interface_of(alloc, files, it)?)?;
    }
    Ok(interfaces)
}

/// What link has to know of a module that was built from these files, the first of which has its body. It needed these definitions.
pub fn part_of(
    alloc: Global,
    files: &[SourceFile],
    module: &ModuleBytes,
    is_program: bool,
    imports: Vec<String>,
    needed: &[Needed],
) -> Result<Part, AllocError>
    ensures { let names = map string_bytes imports.items in
        IfOk result (IsPartOf files.now «module».now is_program names needed.now) }
{
    let sizes = Sizes {
        variables: module.variables,
        texts: module.texts,
        slots: module.slots,
    };
    Ok(Part {
        name: String::from_utf8_lossy(alloc, module.name.as_bytes())?,
        is_program,
        sizes,
        text: sum_in(alloc, files, 0)?,
        code: sum_of(alloc, module.bytes.as_slice())?,
        imports,
        interfaces: interfaces_of(alloc, files, needed)?,
    })
}
