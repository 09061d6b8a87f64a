//! The modules that link's exports name.

ghost use Rattle.std.specs.Prelude.{◌≡◌, ◌++◌, map, IfOk};
ghost use Rattle.std.specs.List.{list_all};
ghost use Rattle.std.specs.Char.{is_ascii_alphanumeric};
ghost use Rattle.std.specs.Str.{bytes_eq};
ghost use Rattle.std.specs.Option.{option_to_list};
ghost use Rattle.std.specs.String.{string_bytes};
ghost use Rattle.run_directory.specs.Directory.{begins_with_letter, is_module_name, module_named, module_names, bytes_of};

use std::alloc::{AllocError, Global};
use wasm_tree::Export;

/// How many characters a name may have.
const MAX_NAME: usize = 64;

fn begins_with_letter(name: &[u8]) -> bool
    ensures { result ≡ begins_with_letter name.now }
{
    match name.first() {
        None => false,
        Some(first) => first.is_ascii_alphabetic(),
    }
}

fn is_word(name: &[u8]) -> bool
    ensures { result ≡ list_all is_ascii_alphanumeric name.now }
{
    name.iter().all(|b| b.is_ascii_alphanumeric())
}

fn is_same(name: &[u8], other: &[u8]) -> bool
    ensures { result ≡ bytes_eq name.now other.now }
{
    name == other
}

/// Whether this is a module's name: a letter, then letters and digits, `MAX_NAME` at most, and not link.
fn is_module_name(name: &[u8]) -> bool
    ensures { result ≡ is_module_name name.now }
{
    begins_with_letter(name) && is_word(name) && name.len() <= MAX_NAME && !is_same(name, b"link")
}

/// The module that an export of this name stands for: M for `tab.M`.
fn module_named(export: &[u8]) -> Option<&[u8]>
    ensures { bytes_of result ≡ module_named export.now }
{
    if export.len() < 4 {
        return None;
    }
    let (prefix, name) = export.split_at(4);
    if is_same(prefix, b"tab.") && is_module_name(name) {
        Some(name)
    } else {
        None
    }
}

fn add_name(alloc: Global, names: &mut Vec<String>, export: &Export) -> Result<(), AllocError>
    ensures { IfOk result (λ _.
        map string_bytes names.new.items
        ≡ map string_bytes names.old.items ++ option_to_list (module_named export.now.name)) }
{
    if let Some(name) = module_named(export.name.as_slice()) {
        names.push(String::from_utf8_lossy(alloc, name)?)?;
    }
    Ok(())
}

/// The modules that these exports name, in their order.
pub fn module_names(alloc: Global, exports: &[Export]) -> Result<Vec<String>, AllocError>
    ensures { IfOk result (λ names. map string_bytes names.items ≡ module_names exports.now) }
{
    let mut names = Vec::new(alloc);
    for export in exports {
        add_name(alloc, &mut names, export)?;
    }
    Ok(names)
}
