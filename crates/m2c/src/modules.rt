//! The modules that a build hands out, and the storage that they need.

ghost use Rattle.std.specs.Prelude.{◌≡◌, ◌≤◌, ◌<◌, ◌*◌, ◌+◌, ◌++◌, ◌∷◌, [], All, length, IfOk, OnOk, map};
ghost use Rattle.std.specs.String.{string_bytes};
ghost use Rattle.m2_emit.specs.Emitted.{parts};
ghost use Rattle.m2_graph.specs.Refused.{max_files};
ghost use Rattle.def_scheme.specs.Modules.{stack_begin};
ghost use Rattle.m2c.specs.Build.{name_bytes, named_bytes};
ghost use Rattle.m2c.specs.Names.{IsName};

use m2_emit::ModuleBytes;
use m2_tree::Name;
use std::alloc::{AllocError, Global};

/// A name as text.
fn text_of(alloc: Global, name: &Name) -> Result<String, AllocError>
    requires { IsName name.now }
    ensures { IfOk result (λ text. string_bytes text ≡ name.now) }
{
    String::from_utf8_lossy(alloc, name.as_bytes())
}

/// Adds a module, under its name.
fn add_copy(
    alloc: Global,
    copies: &mut Vec<(String, Vec<u8>)>,
    module: &ModuleBytes,
) -> Result<(), AllocError>
    requires { IsName module.now.name }
    ensures { OnOk result (map name_bytes copies.new.items
        ≡ map name_bytes copies.old.items ++ named_bytes module.now ∷ []) }
{
    let name = text_of(alloc, &module.name)?;
    let bytes = Vec::from_slice(alloc, module.bytes.as_slice())?;
    copies.push((name, bytes))?;
    Ok(())
}

/// The encodings of modules, under their names.
pub fn copies_of(
    alloc: Global,
    modules: &[&ModuleBytes],
) -> Result<Vec<(String, Vec<u8>)>, AllocError>
    requires { All (λ m. IsName m.now.name) modules.now }
    ensures { IfOk result (λ ms.
        map name_bytes ms.items ≡ map (λ m. named_bytes m.now) modules.now) }
{
    let mut copies = Vec::new(alloc);
    for module in modules {
        add_copy(alloc, &mut copies, module)?;
    }
    Ok(copies)
}

/// How many bytes the variables and texts of a module take.
fn size_of(module: &ModuleBytes) -> u64
    ensures size { result ≡ module.now.variables + module.now.texts }
    ensures bound { result ≤ 8589934592 }
{
    u64::from(module.variables) + u64::from(module.texts)
}

/// How many bytes the variables and texts of modules take.
#[tactic(auto, using(crate::proofs::Sums::one_more, crate::proofs::Sums::no_overflow))]
pub fn data_size(modules: &[&ModuleBytes]) -> u64
    requires { length modules.now ≤ max_files }
    ensures size { result ≡ stack_begin (parts (map (λ m. m.now) modules.now)) }
    ensures bound { result ≤ length modules.now * 8589934592 }
{
    match modules {
        [] => 0,
        [first, rest @ ..] => size_of(first) + data_size(rest),
    }
}
