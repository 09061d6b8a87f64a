//! The modules of a directory.

ghost use Rattle.std.specs.Prelude.{◌≡◌, ◌∷◌, [], ◌++◌, List, Some, map, IfOk, IfErr};
ghost use Rattle.std.specs.String.{string_bytes};
ghost use Rattle.wasm_tree.specs.declared.module.WModule.{WModule};
ghost use Rattle.run_directory.specs.Directory.{FileRead, Read, HasRead, file_of, IsModule, AreModules};
ghost use Rattle.run_directory.specs.Reported.{IsMissing, FirstMissing};

use crate::dir::InDir;
use crate::report::Report;
use std::alloc::{AllocError, Global};
use wasm_binary::read_module;
use wasm_tree::WFault;
use wasm_valid::{ValidModule, validate};

/// The bytes of a module's file.
fn bytes_of<'n, D: InDir>(alloc: Global, dir: &mut D, name: &'n str) -> Result<Vec<u8>, Report<'n>>
    ensures ok { IfOk result (λ bytes. HasRead D.reads D.gives
        (Read (file_of name.now) (Some bytes.items) ∷ []) dir.old dir.new) }
    ensures err { IfErr result (λ r.
        (reads : List FileRead)
        × HasRead D.reads D.gives reads dir.old dir.new
        × IsMissing reads name.now r) }
{
    let Ok(file) = format!(in alloc; "{name}.wasm") else {
        return Err(Report::Refused(name, WFault::NoMemory));
    };
    match dir.read(alloc, file.as_str()) {
        None => Err(Report::Unread(name)),
        Some(bytes) => Ok(bytes),
    }
}

/// The module of this name.
pub fn module_of<'n, D: InDir>(
    alloc: Global,
    dir: &mut D,
    name: &'n str,
) -> Result<ValidModule, Report<'n>>
    ensures ok { IfOk result (λ tree.
        (read : FileRead)
        × HasRead D.reads D.gives (read ∷ []) dir.old dir.new
        × IsModule read name.now tree) }
    ensures err { IfErr result (λ r.
        (reads : List FileRead)
        × HasRead D.reads D.gives reads dir.old dir.new
        × IsMissing reads name.now r) }
{
    let bytes = bytes_of(alloc, dir, name)?;
    let tree = match read_module(alloc, &bytes) {
        Ok(tree) => tree,
        Err(fault) => return Err(Report::Refused(name, fault)),
    };
    match validate(alloc, tree) {
        Ok(module) => Ok(module),
        Err(fault) => Err(Report::Refused(name, fault)),
    }
}

fn add_module<'n, D: InDir>(
    alloc: Global,
    dir: &mut D,
    name: &'n str,
    modules: &mut Vec<ValidModule>,
) -> Result<(), Report<'n>>
    ensures ok { IfOk result (λ _.
        (read : FileRead)
        × HasRead D.reads D.gives (read ∷ []) dir.old dir.new
        × (tree : WModule)
        × (modules.new.items ≡ modules.old.items ++ tree ∷ [])
        × IsModule read name.now tree) }
    ensures err { IfErr result (λ r.
        (reads : List FileRead)
        × HasRead D.reads D.gives reads dir.old dir.new
        × IsMissing reads name.now r) }
{
    let module = module_of(alloc, dir, name)?;
    if modules.push(module).is_err() {
        return Err(Report::Refused(name, WFault::NoMemory));
    }
    Ok(())
}

/// A list of this module alone.
pub fn alone(alloc: Global, tree: ValidModule) -> Result<Vec<ValidModule>, AllocError>
    ensures { IfOk result (λ v. v.items ≡ tree ∷ []) }
{
    let mut list = Vec::new(alloc);
    list.push(tree)?;
    Ok(list)
}

/// These modules, and behind them the modules of these names.
pub fn modules_of<'n, D: InDir>(
    alloc: Global,
    dir: &mut D,
    first: Vec<ValidModule>,
    names: &'n [String],
) -> Result<Vec<ValidModule>, Report<'n>>
    ensures ok { IfOk result (λ v.
        (reads : List FileRead)
        × HasRead D.reads D.gives reads dir.old dir.new
        × (others : List WModule)
        × (v.items ≡ first.items ++ others)
        × AreModules reads (map string_bytes names.now) others) }
    ensures err { IfErr result (λ r.
        (reads : List FileRead)
        × HasRead D.reads D.gives reads dir.old dir.new
        × FirstMissing reads (map string_bytes names.now) r) }
{
    let mut modules = first;
    for name in names {
        match add_module(alloc, dir, name, &mut modules) {
            Ok(()) => {}
            Err(report) => return Err(report),
        }
    }
    Ok(modules)
}
