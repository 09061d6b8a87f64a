//! The search for the modules of a program.

ghost use Rattle.std.specs.Prelude.{◌≡◌, ◌≤◌, ◌∷◌, [], length, map, IfOk, OnOk};
ghost use Rattle.typed_tree.specs.Names.{enter_name};
ghost use Rattle.find_modules.specs.Found.{IsAt, AreSources, BodyImports, AreOf, AreAdded, Knows, SourcesImport, TextsImport, first_of, is_among, max_modules};

use crate::folders::{FindFault, ModuleFolders, Part};
use crate::found::{FoundModule, Sources};
use crate::imports::imports_of;
use m2_tree::{Name, is_console};
use std::alloc::{AllocError, Global};
use typed_tree::Dictionary;

/// The most modules whose imports are followed: as many as a program may have files, so one with more is refused.
pub const MAX_MODULES: usize = 1024;

/// The first folder that has the definition of this module, and the definition.
fn definition_of<F: ModuleFolders>(
    alloc: Global,
    folders: &F,
    name: &Name,
) -> Result<Option<(usize, Vec<u8>)>, FindFault>
    ensures { IfOk result (IsAt (F.gives folders.now) (F.count folders.now) name.now) }
{
    for folder in 0..folders.count() {
        if let Some(text) = folders.read(alloc, folder, name, Part::Definition)? {
            return Ok(Some((folder, text)));
        }
    }
    Ok(None)
}

/// The texts of this module: its definition from the first folder that has one, and the implementation beside it.
fn sources_of<F: ModuleFolders>(
    alloc: Global,
    folders: &F,
    name: &Name,
) -> Result<Option<Sources>, FindFault>
    ensures { IfOk result (AreSources (F.gives folders.now) (F.count folders.now) name.now) }
{
    let Some((folder, definition)) = definition_of(alloc, folders, name)? else {
        return Ok(None);
    };
    let implementation = folders.read(alloc, folder, name, Part::Implementation)?;
    Ok(Some(Sources {
        folder,
        definition,
        implementation,
    }))
}

/// Whether a module of this name was looked for before.
#[tactic(auto, using(crate::proofs::Steps::known_none, crate::proofs::Steps::known_some))]
fn is_known(name: &Name, known: &Dictionary<usize>) -> bool
    ensures { result ≡ is_among name.now (map first_of known.now) }
{
    match known.find(name.as_bytes()) {
        None => false,
        Some(_) => true,
    }
}

/// Enters the name of a module that is looked for.
fn enter(
    alloc: Global,
    name: &Name,
    number: usize,
    known: &mut Dictionary<usize>,
) -> Result<(), AllocError>
    ensures { OnOk result (known.new ≡ enter_name name.now number known.old) }
{
    known.enter(alloc, name.as_bytes(), number)
}

/// Looks for a module, unless it is built in or was looked for before.
#[tactic(auto, using(crate::proofs::Steps::known_more, crate::proofs::Steps::one_known, crate::proofs::Steps::one_added))]
fn add_module<F: ModuleFolders>(
    alloc: Global,
    folders: &F,
    name: &Name,
    modules: &mut Vec<FoundModule>,
    known: &mut Dictionary<usize>,
) -> Result<(), FindFault>
    requires { Knows known.old modules.old.items }
    ensures added { OnOk result (AreAdded (F.gives folders.now) (F.count folders.now)
        (name.now ∷ []) modules.old.items modules.new.items) }
    ensures known { OnOk result (Knows known.new modules.new.items) }
{
    if is_console(name.as_bytes()) || is_known(name, known) {
        return Ok(());
    }
    let sources = sources_of(alloc, folders, name)?;
    enter(alloc, name, modules.len(), known)?;
    let name = name.clone()?;
    modules.push(FoundModule { name, sources })?;
    Ok(())
}

/// Looks for each of these modules.
fn add_modules<F: ModuleFolders>(
    alloc: Global,
    folders: &F,
    names: &[Name],
    modules: &mut Vec<FoundModule>,
    known: &mut Dictionary<usize>,
) -> Result<(), FindFault>
    requires { Knows known.old modules.old.items }
    ensures added { OnOk result (AreAdded (F.gives folders.now) (F.count folders.now) names.now
        modules.old.items modules.new.items) }
    ensures known { OnOk result (Knows known.new modules.new.items) }
{
    for name in names {
        add_module(alloc, folders, name, modules, known)?;
    }
    Ok(())
}

/// The modules that an implementation imports, if there is one.
fn imports_of_body(alloc: Global, text: &Option<Vec<u8>>) -> Result<Vec<Name>, FindFault>
    ensures { IfOk result (λ names. BodyImports text.now names.items) }
{
    match text {
        None => Ok(Vec::new(alloc)),
        Some(text) => imports_of(alloc, text),
    }
}

/// The modules that the texts of a module import: the definition's before the implementation's.
fn imports_of_sources(alloc: Global, sources: &Sources) -> Result<Vec<Name>, FindFault>
    ensures { IfOk result (λ names. TextsImport sources.now names.items) }
{
    let mut names = imports_of(alloc, &sources.definition)?;
    let mut more = imports_of_body(alloc, &sources.implementation)?;
    names.append(&mut more)?;
    Ok(names)
}

/// The modules that a module imports, and none if it was not found.
fn imports_of_module(alloc: Global, module: &FoundModule) -> Result<Vec<Name>, FindFault>
    ensures { IfOk result (λ names. SourcesImport module.now.sources names.items) }
{
    match &module.sources {
        None => Ok(Vec::new(alloc)),
        Some(sources) => imports_of_sources(alloc, sources),
    }
}

/// Finds the modules that a program imports, and the modules that they import, and so on, in the order in which the
/// texts name them: first the modules that the program's text names, then those of each module's definition and
/// implementation, module by module. Each is looked for once. `Console` is built in and is left out.
///
/// The definition of a module comes from the first folder that has one, and the implementation from the same folder. What
/// is not there is left to the compiler, which refuses it. If there are more than 1024 modules, the search ends.
///
/// `NoMemory` if a request for memory was refused. `Unread` if a file is there and cannot be read.
pub fn find<F: ModuleFolders>(
    alloc: Global,
    folders: &F,
    program: &[u8],
) -> Result<Vec<FoundModule>, FindFault>
    // No program that the compiler accepts has more modules.
    ensures { IfOk result (λ modules. length modules.items ≤ max_modules
        → AreOf (F.gives folders.now) (F.count folders.now) program.now modules.items) }
{
    let mut modules = Vec::new(alloc);
    let mut known = Dictionary::new(alloc);
    let names = imports_of(alloc, program)?;
    add_modules(alloc, folders, &names, &mut modules, &mut known)?;
    for at in 0..MAX_MODULES {
        if at >= modules.len() {
            break;
        }
        if modules.len() > MAX_MODULES {
            return Ok(modules);
        }
        let names = imports_of_module(alloc, &modules[at])?;
        add_modules(alloc, folders, &names, &mut modules, &mut known)?;
    }
    Ok(modules)
}
