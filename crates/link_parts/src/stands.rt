//! The imports of modules, as a program of empty modules has them.

ghost use Rattle.std.specs.Prelude.{◌≡◌, ◌++◌, [], ◌∷◌, IfOk, IfErr, OnOk, map};
ghost use Rattle.std.specs.List.{flat_map};
ghost use Rattle.std.specs.String.{string_bytes};
ghost use Rattle.empty_modules.specs.Empty.{import_of};
ghost use Rattle.build_jobs.specs.Borrowed.{borrow_trees};
ghost use Rattle.link_parts.specs.Stands.{body_of, stands_of, stand_of, stands_for, trees_of};
ghost use Rattle.link_parts.specs.Fitting.{names_of, IsOfNames};

use crate::fault::LinkFault;
use crate::part::Part;
use empty_modules::{empty_body, empty_definition, empty_program, import_of};
use m2_tree::{Import, MAX_NAME, Module, Name};
use std::alloc::{AllocError, Global};
use tree_parts::Items;

/// The number of the rule that a name has at most 64 letters and digits.
const LONG_NAME: u32 = 7;

/// A module that stands for the definition or the body of one that was compiled.
#[derive(Drop)]
pub struct Stand<'a> {
    pub part: &'a Part,
    pub tree: Module,
}

/// The name of a module. One that is too long is refused, as in a text.
fn name_of(alloc: Global, name: &str) -> Result<Name, LinkFault>
    ensures same { IfOk result (λ n. n ≡ name.now) }
    ensures fault { IfErr result (IsOfNames (name.now ∷ [])) }
{
    let bytes = name.as_bytes();
    if bytes.len() > MAX_NAME {
        return Err(LinkFault::Imports(LONG_NAME));
    }
    Ok(Name::new(alloc, bytes)?)
}

/// The imports of the modules of these names.
fn imports_of(alloc: Global, names: &[String]) -> Result<Items<Import>, LinkFault>
    ensures imports { IfOk result (λ is. is ≡ map (λ n. import_of (string_bytes n)) names.now) }
    ensures fault { IfErr result (IsOfNames (map string_bytes names.now)) }
{
    let mut imports = Items::new(alloc);
    for name in names {
        imports.push(import_of(alloc, name_of(alloc, name)?)?)?;
    }
    Ok(imports)
}

/// The body, which imports what the definition and the body of the module import.
fn body_of(alloc: Global, part: &Part) -> Result<Module, LinkFault>
    ensures body { IfOk result (λ m. m ≡ body_of part.now) }
    ensures fault { IfErr result (IsOfNames (names_of part.now)) }
{
    let imports = imports_of(alloc, &part.imports)?;
    let name = name_of(alloc, &part.name)?;
    if part.is_program {
        return Ok(empty_program(alloc, name, imports));
    }
    Ok(empty_body(alloc, name, imports))
}

/// Adds the definition of a module, unless it is a program, and its body.
fn add_stands<'a>(
    alloc: Global,
    part: &'a Part,
    stands: &mut Vec<Stand<'a>>,
) -> Result<(), LinkFault>
    ensures added { OnOk result
        (map stand_of stands.new.items
        ≡ map stand_of stands.old.items ++ map (λ m. (part.now, m)) (stands_of part.now)) }
    ensures fault { IfErr result (IsOfNames (names_of part.now)) }
{
    if !part.is_program {
        let tree = empty_definition(alloc, name_of(alloc, &part.name)?);
        stands.push(Stand { part, tree })?;
    }
    let tree = body_of(alloc, part)?;
    stands.push(Stand { part, tree })?;
    Ok(())
}

/// A program of empty modules, which import what these modules import: for each its definition and its body.
pub fn stands_for<'a>(alloc: Global, parts: &'a [Part]) -> Result<Vec<Stand<'a>>, LinkFault>
    ensures stands { IfOk result (λ stands. map stand_of stands.items ≡ stands_for parts.now) }
    ensures fault { IfErr result (IsOfNames (flat_map names_of parts.now)) }
{
    let mut stands = Vec::new(alloc);
    for part in parts {
        add_stands(alloc, part, &mut stands)?;
    }
    Ok(stands)
}

/// Their trees, under the names of the modules.
pub fn trees_of<'a>(
    alloc: Global,
    stands: &'a [Stand<'_>],
) -> Result<Vec<(&'a str, &'a Module)>, AllocError>
    ensures { IfOk result (λ all.
        borrow_trees all.items ≡ trees_of (map stand_of stands.now)) }
{
    let mut trees = Vec::new(alloc);
    for stand in stands {
        trees.push((stand.part.name.as_str(), &stand.tree))?;
    }
    Ok(trees)
}
