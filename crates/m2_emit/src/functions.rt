//! The functions of a module.

ghost use Rattle.std.specs.Prelude.{◌≡◌, ◌++◌, Some, slice_get, IfOk, OnOk, map};
ghost use Rattle.typed_tree.specs.declared.typed_module.Which.TheVariants as which;
ghost use Rattle.def_scheme.specs.Functions.{functions_from, routine_function};
ghost use Rattle.def_scheme.specs.Modules.{functions, numbering_of};
ghost use Rattle.emit_tables.specs.Offsets.{AreTexts};
ghost use Rattle.emit_buffer.specs.Cut.{cut_function};

use crate::helpers::helpers;
use emit_buffer::Home;
use emit_proc::{module_function, routine_function};
use emit_tables::ModuleTexts;
use std::alloc::{AllocError, Global};
use tree_parts::Items;
use typed_tree::{Routine, Which};
use wasm_tree::Function;

/// The function of a procedure of the module.
fn procedure(
    alloc: Global,
    home: &Home<'_>,
    texts: &ModuleTexts,
    number: usize,
    routine: &Routine,
) -> Result<Function, AllocError>
    requires texts { AreTexts home.now texts.now }
    requires found { slice_get home.now.procedures number ≡ Some routine.now }
    ensures { let m = home.now in
        IfOk result (λ f.
        f ≡ cut_function (routine_function (numbering_of m) m (which.Module number) routine.now)) }
{
    let which = Which::Module(number);
    routine_function(alloc, home, which, routine, texts.offset_of(which))
}

/// The function of a procedure that is declared in a procedure.
fn local(
    alloc: Global,
    home: &Home<'_>,
    texts: &ModuleTexts,
    number: usize,
    routine: &Routine,
) -> Result<Function, AllocError>
    requires texts { AreTexts home.now texts.now }
    requires found { slice_get home.now.locals number ≡ Some routine.now }
    ensures { let m = home.now in
        IfOk result (λ f.
        f ≡ cut_function (routine_function (numbering_of m) m (which.Local number) routine.now)) }
{
    let which = Which::Local(number);
    routine_function(alloc, home, which, routine, texts.offset_of(which))
}

/// Appends the functions of the procedures of the module.
fn push_procedures(
    alloc: Global,
    functions: &mut Items<Function>,
    home: &Home<'_>,
    texts: &ModuleTexts,
) -> Result<(), AllocError>
    requires { AreTexts home.now texts.now }
    ensures { let m = home.now in
        let more = functions_from (numbering_of m) m which.Module 0 m.procedures in
        OnOk result (functions.new ≡ functions.old ++ map cut_function more) }
{
    let routines = home.module_body().procedures.as_slice();
    for (number, routine) in routines.iter().enumerate() {
        functions.push(procedure(alloc, home, texts, number, routine)?)?;
    }
    Ok(())
}

/// Appends the functions of the procedures that are declared in procedures.
fn push_locals(
    alloc: Global,
    functions: &mut Items<Function>,
    home: &Home<'_>,
    texts: &ModuleTexts,
) -> Result<(), AllocError>
    requires { AreTexts home.now texts.now }
    ensures { let m = home.now in
        let more = functions_from (numbering_of m) m which.Local 0 m.locals in
        OnOk result (functions.new ≡ functions.old ++ map cut_function more) }
{
    let routines = home.module_body().locals.as_slice();
    for (number, routine) in routines.iter().enumerate() {
        functions.push(local(alloc, home, texts, number, routine)?)?;
    }
    Ok(())
}

/// All functions of a module, with their numbers cut: the helpers, its body, its procedures, and those that are declared in procedures.
pub fn functions_of(
    alloc: Global,
    home: &Home<'_>,
    texts: &ModuleTexts,
) -> Result<Items<Function>, AllocError>
    requires { AreTexts home.now texts.now }
    ensures { IfOk result (λ found. found ≡ map cut_function (functions home.now)) }
{
    let mut found = helpers(alloc)?;
    found.push(module_function(alloc, home, texts.body)?)?;
    push_procedures(alloc, &mut found, home, texts)?;
    push_locals(alloc, &mut found, home, texts)?;
    Ok(found)
}
