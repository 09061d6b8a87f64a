//! The procedures of a module with their bodies, and the module of them.

ghost use Rattle.std.specs.Prelude.{◌≡◌, [], drop, slice_set, IfOk, OnOk};
ghost use Rattle.std.specs.Option.{option_copied};
ghost use Rattle.check_body.specs.Routines.{numbered_elaborated, procedure_named, empty_routine, no_bodies, begun_at, put_routine, routine, with_scope, typed_module};

use crate::imports::{all_imports, typed_imports};
use check_scope::{Known, Scope, Sought};
use m2_rule::Breach;
use m2_tree::{Ident, Module, Name, Pos};
use std::alloc::{AllocError, Global};
use tree_parts::Items;
use typed_tree::{
    Dictionary, INTEGER, Imported, Meaning, Routine, Table, TypeNo, TypedModule, TypedStmt, Which,
};

/// A procedure of a block, by its number, and its heading as a procedure type.
#[derive(Clone, Copy, PartialEq, Eq)]
pub struct Numbered {
    pub which: Which,
    pub heading: TypeNo,
}

/// The procedures of a module with the bodies that were checked so far.
#[derive(Drop)]
pub struct Bodies {
    /// The procedures of the module, by their numbers.
    pub procedures: Items<Routine>,
    /// The procedures in procedures whose headings were met so far, by their numbers.
    pub locals: Items<Routine>,
    /// The procedures whose bodies were checked, in order.
    pub order: Items<Which>,
}

// ---- which procedure it is

fn numbered_elaborated(means: &Sought<Meaning>) -> Option<Numbered>
    ensures { result ≡ numbered_elaborated means.now }
{
    match means {
        Err(_) => None,
        Ok(meaning) => match meaning {
            Meaning::Procedure(procedure) => Some(Numbered {
                which: Which::Module(procedure.number),
                heading: procedure.heading,
            }),
            Meaning::LocalProcedure(procedure) => Some(Numbered {
                which: Which::Local(procedure.number),
                heading: procedure.heading,
            }),
            Meaning::Constant(_)
            | Meaning::Type(_, _)
            | Meaning::Variable(_)
            | Meaning::Local(_)
            | Meaning::Field(_)
            | Meaning::Ahead
            | Meaning::Standard(_)
            | Meaning::Module(_) => None,
        },
    }
}

/// The procedure of the block that has this name, if its heading means something.
pub fn procedure_named(scope: &Scope<Breach>, name: &Ident) -> Option<Numbered>
    ensures { result ≡ procedure_named scope.now name.now }
{
    match scope.own.find(name.name.as_bytes()) {
        None => None,
        Some(known) => match known {
            Known::Headed(means) => numbered_elaborated(means),
            Known::Later | Known::Ahead | Known::Begun | Known::Declared(_, _) => None,
        },
    }
}

// ---- their places

fn empty_routine(alloc: Global, heading: TypeNo) -> Routine
    ensures { result ≡ empty_routine heading }
{
    Routine {
        pos: Pos { line: 1, col: 1 },
        heading,
        level: 1,
        around: None,
        variables: Items::new(alloc),
        body: Items::new(alloc),
    }
}

/// No bodies, where a module's block is declared. The headings are the headings of the module's procedures. The only
/// error is that memory ran out.
pub fn no_bodies(alloc: Global, headings: &[TypeNo]) -> Result<Bodies, AllocError>
    ensures { IfOk result (λ bodies. bodies ≡ no_bodies headings.now) }
{
    let mut procedures = Items::new(alloc);
    for heading in headings {
        procedures.push(empty_routine(alloc, *heading))?;
    }
    Ok(Bodies {
        procedures,
        locals: Items::new(alloc),
        order: Items::new(alloc),
    })
}

/// Begins a procedure in a block of this level. Behind it the next procedure in a procedure has the number of
/// `locals`. The only error is that memory ran out.
pub fn begin_at(alloc: Global, bodies: &mut Bodies, level: usize) -> Result<(), AllocError>
    ensures { OnOk result (bodies.new ≡ begun_at level bodies.old) }
{
    if level == 0 {
        return Ok(());
    }
    bodies.locals.push(empty_routine(alloc, INTEGER))
}

fn put(list: &mut Items<Routine>, number: usize, routine: Routine)
    ensures { list.new ≡ slice_set list.old number routine }
{
    if number < list.len() {
        list.set(number, routine);
    }
}

/// Puts a procedure with its body to its place. The only error is that memory ran out.
pub fn fill(bodies: &mut Bodies, which: Which, routine: Routine) -> Result<(), AllocError>
    ensures { OnOk result (bodies.new ≡ put_routine bodies.old which routine) }
{
    match which {
        Which::Module(number) => put(&mut bodies.procedures, number, routine),
        Which::Local(number) => put(&mut bodies.locals, number, routine),
    }
    bodies.order.push(which)
}

fn behind(alloc: Global, list: &[TypeNo], count: usize) -> Result<Items<TypeNo>, AllocError>
    ensures { IfOk result (λ rest. rest ≡ drop count list.now) }
{
    if list.len() <= count {
        return Ok(Items::new(alloc));
    }
    let (_, rest) = list.split_at(count);
    Items::from_slice(alloc, rest)
}

/// A procedure with its body, from the scope where its body ends. This many of the types of its variables are types of
/// its formals. The only error is that memory ran out.
pub fn routine_of(
    alloc: Global,
    scope: &Scope<Breach>,
    name: &Ident,
    procedure: Numbered,
    around: Option<Which>,
    formals: usize,
    body: Items<TypedStmt>,
) -> Result<Routine, AllocError>
    ensures { IfOk result (λ r. r ≡ routine scope.now name.now procedure around formals body) }
{
    Ok(Routine {
        pos: name.pos,
        heading: procedure.heading,
        level: scope.level,
        around,
        variables: behind(alloc, scope.variables.as_slice(), formals)?,
        body,
    })
}

// ---- the module

/// A module with this name and these imports, from the scope where its block ends.
fn with_scope(
    alloc: Global,
    name: Name,
    pos: Pos,
    imports: Items<Imported>,
    scope: Scope<Breach>,
    bodies: Bodies,
    body: Items<TypedStmt>,
) -> TypedModule
    ensures { result ≡ with_scope name pos imports scope bodies body }
{
    let (types, variables) = scope.into_types(alloc);
    let Bodies {
        procedures,
        locals,
        order,
    } = bodies;
    TypedModule {
        name,
        pos,
        imports,
        types,
        variables,
        procedures,
        locals,
        order,
        body,
    }
}

/// The module of a body, from the scope where its block ends. The only error is that memory ran out.
pub fn typed_module(
    alloc: Global,
    scope: Scope<Breach>,
    modules: &Dictionary<usize>,
    own: Option<&Table>,
    tree: &Module,
    bodies: Bodies,
    body: Items<TypedStmt>,
) -> Result<TypedModule, AllocError>
    ensures { IfOk result (λ m.
        m ≡ typed_module scope modules.now (option_copied own.entry) tree.now bodies body) }
{
    let names = all_imports(alloc, modules, &scope.tables, own, tree.imports.as_slice())?;
    let imports = typed_imports(alloc, modules, &scope.tables, &names)?;
    let name = tree.name.name.clone()?;
    let pos = tree.name.pos;
    Ok(with_scope(alloc, name, pos, imports, scope, bodies, body))
}
