//! The names that a block declares, before any of them is used.

use crate::walk::Walk;
use m2_tree::{Constant, Decl, Def, Field, Heading, Ident, Simple, TypeDecl, TypeExpr, Variables};
use serve_scopes::{Facts, Kind, Numbers, Range, Standing};
use std::alloc::AllocError;

/// A thing that is declared here.
pub fn facts_of(walk: &Walk, kind: Kind, range: Range, tail: Range) -> Facts {
    Facts {
        kind,
        range,
        tail,
        parent: walk.parent,
        module: walk.module,
        is_var: walk.is_var,
        is_exported: walk.is_definition && walk.is_outermost(),
    }
}

/// A thing whose declaration is its name alone.
fn bare_facts(walk: &Walk, kind: Kind, name: &Ident) -> Facts {
    let place = walk.place(name);
    let end = place.end();
    let range = Range {
        begin: place.pos,
        end,
    };
    let tail = Range { begin: end, end };
    facts_of(walk, kind, range, tail)
}

/// Declares a name in the text, the tail of whose declaration begins behind the last name of its list.
pub fn declare_listed(
    walk: &mut Walk,
    kind: Kind,
    name: &Ident,
    tail: Range,
) -> Result<usize, AllocError> {
    let range = walk.marks().part_from(name.pos);
    let facts = facts_of(walk, kind, range, tail);
    walk.declare(name, facts)
}

/// Declares the constants of an enumeration.
fn enumerated(walk: &mut Walk, owner: Option<usize>, names: &[Ident]) -> Result<(), AllocError> {
    for name in names {
        let mut facts = bare_facts(walk, Kind::EnumerationConstant, name);
        facts.parent = owner;
        walk.declare(name, facts)?;
    }
    Ok(())
}

fn simple_names(walk: &mut Walk, owner: Option<usize>, of: &Simple) -> Result<(), AllocError> {
    match of {
        Simple::Enumeration(_, names) => enumerated(walk, owner, names.as_slice()),
        Simple::Named(_) | Simple::Subrange(_, _, _, _) => Ok(()),
    }
}

#[cycle(types)]
fn field_names(walk: &mut Walk, owner: Option<usize>, fields: &[Field]) -> Result<(), AllocError> {
    for field in fields {
        type_names(walk, owner, &field.of)?;
    }
    Ok(())
}

/// Declares the constants of the enumerations that are written in a type.
#[cycle(types)]
fn type_names(walk: &mut Walk, owner: Option<usize>, of: &TypeExpr) -> Result<(), AllocError> {
    match of {
        TypeExpr::Simple(simple) => simple_names(walk, owner, simple),
        TypeExpr::Array(_, index, elements) => {
            simple_names(walk, owner, index)?;
            type_names(walk, owner, elements.get())
        }
        TypeExpr::Record(_, fields) => field_names(walk, owner, fields.as_slice()),
        TypeExpr::Procedure(_, _, _) => Ok(()),
    }
}

fn constant_names(walk: &mut Walk, rows: &[Constant]) -> Result<(), AllocError> {
    for row in rows {
        let tail = walk.marks().tail_of(&row.name);
        declare_listed(walk, Kind::Constant, &row.name, tail)?;
    }
    Ok(())
}

/// Whether a type is an enumeration that is written out.
fn is_enumeration(of: &TypeExpr) -> bool {
    matches!(of, TypeExpr::Simple(Simple::Enumeration(_, _)))
}

fn one_type(walk: &mut Walk, row: &TypeDecl) -> Result<(), AllocError> {
    let tail = walk.marks().tail_of(&row.name);
    let number = declare_listed(walk, Kind::Type, &row.name, tail)?;
    let begin = walk.program.declarations.len();
    type_names(walk, Some(number), &row.of)?;
    let end = walk.program.declarations.len();
    if is_enumeration(&row.of) {
        if let Some(it) = walk.program.declarations.get_mut(number) {
            it.constants = Numbers { begin, end };
        }
    }
    Ok(())
}

fn types_names(walk: &mut Walk, rows: &[TypeDecl]) -> Result<(), AllocError> {
    for row in rows {
        one_type(walk, row)?;
    }
    Ok(())
}

/// Declares the names of a list. The number of the first.
pub fn list_names(
    walk: &mut Walk,
    kind: Kind,
    names: &[Ident],
) -> Result<Option<usize>, AllocError> {
    let Some(last) = names.last() else {
        return Ok(None);
    };
    let tail = walk.marks().tail_of(last);
    let mut first = None;
    for name in names {
        let number = declare_listed(walk, kind, name, tail)?;
        first = first.or(Some(number));
    }
    Ok(first)
}

fn variables_names(walk: &mut Walk, rows: &[Variables]) -> Result<(), AllocError> {
    for row in rows {
        let first = list_names(walk, Kind::Variable, row.names.as_slice())?;
        type_names(walk, first, &row.of)?;
    }
    Ok(())
}

/// Declares a procedure that has no body.
fn heading_name(walk: &mut Walk, heading: &Heading) -> Result<(), AllocError> {
    let range = walk.marks().heading_of(&heading.name);
    let tail = walk.marks().tail_of(&heading.name);
    let facts = facts_of(walk, Kind::Procedure, range, tail);
    walk.declare(&heading.name, facts)?;
    Ok(())
}

/// The procedure of the module's definition that a heading of the implementation goes with. It is the first of this name that has
/// no implementation yet.
fn defined_before(walk: &Walk, name: &Ident) -> Option<usize> {
    if !walk.is_outermost() {
        return None;
    }
    let module = walk.program.declaration(walk.module?)?;
    match walk.program.found(module.scope?, name.name.as_bytes()) {
        Some(Standing::Declared(number)) => {
            let it = walk.program.declaration(number)?;
            let is_open = it.kind == Kind::Procedure && it.implementation.is_none();
            if is_open { Some(number) } else { None }
        }
        Some(Standing::BuiltIn) | None => None,
    }
}

/// Declares a procedure with a body, or notes that it is the implementation of one.
fn procedure_name(walk: &mut Walk, heading: &Heading) -> Result<(), AllocError> {
    let name = &heading.name;
    let range = walk.marks().body_of(name);
    match defined_before(walk, name) {
        Some(number) => {
            let place = walk.place(name);
            walk.program.implement(number, place, range)
        }
        None => {
            let tail = walk.marks().tail_of(name);
            let facts = facts_of(walk, Kind::Procedure, range, tail);
            walk.declare(name, facts)?;
            Ok(())
        }
    }
}

/// Declares the names of a definition.
pub fn defs_names(walk: &mut Walk, defs: &[Def]) -> Result<(), AllocError> {
    for def in defs {
        match def {
            Def::Constants(rows) => constant_names(walk, rows.as_slice())?,
            Def::Types(rows) => types_names(walk, rows.as_slice())?,
            Def::Variables(rows) => variables_names(walk, rows.as_slice())?,
            Def::Procedure(heading) => heading_name(walk, heading)?,
        }
    }
    Ok(())
}

/// Declares the names of a block.
pub fn decls_names(walk: &mut Walk, decls: &[Decl]) -> Result<(), AllocError> {
    for decl in decls {
        match decl {
            Decl::Constants(rows) => constant_names(walk, rows.as_slice())?,
            Decl::Types(rows) => types_names(walk, rows.as_slice())?,
            Decl::Variables(rows) => variables_names(walk, rows.as_slice())?,
            Decl::Procedure(heading, _) => procedure_name(walk, heading)?,
        }
    }
    Ok(())
}
