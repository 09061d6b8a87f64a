//! The names in declarations and in the bodies of procedures and modules.

use m2_tree::{Block, Constant, Decl, Def, Heading, Qualified, Section, TypeDecl, Variables};
use serve_scopes::{Kind, Range, Role};
use serve_walks::{
    Walk, decls_names, expr, formal_type, list_names, named_type, set_types, stmts, type_of,
};
use std::alloc::AllocError;

fn constants(walk: &mut Walk, rows: &[Constant]) -> Result<(), AllocError> {
    for row in rows {
        expr(walk, &row.value)?;
    }
    Ok(())
}

fn type_decl(walk: &mut Walk, row: &TypeDecl) -> Result<(), AllocError> {
    let number = walk.declared_here(&row.name);
    let of = type_of(walk, number, &row.of)?;
    if let Some(number) = number {
        walk.program.set_type(number, of);
    }
    Ok(())
}

fn type_decls(walk: &mut Walk, rows: &[TypeDecl]) -> Result<(), AllocError> {
    for row in rows {
        type_decl(walk, row)?;
    }
    Ok(())
}

fn variables_decl(walk: &mut Walk, row: &Variables) -> Result<(), AllocError> {
    let names = row.names.as_slice();
    let first = names.first().and_then(|name| walk.declared_here(name));
    let of = type_of(walk, first, &row.of)?;
    set_types(walk, names, of);
    Ok(())
}

fn variables_decls(walk: &mut Walk, rows: &[Variables]) -> Result<(), AllocError> {
    for row in rows {
        variables_decl(walk, row)?;
    }
    Ok(())
}

/// The types of the formals of a heading, one for each section.
fn section_types(walk: &mut Walk, sections: &[Section]) -> Result<Vec<usize>, AllocError> {
    let mut types = Vec::new(walk.alloc);
    for section in sections {
        types.push(formal_type(walk, &section.of)?)?;
    }
    Ok(types)
}

/// What a procedure gives.
fn result_type(
    walk: &mut Walk,
    procedure: Option<usize>,
    gives: &Option<Qualified>,
) -> Result<(), AllocError> {
    if let Some(gives) = gives {
        let of = named_type(walk, gives)?;
        if let Some(number) = procedure {
            walk.program.set_type(number, of);
        }
    }
    Ok(())
}

/// Declares the formals of one type.
fn formals(walk: &mut Walk, section: &Section, of: usize) -> Result<(), AllocError> {
    walk.is_var = section.is_var;
    list_names(walk, Kind::Formal, section.names.as_slice())?;
    walk.is_var = false;
    set_types(walk, section.names.as_slice(), of);
    Ok(())
}

/// Begins the scope of a procedure with its formals. The types of a heading are looked up outside of it.
fn open_heading(walk: &mut Walk, heading: &Heading, range: Range) -> Result<(), AllocError> {
    let procedure = walk.declared_here(&heading.name);
    let sections = heading.formals.as_slice();
    let types = section_types(walk, sections)?;
    result_type(walk, procedure, &heading.result)?;
    let scope = walk.program.new_scope()?;
    walk.open(scope, range)?;
    walk.parent = procedure;
    for (section, of) in sections.iter().zip(&types) {
        formals(walk, section, *of)?;
    }
    Ok(())
}

/// Ends the scope of a procedure in this declaration.
fn close_heading(walk: &mut Walk, around: Option<usize>) {
    walk.close();
    walk.parent = around;
}

/// Notes the closing name of a procedure.
fn closing_name(walk: &mut Walk, heading: &Heading) -> Result<(), AllocError> {
    let place = walk.marks().closing_of(walk.file, &heading.name);
    match walk.declared_here(&heading.name) {
        Some(number) => walk.program.add_use(place, number, Role::Closing),
        None => Ok(()),
    }
}

/// A heading in a definition.
fn bare_heading(walk: &mut Walk, heading: &Heading) -> Result<(), AllocError> {
    let around = walk.parent;
    let range = walk.marks().heading_of(&heading.name);
    open_heading(walk, heading, range)?;
    close_heading(walk, around);
    Ok(())
}

/// Begins a procedure with a body. The declaration around it.
fn open_procedure(walk: &mut Walk, heading: &Heading) -> Result<Option<usize>, AllocError> {
    let around = walk.parent;
    let range = walk.marks().body_of(&heading.name);
    open_heading(walk, heading, range)?;
    Ok(around)
}

/// Ends a procedure with a body in this declaration.
fn close_procedure(
    walk: &mut Walk,
    heading: &Heading,
    around: Option<usize>,
) -> Result<(), AllocError> {
    close_heading(walk, around);
    closing_name(walk, heading)
}

/// Whether a procedure with a body is passed over.
fn is_passed(walk: &Walk, heading: &Heading) -> bool {
    walk.passes_over(walk.marks().body_of(&heading.name))
}

/// A procedure with a body that is passed over: what it gives.
fn passed_procedure(walk: &mut Walk, heading: &Heading) -> Result<(), AllocError> {
    let procedure = walk.declared_here(&heading.name);
    result_type(walk, procedure, &heading.result)
}

#[cycle(decl)]
fn decl(walk: &mut Walk, of: &Decl) -> Result<(), AllocError> {
    match of {
        Decl::Constants(rows) => constants(walk, rows.as_slice()),
        Decl::Types(rows) => type_decls(walk, rows.as_slice()),
        Decl::Variables(rows) => variables_decls(walk, rows.as_slice()),
        Decl::Procedure(heading, _) if is_passed(walk, heading) => passed_procedure(walk, heading),
        Decl::Procedure(heading, inner) => {
            let around = open_procedure(walk, heading)?;
            block(walk, inner.get())?;
            close_procedure(walk, heading, around)
        }
    }
}

#[cycle(decl)]
fn decls(walk: &mut Walk, all: &[Decl]) -> Result<(), AllocError> {
    for of in all {
        decl(walk, of)?;
    }
    Ok(())
}

/// The names of a block: those that it declares, and those in its declarations and statements.
#[cycle(decl)]
pub fn block(walk: &mut Walk, of: &Block) -> Result<(), AllocError> {
    decls_names(walk, of.decls.as_slice())?;
    decls(walk, of.decls.as_slice())?;
    match &of.body {
        Some(body) if !walk.passes_over(walk.marks().whole()) => stmts(walk, body.as_slice()),
        _ => Ok(()),
    }
}

fn def(walk: &mut Walk, of: &Def) -> Result<(), AllocError> {
    match of {
        Def::Constants(rows) => constants(walk, rows.as_slice()),
        Def::Types(rows) => type_decls(walk, rows.as_slice()),
        Def::Variables(rows) => variables_decls(walk, rows.as_slice()),
        Def::Procedure(heading) => bare_heading(walk, heading),
    }
}

/// The names in the declarations of a definition, which are declared already.
pub fn defs(walk: &mut Walk, all: &[Def]) -> Result<(), AllocError> {
    for of in all {
        def(walk, of)?;
    }
    Ok(())
}
