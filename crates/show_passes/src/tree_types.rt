//! The trees of types.

use crate::tree::show_names;
use crate::tree_exprs::show_expr;
use m2_tree::{Expr, Field, FormalType, Parameter, Qualified, Section, Simple, TypeExpr};
use show_code::Page;

/// A name that may have the name of a module before it.
pub fn show_qualified(page: &mut Page, level: usize, of: &Qualified) {
    let name = &of.name;
    match &of.module {
        None => page.row_at(level, &[b"name ", name.name.as_bytes()], name.pos),
        Some(module) => page.row_at(
            level,
            &[b"name ", module.name.as_bytes(), b".", name.name.as_bytes()],
            module.pos,
        ),
    }
}

/// The bounds of a subrange, and its base if it is named.
fn show_subrange(page: &mut Page, level: usize, base: &Option<Qualified>, low: &Expr, high: &Expr) {
    if let Some(base) = base {
        show_qualified(page, level, base);
    }
    show_expr(page, level, low);
    show_expr(page, level, high);
}

fn show_simple(page: &mut Page, level: usize, simple: &Simple) {
    let inner = level.saturating_add(1);
    match simple {
        Simple::Named(name) => show_qualified(page, level, name),
        Simple::Enumeration(pos, names) => {
            page.row_at(level, &[b"enumeration"], *pos);
            show_names(page, inner, names.as_slice());
        }
        Simple::Subrange(base, pos, low, high) => {
            page.row_at(level, &[b"subrange"], *pos);
            show_subrange(page, inner, base, low.get(), high.get());
        }
    }
}

/// The type of a formal.
fn show_formal_type(page: &mut Page, level: usize, of: &FormalType) {
    if of.is_open {
        page.row(level, &[b"ARRAY OF"]);
        show_qualified(page, level.saturating_add(1), &of.of);
    } else {
        show_qualified(page, level, &of.of);
    }
}

/// Whether a formal is a variable of the caller.
fn sort_of_formal(is_var: bool) -> &'static str {
    if is_var { "VAR formals" } else { "formals" }
}

/// Formals of one type.
pub fn show_section(page: &mut Page, level: usize, section: &Section) {
    let inner = level.saturating_add(1);
    page.row(level, &[sort_of_formal(section.is_var).as_bytes()]);
    show_names(page, inner, section.names.as_slice());
    show_formal_type(page, inner, &section.of);
}

/// A formal of a procedure type.
fn show_parameter(page: &mut Page, level: usize, formal: &Parameter) {
    page.row(level, &[sort_of_formal(formal.is_var).as_bytes()]);
    show_formal_type(page, level.saturating_add(1), &formal.of);
}

/// The formals of a procedure type, and what it gives.
fn show_signature(page: &mut Page, level: usize, formals: &[Parameter], gives: &Option<Qualified>) {
    for formal in formals {
        show_parameter(page, level, formal);
    }
    match gives {
        None => {}
        Some(result) => {
            page.row(level, &[b"result"]);
            show_qualified(page, level.saturating_add(1), result);
        }
    }
}

/// Fields of one type.
#[cycle(types)]
fn show_field(page: &mut Page, level: usize, field: &Field) {
    let inner = level.saturating_add(1);
    page.row(level, &[b"field"]);
    show_names(page, inner, field.names.as_slice());
    show_type(page, inner, &field.of);
}

#[cycle(types)]
fn show_fields(page: &mut Page, level: usize, fields: &[Field]) {
    for field in fields {
        show_field(page, level, field);
    }
}

/// The tree of a type.
#[cycle(types)]
pub fn show_type(page: &mut Page, level: usize, of: &TypeExpr) {
    let inner = level.saturating_add(1);
    match of {
        TypeExpr::Simple(simple) => show_simple(page, level, simple),
        TypeExpr::Array(pos, index, elements) => {
            page.row_at(level, &[b"ARRAY"], *pos);
            show_simple(page, inner, index);
            show_type(page, inner, elements.get());
        }
        TypeExpr::Record(pos, fields) => {
            page.row_at(level, &[b"RECORD"], *pos);
            show_fields(page, inner, fields.as_slice());
        }
        TypeExpr::Procedure(pos, formals, result) => {
            page.row_at(level, &[b"PROCEDURE"], *pos);
            show_signature(page, inner, formals.as_slice(), result);
        }
    }
}
