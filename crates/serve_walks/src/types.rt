//! The names in types, and what types are made of.

use crate::exprs::expr;
use crate::names::list_names;
use crate::walk::Walk;
use m2_tree::{Expr, Field, FormalType, Ident, Parameter, Qualified, Simple, TypeExpr};
use serve_scopes::{Kind, Shape};
use std::alloc::AllocError;

/// A type that is named. Its number.
pub fn named_type(walk: &mut Walk, of: &Qualified) -> Result<usize, AllocError> {
    let named = walk.qualified(of)?;
    let shape = match named {
        Some(number) => walk.program.shape_named(number),
        None => Shape::Plain,
    };
    walk.program.add_type(shape, named)
}

fn subrange(
    walk: &mut Walk,
    base: &Option<Qualified>,
    low: &Expr,
    high: &Expr,
) -> Result<(), AllocError> {
    if let Some(base) = base {
        walk.qualified(base)?;
    }
    expr(walk, low)?;
    expr(walk, high)
}

/// A type that can stand as an index. Its number.
fn simple(walk: &mut Walk, of: &Simple) -> Result<usize, AllocError> {
    match of {
        Simple::Named(name) => named_type(walk, name),
        Simple::Enumeration(_, _) => walk.program.add_type(Shape::Plain, None),
        Simple::Subrange(base, _, low, high) => {
            subrange(walk, base, low.get(), high.get())?;
            walk.program.add_type(Shape::Plain, None)
        }
    }
}

/// An array of elements of a type. Its number.
fn array_of(walk: &mut Walk, elements: usize) -> Result<usize, AllocError> {
    let named = walk.program.types.get(elements).and_then(|it| it.named);
    walk.program.add_type(Shape::Array(elements), named)
}

/// The type of a formal. Its number.
pub fn formal_type(walk: &mut Walk, of: &FormalType) -> Result<usize, AllocError> {
    let named = named_type(walk, &of.of)?;
    if of.is_open {
        array_of(walk, named)
    } else {
        Ok(named)
    }
}

/// A procedure type. Its number.
fn procedure_type(
    walk: &mut Walk,
    formals: &[Parameter],
    gives: &Option<Qualified>,
) -> Result<usize, AllocError> {
    for formal in formals {
        formal_type(walk, &formal.of)?;
    }
    if let Some(gives) = gives {
        walk.qualified(gives)?;
    }
    walk.program.add_type(Shape::Plain, None)
}

/// Says of names that are declared here what their type is.
pub fn set_types(walk: &mut Walk, names: &[Ident], of: usize) {
    for name in names {
        if let Some(number) = walk.declared_here(name) {
            walk.program.set_type(number, of);
        }
    }
}

/// Declares fields in a scope.
fn declare_fields(
    walk: &mut Walk,
    scope: usize,
    owner: Option<usize>,
    names: &[Ident],
) -> Result<Option<usize>, AllocError> {
    let around = walk.parent;
    walk.parent = owner;
    walk.around.push(scope)?;
    let first = list_names(walk, Kind::Field, names)?;
    walk.close();
    walk.parent = around;
    Ok(first)
}

/// Says what the type of fields is.
fn set_field_types(
    walk: &mut Walk,
    scope: usize,
    names: &[Ident],
    of: usize,
) -> Result<(), AllocError> {
    walk.around.push(scope)?;
    set_types(walk, names, of);
    walk.close();
    Ok(())
}

/// Fields of one type.
#[cycle(types)]
fn field(
    walk: &mut Walk,
    scope: usize,
    owner: Option<usize>,
    of: &Field,
) -> Result<(), AllocError> {
    let first = declare_fields(walk, scope, owner, of.names.as_slice())?;
    let number = type_of(walk, first, &of.of)?;
    set_field_types(walk, scope, of.names.as_slice(), number)
}

#[cycle(types)]
fn fields(
    walk: &mut Walk,
    scope: usize,
    owner: Option<usize>,
    all: &[Field],
) -> Result<(), AllocError> {
    for of in all {
        field(walk, scope, owner, of)?;
    }
    Ok(())
}

/// A type that is written in this declaration. Its number.
#[cycle(types)]
pub fn type_of(walk: &mut Walk, owner: Option<usize>, of: &TypeExpr) -> Result<usize, AllocError> {
    match of {
        TypeExpr::Simple(it) => simple(walk, it),
        TypeExpr::Array(_, index, elements) => {
            simple(walk, index)?;
            let number = type_of(walk, owner, elements.get())?;
            array_of(walk, number)
        }
        TypeExpr::Record(_, all) => {
            let scope = walk.program.new_scope()?;
            fields(walk, scope, owner, all.as_slice())?;
            walk.program.add_type(Shape::Record(scope), None)
        }
        TypeExpr::Procedure(_, formals, result) => {
            procedure_type(walk, formals.as_slice(), result)
        }
    }
}
