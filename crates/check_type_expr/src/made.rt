//! The types that type expressions make.

ghost use Rattle.std.specs.Prelude.{◌≡◌, Ok, IfOk};
ghost use Rattle.std.specs.List.{fold};
ghost use Rattle.check_scope.specs.Elaborated.{least};
ghost use Rattle.check_expr.specs.Meanings.{part};
ghost use Rattle.check_type_expr.specs.Made.{with_made, enumeration, scalar_named, bound_at, subrange, simple_place, simple_type, array_of, index_type, array_made, nothing_of, record_of, type_of, with_field_list, field_list};

use crate::cells::{MAX_CELLS, array_cells, count_at, is_index};
use crate::field::{Fields, no_fields, with_names};
use crate::heading::procedure_type;
use crate::named::{first_of, named_type};
use crate::subrange::{bound_of, subrange_between, under};
use check_const::Ordinal;
use check_expr::{constant_of, place_of};
use check_scope::{Elaborated, Scope, beside, both, declare, report};
use m2_rule::{Breach, Rule};
use m2_tree::{Expr, Field, Ident, Pos, Qualified, Simple, TypeExpr};
use std::alloc::{AllocError, Global};
use typed_tree::{
    Home, INTEGER, Made, Meaning, Scalar, ScalarValue, Shape, TypeNo, Types, Value, cells_of,
    scalar_of,
};

/// How many constants an enumeration may have.
const MAX_CONSTANTS: usize = 256;

/// Makes a type.
pub fn with_made(
    scope: &mut Scope<Breach>,
    made: Elaborated<Made>,
) -> Result<Elaborated<TypeNo>, AllocError>
    ensures { IfOk result (λ t. (scope.new, t) ≡ with_made scope.old made) }
{
    match made {
        Err(breach) => Ok(Err(breach)),
        Ok(made) => {
            let t = TypeNo {
                home: Home::Module(scope.types.home),
                number: scope.types.own.len(),
            };
            scope.types.own.push(made)?;
            Ok(Ok(t))
        }
    }
}

// ---- enumerations

fn enumeration(
    alloc: Global,
    scope: &mut Scope<Breach>,
    names: &[Ident],
) -> Result<Elaborated<TypeNo>, AllocError>
    ensures { IfOk result (λ t. (scope.new, t) ≡ enumeration least scope.old names.now) }
{
    let t = TypeNo {
        home: Home::Module(scope.types.home),
        number: scope.types.own.len(),
    };
    scope.types.own.push(Made {
        shape: Shape::Scalar(Scalar {
            base: t,
            low: 0,
            high: names.len() as i64 - 1,
        }),
        cells: 1,
    })?;
    let mut elaborated = match names.get(MAX_CONSTANTS) {
        None => Ok(()),
        Some(name) => report(name.pos, Rule::ConstantCount),
    };
    for (number, name) in names.iter().enumerate() {
        let constant = Meaning::Constant(Value::Scalar(ScalarValue {
            of: t,
            base: t,
            number: number as i64,
        }));
        let one = declare(alloc, scope, name, Ok(constant))?;
        elaborated = beside(elaborated, one);
    }
    match elaborated {
        Err(breach) => Ok(Err(breach)),
        Ok(()) => Ok(Ok(t)),
    }
}

// ---- subranges

/// The scalar type of a subrange's name.
fn scalar_named(scope: &Scope<Breach>, q: &Qualified) -> Result<Elaborated<Scalar>, AllocError>
    ensures { IfOk result (λ s. s ≡ scalar_named least scope.now q.now) }
{
    match named_type(scope, q)? {
        Err(breach) => Ok(Err(breach)),
        Ok(t) => match scalar_of(&scope.types, t) {
            None => Ok(report(first_of(q), Rule::NoType)),
            Some(scalar) => Ok(Ok(scalar)),
        },
    }
}

fn bound_at(
    alloc: Global,
    scope: &Scope<Breach>,
    e: &Expr,
) -> Result<Elaborated<Ordinal>, AllocError>
    ensures { IfOk result (λ a. a ≡ bound_at least scope.now (part least e.now)) }
{
    let value = constant_of(alloc, scope, e)?;
    Ok(bound_of(place_of(e), value))
}

fn subrange(
    alloc: Global,
    scope: &Scope<Breach>,
    of: &Option<Qualified>,
    low: &Expr,
    high: &Expr,
) -> Result<Elaborated<Scalar>, AllocError>
    ensures { IfOk result (λ s.
        s ≡ subrange least scope.now of.now (part least low.now) (part least high.now)) }
{
    let first = bound_at(alloc, scope, low)?;
    let last = bound_at(alloc, scope, high)?;
    match of {
        None => Ok(subrange_between(place_of(low), first, place_of(high), last)),
        Some(q) => {
            let base = scalar_named(scope, q)?;
            Ok(under(base, place_of(low), first, place_of(high), last))
        }
    }
}

// ---- simple types

fn simple_place(t: &Simple) -> Pos
    ensures { result ≡ simple_place t.now }
{
    match t {
        Simple::Named(q) => first_of(q),
        Simple::Enumeration(at, _) => *at,
        Simple::Subrange(of, at, _, _) => match of {
            None => *at,
            Some(q) => first_of(q),
        },
    }
}

fn simple_type(
    alloc: Global,
    scope: &mut Scope<Breach>,
    t: &Simple,
) -> Result<Elaborated<TypeNo>, AllocError>
    ensures { IfOk result (λ j. (scope.new, j) ≡ simple_type least scope.old t.now) }
{
    match t {
        Simple::Named(q) => named_type(scope, q),
        Simple::Enumeration(_, names) => enumeration(alloc, scope, names.as_slice()),
        Simple::Subrange(of, _, low, high) => {
            let made = match subrange(alloc, scope, of, low.get(), high.get())? {
                Err(breach) => Err(breach),
                Ok(scalar) => Ok(Made {
                    shape: Shape::Scalar(scalar),
                    cells: 1,
                }),
            };
            with_made(scope, made)
        }
    }
}

// ---- arrays

fn array_of(
    types: &Types,
    at: Pos,
    index: Elaborated<TypeNo>,
    element: Elaborated<TypeNo>,
) -> Elaborated<Made>
    ensures { result ≡ array_of least types.now at index element }
{
    match both(index, element) {
        Err(breach) => Err(breach),
        Ok((index, element)) => {
            match array_cells(at, count_at(types, index), cells_of(types, element)) {
                Err(breach) => Err(breach),
                Ok(cells) => Ok(Made {
                    shape: Shape::Array(index, element),
                    cells,
                }),
            }
        }
    }
}

/// The type of an index.
fn index_type(
    alloc: Global,
    scope: &mut Scope<Breach>,
    t: &Simple,
) -> Result<Elaborated<TypeNo>, AllocError>
    ensures { IfOk result (λ j. (scope.new, j) ≡ index_type least scope.old t.now) }
{
    match simple_type(alloc, scope, t)? {
        Err(breach) => Ok(Err(breach)),
        Ok(index) => {
            if !is_index(&scope.types, index) {
                return Ok(report(simple_place(t), Rule::NoIndex));
            }
            Ok(Ok(index))
        }
    }
}

fn array_made(
    scope: &mut Scope<Breach>,
    at: Pos,
    index: Elaborated<TypeNo>,
    element: Elaborated<TypeNo>,
) -> Result<Elaborated<TypeNo>, AllocError>
    ensures { IfOk result (λ j. (scope.new, j) ≡ array_made least at scope.old index element) }
{
    let made = array_of(&scope.types, at, index, element);
    with_made(scope, made)
}

// ---- records

/// What is reported of a part.
pub fn nothing_of(t: Elaborated<TypeNo>) -> Elaborated<()>
    ensures { result ≡ nothing_of t }
{
    match t {
        Err(breach) => Err(breach),
        Ok(_) => Ok(()),
    }
}

fn record_of(at: Pos, fields: Fields, elaborated: Elaborated<()>) -> Elaborated<Made>
    ensures { result ≡ record_of least at fields elaborated }
{
    match elaborated {
        Err(breach) => Err(breach),
        Ok(()) => {
            if fields.cells > MAX_CELLS {
                return report(at, Rule::LargeType);
            }
            Ok(Made {
                shape: Shape::Record(fields.names),
                cells: fields.cells,
            })
        }
    }
}

// ---- type expressions

/// The type that a type expression makes.
#[cycle(types)]
#[tactic(auto, using(crate::proofs::Making::types))]
pub fn type_of(
    alloc: Global,
    scope: &mut Scope<Breach>,
    t: &TypeExpr,
) -> Result<Elaborated<TypeNo>, AllocError>
    ensures { IfOk result (λ j. (scope.new, j) ≡ type_of least t.now scope.old) }
{
    match t {
        TypeExpr::Simple(simple) => simple_type(alloc, scope, simple),
        TypeExpr::Array(at, index, of) => {
            let i = index_type(alloc, scope, index)?;
            let e = type_of(alloc, scope, of.get())?;
            array_made(scope, *at, i, e)
        }
        TypeExpr::Record(at, list) => {
            let mut fields = no_fields(alloc);
            let elaborated = fields_of(alloc, scope, &mut fields, list.as_slice())?;
            with_made(scope, record_of(*at, fields, elaborated))
        }
        TypeExpr::Procedure(_, formals, result) => {
            let made = procedure_type(alloc, scope, formals.as_slice(), result)?;
            with_made(scope, made)
        }
    }
}

#[cycle(types)]
fn fields_of(
    alloc: Global,
    scope: &mut Scope<Breach>,
    fields: &mut Fields,
    list: &[Field],
) -> Result<Elaborated<()>, AllocError>
    ensures { IfOk result (λ j.
        (scope.new, fields.new, j) ≡ fold with_field_list (scope.old, fields.old, Ok tt) list.now) }
{
    let mut elaborated = Ok(());
    for field in list {
        elaborated = field_list(alloc, scope, fields, elaborated, field)?;
    }
    Ok(elaborated)
}

#[cycle(types)]
#[tactic(auto, using(crate::proofs::Making::types))]
fn field_list(
    alloc: Global,
    scope: &mut Scope<Breach>,
    fields: &mut Fields,
    before: Elaborated<()>,
    field: &Field,
) -> Result<Elaborated<()>, AllocError>
    ensures { IfOk result (λ j.
        (scope.new, fields.new, j) ≡ field_list least field.now (scope.old, fields.old, before)) }
{
    let t = type_of(alloc, scope, &field.of)?;
    // A field whose type is broken stands for its name alone.
    let of = match t {
        Err(_) => INTEGER,
        Ok(of) => of,
    };
    let cells = cells_of(&scope.types, of);
    with_names(
        alloc,
        fields,
        beside(before, nothing_of(t)),
        field.names.as_slice(),
        of,
        cells,
    )
}
