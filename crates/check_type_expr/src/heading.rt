//! Headings of procedures, and procedure types.

ghost use Rattle.std.specs.Prelude.{◌≡◌, IfOk};
ghost use Rattle.check_scope.specs.Elaborated.{least};
ghost use Rattle.check_type_expr.specs.Headings.{formal_of, result_of, with_section, procedure_made, heading_of, with_names as with_section_names, names_of, procedure_type};

use crate::field::{Fields, no_fields, with_names};
use crate::named::{first_of, named_type};
use check_scope::{Elaborated, Scope, both, report};
use m2_rule::{Breach, Rule};
use m2_tree::{FormalType, Heading, Parameter, Qualified, Section};
use std::alloc::{AllocError, Global};
use tree_parts::Items;
use typed_tree::{Formal, INTEGER, Made, Shape, Signature, TypeNo, is_result};

/// A formal, from what stands before its names and its type.
pub fn formal_of(
    scope: &Scope<Breach>,
    is_var: bool,
    of: &FormalType,
) -> Result<Elaborated<Formal>, AllocError>
    ensures { IfOk result (λ f. f ≡ formal_of least scope.now is_var of.now) }
{
    match named_type(scope, &of.of)? {
        Err(breach) => Ok(Err(breach)),
        Ok(t) => Ok(Ok(Formal {
            is_var,
            is_open: of.is_open,
            of: t,
        })),
    }
}

/// What a procedure gives, if it gives something.
pub fn result_of(
    scope: &Scope<Breach>,
    of: &Option<Qualified>,
) -> Result<Elaborated<Option<TypeNo>>, AllocError>
    ensures { IfOk result (λ t. t ≡ result_of least scope.now of.now) }
{
    match of {
        None => Ok(Ok(None)),
        Some(q) => match named_type(scope, q)? {
            Err(breach) => Ok(Err(breach)),
            Ok(t) => {
                if !is_result(&scope.types, t) {
                    return Ok(report(first_of(q), Rule::NoType));
                }
                Ok(Ok(Some(t)))
            }
        },
    }
}

/// One more section of formals.
fn with_section(
    scope: &Scope<Breach>,
    formals: Elaborated<Items<Formal>>,
    section: &Section,
) -> Result<Elaborated<Items<Formal>>, AllocError>
    ensures { IfOk result (λ fs. fs ≡ with_section least scope.now formals section.now) }
{
    let formal = formal_of(scope, section.is_var, &section.of)?;
    match both(formals, formal) {
        Err(breach) => Ok(Err(breach)),
        Ok((mut all, one)) => {
            for _name in section.names.as_slice() {
                all.push(one)?;
            }
            Ok(Ok(all))
        }
    }
}

fn procedure_made(
    formals: Elaborated<Items<Formal>>,
    of: Elaborated<Option<TypeNo>>,
) -> Elaborated<Made>
    ensures { result ≡ procedure_made least formals of }
{
    match both(formals, of) {
        Err(breach) => Err(breach),
        Ok((formals, result)) => Ok(Made {
            shape: Shape::Procedure(Signature { formals, result }),
            cells: 1,
        }),
    }
}

/// The type of a procedure with this heading, whatever the names of its formals.
pub fn heading_of(
    alloc: Global,
    scope: &Scope<Breach>,
    heading: &Heading,
) -> Result<Elaborated<Made>, AllocError>
    ensures { IfOk result (λ m. m ≡ heading_of least scope.now heading.now) }
{
    let mut formals = Ok(Items::new(alloc));
    for section in heading.formals.as_slice() {
        formals = with_section(scope, formals, section)?;
    }
    let of = result_of(scope, &heading.result)?;
    Ok(procedure_made(formals, of))
}

/// What is reported of the names of formals: 31 at a name that stands there twice.
pub fn names_of(alloc: Global, heading: &Heading) -> Result<Elaborated<()>, AllocError>
    ensures { IfOk result (λ j. j ≡ names_of least heading.now) }
{
    let mut fields = no_fields(alloc);
    let mut done = Ok(());
    for section in heading.formals.as_slice() {
        done = with_names(
            alloc,
            &mut fields,
            done,
            section.names.as_slice(),
            INTEGER,
            0,
        )?;
    }
    Ok(done)
}

/// A procedure type.
pub fn procedure_type(
    alloc: Global,
    scope: &Scope<Breach>,
    list: &[Parameter],
    of: &Option<Qualified>,
) -> Result<Elaborated<Made>, AllocError>
    ensures { IfOk result (λ m. m ≡ procedure_type least scope.now list.now of.now) }
{
    let mut formals = Ok(Items::new(alloc));
    for parameter in list {
        let formal = formal_of(scope, parameter.is_var, &parameter.of)?;
        formals = match both(formals, formal) {
            Err(breach) => Err(breach),
            Ok((mut all, one)) => {
                all.push(one)?;
                Ok(all)
            }
        };
    }
    let result = result_of(scope, of)?;
    Ok(procedure_made(formals, result))
}
