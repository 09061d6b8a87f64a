//! The record type that a WITH opens if its designator has no meaning.

ghost use Rattle.std.specs.Prelude.{◌≡◌, IfOk};
ghost use Rattle.check_scope.specs.Elaborated.{least};
ghost use Rattle.check_stmt_parts.specs.Simple.{element_of, component_behind, record_led_to, opened_type};

use crate::simple::is_record;
use check_expr::{field_of, first_name};
use check_scope::Scope;
use check_value::{Designated, array_of};
use m2_rule::Breach;
use m2_tree::{Designator, Selector};
use std::alloc::{AllocError, Global};
use typed_tree::{Root, TypeNo, Types, root_place};

/// An element of an array, whichever it is.
fn element_of(alloc: Global, types: &Types, array: Designated) -> Option<Designated>
    ensures { result ≡ element_of types.now array }
{
    match array {
        Designated::Variable(t, place) => match array_of(types, t) {
            None => None,
            Some((_, of)) => Some(Designated::Variable(of, place)),
        },
        Designated::Open(t, slot) => {
            Some(Designated::Variable(t, root_place(alloc, Root::Open(slot))))
        }
        Designated::Value(value) => {
            drop(value);
            None
        }
        Designated::Type(_) => None,
        Designated::Procedure(_) => None,
        Designated::Nested(_) => None,
        Designated::Standard(_) => None,
        Designated::Module(_) => None,
    }
}

/// Where a selector leads, whatever its subscript is.
fn component_behind(
    alloc: Global,
    scope: &Scope<Breach>,
    from: Option<Designated>,
    selector: &Selector,
) -> Result<Option<Designated>, AllocError>
    ensures { IfOk result (λ d. d ≡ component_behind least scope.now from selector.now) }
{
    match from {
        None => Ok(None),
        Some(from) => match selector {
            Selector::Field(at, name) => Ok(field_of(alloc, scope, *at, name, from)?.ok()),
            Selector::Index(_, _) => Ok(element_of(alloc, &scope.types, from)),
        },
    }
}

fn record_led_to(types: &Types, designated: Option<Designated>) -> Option<TypeNo>
    ensures { result ≡ record_led_to types.now designated }
{
    match designated {
        None => None,
        Some(designated) => match designated {
            Designated::Variable(t, _) => { if is_record(types, t) { Some(t) } else { None } }
            Designated::Value(value) => {
                drop(value);
                None
            }
            Designated::Open(_, _)
            | Designated::Type(_)
            | Designated::Procedure(_)
            | Designated::Nested(_)
            | Designated::Standard(_)
            | Designated::Module(_) => None,
        },
    }
}

/// The record type to which a designator leads, whatever its subscripts are, if it leads to one.
pub fn opened_type(
    alloc: Global,
    scope: &Scope<Breach>,
    designator: &Designator,
) -> Result<Option<TypeNo>, AllocError>
    ensures { IfOk result (λ t. t ≡ opened_type least scope.now designator.now) }
{
    let mut designated = first_name(alloc, scope, &designator.name)?.ok();
    for selector in designator.selectors.as_slice() {
        designated = component_behind(alloc, scope, designated, selector)?;
    }
    Ok(record_led_to(&scope.types, designated))
}
