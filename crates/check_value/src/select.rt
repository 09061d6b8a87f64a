//! Components of variables.

ghost use Rattle.std.specs.Prelude.{◌≡◌, IfOk};
ghost use Rattle.check_scope.specs.Elaborated.{least};
ghost use Rattle.check_value.specs.Selection.{numbered_field, field, indices, index_type, element_of_array, element_at_index};

use crate::class::array_of;
use crate::computed::{Computed, Designated};
use crate::places::value_suited;
use check_scope::{Elaborated, both, fields_of, report};
use m2_rule::Rule;
use m2_tree::{Ident, Pos};
use std::alloc::{AllocError, Global};
use typed_tree::{
    CARDINAL, Component, Dictionary, Place, Root, Slot, TypeNo, TypedExpr, Types, behind,
    root_place,
};

/// The number and the type of a field.
fn numbered_field(fields: &Dictionary<TypeNo>, name: &[u8]) -> Option<(usize, TypeNo)>
    ensures { result ≡ numbered_field name.now fields.now }
{
    let number = fields.place(name)?;
    let (_, of) = fields.get(number)?;
    Some((number, *of))
}

/// A field of what stands before a point: 40 at the point if that is no record, and 30 at a name that it lacks.
pub fn field(
    types: &Types,
    at: Pos,
    name: &Ident,
    from: Designated,
) -> Result<Elaborated<Designated>, AllocError>
    ensures { IfOk result (λ d. d ≡ field least types.now at name.now from) }
{
    let Designated::Variable(t, place) = from else {
        return Ok(report(at, Rule::WrongType));
    };
    let Some(fields) = fields_of(types, t) else {
        return Ok(report(at, Rule::WrongType));
    };
    let Some((number, of)) = numbered_field(fields, name.name.as_bytes()) else {
        return Ok(report(name.pos, Rule::Undeclared));
    };
    let place = behind(place, Component::Field(t, number))?;
    Ok(Ok(Designated::Variable(of, place)))
}

/// What takes an index.
#[derive(Drop)]
pub enum Subscripted {
    /// An array: its type, the types of its index and its elements, and where it stands.
    Array(TypeNo, TypeNo, TypeNo, Place),
    /// A formal ARRAY OF these elements.
    Open(TypeNo, Slot),
}

/// What stands before a bracket: 40 at the bracket if that is no array.
pub fn indices(types: &Types, at: Pos, from: Designated) -> Elaborated<Subscripted>
    ensures { result ≡ indices least types.now at from }
{
    match from {
        Designated::Variable(t, place) => match array_of(types, t) {
            None => report(at, Rule::WrongType),
            Some((index, element)) => Ok(Subscripted::Array(t, index, element, place)),
        },
        Designated::Open(t, slot) => Ok(Subscripted::Open(t, slot)),
        _ => report(at, Rule::WrongType),
    }
}

fn index_type(array: &Subscripted) -> TypeNo
    ensures { result ≡ index_type array.now }
{
    match array {
        Subscripted::Array(_, index, _, _) => *index,
        Subscripted::Open(_, _) => CARDINAL,
    }
}

fn element_of_array(
    alloc: Global,
    array: Subscripted,
    index: TypedExpr,
) -> Result<Designated, AllocError>
    ensures { IfOk result (λ d. d ≡ element_of_array index array) }
{
    match array {
        Subscripted::Array(t, _, element, place) => {
            let place = behind(place, Component::Element(t, index))?;
            Ok(Designated::Variable(element, place))
        }
        Subscripted::Open(t, slot) => {
            let whole = root_place(alloc, Root::Open(slot));
            let place = behind(whole, Component::OpenElement(slot, t, index))?;
            Ok(Designated::Variable(t, place))
        }
    }
}

/// An element of an array, by an index at a place. An index that is not assignment compatible is 41, and a constant one
/// that the array does not have is 52, both at the index.
pub fn element_at_index(
    alloc: Global,
    types: &Types,
    array: Elaborated<Subscripted>,
    at: Pos,
    index: Elaborated<Computed>,
) -> Result<Elaborated<Designated>, AllocError>
    ensures { IfOk result (λ d. d ≡ element_at_index least types.now array at index) }
{
    match both(array, index) {
        Err(breach) => Ok(Err(breach)),
        Ok((array, index)) => {
            match value_suited(Rule::NotAssignable, types, index_type(&array), at, index) {
                Err(breach) => Ok(Err(breach)),
                Ok(e) => Ok(Ok(element_of_array(alloc, array, e)?)),
            }
        }
    }
}
