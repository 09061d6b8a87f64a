//! What assignments and standard procedures do.

ghost use Rattle.std.specs.Prelude.{◌≡◌};
ghost use Rattle.check_scope.specs.Elaborated.{least};
ghost use Rattle.check_value.specs.Effects.{target_at, assignment_of, change_target, set_variable, type_of_number, amount, set_element, change_by, membership_of, put};

use crate::class::{Class, class_of};
use crate::computed::{Computed, Designated};
use crate::places::{Accepted, value_for_place, value_suited};
use check_const::{Ordinal, whole_number};
use check_scope::{Elaborated, Sought, both, of_sort, report};
use m2_rule::Rule;
use m2_tree::Pos;
use typed_tree::{
    CARDINAL, CHAR, Change, INTEGER, Membership, Place, TypeNo, TypedExpr, TypedStmt, Types,
    is_numeric,
};

/// The left side of an assignment.
#[derive(Drop)]
pub enum Target {
    Variable(TypeNo, Place),
    /// An open array, to which nothing can be assigned.
    Open,
}

/// The left side of an assignment at a place: 40 if it is no variable.
pub fn target_at(at: Pos, designated: Sought<Designated>) -> Elaborated<Target>
    ensures { result ≡ target_at least at designated }
{
    match of_sort(at, Rule::WrongType, designated) {
        Err(breach) => Err(breach),
        Ok(Designated::Variable(t, place)) => Ok(Target::Variable(t, place)),
        Ok(Designated::Open(_, _)) => Ok(Target::Open),
        Ok(_) => report(at, Rule::WrongType),
    }
}

/// An assignment of a value at a place: 41 if it is not assignment compatible, and 52 if a constant is out of range.
pub fn assignment_of(
    types: &Types,
    target: Elaborated<Target>,
    at: Pos,
    value: Elaborated<Computed>,
) -> Elaborated<TypedStmt>
    ensures { result ≡ assignment_of least types.now target at value }
{
    let (target, value) = both(target, value)?;
    let Target::Variable(t, place) = target else {
        return report(at, Rule::NotAssignable);
    };
    match value_for_place(Rule::NotAssignable, types, t, at, value)? {
        Accepted::Value(e) => Ok(TypedStmt::Assign(place, t, e)),
        Accepted::Whole(from) => Ok(TypedStmt::Copy(place, from, t)),
        Accepted::Text(text) => Ok(TypedStmt::CopyText(place, t, text)),
    }
}

/// The variable of INC or DEC: 44 if it is no scalar variable.
pub fn change_target(types: &Types, at: Pos, designated: Designated) -> Elaborated<(TypeNo, Place)>
    ensures { result ≡ change_target least types.now at designated }
{
    match designated {
        Designated::Variable(t, place) => match class_of(types, t) {
            Class::Scalar(_) => Ok((t, place)),
            _ => report(at, Rule::NoVariable),
        },
        _ => report(at, Rule::NoVariable),
    }
}

/// The variable of INCL or EXCL: 44 if it is no BITSET variable.
pub fn set_variable(types: &Types, at: Pos, designated: Designated) -> Elaborated<Place>
    ensures { result ≡ set_variable least types.now at designated }
{
    match designated {
        Designated::Variable(t, place) => match class_of(types, t) {
            Class::Set => Ok(place),
            _ => report(at, Rule::NoVariable),
        },
        _ => report(at, Rule::NoVariable),
    }
}

/// The type of a number for which nothing is asked.
pub fn type_of_number(a: Ordinal) -> TypeNo
    ensures { result ≡ type_of_number a.number a.sort }
{
    match a.sort {
        Some(t) => t,
        None => { if a.number < 0 { INTEGER } else { CARDINAL } }
    }
}

/// An INTEGER, a CARDINAL or a number at a place, else 43.
pub fn amount(at: Pos, value: Computed) -> Elaborated<TypedExpr>
    ensures { result ≡ amount least at value }
{
    match value {
        Computed::Constant(value) => match whole_number(&value) {
            None => report(at, Rule::WrongArgument),
            Some(a) => Ok(TypedExpr::Constant(type_of_number(a), a.number)),
        },
        Computed::Scalar(_, base, e) => {
            if !is_numeric(base) {
                return report(at, Rule::WrongArgument);
            }
            Ok(e)
        }
        _ => report(at, Rule::WrongArgument),
    }
}

/// The element of INCL or EXCL at a place: 43 if it is no number, and 52 if a constant is not from 0 to 31.
pub fn set_element(at: Pos, value: Computed) -> Elaborated<TypedExpr>
    ensures { result ≡ set_element least at value }
{
    match value {
        Computed::Constant(value) => match whole_number(&value) {
            None => report(at, Rule::WrongArgument),
            Some(a) => {
                if !(0 <= a.number && a.number <= 31) {
                    return report(at, Rule::OutOfRange);
                }
                Ok(TypedExpr::Constant(type_of_number(a), a.number))
            }
        },
        Computed::Scalar(_, base, e) => {
            if !is_numeric(base) {
                return report(at, Rule::WrongArgument);
            }
            Ok(e)
        }
        _ => report(at, Rule::WrongArgument),
    }
}

/// INC or DEC of a variable by an amount.
pub fn change_by(
    change: Change,
    variable: Elaborated<(TypeNo, Place)>,
    amount: Elaborated<TypedExpr>,
) -> Elaborated<TypedStmt>
    ensures { result ≡ change_by least change variable amount }
{
    match both(variable, amount) {
        Err(breach) => Err(breach),
        Ok(((t, place), amount)) => Ok(TypedStmt::Change(change, place, t, amount)),
    }
}

/// INCL or EXCL of a set and an element.
pub fn membership_of(
    membership: Membership,
    set: Elaborated<Place>,
    element: Elaborated<TypedExpr>,
) -> Elaborated<TypedStmt>
    ensures { result ≡ membership_of least membership set element }
{
    match both(set, element) {
        Err(breach) => Err(breach),
        Ok((place, element)) => Ok(TypedStmt::Membership(membership, place, element)),
    }
}

/// Put of a value at a place: 43 if it is no CHAR.
pub fn put(types: &Types, at: Pos, value: Computed) -> Elaborated<TypedStmt>
    ensures { result ≡ put least types.now at value }
{
    match value_suited(Rule::WrongArgument, types, CHAR, at, value) {
        Err(breach) => Err(breach),
        Ok(e) => Ok(TypedStmt::Put(e)),
    }
}
