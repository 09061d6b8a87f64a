//! Arguments against formals.

ghost use Rattle.std.specs.Prelude.{◌≡◌, IfOk};
ghost use Rattle.check_scope.specs.Elaborated.{least};
ghost use Rattle.check_value.specs.Actuals.{elements_suit, variable_passed, open_passed, open_value, whole_passed, value_passed, actual, next_formal, with_argument};

use crate::class::{Class, array_of, class_of};
use crate::computed::{Computed, Designated, value_at_place};
use crate::places::value_suited;
use check_scope::{Elaborated, both, report};
use m2_rule::Rule;
use m2_tree::Pos;
use std::alloc::AllocError;
use tree_parts::Items;
use typed_tree::{Argument, CHAR, Formal, TypeNo, Types, Value, are_same, scalar_of};

/// Whether a type is an array of these elements whose least index has number 0.
fn elements_suit(types: &Types, t: TypeNo, array: TypeNo) -> bool
    ensures { result ≡ elements_suit types.now t array }
{
    let Some((index, element)) = array_of(types, array) else {
        return false;
    };
    let Some(index) = scalar_of(types, index) else {
        return false;
    };
    are_same(element, t) && index.low == 0
}

/// An argument for a VAR formal of this type.
fn variable_passed(t: TypeNo, at: Pos, designated: Designated) -> Elaborated<Argument>
    ensures { result ≡ variable_passed least t at designated }
{
    match designated {
        Designated::Variable(u, place) => {
            if !are_same(u, t) {
                return report(at, Rule::NoVariable);
            }
            Ok(Argument::Place(place))
        }
        Designated::Value(value) => {
            drop(value);
            report(at, Rule::NoVariable)
        }
        Designated::Open(_, _) => report(at, Rule::NoVariable),
        Designated::Type(_) => report(at, Rule::NoVariable),
        Designated::Procedure(_) => report(at, Rule::NoVariable),
        Designated::Nested(_) => report(at, Rule::NoVariable),
        Designated::Standard(_) => report(at, Rule::NoVariable),
        Designated::Module(_) => report(at, Rule::NoVariable),
    }
}

/// An argument for a VAR formal ARRAY OF these elements.
fn open_passed(types: &Types, t: TypeNo, at: Pos, designated: Designated) -> Elaborated<Argument>
    ensures { result ≡ open_passed least types.now t at designated }
{
    match designated {
        Designated::Variable(u, place) => {
            if !elements_suit(types, t, u) {
                return report(at, Rule::NoVariable);
            }
            Ok(Argument::Array(u, place))
        }
        Designated::Open(u, slot) => {
            if !are_same(u, t) {
                return report(at, Rule::NoVariable);
            }
            Ok(Argument::Open(slot))
        }
        Designated::Value(value) => {
            drop(value);
            report(at, Rule::NoVariable)
        }
        Designated::Type(_) => report(at, Rule::NoVariable),
        Designated::Procedure(_) => report(at, Rule::NoVariable),
        Designated::Nested(_) => report(at, Rule::NoVariable),
        Designated::Standard(_) => report(at, Rule::NoVariable),
        Designated::Module(_) => report(at, Rule::NoVariable),
    }
}

/// An argument for a value formal ARRAY OF these elements.
fn open_value(types: &Types, t: TypeNo, at: Pos, designated: Designated) -> Elaborated<Argument>
    ensures { result ≡ open_value least types.now t at designated }
{
    match designated {
        Designated::Variable(u, place) => {
            if !elements_suit(types, t, u) {
                return report(at, Rule::WrongArgument);
            }
            Ok(Argument::Array(u, place))
        }
        Designated::Open(u, slot) => {
            if !are_same(u, t) {
                return report(at, Rule::WrongArgument);
            }
            Ok(Argument::Open(slot))
        }
        Designated::Value(Computed::Constant(Value::Text(text))) => {
            if !are_same(t, CHAR) {
                return report(at, Rule::WrongArgument);
            }
            Ok(Argument::Text(text))
        }
        Designated::Value(_) | Designated::Procedure(_) => report(at, Rule::WrongArgument),
        Designated::Type(_) | Designated::Module(_) => report(at, Rule::WrongType),
        Designated::Nested(_) | Designated::Standard(_) => report(at, Rule::NoProcedureValue),
    }
}

/// An argument for a value formal of this array or record type.
fn whole_passed(t: TypeNo, at: Pos, designated: Designated) -> Elaborated<Argument>
    ensures { result ≡ whole_passed least t at designated }
{
    match designated {
        Designated::Variable(u, place) => {
            if !are_same(u, t) {
                return report(at, Rule::WrongArgument);
            }
            Ok(Argument::Place(place))
        }
        Designated::Value(value) => {
            drop(value);
            report(at, Rule::WrongArgument)
        }
        Designated::Open(_, _) => report(at, Rule::WrongArgument),
        Designated::Type(_) => report(at, Rule::WrongType),
        Designated::Procedure(_) => report(at, Rule::WrongArgument),
        Designated::Nested(_) => report(at, Rule::NoProcedureValue),
        Designated::Standard(_) => report(at, Rule::NoProcedureValue),
        Designated::Module(_) => report(at, Rule::WrongType),
    }
}

/// An argument for a value formal of this type.
fn value_passed(types: &Types, t: TypeNo, at: Pos, designated: Designated) -> Elaborated<Argument>
    ensures { result ≡ value_passed least types.now t at designated }
{
    match class_of(types, t) {
        Class::Whole => whole_passed(t, at, designated),
        Class::Scalar(_) | Class::Set | Class::Procedure => {
            let value = value_at_place(types, at, designated)?;
            let e = value_suited(Rule::WrongArgument, types, t, at, value)?;
            Ok(Argument::Value(t, e))
        }
    }
}

/// An argument at a place, for a formal. What a value formal does not take is 43, or 40 or 53 if it is no value, and what
/// a VAR formal does not take is 44. A constant out of range is 52.
pub fn actual(
    types: &Types,
    formal: Formal,
    at: Pos,
    designated: Designated,
) -> Elaborated<Argument>
    ensures { result ≡ actual least types.now formal at designated }
{
    if formal.is_var {
        if formal.is_open {
            open_passed(types, formal.of, at, designated)
        } else {
            variable_passed(formal.of, at, designated)
        }
    } else if formal.is_open {
        open_value(types, formal.of, at, designated)
    } else {
        value_passed(types, formal.of, at, designated)
    }
}

/// The next formal, and those behind it.
pub fn next_formal(formals: &[Formal]) -> (Option<Formal>, &[Formal])
    ensures { (result.0, result.1.now) ≡ next_formal formals.now }
{
    match formals {
        [] => (None, formals),
        [formal, rest @ ..] => (Some(*formal), rest),
    }
}

/// One more argument.
pub fn with_argument(
    arguments: Elaborated<Items<Argument>>,
    argument: Elaborated<Argument>,
) -> Result<Elaborated<Items<Argument>>, AllocError>
    ensures { IfOk result (λ xs. xs ≡ with_argument least arguments argument) }
{
    match both(arguments, argument) {
        Err(breach) => Ok(Err(breach)),
        Ok((mut all, one)) => {
            all.push(one)?;
            Ok(Ok(all))
        }
    }
}
