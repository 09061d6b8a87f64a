//! What is called.

ghost use Rattle.std.specs.Prelude.{◌≡◌};
ghost use Rattle.std.specs.Option.{option_copied};
ghost use Rattle.check_scope.specs.Elaborated.{least};
ghost use Rattle.check_value.specs.Callees.{callee_of, count_check, function_of, proper_of, call_by};

use crate::class::{Class, class_of};
use crate::computed::Designated;
use check_scope::{Elaborated, report};
use m2_rule::Rule;
use m2_tree::Pos;
use tree_parts::Items;
use typed_tree::{
    Argument, Call, LocalProcedure, Place, Procedure, Signature, Standard, TypeNo, Types,
};

/// A procedure that is called.
#[derive(Drop)]
pub enum Callee {
    Module(Procedure),
    Nested(LocalProcedure),
    /// The one that a variable of this procedure type holds.
    Variable(TypeNo, Place),
}

/// What stands before arguments.
#[derive(Drop)]
pub enum Called {
    /// A procedure with this heading.
    Routine(TypeNo, Callee),
    Standard(Standard),
}

/// What is called by a designator at a place: 40 if that is no procedure.
pub fn callee_of(types: &Types, at: Pos, designated: Designated) -> Elaborated<Called>
    ensures { result ≡ callee_of least types.now at designated }
{
    match designated {
        Designated::Procedure(p) => Ok(Called::Routine(p.heading, Callee::Module(p))),
        Designated::Nested(p) => Ok(Called::Routine(p.heading, Callee::Nested(p))),
        Designated::Variable(t, place) => match class_of(types, t) {
            Class::Procedure => Ok(Called::Routine(t, Callee::Variable(t, place))),
            Class::Scalar(_) | Class::Set | Class::Whole => report(at, Rule::WrongType),
        },
        Designated::Standard(standard) => Ok(Called::Standard(standard)),
        _ => report(at, Rule::WrongType),
    }
}

fn count_check(at: Pos, asked: usize, there: usize) -> Elaborated<()>
    ensures { result ≡ count_check least at asked there }
{
    if asked != there {
        return report(at, Rule::ArgumentCount);
    }
    Ok(())
}

/// The type that a function gives, if it is called at a place with this many arguments: 40 if it is no function, and 42
/// if it asks for another number of arguments.
pub fn function_of(at: Pos, signature: Option<&Signature>, arguments: usize) -> Elaborated<TypeNo>
    ensures { result ≡ function_of least at (option_copied signature.entry) arguments }
{
    match signature {
        None => report(at, Rule::WrongType),
        Some(signature) => match signature.result {
            None => report(at, Rule::WrongType),
            Some(t) => match count_check(at, signature.formals.len(), arguments) {
                Err(breach) => Err(breach),
                Ok(()) => Ok(t),
            },
        },
    }
}

/// A procedure that is called as a statement, at a place with this many arguments: 40 if it is a function, and 42 if it
/// asks for another number of arguments.
pub fn proper_of(at: Pos, signature: Option<&Signature>, arguments: usize) -> Elaborated<()>
    ensures { result ≡ proper_of least at (option_copied signature.entry) arguments }
{
    match signature {
        None => report(at, Rule::WrongType),
        Some(signature) => match signature.result {
            Some(_) => report(at, Rule::WrongType),
            None => count_check(at, signature.formals.len(), arguments),
        },
    }
}

/// A call with its arguments.
pub fn call_by(callee: Callee, arguments: Items<Argument>) -> Call
    ensures { result ≡ call_by arguments callee }
{
    match callee {
        Callee::Module(p) => Call::Module(p, arguments),
        Callee::Nested(p) => Call::Nested(p, arguments),
        Callee::Variable(t, place) => Call::Variable(t, place, arguments),
    }
}
