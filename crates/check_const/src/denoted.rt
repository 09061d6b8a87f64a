//! What designators stand for.

ghost use Rattle.std.specs.Prelude.{◌≡◌};
ghost use Rattle.check_scope.specs.Elaborated.{least, ◌▷◌};
ghost use Rattle.check_const.specs.Denote.{denoted_by, denoted_of, constant_by, is_bitset, component, of_value};

use check_scope::{Elaborated, Meaningless, Sought, report};
use m2_rule::Rule;
use m2_tree::Pos;
use typed_tree::{BITSET, Meaning, Standard, TypeNo, Value, are_same};

/// What a designator stands for in a constant expression.
#[derive(Drop)]
pub enum Denoted {
    Value(Value),
    Type(TypeNo),
    /// A variable, or a component of one, or a type, a procedure or a module with selectors.
    Variable,
    Procedure,
    Standard(Standard),
    /// A module, by the place of its table.
    Module(usize),
}

/// What a name stands for.
pub fn denoted_by(meaning: Meaning) -> Denoted
    ensures { result ≡ denoted_by meaning }
{
    match meaning {
        Meaning::Constant(value) => Denoted::Value(value),
        Meaning::Type(t, _) => Denoted::Type(t),
        Meaning::Variable(_) => Denoted::Variable,
        Meaning::Local(_) => Denoted::Variable,
        Meaning::Field(_) => Denoted::Variable,
        Meaning::Procedure(_) => Denoted::Procedure,
        Meaning::LocalProcedure(_) => Denoted::Procedure,
        Meaning::Ahead => Denoted::Procedure,
        Meaning::Standard(standard) => Denoted::Standard(standard),
        Meaning::Module(place) => Denoted::Module(place),
    }
}

/// What a name stands for. A procedure is no constant, whatever its heading.
pub fn denoted_of(sought: Sought<Meaning>) -> Elaborated<Denoted>
    ensures { result ≡ denoted_of sought }
{
    match sought {
        Ok(meaning) => Ok(denoted_by(meaning)),
        Err(Meaningless::Broken(breach)) => Err(breach),
        Err(Meaningless::Headless(_, _)) => Ok(Denoted::Procedure),
    }
}

/// What stands at a place, taken as a constant.
pub fn constant_by(at: Pos, denoted: Elaborated<Denoted>) -> Elaborated<Value>
    ensures { result ≡ constant_by least at denoted }
{
    match denoted {
        Err(breach) => Err(breach),
        Ok(Denoted::Value(value)) => Ok(value),
        Ok(Denoted::Type(_)) => report(at, Rule::NoConstant),
        Ok(Denoted::Variable) => report(at, Rule::NoConstant),
        Ok(Denoted::Procedure) => report(at, Rule::NoConstant),
        Ok(Denoted::Standard(_)) => report(at, Rule::NoConstant),
        Ok(Denoted::Module(_)) => report(at, Rule::NoConstant),
    }
}

/// A constant that stands for itself.
pub fn of_value(value: Elaborated<Value>) -> Elaborated<Denoted>
    ensures { result ≡ of_value value }
{
    match value {
        Err(breach) => Err(breach),
        Ok(value) => Ok(Denoted::Value(value)),
    }
}

/// The type's name before a set.
pub fn is_bitset(at: Pos, meaning: Meaning) -> Elaborated<()>
    ensures { result ≡ is_bitset least at meaning }
{
    match meaning {
        Meaning::Type(t, _) => {
            if !are_same(t, BITSET) {
                return report(at, Rule::NoType);
            }
            Ok(())
        }
        Meaning::Constant(_) => report(at, Rule::NoType),
        Meaning::Variable(_) => report(at, Rule::NoType),
        Meaning::Local(_) => report(at, Rule::NoType),
        Meaning::Field(_) => report(at, Rule::NoType),
        Meaning::Procedure(_) => report(at, Rule::NoType),
        Meaning::LocalProcedure(_) => report(at, Rule::NoType),
        Meaning::Ahead => report(at, Rule::NoType),
        Meaning::Standard(_) => report(at, Rule::NoType),
        Meaning::Module(_) => report(at, Rule::NoType),
    }
}

/// A component of what stands before a bracket or a point. Constants have none: 40 there. A type, a procedure or a module
/// with selectors is no constant.
pub fn component(at: Pos, denoted: Denoted) -> Elaborated<Denoted>
    ensures { result ≡ component least at denoted }
{
    match denoted {
        Denoted::Variable => Ok(Denoted::Variable),
        Denoted::Value(_) => report(at, Rule::WrongType),
        Denoted::Type(_) => Ok(Denoted::Variable),
        Denoted::Procedure => Ok(Denoted::Variable),
        Denoted::Standard(_) => Ok(Denoted::Variable),
        Denoted::Module(_) => Ok(Denoted::Variable),
    }
}
