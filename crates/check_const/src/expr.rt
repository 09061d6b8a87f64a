//! One step each of a constant expression, of parts that are known.

ghost use Rattle.std.specs.Prelude.{◌≡◌, IfOk};
ghost use Rattle.check_scope.specs.Elaborated.{least, ◌▷◌};
ghost use Rattle.typed_tree.specs.declared.meaning.Value.TheVariants as value;
ghost use Rattle.check_const.specs.Denote.{component};
ghost use Rattle.check_const.specs.Parts.{relation_value, sign_place, signed_first, field_of, set_place, set_type, set_of, joined_bits, value_at, first_name, named_type, single_of, element_of};

use crate::call::type_in;
use crate::denoted::{Denoted, component, denoted_by, denoted_of, is_bitset, of_value};
use crate::elements::{set_element, single};
use crate::operand::Ordinal;
use crate::operate::{constant_operation, with_sign};
use crate::operator::BinaryOp;
use crate::qualified::exported_meaning;
use check_scope::{Elaborated, Scope, both, looked_up, of_sort};
use m2_rule::{Breach, Rule};
use m2_tree::{Ident, Operator, Pos, Quoted, RelOp, Sign};
use std::alloc::{AllocError, Global};
use tree_parts::Shared;
use typed_tree::{TypeNo, Value};

/// Where a sum begins: its sign, or else its first operand.
pub fn sign_place(sign: Option<Operator<Sign>>, at: Pos) -> Pos
    ensures { result ≡ sign_place sign at }
{
    match sign {
        None => at,
        Some(operator) => operator.pos,
    }
}

/// The first term of a sum with its sign.
pub fn signed_first(sign: Option<Operator<Sign>>, value: Elaborated<Value>) -> Elaborated<Value>
    ensures { result ≡ signed_first least sign value }
{
    match sign {
        None => value,
        Some(operator) => with_sign(operator.op, operator.pos, value),
    }
}

/// Where a set begins: at the name of its type, or else at its brace.
pub fn set_place(name: &Option<Ident>, at: Pos) -> Pos
    ensures { result ≡ set_place name.now at }
{
    match name {
        None => at,
        Some(name) => name.pos,
    }
}

/// The type's name before a set, if one stands there: 33 at it if it is not BITSET.
pub fn set_type(scope: &Scope<Breach>, name: &Option<Ident>) -> Result<Elaborated<()>, AllocError>
    ensures { IfOk result (λ j. j ≡ set_type least scope.now name.now) }
{
    match name {
        None => Ok(Ok(())),
        Some(name) => match of_sort(name.pos, Rule::NoType, looked_up(scope, name)?) {
            Err(breach) => Ok(Err(breach)),
            Ok(meaning) => Ok(is_bitset(name.pos, meaning)),
        },
    }
}

/// A set of these bits.
pub fn set_of(of: Elaborated<()>, bits: Elaborated<u32>) -> Elaborated<Denoted>
    ensures { result ≡ set_of least of bits }
{
    match both(of, bits) {
        Err(breach) => Err(breach),
        Ok(((), bits)) => Ok(Denoted::Value(Value::Set(bits))),
    }
}

/// The elements of both.
pub fn joined_bits(first: Elaborated<u32>, second: Elaborated<u32>) -> Elaborated<u32>
    ensures { result ≡ joined_bits least first second }
{
    match both(first, second) {
        Err(breach) => Err(breach),
        Ok((a, b)) => Ok(a | b),
    }
}

/// A string.
pub fn text_of(alloc: Global, bytes: &[u8]) -> Result<Value, AllocError>
    ensures { IfOk result (λ v. v ≡ value.Text bytes.now) }
{
    let text = Quoted::new(alloc, bytes)?;
    Ok(Value::Text(Shared::new(alloc, text)?))
}

/// A relation between two values.
pub fn relation_value(
    operator: &Operator<RelOp>,
    at: Pos,
    left: Elaborated<Value>,
    other_at: Pos,
    right: Elaborated<Value>,
) -> Elaborated<Denoted>
    ensures { result ≡ relation_value least operator.now at left other_at right }
{
    let relation = BinaryOp::Relation(operator.op);
    of_value(constant_operation(relation, operator.pos, at, left, other_at, right))
}

/// What the first name of a designator stands for.
pub fn first_name(scope: &Scope<Breach>, name: &Ident) -> Result<Elaborated<Denoted>, AllocError>
    ensures { IfOk result (λ d. d ≡ first_name least scope.now name.now) }
{
    Ok(denoted_of(looked_up(scope, name)?))
}

/// A name of a module, or a component.
pub fn field_in(
    scope: &Scope<Breach>,
    at: Pos,
    name: &Ident,
    from: Elaborated<Denoted>,
) -> Result<Elaborated<Denoted>, AllocError>
    ensures { IfOk result (λ d. d ≡ (from ▷ field_of least scope.now at name.now)) }
{
    match from {
        Err(breach) => Ok(Err(breach)),
        Ok(Denoted::Module(place)) => match exported_meaning(scope, place, name)? {
            Err(breach) => Ok(Err(breach)),
            Ok(meaning) => Ok(Ok(denoted_by(meaning))),
        },
        Ok(denoted) => Ok(component(at, denoted)),
    }
}

/// A component.
pub fn component_in(at: Pos, from: Elaborated<Denoted>) -> Elaborated<Denoted>
    ensures { result ≡ from ▷ component least at }
{
    match from {
        Err(breach) => Err(breach),
        Ok(denoted) => component(at, denoted),
    }
}

/// A value with its place.
pub fn value_at(at: Pos, value: Elaborated<Value>) -> Elaborated<(Pos, Value)>
    ensures { result ≡ value_at at value }
{
    match value {
        Err(breach) => Err(breach),
        Ok(value) => Ok((at, value)),
    }
}

/// One element of a set.
pub fn single_of(at: Pos, value: Elaborated<Value>) -> Elaborated<u32>
    ensures { result ≡ single_of least at value }
{
    match value {
        Err(breach) => Err(breach),
        Ok(value) => single(at, &value),
    }
}

/// A bound of a range of elements.
pub fn element_of(at: Pos, value: Elaborated<Value>) -> Elaborated<Ordinal>
    ensures { result ≡ element_of least at value }
{
    match value {
        Err(breach) => Err(breach),
        Ok(value) => set_element(at, &value),
    }
}

/// The type that stands there, if it is one.
pub fn named_type(denoted: Elaborated<Denoted>) -> Elaborated<Option<TypeNo>>
    ensures { result ≡ named_type denoted }
{
    match denoted {
        Err(breach) => Err(breach),
        Ok(denoted) => Ok(type_in(denoted)),
    }
}
