//! One step each, of parts that are known.

ghost use Rattle.std.specs.Prelude.{◌≡◌, IfOk, Ok};
ghost use Rattle.std.specs.Option.{option_copied};
ghost use Rattle.check_scope.specs.Elaborated.{least, plain, of_sort, of_heading, of_sort_of_value, ◌▷◌};
ghost use Rattle.check_scope.specs.Scopes.{looked_up};
ghost use Rattle.check_value.specs.Values.{designated_by};
ghost use Rattle.check_const.specs.Parts as constants;
ghost use Rattle.check_value.specs.Functions.{type_named, high_of, unary_at};
ghost use Rattle.check_expr.specs.Meanings.{part, meanings_of, head, of_computed, signed_first, relation_value, first_name, field_of, field_at, index_at, formals_of, argument_by, call_given, type_of};
ghost use Rattle.m2_rule.specs.declared.rule.Rule.TheVariants as rule;

use check_const::{BinaryOp, Denoted, exported_meaning, set_place, sign_place};
use check_scope::{
    Elaborated, Scope, Sought, looked_up, of_heading, of_sort, of_sort_of_value, of_value, plain,
    report,
};
use check_value::{
    Callee, Computed, Designated, Unary, actual, call_by, designated_by, element_at_index, field,
    function_result, high_of, indices, operation_between, type_named, unary_at, with_sign,
};
use m2_rule::{Breach, Rule};
use m2_tree::{Designator, Expr, Ident, Operator, Pos, RelOp, Sign};
use std::alloc::{AllocError, Global};
use tree_parts::{Boxed, Items};
use typed_tree::{
    Argument, Formal, Meaning, Scalar, Signature, Standard, TypeNo, TypedExpr, Types, Value,
};

/// The place of an expression's first token.
#[tactic(auto, using(crate::proofs::Variants::places))]
pub fn place_of(e: &Expr) -> Pos
    ensures { result ≡ (part least e.now).at }
{
    match e {
        Expr::Number(at, _) => *at,
        Expr::Char(at, _) => *at,
        Expr::Text(at, _) => *at,
        Expr::Set(name, at, _) => set_place(name, *at),
        Expr::Not(at, _) => *at,
        Expr::Bracketed(at, _) => *at,
        Expr::Use(designator, _) => first_of(designator),
        Expr::Term(first, _) => place_of(first.get()),
        Expr::Sum(sign, first, _) => sign_place(*sign, place_of(first.get())),
        Expr::Relation(first, _, _) => place_of(first.get()),
    }
}

/// The place of a designator's first token.
#[tactic(auto, using(crate::proofs::Variants::head_at))]
pub fn first_of(designator: &Designator) -> Pos
    ensures { result ≡ (head least designator.now).fixed.at }
{
    designator.name.pos
}

/// A value stands for itself.
pub fn of_computed(value: Elaborated<Computed>) -> Sought<Designated>
    ensures { result ≡ of_computed value }
{
    match value {
        Err(breach) => plain(Err(breach)),
        Ok(value) => Ok(Designated::Value(value)),
    }
}

/// The first term of a sum with its sign.
pub fn signed_first(
    alloc: Global,
    sign: Option<Operator<Sign>>,
    value: Elaborated<Computed>,
) -> Result<Elaborated<Computed>, AllocError>
    ensures { IfOk result (λ v. v ≡ signed_first least sign value) }
{
    match sign {
        None => Ok(value),
        Some(operator) => with_sign(alloc, operator.op, operator.pos, value),
    }
}

/// A relation between two expressions that have these values.
pub fn relation_value(
    alloc: Global,
    types: &Types,
    first: &Expr,
    left: Elaborated<Computed>,
    operator: &Operator<RelOp>,
    second: &Expr,
    right: Elaborated<Computed>,
) -> Result<Elaborated<Computed>, AllocError>
    ensures { IfOk result (λ v. v ≡ relation_value least types.now operator.now
        (meanings_of least first.now).fixed.at left (meanings_of least second.now).fixed.at right) }
{
    let relation = BinaryOp::Relation(operator.op);
    let at = place_of(first);
    let other_at = place_of(second);
    operation_between(
        alloc,
        types,
        relation,
        operator.pos,
        at,
        left,
        other_at,
        right,
    )
}

/// What a name of this meaning stands for.
fn standing_of(
    alloc: Global,
    level: usize,
    at: Pos,
    meaning: Meaning,
) -> Result<Sought<Designated>, AllocError>
    ensures { IfOk result (λ d. d ≡ plain (designated_by least level at meaning)) }
{
    Ok(plain(designated_by(alloc, level, at, meaning)?))
}

/// What the first name of a designator stands for.
pub fn first_name(
    alloc: Global,
    scope: &Scope<Breach>,
    name: &Ident,
) -> Result<Sought<Designated>, AllocError>
    ensures { IfOk result (λ d. d ≡ first_name least scope.now name.now) }
{
    match looked_up(scope, name)? {
        Err(meaningless) => Ok(Err(meaningless)),
        Ok(meaning) => standing_of(alloc, scope.level, name.pos, meaning),
    }
}

/// A name of a module, or a field of a record, of what stands before it.
pub fn field_of(
    alloc: Global,
    scope: &Scope<Breach>,
    at: Pos,
    name: &Ident,
    from: Designated,
) -> Result<Elaborated<Designated>, AllocError>
    ensures { IfOk result (λ d. d ≡ field_of least scope.now at name.now from) }
{
    match from {
        Designated::Module(place) => match exported_meaning(scope, place, name)? {
            Err(breach) => Ok(Err(breach)),
            Ok(meaning) => designated_by(alloc, scope.level, name.pos, meaning),
        },
        from => field(&scope.types, at, name, from),
    }
}

/// A name of a module, or a field of a record.
pub fn field_at(
    alloc: Global,
    scope: &Scope<Breach>,
    at: Pos,
    name: &Ident,
    from: Sought<Designated>,
) -> Result<Sought<Designated>, AllocError>
    ensures { IfOk result (λ d. d ≡ field_at least scope.now at name.now from) }
{
    match of_sort(at, Rule::WrongType, from) {
        Err(breach) => Ok(plain(Err(breach))),
        Ok(from) => Ok(plain(field_of(alloc, scope, at, name, from)?)),
    }
}

/// An element of an array.
pub fn index_at(
    alloc: Global,
    types: &Types,
    at: Pos,
    from: Sought<Designated>,
    other_at: Pos,
    index: Elaborated<Computed>,
) -> Result<Sought<Designated>, AllocError>
    ensures { IfOk result (λ d. d ≡ index_at least types.now at from other_at index) }
{
    let array = match of_sort(at, Rule::WrongType, from) {
        Err(breach) => Err(breach),
        Ok(from) => indices(types, at, from),
    };
    Ok(plain(element_at_index(alloc, types, array, other_at, index)?))
}

/// The type that stands at a place, if it is one.
pub fn type_of(at: Pos, designated: Sought<Designated>) -> Elaborated<Option<TypeNo>>
    ensures { result ≡ type_of least at designated }
{
    match of_sort(at, Rule::NoType, designated) {
        Err(breach) => Err(breach),
        Ok(Designated::Type(t)) => Ok(Some(t)),
        Ok(_) => Ok(None),
    }
}

/// The formals of a procedure.
pub fn formals_of(signature: Option<&Signature>) -> &[Formal]
    ensures { result.now ≡ formals_of (option_copied signature.entry) }
{
    match signature {
        None => &[],
        Some(signature) => signature.formals.as_slice(),
    }
}

/// An argument at a place, for a formal. For a VAR formal it counts that a procedure is no variable.
pub fn argument_by(
    types: &Types,
    formal: Option<Formal>,
    at: Pos,
    designated: Sought<Designated>,
) -> Elaborated<Argument>
    ensures { result ≡ argument_by least types.now formal at designated }
{
    match formal {
        None => report(at, Rule::ArgumentCount),
        Some(formal) => {
            let passed = if formal.is_var {
                of_sort(at, Rule::NoVariable, designated)?
            } else {
                of_value(at, designated)?
            };
            actual(types, formal, at, passed)
        }
    }
}

/// What a call of a function gives.
pub fn call_given(
    alloc: Global,
    types: &Types,
    t: TypeNo,
    callee: Callee,
    arguments: Elaborated<Items<Argument>>,
) -> Result<Elaborated<Computed>, AllocError>
    ensures { IfOk result (λ v. v ≡ call_given least types.now t callee arguments) }
{
    match arguments {
        Err(breach) => Ok(Err(breach)),
        Ok(arguments) => {
            let call = Boxed::new(alloc, call_by(callee, arguments))?;
            Ok(Ok(function_result(types, t, TypedExpr::Call(t, call))))
        }
    }
}

/// An argument that names a type.
pub fn type_at(
    types: &Types,
    at: Pos,
    designated: Sought<Designated>,
) -> Elaborated<(TypeNo, Scalar)>
    ensures { result ≡ (of_sort least at rule.NoType designated ▷ type_named least types.now at) }
{
    match of_sort(at, Rule::NoType, designated) {
        Err(breach) => Err(breach),
        Ok(designated) => type_named(types, at, designated),
    }
}

/// HIGH of an argument.
pub fn high_at(at: Pos, designated: Sought<Designated>) -> Elaborated<Computed>
    ensures { result
        ≡ (of_sort_of_value least at rule.WrongArgument designated ▷ high_of least at) }
{
    match of_sort_of_value(at, Rule::WrongArgument, designated) {
        Err(breach) => Err(breach),
        Ok(designated) => high_of(at, designated),
    }
}

/// A standard function of an argument.
pub fn unary_of(
    alloc: Global,
    standard: Standard,
    function: Unary,
    at: Pos,
    value: Elaborated<Computed>,
) -> Result<Elaborated<Computed>, AllocError>
    ensures { IfOk result (λ v. v ≡ (value ▷ unary_at least standard function at)) }
{
    match value {
        Err(breach) => Ok(Err(breach)),
        Ok(value) => unary_at(alloc, standard, function, at, value),
    }
}

/// What is broken in what stands at a place.
pub fn breaches_in(designated: Sought<Designated>) -> Elaborated<()>
    ensures { result ≡ (of_heading designated ▷ λ d. Ok tt) }
{
    match of_heading(designated) {
        Err(breach) => Err(breach),
        Ok(designated) => {
            drop(designated);
            Ok(())
        }
    }
}

/// A relation between two constant expressions that have these values.
pub fn related_parts(
    first: &Expr,
    left: Elaborated<Value>,
    operator: &Operator<RelOp>,
    second: &Expr,
    right: Elaborated<Value>,
) -> Elaborated<Denoted>
    ensures { result ≡ constants.relation_value least operator.now (part least first.now).at left
        (part least second.now).at right }
{
    check_const::relation_value(operator, place_of(first), left, place_of(second), right)
}
