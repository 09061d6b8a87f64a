//! What expressions mean: each in a body, and as a constant expression.

ghost use Rattle.std.specs.Prelude.{◌≡◌, [], Ok, IfOk, map};
ghost use Rattle.std.specs.List.{fold};
ghost use Rattle.m2_rule.specs.declared.rule.Rule.TheVariants as rule;
ghost use Rattle.check_scope.specs.Elaborated.{least, of_sort_of_value, reported_beside, ◌▷◌};
ghost use Rattle.check_const.specs.Operate as values;
ghost use Rattle.check_const.specs.Denote.{of_value};
ghost use Rattle.check_const.specs.Calls.{sort_of};
ghost use Rattle.check_const.specs.Calls as calls;
ghost use Rattle.check_const.specs.Parts.{value_at};
ghost use Rattle.check_const.specs.Parts as constants;
ghost use Rattle.check_value.specs.Functions.{form_of, unary_at, bound_at, high_of};
ghost use Rattle.check_expr.specs.Meanings.{part, meanings_of, picks, head, item, as_constant, of_computed, value_standing, value_of, scalar_named, actual_in, look_in, breaches_in_all, wrong_count, routine_called, by_form, call_in_expression, operation_with, factor_in, term_in, pick_in, constant_operation_with, constant_factor_in, constant_term_in, item_in};

use crate::fixed::denotation;
use crate::pieces::{
    argument_by, breaches_in, call_given, field_at, first_name, first_of, formals_of, high_at,
    index_at, of_computed, place_of, related_parts, relation_value, signed_first, type_at, type_of,
    unary_of,
};
use check_const::{
    BinaryOp, Denoted, Sort, add_op, bound as bound_by, constant_by,
    constant_operation as combined_constants, conversion_call, element_of, joined_bits, mul_op,
    named_type, negation as negated_constant, number_value, of_value, set_of, set_type, sign_place,
    signed_first as constant_signed, single_of, sort_of, span_of, text_of, type_argument,
    unary as unary_by, value_at,
};
use check_scope::{
    Elaborated, Meaningless, Scope, Sought, beside, of_heading, plain, refusal_beside, report,
    reported_beside,
};
use check_value::{
    Called, Callee, Computed, Designated, Form, Unary, bound_at, callee_of, conversion_at, form_of,
    function_of, negation, next_formal, operation_between, signature_of, value_at_place,
    with_argument,
};
use m2_rule::{Breach, Rule};
use m2_tree::{AddOp, Designator, Expr, Ident, Item, MulOp, Operator, Pos, Selector};
use std::alloc::{AllocError, Global};
use tree_parts::Items;
use typed_tree::{Argument, CHAR, Formal, Standard, TypeNo, Value};

/// What an expression stands for.
#[cycle(body)]
#[tactic(auto, using(crate::proofs::Variants::variants, crate::proofs::Variants::value_rules))]
pub fn stands_for(
    alloc: Global,
    scope: &Scope<Breach>,
    e: &Expr,
) -> Result<Sought<Designated>, AllocError>
    ensures { IfOk result (λ d. d ≡ (meanings_of least e.now).means scope.now) }
{
    match e {
        Expr::Number(_, _) | Expr::Char(_, _) | Expr::Text(_, _) | Expr::Set(_, _, _) => {
            itself(alloc, scope, e)
        }
        Expr::Use(designator, args) => match args {
            None => designation(alloc, scope, designator),
            Some(_) => value_itself(alloc, scope, e),
        },
        Expr::Not(_, _)
        | Expr::Bracketed(_, _)
        | Expr::Term(_, _)
        | Expr::Sum(_, _, _)
        | Expr::Relation(_, _, _) => value_itself(alloc, scope, e),
    }
}

/// A value that stands for itself.
#[cycle(body)]
#[inline(never)]
fn value_itself(
    alloc: Global,
    scope: &Scope<Breach>,
    e: &Expr,
) -> Result<Sought<Designated>, AllocError>
    ensures { IfOk result
        (λ d. d ≡ of_computed (value_of least scope.now (meanings_of least e.now))) }
{
    let value = value_of(alloc, scope, e)?;
    Ok(of_computed(value))
}

/// The value of an expression. Most are a name or a constant, and a function pays at entry for all that it may hold: so what the
/// others need stands apart.
#[cycle(body)]
#[tactic(auto, using(crate::proofs::Variants::variants))]
pub fn value_of(
    alloc: Global,
    scope: &Scope<Breach>,
    e: &Expr,
) -> Result<Elaborated<Computed>, AllocError>
    ensures { IfOk result (λ v. v ≡ value_of least scope.now (meanings_of least e.now)) }
{
    match e {
        Expr::Number(_, _) | Expr::Char(_, _) | Expr::Text(_, _) | Expr::Set(_, _, _) => {
            constant_value(alloc, scope, e)
        }
        Expr::Use(designator, args) => match args {
            None => name_value(alloc, scope, designator),
            Some(_) => operation_value(alloc, scope, e),
        },
        Expr::Not(_, _)
        | Expr::Bracketed(_, _)
        | Expr::Term(_, _)
        | Expr::Sum(_, _, _)
        | Expr::Relation(_, _, _) => operation_value(alloc, scope, e),
    }
}

/// The value of a constant that stands for itself.
#[cycle(body)]
fn constant_value(
    alloc: Global,
    scope: &Scope<Breach>,
    e: &Expr,
) -> Result<Elaborated<Computed>, AllocError>
    ensures { IfOk result (λ v.
        v
        ≡ value_standing least scope.now.types (part least e.now).at
        (as_constant least scope.now (part least e.now))) }
{
    match constant_of(alloc, scope, e)? {
        Err(breach) => Ok(Err(breach)),
        Ok(value) => Ok(Ok(Computed::Constant(value))),
    }
}

/// What a designator stands for, taken as a value.
#[cycle(body)]
fn name_value(
    alloc: Global,
    scope: &Scope<Breach>,
    designator: &Designator,
) -> Result<Elaborated<Computed>, AllocError>
    ensures { IfOk result (λ v.
        v
        ≡ value_standing least scope.now.types (head least designator.now).fixed.at
        ((head least designator.now).means scope.now)) }
{
    let at = first_of(designator);
    match designation(alloc, scope, designator)? {
        Ok(designated) => Ok(value_at_place(&scope.types, at, designated)),
        Err(Meaningless::Broken(breach)) => Ok(Err(breach)),
        Err(Meaningless::Headless(true, _)) => Ok(report(at, Rule::NoProcedureValue)),
        Err(Meaningless::Headless(false, breach)) => Ok(Err(breach)),
    }
}

/// The value of an expression of any form.
#[cycle(body)]
#[inline(never)]
#[tactic(auto, using(crate::proofs::Variants::variants, crate::proofs::Variants::value_rules))]
fn operation_value(
    alloc: Global,
    scope: &Scope<Breach>,
    e: &Expr,
) -> Result<Elaborated<Computed>, AllocError>
    ensures { IfOk result (λ v. v ≡ value_of least scope.now (meanings_of least e.now)) }
{
    match e {
        Expr::Not(at, inner) => {
            let operand = value_of(alloc, scope, inner.get())?;
            negation(alloc, *at, operand)
        }
        Expr::Bracketed(_, inner) => value_of(alloc, scope, inner.get()),
        Expr::Use(designator, args) => match args {
            None => name_value(alloc, scope, designator),
            Some(args) => {
                let callee = designation(alloc, scope, designator)?;
                let at = first_of(designator);
                call_in_expression(alloc, scope, at, callee, args.get().as_slice())
            }
        },
        Expr::Term(front, rest) => {
            let factor = value_of(alloc, scope, front.get())?;
            factors(alloc, scope, place_of(front.get()), factor, rest.as_slice())
        }
        Expr::Sum(sign, front, rest) => {
            let term = value_of(alloc, scope, front.get())?;
            let start = signed_first(alloc, *sign, term)?;
            let place = sign_place(*sign, place_of(front.get()));
            terms(alloc, scope, place, start, rest.as_slice())
        }
        Expr::Relation(a, operator, b) => {
            let a = a.get();
            let b = b.get();
            let x = value_of(alloc, scope, a)?;
            let y = value_of(alloc, scope, b)?;
            let types = &scope.types;
            let value = relation_value(alloc, types, a, x, operator, b, y)?;
            Ok(value)
        }
        Expr::Number(_, _) | Expr::Char(_, _) | Expr::Text(_, _) | Expr::Set(_, _, _) => {
            constant_value(alloc, scope, e)
        }
    }
}

/// What a designator stands for.
#[cycle(body)]
#[tactic(auto, using(crate::proofs::Variants::variants))]
pub fn designation(
    alloc: Global,
    scope: &Scope<Breach>,
    designator: &Designator,
) -> Result<Sought<Designated>, AllocError>
    ensures { IfOk result (λ d. d ≡ (head least designator.now).means scope.now) }
{
    let first = first_name(alloc, scope, &designator.name)?;
    selection(alloc, scope, first, designator.selectors.as_slice())
}

/// What selectors pick, one after another.
#[cycle(body)]
#[inline(never)]
fn selection(
    alloc: Global,
    scope: &Scope<Breach>,
    first: Sought<Designated>,
    selectors: &[Selector],
) -> Result<Sought<Designated>, AllocError>
    ensures { IfOk result (λ d. d ≡ fold (pick_in scope.now) first selectors.now) }
{
    let mut designated = first;
    for selector in selectors {
        designated = pick(alloc, scope, designated, selector)?;
    }
    Ok(designated)
}

/// What a selector picks.
#[cycle(body)]
#[tactic(auto, using(crate::proofs::Variants::variants))]
fn pick(
    alloc: Global,
    scope: &Scope<Breach>,
    from: Sought<Designated>,
    selector: &Selector,
) -> Result<Sought<Designated>, AllocError>
    ensures { IfOk result (λ d. d ≡ (picks least selector.now).picks scope.now from) }
{
    match selector {
        Selector::Field(at, name) => field_at(alloc, scope, *at, name, from),
        Selector::Index(at, index) => {
            let value = value_of(alloc, scope, index)?;
            index_at(alloc, &scope.types, *at, from, place_of(index), value)
        }
    }
}

/// Factors, from the left.
#[cycle(body)]
fn factors(
    alloc: Global,
    scope: &Scope<Breach>,
    at: Pos,
    left: Elaborated<Computed>,
    rest: &[(Operator<MulOp>, Expr)],
) -> Result<Elaborated<Computed>, AllocError>
    ensures { IfOk result (λ v. v ≡ fold (factor_in scope.now at) left rest.now) }
{
    let mut value = left;
    for (operator, factor) in rest {
        let op = mul_op(operator.op);
        value = operation_with(alloc, scope, at, value, op, operator.pos, factor)?;
    }
    Ok(value)
}

/// Terms, from the left.
#[cycle(body)]
fn terms(
    alloc: Global,
    scope: &Scope<Breach>,
    at: Pos,
    left: Elaborated<Computed>,
    rest: &[(Operator<AddOp>, Expr)],
) -> Result<Elaborated<Computed>, AllocError>
    ensures { IfOk result (λ v. v ≡ fold (term_in scope.now at) left rest.now) }
{
    let mut value = left;
    for (operator, term) in rest {
        let op = add_op(operator.op);
        value = operation_with(alloc, scope, at, value, op, operator.pos, term)?;
    }
    Ok(value)
}

/// What an operator at its place makes of a value and of the operand that follows.
#[cycle(body)]
fn operation_with(
    alloc: Global,
    scope: &Scope<Breach>,
    at: Pos,
    left: Elaborated<Computed>,
    op: BinaryOp,
    op_at: Pos,
    operand: &Expr,
) -> Result<Elaborated<Computed>, AllocError>
    ensures { IfOk result (λ v.
        v ≡ operation_with least scope.now at left op op_at (meanings_of least operand.now)) }
{
    let right = value_of(alloc, scope, operand)?;
    let types = &scope.types;
    operation_between(alloc, types, op, op_at, at, left, place_of(operand), right)
}

/// A call in an expression.
#[cycle(body)]
fn call_in_expression(
    alloc: Global,
    scope: &Scope<Breach>,
    at: Pos,
    callee: Sought<Designated>,
    args: &[Expr],
) -> Result<Elaborated<Computed>, AllocError>
    ensures { IfOk result (λ v.
        v ≡ call_in_expression least scope.now at callee (map (meanings_of least) args.now)) }
{
    let called = match of_heading(callee) {
        Err(breach) => Err(breach),
        Ok(designated) => callee_of(&scope.types, at, designated),
    };
    match called {
        Err(breach) => {
            let rest = breaches_in_all(alloc, scope, args)?;
            Ok(refusal_beside(breach, rest))
        }
        Ok(Called::Routine(heading, callee)) => {
            routine_called(alloc, scope, at, heading, callee, args)
        }
        Ok(Called::Standard(standard)) => by_form(alloc, scope, at, standard, args),
    }
}

/// A call of a function with this heading.
#[cycle(body)]
#[tactic(auto, using(crate::proofs::Variants::actuals_is, crate::proofs::Variants::count_is))]
fn routine_called(
    alloc: Global,
    scope: &Scope<Breach>,
    at: Pos,
    heading: TypeNo,
    callee: Callee,
    args: &[Expr],
) -> Result<Elaborated<Computed>, AllocError>
    ensures { IfOk result (λ v.
        v ≡ routine_called least scope.now at heading callee (map (meanings_of least) args.now)) }
{
    let signature = signature_of(&scope.types, heading);
    match function_of(at, signature, args.len()) {
        Err(breach) => {
            let rest = breaches_in_all(alloc, scope, args)?;
            Ok(refusal_beside(breach, rest))
        }
        Ok(t) => {
            let arguments = actuals(alloc, scope, formals_of(signature), args)?;
            call_given(alloc, &scope.types, t, callee, arguments)
        }
    }
}

/// Arguments, one after the other, with the formals.
#[cycle(body)]
pub fn actuals(
    alloc: Global,
    scope: &Scope<Breach>,
    formals: &[Formal],
    args: &[Expr],
) -> Result<Elaborated<Items<Argument>>, AllocError>
    ensures { IfOk result
        (λ xs. xs ≡ (fold (actual_in scope.now) (formals.now, Ok []) args.now).1) }
{
    let mut left = formals;
    let mut arguments = Ok(Items::new(alloc));
    for arg in args {
        let (formal, rest) = next_formal(left);
        let designated = stands_for(alloc, scope, arg)?;
        let argument = argument_by(&scope.types, formal, place_of(arg), designated);
        arguments = with_argument(arguments, argument)?;
        left = rest;
    }
    Ok(arguments)
}

/// What is broken in arguments themselves.
#[cycle(body)]
#[tactic(auto, using(crate::proofs::Variants::looks_is))]
pub fn breaches_in_all(
    alloc: Global,
    scope: &Scope<Breach>,
    args: &[Expr],
) -> Result<Elaborated<()>, AllocError>
    ensures { IfOk result (λ j.
        j ≡ breaches_in_all least scope.now (map (meanings_of least) args.now)) }
{
    let mut done = Ok(());
    for arg in args {
        let designated = stands_for(alloc, scope, arg)?;
        done = beside(done, breaches_in(designated));
    }
    Ok(done)
}

/// A wrong number of arguments, beside what is broken in them.
#[cycle(body)]
fn wrong_count(
    alloc: Global,
    scope: &Scope<Breach>,
    at: Pos,
    args: &[Expr],
) -> Result<Elaborated<Computed>, AllocError>
    ensures { IfOk result (λ v.
        v ≡ wrong_count least scope.now at (map (meanings_of least) args.now)) }
{
    let rest = breaches_in_all(alloc, scope, args)?;
    Ok(reported_beside(at, Rule::ArgumentCount, rest))
}

/// A call of a standard procedure in an expression.
#[cycle(body)]
fn by_form(
    alloc: Global,
    scope: &Scope<Breach>,
    at: Pos,
    standard: Standard,
    args: &[Expr],
) -> Result<Elaborated<Computed>, AllocError>
    ensures { IfOk result (λ v.
        v
        ≡ by_form least scope.now at standard (map (meanings_of least) args.now)
        (form_of standard)) }
{
    match (form_of(standard), args) {
        (Form::Unary(function), [arg]) => unary_value(alloc, scope, standard, function, arg),
        (Form::Bound, [arg]) => bound_value(alloc, scope, standard, arg),
        (Form::Conversion, [to, arg]) => {
            let designated = stands_for(alloc, scope, to)?;
            let t = type_at(&scope.types, place_of(to), designated);
            let value = value_of(alloc, scope, arg)?;
            conversion_at(alloc, t, place_of(arg), value)
        }
        (Form::High, [arg]) => high_value(alloc, scope, arg),
        (Form::Proper, _) => no_value(alloc, scope, at, args),
        (Form::Unary(_) | Form::Bound | Form::High, [] | [_, _, ..])
        | (Form::Conversion, [] | [_] | [_, _, _, ..]) => wrong_count(alloc, scope, at, args),
    }
}

/// The value of a standard function of one argument.
#[cycle(body)]
fn unary_value(
    alloc: Global,
    scope: &Scope<Breach>,
    standard: Standard,
    function: Unary,
    arg: &Expr,
) -> Result<Elaborated<Computed>, AllocError>
    ensures { IfOk result (λ v.
        v
        ≡ (value_of least scope.now (meanings_of least arg.now)
        ▷ unary_at least standard function (part least arg.now).at)) }
{
    let value = value_of(alloc, scope, arg)?;
    unary_of(alloc, standard, function, place_of(arg), value)
}

/// MAX or MIN of a type.
#[cycle(body)]
fn bound_value(
    alloc: Global,
    scope: &Scope<Breach>,
    standard: Standard,
    arg: &Expr,
) -> Result<Elaborated<Computed>, AllocError>
    ensures { IfOk result (λ v.
        v ≡ bound_at standard (scalar_named least scope.now (meanings_of least arg.now))) }
{
    let designated = stands_for(alloc, scope, arg)?;
    Ok(bound_at(standard, type_at(&scope.types, place_of(arg), designated)))
}

/// HIGH of an open array.
#[cycle(body)]
fn high_value(
    alloc: Global,
    scope: &Scope<Breach>,
    arg: &Expr,
) -> Result<Elaborated<Computed>, AllocError>
    ensures { IfOk result (λ v.
        v
        ≡ (of_sort_of_value least (part least arg.now).at rule.WrongArgument
        ((meanings_of least arg.now).means scope.now)
        ▷ high_of least (part least arg.now).at)) }
{
    let designated = stands_for(alloc, scope, arg)?;
    Ok(high_at(place_of(arg), designated))
}

/// A standard procedure that has no value, beside what is broken in its arguments.
#[cycle(body)]
fn no_value(
    alloc: Global,
    scope: &Scope<Breach>,
    at: Pos,
    args: &[Expr],
) -> Result<Elaborated<Computed>, AllocError>
    ensures { IfOk result (λ v.
        v
        ≡ reported_beside least at rule.WrongType
        (breaches_in_all least scope.now (map (meanings_of least) args.now))) }
{
    let rest = breaches_in_all(alloc, scope, args)?;
    Ok(reported_beside(at, Rule::WrongType, rest))
}

/// A constant expression that stands for itself.
#[cycle(body)]
#[inline(never)]
fn itself(alloc: Global, scope: &Scope<Breach>, e: &Expr) -> Result<Sought<Designated>, AllocError>
    ensures { IfOk result (λ d. d ≡ as_constant least scope.now (part least e.now)) }
{
    match constant_of(alloc, scope, e)? {
        Err(breach) => Ok(plain(Err(breach))),
        Ok(value) => Ok(Ok(Designated::Value(Computed::Constant(value)))),
    }
}

/// What a constant expression stands for.
#[cycle(body)]
#[tactic(auto, using(crate::proofs::Variants::variants))]
fn denotes(
    alloc: Global,
    scope: &Scope<Breach>,
    e: &Expr,
) -> Result<Elaborated<Denoted>, AllocError>
    ensures { IfOk result (λ d. d ≡ (part least e.now).denotes scope.now) }
{
    match e {
        Expr::Number(_, n) => Ok(Ok(Denoted::Value(Value::Number(i64::from(*n))))),
        Expr::Char(_, code) => Ok(Ok(Denoted::Value(number_value(Some(CHAR), i64::from(*code))))),
        Expr::Text(_, text) => Ok(Ok(Denoted::Value(text_of(alloc, text.as_bytes())?))),
        Expr::Set(name, _, items) => set_denotation(alloc, scope, name, items.as_slice()),
        Expr::Not(at, inner) => not_denotation(alloc, scope, *at, inner.get()),
        Expr::Bracketed(_, inner) => Ok(of_value(constant_of(alloc, scope, inner.get())?)),
        Expr::Use(designator, args) => match args {
            None => denotation(scope, designator),
            Some(args) => {
                let callee = denotation(scope, designator)?;
                let at = first_of(designator);
                let args = args.get().as_slice();
                Ok(of_value(constant_call(alloc, scope, at, callee, args)?))
            }
        },
        Expr::Term(first, rest) => {
            let left = constant_of(alloc, scope, first.get())?;
            let at = place_of(first.get());
            Ok(of_value(constant_factors(alloc, scope, at, left, rest.as_slice())?))
        }
        Expr::Sum(sign, first, rest) => {
            let value = constant_of(alloc, scope, first.get())?;
            let left = constant_signed(*sign, value);
            let at = sign_place(*sign, place_of(first.get()));
            Ok(of_value(constant_terms(alloc, scope, at, left, rest.as_slice())?))
        }
        Expr::Relation(first, operator, second) => {
            let first = first.get();
            let second = second.get();
            let left = constant_of(alloc, scope, first)?;
            let right = constant_of(alloc, scope, second)?;
            Ok(related_parts(first, left, operator, second, right))
        }
    }
}

/// What a set of constant elements stands for.
#[cycle(body)]
fn set_denotation(
    alloc: Global,
    scope: &Scope<Breach>,
    name: &Option<Ident>,
    items: &[Item],
) -> Result<Elaborated<Denoted>, AllocError>
    ensures { IfOk result (λ d.
        d
        ≡ constants.set_of least (constants.set_type least scope.now name.now)
        (fold (item_in scope.now) (Ok 0) items.now)) }
{
    let of = set_type(scope, name)?;
    let bits = elements(alloc, scope, items)?;
    Ok(set_of(of, bits))
}

/// What NOT of a constant stands for.
#[cycle(body)]
fn not_denotation(
    alloc: Global,
    scope: &Scope<Breach>,
    at: Pos,
    inner: &Expr,
) -> Result<Elaborated<Denoted>, AllocError>
    ensures { IfOk result (λ d.
        d
        ≡ of_value (values.negation least at
        (constants.constant least scope.now (part least inner.now)))) }
{
    let value = constant_of(alloc, scope, inner)?;
    Ok(of_value(negated_constant(at, value)))
}

/// The value of a constant expression. What is no constant is 34 at its first token.
#[cycle(body)]
pub fn constant_of(
    alloc: Global,
    scope: &Scope<Breach>,
    e: &Expr,
) -> Result<Elaborated<Value>, AllocError>
    ensures { IfOk result (λ v. v ≡ constants.constant least scope.now (part least e.now)) }
{
    let denoted = denotes(alloc, scope, e)?;
    Ok(constant_by(place_of(e), denoted))
}

/// The type that an argument names, if it names one. A name with selectors is looked at as in a body.
#[cycle(body)]
#[tactic(auto, using(crate::proofs::Variants::naming))]
fn type_named(
    alloc: Global,
    scope: &Scope<Breach>,
    e: &Expr,
) -> Result<Elaborated<Option<TypeNo>>, AllocError>
    ensures { IfOk result (λ t. t ≡ (part least e.now).names scope.now) }
{
    match e {
        Expr::Use(designator, args) => match args {
            None => type_designated(alloc, scope, designator),
            Some(_) => Ok(named_type(denotes(alloc, scope, e)?)),
        },
        Expr::Number(_, _)
        | Expr::Char(_, _)
        | Expr::Text(_, _)
        | Expr::Set(_, _, _)
        | Expr::Not(_, _)
        | Expr::Bracketed(_, _)
        | Expr::Term(_, _)
        | Expr::Sum(_, _, _)
        | Expr::Relation(_, _, _) => Ok(named_type(denotes(alloc, scope, e)?)),
    }
}

/// The type that a designator names, if it names one.
#[cycle(body)]
#[tactic(auto, using(crate::proofs::Variants::naming))]
fn type_designated(
    alloc: Global,
    scope: &Scope<Breach>,
    designator: &Designator,
) -> Result<Elaborated<Option<TypeNo>>, AllocError>
    ensures { IfOk result (λ t. t ≡ (head least designator.now).fixed.names scope.now) }
{
    if designator.selectors.is_empty() {
        return Ok(named_type(denotation(scope, designator)?));
    }
    let meant = designation(alloc, scope, designator)?;
    Ok(type_of(first_of(designator), meant))
}

/// A call in a constant expression.
#[cycle(body)]
fn constant_call(
    alloc: Global,
    scope: &Scope<Breach>,
    at: Pos,
    callee: Elaborated<Denoted>,
    args: &[Expr],
) -> Result<Elaborated<Value>, AllocError>
    ensures { IfOk result
        (λ v. v ≡ constants.call_value least scope.now at callee (map (part least) args.now)) }
{
    match callee {
        Err(breach) => Ok(Err(breach)),
        Ok(Denoted::Standard(standard)) => by_sort(alloc, scope, at, standard, args),
        Ok(_) => Ok(report(at, Rule::NoConstant)),
    }
}

/// A call of a standard procedure in a constant expression.
#[cycle(body)]
fn by_sort(
    alloc: Global,
    scope: &Scope<Breach>,
    at: Pos,
    standard: Standard,
    args: &[Expr],
) -> Result<Elaborated<Value>, AllocError>
    ensures { IfOk result
        (λ v. v ≡ constants.by_sort least scope.now at standard (map (part least) args.now)
        (sort_of standard)) }
{
    match (sort_of(standard), args) {
        (Sort::Unary, [argument]) => unary_constant(alloc, scope, standard, argument),
        (Sort::Bound, [argument]) => bound_constant(alloc, scope, standard, argument),
        (Sort::Conversion, [to, argument]) => {
            let named = type_named(alloc, scope, to)?;
            let t = type_argument(&scope.types, place_of(to), named);
            let value = constant_of(alloc, scope, argument)?;
            Ok(conversion_call(t, place_of(argument), value))
        }
        (Sort::Never, _) => Ok(report(at, Rule::NoConstant)),
        (Sort::Unary | Sort::Bound, [] | [_, _, ..])
        | (Sort::Conversion, [] | [_] | [_, _, _, ..]) => Ok(report(at, Rule::ArgumentCount)),
    }
}

/// A standard function of a constant.
#[cycle(body)]
fn unary_constant(
    alloc: Global,
    scope: &Scope<Breach>,
    standard: Standard,
    argument: &Expr,
) -> Result<Elaborated<Value>, AllocError>
    ensures { IfOk result (λ v.
        v
        ≡ calls.unary least standard (value_at (part least argument.now).at
        (constants.constant least scope.now (part least argument.now)))) }
{
    let value = constant_of(alloc, scope, argument)?;
    Ok(unary_by(standard, value_at(place_of(argument), value)))
}

/// MAX or MIN of a type.
#[cycle(body)]
fn bound_constant(
    alloc: Global,
    scope: &Scope<Breach>,
    standard: Standard,
    argument: &Expr,
) -> Result<Elaborated<Value>, AllocError>
    ensures { IfOk result (λ v.
        v
        ≡ calls.bound standard (calls.type_argument least scope.now.types
        (part least argument.now).at ((part least argument.now).names scope.now))) }
{
    let named = type_named(alloc, scope, argument)?;
    Ok(bound_by(
        standard,
        type_argument(&scope.types, place_of(argument), named),
    ))
}

/// Factors of a constant expression, from the left.
#[cycle(body)]
fn constant_factors(
    alloc: Global,
    scope: &Scope<Breach>,
    at: Pos,
    left: Elaborated<Value>,
    rest: &[(Operator<MulOp>, Expr)],
) -> Result<Elaborated<Value>, AllocError>
    ensures { IfOk result (λ v. v ≡ fold (constant_factor_in scope.now at) left rest.now) }
{
    let mut value = left;
    for (operator, factor) in rest {
        let op = mul_op(operator.op);
        value = constant_operation_with(alloc, scope, at, value, op, operator.pos, factor)?;
    }
    Ok(value)
}

/// Terms of a constant expression, from the left.
#[cycle(body)]
fn constant_terms(
    alloc: Global,
    scope: &Scope<Breach>,
    at: Pos,
    left: Elaborated<Value>,
    rest: &[(Operator<AddOp>, Expr)],
) -> Result<Elaborated<Value>, AllocError>
    ensures { IfOk result (λ v. v ≡ fold (constant_term_in scope.now at) left rest.now) }
{
    let mut value = left;
    for (operator, term) in rest {
        let op = add_op(operator.op);
        value = constant_operation_with(alloc, scope, at, value, op, operator.pos, term)?;
    }
    Ok(value)
}

/// What an operator at its place makes of a constant and of the operand that follows.
#[cycle(body)]
fn constant_operation_with(
    alloc: Global,
    scope: &Scope<Breach>,
    at: Pos,
    left: Elaborated<Value>,
    op: BinaryOp,
    op_at: Pos,
    operand: &Expr,
) -> Result<Elaborated<Value>, AllocError>
    ensures { IfOk result (λ v.
        v ≡ constant_operation_with scope.now at left op op_at operand.now) }
{
    let right = constant_of(alloc, scope, operand)?;
    Ok(combined_constants(op, op_at, at, left, place_of(operand), right))
}

/// The elements in braces.
#[cycle(body)]
fn elements(
    alloc: Global,
    scope: &Scope<Breach>,
    items: &[Item],
) -> Result<Elaborated<u32>, AllocError>
    ensures { IfOk result (λ b. b ≡ fold (item_in scope.now) (Ok 0) items.now) }
{
    let mut bits = Ok(0);
    for item in items {
        let more = element_or_range(alloc, scope, item)?;
        bits = joined_bits(bits, more);
    }
    Ok(bits)
}

/// One element or a range of elements.
#[cycle(body)]
#[tactic(auto, using(crate::proofs::Variants::adds_is))]
fn element_or_range(
    alloc: Global,
    scope: &Scope<Breach>,
    element: &Item,
) -> Result<Elaborated<u32>, AllocError>
    ensures { IfOk result (λ b. b ≡ item least element.now scope.now) }
{
    match &element.high {
        None => {
            let value = constant_of(alloc, scope, &element.low)?;
            Ok(single_of(place_of(&element.low), value))
        }
        Some(high) => {
            let low = constant_of(alloc, scope, &element.low)?;
            let last = constant_of(alloc, scope, high)?;
            let at = place_of(&element.low);
            let high_at = place_of(high);
            Ok(span_of(at, element_of(at, low), high_at, element_of(high_at, last)))
        }
    }
}
