//! The code of expressions, designators, calls and arguments.

ghost use Rattle.std.specs.Prelude.{◌≡◌, OnOk};
ghost use Rattle.std.specs.List.{fold};
ghost use Rattle.def_scheme.specs.Coded.{Setting as Scheme};
ghost use Rattle.def_scheme.specs.Cells.{check_taken};
ghost use Rattle.def_scheme.specs.Exprs.{ord_check};
ghost use Rattle.emit_buffer.specs.Drafts.{put};
ghost use Rattle.emit_buffer.specs.Frames.{setting_of};
ghost use Rattle.emit_expr.specs.Values.{with_value, with_place, with_call, with_taken, with_argument, with_component, with_link, value_type, value_constant, linked_type, linked_by};

use crate::calls::{
    array_behind, called_value, keep_procedure, link_code, module_call, nested_call, open_code,
    passed_text, procedure_code, top_code,
};
use crate::operators::{
    absolute, arithmetic, around_behind, begin_or, capital, char_check, comparison_code,
    element_bit, empty, end_and, keep_element, negated_behind, odd, ord_check, set_operation,
    within_behind,
};
use crate::places::{element_code, field_code, high_code, open_element_code, root_code};
use emit_buffer::{
    Draft, Setting, check_taken, complement, extend_word, in_type, load, number, wrap_word,
};
use m2_rule::Fault;
use std::alloc::AllocError;
use typed_tree::{
    Argument, BITSET, BOOLEAN, CARDINAL, CHAR, Call, Component, INTEGER, Inclusion, Link, Place,
    TypeNo, TypedExpr,
};
use wasm_tree::{Op, ValueType};

/// The type of what an operator gives.
#[tactic(auto, using(crate::proofs::Variants::types))]
fn linked_type(link: &Link) -> TypeNo
    ensures { (s : Scheme) → result ≡ linked_type s link.now }
{
    match link {
        Link::Arithmetic(_, t, _) => *t,
        Link::And(_) => BOOLEAN,
        Link::Or(_) => BOOLEAN,
        Link::Combine(_, _) => BITSET,
    }
}

/// The last operator of a chain gives its type.
fn chain_type(first: TypeNo, links: &[Link]) -> TypeNo
    ensures { (s : Scheme) → result ≡ fold (linked_by s) first links.now }
{
    let mut t = first;
    for link in links {
        t = linked_type(link);
    }
    t
}

/// The type of an expression.
#[tactic(auto, using(crate::proofs::Variants::types))]
fn type_of(e: &TypedExpr) -> TypeNo
    ensures { (s : Scheme) → result ≡ value_type s e.now }
{
    match e {
        TypedExpr::Constant(t, _)
        | TypedExpr::Load(t, _)
        | TypedExpr::Plus(t, _)
        | TypedExpr::Abs(t, _)
        | TypedExpr::Val(t, _)
        | TypedExpr::Call(t, _) => *t,
        TypedExpr::Procedure(f) => f.heading,
        TypedExpr::Negate(_) => INTEGER,
        TypedExpr::Chain(first, links) => { chain_type(type_of(first.get()), links.as_slice()) }
        TypedExpr::Compare(_, _, _)
        | TypedExpr::Not(_)
        | TypedExpr::Include(_, _, _)
        | TypedExpr::In(_, _)
        | TypedExpr::Odd(_) => BOOLEAN,
        TypedExpr::Cap(_) | TypedExpr::Chr(_) => CHAR,
        TypedExpr::Ord(_) | TypedExpr::High(_) => CARDINAL,
    }
}

/// Whether an expression is a constant.
#[tactic(auto, using(crate::proofs::Variants::types))]
fn is_constant(e: &TypedExpr) -> bool
    ensures { (s : Scheme) → result ≡ value_constant s e.now }
{
    matches!(e, TypedExpr::Constant(_, _))
}

/// Checks the value of an expression as one of a type.
fn check_value(
    setting: &Setting<'_>,
    t: TypeNo,
    e: &TypedExpr,
    draft: &mut Draft,
) -> Result<(), AllocError>
    ensures { let s = setting_of setting.now in
        let check = check_taken s.home.types t (value_constant s e.now) (value_type s e.now) in
        OnOk result (draft.new ≡ put check draft.old) }
{
    check_taken(setting, t, is_constant(e), type_of(e), draft)
}

fn ord_value(setting: &Setting<'_>, e: &TypedExpr, draft: &mut Draft) -> Result<(), AllocError>
    ensures { let s = setting_of setting.now in
        OnOk result (draft.new ≡ put (ord_check s.home.types (value_type s e.now)) draft.old) }
{
    ord_check(setting, type_of(e), draft)
}

/// The code of an expression. The only error is that memory ran out.
#[cycle(exprs)]
#[tactic(auto, using(crate::proofs::Variants::variants))]
pub fn value_code(setting: &Setting<'_>, e: &TypedExpr, draft: &mut Draft) -> Result<(), AllocError>
    ensures { OnOk result (draft.new ≡ with_value (setting_of setting.now) e.now draft.old) }
{
    match e {
        TypedExpr::Constant(_, n) => number(*n, draft),
        TypedExpr::Load(t, place) => {
            place_code(setting, place, draft)?;
            load(setting, *t, draft)
        }
        TypedExpr::Procedure(f) => procedure_code(setting, *f, draft),
        TypedExpr::Plus(_, a) => value_code(setting, a.get(), draft),
        TypedExpr::Negate(a) => {
            draft.push(Op::I64Const(0))?;
            value_code(setting, a.get(), draft)?;
            negated_behind(setting, draft)
        }
        TypedExpr::Chain(first, links) => {
            value_code(setting, first.get(), draft)?;
            links_code(setting, links.as_slice(), draft)
        }
        TypedExpr::Compare(o, a, b) => {
            value_code(setting, a.get(), draft)?;
            value_code(setting, b.get(), draft)?;
            comparison_code(*o, draft)
        }
        TypedExpr::Not(a) => {
            value_code(setting, a.get(), draft)?;
            empty(draft)
        }
        TypedExpr::Include(o, a, b) => match o {
            Inclusion::Within => {
                value_code(setting, a.get(), draft)?;
                value_code(setting, b.get(), draft)?;
                within_behind(draft)
            }
            Inclusion::Around => {
                value_code(setting, a.get(), draft)?;
                complement(draft)?;
                value_code(setting, b.get(), draft)?;
                around_behind(draft)
            }
        },
        TypedExpr::In(a, b) => {
            value_code(setting, a.get(), draft)?;
            let t = keep_element(setting, draft)?;
            value_code(setting, b.get(), draft)?;
            element_bit(&t, draft)
        }
        TypedExpr::Abs(t, a) => {
            value_code(setting, a.get(), draft)?;
            absolute(setting, *t, draft)
        }
        TypedExpr::Cap(a) => {
            value_code(setting, a.get(), draft)?;
            capital(setting, draft)
        }
        TypedExpr::Chr(a) => {
            value_code(setting, a.get(), draft)?;
            char_check(draft)
        }
        TypedExpr::Odd(a) => {
            value_code(setting, a.get(), draft)?;
            odd(draft)
        }
        TypedExpr::Ord(a) => {
            value_code(setting, a.get(), draft)?;
            ord_value(setting, a.get(), draft)
        }
        TypedExpr::Val(t, a) => {
            value_code(setting, a.get(), draft)?;
            in_type(setting, *t, Fault::OutOfRange, draft)
        }
        TypedExpr::High(slot) => high_code(setting, *slot, draft),
        TypedExpr::Call(_, call) => call_code(setting, call.get(), draft),
    }
}

/// The code of an operator with its second operand, behind the first.
#[cycle(exprs)]
#[tactic(auto, using(crate::proofs::Variants::variants))]
fn link_code_of(setting: &Setting<'_>, link: &Link, draft: &mut Draft) -> Result<(), AllocError>
    ensures { OnOk result (draft.new ≡ with_link (setting_of setting.now) draft.old link.now) }
{
    match link {
        Link::Arithmetic(o, t, b) => {
            value_code(setting, b, draft)?;
            arithmetic(setting, *o, *t, draft)
        }
        Link::And(b) => {
            wrap_word(draft)?;
            let inner = setting.within(1)?;
            let at = draft.open()?;
            value_code(&inner, b, draft)?;
            end_and(at, draft)
        }
        Link::Or(b) => {
            wrap_word(draft)?;
            let inner = setting.within(1)?;
            let (at, middle) = begin_or(draft)?;
            value_code(&inner, b, draft)?;
            draft.close_if_else(at, middle, Some(ValueType::I64));
            Ok(())
        }
        Link::Combine(o, b) => {
            value_code(setting, b, draft)?;
            set_operation(*o, draft)
        }
    }
}

/// The code of the operators of a chain.
#[cycle(exprs)]
fn links_code(setting: &Setting<'_>, links: &[Link], draft: &mut Draft) -> Result<(), AllocError>
    ensures { let with = with_link (setting_of setting.now) in
        OnOk result (draft.new ≡ fold with draft.old links.now) }
{
    for link in links {
        link_code_of(setting, link, draft)?;
    }
    Ok(())
}

/// The code of a designator.
#[cycle(exprs)]
#[tactic(auto, using(crate::proofs::Variants::variants))]
pub fn place_code(setting: &Setting<'_>, place: &Place, draft: &mut Draft) -> Result<(), AllocError>
    ensures { OnOk result (draft.new ≡ with_place (setting_of setting.now) place.now draft.old) }
{
    root_code(setting, place.root, draft)?;
    components_code(setting, place.components.as_slice(), draft)
}

/// The code of a field or an index, behind the address.
#[cycle(exprs)]
#[tactic(auto, using(crate::proofs::Variants::variants))]
fn component_code(
    setting: &Setting<'_>,
    component: &Component,
    draft: &mut Draft,
) -> Result<(), AllocError>
    ensures { OnOk result
        (draft.new ≡ with_component (setting_of setting.now) draft.old component.now) }
{
    match component {
        Component::Field(t, k) => field_code(setting, *t, *k, draft),
        Component::Element(t, i) => {
            value_code(setting, i, draft)?;
            element_code(setting, *t, draft)
        }
        Component::OpenElement(slot, t, i) => {
            value_code(setting, i, draft)?;
            open_element_code(setting, *slot, *t, draft)
        }
    }
}

/// The code of fields and indexes.
#[cycle(exprs)]
fn components_code(
    setting: &Setting<'_>,
    components: &[Component],
    draft: &mut Draft,
) -> Result<(), AllocError>
    ensures { let with = with_component (setting_of setting.now) in
        OnOk result (draft.new ≡ fold with draft.old components.now) }
{
    for component in components {
        component_code(setting, component, draft)?;
    }
    Ok(())
}

/// The code of a call.
#[cycle(exprs)]
#[tactic(auto, using(crate::proofs::Variants::variants))]
pub fn call_code(setting: &Setting<'_>, call: &Call, draft: &mut Draft) -> Result<(), AllocError>
    ensures { OnOk result (draft.new ≡ with_call (setting_of setting.now) call.now draft.old) }
{
    match call {
        Call::Module(f, arguments) => {
            top_code(setting, draft)?;
            arguments_code(setting, arguments.as_slice(), draft)?;
            module_call(setting, *f, draft)
        }
        Call::Nested(f, arguments) => {
            top_code(setting, draft)?;
            link_code(f.up, draft)?;
            arguments_code(setting, arguments.as_slice(), draft)?;
            nested_call(setting, *f, draft)
        }
        Call::Variable(t, place, arguments) => {
            place_code(setting, place, draft)?;
            load(setting, *t, draft)?;
            let kept = keep_procedure(setting, draft)?;
            top_code(setting, draft)?;
            arguments_code(setting, arguments.as_slice(), draft)?;
            called_value(setting, &kept, *t, draft)
        }
    }
}

/// The code of an argument.
#[cycle(exprs)]
#[tactic(auto, using(crate::proofs::Variants::variants))]
fn argument_code(
    setting: &Setting<'_>,
    argument: &Argument,
    draft: &mut Draft,
) -> Result<(), AllocError>
    ensures { OnOk result
        (draft.new ≡ with_argument (setting_of setting.now) draft.old argument.now) }
{
    match argument {
        Argument::Value(t, e) => {
            value_code(setting, e, draft)?;
            check_value(setting, *t, e, draft)
        }
        Argument::Place(place) => {
            place_code(setting, place, draft)?;
            extend_word(draft)
        }
        Argument::Array(t, place) => {
            place_code(setting, place, draft)?;
            array_behind(setting, *t, draft)
        }
        Argument::Open(slot) => open_code(setting, *slot, draft),
        Argument::Text(text) => passed_text(text.get().as_bytes(), draft),
    }
}

/// The code of arguments.
#[cycle(exprs)]
fn arguments_code(
    setting: &Setting<'_>,
    arguments: &[Argument],
    draft: &mut Draft,
) -> Result<(), AllocError>
    ensures { let with = with_argument (setting_of setting.now) in
        OnOk result (draft.new ≡ fold with draft.old arguments.now) }
{
    for argument in arguments {
        argument_code(setting, argument, draft)?;
    }
    Ok(())
}

/// The code of a value that is taken as one of a type.
#[tactic(auto, using(crate::proofs::Variants::taken_is))]
pub fn taken_code(
    setting: &Setting<'_>,
    t: TypeNo,
    e: &TypedExpr,
    draft: &mut Draft,
) -> Result<(), AllocError>
    ensures { OnOk result (draft.new ≡ with_taken (setting_of setting.now) t e.now draft.old) }
{
    value_code(setting, e, draft)?;
    check_value(setting, t, e, draft)
}
