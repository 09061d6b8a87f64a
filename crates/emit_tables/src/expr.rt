//! The characters of the strings that expressions keep.

ghost use Rattle.std.specs.Prelude.{◌≡◌, ◌++◌, OnOk};
ghost use Rattle.std.specs.List.{flat_map};
ghost use Rattle.layout_storage.specs.Texts.{argument_text, texts_of, texts_at, texts_called, texts_passed, texts_behind, texts_linked};
ghost use Rattle.def_scheme.specs.Modules.{all_characters};
ghost use Rattle.emit_tables.specs.Written.{argument_written, component_written, link_written};

use crate::characters::Characters;
use std::alloc::AllocError;
use typed_tree::{Argument, Call, Component, Link, Place, TypedExpr};

/// Appends the characters of a passed string: an empty one is one character 0C.
fn push_passed(characters: &mut Characters, text: &[u8]) -> Result<(), AllocError>
    ensures { OnOk result (characters.new ≡ characters.old ++ argument_text text.now) }
{
    match text {
        [] => characters.push_text(&[0]),
        [_, ..] => characters.push_text(text),
    }
}

/// Appends the characters of an argument.
#[cycle(texts)]
#[tactic(auto, using(crate::proofs::TextVariants::variants))]
fn push_argument(characters: &mut Characters, argument: &Argument) -> Result<(), AllocError>
    ensures { OnOk result
        (characters.new ≡ characters.old ++ all_characters (texts_passed argument.now)) }
{
    match argument {
        Argument::Value(_, e) => push_expr(characters, e),
        Argument::Place(place) => push_place(characters, place),
        Argument::Array(_, place) => push_place(characters, place),
        Argument::Open(_) => Ok(()),
        Argument::Text(text) => push_passed(characters, text.get().as_bytes()),
    }
}

/// Appends the characters of arguments.
#[cycle(texts)]
fn push_arguments(characters: &mut Characters, arguments: &[Argument]) -> Result<(), AllocError>
    ensures { OnOk result
        (characters.new ≡ characters.old ++ flat_map argument_written arguments.now) }
{
    for argument in arguments {
        push_argument(characters, argument)?;
    }
    Ok(())
}

/// Appends the characters of a call.
#[cycle(texts)]
#[tactic(auto, using(crate::proofs::TextVariants::variants))]
pub fn push_call(characters: &mut Characters, call: &Call) -> Result<(), AllocError>
    ensures { OnOk result
        (characters.new ≡ characters.old ++ all_characters (texts_called call.now)) }
{
    match call {
        Call::Module(_, arguments) => push_arguments(characters, arguments.as_slice()),
        Call::Nested(_, arguments) => push_arguments(characters, arguments.as_slice()),
        Call::Variable(_, place, arguments) => {
            push_place(characters, place)?;
            push_arguments(characters, arguments.as_slice())
        }
    }
}

/// Appends the characters of a field or an index.
#[cycle(texts)]
#[tactic(auto, using(crate::proofs::TextVariants::variants))]
fn push_component(characters: &mut Characters, component: &Component) -> Result<(), AllocError>
    ensures { OnOk result
        (characters.new ≡ characters.old ++ all_characters (texts_behind component.now)) }
{
    match component {
        Component::Field(_, _) => Ok(()),
        Component::Element(_, index) => push_expr(characters, index),
        Component::OpenElement(_, _, index) => push_expr(characters, index),
    }
}

/// Appends the characters of fields and indexes.
#[cycle(texts)]
fn push_components(characters: &mut Characters, components: &[Component]) -> Result<(), AllocError>
    ensures { OnOk result
        (characters.new ≡ characters.old ++ flat_map component_written components.now) }
{
    for component in components {
        push_component(characters, component)?;
    }
    Ok(())
}

/// Appends the characters of a designator.
#[cycle(texts)]
#[tactic(auto, using(crate::proofs::TextVariants::variants))]
pub fn push_place(characters: &mut Characters, place: &Place) -> Result<(), AllocError>
    ensures { OnOk result (characters.new ≡ characters.old ++ all_characters (texts_at place.now)) }
{
    push_components(characters, place.components.as_slice())
}

/// Appends the characters of an operator's second operand.
#[cycle(texts)]
#[tactic(auto, using(crate::proofs::TextVariants::variants))]
fn push_link(characters: &mut Characters, link: &Link) -> Result<(), AllocError>
    ensures { OnOk result
        (characters.new ≡ characters.old ++ all_characters (texts_linked link.now)) }
{
    match link {
        Link::Arithmetic(_, _, e) => push_expr(characters, e),
        Link::And(e) => push_expr(characters, e),
        Link::Or(e) => push_expr(characters, e),
        Link::Combine(_, e) => push_expr(characters, e),
    }
}

/// Appends the characters of the operands of a chain behind the first.
#[cycle(texts)]
fn push_links(characters: &mut Characters, links: &[Link]) -> Result<(), AllocError>
    ensures { OnOk result (characters.new ≡ characters.old ++ flat_map link_written links.now) }
{
    for link in links {
        push_link(characters, link)?;
    }
    Ok(())
}

/// Appends the characters of an expression.
#[cycle(texts)]
#[tactic(auto, using(crate::proofs::TextVariants::variants))]
pub fn push_expr(characters: &mut Characters, e: &TypedExpr) -> Result<(), AllocError>
    ensures { OnOk result (characters.new ≡ characters.old ++ all_characters (texts_of e.now)) }
{
    match e {
        TypedExpr::Constant(_, _) | TypedExpr::Procedure(_) | TypedExpr::High(_) => Ok(()),
        TypedExpr::Load(_, place) => push_place(characters, place),
        TypedExpr::Plus(_, a)
        | TypedExpr::Negate(a)
        | TypedExpr::Not(a)
        | TypedExpr::Abs(_, a)
        | TypedExpr::Cap(a)
        | TypedExpr::Chr(a)
        | TypedExpr::Odd(a)
        | TypedExpr::Ord(a)
        | TypedExpr::Val(_, a) => push_expr(characters, a.get()),
        TypedExpr::Chain(first, links) => {
            push_expr(characters, first.get())?;
            push_links(characters, links.as_slice())
        }
        TypedExpr::Compare(_, a, b) | TypedExpr::Include(_, a, b) | TypedExpr::In(a, b) => {
            push_expr(characters, a.get())?;
            push_expr(characters, b.get())
        }
        TypedExpr::Call(_, call) => push_call(characters, call.get()),
    }
}
