//! How many characters the strings have that expressions keep.

ghost use Rattle.std.specs.Prelude.{◌≡◌, length};
ghost use Rattle.std.specs.List.{fold};
ghost use Rattle.layout_storage.specs.Capped.{cap_size};
ghost use Rattle.layout_storage.specs.Texts.{argument_text, texts_of, texts_at, texts_called, texts_passed, texts_behind, texts_linked};
ghost use Rattle.layout_storage.specs.Counted.{character_count, with_argument, with_component, with_link};

use crate::capped::{cap_size, sum};
use typed_tree::{Argument, Call, Component, Link, Place, TypedExpr};

/// The characters of a passed string: an empty one is one character 0C.
fn passed_count(text: &[u8]) -> u32
    ensures { result ≡ cap_size (length (argument_text text.now)) }
{
    match text {
        [] => 1,
        [_, ..] => cap_size(text.len() as u64),
    }
}

/// The characters of an argument.
#[cycle(count)]
#[tactic(auto, using(crate::proofs::Variants::variants))]
fn argument_count(argument: &Argument) -> u32
    ensures { result ≡ character_count (texts_passed argument.now) }
{
    match argument {
        Argument::Value(_, e) => expr_count(e),
        Argument::Place(place) => place_count(place),
        Argument::Array(_, place) => place_count(place),
        Argument::Open(_) => 0,
        Argument::Text(text) => passed_count(text.get().as_bytes()),
    }
}

/// The characters of arguments.
#[cycle(count)]
fn arguments_count(arguments: &[Argument]) -> u32
    ensures { result ≡ fold with_argument 0 arguments.now }
{
    let mut all = 0;
    for argument in arguments {
        all = sum(all, argument_count(argument));
    }
    all
}

/// The characters of a call.
#[cycle(count)]
#[tactic(auto, using(crate::proofs::Variants::variants))]
pub fn call_count(call: &Call) -> u32
    ensures { result ≡ character_count (texts_called call.now) }
{
    match call {
        Call::Module(_, arguments) => arguments_count(arguments.as_slice()),
        Call::Nested(_, arguments) => arguments_count(arguments.as_slice()),
        Call::Variable(_, place, arguments) => {
            sum(place_count(place), arguments_count(arguments.as_slice()))
        }
    }
}

/// The characters of a field or an index.
#[cycle(count)]
#[tactic(auto, using(crate::proofs::Variants::variants))]
fn component_count(component: &Component) -> u32
    ensures { result ≡ character_count (texts_behind component.now) }
{
    match component {
        Component::Field(_, _) => 0,
        Component::Element(_, index) => expr_count(index),
        Component::OpenElement(_, _, index) => expr_count(index),
    }
}

/// The characters of fields and indexes.
#[cycle(count)]
fn components_count(components: &[Component]) -> u32
    ensures { result ≡ fold with_component 0 components.now }
{
    let mut all = 0;
    for component in components {
        all = sum(all, component_count(component));
    }
    all
}

/// The characters of a designator.
#[cycle(count)]
#[tactic(auto, using(crate::proofs::Variants::variants))]
pub fn place_count(place: &Place) -> u32
    ensures { result ≡ character_count (texts_at place.now) }
{
    components_count(place.components.as_slice())
}

/// The characters of an operator's second operand.
#[cycle(count)]
#[tactic(auto, using(crate::proofs::Variants::variants))]
fn link_count(link: &Link) -> u32
    ensures { result ≡ character_count (texts_linked link.now) }
{
    match link {
        Link::Arithmetic(_, _, e) => expr_count(e),
        Link::And(e) => expr_count(e),
        Link::Or(e) => expr_count(e),
        Link::Combine(_, e) => expr_count(e),
    }
}

/// The characters of the operands of a chain behind the first.
#[cycle(count)]
fn links_count(links: &[Link]) -> u32
    ensures { result ≡ fold with_link 0 links.now }
{
    let mut all = 0;
    for link in links {
        all = sum(all, link_count(link));
    }
    all
}

/// The characters of an expression.
#[cycle(count)]
#[tactic(auto, using(crate::proofs::Variants::variants))]
pub fn expr_count(e: &TypedExpr) -> u32
    ensures { result ≡ character_count (texts_of e.now) }
{
    match e {
        TypedExpr::Constant(_, _) | TypedExpr::Procedure(_) | TypedExpr::High(_) => 0,
        TypedExpr::Load(_, place) => place_count(place),
        TypedExpr::Plus(_, a)
        | TypedExpr::Negate(a)
        | TypedExpr::Not(a)
        | TypedExpr::Abs(_, a)
        | TypedExpr::Cap(a)
        | TypedExpr::Chr(a)
        | TypedExpr::Odd(a)
        | TypedExpr::Ord(a)
        | TypedExpr::Val(_, a) => expr_count(a.get()),
        TypedExpr::Chain(first, links) => sum(
            expr_count(first.get()),
            links_count(links.as_slice()),
        ),
        TypedExpr::Compare(_, a, b) | TypedExpr::Include(_, a, b) | TypedExpr::In(a, b) => {
            sum(expr_count(a.get()), expr_count(b.get()))
        }
        TypedExpr::Call(_, call) => call_count(call.get()),
    }
}
