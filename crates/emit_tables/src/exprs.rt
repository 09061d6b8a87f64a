//! The types of functions that expressions need.

ghost use Rattle.std.specs.Prelude.{◌≡◌, OnOk};
ghost use Rattle.std.specs.List.{fold};
ghost use Rattle.def_scheme.specs.Signatures.{of_expr, of_place, of_call};
ghost use Rattle.emit_tables.specs.Marked.{with_all};
ghost use Rattle.emit_tables.specs.Needed.{of_argument, of_component, of_link, with_argument, with_component, with_link};

use crate::marks::{Mark, mark_heading, mark_procedure};
use std::alloc::AllocError;
use typed_tree::{Argument, Call, Component, Link, Place, TypedExpr, TypedModule};

/// Marks what an argument needs.
#[cycle(marks)]
#[tactic(auto, using(crate::proofs::Variants::variants))]
fn argument_marks(
    module_body: &TypedModule,
    marks: &mut Vec<Mark>,
    argument: &Argument,
) -> Result<(), AllocError>
    ensures { let ss = of_argument module_body.now argument.now in
        OnOk result (marks.new.items ≡ with_all ss marks.old.items) }
{
    match argument {
        Argument::Value(_, e) => expr_marks(module_body, marks, e),
        Argument::Place(place) => place_marks(module_body, marks, place),
        Argument::Array(_, place) => place_marks(module_body, marks, place),
        Argument::Open(_) => Ok(()),
        Argument::Text(_) => Ok(()),
    }
}

/// Marks what arguments need.
#[cycle(marks)]
fn arguments_marks(
    module_body: &TypedModule,
    marks: &mut Vec<Mark>,
    arguments: &[Argument],
) -> Result<(), AllocError>
    ensures { let with = with_argument module_body.now in
        OnOk result (marks.new.items ≡ fold with marks.old.items arguments.now) }
{
    for argument in arguments {
        argument_marks(module_body, marks, argument)?;
    }
    Ok(())
}

/// Marks what a call needs.
#[cycle(marks)]
#[tactic(auto, using(crate::proofs::Variants::variants))]
pub fn call_marks(
    module_body: &TypedModule,
    marks: &mut Vec<Mark>,
    call: &Call,
) -> Result<(), AllocError>
    ensures { let ss = of_call module_body.now call.now in
        OnOk result (marks.new.items ≡ with_all ss marks.old.items) }
{
    match call {
        Call::Module(f, arguments) => {
            arguments_marks(module_body, marks, arguments.as_slice())?;
            mark_procedure(module_body, marks, *f)
        }
        Call::Nested(_, arguments) => arguments_marks(module_body, marks, arguments.as_slice()),
        Call::Variable(t, place, arguments) => {
            place_marks(module_body, marks, place)?;
            arguments_marks(module_body, marks, arguments.as_slice())?;
            mark_heading(&module_body.types, marks, *t)
        }
    }
}

/// Marks what a field or an index needs.
#[cycle(marks)]
#[tactic(auto, using(crate::proofs::Variants::variants))]
fn component_marks(
    module_body: &TypedModule,
    marks: &mut Vec<Mark>,
    component: &Component,
) -> Result<(), AllocError>
    ensures { let ss = of_component module_body.now component.now in
        OnOk result (marks.new.items ≡ with_all ss marks.old.items) }
{
    match component {
        Component::Field(_, _) => Ok(()),
        Component::Element(_, index) => expr_marks(module_body, marks, index),
        Component::OpenElement(_, _, index) => expr_marks(module_body, marks, index),
    }
}

/// Marks what fields and indexes need.
#[cycle(marks)]
fn components_marks(
    module_body: &TypedModule,
    marks: &mut Vec<Mark>,
    components: &[Component],
) -> Result<(), AllocError>
    ensures { let with = with_component module_body.now in
        OnOk result (marks.new.items ≡ fold with marks.old.items components.now) }
{
    for component in components {
        component_marks(module_body, marks, component)?;
    }
    Ok(())
}

/// Marks what a designator needs.
#[cycle(marks)]
#[tactic(auto, using(crate::proofs::Variants::variants))]
pub fn place_marks(
    module_body: &TypedModule,
    marks: &mut Vec<Mark>,
    place: &Place,
) -> Result<(), AllocError>
    ensures { let ss = of_place module_body.now place.now in
        OnOk result (marks.new.items ≡ with_all ss marks.old.items) }
{
    components_marks(module_body, marks, place.components.as_slice())
}

/// Marks what an operator's second operand needs.
#[cycle(marks)]
#[tactic(auto, using(crate::proofs::Variants::variants))]
fn link_marks(
    module_body: &TypedModule,
    marks: &mut Vec<Mark>,
    link: &Link,
) -> Result<(), AllocError>
    ensures { let ss = of_link module_body.now link.now in
        OnOk result (marks.new.items ≡ with_all ss marks.old.items) }
{
    match link {
        Link::Arithmetic(_, _, e) => expr_marks(module_body, marks, e),
        Link::And(e) => expr_marks(module_body, marks, e),
        Link::Or(e) => expr_marks(module_body, marks, e),
        Link::Combine(_, e) => expr_marks(module_body, marks, e),
    }
}

/// Marks what the operands of a chain behind the first need.
#[cycle(marks)]
fn links_marks(
    module_body: &TypedModule,
    marks: &mut Vec<Mark>,
    links: &[Link],
) -> Result<(), AllocError>
    ensures { let with = with_link module_body.now in
        OnOk result (marks.new.items ≡ fold with marks.old.items links.now) }
{
    for link in links {
        link_marks(module_body, marks, link)?;
    }
    Ok(())
}

/// Marks what an expression needs.
#[cycle(marks)]
#[tactic(auto, using(crate::proofs::Variants::variants))]
pub fn expr_marks(
    module_body: &TypedModule,
    marks: &mut Vec<Mark>,
    e: &TypedExpr,
) -> Result<(), AllocError>
    ensures { let ss = of_expr module_body.now e.now in
        OnOk result (marks.new.items ≡ with_all ss marks.old.items) }
{
    match e {
        TypedExpr::Constant(_, _) | TypedExpr::Procedure(_) | TypedExpr::High(_) => Ok(()),
        TypedExpr::Load(_, place) => place_marks(module_body, marks, place),
        TypedExpr::Plus(_, a)
        | TypedExpr::Negate(a)
        | TypedExpr::Not(a)
        | TypedExpr::Abs(_, a)
        | TypedExpr::Cap(a)
        | TypedExpr::Chr(a)
        | TypedExpr::Odd(a)
        | TypedExpr::Ord(a)
        | TypedExpr::Val(_, a) => expr_marks(module_body, marks, a.get()),
        TypedExpr::Chain(first, links) => {
            expr_marks(module_body, marks, first.get())?;
            links_marks(module_body, marks, links.as_slice())
        }
        TypedExpr::Compare(_, a, b) | TypedExpr::Include(_, a, b) | TypedExpr::In(a, b) => {
            expr_marks(module_body, marks, a.get())?;
            expr_marks(module_body, marks, b.get())
        }
        TypedExpr::Call(_, call) => call_marks(module_body, marks, call.get()),
    }
}
