//! Typed expressions, and what they are made of.

use crate::rows::{constant_row, declared_row, numbered_row, slot_row, typed_row};
use show_code::Page;
use tree_parts::Items;
use typed_tree::{
    Argument, Arithmetic, BITSET, BOOLEAN, CARDINAL, CHAR, Call, Comparison, Component, INTEGER,
    Inclusion, Link, Place, Root, SetOperator, TypeNo, TypedExpr, TypedModule,
};

/// How an operator on two numbers is written.
fn arithmetic_word(operator: Arithmetic) -> &'static str {
    match operator {
        Arithmetic::Add => "+",
        Arithmetic::Subtract => "-",
        Arithmetic::Multiply => "*",
        Arithmetic::Divide => "DIV",
        Arithmetic::Remainder => "MOD",
    }
}

/// How a relation is written.
fn comparison_word(relation: Comparison) -> &'static str {
    match relation {
        Comparison::Equal => "=",
        Comparison::Unequal => "#",
        Comparison::Less => "<",
        Comparison::AtMost => "<=",
        Comparison::Greater => ">",
        Comparison::AtLeast => ">=",
    }
}

/// How an operator on two sets is written.
fn set_word(operator: SetOperator) -> &'static str {
    match operator {
        SetOperator::Union => "+",
        SetOperator::Difference => "-",
        SetOperator::Intersection => "*",
        SetOperator::SymmetricDifference => "/",
    }
}

/// How a relation between two sets is written.
fn inclusion_word(relation: Inclusion) -> &'static str {
    match relation {
        Inclusion::Within => "<=",
        Inclusion::Around => ">=",
    }
}

/// A variable, or a formal, by what its name stands for.
fn show_root(page: &mut Page, module: &TypedModule, level: usize, root: Root) {
    match root {
        Root::Global(v) => declared_row(page, module, level, b"variable", v.home, v.number, v.of),
        Root::Local(slot) => slot_row(page, level, b"local", slot),
        Root::Alias(slot) => slot_row(page, level, b"VAR formal", slot),
        Root::Open(slot) => slot_row(page, level, b"open array", slot),
        Root::With(number) => numbered_row(page, level, b"record of WITH", number),
    }
}

/// The word of an operator on one value, with the type of its result.
fn show_word(page: &mut Page, module: &TypedModule, level: usize, word: &str, t: TypeNo) {
    typed_row(page, module, level, &[word.as_bytes()], t);
}

/// A typed expression: its operator with the type of its result, and its operands below.
#[cycle(expression)]
pub fn show_value(page: &mut Page, module: &TypedModule, level: usize, e: &TypedExpr) {
    let inner = level.saturating_add(1);
    match e {
        TypedExpr::Constant(t, number) => constant_row(page, module, level, *number, *t),
        TypedExpr::Load(t, place) => {
            show_word(page, module, level, "value", *t);
            show_place(page, module, inner, place);
        }
        TypedExpr::Procedure(f) => {
            let word = b"procedure";
            declared_row(page, module, level, word, f.home, f.number, f.heading);
        }
        TypedExpr::Plus(t, e) => show_operand(page, module, level, "+", *t, e.get()),
        TypedExpr::Negate(e) => show_operand(page, module, level, "-", INTEGER, e.get()),
        TypedExpr::Chain(first, links) => {
            show_value(page, module, level, first.get());
            show_links(page, module, level, links.as_slice());
        }
        TypedExpr::Compare(relation, first, second) => {
            let word = comparison_word(*relation);
            show_operand(page, module, level, word, BOOLEAN, first.get());
            show_value(page, module, inner, second.get());
        }
        TypedExpr::Not(e) => show_operand(page, module, level, "NOT", BOOLEAN, e.get()),
        TypedExpr::Include(relation, first, second) => {
            let word = inclusion_word(*relation);
            show_operand(page, module, level, word, BOOLEAN, first.get());
            show_value(page, module, inner, second.get());
        }
        TypedExpr::In(element, set) => {
            show_operand(page, module, level, "IN", BOOLEAN, element.get());
            show_value(page, module, inner, set.get());
        }
        TypedExpr::Abs(_, _)
        | TypedExpr::Cap(_)
        | TypedExpr::Chr(_)
        | TypedExpr::Odd(_)
        | TypedExpr::Ord(_)
        | TypedExpr::Val(_, _) => show_function(page, module, level, e),
        TypedExpr::High(slot) => {
            show_word(page, module, level, "HIGH", CARDINAL);
            slot_row(page, inner, b"open array", *slot);
        }
        TypedExpr::Call(t, call) => {
            show_word(page, module, level, "result", *t);
            show_call(page, module, inner, call.get());
        }
    }
}

/// The word of an operator with the type of its result, and its operand below.
#[cycle(expression)]
pub fn show_operand(
    page: &mut Page,
    module: &TypedModule,
    level: usize,
    word: &str,
    t: TypeNo,
    e: &TypedExpr,
) {
    show_word(page, module, level, word, t);
    show_value(page, module, level.saturating_add(1), e);
}

/// A standard function with its argument.
#[cycle(expression)]
fn show_function(page: &mut Page, module: &TypedModule, level: usize, e: &TypedExpr) {
    match e {
        TypedExpr::Abs(t, e) => show_operand(page, module, level, "ABS", *t, e.get()),
        TypedExpr::Cap(e) => show_operand(page, module, level, "CAP", CHAR, e.get()),
        TypedExpr::Chr(e) => show_operand(page, module, level, "CHR", CHAR, e.get()),
        TypedExpr::Odd(e) => show_operand(page, module, level, "ODD", BOOLEAN, e.get()),
        TypedExpr::Ord(e) => show_operand(page, module, level, "ORD", CARDINAL, e.get()),
        TypedExpr::Val(t, e) => show_operand(page, module, level, "VAL", *t, e.get()),
        _ => {}
    }
}

/// Operators behind a first operand, each with its second operand below.
#[cycle(expression)]
fn show_links(page: &mut Page, module: &TypedModule, level: usize, links: &[Link]) {
    for link in links {
        show_link(page, module, level, link);
    }
}

/// An operator with the type of its result, and its second operand below.
#[cycle(expression)]
fn show_link(page: &mut Page, module: &TypedModule, level: usize, link: &Link) {
    match link {
        Link::Arithmetic(operator, t, e) => show_operand(
            page,
            module,
            level,
            arithmetic_word(*operator),
            *t,
            e,
        ),
        Link::And(e) => show_operand(page, module, level, "AND", BOOLEAN, e),
        Link::Or(e) => show_operand(page, module, level, "OR", BOOLEAN, e),
        Link::Combine(operator, e) => show_operand(
            page,
            module,
            level,
            set_word(*operator),
            BITSET,
            e,
        ),
    }
}

/// A variable, and below it the components that lead to a part of it.
#[cycle(expression)]
pub fn show_place(page: &mut Page, module: &TypedModule, level: usize, place: &Place) {
    show_root(page, module, level, place.root);
    for component in place.components.as_slice() {
        show_component(page, module, level.saturating_add(1), component);
    }
}

/// A field or an index, with the type that it is picked from.
#[cycle(expression)]
fn show_component(page: &mut Page, module: &TypedModule, level: usize, component: &Component) {
    match component {
        Component::Field(t, number) => {
            numbered_row(page, level, b"field", *number);
            show_word(page, module, level.saturating_add(1), "of", *t);
        }
        Component::Element(t, index) => show_operand(page, module, level, "element of", *t, index),
        Component::OpenElement(_, t, index) => show_operand(
            page, module, level, "element", *t, index,
        ),
    }
}

/// A call: what is called, and its arguments below.
#[cycle(expression)]
pub fn show_call(page: &mut Page, module: &TypedModule, level: usize, call: &Call) {
    let inner = level.saturating_add(1);
    let arguments = match call {
        Call::Module(f, arguments) => {
            let word = b"call of procedure";
            declared_row(page, module, level, word, f.home, f.number, f.heading);
            arguments
        }
        Call::Nested(f, arguments) => {
            numbered_row(page, level, b"call of local procedure", f.number);
            show_word(page, module, inner, "heading", f.heading);
            arguments
        }
        Call::Variable(t, place, arguments) => {
            show_word(page, module, level, "call of the value of", *t);
            show_place(page, module, inner, place);
            arguments
        }
    };
    show_arguments(page, module, inner, arguments);
}

/// Arguments, one behind another.
#[cycle(expression)]
fn show_arguments(
    page: &mut Page,
    module: &TypedModule,
    level: usize,
    arguments: &Items<Argument>,
) {
    for argument in arguments.as_slice() {
        show_argument(page, module, level, argument);
    }
}

/// What is given for a formal.
#[cycle(expression)]
fn show_argument(page: &mut Page, module: &TypedModule, level: usize, argument: &Argument) {
    let inner = level.saturating_add(1);
    match argument {
        Argument::Value(t, e) => show_operand(page, module, level, "argument", *t, e),
        Argument::Place(place) => {
            page.row(level, &[b"argument"]);
            show_place(page, module, inner, place);
        }
        Argument::Array(t, place) => {
            show_word(page, module, level, "open argument", *t);
            show_place(page, module, inner, place);
        }
        Argument::Open(slot) => slot_row(page, level, b"open argument", *slot),
        Argument::Text(text) => {
            page.row(level, &[b"string argument '", text.get().as_bytes(), b"'"]);
        }
    }
}
