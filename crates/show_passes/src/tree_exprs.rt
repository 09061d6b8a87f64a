//! The trees of expressions.

use itoa::Buffer;
use m2_tree::{AddOp, Designator, Expr, Ident, Item, MulOp, Operator, Pos, RelOp, Selector, Sign};
use show_code::Page;
use show_tokens::{put_octal, put_quoted};

/// How a relation is written.
fn relation_word(op: RelOp) -> &'static str {
    match op {
        RelOp::Equal => "=",
        RelOp::Unequal => "#",
        RelOp::Less => "<",
        RelOp::AtMost => "<=",
        RelOp::Greater => ">",
        RelOp::AtLeast => ">=",
        RelOp::In => "IN",
    }
}

/// How a sign is written.
fn sign_word(op: Sign) -> &'static str {
    match op {
        Sign::Plus => "+",
        Sign::Minus => "-",
    }
}

/// How an operator between terms is written.
fn add_word(op: AddOp) -> &'static str {
    match op {
        AddOp::Plus => "+",
        AddOp::Minus => "-",
        AddOp::Or => "OR",
    }
}

/// How an operator between factors is written.
fn mul_word(op: MulOp) -> &'static str {
    match op {
        MulOp::Times => "*",
        MulOp::Over => "/",
        MulOp::Div => "DIV",
        MulOp::Mod => "MOD",
        MulOp::And => "AND",
    }
}

/// A row for an operator.
fn show_operator(page: &mut Page, level: usize, word: &str, pos: Pos) {
    page.row_at(level, &[b"operator ", word.as_bytes()], pos);
}

fn show_number(page: &mut Page, level: usize, number: u32, pos: Pos) {
    let mut digits = Buffer::new();
    page.row_at(level, &[b"number ", digits.format(number).as_bytes()], pos);
}

/// Ends a row with a place.
fn end_row(page: &mut Page, pos: Pos) {
    page.put(b" ");
    page.put_place(pos);
    page.put(b"\n");
}

fn show_character(page: &mut Page, level: usize, code: u8, pos: Pos) {
    page.begin_row(level);
    page.put(b"character ");
    put_octal(page, code);
    page.put(b"C");
    end_row(page, pos);
}

fn show_text(page: &mut Page, level: usize, bytes: &[u8], pos: Pos) {
    page.begin_row(level);
    page.put(b"string ");
    put_quoted(page, bytes);
    end_row(page, pos);
}

/// The row of a set, and below it the name of its type if it is written.
fn begin_set(page: &mut Page, level: usize, of: &Option<Ident>, pos: Pos) {
    page.row_at(level, &[b"set"], pos);
    match of {
        None => {}
        Some(name) => page.row_at(
            level.saturating_add(1),
            &[b"name ", name.name.as_bytes()],
            name.pos,
        ),
    }
}

/// The row of the sign of a sum, if it has one.
fn show_sign(page: &mut Page, level: usize, sign: &Option<Operator<Sign>>) {
    match sign {
        None => {}
        Some(sign) => page.row_at(level, &[b"sign ", sign_word(sign.op).as_bytes()], sign.pos),
    }
}

/// The tree of an expression.
#[cycle(expr)]
pub fn show_expr(page: &mut Page, level: usize, e: &Expr) {
    let inner = level.saturating_add(1);
    match e {
        Expr::Number(pos, number) => show_number(page, level, *number, *pos),
        Expr::Char(pos, code) => show_character(page, level, *code, *pos),
        Expr::Text(pos, text) => show_text(page, level, text.as_bytes(), *pos),
        Expr::Set(of, pos, items) => {
            begin_set(page, level, of, *pos);
            show_items(page, inner, items.as_slice());
        }
        Expr::Not(pos, operand) => {
            page.row_at(level, &[b"NOT"], *pos);
            show_expr(page, inner, operand.get());
        }
        Expr::Bracketed(pos, e) => {
            page.row_at(level, &[b"brackets"], *pos);
            show_expr(page, inner, e.get());
        }
        Expr::Use(designator, None) => show_designator(page, level, designator),
        Expr::Use(designator, Some(arguments)) => {
            page.row(level, &[b"call"]);
            show_designator(page, inner, designator);
            show_exprs(page, inner, arguments.get().as_slice());
        }
        Expr::Term(first, others) => {
            page.row(level, &[b"term"]);
            show_expr(page, inner, first.get());
            show_factors(page, inner, others.as_slice());
        }
        Expr::Sum(sign, first, others) => {
            page.row(level, &[b"sum"]);
            show_sign(page, inner, sign);
            show_expr(page, inner, first.get());
            show_terms(page, inner, others.as_slice());
        }
        Expr::Relation(first, operator, second) => {
            page.row(level, &[b"relation"]);
            show_expr(page, inner, first.get());
            show_operator(page, inner, relation_word(operator.op), operator.pos);
            show_expr(page, inner, second.get());
        }
    }
}

/// The trees of expressions, one behind another.
#[cycle(expr)]
pub fn show_exprs(page: &mut Page, level: usize, exprs: &[Expr]) {
    for e in exprs {
        show_expr(page, level, e);
    }
}

/// The factors of a term behind the first, each with its operator.
#[cycle(expr)]
fn show_factors(page: &mut Page, level: usize, factors: &[(Operator<MulOp>, Expr)]) {
    for factor in factors {
        show_operator(page, level, mul_word(factor.0.op), factor.0.pos);
        show_expr(page, level, &factor.1);
    }
}

/// The terms of a sum behind the first, each with its operator.
#[cycle(expr)]
fn show_terms(page: &mut Page, level: usize, terms: &[(Operator<AddOp>, Expr)]) {
    for term in terms {
        show_operator(page, level, add_word(term.0.op), term.0.pos);
        show_expr(page, level, &term.1);
    }
}

/// An element of a set or a label of a case, which may be a range.
#[cycle(expr)]
fn show_item(page: &mut Page, level: usize, item: &Item) {
    match &item.high {
        None => show_expr(page, level, &item.low),
        Some(high) => {
            page.row(level, &[b"range"]);
            show_expr(page, level.saturating_add(1), &item.low);
            show_expr(page, level.saturating_add(1), high);
        }
    }
}

/// Elements of a set or labels of a case.
#[cycle(expr)]
pub fn show_items(page: &mut Page, level: usize, items: &[Item]) {
    for item in items {
        show_item(page, level, item);
    }
}

/// A component of a variable.
#[cycle(expr)]
fn show_selector(page: &mut Page, level: usize, selector: &Selector) {
    match selector {
        Selector::Field(_, name) => {
            page.row_at(level, &[b"field ", name.name.as_bytes()], name.pos);
        }
        Selector::Index(pos, index) => {
            page.row_at(level, &[b"index"], *pos);
            show_expr(page, level.saturating_add(1), index);
        }
    }
}

/// A name, and below it the components that are picked.
#[cycle(expr)]
pub fn show_designator(page: &mut Page, level: usize, designator: &Designator) {
    let name = &designator.name;
    page.row_at(level, &[b"name ", name.name.as_bytes()], name.pos);
    for selector in designator.selectors.as_slice() {
        show_selector(page, level.saturating_add(1), selector);
    }
}
