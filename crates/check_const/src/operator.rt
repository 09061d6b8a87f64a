//! Operators.

ghost use Rattle.std.specs.Prelude.{◌≡◌};
ghost use Rattle.check_const.specs.Operators.{mul_op, add_op, is_division};

use m2_tree::{AddOp, MulOp, RelOp};

/// An operator between two operands.
#[derive(Clone, Copy, PartialEq, Eq)]
pub enum BinaryOp {
    Plus,
    Minus,
    Times,
    Over,
    Div,
    Mod,
    And,
    Or,
    Relation(RelOp),
}

/// An operator between factors.
pub fn mul_op(op: MulOp) -> BinaryOp
    ensures { result ≡ mul_op op }
{
    match op {
        MulOp::Times => BinaryOp::Times,
        MulOp::Over => BinaryOp::Over,
        MulOp::Div => BinaryOp::Div,
        MulOp::Mod => BinaryOp::Mod,
        MulOp::And => BinaryOp::And,
    }
}

/// An operator between terms.
pub fn add_op(op: AddOp) -> BinaryOp
    ensures { result ≡ add_op op }
{
    match op {
        AddOp::Plus => BinaryOp::Plus,
        AddOp::Minus => BinaryOp::Minus,
        AddOp::Or => BinaryOp::Or,
    }
}

/// Whether it is DIV or MOD.
pub fn is_division(op: BinaryOp) -> bool
    ensures { result ≡ is_division op }
{
    match op {
        BinaryOp::Div | BinaryOp::Mod => true,
        BinaryOp::Plus
        | BinaryOp::Minus
        | BinaryOp::Times
        | BinaryOp::Over
        | BinaryOp::And
        | BinaryOp::Or
        | BinaryOp::Relation(_) => false,
    }
}
