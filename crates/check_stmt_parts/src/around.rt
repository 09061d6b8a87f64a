//! What stands around a statement.

ghost use Rattle.std.specs.Prelude.{◌≡◌};
ghost use Rattle.check_scope.specs.Elaborated.{least};
ghost use Rattle.check_stmt_parts.specs.Simple.{in_loop, exit_statement};

use check_scope::{Elaborated, report};
use m2_rule::{Breach, Rule};
use m2_tree::Pos;
use typed_tree::{TypeNo, TypedStmt};

/// What stands around a statement.
#[derive(Clone, Copy)]
pub struct Around<T> {
    /// The type of the result, if the body is one of a function.
    pub gives: Option<Result<TypeNo, T>>,
    /// Whether a LOOP of the body stands around it.
    pub in_loop: bool,
}

/// The same, inside a LOOP.
pub fn in_loop(around: &Around<Breach>) -> Around<Breach>
    ensures { result ≡ in_loop around.now }
{
    Around {
        gives: around.gives,
        in_loop: true,
    }
}

/// EXIT: 45 if no LOOP stands around it.
pub fn exit_statement(at: Pos, around: &Around<Breach>) -> Elaborated<TypedStmt>
    ensures { result ≡ exit_statement least at around.now }
{
    if !around.in_loop {
        return report(at, Rule::LonelyExit);
    }
    Ok(TypedStmt::Exit)
}
