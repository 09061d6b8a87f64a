//! Headings that agree.

ghost use Rattle.std.specs.Prelude.{◌≡◌};
ghost use Rattle.check_value.specs.Agreement.{is_alike, formal_agrees, formals_agree, result_agrees, headings_agree};

use crate::class::signature_of;
use typed_tree::{Formal, TypeNo, Types, are_same};

fn is_alike(first: bool, second: bool) -> bool
    ensures { result ≡ is_alike first second }
{
    if first { second } else { !second }
}

fn formal_agrees(first: Formal, second: Formal) -> bool
    ensures { result ≡ formal_agrees first second }
{
    is_alike(first.is_var, second.is_var)
        && is_alike(first.is_open, second.is_open)
        && are_same(first.of, second.of)
}

fn formals_agree(first: &[Formal], second: &[Formal]) -> bool
    ensures { result ≡ formals_agree first.now second.now }
{
    match first {
        [] => match second {
            [] => true,
            [_, ..] => false,
        },
        [formal, rest @ ..] => match second {
            [] => false,
            [other, others @ ..] => {
                formal_agrees(*formal, *other) && formals_agree(rest, others)
            }
        },
    }
}

fn result_agrees(first: Option<TypeNo>, second: Option<TypeNo>) -> bool
    ensures { result ≡ result_agrees first second }
{
    match first {
        None => match second {
            None => true,
            Some(_) => false,
        },
        Some(t) => match second {
            None => false,
            Some(u) => are_same(t, u),
        },
    }
}

/// Whether two procedure types agree in kinds and types of formals and in the result.
pub fn headings_agree(types: &Types, first: TypeNo, second: TypeNo) -> bool
    ensures { result ≡ headings_agree types.now first second }
{
    match (signature_of(types, first), signature_of(types, second)) {
        (Some(first), Some(second)) => {
            formals_agree(first.formals.as_slice(), second.formals.as_slice())
                && result_agrees(first.result, second.result)
        }
        (Some(_), None) | (None, _) => false,
    }
}
