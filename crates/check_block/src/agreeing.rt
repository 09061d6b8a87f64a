//! Headings that agree.

ghost use Rattle.std.specs.Prelude.{◌≡◌};
ghost use Rattle.std.specs.Option.{option_copied};
ghost use Rattle.std.specs.Cmp.Lexicographic.{pointwise};
ghost use Rattle.check_block.specs.Agreeing.{same_formal, same_result, signature_of, agree};

use typed_tree::{Formal, Made, Shape, Signature, TypeNo, are_same};

fn same_formal(first: &Formal, second: &Formal) -> bool
    ensures { result ≡ same_formal first.now second.now }
{
    first.is_var == second.is_var
        && (first.is_open == second.is_open && are_same(first.of, second.of))
}

fn same_formals(first: &[Formal], second: &[Formal]) -> bool
    ensures { result ≡ pointwise same_formal first.now second.now }
{
    match first {
        [] => second.is_empty(),
        [f, fs @ ..] => match second {
            [] => false,
            [k, ks @ ..] => same_formal(f, k) && same_formals(fs, ks),
        },
    }
}

fn same_result(first: Option<TypeNo>, second: Option<TypeNo>) -> bool
    ensures { result ≡ same_result first second }
{
    match first {
        None => second.is_none(),
        Some(t) => match second {
            None => false,
            Some(u) => are_same(t, u),
        },
    }
}

/// What is asked of a procedure and what it gives, if the type is a procedure's.
pub fn signature_of(made: Option<&Made>) -> Option<&Signature>
    ensures { option_copied result ≡ signature_of (option_copied made.entry) }
{
    match made {
        None => None,
        Some(made) => match &made.shape {
            Shape::Procedure(signature) => Some(signature),
            Shape::Scalar(_)
            | Shape::Set
            | Shape::Array(_, _)
            | Shape::Record(_)
            | Shape::Open(_) => None,
        },
    }
}

/// Whether both are there and agree in the kinds and types of the formals and in the result.
pub fn agree(first: Option<&Signature>, second: Option<&Signature>) -> bool
    ensures { result ≡ agree (option_copied first.entry) (option_copied second.entry) }
{
    match first {
        None => false,
        Some(h) => match second {
            None => false,
            Some(k) => {
                same_formals(h.formals.as_slice(), k.formals.as_slice())
                    && same_result(h.result, k.result)
            }
        },
    }
}
