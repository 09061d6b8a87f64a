//! What is asked of procedures, and what they give.

ghost use Rattle.std.specs.Prelude.{◌≡◌, ◌<◌, ◌^◌};
ghost use Rattle.layout_storage.specs.Frames.{formals_of};
ghost use Rattle.def_scheme.specs.Exprs.{is_own, all_arguments, has_result};
ghost use Rattle.def_scheme.specs.Functions.{numbers_of};

use typed_tree::{Routine, Shape, TypeNo, TypedModule, Types, made_of};

/// Whether a module number is the number of the module itself.
pub fn is_own(module_body: &TypedModule, home: u32) -> bool
    ensures { result ≡ is_own module_body.now home }
{
    home == module_body.types.home
}

/// How many numbers of 64 bits are passed for the formals of a heading: two for an open array, and one for others.
#[tactic(auto, using(crate::proofs::Formals::counted))]
pub fn arguments_in(types: &Types, heading: TypeNo) -> usize
    ensures count { result ≡ all_arguments (formals_of types.now heading) }
    ensures room { result < 2 ^ 63 }
{
    match made_of(types, heading) {
        None => 0,
        Some(made) => match &made.shape {
            Shape::Procedure(signature) => {
                let formals = signature.formals.as_slice();
                formals.len() + formals.iter().filter(|f| f.is_open).count()
            }
            _ => 0,
        },
    }
}

/// Whether a procedure of this heading gives a result.
pub fn has_result(types: &Types, heading: TypeNo) -> bool
    ensures { result ≡ has_result types.now heading }
{
    match made_of(types, heading) {
        None => false,
        Some(made) => match &made.shape {
            Shape::Procedure(signature) => signature.result.is_some(),
            _ => false,
        },
    }
}

/// How many numbers of 64 bits are passed to a procedure.
pub fn numbers_of(types: &Types, routine: &Routine) -> usize
    ensures { result ≡ numbers_of types.now routine.now }
{
    let link = if routine.level > 1 { 1 } else { 0 };
    arguments_in(types, routine.heading) + link
}
