//! Frames, and the variables of modules.

ghost use Rattle.std.specs.Prelude.{◌≡◌, IfOk, ◌∷◌, [], map};
ghost use Rattle.std.specs.List.{fold};
ghost use Rattle.std.specs.Option.{option_copied};
ghost use Rattle.layout_storage.specs.Frames.{formals_made, formals_of};
ghost use Rattle.layout_storage.specs.Extents.{begin_row, AreExtents};
ghost use Rattle.layout_storage.specs.Rows.{with_formal, with_variable, variables_row, frame_row};

use crate::extents::{Extents, size_of};
use crate::row::{Row, begin_row, with_part};
use std::alloc::{AllocError, Global};
use typed_tree::{Formal, Made, Routine, Shape, TypeNo, Types, made_of};

/// An open array is kept as its address and HIGH, and a VAR formal as an address.
#[tactic(auto, unfolding(crate::specs::Sizes::size))]
fn with_formals(
    types: &Types,
    extents: &Extents,
    before: Row,
    formals: &[Formal],
) -> Result<Row, AllocError>
    requires { AreExtents types.now extents.now }
    ensures { IfOk result (λ r. r ≡ fold (with_formal types.now) before formals.now) }
{
    let mut row = before;
    for formal in formals {
        let size = if formal.is_open {
            8
        } else if formal.is_var {
            4
        } else {
            size_of(types, extents, formal.of)
        };
        row = with_part(row, size)?;
    }
    Ok(row)
}

/// The formals of a procedure type.
fn with_heading(
    types: &Types,
    extents: &Extents,
    row: Row,
    heading: Option<&Made>,
) -> Result<Row, AllocError>
    requires { AreExtents types.now extents.now }
    ensures { let formals = formals_made (option_copied heading.entry) in
        IfOk result (λ r. r ≡ fold (with_formal types.now) row formals) }
{
    match heading {
        None => Ok(row),
        Some(made) => match &made.shape {
            Shape::Procedure(signature) => {
                with_formals(types, extents, row, signature.formals.as_slice())
            }
            Shape::Scalar(_)
            | Shape::Set
            | Shape::Array(_, _)
            | Shape::Record(_)
            | Shape::Open(_) => Ok(row),
        },
    }
}

fn with_variables(
    types: &Types,
    extents: &Extents,
    before: Row,
    variables: &[TypeNo],
) -> Result<Row, AllocError>
    requires { AreExtents types.now extents.now }
    ensures { IfOk result (λ r. r ≡ fold (with_variable types.now) before variables.now) }
{
    let mut row = before;
    for variable in variables {
        row = with_part(row, size_of(types, extents, *variable))?;
    }
    Ok(row)
}

/// The frame of a procedure: its formals and then its variables, behind 16 reserved bytes. The only error is that memory
/// ran out.
#[tactic(auto, using(crate::proofs::Framed::frame_is))]
pub fn frame_row(
    alloc: Global,
    types: &Types,
    extents: &Extents,
    routine: &Routine,
) -> Result<Row, AllocError>
    requires { AreExtents types.now extents.now }
    ensures { IfOk result (λ r. r ≡ frame_row types.now routine.now) }
{
    let row = with_heading(
        types,
        extents,
        begin_row(alloc, 16),
        made_of(types, routine.heading),
    )?;
    with_variables(types, extents, row, routine.variables.as_slice())
}

/// The variables of these types, one after another. The only error is that memory ran out.
pub fn variables_row(
    alloc: Global,
    types: &Types,
    extents: &Extents,
    variables: &[TypeNo],
) -> Result<Row, AllocError>
    requires { AreExtents types.now extents.now }
    ensures { IfOk result (λ r. r ≡ variables_row types.now variables.now) }
{
    with_variables(types, extents, begin_row(alloc, 0), variables)
}
