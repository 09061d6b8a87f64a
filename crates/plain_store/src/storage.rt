//! The sizes of types and frames, and what fresh frames hold.

ghost use Rattle.std.specs.Prelude.{◌≡◌, IfOk};
ghost use Rattle.layout_storage.specs.Sizes.{size};
ghost use Rattle.layout_storage.specs.Shapes.{tree};
ghost use Rattle.layout_storage.specs.Frames.{frame};
ghost use Rattle.def_meaning.specs.Store.{fresh};
ghost use Rattle.plain_store.specs.Contents.{contents};

use crate::blanks::{frame, type_blank};
use crate::held::Held;
use crate::prepared::Prepared;
use crate::state::RunFault;
use std::alloc::Global;
use typed_tree::{Routine, TypeNo};

/// The size of a type. The only error is that memory ran out, or that a number does not fit.
#[tactic(auto, using(crate::proofs::Fresh::sizes))]
pub fn type_size(alloc: Global, home: &Prepared<'_>, t: TypeNo) -> Result<usize, RunFault>
    ensures { IfOk result (λ n. n ≡ size (tree home.now.body.now.types t)) }
{
    let blank = type_blank(alloc, &home.body.types, home.kept, t)?;
    Ok(blank.size)
}

/// The size of a frame. The only error is that memory ran out, or that a number does not fit.
#[tactic(auto, using(crate::proofs::Fresh::sizes))]
pub fn frame_size(alloc: Global, home: &Prepared<'_>, routine: &Routine) -> Result<usize, RunFault>
    ensures { IfOk result (λ n. n ≡ size (frame home.now.body.now.types routine.now)) }
{
    let blank = frame(alloc, &home.body.types, home.kept, routine)?;
    Ok(blank.size)
}

/// What a fresh frame holds. The only error is that memory ran out, or that a number does not fit.
#[tactic(auto, using(crate::proofs::Fresh::sizes))]
pub fn frame_held(alloc: Global, home: &Prepared<'_>, routine: &Routine) -> Result<Held, RunFault>
    ensures { let t = frame home.now.body.now.types routine.now in
        IfOk result (λ h. contents h ≡ fresh t) }
{
    let blank = frame(alloc, &home.body.types, home.kept, routine)?;
    Ok(blank.held)
}
