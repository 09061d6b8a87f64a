//! Where all variables of a module stand.

ghost use Rattle.std.specs.Prelude.{◌≡◌, IfOk, map};
ghost use Rattle.std.specs.List.{fold};
ghost use Rattle.layout_storage.specs.Sizes.{size};
ghost use Rattle.layout_storage.specs.Capped.{cap_size};
ghost use Rattle.layout_storage.specs.Texts.{module_texts};
ghost use Rattle.layout_storage.specs.Extents.{AreExtents};
ghost use Rattle.layout_storage.specs.Rows.{variables_row};
ghost use Rattle.layout_storage.specs.Counted.{character_count};
ghost use Rattle.layout_storage.specs.Layouts.{is_before, with_size, imported_row, no_frames, with_routine, too_large, together, IsWithoutFrames, IsChecked, IsAnswer};

use crate::body::texts_count;
use crate::capped::sum;
use crate::extents::Extents;
use crate::frame::{frame_row, variables_row};
use crate::making::extents_of;
use crate::row::Row;
use m2_tree::Pos;
use std::alloc::{AllocError, Global};
use tree_parts::Items;
use typed_tree::{Imported, Routine, TypedModule, Types};

/// Where the variables of a module stand, and the variables of its procedures. A size or an offset that does not fit
/// into 32 bits is the greatest number that does.
#[derive(Drop)]
pub struct Layout {
    /// The types that the module knows.
    pub extents: Extents,
    /// Its variables.
    pub variables: Row,
    /// The variables that each imported module exports.
    pub imported: Items<Row>,
    /// The frames of its procedures.
    pub procedures: Items<Row>,
    /// The frames of the procedures that are declared in procedures.
    pub locals: Items<Row>,
    /// How many characters its strings have.
    pub texts: u32,
}

/// The frames so far, and the least place where storage does not fit.
#[derive(Drop)]
pub struct Frames {
    pub rows: Items<Row>,
    pub too_large: Option<Pos>,
}

/// How many bytes the variables and texts of a module may have, and a frame.
const MAX_STORAGE: u32 = 16_777_216;

fn is_before(p: Pos, q: Pos) -> bool
    ensures { result ≡ is_before p q }
{
    p.line < q.line || (p.line == q.line && p.col < q.col)
}

fn with_size(found: Option<Pos>, bytes: u32, at: Pos) -> Option<Pos>
    ensures { result ≡ with_size found bytes at }
{
    if bytes <= MAX_STORAGE {
        return found;
    }
    match found {
        None => Some(at),
        Some(other) => Some(if is_before(at, other) { at } else { other }),
    }
}

fn with_routines(
    alloc: Global,
    types: &Types,
    extents: &Extents,
    before: Option<Pos>,
    routines: &[Routine],
) -> Result<Frames, AllocError>
    requires { AreExtents types.now extents.now }
    ensures { let none = no_frames before in
        IfOk result (λ x. x ≡ fold (with_routine types.now) none routines.now) }
{
    let mut frames = Frames {
        rows: Items::new(alloc),
        too_large: before,
    };
    for routine in routines {
        let row = frame_row(alloc, types, extents, routine)?;
        frames.too_large = with_size(frames.too_large, row.size, routine.pos);
        frames.rows.push(row)?;
    }
    Ok(frames)
}

fn imported_rows(
    alloc: Global,
    types: &Types,
    extents: &Extents,
    imports: &[Imported],
) -> Result<Items<Row>, AllocError>
    requires { AreExtents types.now extents.now }
    ensures { IfOk result (λ rows. rows ≡ map (imported_row types.now) imports.now) }
{
    let mut rows = Items::new(alloc);
    for import in imports {
        rows.push(variables_row(alloc, types, extents, import.variables.as_slice())?)?;
    }
    Ok(rows)
}

/// The layout, but for its frames.
fn without_frames(
    alloc: Global,
    module_body: &TypedModule,
    extents: Extents,
) -> Result<Layout, AllocError>
    requires { AreExtents module_body.now.types extents }
    ensures { IfOk result (λ x. IsWithoutFrames module_body.now x) }
{
    let types = &module_body.types;
    let variables = variables_row(alloc, types, &extents, module_body.variables.as_slice())?;
    let imported = imported_rows(alloc, types, &extents, module_body.imports.as_slice())?;
    Ok(Layout {
        extents,
        variables,
        imported,
        procedures: Items::new(alloc),
        locals: Items::new(alloc),
        texts: texts_count(module_body),
    })
}

/// A layout, and the least place where storage does not fit.
#[derive(Drop)]
pub struct Checked {
    pub layout: Layout,
    pub too_large: Option<Pos>,
}

fn together(layout: Layout, procedures: Frames, locals: Frames) -> Checked
    ensures { result ≡ together layout procedures locals }
{
    let Layout {
        extents,
        variables,
        imported,
        texts,
        ..
    } = layout;
    let Frames {
        rows: procedures,
        ..
    } = procedures;
    let Frames {
        rows: locals,
        too_large,
    } = locals;
    Checked {
        layout: Layout {
            extents,
            variables,
            imported,
            procedures,
            locals,
            texts,
        },
        too_large,
    }
}

fn with_frames(
    alloc: Global,
    module_body: &TypedModule,
    layout: Layout,
) -> Result<Checked, AllocError>
    requires { IsWithoutFrames module_body.now layout }
    ensures { IfOk result (λ x. IsChecked module_body.now x) }
{
    let types = &module_body.types;
    let bytes = sum(layout.variables.size, layout.texts);
    let data = with_size(None, bytes, module_body.pos);
    let procedures = with_routines(
        alloc,
        types,
        &layout.extents,
        data,
        module_body.procedures.as_slice(),
    )?;
    let locals = with_routines(
        alloc,
        types,
        &layout.extents,
        procedures.too_large,
        module_body.locals.as_slice(),
    )?;
    Ok(together(layout, procedures, locals))
}

pub fn checked_of(alloc: Global, module_body: &TypedModule) -> Result<Checked, AllocError>
    ensures { IfOk result (λ x. IsChecked module_body.now x) }
{
    let extents = extents_of(alloc, &module_body.types)?;
    let layout = without_frames(alloc, module_body, extents)?;
    with_frames(alloc, module_body, layout)
}

#[tactic(auto, using(crate::proofs::Sized::all_fits))]
pub fn answer(module_body: &TypedModule, checked: Checked) -> Result<Layout, Pos>
    requires { IsChecked module_body.now checked }
    ensures { IsAnswer module_body.now result }
{
    let Checked { layout, too_large } = checked;
    match too_large {
        None => Ok(layout),
        Some(at) => Err(at),
    }
}
