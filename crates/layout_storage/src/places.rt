//! Sizes of types, places of variables, frames of procedures, and slots of the table, as a layout has them.

ghost use Rattle.std.specs.Prelude.{◌≡◌, ◌+◌, ◌∷◌, [], IfOk, Some, None, true, nat_lt, length, if◌then◌else◌};
ghost use Rattle.std.specs.Option.{option_map, option_copied};
ghost use Rattle.layout_storage.specs.Sizes.{size, offset};
ghost use Rattle.layout_storage.specs.Shapes.{tree};
ghost use Rattle.layout_storage.specs.Capped.{cap_size};
ghost use Rattle.layout_storage.specs.Frames.{frame, module_row};
ghost use Rattle.layout_storage.specs.Fitting.{types_fit};
ghost use Rattle.layout_storage.specs.Layouts.{IsLayout, AllFits, IsAnswer, routine_of};

use crate::extents::size_of;
use crate::layout::{Layout, answer, checked_of};
use crate::row::{Row, start_of};
use m2_tree::Pos;
use std::alloc::{AllocError, Global};
use typed_tree::{TypeNo, TypedModule, Which};

/// Where the last part of a row ends.
fn end_of(row: Option<&Row>) -> Option<u32>
    ensures { result ≡ option_map (λ r. r.size) (option_copied row.entry) }
{
    match row {
        None => None,
        Some(row) => Some(row.size),
    }
}

impl Layout {
    /// Where the variables of a module stand. It answers the layout if all storage fits. Else it answers the least place
    /// where it does not, which is refusal 60: the variables and strings of a module, or a frame, have more than 16777216
    /// bytes, at the name of the module or of the procedure. The only error is that memory ran out.
    pub fn of(alloc: Global, module_body: &TypedModule) -> Result<Result<Layout, Pos>, AllocError>
        ensures { IfOk result (λ x. IsAnswer module_body.now x) }
    {
        let checked = checked_of(alloc, module_body)?;
        Ok(answer(module_body, checked))
    }

    /// The bytes that a value of this type takes. The type is one that the module knows, and the layout is the module's.
    pub fn size(&self, module_body: &TypedModule, t: TypeNo) -> u32
        requires { IsLayout module_body.now self.now }
        ensures capped { result ≡ cap_size (size (tree module_body.now.types t)) }
        ensures exact { types_fit module_body.now.types ≡ true
            → result ≡ size (tree module_body.now.types t) }
    {
        size_of(&module_body.types, &self.extents, t)
    }

    /// Where a variable of the module begins, in bytes behind the first one. `None` if there is no variable of this
    /// number. The layout is the module's.
    #[tactic(auto, using(crate::proofs::Placed::offset_fits))]
    pub fn offset(&self, module_body: &TypedModule, variable: usize) -> Option<u32>
        requires layout { IsLayout module_body.now self.now }
        requires fits { AllFits module_body.now }
        ensures { result ≡ (if nat_lt variable (length module_body.now.variables)
            then Some (offset (module_row module_body.now) (variable ∷ [])) else None) }
    {
        if variable < module_body.variables.len() {
            Some(start_of(&self.variables, variable))
        } else {
            None
        }
    }

    /// The bytes of a procedure's frame, the 16 reserved ones among them. `None` if there is no procedure of this
    /// number. The layout is the module's.
    pub fn frame(&self, module_body: &TypedModule, which: Which) -> Option<u32>
        requires layout { IsLayout module_body.now self.now }
        requires fits { AllFits module_body.now }
        ensures { result ≡ option_map (λ r. size (frame module_body.now.types r))
            (routine_of module_body.now which) }
    {
        match which {
            Which::Module(number) => end_of(self.procedures.get(number)),
            Which::Local(number) => end_of(self.locals.get(number)),
        }
    }

    /// How many slots of the shared table the module takes: one for its body, and one for each of its procedures.
    pub fn slots(&self, module_body: &TypedModule) -> usize
        requires { IsLayout module_body.now self.now }
        ensures { result ≡ length module_body.now.procedures + 1 }
    {
        self.procedures.as_slice().len() + 1
    }
}
