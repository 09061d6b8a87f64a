//! Which types of functions are needed, by how many arguments these have.

ghost use Rattle.std.specs.Prelude.{◌≡◌, ◌<◌, length, OnOk};
ghost use Rattle.def_scheme.specs.Signatures.{signature, of_heading};
ghost use Rattle.emit_tables.specs.Marked.{marked_at, with_one, with_all};
ghost use Rattle.emit_tables.specs.Needed.{of_procedure};

use crate::heading::{arguments_in, has_result, is_own};
use std::alloc::AllocError;
use typed_tree::{Procedure, TypeNo, TypedModule, Types};

/// Whether the type without result is needed, and the one with a result.
#[derive(Clone, Copy, PartialEq, Eq)]
pub struct Mark {
    pub without: bool,
    pub giving: bool,
}

fn set(marks: &mut Vec<Mark>, arguments: usize, has_result: bool)
    requires { arguments < length marks.old.items }
    ensures { marks.new.items ≡ marked_at arguments has_result marks.old.items }
{
    if has_result {
        marks[arguments].giving = true;
    } else {
        marks[arguments].without = true;
    }
}

/// Marks the type with this many arguments, and with a result or without.
#[tactic(auto, using(crate::proofs::Marking::longer), unfolding(crate::specs::Marked::with_one))]
pub fn mark_signature(
    marks: &mut Vec<Mark>,
    arguments: usize,
    has_result: bool,
) -> Result<(), AllocError>
    ensures { let s = signature arguments has_result in
        OnOk result (marks.new.items ≡ with_one marks.old.items s) }
{
    while marks.len() <= arguments {
        marks.push(Mark {
            without: false,
            giving: false,
        })?;
    }
    set(marks, arguments, has_result);
    Ok(())
}

/// Marks the type of procedures of this heading.
pub fn mark_heading(types: &Types, marks: &mut Vec<Mark>, heading: TypeNo) -> Result<(), AllocError>
    ensures { let s = of_heading types.now heading in
        OnOk result (marks.new.items ≡ with_one marks.old.items s) }
{
    mark_signature(
        marks,
        arguments_in(types, heading),
        has_result(types, heading),
    )
}

/// Marks the type of a procedure of a module that is called.
#[tactic(auto, unfolding(crate::specs::Marked::with_all))]
pub fn mark_procedure(
    module_body: &TypedModule,
    marks: &mut Vec<Mark>,
    f: Procedure,
) -> Result<(), AllocError>
    ensures { let ss = of_procedure module_body.now f in
        OnOk result (marks.new.items ≡ with_all ss marks.old.items) }
{
    if is_own(module_body, f.home) {
        return Ok(());
    }
    mark_heading(&module_body.types, marks, f.heading)
}
