//! The order in which refusals are reported.

ghost use Rattle.std.specs.Prelude.{◌≡◌, IfOk};
ghost use Rattle.build_results.specs.Order.{AreInOrder};

use m2_tree::Refusal;
use std::alloc::AllocError;

/// Refusals in order of the names of their files by their bytes, and as they are found if these are equal.
pub fn in_order(found: Vec<Refusal>) -> Result<Vec<Refusal>, AllocError>
    ensures { IfOk result (λ reported. AreInOrder found.items reported.items) }
{
    let mut reported = found;
    reported.sort_by(|r, s| r.file.as_bytes().cmp(&s.file.as_bytes()))?;
    Ok(reported)
}
