//! Whether the sizes of types are kept uncut.

ghost use Rattle.std.specs.Prelude.{◌≡◌, true};
ghost use Rattle.std.specs.List.{fold};
ghost use Rattle.std.specs.Option.{option_map};
ghost use Rattle.layout_storage.specs.Shapes.{tree};
ghost use Rattle.layout_storage.specs.Extents.{AreExtents};
ghost use Rattle.layout_storage.specs.Steps.{if_some};
ghost use Rattle.emit_buffer.specs.Fitting.{size_fits, first_fit, module_fits, sizes_fit};

use layout_storage::{Extents, element_of, size_of};
use tree_parts::{Items, Shared};
use typed_tree::{Home, Made, TypeNo, Types};

/// The least number of bytes that may be a cut one.
const CUT_SIZE: u32 = 4_294_967_295;

#[tactic(auto, using(crate::proofs::Uncut::less_cut))]
fn size_fits(types: &Types, extents: &Extents, t: TypeNo) -> bool
    requires { AreExtents types.now extents.now }
    ensures { result ≡ size_fits (tree types.now t) }
{
    size_of(types, extents, t) < CUT_SIZE && element_of(types, extents, t) < CUT_SIZE
}

/// The first types of a module, this many.
fn first_fit(types: &Types, extents: &Extents, home: u32, count: usize) -> bool
    requires { AreExtents types.now extents.now }
    ensures { result ≡ first_fit types.now home count }
{
    let mut all = true;
    for number in 0..count {
        let t = TypeNo {
            home: Home::Module(home),
            number,
        };
        all = all && size_fits(types, extents, t);
    }
    all
}

/// The types of a module, and those before.
fn module_fits(
    types: &Types,
    extents: &Extents,
    others: bool,
    entry: Option<(&u32, &Shared<Items<Made>>)>,
) -> bool
    requires { AreExtents types.now extents.now }
    ensures { let given = option_map (λ e. (e.0.now, e.1.now)) entry.entry in
        result ≡ if_some (module_fits types.now) others given }
{
    match entry {
        None => others,
        Some((home, made)) => others && first_fit(types, extents, *home, made.get().len()),
    }
}

fn others_fit(types: &Types, extents: &Extents) -> bool
    requires { AreExtents types.now extents.now }
    ensures { result ≡ fold (module_fits types.now) true types.now.others }
{
    let mut all = true;
    for place in 0..types.others.len() {
        all = module_fits(types, extents, all, types.others.get(place));
    }
    all
}

/// Whether the sizes of all types that a module knows, and of their elements, are below 4294967295, so that what is kept of
/// them is not cut.
#[tactic(auto, unfolding(crate::specs::Fitting::sizes_fit))]
pub fn sizes_fit(types: &Types, extents: &Extents) -> bool
    requires { AreExtents types.now extents.now }
    ensures { result ≡ sizes_fit types.now }
{
    others_fit(types, extents) && first_fit(types, extents, types.home, types.own.len())
}
