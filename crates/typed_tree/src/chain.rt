//! Chains of operators, and components behind variables.

ghost use Rattle.std.specs.Prelude.{IfOk, ◌≡◌};
ghost use Rattle.typed_tree.specs.Chains.{behind, link_operand, root_place};

use crate::computed::{Component, Link, Place, Root, TypedExpr};
use std::alloc::{AllocError, Global};
use tree_parts::Items;

/// An operator and its second operand behind a first one. If that is a chain, it gets one operator more. The only error
/// is that memory ran out.
pub fn link_operand(alloc: Global, first: TypedExpr, link: Link) -> Result<TypedExpr, AllocError>
    ensures { IfOk result (λ e. e ≡ link_operand first link) }
{
    first.with_link(alloc, link)
}

/// The variable itself.
pub fn root_place(alloc: Global, root: Root) -> Place
    ensures { result ≡ root_place root }
{
    Place {
        root,
        components: Items::new(alloc),
    }
}

/// A component of what stands at a place. The only error is that memory ran out.
pub fn behind(place: Place, component: Component) -> Result<Place, AllocError>
    ensures { IfOk result (λ d. d ≡ behind place component) }
{
    let Place {
        root,
        mut components,
    } = place;
    components.push(component)?;
    Ok(Place { root, components })
}
