//! What designators stand for in constant expressions.

ghost use Rattle.std.specs.Prelude.{◌≡◌, IfOk};
ghost use Rattle.std.specs.List.{fold};
ghost use Rattle.check_scope.specs.Elaborated.{least};
ghost use Rattle.check_expr.specs.Meanings.{picks, head, constant_pick_in};

use check_const::{Denoted, component_in, field_in, first_name};
use check_scope::{Elaborated, Scope};
use m2_rule::Breach;
use m2_tree::{Designator, Selector};
use std::alloc::AllocError;

/// What a selector picks.
#[tactic(auto, using(crate::proofs::Variants::variants))]
fn pick(
    scope: &Scope<Breach>,
    from: Elaborated<Denoted>,
    selector: &Selector,
) -> Result<Elaborated<Denoted>, AllocError>
    ensures { IfOk result (λ d. d ≡ (picks least selector.now).fixed scope.now from) }
{
    match selector {
        Selector::Field(at, name) => field_in(scope, *at, name, from),
        Selector::Index(at, _) => Ok(component_in(*at, from)),
    }
}

/// What selectors pick, one after another.
fn selection(
    scope: &Scope<Breach>,
    first: Elaborated<Denoted>,
    selectors: &[Selector],
) -> Result<Elaborated<Denoted>, AllocError>
    ensures { IfOk result (λ d. d ≡ fold (constant_pick_in scope.now) first selectors.now) }
{
    let mut denoted = first;
    for selector in selectors {
        denoted = pick(scope, denoted, selector)?;
    }
    Ok(denoted)
}

/// What a designator stands for.
#[tactic(auto, using(crate::proofs::Variants::variants))]
pub fn denotation(
    scope: &Scope<Breach>,
    designator: &Designator,
) -> Result<Elaborated<Denoted>, AllocError>
    ensures { IfOk result (λ d. d ≡ (head least designator.now).fixed.denotes scope.now) }
{
    let first = first_name(scope, &designator.name)?;
    selection(scope, first, designator.selectors.as_slice())
}
