//! The checker of bodies, which are program modules and implementation modules.
//!
//! [`check`] makes the [`Typed`] module of a body from the tables of its own definition and of those that it imports, or
//! answers the least rule that the body breaks.
//!
//! The crates behind this one are internal. Users name this one, `m2_tree` and `m2_types`.
#![tactic(auto)]

ghost use Rattle.std.specs.Prelude.{◌≡◌, Some, IfOk};
ghost use Rattle.std.specs.Option.{option_copied};
ghost use Rattle.m2_tree.specs.declared.decl.Block.{Block};
ghost use Rattle.m2_tree.specs.declared.decl.Contents.TheVariants as contents;
ghost use Rattle.check_scope.specs.Elaborated.{least};
ghost use Rattle.check_body.specs.Checks.{body_module};
ghost use Rattle.law_rules.specs.Ruled.{IsTableOf, AreImported, IsProgramRuled, IsImplementationRuled};

use check_scope::Elaborated;
use m2_tree::Module;
use std::alloc::{AllocError, Global};
use tree_parts::{Items, Shared};
use typed_tree::Table;
pub use typed_tree::TypedModule as Typed;

/// Checks a program module or an implementation module, from the tables of the definitions that it
/// imports and, for an implementation, from the table of its own definition. It answers the module
/// if no rule is broken, with the one typed tree that the rules give, and else the least rule that
/// is broken, by place and then by number. The only error is that memory ran out.
pub fn check(
    alloc: Global,
    number: u32,
    tree: &Module,
    own: Option<&Table>,
    imports: Items<Shared<Table>>,
) -> Result<Elaborated<Typed>, AllocError>
    ensures typed { IfOk result
        (λ j. j ≡ body_module least number tree.now (option_copied own.entry) imports) }
    ensures programs { (b : Block) → tree.now.contents ≡ contents.Program b
        → AreImported number imports → IsProgramRuled number tree.now imports b }
    ensures implementations { (t : Table) (b : Block) → option_copied own.entry ≡ Some t
        → tree.now.contents ≡ contents.Implementation b → IsTableOf least t.number t
        → AreImported t.number imports → IsImplementationRuled t tree.now imports b }
{
    check_body::check(alloc, number, tree, own, imports)
}
