//! The table of a definition module: what it exports, with the types.
//!
//! [`compile_definition`] makes the [`Table`] of a definition from the tables of those that it imports, or answers the least
//! rule that the definition breaks. A [`TypeNo`] names a type by its module and its number there.
//!
//! The crates behind this one are internal. Users name this one and `m2_tree`.
#![tactic(auto)]

ghost use Rattle.std.specs.Prelude.{◌≡◌, List, IfOk};
ghost use Rattle.m2_tree.specs.declared.decl.Contents.TheVariants as contents;
ghost use Rattle.m2_tree.specs.declared.decl.Def.{Def};
ghost use Rattle.check_scope.specs.Elaborated.{least};
ghost use Rattle.check_definition.specs.Compiled.{definition_table};
ghost use Rattle.law_rules.specs.Ruled.{IsDefinitionRuled};

use check_scope::Elaborated;
use m2_tree::Module;
use std::alloc::{AllocError, Global};
use tree_parts::{Items, Shared};
pub use typed_tree::{Table, TypeNo};

/// The table of a definition, whose module has this number, from the tables of the definitions that it imports. It
/// answers the table if no rule is broken, and else the least rule that is, by place and then by number:
///
/// 30 a name that is not declared, 31 declared twice, 32 not exported, 33 a name of no type that may stand there, 34 no
/// constant, 35 an empty range, 36 an index type, 37 an enumeration of more than 256 constants, 38 a type of more than
/// 131072 cells, 40 an operand's type, 42 the number of arguments, 43 an argument's type, 52 a constant out of range. A
/// module whose table is not given is 20 at its name, and what is no definition module is 24. The only error is that
/// memory ran out.
pub fn compile_definition(
    alloc: Global,
    number: u32,
    tree: &Module,
    imports: Items<Shared<Table>>,
) -> Result<Elaborated<Table>, AllocError>
    ensures table { IfOk result (λ j. j ≡ definition_table least number tree.now imports) }
    ensures rules { (defs : List Def) → tree.now.contents ≡ contents.Definition defs
        → IsDefinitionRuled number tree.now imports defs }
{
    check_definition::compile_definition(alloc, number, tree, imports)
}
