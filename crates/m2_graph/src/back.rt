//! Imports that lead back to a definition on a cycle.

ghost use Rattle.std.specs.Prelude.{◌≡◌, ◌<◌, ◌↔◌, ℕ, length, IfOk, OnOk, IsTrue};
ghost use Rattle.graph_walk.specs.Cycles.{HasCycleOrder};
ghost use Rattle.graph_walk.specs.Links.{Leads};
ghost use Rattle.graph_walk.specs.Turned.{IsTurned};
ghost use Rattle.m2_graph.specs.Imports.{imports_of, links, named_by};
ghost use Rattle.m2_graph.specs.Program.{modules_of, IsIndexed};
ghost use Rattle.m2_graph.specs.Reported.{LeadsBack, AreLeading, IsFirstBack, AreCycles};

use crate::program::{Program, definition_of};
use graph_walk::{first_on_cycle, is_marked, led_to};
use m2_tree::{Ident, Import, Module, Pos};
use std::alloc::{AllocError, Global};
use std::slice::from_ref;
use tree_parts::Items;

/// Whether an import leads back to a node. `leading` marks the nodes that lead to it.
fn leads_back(program: &Program<'_>, leading: &[bool], node: usize, ident: &Ident) -> bool
    requires indexed { IsIndexed program.now }
    requires leading { AreLeading (modules_of program.now) node leading.now }
    ensures { IsTrue result ↔ LeadsBack (modules_of program.now) node ident.now }
{
    match definition_of(program, &ident.name) {
        None => false,
        Some(to) => to == node || is_marked(leading, to),
    }
}

/// The place of the first of these imports that leads back to a node.
fn back_in_names(
    program: &Program<'_>,
    leading: &[bool],
    node: usize,
    names: &[Ident],
) -> Option<Pos>
    requires indexed { IsIndexed program.now }
    requires leading { AreLeading (modules_of program.now) node leading.now }
    ensures { IsFirstBack (modules_of program.now) node names.now result }
{
    for ident in names {
        if leads_back(program, leading, node, ident) {
            return Some(ident.pos);
        }
    }
    None
}

fn back_in_import(
    program: &Program<'_>,
    leading: &[bool],
    node: usize,
    import: &Import,
) -> Option<Pos>
    requires indexed { IsIndexed program.now }
    requires leading { AreLeading (modules_of program.now) node leading.now }
    ensures { IsFirstBack (modules_of program.now) node (named_by import.now.from import.now.names)
        result }
{
    match &import.from {
        Some(from) => back_in_names(program, leading, node, from_ref(from)),
        None => back_in_names(program, leading, node, import.names.as_slice()),
    }
}

/// The place of a module's first import that leads back to a node. `leading` marks the nodes that lead to it.
pub fn back_in(program: &Program<'_>, leading: &[bool], node: usize, tree: &Module) -> Option<Pos>
    requires indexed { IsIndexed program.now }
    requires leading { AreLeading (modules_of program.now) node leading.now }
    ensures { IsFirstBack (modules_of program.now) node (imports_of tree.now) result }
{
    let imports = tree.imports.as_slice();
    for import in imports {
        match back_in_import(program, leading, node, import) {
            None => {}
            Some(pos) => return Some(pos),
        }
    }
    None
}

/// What is reported of the first definition on a cycle.
fn reported_cycle(
    alloc: Global,
    program: &Program<'_>,
    pairs: &[Items<usize>],
    back: &[Items<usize>],
    node: usize,
) -> Result<Option<(usize, Pos)>, AllocError>
    requires indexed { IsIndexed program.now }
    requires links { pairs.now ≡ links (modules_of program.now) }
    requires turned { IsTurned pairs.now back.now }
    requires within { node < length program.now.modules.now }
    requires on_cycle { Leads pairs.now node node }
    requires first { (other : ℕ) → other < node → ¬ Leads pairs.now other other }
    ensures { IfOk result (λ cycle. AreCycles (modules_of program.now) cycle) }
{
    let leading = led_to(alloc, back, node)?;
    let tree = program.modules[node];
    match back_in(program, &leading, node, tree) {
        None => Ok(None),
        Some(pos) => Ok(Some((node, pos))),
    }
}

/// What is reported of cycles. `pairs` has for each module the definitions that it imports, and `back` the same the other way
/// round.
pub fn cycle_of(
    alloc: Global,
    program: &Program<'_>,
    pairs: &[Items<usize>],
    back: &[Items<usize>],
) -> Result<Option<(usize, Pos)>, AllocError>
    requires indexed { IsIndexed program.now }
    requires links { pairs.now ≡ links (modules_of program.now) }
    requires turned { IsTurned pairs.now back.now }
    ensures cycles { IfOk result (λ cycle. AreCycles (modules_of program.now) cycle) }
    ensures order { OnOk result (HasCycleOrder pairs.now) }
{
    let first = first_on_cycle(alloc, pairs, back)?;
    match first {
        None => Ok(None),
        Some(node) => {
            let cycle = reported_cycle(alloc, program, pairs, back, node)?;
            Ok(cycle)
        }
    }
}
