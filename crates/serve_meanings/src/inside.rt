//! The names of a block, as the checker knows them behind the block's declarations.

use crate::tables::{Tables, Tree, number_of};
use check_block::{declare_block, declare_module, enter, procedure_ends};
use check_body::{implementation_scope, procedure_named};
use check_definition::{first_scope, modules_of};
use check_scope::{Known, Origin, Scope};
use m2_rule::Breach;
use m2_tree::{Block, Contents, Decl, Def, Heading, Module, Pos};
use std::alloc::{AllocError, Global};
use tree_parts::{Items, Shared};
use typed_tree::{Meaning, Table, TypeNo};

/// More names than a block has: a heading of a definition is looked at from its end.
const ALL_NAMES: usize = usize::MAX;

/// What is known in a block.
#[derive(Drop)]
pub struct Inside {
    pub scope: Scope<Breach>,
    /// The procedure type of the procedure whose block it is.
    pub heading: Option<TypeNo>,
    /// How many of the block's variables are its formals.
    pub formals: usize,
}

/// The scope in which the block of a module begins: with all that its definition declares, if it has one.
fn scope_of(
    alloc: Global,
    number: u32,
    own: Option<&Table>,
    tables: Items<Shared<Table>>,
) -> Result<Scope<Breach>, AllocError> {
    match own {
        Some(table) => implementation_scope(alloc, table, tables),
        None => first_scope(alloc, number, tables),
    }
}

/// The table of a module's own definition.
fn own_table<'a>(tables: &'a Tables, job: usize, module: &Module) -> Option<&'a Table> {
    match &module.contents {
        Contents::Definition(_) => tables.table(job),
        Contents::Implementation(_) => {
            let definition = *tables.graph.jobs().get(job)?.first()?;
            tables.table(definition)
        }
        Contents::Program(_) => None,
    }
}

/// The jobs of the definitions that a module imports. That of its own definition comes first among what an implementation needs.
fn imported<'a>(needs: &'a [usize], module: &Module) -> &'a [usize] {
    match (&module.contents, needs) {
        (Contents::Implementation(_), [_own, imports @ ..]) => imports,
        _ => needs,
    }
}

/// Declares what a module declares. For each declaration how many names stand before it, or nothing if a rule is broken.
fn declared(
    alloc: Global,
    scope: &mut Scope<Breach>,
    ends: &[usize],
    module: &Module,
    block: &Block,
) -> Result<Option<Items<usize>>, AllocError> {
    let modules = modules_of(alloc, scope.tables.as_slice())?;
    let (reported, seen) = declare_module(
        alloc,
        scope,
        &modules,
        ends,
        module,
        block.decls.as_slice(),
    )?;
    Ok(if reported.is_ok() { Some(seen) } else { None })
}

/// The procedure of a block whose name stands at a place, and the place of its declaration in the list.
fn procedure_at(decls: &[Decl], at: Pos) -> Option<(usize, &Heading, &Block)> {
    for (place, decl) in decls.iter().enumerate() {
        if let Decl::Procedure(heading, block) = decl {
            if heading.name.pos == at {
                return Some((place, heading, block.get()));
            }
        }
    }
    None
}

/// The heading in a definition whose name stands at a place.
fn heading_at(defs: &[Def], at: Pos) -> Option<&Heading> {
    for def in defs {
        if let Def::Procedure(heading) = def {
            if heading.name.pos == at {
                return Some(heading);
            }
        }
    }
    None
}

/// A block with its declarations, and how many names stand before each.
#[derive(Clone, Copy)]
struct Around<'a> {
    ends: &'a [usize],
    decls: &'a [Decl],
    seen: &'a [usize],
}

impl Inside {
    /// What a name of the block means that is declared in it.
    pub fn meaning(&self, name: &[u8]) -> Option<&Meaning> {
        match self.scope.own.find(name) {
            Some(Known::Declared(Origin::Here, Ok(meaning))) => Some(meaning),
            _ => None,
        }
    }

    /// The procedure type of a procedure that is declared in the block.
    fn heading_of(&self, heading: &Heading) -> Option<TypeNo> {
        match procedure_named(&self.scope, &heading.name) {
            Some(procedure) => Some(procedure.heading),
            None => match self.meaning(heading.name.name.as_bytes()) {
                Some(Meaning::Procedure(procedure)) => Some(procedure.heading),
                _ => None,
            },
        }
    }

    /// Goes behind a heading, before which so many names of the block stand.
    fn enter_heading(
        &mut self,
        alloc: Global,
        before: usize,
        heading: &Heading,
    ) -> Result<(), AllocError> {
        self.heading = self.heading_of(heading);
        drop(enter(alloc, &mut self.scope, before, heading)?);
        self.formals = self.scope.variables.len();
        Ok(())
    }

    /// Goes into the procedure of a heading. For each declaration there how many names stand before it, or nothing if a rule is broken.
    fn enter(
        &mut self,
        alloc: Global,
        ends: &[usize],
        before: usize,
        heading: &Heading,
        block: &Block,
    ) -> Result<Option<Items<usize>>, AllocError> {
        self.enter_heading(alloc, before, heading)?;
        let decls = block.decls.as_slice();
        let (reported, seen) = declare_block(alloc, &mut self.scope, ends, Ok(()), 0, decls)?;
        Ok(if reported.is_ok() { Some(seen) } else { None })
    }

    /// Goes into procedures, each in the block of the one before. Whether all are there, and no rule is broken.
    fn go(
        &mut self,
        alloc: Global,
        around: Around<'_>,
        procedures: &[Pos],
    ) -> Result<bool, AllocError> {
        match procedures {
            [] => Ok(true),
            [at, inner @ ..] => {
                let Some((place, heading, block)) = procedure_at(around.decls, *at) else {
                    return Ok(false);
                };
                let before = around.seen.get(place).map_or(0, |it| *it);
                let Some(seen) = self.enter(alloc, around.ends, before, heading, block)? else {
                    return Ok(false);
                };
                let next = Around {
                    ends: around.ends,
                    decls: block.decls.as_slice(),
                    seen: seen.as_slice(),
                };
                self.go(alloc, next, inner)
            }
        }
    }

    /// Goes behind the heading of a procedure in a definition, which has no others in it.
    fn go_in_definition(
        &mut self,
        alloc: Global,
        defs: &[Def],
        procedures: &[Pos],
    ) -> Result<bool, AllocError> {
        match procedures {
            [] => Ok(true),
            [at] => {
                let Some(heading) = heading_at(defs, *at) else {
                    return Ok(false);
                };
                self.enter_heading(alloc, ALL_NAMES, heading)?;
                Ok(true)
            }
            [_, _, ..] => Ok(false),
        }
    }

    /// Goes from where the block of a module begins into procedures in it.
    fn go_in_block(
        &mut self,
        alloc: Global,
        module: &Module,
        block: &Block,
        procedures: &[Pos],
    ) -> Result<bool, AllocError> {
        let decls = block.decls.as_slice();
        let ends = procedure_ends(alloc, decls)?;
        let ends = ends.as_slice();
        let Some(seen) = declared(alloc, &mut self.scope, ends, module, block)? else {
            return Ok(false);
        };
        let around = Around {
            ends,
            decls,
            seen: seen.as_slice(),
        };
        self.go(alloc, around, procedures)
    }

    /// What is known in the block of the innermost of these procedures of a file, given by the places of their names, the outermost
    /// first; of none in the module's block. Nothing if one is not there, or if a declaration breaks a rule. The only error is want of
    /// memory.
    pub fn of(
        alloc: Global,
        tables: &Tables,
        trees: &[Tree<'_>],
        file: usize,
        procedures: &[Pos],
    ) -> Result<Option<Inside>, AllocError> {
        let (Some(tree), Some(job)) = (trees.get(file), tables.job_of(file)) else {
            return Ok(None);
        };
        let module = tree.1;
        let own = own_table(tables, job, module);
        let imports = tables.around(alloc, imported(tables.needs(job), module))?;
        let scope = scope_of(alloc, number_of(job), own, imports)?;
        let mut inside = Inside {
            scope,
            heading: None,
            formals: 0,
        };
        let is_there = match &module.contents {
            Contents::Definition(defs) => {
                inside.go_in_definition(alloc, defs.as_slice(), procedures)?
            }
            Contents::Implementation(block) | Contents::Program(block) => {
                inside.go_in_block(alloc, module, block, procedures)?
            }
        };
        Ok(if is_there { Some(inside) } else { None })
    }
}
