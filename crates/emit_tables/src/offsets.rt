//! Where the texts of each procedure begin.

ghost use Rattle.std.specs.Prelude.{◌≡◌, ◌<◌, None, length, replicate, slice_get, IfOk, OnSome};
ghost use Rattle.emit_tables.specs.Offsets.{note_place, noted_which, or_else, noted_or, no_offsets};

use std::alloc::{AllocError, Global};
use tree_parts::Items;
use typed_tree::{TypedModule, Which};

/// Where the texts of procedures begin, as far as it is known.
#[derive(Drop)]
pub struct Offsets {
    pub procedures: Items<Option<usize>>,
    pub locals: Items<Option<usize>>,
}

/// A table in which nothing is known.
fn empty_table(alloc: Global, length: usize) -> Result<Items<Option<usize>>, AllocError>
    ensures { IfOk result (λ table. table ≡ replicate length None) }
{
    let mut table = Items::new(alloc);
    for _ in 0..length {
        table.push(None)?;
    }
    Ok(table)
}

/// What a table has at a number, if it reaches so far.
fn entry(table: &Items<Option<usize>>, number: usize) -> Option<Option<usize>>
    ensures value { result ≡ slice_get table.now number }
    ensures within { OnSome result (number < length table.now) }
{
    table.get(number).copied()
}

/// Notes where the texts of a procedure begin, if it is not known yet.
fn note(table: &mut Items<Option<usize>>, number: usize, at: usize)
    ensures { table.new ≡ note_place table.old number at }
{
    match entry(table, number) {
        None => {}
        Some(known) => match known {
            Some(_) => {}
            None => table.set(number, Some(at)),
        },
    }
}

fn or_else(found: Option<Option<usize>>, at: usize) -> usize
    ensures { result ≡ or_else found at }
{
    match found {
        None => at,
        Some(known) => match known {
            None => at,
            Some(begin) => begin,
        },
    }
}

impl Offsets {
    /// Nothing is known of the procedures of a module.
    pub fn new(alloc: Global, module_body: &TypedModule) -> Result<Offsets, AllocError>
        ensures { IfOk result (λ x. x ≡ no_offsets module_body.now) }
    {
        Ok(Offsets {
            procedures: empty_table(alloc, module_body.procedures.len())?,
            locals: empty_table(alloc, module_body.locals.len())?,
        })
    }

    /// Notes where the texts of a procedure begin, if it is not known yet.
    pub fn note(&mut self, which: Which, at: usize)
        ensures { self.new ≡ noted_which self.old which at }
    {
        match which {
            Which::Module(number) => note(&mut self.procedures, number, at),
            Which::Local(number) => note(&mut self.locals, number, at),
        }
    }

    /// Where the texts of a procedure begin, and if it is not known, this number.
    pub fn noted_or(&self, which: Which, at: usize) -> usize
        ensures { result ≡ noted_or self.now which at }
    {
        match which {
            Which::Module(number) => or_else(entry(&self.procedures, number), at),
            Which::Local(number) => or_else(entry(&self.locals, number), at),
        }
    }
}
