//! The constants of enumerations, by name.

use crate::tables::Tables;
use check_scope::{Known, Origin, Scope};
use m2_rule::Breach;
use typed_tree::{Dictionary, Home, Meaning, TypeNo, Value, are_same};

/// Where names are looked for.
#[derive(Clone, Copy)]
pub struct Names<'a> {
    pub tables: &'a Tables,
    pub scope: &'a Scope<Breach>,
}

/// Whether a name means the constant of this number of a type.
fn is_constant(meaning: &Meaning, base: TypeNo, number: i64) -> bool {
    match meaning {
        Meaning::Constant(Value::Scalar(scalar)) => {
            scalar.number == number && are_same(scalar.of, base)
        }
        _ => false,
    }
}

/// The first name of a block that means the constant. Names that are given to it later stand behind it.
fn name_in(names: &Dictionary<Known<Breach>>, base: TypeNo, number: i64) -> Option<&[u8]> {
    for place in 0..names.len() {
        if let Some((name, Known::Declared(Origin::Here, Ok(meaning)))) = names.get(place) {
            if is_constant(meaning, base, number) {
                return Some(name);
            }
        }
    }
    None
}

/// The first name that a definition exports for the constant.
fn name_exported(names: &Dictionary<Meaning>, base: TypeNo, number: i64) -> Option<&[u8]> {
    for place in 0..names.len() {
        if let Some((name, meaning)) = names.get(place) {
            if is_constant(meaning, base, number) {
                return Some(name);
            }
        }
    }
    None
}

impl<'a> Names<'a> {
    /// The name in the blocks of the module itself, from the outermost on.
    fn name_here(&self, base: TypeNo, number: i64) -> Option<&'a [u8]> {
        for block in self.scope.outer.as_slice() {
            let found = name_in(&block.names, base, number);
            if found.is_some() {
                return found;
            }
        }
        name_in(&self.scope.own, base, number)
    }

    /// The name in the definition of the module of this number.
    fn name_there(&self, home: u32, base: TypeNo, number: i64) -> Option<&'a [u8]> {
        let job = usize::try_from(home).ok()?;
        name_exported(&self.tables.table(job)?.exported, base, number)
    }

    /// The name of the constant of an enumeration by its type and its number, from 0.
    pub fn name_of(&self, base: TypeNo, number: i64) -> Option<&'a [u8]> {
        match base.home {
            Home::Predeclared => None,
            Home::Module(home) if home == self.scope.types.home => self.name_here(base, number),
            Home::Module(home) => self.name_there(home, base, number),
        }
    }
}
