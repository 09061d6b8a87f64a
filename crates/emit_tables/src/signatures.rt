//! The types of functions of a module, and their numbers.

ghost use Rattle.std.specs.Prelude.{◌≡◌, IfOk, map};
ghost use Rattle.def_scheme.specs.Signatures.{number_of};
ghost use Rattle.def_scheme.specs.Modules.{signatures};
ghost use Rattle.emit_tables.specs.Seen.{meaning_of};

use crate::marks::Mark;
use crate::signature::{Numbers, Signature};
use crate::steps::module_marks;
use crate::table::{Table, table_of};
use std::alloc::{AllocError, Global};
use std::marker::Model;
use tree_parts::Items;
use typed_tree::TypedModule;

/// The signatures that a module needs, in order of their numbers. Contracts see the list.
#[derive(Drop)]
pub struct Signatures {
    list: Items<Signature>,
    numbers: Items<Numbers>,
}

impl Model for Signatures {
    ghost use Rattle.std.specs.Prelude.{List, map};
    ghost use Rattle.def_scheme.specs.Signatures.{Signature};
    ghost use Rattle.emit_tables.specs.Seen.{meaning_of};
    ghost use Rattle.emit_tables.specs.Numbered.{AreNumbers};

    ghost Value = { List Signature };

    ghost view = { λ s. map meaning_of s.list };

    ghost invariant = { λ s. AreNumbers s.list s.numbers };
}

impl Signatures {
    /// The list.
    pub fn list(&self) -> &[Signature]
        ensures { map meaning_of result.now ≡ self.now }
    {
        self.list.as_slice()
    }

    /// The number of the type of functions with this many arguments, and with a result or without.
    pub fn number(&self, arguments: usize, has_result: bool) -> usize
        ensures { result ≡ number_of self.now arguments has_result }
    {
        if arguments == 0 && !has_result {
            return 5;
        }
        match self.numbers.get(arguments) {
            None => 6,
            Some(row) if has_result => row.giving,
            Some(row) => row.without,
        }
    }
}

/// The types of functions that a module needs. The only error is that memory ran out.
#[tactic(auto, using(crate::proofs::Places::module_list, crate::proofs::Places::module_numbers))]
pub fn signatures_of(alloc: Global, module_body: &TypedModule) -> Result<Signatures, AllocError>
    ensures { IfOk result (λ s. s ≡ signatures module_body.now) }
{
    let mut marks = Vec::new(alloc);
    marks.push(Mark {
        without: false,
        giving: false,
    })?;
    module_marks(module_body, &mut marks)?;
    let Table { list, numbers } = table_of(alloc, marks.as_slice())?;
    Ok(Signatures { list, numbers })
}
