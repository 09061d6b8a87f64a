//! What becomes of a module.

ghost use Rattle.std.specs.Prelude.{◌≡◌, IfOk, OnOk, ◌++◌, map};
ghost use Rattle.std.specs.List.{list_all};
ghost use Rattle.build_jobs.specs.Compiling.{is_sound, table_in, tables_of};

use m2_emit::ModuleBytes;
use m2_rule::Breach;
use std::alloc::{AllocError, Global};
use tree_parts::{Items, Shared};
use typed_tree::Table;

/// What becomes of a module.
#[derive(Drop)]
pub enum Compiled {
    /// The table of a definition.
    Defined(Shared<Table>),
    /// The module of a body.
    Built(Shared<ModuleBytes>),
    /// The least rule that it breaks, or 60 if its storage is too large.
    Refused(Breach),
    /// One that it needs is refused or blocked.
    Blocked,
}

impl Compiled {
    /// The same once more.
    pub fn share(&self) -> Result<Compiled, AllocError>
        ensures { IfOk result (λ c. c ≡ self.now) }
    {
        match self {
            Compiled::Defined(table) => Ok(Compiled::Defined(table.share()?)),
            Compiled::Built(module) => Ok(Compiled::Built(module.share()?)),
            Compiled::Refused(broken) => Ok(Compiled::Refused(*broken)),
            Compiled::Blocked => Ok(Compiled::Blocked),
        }
    }
}

fn is_sound(compiled: &Compiled) -> bool
    ensures { result ≡ is_sound compiled.now }
{
    match compiled {
        Compiled::Defined(_) | Compiled::Built(_) => true,
        Compiled::Refused(_) | Compiled::Blocked => false,
    }
}

/// Whether none of these is refused or blocked.
pub fn are_sound(needed: &[&Compiled]) -> bool
    ensures { result ≡ list_all is_sound (map (λ c. c.now) needed.now) }
{
    for compiled in needed {
        if !is_sound(compiled) {
            return false;
        }
    }
    true
}

/// Adds the table of a definition.
fn add_table(tables: &mut Items<Shared<Table>>, compiled: &Compiled) -> Result<(), AllocError>
    ensures { OnOk result (tables.new ≡ tables.old ++ table_in compiled.now) }
{
    match compiled {
        Compiled::Defined(table) => tables.push(table.share()?),
        Compiled::Built(_) | Compiled::Refused(_) | Compiled::Blocked => Ok(()),
    }
}

/// The tables of definitions, in this order.
pub fn tables_of(alloc: Global, needed: &[&Compiled]) -> Result<Items<Shared<Table>>, AllocError>
    ensures { IfOk result (λ tables. tables ≡ tables_of (map (λ c. c.now) needed.now)) }
{
    let mut tables = Items::new(alloc);
    for compiled in needed {
        add_table(&mut tables, compiled)?;
    }
    Ok(tables)
}
