//! The characters of the strings that a module keeps, and where the characters of each procedure begin.

ghost use Rattle.std.specs.Prelude.{◌≡◌, IfOk};
ghost use Rattle.emit_tables.specs.Offsets.{nothing_yet, gather_texts, offset_in, AreTexts};

use crate::body::{push_body, push_which};
use crate::characters::Characters;
use crate::offsets::Offsets;
use std::alloc::{AllocError, Global};
use typed_tree::{TypedModule, Which};

/// The characters of the texts of some procedures, and where the characters of each procedure begin.
#[derive(Drop)]
pub struct Gathering {
    pub characters: Characters,
    pub offsets: Offsets,
}

/// The texts of a module.
#[derive(Drop)]
pub struct ModuleTexts {
    /// Their characters, one after another.
    pub characters: Characters,
    pub offsets: Offsets,
    /// Where the texts of the module's own body begin.
    pub body: usize,
}

impl ModuleTexts {
    /// Where the texts of a procedure begin.
    pub fn offset_of(&self, which: Which) -> usize
        ensures { result ≡ offset_in self.now which }
    {
        self.offsets.noted_or(which, self.body)
    }
}

/// The texts of all procedures.
fn gather_texts(
    alloc: Global,
    module_body: &TypedModule,
    capacity: usize,
) -> Result<Gathering, AllocError>
    ensures { IfOk result (λ x. x ≡ gather_texts module_body.now) }
{
    let mut gathering = Gathering {
        characters: Characters::with_capacity(alloc, capacity)?,
        offsets: Offsets::new(alloc, module_body)?,
    };
    for which in module_body.order.as_slice() {
        let at = gathering.characters.len();
        gathering.offsets.note(*which, at);
        push_which(&mut gathering.characters, module_body, *which)?;
    }
    Ok(gathering)
}

/// The texts of a module. There is room for this many characters from the start. The only error is that memory ran
/// out.
pub fn module_texts(
    alloc: Global,
    module_body: &TypedModule,
    capacity: usize,
) -> Result<ModuleTexts, AllocError>
    ensures { IfOk result (AreTexts module_body.now) }
{
    let Gathering {
        mut characters,
        offsets,
    } = gather_texts(alloc, module_body, capacity)?;
    let body = characters.len();
    push_body(&mut characters, module_body.body.as_slice())?;
    Ok(ModuleTexts {
        characters,
        offsets,
        body,
    })
}
