//! Characters one after another.

ghost use Rattle.std.specs.Prelude.{◌≡◌, ◌++◌, [], length, IfOk, OnOk};

use std::alloc::{AllocError, Global};
use std::marker::Model;
use tree_parts::Items;

/// Characters that more are appended to. Contracts see their list.
#[derive(Drop)]
pub struct Characters {
    bytes: Vec<u8>,
}

impl Model for Characters {
    ghost use Rattle.std.specs.Prelude.{ℕ, List};

    ghost Value = { List ℕ };

    ghost view = { λ c. c.bytes.items };
}

impl Characters {
    /// No characters, and room for this many. The only error is that memory ran out.
    pub fn with_capacity(alloc: Global, capacity: usize) -> Result<Characters, AllocError>
        ensures { IfOk result (λ c. c ≡ []) }
    {
        let bytes = Vec::with_capacity(alloc, capacity)?;
        Ok(Characters { bytes })
    }

    /// How many there are.
    pub fn len(&self) -> usize
        ensures { result ≡ length self.now }
    {
        self.bytes.len()
    }

    /// Appends the characters of a text. The only error is that memory ran out.
    pub fn push_text(&mut self, text: &[u8]) -> Result<(), AllocError>
        ensures { OnOk result (self.new ≡ self.old ++ text.now) }
    {
        self.bytes.extend_from_slice(text)
    }

    /// The characters.
    pub fn into_items(self) -> Items<u8>
        ensures { result ≡ self }
    {
        let Characters { bytes } = self;
        Items::from_vec(bytes)
    }
}
