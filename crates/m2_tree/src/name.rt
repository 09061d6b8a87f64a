//! Names.

ghost use Rattle.std.specs.Prelude.{◌≡◌, ◌≤◌, length, nat_eq, IfOk};
ghost use Rattle.std.specs.Cmp.Lexicographic.{pointwise};
ghost use Rattle.std.specs.Cmp.Rules.{comparing};
ghost use Rattle.std.proofs.Common.{rules};
ghost use Rattle.m2_tree.specs.Limits.{max_name};
ghost use Rattle.m2_tree.specs.Names.{is_console};

use crate::bytes::Bytes;
use crate::pos::Pos;
use std::alloc::{AllocError, Global};
use std::marker::Model;

/// The bytes of the longest name.
pub const MAX_NAME: usize = 64;

/// A name of at most 64 bytes. Contracts see it as the list of its bytes.
#[derive(Drop)]
pub struct Name {
    bytes: Bytes,
}

impl Model for Name {
    ghost use Rattle.std.specs.Prelude.{◌≤◌, ℕ, List, length};
    ghost use Rattle.m2_tree.specs.Limits.{max_name};

    ghost Value = { List ℕ };

    ghost view = { λ n. n.bytes };

    ghost invariant = { λ n. length n.bytes ≤ max_name };
}

impl Name {
    /// The name of these bytes. The only error is that memory ran out.
    pub fn new(alloc: Global, text: &[u8]) -> Result<Name, AllocError>
        requires { length text.now ≤ max_name }
        ensures { IfOk result (λ name. name ≡ text.now) }
    {
        let bytes = Bytes::new(alloc, text)?;
        Ok(Name { bytes })
    }

    /// The bytes of the name.
    pub fn as_bytes(&self) -> &[u8]
        ensures value { result.now ≡ self.now }
        ensures short { length result.now ≤ max_name }
    {
        self.bytes.as_slice()
    }
}

impl Clone for Name {
    ghost is_clone = { λ name copy. copy ≡ name };

    fn clone(&self) -> Result<Name, AllocError> {
        let bytes = self.bytes.clone()?;
        Ok(Name { bytes })
    }
}

impl PartialEq for Name {
    ghost eq = { pointwise nat_eq };

    ghost laws = { Prim.search (comparing, rules) };

    fn eq(&self, other: &Name) -> bool {
        self.as_bytes() == other.as_bytes()
    }
}

impl Eq for Name {
    ghost laws = { Prim.search (comparing, rules) };
}

/// Whether this is the name of the built in module.
pub fn is_console(name: &[u8]) -> bool
    ensures { result ≡ is_console name.now }
{
    name == b"Console".as_slice()
}

/// A name where it is written.
#[derive(Clone, PartialEq, Eq, Drop)]
pub struct Ident {
    /// The name.
    pub name: Name,
    /// The place of its first letter.
    pub pos: Pos,
}
