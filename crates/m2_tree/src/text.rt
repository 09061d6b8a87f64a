//! The bytes of strings.

ghost use Rattle.std.specs.Prelude.{◌≡◌, IfOk, nat_eq};
ghost use Rattle.std.specs.Cmp.Lexicographic.{pointwise};
ghost use Rattle.std.specs.Cmp.Rules.{comparing};
ghost use Rattle.std.proofs.Common.{rules};

use crate::bytes::Bytes;
use std::alloc::{AllocError, Global};
use std::marker::Model;

/// The bytes between the quotes of a string. Contracts see it as their list.
#[derive(Drop)]
pub struct Quoted {
    bytes: Bytes,
}

impl Model for Quoted {
    ghost use Rattle.std.specs.Prelude.{ℕ, List};

    ghost Value = { List ℕ };

    ghost view = { λ q. q.bytes };
}

impl Quoted {
    /// A copy of these bytes. The only error is that memory ran out.
    pub fn new(alloc: Global, bytes: &[u8]) -> Result<Quoted, AllocError>
        ensures { IfOk result (λ quoted. quoted ≡ bytes.now) }
    {
        let bytes = Bytes::new(alloc, bytes)?;
        Ok(Quoted { bytes })
    }

    /// The bytes between the quotes.
    pub fn as_bytes(&self) -> &[u8]
        ensures { result.now ≡ self.now }
    {
        self.bytes.as_slice()
    }
}

impl Clone for Quoted {
    ghost is_clone = { λ quoted copy. copy ≡ quoted };

    fn clone(&self) -> Result<Quoted, AllocError> {
        let bytes = self.bytes.clone()?;
        Ok(Quoted { bytes })
    }
}

impl PartialEq for Quoted {
    ghost eq = { pointwise nat_eq };

    ghost laws = { Prim.search (comparing, rules) };

    fn eq(&self, other: &Quoted) -> bool {
        self.as_bytes() == other.as_bytes()
    }
}

impl Eq for Quoted {
    ghost laws = { Prim.search (comparing, rules) };
}
