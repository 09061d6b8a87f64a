//! Short lists of bytes.

ghost use Rattle.std.specs.Prelude.{◌≡◌, ◌≤◌, length, IfOk};

use std::alloc::{AllocError, Global};
use std::marker::Model;
use std::sync::Arc;

/// How many bytes a list holds without memory of its own.
const MAX_INLINE: usize = 14;

/// At most 14 bytes. Contracts see their list.
#[derive(Clone, Copy)]
struct Inline {
    len: u8,
    bytes: [u8; 14],
}

impl Model for Inline {
    ghost use Rattle.std.specs.Prelude.{◌≡◌, ◌≤◌, ◌-◌, ◌++◌, ℕ, List, length, take, replicate};
    ghost use Rattle.m2_tree.specs.InlineBytes.{fill_place, kept_whole};

    ghost Value = { List ℕ };

    ghost view = { λ n. take n.len n.bytes };

    ghost invariant = { λ n.
        (n.len ≤ 14) × (length n.bytes ≡ 14) × (n.bytes ≡ fill_place (take n.len n.bytes)) };

    ghost inverse = { λ list. record { len = length list; bytes = fill_place list } };

    ghost inverse_ok = { kept_whole };
}

impl Inline {
    fn new(list: &[u8]) -> Inline
        requires { length list.now ≤ 14 }
        ensures { result ≡ list.now }
    {
        let mut bytes = [0; 14];
        for (i, byte) in list.iter().enumerate() {
            bytes[i] = *byte;
        }
        Inline {
            len: list.len() as u8,
            bytes,
        }
    }

    fn as_slice(&self) -> &[u8]
        ensures { result.now ≡ self.now }
    {
        &self.bytes[..self.len as usize]
    }
}

/// Where the bytes of a list are kept.
#[derive(Drop)]
enum Place {
    Inline(Inline),
    Shared(Arc<Vec<u8>>),
}

/// A list of bytes that takes 16 bytes, and shares memory with its clones if it is longer than 14. Contracts see the
/// list.
pub(crate) struct Bytes {
    place: Place,
}

impl Model for Bytes {
    ghost use Rattle.std.specs.Prelude.{ℕ, List};

    ghost Value = { List ℕ };

    ghost use Rattle.m2_tree.specs.PlacedBytes.{bytes_at_place};

    ghost view = { λ b. bytes_at_place b.place };
}

impl Bytes {
    /// A copy of these bytes. The only error is that memory ran out.
    pub(crate) fn new(alloc: Global, list: &[u8]) -> Result<Bytes, AllocError>
        ensures { IfOk result (λ bytes. bytes ≡ list.now) }
    {
        if list.len() <= MAX_INLINE {
            return Ok(Bytes {
                place: Place::Inline(Inline::new(list)),
            });
        }
        let kept = Arc::new(alloc, Vec::from_slice(alloc, list)?)?;
        Ok(Bytes {
            place: Place::Shared(kept),
        })
    }

    /// The bytes.
    pub(crate) fn as_slice(&self) -> &[u8]
        ensures { result.now ≡ self.now }
    {
        match &self.place {
            Place::Inline(list) => list.as_slice(),
            Place::Shared(list) => list.as_slice(),
        }
    }
}

// Written by hand, so that proofs above take a drop as one call, and not as a case for each place.
impl Drop for Bytes {
    #[inline]
    fn drop(self) {
        let Bytes { place } = self;
        drop(place);
    }
}

impl Clone for Bytes {
    ghost is_clone = { λ bytes copy. copy ≡ bytes };

    fn clone(&self) -> Result<Bytes, AllocError> {
        match &self.place {
            Place::Inline(list) => Ok(Bytes {
                place: Place::Inline(*list),
            }),
            Place::Shared(list) => Ok(Bytes {
                place: Place::Shared(list.clone()?),
            }),
        }
    }
}
