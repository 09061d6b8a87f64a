//! Checksums of what is kept.

ghost use Rattle.std.specs.Prelude.{◌≡◌, IfOk};
ghost use Rattle.std.specs.String.{string_bytes};
ghost use Rattle.kept_modules.specs.Sums.{hash_of, short_sum, IsDefinitionSum};

use link_parts::tokens_of;
use std::alloc::{AllocError, Global};
use std::hash::{DefaultHasher, Hasher};

/// The SipHash-1-3 of bytes, with keys of zeros.
fn hash_of(bytes: &[u8]) -> u64
    ensures { result ≡ hash_of bytes.now }
{
    let mut hasher = DefaultHasher::new();
    hasher.write(bytes);
    hasher.finish()
}

/// The checksum of bytes: their SipHash-1-3 with keys of zeros, in 16 hexadecimal digits. It tells bytes that were cut or altered, but
/// not those that someone chose.
pub fn short_sum(alloc: Global, bytes: &[u8]) -> Result<String, AllocError>
    ensures { IfOk result (λ sum. string_bytes sum ≡ short_sum bytes.now) }
{
    hex::encode(alloc, hash_of(bytes).to_be_bytes())
}

/// The checksum of a definition: that of what its tokens say, so blanks and comments do not count. The only error is that memory ran
/// out.
pub fn definition_sum(alloc: Global, text: &[u8]) -> Result<String, AllocError>
    ensures { IfOk result (λ sum. IsDefinitionSum text.now (string_bytes sum)) }
{
    short_sum(alloc, &tokens_of(alloc, text)?)
}
