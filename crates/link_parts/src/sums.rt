//! Checksums.

ghost use Rattle.std.specs.Prelude.{◌≡◌, IfOk};
ghost use Rattle.std.specs.String.{string_bytes};
ghost use Rattle.link_parts.specs.Sums.{IsInterfaceSum, Says, sum_of};

use scan_tokens::{ScanError, scan};
use sha2::{Digest, Sha256};
use show_tokens::show_lexemes;
use std::alloc::{AllocError, Global};

/// The checksum of bytes: their SHA-256 in 64 hexadecimal digits. The only error is that memory ran out.
pub fn sum_of(alloc: Global, bytes: &[u8]) -> Result<String, AllocError>
    ensures { IfOk result (λ sum. string_bytes sum ≡ sum_of bytes.now) }
{
    hex::encode(alloc, Sha256::digest(bytes))
}

/// What the tokens of a text say, each in a line: nothing of blanks, of comments and of places. A text that breaks a rule of tokens
/// stands for itself. The only error is that memory ran out.
pub fn tokens_of(alloc: Global, text: &[u8]) -> Result<Vec<u8>, AllocError>
    ensures { IfOk result (λ bytes. Says text.now bytes.items) }
{
    match scan(alloc, text) {
        Ok(tokens) => show_lexemes(alloc, &tokens),
        Err(ScanError::Refused(_)) => Vec::from_slice(alloc, text),
        Err(ScanError::NoMemory) => Err(AllocError),
    }
}

/// The checksum of a definition: that of what its tokens say, so blanks and comments do not count. The only error is that memory ran
/// out.
pub fn interface_sum(alloc: Global, text: &[u8]) -> Result<String, AllocError>
    ensures { IfOk result (λ sum. IsInterfaceSum text.now (string_bytes sum)) }
{
    sum_of(alloc, &tokens_of(alloc, text)?)
}
