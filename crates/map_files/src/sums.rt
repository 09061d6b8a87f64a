//! Checksums.

use sha2::{Digest, Sha256};
use std::alloc::{AllocError, Global};

/// The checksum of bytes: their SHA-256 in 64 hexadecimal digits. The only error is that memory ran out.
pub fn sum_of(alloc: Global, bytes: &[u8]) -> Result<String, AllocError> {
    hex::encode(alloc, Sha256::digest(bytes))
}
