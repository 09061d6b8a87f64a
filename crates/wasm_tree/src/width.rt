//! Numbers in 32 bits.

ghost use Rattle.std.specs.Prelude.{◌≡◌, ◌≢◌, ◌+◌, ◌<◌, ◌≤◌, ◌^◌, ℕ, IfOk, Err};

use crate::encode::EncodeError;

/// The sum. `NoEncoding` if it does not fit into 32 bits.
pub fn plus(first: u32, second: u32) -> Result<u32, EncodeError>
    ensures sum { IfOk result (λ n. n ≡ first + second) }
    ensures unfit { result ≡ Err EncodeError.NoEncoding → 2 ^ 32 ≤ first + second }
    ensures memory { result ≢ Err EncodeError.NoMemory }
{
    match first.checked_add(second) {
        None => Err(EncodeError::NoEncoding),
        Some(n) => Ok(n),
    }
}

/// The number in 32 bits. `NoEncoding` if it does not fit.
pub fn small(n: usize) -> Result<u32, EncodeError>
    ensures same { IfOk result (λ k. k ≡ n) }
    ensures unfit { result ≡ Err EncodeError.NoEncoding → 2 ^ 32 ≤ n }
    ensures memory { result ≢ Err EncodeError.NoMemory }
{
    match u32::try_from(n) {
        Ok(k) => Ok(k),
        Err(_) => Err(EncodeError::NoEncoding),
    }
}
