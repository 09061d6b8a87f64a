//! Numbers in groups of seven bits (Core 1.0, section 5.2.2), in their shortest encoding alone.

ghost use Rattle.std.specs.Prelude.{◌≡◌, ◌+◌, ◌*◌, ◌%◌, ◌<◌, ◌≤◌, ◌^◌, ◌-◌, ◌/◌, ◌≢◌, IfOk, Err, length};
ghost use Rattle.wasm_tree.specs.Format.{Format, Gives};
ghost use Rattle.wasm_code.specs.Number.{unsigned, groups_at, join_groups, signed32, signed64, signed_groups_at, signed_joined};

use wasm_tree::WFault;

fn join_groups(low: u8, high: u32, rest: &[u8]) -> Result<(u32, &[u8]), WFault>
    ensures gives { Gives (λ x. (x.0, x.1.now)) result (join_groups low high rest.now) }
    ensures memory { result ≢ Err WFault.NoMemory }
    ensures shorter { IfOk result (λ x. length x.1.now ≤ length rest.now) }
{
    if high == 0 {
        return Err(WFault::Malformed);
    }
    let number = u64::from(low) + 128 * u64::from(high);
    match u32::try_from(number) {
        Ok(number) => Ok((number, rest)),
        Err(_) => Err(WFault::Malformed),
    }
}

#[tactic(auto, unfolding(crate::specs::Number::groups_at))]
fn groups_at(most: u8, bytes: &[u8]) -> Result<(u32, &[u8]), WFault>
    ensures gives { Gives (λ x. (x.0, x.1.now)) result (groups_at most bytes.now) }
    ensures memory { result ≢ Err WFault.NoMemory }
    ensures shorter { IfOk result (λ x. length x.1.now ≤ length bytes.now) }
{
    if most == 0 {
        return Err(WFault::Malformed);
    }
    match bytes {
        [] => Err(WFault::Malformed),
        [byte, rest @ ..] if *byte < 128 => Ok((u32::from(*byte), rest)),
        [byte, rest @ ..] => {
            let (high, rest) = groups_at(most - 1, rest)?;
            join_groups(byte - 128, high, rest)
        }
    }
}

/// The number below 2^32 at the front, and the bytes behind it. `Malformed` if there is none, or in a longer encoding.
#[inline(always)]
#[tactic(auto, unfolding(crate::specs::Number::groups_at))]
pub fn unsigned_at(bytes: &[u8]) -> Result<(u32, &[u8]), WFault>
    ensures gives { Gives (λ x. (x.0, x.1.now)) result (unsigned.reading bytes.now) }
    ensures memory { result ≢ Err WFault.NoMemory }
    ensures shorter { IfOk result (λ x. length x.1.now ≤ length bytes.now) }
{
    match bytes {
        [byte, rest @ ..] if *byte < 128 => Ok((u32::from(*byte), rest)),
        _ => groups_at(5, bytes),
    }
}

fn signed_joined(top: u64, low: u8, high: u64, rest: &[u8]) -> Result<(u64, &[u8]), WFault>
    requires wide { top % 256 ≡ 255 }
    requires low { low < 128 }
    requires high { high ≤ top }
    ensures gives { Gives (λ x. (x.0, x.1.now)) result (signed_joined top low high rest.now) }
    ensures memory { result ≢ Err WFault.NoMemory }
    ensures within { IfOk result (λ x. x.0 ≤ top) }
{
    if high <= top / 256 {
        let number = u64::from(low) + 128 * high;
        if number < 64 {
            return Err(WFault::Malformed);
        }
        return Ok((number, rest));
    }
    if high < top - top / 256 {
        return Err(WFault::Malformed);
    }
    let number = u64::from(low) + 128 * (high - (top - top / 128));
    if top - 64 < number {
        return Err(WFault::Malformed);
    }
    Ok((number, rest))
}

#[tactic(auto, unfolding(crate::specs::Number::signed_groups_at))]
fn signed_at(most: u8, top: u64, bytes: &[u8]) -> Result<(u64, &[u8]), WFault>
    requires { top % 256 ≡ 255 }
    ensures gives { Gives (λ x. (x.0, x.1.now)) result (signed_groups_at most top bytes.now) }
    ensures memory { result ≢ Err WFault.NoMemory }
    ensures within { IfOk result (λ x. x.0 ≤ top) }
{
    if most == 0 {
        return Err(WFault::Malformed);
    }
    match bytes {
        [] => Err(WFault::Malformed),
        [byte, rest @ ..] if *byte < 64 => Ok((u64::from(*byte), rest)),
        [byte, rest @ ..] if *byte < 128 => Ok((u64::from(*byte) + (top - 127), rest)),
        [byte, rest @ ..] => {
            let (high, rest) = signed_at(most - 1, top, rest)?;
            signed_joined(top, byte - 128, high, rest)
        }
    }
}

/// The signed number of 32 bits at the front, as its bits, and the bytes behind it. `Malformed` if there is none.
#[inline(always)]
#[tactic(auto, unfolding(crate::specs::Number::signed_groups_at))]
pub fn signed32_at(bytes: &[u8]) -> Result<(u32, &[u8]), WFault>
    ensures gives { Gives (λ x. (x.0, x.1.now)) result (signed32.reading bytes.now) }
    ensures memory { result ≢ Err WFault.NoMemory }
{
    match bytes {
        [byte, rest @ ..] if *byte < 64 => Ok((u32::from(*byte), rest)),
        _ => long_signed32_at(bytes),
    }
}

fn long_signed32_at(bytes: &[u8]) -> Result<(u32, &[u8]), WFault>
    ensures gives { Gives (λ x. (x.0, x.1.now)) result (signed32.reading bytes.now) }
    ensures memory { result ≢ Err WFault.NoMemory }
{
    let (bits, rest) = signed_at(5, u64::from(u32::MAX), bytes)?;
    Ok((bits as u32, rest))
}

/// The signed number of 64 bits at the front, as its bits, and the bytes behind it. `Malformed` if there is none.
#[inline(always)]
#[tactic(auto, unfolding(crate::specs::Number::signed_groups_at))]
pub fn signed64_at(bytes: &[u8]) -> Result<(u64, &[u8]), WFault>
    ensures gives { Gives (λ x. (x.0, x.1.now)) result (signed64.reading bytes.now) }
    ensures memory { result ≢ Err WFault.NoMemory }
{
    match bytes {
        [byte, rest @ ..] if *byte < 64 => Ok((u64::from(*byte), rest)),
        _ => signed_at(10, u64::MAX, bytes),
    }
}
