//! Sizes in 32 bits: a size that does not fit is kept as the greatest that does.

ghost use Rattle.std.specs.Prelude.{◌≡◌, ◌+◌, ◌*◌};
ghost use Rattle.layout_storage.specs.Capped.{cap_size};

/// The size in 32 bits.
pub fn cap_size(n: u64) -> u32
    ensures { result ≡ cap_size n }
{
    n.min(4_294_967_295) as u32
}

/// The size of two parts together.
pub fn sum(first: u32, second: u32) -> u32
    ensures { result ≡ cap_size (first + second) }
{
    cap_size(u64::from(first) + u64::from(second))
}

/// The size of `count` parts of one size.
pub fn product(count: u32, part: u32) -> u32
    ensures { result ≡ cap_size (count * part) }
{
    match count.checked_mul(part) {
        None => 4_294_967_295,
        Some(all) => all,
    }
}
