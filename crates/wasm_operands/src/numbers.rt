//! What instructions make of numbers (Core 1.0, section 4.3).

ghost use Rattle.std.specs.Prelude.{◌≡◌, ◌⊎◌, length};
ghost use Rattle.std.specs.Int.{w32, w64};
ghost use Rattle.wasm_tree.specs.Numbers.{truth, compares, operation_result, extend_number, load_size, load_number};

use wasm_tree::{Load, Operation, Relation};

/// 1 if it holds, else 0.
#[inline(always)]
pub fn truth(holds: bool) -> u32
    ensures { result ≡ truth holds }
{
    if holds { 1 } else { 0 }
}

/// Whether two numbers of 32 bits compare so.
#[inline(always)]
pub fn compares_32(relation: Relation, n: u32, m: u32) -> bool
    ensures { result ≡ compares w32 relation n m }
{
    match relation {
        Relation::Eq => n == m,
        Relation::Ne => n != m,
        Relation::LtS => n.cast_signed() < m.cast_signed(),
        Relation::LtU => n < m,
        Relation::GtS => m.cast_signed() < n.cast_signed(),
        Relation::GtU => m < n,
        Relation::LeS => n.cast_signed() <= m.cast_signed(),
        Relation::LeU => n <= m,
        Relation::GeS => m.cast_signed() <= n.cast_signed(),
        Relation::GeU => m <= n,
    }
}

/// Whether two numbers of 64 bits compare so.
#[inline(always)]
pub fn compares_64(relation: Relation, n: u64, m: u64) -> bool
    ensures { result ≡ compares w64 relation n m }
{
    match relation {
        Relation::Eq => n == m,
        Relation::Ne => n != m,
        Relation::LtS => n.cast_signed() < m.cast_signed(),
        Relation::LtU => n < m,
        Relation::GtS => m.cast_signed() < n.cast_signed(),
        Relation::GtU => m < n,
        Relation::LeS => n.cast_signed() <= m.cast_signed(),
        Relation::LeU => n <= m,
        Relation::GeS => m.cast_signed() <= n.cast_signed(),
        Relation::GeU => m <= n,
    }
}

fn divided_signed(n: u64, m: u64) -> Option<u64>
    ensures { result ≡ operation_result Operation.DivS n m }
{
    if m == 0 || (n == 1 << 63 && m == u64::MAX) {
        return None;
    }
    Some((n.cast_signed() / m.cast_signed()).cast_unsigned())
}

fn remainder_signed(n: u64, m: u64) -> Option<u64>
    ensures { result ≡ operation_result Operation.RemS n m }
{
    if m == 0 {
        return None;
    }
    Some(
        n.cast_signed()
            .wrapping_rem(m.cast_signed())
            .cast_unsigned(),
    )
}

fn division_of(operation: Operation, n: u64, m: u64) -> Option<u64>
    requires { (operation ≡ Operation.DivU) ⊎ (operation ≡ Operation.RemU) }
    ensures { result ≡ operation_result operation n m }
{
    if m == 0 {
        return None;
    }
    match operation {
        Operation::DivU => Some(n / m),
        _ => Some(n % m),
    }
}

/// What is made of two numbers of 64 bits, or nothing if it is not defined.
#[inline(always)]
pub fn operation_result(operation: Operation, n: u64, m: u64) -> Option<u64>
    ensures { result ≡ operation_result operation n m }
{
    match operation {
        Operation::Add => Some(n.wrapping_add(m)),
        Operation::Sub => Some(n.wrapping_sub(m)),
        Operation::Mul => Some(n.wrapping_mul(m)),
        Operation::DivS => divided_signed(n, m),
        Operation::DivU => division_of(operation, n, m),
        Operation::RemS => remainder_signed(n, m),
        Operation::RemU => division_of(operation, n, m),
        Operation::And => Some(n & m),
        Operation::Or => Some(n | m),
        Operation::Xor => Some(n ^ m),
        Operation::Shl => Some(n.wrapping_shl((m % 64) as u32)),
        Operation::ShrU => Some(n.wrapping_shr((m % 64) as u32)),
    }
}

/// A number of 32 bits as one of 64, by its sign.
pub fn extend_number(n: u32) -> u64
    ensures { result ≡ extend_number n }
{
    i64::from(n.cast_signed()).cast_unsigned()
}

/// How many bytes are loaded.
pub fn load_size(kind: Load) -> usize
    ensures { result ≡ load_size kind }
{
    match kind {
        Load::I64 => 8,
        Load::I64From8U => 1,
        Load::I64From16U => 2,
        Load::I64From32S | Load::I64From32U => 4,
    }
}

fn loaded_2(bytes: &[u8]) -> u64
    requires { length bytes.now ≡ 2 }
    ensures { result ≡ load_number Load.I64From16U bytes.now }
{
    u64::from(u16::from_le_bytes([bytes[0], bytes[1]]))
}

fn loaded_4(bytes: &[u8]) -> u32
    requires { length bytes.now ≡ 4 }
    ensures { result ≡ load_number Load.I64From32U bytes.now }
{
    u32::from_le_bytes([bytes[0], bytes[1], bytes[2], bytes[3]])
}

fn loaded_8(bytes: &[u8]) -> u64
    requires { length bytes.now ≡ 8 }
    ensures { result ≡ load_number Load.I64 bytes.now }
{
    u64::from_le_bytes([
        bytes[0], bytes[1], bytes[2], bytes[3], bytes[4], bytes[5], bytes[6], bytes[7],
    ])
}

/// The number that these bytes are loaded as.
pub fn load_number(kind: Load, bytes: &[u8]) -> u64
    requires { length bytes.now ≡ load_size kind }
    ensures { result ≡ load_number kind bytes.now }
{
    match kind {
        Load::I64 => loaded_8(bytes),
        Load::I64From8U => u64::from(bytes[0]),
        Load::I64From16U => loaded_2(bytes),
        Load::I64From32S => extend_number(loaded_4(bytes)),
        Load::I64From32U => u64::from(loaded_4(bytes)),
    }
}
