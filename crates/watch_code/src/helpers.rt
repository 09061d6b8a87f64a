//! The functions that check a value, with a signal of what they checked.

use crate::rewriting::Rewriting;
use crate::signals::{BITS, CHECK, CHECKED, CHECKED_VALUES, PUT, STOP, VALUE_BYTES};
use std::alloc::{AllocError, Global};
use wasm_tree::{Code, Numeric, Op, Operation};

/// Puts operations that print the bytes of a local, the lowest first.
fn put_value(code: &mut Rewriting, local: u32) -> Result<(), AllocError> {
    for byte in 0..VALUE_BYTES {
        code.put(Op::LocalGet(local))?;
        code.put(Op::I64Const((byte as u64).saturating_mul(BITS)))?;
        code.put(Op::Numeric(Numeric::I64Operation(Operation::ShrU)))?;
        code.put(Op::Call(PUT))?;
    }
    Ok(())
}

/// Puts the signal of a failed check.
fn put_values(code: &mut Rewriting) -> Result<(), AllocError> {
    code.signal(&[CHECKED])?;
    for local in 0..CHECKED_VALUES {
        put_value(code, local)?;
    }
    Ok(())
}

/// The function check, which signals what it checked before it ends the run.
pub fn check_with_signal(alloc: Global, code: &Code) -> Result<Code, AllocError> {
    let mut made = Rewriting::new(alloc);
    for op in code.ops() {
        made.begin()?;
        if *op == Op::Call(STOP) {
            put_values(&mut made)?;
        }
        made.put(*op)?;
    }
    Ok(Code::new(made.finish(code.ops())))
}

/// The function div or mod, which calls the check of this number.
pub fn division_by(alloc: Global, code: &Code, check: u32) -> Result<Code, AllocError> {
    let mut made = Vec::new(alloc);
    for op in code.ops() {
        made.push(if *op == Op::Call(CHECK) {
            Op::Call(check)
        } else {
            *op
        })?;
    }
    Ok(Code::new(made))
}
