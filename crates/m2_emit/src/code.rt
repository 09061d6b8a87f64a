//! Code of a few operations.

ghost use Rattle.std.specs.Prelude.{◌≡◌, ◌∷◌, [], IfOk};
ghost use Rattle.wasm_tree.specs.declared.instr.Instr.TheVariants.{GlobalGet, I32Const};
ghost use Rattle.wasm_tree.specs.Code.{tree};

use std::alloc::{AllocError, Global};
use wasm_tree::{Code, Op};

/// The code of these operations.
pub fn code_of(alloc: Global, ops: &[Op]) -> Result<Code, AllocError>
    ensures { IfOk result (λ code. code ≡ tree ops.now) }
{
    Ok(Code::new(Vec::from_slice(alloc, ops)?))
}

/// The code that gives this number.
#[tactic(auto, using(crate::proofs::Lists::one_number))]
pub fn number_code(alloc: Global, number: u32) -> Result<Code, AllocError>
    ensures { IfOk result (λ code. code ≡ I32Const number ∷ []) }
{
    code_of(alloc, &[Op::I32Const(number)])
}

/// The code that gives what this global is.
#[tactic(auto, using(crate::proofs::Lists::one_global))]
pub fn global_code(alloc: Global, global: u32) -> Result<Code, AllocError>
    ensures { IfOk result (λ code. code ≡ GlobalGet global ∷ []) }
{
    code_of(alloc, &[Op::GlobalGet(global)])
}
