//! Small pieces of code.

ghost use Rattle.std.specs.Prelude.{◌≡◌, OnOk};
ghost use Rattle.def_scheme.specs.Coded.{number, raise_address, relation, operation, wrap_word, extend_word, is_zero, check_code, fault};
ghost use Rattle.def_scheme.specs.Exprs.{text_code, complement};
ghost use Rattle.m2_rule.specs.FaultNumber.{fault_number};
ghost use Rattle.emit_buffer.specs.Drafts.{one, put};

use crate::amount::Amount;
use crate::draft::Draft;
use crate::helper::Helper;
use m2_rule::Fault;
use std::alloc::AllocError;
use wasm_tree::{Numeric, Op, Operation, Relation};

/// A number of 64 bits.
pub fn number(n: i64, draft: &mut Draft) -> Result<(), AllocError>
    ensures { OnOk result (draft.new ≡ one (number n) draft.old) }
{
    draft.long(n.cast_unsigned())
}

/// The address this many bytes further.
pub fn raise_address(bytes: u32, draft: &mut Draft) -> Result<(), AllocError>
    ensures { OnOk result (draft.new ≡ put (raise_address bytes) draft.old) }
{
    draft.word(bytes)?;
    draft.push(Op::Numeric(Numeric::I32Add))
}

/// The same of a number that may be cut.
pub fn raise_far(bytes: &Amount, draft: &mut Draft) -> Result<(), AllocError>
    ensures { OnOk result (draft.new ≡ put (raise_address bytes.now) draft.old) }
{
    draft.far_word(bytes)?;
    draft.push(Op::Numeric(Numeric::I32Add))
}

/// How two numbers compare.
pub fn relation(r: Relation, draft: &mut Draft) -> Result<(), AllocError>
    ensures { OnOk result (draft.new ≡ one (relation r) draft.old) }
{
    draft.push(Op::Numeric(Numeric::I64Relation(r)))
}

/// What is made of two numbers.
pub fn operation(o: Operation, draft: &mut Draft) -> Result<(), AllocError>
    ensures { OnOk result (draft.new ≡ one (operation o) draft.old) }
{
    draft.push(Op::Numeric(Numeric::I64Operation(o)))
}

/// The low 32 bits of a number.
pub fn wrap_word(draft: &mut Draft) -> Result<(), AllocError>
    ensures { OnOk result (draft.new ≡ one wrap_word draft.old) }
{
    draft.push(Op::Numeric(Numeric::I32WrapI64))
}

/// A number of 32 bits as one of 64.
pub fn extend_word(draft: &mut Draft) -> Result<(), AllocError>
    ensures { OnOk result (draft.new ≡ one extend_word draft.old) }
{
    draft.push(Op::Numeric(Numeric::I64ExtendI32U))
}

/// Whether a number is 0.
pub fn is_zero(draft: &mut Draft) -> Result<(), AllocError>
    ensures { OnOk result (draft.new ≡ one is_zero draft.old) }
{
    draft.push(Op::Numeric(Numeric::I64Eqz))
}

/// Ends the run with a fault if the value is outside of these bounds.
pub fn check_code(low: i64, high: i64, fault: Fault, draft: &mut Draft) -> Result<(), AllocError>
    ensures { OnOk result (draft.new ≡ put (check_code low high (fault_number fault)) draft.old) }
{
    number(low, draft)?;
    number(high, draft)?;
    draft.long(u64::from(fault.number()))?;
    draft.help(Helper::Check)
}

/// Ends the run with a fault.
pub fn fault(why: Fault, draft: &mut Draft) -> Result<(), AllocError>
    ensures { OnOk result (draft.new ≡ put (fault (fault_number why)) draft.old) }
{
    draft.long(u64::from(why.number()))?;
    draft.help(Helper::Stop)?;
    draft.push(Op::Unreachable)
}

/// The elements that a set does not have.
pub fn complement(draft: &mut Draft) -> Result<(), AllocError>
    ensures { OnOk result (draft.new ≡ put complement draft.old) }
{
    draft.push(Op::I64Const(4_294_967_295))?;
    operation(Operation::Xor, draft)
}

/// The address of a text.
pub fn text(offset: &Amount, draft: &mut Draft) -> Result<(), AllocError>
    ensures { OnOk result (draft.new ≡ put (text_code offset.now) draft.old) }
{
    draft.push(Op::GlobalGet(2))?;
    raise_far(offset, draft)
}
