//! Operations with numbers, which are cut.

ghost use Rattle.std.specs.Prelude.{◌≡◌, suc, OnOk};
ghost use Rattle.wasm_tree.specs.declared.instr.Instr.TheVariants as instr;
ghost use Rattle.emit_buffer.specs.Drafts.{one};
ghost use Rattle.emit_buffer.specs.Helpers.{index_of};

use crate::amount::Amount;
use crate::draft::Draft;
use crate::helper::Helper;
use std::alloc::AllocError;
use wasm_tree::Op;

impl Draft {
    /// Pushes the value of a local.
    #[tactic(auto, using(crate::proofs::Plain::get_is))]
    pub fn local_get(&mut self, local: &Amount) -> Result<(), AllocError>
        ensures { OnOk result (self.new ≡ one (instr.LocalGet local.now) self.old) }
    {
        self.push_op(Op::LocalGet(local.kept()))
    }

    /// Takes a value into a local.
    #[tactic(auto, using(crate::proofs::Plain::set_is))]
    pub fn local_set(&mut self, local: &Amount) -> Result<(), AllocError>
        ensures { OnOk result (self.new ≡ one (instr.LocalSet local.now) self.old) }
    {
        self.push_op(Op::LocalSet(local.kept()))
    }

    /// Puts a value into a local, and leaves it there.
    #[tactic(auto, using(crate::proofs::Plain::tee_is))]
    pub fn local_tee(&mut self, local: &Amount) -> Result<(), AllocError>
        ensures { OnOk result (self.new ≡ one (instr.LocalTee local.now) self.old) }
    {
        self.push_op(Op::LocalTee(local.kept()))
    }

    /// Pushes the value of a global.
    #[tactic(auto, using(crate::proofs::Plain::global_is))]
    pub fn global_get(&mut self, global: &Amount) -> Result<(), AllocError>
        ensures { OnOk result (self.new ≡ one (instr.GlobalGet global.now) self.old) }
    {
        self.push_op(Op::GlobalGet(global.kept()))
    }

    /// Leaves the block of a label.
    #[tactic(auto, using(crate::proofs::Plain::branch_is))]
    pub fn branch(&mut self, label: &Amount) -> Result<(), AllocError>
        ensures { OnOk result (self.new ≡ one (instr.Br label.now) self.old) }
    {
        self.push_op(Op::Br(label.kept()))
    }

    /// Leaves the block of a label, if the value is not 0.
    #[tactic(auto, using(crate::proofs::Plain::branch_if_is))]
    pub fn branch_if(&mut self, label: &Amount) -> Result<(), AllocError>
        ensures { OnOk result (self.new ≡ one (instr.BrIf label.now) self.old) }
    {
        self.push_op(Op::BrIf(label.kept()))
    }

    /// Calls a function.
    #[tactic(auto, using(crate::proofs::Plain::call_is))]
    pub fn call(&mut self, function: &Amount) -> Result<(), AllocError>
        ensures { OnOk result (self.new ≡ one (instr.Call function.now) self.old) }
    {
        self.push_op(Op::Call(function.kept()))
    }

    /// Calls one of the functions that each module has before its own.
    pub fn help(&mut self, helper: Helper) -> Result<(), AllocError>
        ensures { OnOk result (self.new ≡ one (instr.Call (index_of helper)) self.old) }
    {
        self.call(&Amount::of(helper.index()))
    }

    /// Calls a function through the table, which has the type of this number.
    #[tactic(auto, using(crate::proofs::Plain::indirect_is))]
    pub fn call_indirect(&mut self, kind: &Amount) -> Result<(), AllocError>
        ensures { OnOk result (self.new ≡ one (instr.CallIndirect kind.now) self.old) }
    {
        self.push_op(Op::CallIndirect(kind.kept()))
    }

    /// Pushes a number of 32 bits.
    #[tactic(auto, using(crate::proofs::Plain::small_is))]
    pub fn word(&mut self, number: u32) -> Result<(), AllocError>
        ensures { OnOk result (self.new ≡ one (instr.I32Const number) self.old) }
    {
        self.push_op(Op::I32Const(number))
    }

    /// Pushes a number that may be cut to 32 bits.
    #[tactic(auto, using(crate::proofs::Plain::word_is))]
    pub fn far_word(&mut self, number: &Amount) -> Result<(), AllocError>
        ensures { OnOk result (self.new ≡ one (instr.I32Const number.now) self.old) }
    {
        self.push_op(Op::I32Const(number.kept()))
    }

    /// Pushes a number of 64 bits.
    #[tactic(auto, using(crate::proofs::Plain::long_is))]
    pub fn long(&mut self, number: u64) -> Result<(), AllocError>
        ensures { OnOk result (self.new ≡ one (instr.I64Const number) self.old) }
    {
        self.push_op(Op::I64Const(number))
    }

    /// Pushes the number behind this one, in 64 bits.
    #[tactic(auto, using(crate::proofs::Plain::next_long_is))]
    pub fn next_long(&mut self, number: usize) -> Result<(), AllocError>
        ensures { OnOk result (self.new ≡ one (instr.I64Const (suc number)) self.old) }
    {
        self.push_op(Op::I64Const((number as u64).saturating_add(1)))
    }
}
