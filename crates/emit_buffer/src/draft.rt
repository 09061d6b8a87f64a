//! Code in the making, in one list of operations.

ghost use Rattle.std.specs.Prelude.{◌≡◌, ◌∷◌, [], ◌-◌, ◌<◌, true, vec_len, vec_capacity, IfOk, OnOk, slice_set};
ghost use Rattle.def_scheme.specs.Coded.{address_local, number_local};
ghost use Rattle.def_scheme.specs.Functions.{from_text};
ghost use Rattle.emit_buffer.specs.Cut.{cut};
ghost use Rattle.emit_buffer.specs.Frames.{setting_of};
ghost use Rattle.emit_buffer.specs.Drafts.{with_ops, one, open_draft, set_at, place_of, inside, closed_block, closed_loop, closed_if, closed_if_else, next_address, next_number, next_text, is_plain, instr_of};

use crate::amount::{Amount, cut};
use crate::setting::Setting;
use std::alloc::{AllocError, Global};
use std::marker::Model;
use wasm_tree::{Op, ValueType};

/// Operations, and how many locals for addresses and for numbers and how many bytes of texts they need. Contracts see
/// `Drafted`.
#[derive(Drop)]
pub struct Draft {
    ops: Vec<Op>,
    addresses: Amount,
    numbers: Amount,
    texts: Amount,
}

impl Model for Draft {
    ghost use Rattle.emit_buffer.specs.Drafts.{Drafted};

    ghost Value = { Drafted };

    ghost view = { λ d. record {
      ops = d.ops.items;
      counts = record { addresses = d.addresses; numbers = d.numbers; texts = d.texts };
    } };
}

/// For how many more operations there is room at least, if a list is full. Most functions have more than these.
const MORE_OPS: usize = 32;

/// Makes room for more operations. It is rarely called, so it stands apart.
#[inline(never)]
fn make_room(ops: &mut Vec<Op>) -> Result<(), AllocError>
    ensures same { ops.new.items ≡ ops.old.items }
    ensures room { OnOk result (vec_len ops.new < vec_capacity ops.new) }
{
    ops.reserve(MORE_OPS)
}

impl Draft {
    /// No operations. `texts` bytes of texts stand before.
    pub fn new(alloc: Global, texts: usize) -> Draft
        ensures { result ≡ record { ops = []; counts = from_text texts } }
    {
        Draft {
            ops: Vec::new(alloc),
            addresses: Amount::of(0),
            numbers: Amount::of(0),
            texts: Amount::of(texts),
        }
    }

    /// The operations, and how many locals for addresses and for numbers they need.
    pub fn finish(self) -> (Vec<Op>, Amount, Amount)
        ensures ops { result.0.items ≡ self.ops }
        ensures addresses { result.1 ≡ self.counts.addresses }
        ensures numbers { result.2 ≡ self.counts.numbers }
    {
        let Draft {
            ops,
            addresses,
            numbers,
            ..
        } = self;
        (ops, addresses, numbers)
    }

    /// How many operations there are.
    pub fn place(&self) -> usize
        ensures { result ≡ place_of self.now }
    {
        self.ops.len()
    }

    /// Appends an operation with none inside, whose number is small.
    #[tactic(auto, using(crate::proofs::Plain::one_is))]
    pub fn push(&mut self, op: Op) -> Result<(), AllocError>
        requires { is_plain op ≡ true }
        ensures { OnOk result (self.new ≡ one (instr_of op) self.old) }
    {
        self.push_op(op)
    }

    /// Appends an operation as it is.
    pub fn push_op(&mut self, op: Op) -> Result<(), AllocError>
        ensures { OnOk result (self.new ≡ with_ops (op ∷ []) self.old) }
    {
        if self.ops.len() == self.ops.capacity() {
            make_room(&mut self.ops)?;
        }
        self.ops.push_reserved(op);
        Ok(())
    }

    /// Keeps a place for an operation, and answers the place.
    #[tactic(auto, unfolding(crate::specs::Drafts::open_draft))]
    pub fn open(&mut self) -> Result<usize, AllocError>
        ensures place { IfOk result (λ at. at ≡ place_of self.old) }
        ensures opened { OnOk result (self.new ≡ open_draft self.old) }
    {
        let at = self.ops.len();
        self.push_op(Op::Unreachable)?;
        Ok(at)
    }

    fn set(&mut self, at: usize, op: Op)
        ensures { self.new ≡ set_at at op self.old }
    {
        if at < self.ops.len() {
            self.ops[at] = op;
        }
    }

    fn behind(&self, at: usize) -> u32
        ensures { result ≡ cut (inside at self.now) }
    {
        cut(self.ops.len().saturating_sub(at).saturating_sub(1))
    }

    /// Makes the place a block with all behind it.
    #[tactic(auto, unfolding(crate::specs::Drafts::closed_block))]
    pub fn close_block(&mut self, at: usize, kind: Option<ValueType>)
        ensures { self.new ≡ closed_block at kind self.old }
    {
        let count = self.behind(at);
        self.set(at, Op::Block(kind, count));
    }

    /// Makes the place a loop with all behind it.
    #[tactic(auto, unfolding(crate::specs::Drafts::closed_loop))]
    pub fn close_loop(&mut self, at: usize, kind: Option<ValueType>)
        ensures { self.new ≡ closed_loop at kind self.old }
    {
        let count = self.behind(at);
        self.set(at, Op::Loop(kind, count));
    }

    /// Makes the place an `if` with one side, all behind it.
    #[tactic(auto, unfolding(crate::specs::Drafts::closed_if))]
    pub fn close_if(&mut self, at: usize, kind: Option<ValueType>)
        ensures { self.new ≡ closed_if at kind self.old }
    {
        let count = self.behind(at);
        self.set(at, Op::If(kind, count));
    }

    /// Makes the place an `if` with two sides. The second one begins in the middle.
    #[tactic(auto, unfolding(crate::specs::Drafts::closed_if_else))]
    pub fn close_if_else(&mut self, at: usize, middle: usize, kind: Option<ValueType>)
        ensures { self.new ≡ closed_if_else at middle kind self.old }
    {
        let first = cut(middle.saturating_sub(at).saturating_sub(1));
        let second = cut(self.ops.len().saturating_sub(middle));
        self.set(at, Op::IfElse(kind, first, second));
    }

    /// Takes this many bytes of texts, and answers the offset of the first.
    pub fn next_text(&mut self, bytes: usize) -> Amount
        ensures offset { result ≡ self.old.counts.texts }
        ensures taken { self.new ≡ next_text bytes self.old }
    {
        let at = self.texts.again();
        self.texts = at.plus(&Amount::of(bytes));
        at
    }

    /// Takes a fresh local for an address, and answers which.
    pub fn next_address(&mut self, setting: &Setting<'_>) -> Amount
        ensures local { let k = self.old.counts.addresses in
            result ≡ address_local (setting_of setting.now) k }
        ensures taken { self.new ≡ next_address self.old }
    {
        let w = setting.address_local(&self.addresses);
        self.addresses = self.addresses.next();
        w
    }

    /// Takes a fresh local for a number, and answers which.
    pub fn next_number(&mut self, setting: &Setting<'_>) -> Amount
        ensures local { let k = self.old.counts.numbers in
            result ≡ number_local (setting_of setting.now) k }
        ensures taken { self.new ≡ next_number self.old }
    {
        let t = setting.number_local(&self.numbers);
        self.numbers = self.numbers.next();
        t
    }
}
