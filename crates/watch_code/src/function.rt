//! The code of a function with signals.

use crate::rewriting::Rewriting;
use crate::signals::{
    CHECK, DIV, LEFT, MOD, NO_DIVISOR, PRINTED, PUT, SITE, byte_op, entered, mark_signal,
};
use mark_statements::{Mark, MarkKind};
use std::alloc::{AllocError, Global};
use wasm_tree::{Code, Numeric, Op};

/// How many operations a mark is.
pub const MARK_OPERATIONS: usize = 6;

/// The code of a mark.
const MARK: [Op; 6] = [
    Op::I64Const(0),
    Op::Numeric(Numeric::I32WrapI64),
    Op::If(None, 3),
    Op::I64Const(0),
    Op::Numeric(Numeric::I32WrapI64),
    Op::If(None, 0),
];

/// The functions that the statement behind a mark calls in place of check, DIV and MOD.
#[derive(Clone, Copy)]
pub struct Checks {
    /// The number of the mark.
    pub mark: usize,
    /// The number of the fault.
    pub fault: u8,
    /// The number of the function for check. Those for DIV and MOD follow.
    pub check: u32,
}

/// A walk over the code of a function.
#[derive(Drop)]
struct Walk<'a> {
    ops: &'a [Op],
    marks: &'a [Mark],
    checks: Option<Checks>,
    made: Rewriting,
    /// Where the other side of an IF begins.
    others: Vec<bool>,
    /// How many marks were come to.
    met: usize,
    /// How many operations of a mark are still passed over.
    passed: usize,
    /// How many checks of the kind that failed the chosen statement had.
    sites: u8,
    /// Whether each mark of the code was the next one of the text.
    is_alike: bool,
}

/// Whether the code of a mark begins with the operation of this number.
pub fn is_mark(ops: &[Op], at: usize) -> bool {
    for (number, op) in MARK.iter().enumerate() {
        if ops.get(at.saturating_add(number)) != Some(op) {
            return false;
        }
    }
    true
}

impl Walk<'_> {
    /// The kind of the next mark.
    fn next_kind(&self) -> Option<MarkKind> {
        self.marks.get(self.met).map(|mark| mark.kind)
    }

    /// The next mark is come to.
    fn meet(&mut self) -> Result<(), AllocError> {
        if let Some(signal) = mark_signal(self.met) {
            self.made.signal(&signal)?;
        }
        self.met = self.met.saturating_add(1);
        Ok(())
    }

    /// The code of a mark.
    fn pass_mark(&mut self) -> Result<(), AllocError> {
        self.is_alike = self.is_alike && self.next_kind() != Some(MarkKind::Condition);
        self.passed = MARK_OPERATIONS.saturating_sub(1);
        self.meet()
    }

    /// The other side of an IF begins behind so many operations from one on.
    fn keep_other(&mut self, from: usize, count: u32) {
        let behind = from.saturating_add(1).saturating_add(count as usize);
        if let Some(place) = self.others.get_mut(behind) {
            *place = true;
        }
    }

    /// What is called in place of check, DIV or MOD in the chosen statement.
    fn check_of(&self, function: u32) -> Option<(Checks, u32)> {
        let checks = self.checks?;
        if self.met != checks.mark.saturating_add(1) {
            return None;
        }
        match function {
            CHECK | DIV | MOD => {
                Some((
                    checks,
                    checks.check.saturating_add(function.saturating_sub(CHECK)),
                ))
            }
            _ => None,
        }
    }

    /// Whether a check that is called here, or that DIV or MOD makes, is of the kind that failed.
    fn is_failing(&self, fault: u8, function: u32) -> bool {
        if function == CHECK {
            self.made.last() == Some(byte_op(fault))
        } else {
            fault == NO_DIVISOR
        }
    }

    /// Puts the signal of a check, if it is of the kind that failed.
    fn put_site(&mut self, fault: u8, function: u32) -> Result<(), AllocError> {
        if self.is_failing(fault, function) {
            self.made.signal(&[SITE, self.sites])?;
            self.sites = self.sites.saturating_add(1);
        }
        Ok(())
    }

    /// A call.
    fn put_call(&mut self, function: u32) -> Result<(), AllocError> {
        if function == PUT {
            self.made.signal(&[PRINTED])?;
        }
        match self.check_of(function) {
            Some((checks, other)) => {
                self.put_site(checks.fault, function)?;
                self.made.put(Op::Call(other))
            }
            None => self.made.put(Op::Call(function)),
        }
    }

    /// An operation that is no part of a mark.
    fn put(&mut self, at: usize, op: Op) -> Result<(), AllocError> {
        match op {
            Op::Call(function) => return self.put_call(function),
            Op::Return => self.made.signal(&[LEFT])?,
            Op::IfElse(None, count, others) if others > 0 => self.keep_other(at, count),
            _ => {}
        }
        self.made.put(op)
    }

    /// The operation of this number.
    fn pass(&mut self, at: usize, op: Op) -> Result<(), AllocError> {
        self.made.begin()?;
        if self.passed > 0 {
            self.passed = self.passed.saturating_sub(1);
            return Ok(());
        }
        if is_mark(self.ops, at) {
            return self.pass_mark();
        }
        let is_other = self.others.get(at).map(|it| *it) == Some(true);
        if is_other && self.next_kind() == Some(MarkKind::Condition) {
            self.meet()?;
        }
        self.put(at, op)
    }

    /// All operations, in front of which the function of this number begins.
    fn pass_all(&mut self, number: u32) -> Result<(), AllocError> {
        let ops = self.ops;
        for (at, op) in ops.iter().enumerate() {
            if at == 0 {
                self.made.signal(&entered(number))?;
            }
            self.pass(at, *op)?;
        }
        if ops.last() != Some(&Op::Unreachable) {
            self.made.begin()?;
            self.made.signal(&[LEFT])?;
        }
        Ok(())
    }
}

/// A list of so many `false`.
fn no_others(alloc: Global, count: usize) -> Result<Vec<bool>, AllocError> {
    let mut others = Vec::new(alloc);
    for _ in 0..count {
        others.push(false)?;
    }
    Ok(others)
}

/// Code with signals, and how many checks of the kind that failed the chosen statement has, if it stands there.
#[derive(Drop)]
pub struct Signalling {
    pub code: Code,
    pub sites: u8,
}

/// The code of the function of this number with signals for these marks, in place of the code of the marks. In the statement
/// behind a chosen mark other functions check. Nothing if the code has not these marks.
pub fn code_with_signals(
    alloc: Global,
    code: &Code,
    number: u32,
    marks: &[Mark],
    checks: Option<Checks>,
) -> Result<Option<Signalling>, AllocError> {
    let ops = code.ops();
    let mut walk = Walk {
        ops,
        marks,
        checks,
        made: Rewriting::new(alloc),
        others: no_others(alloc, ops.len())?,
        met: 0,
        passed: 0,
        sites: 0,
        is_alike: true,
    };
    walk.pass_all(number)?;
    if !walk.is_alike || walk.met != marks.len() {
        return Ok(None);
    }
    let Walk { made, sites, .. } = walk;
    let code = Code::new(made.finish(ops));
    Ok(Some(Signalling { code, sites }))
}
