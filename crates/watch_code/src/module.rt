//! A module with signals.

use crate::function::{Checks, Signalling, code_with_signals};
use crate::helpers::{check_with_signal, division_by};
use crate::signals::{CHECK, DIV, IMPORTED, MOD};
use mark_statements::Mark;
use std::alloc::{AllocError, Global};
use std::mem;
use tree_parts::Items;
use wasm_tree::{Body, Code, Function, WModule};

/// How many functions each module has before its own.
pub const HELPERS: usize = 5;

/// A statement whose failed check signals its values.
#[derive(Clone, Copy)]
pub struct Chosen {
    /// The number of its function among those of all modules.
    pub function: u32,
    /// The number of its mark in the function.
    pub mark: usize,
    /// The number of the fault.
    pub fault: u8,
}

/// What is done to the functions of a module.
#[derive(Drop)]
struct Plan<'a> {
    alloc: Global,
    /// The number of the first one that is its own.
    first: u32,
    /// The marks of each that is its own.
    marks: &'a [&'a [Mark]],
    chosen: Option<Chosen>,
    /// The number of the function for check in the chosen statement.
    check: u32,
}

impl Plan<'_> {
    /// Which functions check in the function of this number.
    fn checks_in(&self, number: u32) -> Option<Checks> {
        let chosen = self.chosen?;
        if chosen.function != number {
            return None;
        }
        Some(Checks {
            mark: chosen.mark,
            fault: chosen.fault,
            check: self.check,
        })
    }

    /// Puts signals into one of the module's own functions, and answers how many checks of the kind that failed the chosen
    /// statement has in it. Nothing if its code has not its marks.
    fn watch(&self, at: usize, function: &mut Function) -> Result<Option<u8>, AllocError> {
        let own = at.saturating_sub(HELPERS);
        let Some(marks) = self.marks.get(own) else {
            return Ok(None);
        };
        let number = self
            .first
            .saturating_add(u32::try_from(own).unwrap_or(u32::MAX));
        let code = &function.body.code;
        match code_with_signals(self.alloc, code, number, marks, self.checks_in(number))? {
            Some(made) => {
                let Signalling { code, sites } = made;
                function.body.code = code;
                Ok(Some(sites))
            }
            None => Ok(None),
        }
    }
}

/// A function of the type and the locals of another.
fn function_like(alloc: Global, other: &Function, code: Code) -> Result<Function, AllocError> {
    Ok(Function {
        type_index: other.type_index,
        body: Body {
            locals: Items::from_slice(alloc, other.body.locals.as_slice())?,
            code,
        },
    })
}

/// The functions that check with a signal, one behind another: check, DIV and MOD. None if they are not there.
fn checking(
    alloc: Global,
    functions: &[Function],
    check: u32,
) -> Result<Vec<Function>, AllocError> {
    let mut all = Vec::new(alloc);
    let at = |number: u32| functions.get(number.saturating_sub(IMPORTED) as usize);
    if let (Some(first), Some(div), Some(modulus)) = (at(CHECK), at(DIV), at(MOD)) {
        let code = check_with_signal(alloc, &first.body.code)?;
        all.push(function_like(alloc, first, code)?)?;
        let code = division_by(alloc, &div.body.code, check)?;
        all.push(function_like(alloc, div, code)?)?;
        let code = division_by(alloc, &modulus.body.code, check)?;
        all.push(function_like(alloc, modulus, code)?)?;
    }
    Ok(all)
}

/// Puts signals into the module's own functions, and answers how many checks of the kind that failed the chosen statement has.
/// Nothing if the code of one has not its marks.
fn watch_all(plan: &Plan<'_>, functions: &mut [Function]) -> Result<Option<u8>, AllocError> {
    let mut all: u8 = 0;
    for (at, function) in functions.iter_mut().enumerate() {
        if at >= HELPERS {
            match plan.watch(at, function)? {
                Some(sites) => all = all.saturating_add(sites),
                None => return Ok(None),
            }
        }
    }
    Ok(Some(all))
}

/// A module with signals.
#[derive(Drop)]
pub struct Watched {
    pub tree: WModule,
    /// How many checks of the kind that failed the chosen statement has, if it is one of this module.
    pub sites: u8,
}

/// A module of a program, with signals. Its statements are marked, and these are the marks of its functions, the body first. They
/// have numbers from `first` on. A failed check of the chosen statement, if it is one of these functions, signals its values.
/// Nothing if the code of a function has not its marks.
///
/// The only error is that memory ran out.
pub fn watch_module(
    alloc: Global,
    tree: WModule,
    first: u32,
    marks: &[&[Mark]],
    chosen: Option<Chosen>,
) -> Result<Option<Watched>, AllocError> {
    let mut tree = tree;
    let mut functions = mem::replace(&mut tree.functions, Items::new(alloc)).into_vec();
    let count = u32::try_from(functions.len()).unwrap_or(u32::MAX);
    let check = IMPORTED.saturating_add(count);
    let mut more = checking(alloc, &functions, check)?;
    let plan = Plan {
        alloc,
        first,
        marks,
        chosen,
        check,
    };
    let Some(sites) = watch_all(&plan, &mut functions)? else {
        return Ok(None);
    };
    functions.append(&mut more)?;
    tree.functions = Items::from_vec(functions);
    Ok(Some(Watched { tree, sites }))
}
