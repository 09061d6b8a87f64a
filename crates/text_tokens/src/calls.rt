//! Calls, by their tokens.

use crate::symbols::{closes, depth_behind, name_at, opens, symbol_at, symbol_of};
use m2_tree::{Symbol, Token};
use std::alloc::{AllocError, Global};

/// A call, by the numbers of tokens.
#[derive(Clone, Copy)]
pub struct Call {
    /// The name of what is called, and the name in front of its dot, if there is one.
    pub name: usize,
    pub module: Option<usize>,
    /// The bracket in front of the arguments, if there is one.
    pub open: Option<usize>,
}

/// An argument, by the number that it has among the arguments of a call, from 0.
#[derive(Clone, Copy)]
pub struct Argument {
    pub call: Call,
    pub number: usize,
}

/// A bracket that is open, and how many commas stand behind it.
#[derive(Clone, Copy)]
pub struct Bracket {
    pub token: usize,
    pub commas: usize,
}

/// Takes the token of this number into account.
fn pass(open: &mut Vec<Bracket>, token: &Token, number: usize) -> Result<(), AllocError> {
    let Some(symbol) = symbol_of(token) else {
        return Ok(());
    };
    if opens(symbol) {
        open.push(Bracket {
            token: number,
            commas: 0,
        })?;
    } else if closes(symbol) {
        let _ = open.pop();
    } else if symbol == Symbol::Comma {
        if let Some(bracket) = open.pop() {
            open.push(Bracket {
                token: bracket.token,
                commas: bracket.commas.saturating_add(1),
            })?;
        }
    }
    Ok(())
}

/// The innermost bracket that is open in front of the token of this number.
pub fn bracket_around(
    alloc: Global,
    tokens: &[Token],
    at: usize,
) -> Result<Option<Bracket>, AllocError> {
    let mut open = Vec::new(alloc);
    for (number, token) in tokens.iter().enumerate() {
        if number < at {
            pass(&mut open, token, number)?;
        }
    }
    Ok(open.pop())
}

/// The call whose arguments stand behind this bracket, if a name, or a name of a module's, stands before it.
fn call_before(tokens: &[Token], open: usize) -> Option<Call> {
    let name = open.checked_sub(1)?;
    let _ = name_at(tokens, name)?;
    let dot = name.saturating_sub(1);
    let module = name.saturating_sub(2);
    let is_part = symbol_at(tokens, dot) == Some(Symbol::Dot);
    if is_part && name_at(tokens, module).is_none() {
        return None;
    }
    let is_deeper = symbol_at(tokens, module.saturating_sub(1)) == Some(Symbol::Dot);
    if is_part && is_deeper {
        return None;
    }
    Some(Call {
        name,
        module: if is_part { Some(module) } else { None },
        open: Some(open),
    })
}

/// The argument of a call that begins behind this many commas in a bracket.
fn argument_in(tokens: &[Token], bracket: Bracket) -> Option<Argument> {
    if symbol_at(tokens, bracket.token) != Some(Symbol::LeftParen) {
        return None;
    }
    let number = bracket.commas;
    call_before(tokens, bracket.token).map(|call| Argument { call, number })
}

/// The argument that begins at the token of this number.
pub fn argument_at(
    alloc: Global,
    tokens: &[Token],
    at: usize,
) -> Result<Option<Argument>, AllocError> {
    match bracket_around(alloc, tokens, at)? {
        Some(bracket) => Ok(argument_in(tokens, bracket)),
        None => Ok(None),
    }
}

/// The call whose name, or whose module's name, is the token of this number.
pub fn call_at(tokens: &[Token], at: usize) -> Call {
    let is_part = symbol_at(tokens, at.saturating_add(1)) == Some(Symbol::Dot);
    let name = if is_part { at.saturating_add(2) } else { at };
    let behind = name.saturating_add(1);
    let is_open = symbol_at(tokens, behind) == Some(Symbol::LeftParen);
    Call {
        name,
        module: if is_part { Some(at) } else { None },
        open: if is_open { Some(behind) } else { None },
    }
}

/// How many arguments stand behind the bracket of this number, if at least one does.
fn count_behind(tokens: &[Token], open: usize) -> usize {
    let mut depth: usize = 0;
    let mut count: usize = 1;
    for (number, token) in tokens.iter().enumerate() {
        if number >= open {
            depth = depth_behind(token, depth).unwrap_or(0);
            if depth == 0 {
                return count;
            }
            if depth == 1 && symbol_of(token) == Some(Symbol::Comma) {
                count = count.saturating_add(1);
            }
        }
    }
    count
}

/// How many arguments a call has.
pub fn argument_count(tokens: &[Token], call: Call) -> usize {
    let Some(open) = call.open else {
        return 0;
    };
    if symbol_at(tokens, open.saturating_add(1)) == Some(Symbol::RightParen) {
        return 0;
    }
    count_behind(tokens, open)
}
