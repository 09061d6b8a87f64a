//! The part of a statement that failed: a subscript, a divisor, an operator, or a value.

use m2_rule::Fault;
use m2_tree::{Pos, Symbol, Token};
use scan_tokens::{ScanError, scan};
use std::alloc::{AllocError, Global};
use text_tokens::{DESIGNATOR, is_named, operand_end, strength_of, symbol_of};

/// The most operators of a statement among which one is looked for.
const MOST_OPERATORS: usize = 64;

/// Whether the part of a statement that stands in front of other statements ends in front of a symbol.
fn ends_before(symbol: Symbol) -> bool {
    matches!(
        symbol,
        Symbol::Semicolon
            | Symbol::Then
            | Symbol::Do
            | Symbol::Of
            | Symbol::End
            | Symbol::Else
            | Symbol::Elsif
            | Symbol::Until
            | Symbol::Bar
    )
}

/// The tokens from a place on, up to the end of the statement or up to the statements inside of it.
fn tokens_from(tokens: &[Token], pos: Pos) -> &[Token] {
    let from = match tokens.iter().position(|token| token.pos == pos) {
        Some(at) => at,
        None => tokens.len(),
    };
    let all = &tokens[from.min(tokens.len())..];
    let Some((_, inner)) = all.split_first() else {
        return all;
    };
    match inner
        .iter()
        .position(|token| symbol_of(token).is_some_and(ends_before))
    {
        Some(count) => &all[..count.saturating_add(1).min(all.len())],
        None => all,
    }
}

/// Subscripts in the order in which they end.
#[derive(Drop)]
struct Subscripts {
    /// Where they begin.
    begins: Vec<Pos>,
    /// The brackets that are open, each with the number of the token behind it or behind the last comma if it is of subscripts.
    open: Vec<Option<usize>>,
}

impl Subscripts {
    /// A subscript ends here, if the innermost bracket is of subscripts. The next one would begin at this number.
    fn end(&mut self, tokens: &[Token], next: usize) -> Result<(), AllocError> {
        if let Some(Some(begin)) = self.open.last_mut() {
            if let Some(token) = tokens.get(*begin) {
                self.begins.push(token.pos)?;
            }
            *begin = next;
        }
        Ok(())
    }

    /// The token of this number.
    fn pass(&mut self, tokens: &[Token], at: usize, symbol: Symbol) -> Result<(), AllocError> {
        let next = at.saturating_add(1);
        match symbol {
            Symbol::LeftBracket => self.open.push(Some(next))?,
            Symbol::LeftParen | Symbol::LeftBrace => self.open.push(None)?,
            Symbol::Comma => self.end(tokens, next)?,
            Symbol::RightBracket => {
                self.end(tokens, next)?;
                let _ = self.open.pop();
            }
            Symbol::RightParen | Symbol::RightBrace => {
                let _ = self.open.pop();
            }
            _ => {}
        }
        Ok(())
    }
}

/// Where subscripts begin, in the order in which they end.
fn subscript_places(alloc: Global, tokens: &[Token]) -> Result<Vec<Pos>, AllocError> {
    let mut all = Subscripts {
        begins: Vec::new(alloc),
        open: Vec::new(alloc),
    };
    for (at, token) in tokens.iter().enumerate() {
        if let Some(symbol) = symbol_of(token) {
            all.pass(tokens, at, symbol)?;
        }
    }
    let Subscripts { begins, .. } = all;
    Ok(begins)
}

/// An operator: the number of the token behind its last operand, and its own number.
#[derive(Clone, Copy)]
struct Operator {
    end: usize,
    at: usize,
}

/// The standard procedures that compute.
const COMPUTING: [&[u8]; 3] = [b"ABS", b"INC", b"DEC"];

/// Whether an operator can fail so.
fn can_fail(symbol: Symbol, fault: Fault) -> bool {
    match symbol {
        Symbol::Div | Symbol::Mod => fault == Fault::Divisor,
        Symbol::Plus | Symbol::Minus | Symbol::Star => fault == Fault::Overflow,
        _ => false,
    }
}

/// The number of the token behind the operands of the token of this number, if it is an operator that can fail so.
fn end_of(tokens: &[Token], at: usize, token: &Token, fault: Fault) -> Option<usize> {
    match symbol_of(token) {
        Some(symbol) => {
            let strength = strength_of(symbol).filter(|_| can_fail(symbol, fault))?;
            Some(operand_end(tokens, at.saturating_add(1), strength))
        }
        None => {
            let is_computing = COMPUTING.iter().any(|name| is_named(tokens, at, name));
            if fault != Fault::Overflow || !is_computing {
                return None;
            }
            Some(operand_end(tokens, at, DESIGNATOR))
        }
    }
}

/// The operators that can fail so, in the order in which they are applied. None if there are too many.
fn operators(alloc: Global, tokens: &[Token], fault: Fault) -> Result<Vec<Operator>, AllocError> {
    let mut all = Vec::new(alloc);
    for (at, token) in tokens.iter().enumerate() {
        if all.len() > MOST_OPERATORS {
            return Ok(Vec::new(alloc));
        }
        if let Some(end) = end_of(tokens, at, token, fault) {
            all.push(Operator { end, at })?;
        }
    }
    all.sort_unstable_by_key(|it| (it.end, usize::MAX - it.at));
    Ok(all)
}

/// The value that is assigned or returned, if nothing else in a statement is checked for its range.
fn value_places(alloc: Global, tokens: &[Token]) -> Result<Vec<Pos>, AllocError> {
    let mut all = Vec::new(alloc);
    for (at, token) in tokens.iter().enumerate() {
        match symbol_of(token) {
            Some(Symbol::LeftParen | Symbol::In) => return Ok(Vec::new(alloc)),
            Some(Symbol::Assign | Symbol::Return) => {
                if let Some(value) = tokens.get(at.saturating_add(1)) {
                    all.push(value.pos)?;
                }
            }
            _ => {}
        }
    }
    Ok(all)
}

/// The places of the operators that can fail so, or of their divisors.
fn operator_places(alloc: Global, tokens: &[Token], fault: Fault) -> Result<Vec<Pos>, AllocError> {
    let more = usize::from(fault == Fault::Divisor);
    let mut all = Vec::new(alloc);
    for operator in &operators(alloc, tokens, fault)? {
        if let Some(token) = tokens.get(operator.at.saturating_add(more)) {
            all.push(token.pos)?;
        }
    }
    Ok(all)
}

/// The places at which a statement can fail so, in the order in which they are come to.
fn places(alloc: Global, tokens: &[Token], fault: Fault) -> Result<Vec<Pos>, AllocError> {
    match fault {
        Fault::Index => subscript_places(alloc, tokens),
        Fault::OutOfRange => value_places(alloc, tokens),
        Fault::Divisor | Fault::Overflow => operator_places(alloc, tokens, fault),
        _ => Ok(Vec::new(alloc)),
    }
}

/// The place of the part that failed in the statement at a place, if it is the one of this number among so many that its code
/// checks. Nothing if the text has not as many.
pub fn part_of(
    alloc: Global,
    text: &[u8],
    pos: Pos,
    fault: Fault,
    number: u8,
    count: u8,
) -> Result<Option<Pos>, AllocError> {
    match scan(alloc, text) {
        Err(ScanError::Refused(_)) => Ok(None),
        Err(ScanError::NoMemory) => Err(AllocError),
        Ok(tokens) => {
            let all = places(alloc, tokens_from(&tokens, pos), fault)?;
            if all.len() != usize::from(count) {
                return Ok(None);
            }
            Ok(all.get(usize::from(number)).map(|pos| *pos))
        }
    }
}
