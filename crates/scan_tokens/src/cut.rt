//! Cuts the member at the front of a text.

ghost use Rattle.std.specs.Prelude.{◌≡◌, ◌≤◌, ◌<◌, ◌++◌, ◌↔◌, IfOk, IfErr, IsTrue, OnOk, Some, None, length};
ghost use Rattle.m2_tree.specs.Limits.{max_name};
ghost use Rattle.scan_tokens.specs.declared.class.Class.TheVariants as class;
ghost use Rattle.scan_tokens.specs.declared.refusal.ScanError.TheVariants.{Refused};
ghost use Rattle.scan_tokens.specs.Division.{tokens_at};
ghost use Rattle.scan_tokens.specs.Forms.{IsRun, Spells};
ghost use Rattle.scan_tokens.specs.Steps.{Adds, Begins, HasRoom, IsPair, Opens, Skips, Stops, Takes};

use crate::class::{Class, class_of};
use crate::comment::{behind, comment_end, right};
use crate::lengths::{inside_len, printable_len, run_len};
use crate::number::number_of;
use crate::refusal::{ScanError, ScanRefusal, TokenRule};
use crate::symbols::{pair_of, single_of, word_of};
use m2_tree::{Lexeme, MAX_NAME, Name, Pos, Quoted, Symbol, Token};
use std::alloc::{AllocError, Global};

/// What is left of a text, and its place.
#[derive(Clone, Copy)]
pub struct Cut<'a> {
    pub rest: &'a [u8],
    pub pos: Pos,
}

/// Adds a token. The only error is that memory ran out.
#[inline(always)]
pub fn put(tokens: &mut Vec<Token>, lexeme: Lexeme, pos: Pos) -> Result<(), AllocError>
    ensures { OnOk result (tokens.new.items ≡ tokens.old.items ++ tokens_at pos (Some lexeme)) }
{
    if tokens.capacity() <= tokens.len() {
        tokens.reserve(1)?;
    }
    tokens.push_reserved(Token { lexeme, pos });
    Ok(())
}

pub fn scan_refusal(pos: Pos, broken: TokenRule) -> ScanError
    ensures { result ≡ Refused (record { pos = pos; broken = broken }) }
{
    ScanError::Refused(ScanRefusal { pos, broken })
}

/// The reserved word or the name that letters and digits are. The only error is that memory ran out.
fn word_lexeme(alloc: Global, run: &[u8]) -> Result<Lexeme, AllocError>
    requires letter { IsRun class.Letter run.now }
    requires short { length run.now ≤ max_name }
    ensures { IfOk result (Spells run.now) }
{
    match word_of(run) {
        Some(symbol) => Ok(Lexeme::Symbol(symbol)),
        None => Ok(Lexeme::Name(Name::new(alloc, run)?)),
    }
}

fn cut_name(alloc: Global, cut: &mut Cut<'_>, tokens: &mut Vec<Token>) -> Result<(), ScanError>
    requires begins { Begins class.Letter cut.old.rest.now }
    requires room { HasRoom cut.old.pos cut.old.rest.now }
    ensures taken { OnOk result
        (Adds cut.old.rest.now cut.old.pos cut.new.rest.now cut.new.pos tokens.old.items
        tokens.new.items) }
    ensures refused { IfErr result (Stops cut.old.rest.now cut.old.pos) }
{
    let text = cut.rest;
    let pos = cut.pos;
    let len = run_len(text);
    if len > MAX_NAME {
        return Err(scan_refusal(pos, TokenRule::LongName));
    }
    let (run, rest) = text.split_at(len);
    let lexeme = word_lexeme(alloc, run)?;
    put(tokens, lexeme, pos)?;
    *cut = Cut {
        rest,
        pos: right(pos, len),
    };
    Ok(())
}

fn cut_number(cut: &mut Cut<'_>, tokens: &mut Vec<Token>) -> Result<(), ScanError>
    requires begins { Begins class.Digit cut.old.rest.now }
    requires room { HasRoom cut.old.pos cut.old.rest.now }
    ensures taken { OnOk result
        (Adds cut.old.rest.now cut.old.pos cut.new.rest.now cut.new.pos tokens.old.items
        tokens.new.items) }
    ensures refused { IfErr result (Stops cut.old.rest.now cut.old.pos) }
{
    let text = cut.rest;
    let pos = cut.pos;
    let len = run_len(text);
    let (run, rest) = text.split_at(len);
    match number_of(run) {
        Err(broken) => Err(scan_refusal(pos, broken)),
        Ok(token) => {
            put(tokens, token, pos)?;
            *cut = Cut {
                rest,
                pos: right(pos, len),
            };
            Ok(())
        }
    }
}

fn cut_string(alloc: Global, cut: &mut Cut<'_>, tokens: &mut Vec<Token>) -> Result<(), ScanError>
    requires begins { Begins class.Quote cut.old.rest.now }
    requires room { HasRoom cut.old.pos cut.old.rest.now }
    ensures taken { OnOk result
        (Adds cut.old.rest.now cut.old.pos cut.new.rest.now cut.new.pos tokens.old.items
        tokens.new.items) }
    ensures refused { IfErr result (Stops cut.old.rest.now cut.old.pos) }
{
    let text = cut.rest;
    let pos = cut.pos;
    let quote = text[0];
    let (_, behind) = text.split_at(1);
    let len = inside_len(quote, behind);
    if len == behind.len() || behind[len] != quote {
        return Err(scan_refusal(pos, TokenRule::OpenString));
    }
    let (inside, _) = behind.split_at(len);
    let good = printable_len(inside);
    if good < len {
        return Err(scan_refusal(right(pos, good + 1), TokenRule::StrayByte));
    }
    let bytes = Quoted::new(alloc, inside)?;
    let (_, rest) = text.split_at(len + 2);
    put(tokens, Lexeme::Text(bytes), pos)?;
    *cut = Cut {
        rest,
        pos: right(pos, len + 2),
    };
    Ok(())
}

/// Whether a comment begins here.
fn opens_comment(text: &[u8]) -> bool
    ensures { IsTrue result ↔ Opens text.now }
{
    text.len() > 1 && text[0] == b'(' && text[1] == b'*'
}

fn cut_comment(cut: &mut Cut<'_>) -> Result<(), ScanError>
    requires begins { Opens cut.old.rest.now }
    requires room { HasRoom cut.old.pos cut.old.rest.now }
    ensures taken { OnOk result
        (Takes cut.old.rest.now cut.old.pos None cut.new.rest.now cut.new.pos) }
    ensures refused { IfErr result (Stops cut.old.rest.now cut.old.pos) }
{
    let text = cut.rest;
    let pos = cut.pos;
    let (_, behind) = text.split_at(2);
    match comment_end(behind, right(pos, 2)) {
        None => Err(scan_refusal(pos, TokenRule::OpenComment)),
        Some((rest, after)) => {
            *cut = Cut { rest, pos: after };
            Ok(())
        }
    }
}

/// The operator or delimiter of two bytes that stands here.
fn pair(text: &[u8]) -> Option<Symbol>
    ensures { IsPair text.now result }
{
    if text.len() < 2 {
        return None;
    }
    pair_of(text[0], text[1])
}

fn cut_pair(symbol: Symbol, cut: &mut Cut<'_>, tokens: &mut Vec<Token>) -> Result<(), ScanError>
    requires found { IsPair cut.old.rest.now (Some symbol) }
    requires room { HasRoom cut.old.pos cut.old.rest.now }
    ensures taken { OnOk result
        (Adds cut.old.rest.now cut.old.pos cut.new.rest.now cut.new.pos tokens.old.items
        tokens.new.items) }
    ensures refused { IfErr result (Stops cut.old.rest.now cut.old.pos) }
{
    let text = cut.rest;
    let pos = cut.pos;
    let (_, rest) = text.split_at(2);
    put(tokens, Lexeme::Symbol(symbol), pos)?;
    *cut = Cut {
        rest,
        pos: right(pos, 2),
    };
    Ok(())
}

fn cut_single(cut: &mut Cut<'_>, tokens: &mut Vec<Token>) -> Result<(), ScanError>
    requires begins { Begins class.Other cut.old.rest.now }
    requires no_comment { Opens cut.old.rest.now → ⊥ }
    requires no_pair { IsPair cut.old.rest.now None }
    requires room { HasRoom cut.old.pos cut.old.rest.now }
    ensures taken { OnOk result
        (Adds cut.old.rest.now cut.old.pos cut.new.rest.now cut.new.pos tokens.old.items
        tokens.new.items) }
    ensures refused { IfErr result (Stops cut.old.rest.now cut.old.pos) }
{
    let text = cut.rest;
    let pos = cut.pos;
    match single_of(text[0]) {
        None => Err(scan_refusal(pos, TokenRule::StrayByte)),
        Some(symbol) => {
            let (_, rest) = text.split_at(1);
            put(tokens, Lexeme::Symbol(symbol), pos)?;
            *cut = Cut {
                rest,
                pos: right(pos, 1),
            };
            Ok(())
        }
    }
}

fn cut_sign(cut: &mut Cut<'_>, tokens: &mut Vec<Token>) -> Result<(), ScanError>
    requires begins { Begins class.Other cut.old.rest.now }
    requires no_comment { Opens cut.old.rest.now → ⊥ }
    requires room { HasRoom cut.old.pos cut.old.rest.now }
    ensures taken { OnOk result
        (Adds cut.old.rest.now cut.old.pos cut.new.rest.now cut.new.pos tokens.old.items
        tokens.new.items) }
    ensures refused { IfErr result (Stops cut.old.rest.now cut.old.pos) }
{
    match pair(cut.rest) {
        Some(symbol) => cut_pair(symbol, cut, tokens),
        None => cut_single(cut, tokens),
    }
}

fn cut_space(cut: &mut Cut<'_>)
    requires begins { Begins class.Space cut.old.rest.now }
    requires room { HasRoom cut.old.pos cut.old.rest.now }
    ensures { Takes cut.old.rest.now cut.old.pos None cut.new.rest.now cut.new.pos }
{
    let text = cut.rest;
    let pos = cut.pos;
    let (_, rest) = text.split_at(1);
    *cut = Cut {
        rest,
        pos: behind(pos, text[0]),
    };
}

/// Whether a blank stands here.
fn begins_blank(text: &[u8]) -> bool
    ensures { IsTrue result → Begins class.Space text.now }
{
    !text.is_empty() && text[0] == b' '
}

/// Cuts the blanks at the front of what is left of a text: most members are blanks that stand in a row.
pub fn cut_blanks(cut: &mut Cut<'_>)
    requires room { HasRoom cut.old.pos cut.old.rest.now }
    ensures { Skips cut.old.rest.now cut.old.pos cut.new.rest.now cut.new.pos }
{
    while begins_blank(cut.rest) {
        cut_space(cut);
    }
}

/// Cuts the member at the front of what is left of a text, and adds its token, if it is one.
pub fn next_cut(alloc: Global, cut: &mut Cut<'_>, tokens: &mut Vec<Token>) -> Result<(), ScanError>
    requires some { 0 < length cut.old.rest.now }
    requires room { HasRoom cut.old.pos cut.old.rest.now }
    ensures taken { OnOk result
        (Adds cut.old.rest.now cut.old.pos cut.new.rest.now cut.new.pos tokens.old.items
        tokens.new.items) }
    ensures refused { IfErr result (Stops cut.old.rest.now cut.old.pos) }
{
    match class_of(cut.rest[0]) {
        Class::Space => {
            cut_space(cut);
            Ok(())
        }
        Class::Letter => cut_name(alloc, cut, tokens),
        Class::Digit => cut_number(cut, tokens),
        Class::Quote => cut_string(alloc, cut, tokens),
        Class::Other if opens_comment(cut.rest) => cut_comment(cut),
        Class::Other => cut_sign(cut, tokens),
    }
}
