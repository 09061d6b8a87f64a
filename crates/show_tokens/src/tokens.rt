//! The tokens of a text, each in a line.

ghost use Rattle.std.specs.Prelude.{◌≡◌, ◌==◌, IfOk};
ghost use Rattle.std.specs.List.{list_any};
ghost use Rattle.show_code.specs.Pages.{Puts};
ghost use Rattle.show_tokens.specs.Tokens.{lexeme_line, lexeme_text, lexemes_text, octal, quote_bytes, quote_of, token_line, tokens_text};

use crate::signs::spelling;
use m2_tree::{Lexeme, Token};
use show_code::Page;
use std::alloc::{AllocError, Global};

/// Whether a double quote stands among these bytes.
fn has_quote(bytes: &[u8]) -> bool
    ensures { result ≡ list_any (λ b. b == 34) bytes.now }
{
    bytes.iter().any(|byte| *byte == b'"')
}

/// The quote between which a string is shown: one that does not stand in it.
#[tactic(auto, unfolding(crate::specs::Tokens::quote_of))]
fn quote_of(bytes: &[u8]) -> u8
    ensures { result ≡ quote_of bytes.now }
{
    if has_quote(bytes) { b'\'' } else { b'"' }
}

/// Puts a string between quotes.
pub fn put_quoted(page: &mut Page, bytes: &[u8])
    ensures { Puts page.old page.new (quote_bytes bytes.now) }
{
    let quote = [quote_of(bytes)];
    page.put(&quote);
    page.put(bytes);
    page.put(&quote);
}

/// Puts the code of a character, as octal numbers write it.
#[tactic(auto, unfolding(crate::specs::Tokens::octal))]
pub fn put_octal(page: &mut Page, code: u8)
    ensures { Puts page.old page.new (octal code) }
{
    let digits = [b'0' + code / 64, b'0' + code / 8 % 8, b'0' + code % 8];
    page.put(&digits);
}

/// Puts what a token says.
fn put_lexeme(page: &mut Page, lexeme: &Lexeme)
    ensures { Puts page.old page.new (lexeme_text lexeme.now) }
{
    match lexeme {
        Lexeme::Name(name) => {
            page.put(b"name ");
            page.put(name.as_bytes());
        }
        Lexeme::Number(number) => {
            page.put(b"number ");
            page.put_number(u64::from(*number));
        }
        Lexeme::Char(code) => {
            page.put(b"character ");
            put_octal(page, *code);
            page.put(b"C");
        }
        Lexeme::Text(text) => {
            page.put(b"string ");
            put_quoted(page, text.as_bytes());
        }
        Lexeme::Symbol(symbol) => page.put(spelling(*symbol).as_bytes()),
        Lexeme::End => page.put(b"end"),
    }
}

/// Puts what a token says in a line.
#[tactic(auto, unfolding(crate::specs::Tokens::lexeme_line))]
fn put_line(page: &mut Page, lexeme: &Lexeme)
    ensures { Puts page.old page.new (lexeme_line lexeme.now) }
{
    put_lexeme(page, lexeme);
    page.put(b"\n");
}

/// Puts the line of a token.
#[tactic(auto, unfolding(crate::specs::Tokens::token_line))]
fn put_token(page: &mut Page, token: &Token)
    ensures { Puts page.old page.new (token_line token.now) }
{
    page.put_place(token.pos);
    page.put(b" ");
    put_line(page, &token.lexeme);
}

/// A line for each token, in order: its place, and what it says. The only error is that memory ran out.
pub fn show_tokens(alloc: Global, tokens: &[Token]) -> Result<Vec<u8>, AllocError>
    ensures { IfOk result (λ text. text.items ≡ tokens_text tokens.now) }
{
    let mut page = Page::new(alloc);
    for token in tokens {
        put_token(&mut page, token);
    }
    page.finish()
}

/// A line for each token, in order: what it says. The only error is that memory ran out.
pub fn show_lexemes(alloc: Global, tokens: &[Token]) -> Result<Vec<u8>, AllocError>
    ensures { IfOk result (λ text. text.items ≡ lexemes_text tokens.now) }
{
    let mut page = Page::new(alloc);
    for token in tokens {
        put_line(&mut page, &token.lexeme);
    }
    page.finish()
}
