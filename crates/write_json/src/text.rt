//! A text of JSON, token by token.

ghost use Rattle.std.specs.Prelude.{◌≡◌, ◌++◌, [], IsOk, IfOk, decimal};
ghost use Rattle.std.specs.Fmt.{signed_decimal};
ghost use Rattle.std.specs.String.{string_bytes};
ghost use Rattle.std.specs.Str.Lossy.{utf8_lossy};
ghost use Rattle.json.specs.Token as token;
ghost use Rattle.json.specs.Print.{print, IsPrintable};
ghost use Rattle.json.specs.Reads.{token_of};
ghost use Rattle.write_json.specs.Texts.{Adds, AddsTwo};

use json::{Token, Writer};
use std::alloc::{AllocError, Global};

/// A text of JSON in the making. Its nesting is the caller's.
pub struct Json {
    alloc: Global,
    out: Writer,
    /// The first want of memory. Nothing is written behind it.
    written: Result<(), AllocError>,
}

// Written by hand, so that proofs above take a drop as one call.
impl Drop for Json {
    fn drop(self) {
        let Json {
            alloc: _,
            out,
            written: _,
        } = self;
        drop(out);
    }
}

impl Json {
    /// An empty text.
    pub fn new(alloc: Global) -> Json
        ensures whole { IsOk result.written }
        ensures empty { result.out.tokens ≡ [] }
        ensures alone { result.out.before ≡ [] }
    {
        Json {
            alloc,
            out: Writer::new(Vec::new(alloc)),
            written: Ok(()),
        }
    }

    /// The text. The only error is that memory ran out, here or before.
    pub fn finish(self) -> Result<Vec<u8>, AllocError>
        ensures { IfOk result (λ text.
            IsOk self.written × (text.items ≡ self.out.before ++ print self.out.tokens)) }
    {
        let Json {
            alloc: _,
            out,
            written,
        } = self;
        let text = out.into_inner();
        written?;
        Ok(text)
    }

    /// Writes a token.
    fn put(&mut self, token: Token<'_>)
        requires { IsPrintable (token_of token) }
        ensures { Adds self.old self.new (token_of token.entry) }
    {
        if self.written.is_ok() {
            self.written = self.out.token(token);
        }
    }

    /// Begins an object.
    pub fn begin_object(&mut self)
        ensures { Adds self.old self.new token.begin_object }
    {
        self.put(Token::BeginObject);
    }

    /// Ends an object.
    pub fn end_object(&mut self)
        ensures { Adds self.old self.new token.end_object }
    {
        self.put(Token::EndObject);
    }

    /// Begins a list.
    pub fn begin_list(&mut self)
        ensures { Adds self.old self.new token.begin_array }
    {
        self.put(Token::BeginArray);
    }

    /// Ends a list.
    pub fn end_list(&mut self)
        ensures { Adds self.old self.new token.end_array }
    {
        self.put(Token::EndArray);
    }

    /// Writes the name of a member, behind which its value is written.
    pub fn name(&mut self, name: &str)
        ensures { Adds self.old self.new (token.key name.now) }
    {
        self.put(Token::Key(name));
    }

    /// Writes words.
    pub fn words(&mut self, words: &str)
        ensures { Adds self.old self.new (token.string words.now) }
    {
        self.put(Token::String(words));
    }

    /// Writes a truth value.
    pub fn flag(&mut self, flag: bool)
        ensures { Adds self.old self.new (token.boolean flag) }
    {
        self.put(Token::Bool(flag));
    }

    /// Writes null.
    pub fn null(&mut self)
        ensures { Adds self.old self.new token.null }
    {
        self.put(Token::Null);
    }

    /// Writes a number.
    pub fn number(&mut self, number: u64)
        ensures { Adds self.old self.new (token.number (decimal number)) }
    {
        if self.written.is_ok() {
            self.written = self.out.u64(number);
        }
    }

    /// Writes a number that may be negative.
    pub fn signed(&mut self, number: i64)
        ensures { Adds self.old self.new (token.number (signed_decimal number)) }
    {
        if self.written.is_ok() {
            self.written = self.out.i64(number);
        }
    }

    /// Writes bytes as words. What is no UTF-8 is replaced.
    pub fn bytes(&mut self, bytes: &[u8])
        ensures { Adds self.old self.new (token.string (utf8_lossy bytes.now)) }
    {
        match String::from_utf8_lossy(self.alloc, bytes) {
            Ok(words) => self.words(words.as_str()),
            Err(error) => self.written = Err(error),
        }
    }

    /// Writes words that were made, if memory did not run out.
    pub fn words_made(&mut self, words: Result<String, AllocError>)
        ensures words { IfOk words (λ w. Adds self.old self.new (token.string (string_bytes w))) }
        ensures lack { IsOk self.new.written → IsOk words }
    {
        match words {
            Ok(words) => self.words(words.as_str()),
            Err(error) => self.written = Err(error),
        }
    }

    /// Writes a member that is words.
    pub fn words_member(&mut self, name: &str, words: &str)
        ensures { AddsTwo self.old self.new (token.key name.now) (token.string words.now) }
    {
        self.name(name);
        self.words(words);
    }

    /// Writes a member that is a number.
    pub fn number_member(&mut self, name: &str, number: u64)
        ensures { AddsTwo self.old self.new (token.key name.now) (token.number (decimal number)) }
    {
        self.name(name);
        self.number(number);
    }

    /// Writes a member that is a truth value.
    pub fn flag_member(&mut self, name: &str, flag: bool)
        ensures { AddsTwo self.old self.new (token.key name.now) (token.boolean flag) }
    {
        self.name(name);
        self.flag(flag);
    }

    /// Writes a member that is bytes as words.
    pub fn bytes_member(&mut self, name: &str, bytes: &[u8])
        ensures { AddsTwo self.old self.new (token.key name.now)
            (token.string (utf8_lossy bytes.now)) }
    {
        self.name(name);
        self.bytes(bytes);
    }
}
