//! The mends that may help at a refused place.

use m2_tree::Symbol;
use refused_text::Source;
use std::alloc::{AllocError, Global};

/// The most mends of one place.
const MOST_MENDS: usize = 300;

/// An edit of a text that may mend it, and a sentence that says what to do, without a full stop.
#[derive(Drop)]
pub struct Mend {
    /// The first byte that it replaces.
    pub begin: usize,
    /// The byte behind those that it replaces.
    pub end: usize,
    /// What it puts there.
    pub text: Vec<u8>,
    /// What to do.
    pub words: String,
    /// Whether it is likely only if the whole is accepted with it.
    pub is_bold: bool,
}

/// The mends of a place that were found so far.
#[derive(Drop)]
pub struct Mends<'a> {
    pub alloc: Global,
    pub source: Source<'a>,
    pub all: Vec<Mend>,
    /// Whether what is added is likely only if the whole is accepted with it.
    pub is_bold: bool,
}

/// What a word of the language is called, with its article; a sign stands in quotes.
fn noun(alloc: Global, word: &str) -> Result<String, AllocError> {
    match word.as_bytes() {
        [b'A' | b'E' | b'I' | b'O', ..] => format!(in alloc; "an {word}"),
        [first, ..] if first.is_ascii_uppercase() => format!(in alloc; "a {word}"),
        _ => format!(in alloc; "a `{word}`"),
    }
}

/// Bytes as words.
pub fn words_of(alloc: Global, bytes: &[u8]) -> Result<String, AllocError> {
    String::from_utf8_lossy(alloc, bytes)
}

/// Whether a word stands behind what is in front of it, and not before what follows.
fn stands_behind(word: &str) -> bool {
    matches!(
        word,
        ";" | ")" | "]" | "}" | "," | ":" | "." | "THEN" | "DO" | "OF" | "()"
    )
}

/// Whether a word stands on a line of its own.
fn stands_alone(word: &str) -> bool {
    matches!(
        word,
        "END" | "END;" | "BEGIN" | "VAR" | "CONST" | "TYPE" | "ELSE"
    )
}

impl<'a> Mends<'a> {
    /// Adds an edit with its sentence, unless there are enough.
    pub fn put(
        &mut self,
        begin: usize,
        end: usize,
        text: &[u8],
        words: String,
    ) -> Result<(), AllocError> {
        if self.all.len() >= MOST_MENDS {
            return Ok(());
        }
        let text = Vec::from_slice(self.alloc, text)?;
        self.all.push(Mend {
            begin,
            end,
            text,
            words,
            is_bold: self.is_bold,
        })?;
        Ok(())
    }

    /// Replaces the tokens from one to another by a text, with a sentence.
    pub fn replace_all(
        &mut self,
        first: usize,
        last: usize,
        text: &[u8],
        words: String,
    ) -> Result<(), AllocError> {
        let (begin, end) = (self.source.begin(first), self.source.end(last));
        self.put(begin, end, text, words)
    }

    /// Adds an edit with a sentence that is known.
    pub fn put_known(
        &mut self,
        begin: usize,
        end: usize,
        text: &[u8],
        words: &str,
    ) -> Result<(), AllocError> {
        let words = String::from_str(self.alloc, words)?;
        self.put(begin, end, text, words)
    }

    /// Replaces the tokens from one to another by a text, with a sentence that is known.
    pub fn replace_known(
        &mut self,
        first: usize,
        last: usize,
        text: &[u8],
        words: &str,
    ) -> Result<(), AllocError> {
        let (begin, end) = (self.source.begin(first), self.source.end(last));
        self.put_known(begin, end, text, words)
    }

    /// Replaces the tokens from one to another by a text that the sentence shows behind the reason.
    pub fn write(
        &mut self,
        first: usize,
        last: usize,
        text: &str,
        reason: &str,
    ) -> Result<(), AllocError> {
        let words = format!(in self.alloc; "{reason}: write `{text}`")?;
        self.replace_all(first, last, text.as_bytes(), words)
    }

    /// Writes the tokens from one to another between two texts.
    pub fn wrap(
        &mut self,
        first: usize,
        last: usize,
        ends: (&str, &str),
        reason: &str,
    ) -> Result<(), AllocError> {
        let there = words_of(self.alloc, self.source.between(first, last))?;
        let text = format!(in self.alloc; "{}{there}{}", ends.0, ends.1)?;
        self.write(first, last, text.as_str(), reason)
    }

    /// Replaces a token by each of these words.
    pub fn replace_each(&mut self, at: usize, all: &[&str]) -> Result<(), AllocError> {
        for word in all {
            self.replace(at, word.as_bytes())?;
        }
        Ok(())
    }

    /// Replaces a token by another one's word.
    pub fn replace_by(&mut self, at: usize, other: usize) -> Result<(), AllocError> {
        let word = Vec::from_slice(self.alloc, self.source.spelling(other))?;
        self.replace(at, &word)
    }

    /// Replaces a token by a word.
    pub fn replace(&mut self, at: usize, word: &[u8]) -> Result<(), AllocError> {
        if self.source.spelling(at) == word {
            return Ok(());
        }
        let there = words_of(self.alloc, self.source.spelling(at))?;
        let new = words_of(self.alloc, word)?;
        let words = format!(in self.alloc; "write `{new}` in place of `{there}`")?;
        self.replace_all(at, at, word, words)
    }

    /// Takes a token out.
    pub fn remove(&mut self, at: usize) -> Result<(), AllocError> {
        let there = words_of(self.alloc, self.source.spelling(at))?;
        let words = format!(in self.alloc; "take `{there}` out")?;
        self.replace_all(at, at, b"", words)
    }

    /// Where something is put that stands in front of a token, in words.
    fn front_words(&self, at: usize) -> Result<String, AllocError> {
        if self.source.is_first(at) {
            return format!(in self.alloc; "before line {}", self.source.line(at));
        }
        let there = words_of(self.alloc, self.source.spelling(at))?;
        if there.is_empty() {
            return String::from_str(self.alloc, "at the end");
        }
        format!(in self.alloc; "before `{there}`")
    }

    /// Where something is put that stands behind the token in front of this one, in words.
    fn back_words(&self, at: usize) -> Result<String, AllocError> {
        if self.source.is_first(at) {
            let line = self.source.line(at.saturating_sub(1));
            return format!(in self.alloc; "at the end of line {line}");
        }
        self.front_words(at)
    }

    /// Puts a word behind the token in front of this one.
    fn put_behind(&mut self, at: usize, word: &str, words: String) -> Result<(), AllocError> {
        let place = self.source.end(at.saturating_sub(1));
        let is_word = word
            .as_bytes()
            .first()
            .is_some_and(|it| it.is_ascii_alphabetic());
        let blank = if is_word { " " } else { "" };
        let text = format!(in self.alloc; "{blank}{word}")?;
        self.put(place, place, text.as_bytes(), words)
    }

    /// A word as it stands in front of a token: on a line of its own, or with a blank behind it.
    pub fn leading(&self, at: usize, word: &str, is_alone: bool) -> Result<String, AllocError> {
        let mut text = String::from_str(self.alloc, word)?;
        if !is_alone {
            text.push(' ')?;
            return Ok(text);
        }
        text.push('\n')?;
        for _ in 1..self.source.column(at) {
            text.push(' ')?;
        }
        Ok(text)
    }

    /// Puts a word in front of a token, on a line of its own if it stands on one and the token begins a line.
    fn put_front(&mut self, at: usize, word: &str, words: String) -> Result<(), AllocError> {
        let place = self.source.begin(at);
        let text = self.leading(at, word, stands_alone(word) && self.source.is_first(at))?;
        self.put(place, place, text.as_bytes(), words)
    }

    /// What is said of a word that is missing between a token and the one in front of it.
    fn missing_words(&self, at: usize, word: &str) -> Result<String, AllocError> {
        let what = noun(self.alloc, word)?;
        let place = if stands_behind(word) {
            self.back_words(at)?
        } else {
            self.front_words(at)?
        };
        format!(in self.alloc; "{what} is missing: put it {place}")
    }

    /// Puts a word between a token and the one in front of it.
    pub fn insert(&mut self, at: usize, word: &str) -> Result<(), AllocError> {
        let words = self.missing_words(at, word)?;
        if stands_behind(word) {
            return self.put_behind(at, word, words);
        }
        self.put_front(at, word, words)
    }

    /// Puts a word of the text in front of a token.
    pub fn insert_name(&mut self, at: usize, name: &[u8]) -> Result<(), AllocError> {
        let name = words_of(self.alloc, name)?;
        let place = self.front_words(at)?;
        let words = format!(in self.alloc;
            "something is missing: put `{name}` or the like {place}"
        )?;
        self.put_front(at, name.as_str(), words)
    }

    /// Exchanges a token and the one behind it.
    pub fn exchange(&mut self, at: usize) -> Result<(), AllocError> {
        let behind = at.saturating_add(1);
        let (one, other) = (self.source.spelling(at), self.source.spelling(behind));
        if one.is_empty() || other.is_empty() || one == other {
            return Ok(());
        }
        let one = words_of(self.alloc, one)?;
        let other = words_of(self.alloc, other)?;
        let text = format!(in self.alloc; "{other} {one}")?;
        let words = format!(in self.alloc; "write `{other}` before `{one}`")?;
        self.replace_all(at, behind, text.as_bytes(), words)
    }

    /// The statement that has a token begins with the token of this number.
    pub fn statement_begin(&self, at: usize) -> usize {
        match text_tokens::front_of(&self.source.tokens, at) {
            Some(front) => front.token,
            None => at,
        }
    }

    /// The first token behind this one that is one of two symbols, or the end.
    pub fn next_of(&self, at: usize, one: Symbol, other: Symbol) -> usize {
        for number in at..self.source.tokens.len() {
            if self.source.is(number, one) || self.source.is(number, other) {
                return number;
            }
        }
        self.source.tokens.len().saturating_sub(1)
    }
}
