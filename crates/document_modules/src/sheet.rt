//! A page that is written, as Markdown or as HTML.

use crate::signs::{BACKQUOTE, most_backquotes, put_bare, put_html, put_markdown};
use std::alloc::{AllocError, Global};

/// Which kind of page it is.
#[derive(Clone, Copy, PartialEq, Eq)]
pub enum Kind {
    Markdown,
    Html,
}

/// The least backquotes that fence code in.
const LEAST_FENCE: usize = 3;

/// What stands in front of the title of an HTML page.
const HTML_BEGIN: &str = "<!DOCTYPE html>
<html lang=\"en\">
<head>
<meta charset=\"utf-8\">
<meta name=\"viewport\" content=\"width=device-width, initial-scale=1\">
<title>";

/// What stands between the title of an HTML page and what is read.
const HTML_STYLE: &str = "</title>
<style>
:root { color-scheme: light dark; --ink: #1c1c1c; --paper: #ffffff; --code: #f2f2ee; --link: #0b57a4; }
@media (prefers-color-scheme: dark) {
  :root { --ink: #e4e4e0; --paper: #161616; --code: #242422; --link: #8ab8ee; }
}
body { color: var(--ink); background: var(--paper); font: 1rem/1.5 system-ui, sans-serif; margin: 0; }
main { max-width: 48rem; margin: 0 auto; padding: 1rem; }
pre, code { font-family: ui-monospace, monospace; background: var(--code); }
pre { padding: 0.75rem; overflow-x: auto; }
a { color: var(--link); }
h2 { margin: 2rem 0 0.5rem; }
h2 + h2 { margin-top: 0; }
</style>
</head>
<body>
<main>
";

/// What stands behind all of an HTML page.
const HTML_END: &str = "
</main>
</body>
</html>
";

/// A page that is written. Want of memory is noted and told at the end, so what writes has no exits of its own.
pub struct Sheet {
    kind: Kind,
    out: Vec<u8>,
    /// The first want of memory. Nothing is written behind it.
    written: Result<(), AllocError>,
}

// Written by hand, so that proofs above take a drop as one call.
impl Drop for Sheet {
    fn drop(self) {
        let Sheet {
            kind: _,
            out,
            written: _,
        } = self;
        drop(out);
    }
}

impl Sheet {
    /// A page with this title.
    pub fn new(alloc: Global, kind: Kind, title: &[u8]) -> Sheet {
        let mut sheet = Sheet {
            kind,
            out: Vec::new(alloc),
            written: Ok(()),
        };
        sheet.put("# ", HTML_BEGIN);
        if kind == Kind::Html {
            sheet.put_plain(title);
            sheet.put("", HTML_STYLE);
            sheet.put("", "<h1>");
        }
        sheet.put_plain(title);
        sheet.put("\n\n", "</h1>\n");
        sheet
    }

    /// The page as a text, which ends with the end of one line. The only error is that memory ran out, here or before.
    pub fn finish(self, alloc: Global) -> Result<String, AllocError> {
        let Sheet { kind, out, written } = self;
        written?;
        let mut text = String::from_utf8_lossy(alloc, out.trim_ascii_end())?;
        text.push_str(match kind {
            Kind::Markdown => "\n",
            Kind::Html => HTML_END,
        })?;
        Ok(text)
    }

    /// Writes what each kind of page has in this place.
    fn put(&mut self, markdown: &str, html: &str) {
        let words = match self.kind {
            Kind::Markdown => markdown,
            Kind::Html => html,
        };
        if self.written.is_ok() {
            self.written = self.out.extend_from_slice(words.as_bytes());
        }
    }

    /// Writes words in which no sign means more than itself, maybe at the begin of a paragraph.
    fn put_words(&mut self, words: &[u8], is_first: bool) {
        if self.written.is_ok() {
            self.written = match self.kind {
                Kind::Markdown => put_markdown(&mut self.out, words, is_first),
                Kind::Html => put_html(&mut self.out, words),
            };
        }
    }

    /// Writes words in which no sign means more than itself.
    pub fn put_plain(&mut self, words: &[u8]) {
        self.put_words(words, false);
    }

    /// Writes words that stand in code.
    fn put_kept(&mut self, words: &[u8]) {
        if self.written.is_ok() {
            self.written = match self.kind {
                Kind::Markdown => put_bare(&mut self.out, words),
                Kind::Html => put_html(&mut self.out, words),
            };
        }
    }

    /// Writes code within a line.
    fn put_code(&mut self, words: &[u8]) {
        self.put("`", "<code>");
        self.put_kept(words);
        self.put("`", "</code>");
    }

    /// Writes a backquote that has no other.
    fn put_backquote(&mut self) {
        self.put("\\`", "`");
    }

    /// Writes words in which code stands between two backquotes.
    pub fn put_prose(&mut self, words: &[u8], is_first: bool) {
        let last = words.iter().filter(|it| **it == BACKQUOTE).count();
        for (number, part) in words.split(|it| *it == BACKQUOTE).enumerate() {
            let is_odd = number % 2 == 1;
            if is_odd && number < last && !part.is_empty() {
                self.put_code(part);
                continue;
            }
            if is_odd {
                self.put_backquote();
            }
            self.put_words(part, is_first && number == 0);
            if is_odd && number < last {
                self.put_backquote();
            }
        }
    }

    /// Writes a heading with an anchor.
    pub fn put_heading(&mut self, words: &[u8], anchor: &[u8]) {
        self.put("## ", "<h2 id=\"");
        if self.kind == Kind::Html {
            self.put_plain(anchor);
            self.put("", "\">");
        }
        self.put_plain(words);
        self.put("\n\n", "</h2>\n");
    }

    /// Writes a heading that nothing leads to.
    pub fn put_bare_heading(&mut self, words: &str) {
        self.put("## ", "<h2>");
        self.put_plain(words.as_bytes());
        self.put("\n\n", "</h2>\n");
    }

    /// Writes words that lead to a place.
    pub fn put_link(&mut self, words: &[u8], place: &[u8]) {
        let (front, other) = match self.kind {
            Kind::Markdown => (words, place),
            Kind::Html => (place, words),
        };
        self.put("[", "<a href=\"");
        self.put_plain(front);
        self.put("](", "\">");
        self.put_plain(other);
        self.put(")", "</a>");
    }

    /// Writes a line that parts what is above from what is below.
    pub fn put_rule(&mut self) {
        self.put("---\n\n", "<hr>\n");
    }

    pub fn begin_paragraph(&mut self) {
        self.put("", "<p>");
    }

    pub fn end_paragraph(&mut self) {
        self.put("\n\n", "</p>\n");
    }

    pub fn begin_list(&mut self) {
        self.put("", "<ul>\n");
    }

    pub fn end_list(&mut self) {
        self.put("\n", "</ul>\n");
    }

    pub fn begin_item(&mut self) {
        self.put("- ", "<li>");
    }

    pub fn end_item(&mut self) {
        self.put("\n", "</li>\n");
    }

    /// Writes the backquotes that fence these words in.
    fn put_fence(&mut self, words: &[u8]) {
        let count = most_backquotes(words).saturating_add(1).max(LEAST_FENCE);
        for _ in 0..count {
            self.put("`", "");
        }
    }

    /// Writes lines as they stand. They are in this language, if it is named.
    pub fn put_lines(&mut self, language: &str, lines: &[u8]) {
        match self.kind {
            Kind::Markdown => {
                self.put_fence(lines);
                self.put(language, "");
                self.put("\n", "");
                self.put_kept(lines);
                self.put_fence(lines);
                self.put("\n\n", "");
            }
            Kind::Html => {
                self.put("", "<pre><code>");
                self.put_kept(lines);
                self.put("", "</code></pre>\n");
            }
        }
    }
}
