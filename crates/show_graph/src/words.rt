//! Words of other programs: of a shell, of make and of ninja.

use write_text::Text;

/// Who reads a name.
#[derive(Clone, Copy, PartialEq, Eq)]
pub enum Reader {
    Make,
    /// make, behind the word `include`: there a colon is a character like others.
    Include,
    Ninja,
}

/// Whether a shell takes a character as it is.
fn is_plain(c: char) -> bool {
    c.is_ascii_alphanumeric() || matches!(c, '_' | '.' | '/' | '+' | ',' | ':' | '@' | '-')
}

/// Whether a shell takes a word of these parts as it is.
fn are_plain(parts: &[&str]) -> bool {
    let mut is_empty = true;
    for part in parts {
        if !part.chars().all(is_plain) {
            return false;
        }
        is_empty = is_empty && part.is_empty();
    }
    !is_empty
}

/// Puts a character into a word of a shell that stands between quotes, in a line of make or ninja.
fn put_quoted(page: &mut Text, c: char) {
    match c {
        '\'' => page.put("'\\''"),
        '$' => page.put("$$"),
        other => page.put_char(other),
    }
}

/// Puts a word of a shell into a line of make or ninja, between quotes if need be, with a blank in front. It has these parts.
pub fn put_word(page: &mut Text, parts: &[&str]) {
    page.put(" ");
    if are_plain(parts) {
        page.put_all(parts);
        return;
    }
    page.put("'");
    for part in parts {
        for c in part.chars() {
            put_quoted(page, c);
        }
    }
    page.put("'");
}

/// Puts backslashes: those in front of a blank are doubled in make's form.
fn put_backslashes(page: &mut Text, count: usize) {
    for _ in 0..count {
        page.put("\\");
    }
}

/// Puts a character of the name of a file as make reads it, behind so many backslashes.
fn put_for_make(page: &mut Text, c: char, backslashes: usize, is_included: bool) {
    match c {
        ' ' | '\t' => put_backslashes(page, backslashes.saturating_add(1)),
        '#' => page.put("\\"),
        ':' if !is_included => page.put("\\"),
        '$' => page.put("$"),
        _ => {}
    }
    page.put_char(c);
}

/// Puts the name of a file as make reads it, in a rule or behind the word `include`.
fn put_make_name(page: &mut Text, name: &str, is_included: bool) {
    let mut backslashes: usize = 0;
    for c in name.chars() {
        put_for_make(page, c, backslashes, is_included);
        backslashes = if c == '\\' {
            backslashes.saturating_add(1)
        } else {
            0
        };
    }
}

/// Puts the name of a file as ninja reads it.
fn put_ninja_name(page: &mut Text, name: &str) {
    for c in name.chars() {
        if matches!(c, ' ' | '$' | ':') {
            page.put("$");
        }
        page.put_char(c);
    }
}

/// Puts the name of a file as this program reads it.
pub fn put_name(page: &mut Text, reader: Reader, name: &str) {
    match reader {
        Reader::Make => put_make_name(page, name, false),
        Reader::Include => put_make_name(page, name, true),
        Reader::Ninja => put_ninja_name(page, name),
    }
}
