//! What is said of grades, for people and for other programs.

use crate::case::Case;
use crate::excerpt::Mismatch;
use crate::grades::Grades;
use crate::verdict::{Judgement, words_of};
use std::alloc::{AllocError, Global};

/// A form of reports.
#[derive(Clone, Copy, PartialEq, Eq)]
pub enum Form {
    /// For people: a line for each case.
    Lines,
    /// An object for each case, a line each.
    Json,
    /// The Test Anything Protocol.
    Tap,
    /// The XML of JUnit.
    Junit,
}

/// What stands for a character that would end a line or a text.
const CONTROL: char = '?';

/// Adds a character of a text as it is written between the quotes of a form, or in a line.
fn push_escaped(out: &mut String, form: Form, c: char) -> Result<(), AllocError> {
    match (form, c) {
        _ if c.is_control() => out.push(CONTROL),
        (Form::Json, '"') => out.push_str("\\\""),
        (Form::Json | Form::Tap, '\\') => out.push_str("\\\\"),
        (Form::Tap, '#') => out.push_str("\\#"),
        (Form::Junit, '"') => out.push_str("&quot;"),
        (Form::Junit, '&') => out.push_str("&amp;"),
        (Form::Junit, '<') => out.push_str("&lt;"),
        (Form::Junit, '>') => out.push_str("&gt;"),
        _ => out.push(c),
    }
}

fn escaped(alloc: Global, form: Form, text: &str) -> Result<String, AllocError> {
    let mut out = String::new(alloc);
    for c in text.chars() {
        push_escaped(&mut out, form, c)?;
    }
    Ok(out)
}

/// Both lines of a mismatch, with this in front of each.
fn shown_lines(alloc: Global, front: &str, mismatch: &Mismatch) -> Result<String, AllocError> {
    let (wanted, printed) = (&mismatch.wanted, &mismatch.printed);
    format!(in alloc; "{front}wanted:  {wanted}\n{front}printed: {printed}\n")
}

/// The lines of both texts, with this in front of each; none if the output is not what is wrong.
fn lines_of(alloc: Global, front: &str, judgement: &Judgement) -> Result<String, AllocError> {
    match judgement.mismatch() {
        None => Ok(String::new(alloc)),
        Some(mismatch) => shown_lines(alloc, front, mismatch),
    }
}

/// A case of a program, and what came of it.
#[derive(Clone, Copy)]
struct Row<'a> {
    /// Its number, from 1.
    number: usize,
    /// The path of the program.
    program: &'a str,
    name: &'a str,
    judgement: &'a Judgement,
}

fn text_line(alloc: Global, row: Row<'_>) -> Result<String, AllocError> {
    let name = escaped(alloc, Form::Lines, row.name)?;
    let words = words_of(alloc, row.judgement)?;
    let lines = lines_of(alloc, "  ", row.judgement)?;
    let begin = if row.judgement.is_passed() {
        "ok"
    } else {
        "failed"
    };
    format!(in alloc; "{begin} {name}: {words}\n{lines}")
}

fn tap_line(alloc: Global, row: Row<'_>) -> Result<String, AllocError> {
    let number = row.number;
    let program = escaped(alloc, Form::Tap, row.program)?;
    let name = escaped(alloc, Form::Tap, row.name)?;
    let words = words_of(alloc, row.judgement)?;
    let lines = lines_of(alloc, "# ", row.judgement)?;
    let begin = if row.judgement.is_passed() {
        "ok"
    } else {
        "not ok"
    };
    format!(in alloc; "{begin} {number} - {program}: {name} # {words}\n{lines}")
}

/// The members that say where an output differs, with a comma in front.
fn json_members(alloc: Global, judgement: &Judgement) -> Result<String, AllocError> {
    let Some(mismatch) = judgement.mismatch() else {
        return Ok(String::new(alloc));
    };
    let (line, column) = (mismatch.at.line, mismatch.at.column);
    let wanted = escaped(alloc, Form::Json, mismatch.wanted.as_str())?;
    let printed = escaped(alloc, Form::Json, mismatch.printed.as_str())?;
    format!(in alloc;
        ",\"line\":{line},\"column\":{column},\"wanted\":\"{wanted}\",\"printed\":\"{printed}\""
    )
}

fn json_number(alloc: Global, number: Option<u64>) -> Result<String, AllocError> {
    match number {
        None => String::from_str(alloc, "null"),
        Some(number) => format!(in alloc; "{number}"),
    }
}

fn json_line(alloc: Global, row: Row<'_>) -> Result<String, AllocError> {
    let program = escaped(alloc, Form::Json, row.program)?;
    let name = escaped(alloc, Form::Json, row.name)?;
    let passed = row.judgement.is_passed();
    let steps = json_number(alloc, row.judgement.steps)?;
    let words = words_of(alloc, row.judgement)?;
    let more = json_members(alloc, row.judgement)?;
    let front = format!(in alloc;
        "{{\"program\":\"{program}\",\"case\":\"{name}\",\"passed\":{passed}"
    )?;
    format!(in alloc; "{front},\"reductions\":{steps},\"words\":\"{words}\"{more}}}\n")
}

fn junit_line(alloc: Global, row: Row<'_>) -> Result<String, AllocError> {
    let program = escaped(alloc, Form::Junit, row.program)?;
    let name = escaped(alloc, Form::Junit, row.name)?;
    let words = words_of(alloc, row.judgement)?;
    let lines = escaped_lines(alloc, row.judgement)?;
    let inside = if row.judgement.is_passed() {
        format!(in alloc; "<system-out>{words}</system-out>")?
    } else {
        format!(in alloc; "<failure message=\"{words}\">{lines}</failure>")?
    };
    format!(in alloc; "  <testcase classname=\"{program}\" name=\"{name}\">{inside}</testcase>\n")
}

/// Both lines of a mismatch as text of XML.
fn escaped_lines(alloc: Global, judgement: &Judgement) -> Result<String, AllocError> {
    let Some(mismatch) = judgement.mismatch() else {
        return Ok(String::new(alloc));
    };
    let wanted = escaped(alloc, Form::Junit, mismatch.wanted.as_str())?;
    let printed = escaped(alloc, Form::Junit, mismatch.printed.as_str())?;
    format!(in alloc; "wanted:  {wanted}\nprinted: {printed}")
}

fn case_line(alloc: Global, form: Form, row: Row<'_>) -> Result<String, AllocError> {
    match form {
        Form::Lines => text_line(alloc, row),
        Form::Json => json_line(alloc, row),
        Form::Tap => tap_line(alloc, row),
        Form::Junit => junit_line(alloc, row),
    }
}

/// What is said of each case of a program, of which the first has the number behind `before`.
pub fn case_lines(
    alloc: Global,
    form: Form,
    before: usize,
    program: &str,
    cases: &[Case],
    grades: &Grades,
) -> Result<String, AllocError> {
    let mut lines = String::new(alloc);
    for (place, case) in cases.iter().enumerate() {
        if let Some(judgement) = grades.at(place) {
            let row = Row {
                number: before.saturating_add(place).saturating_add(1),
                program,
                name: case.name.as_str(),
                judgement,
            };
            lines.push_str(case_line(alloc, form, row)?.as_str())?;
        }
    }
    Ok(lines)
}

/// The names of the cases that were not passed, each with a blank in front.
fn names_failed(alloc: Global, cases: &[Case], grades: &Grades) -> Result<String, AllocError> {
    let mut names = String::new(alloc);
    for (place, case) in cases.iter().enumerate() {
        if !matches!(grades.at(place), Some(judgement) if judgement.is_passed()) {
            names.push_str(" ")?;
            names.push_str(escaped(alloc, Form::Lines, case.name.as_str())?.as_str())?;
        }
    }
    Ok(names)
}

/// Why a program did not pass, with what stands in front; nothing if it passed all.
fn reason(alloc: Global, cases: &[Case], grades: &Grades) -> Result<String, AllocError> {
    if let Grades::All(judgement) = grades {
        let words = words_of(alloc, judgement)?;
        return format!(in alloc; ": {words}");
    }
    if grades.passed() == cases.len() {
        return Ok(String::new(alloc));
    }
    let names = names_failed(alloc, cases, grades)?;
    format!(in alloc; ", not{names}")
}

/// A line of the table of a class: the program, how many cases it passed, and which it did not.
pub fn class_row(
    alloc: Global,
    program: &str,
    cases: &[Case],
    grades: &Grades,
) -> Result<String, AllocError> {
    let program = escaped(alloc, Form::Lines, program)?;
    let (passed, all) = (grades.passed(), cases.len());
    let reason = reason(alloc, cases, grades)?;
    format!(in alloc; "{program}: {passed} of {all} passed{reason}\n")
}

/// That two programs have the same tokens.
pub fn same_line(
    alloc: Global,
    form: Form,
    first: &str,
    second: &str,
) -> Result<String, AllocError> {
    let first = escaped(alloc, form, first)?;
    let second = escaped(alloc, form, second)?;
    match form {
        Form::Lines => format!(in alloc; "{first} and {second} have the same tokens\n"),
        Form::Json => format!(in alloc; "{{\"same\":[\"{first}\",\"{second}\"]}}\n"),
        Form::Tap => format!(in alloc; "# {first} and {second} have the same tokens\n"),
        Form::Junit => {
            format!(in alloc;
                "  <system-out>{first} and {second} have the same tokens</system-out>\n"
            )
        }
    }
}

/// What stands before all cases.
pub fn front(alloc: Global, form: Form, cases: usize) -> Result<String, AllocError> {
    match form {
        Form::Lines | Form::Json => Ok(String::new(alloc)),
        Form::Tap => format!(in alloc; "1..{cases}\n"),
        Form::Junit => format!(in alloc; "<testsuite name=\"m2 test\" tests=\"{cases}\">\n"),
    }
}

/// What stands behind all cases. These words stand there for people.
pub fn back(alloc: Global, form: Form, words: &str) -> Result<String, AllocError> {
    match form {
        Form::Lines => format!(in alloc; "{words}\n"),
        Form::Json | Form::Tap => Ok(String::new(alloc)),
        Form::Junit => String::from_str(alloc, "</testsuite>\n"),
    }
}
