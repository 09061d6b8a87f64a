//! `m2 test`: a program, or each program of a class, judged by the cases of a folder.

use anyhow::Result;
use command_words::{Exit, FAILED};
use find_files::{find_program, program_of_text};
use judge_cases::{
    Case, Compared, Form, Grades, Limits, are_same, back, case_lines, class_row, comparand, front,
    grade, paths_of, read_cases, same_line,
};
use program_input::read_input;
use std::rt::Files;
use std::thread::Threads;
use system_streams::is_stream;
use tool_output::say_output_fault;
use tool_words::{PROGRAM, Setting, Told};

/// The status if all cases passed.
const PASSED: u8 = 0;

/// The status if a case did not pass.
const NOT_PASSED: u8 = 1;

fn form_of(told: Told) -> Form {
    match told {
        Told::Lines => Form::Lines,
        Told::Json => Form::Json,
        Told::Tap => Form::Tap,
        Told::Junit => Form::Junit,
    }
}

/// Prints a text. That this failed is reported.
fn say<R: Print + Eprint>(rt: &R, text: &str) -> Result<(), Exit> {
    match rt.write_all(text.as_bytes()) {
        Ok(()) => Ok(()),
        Err(error) => {
            say_output_fault(rt, &error);
            Err(Exit::Reported(FAILED))
        }
    }
}

/// The cases of a folder. That they cannot be read is reported.
fn cases_of<R>(rt: &R, folder: &str) -> Result<Vec<Case>, Exit>
where
    R: Files + Eprint + AllocGlobal + Clone + Drop,
{
    match read_cases(rt, folder) {
        Ok(cases) => Ok(cases),
        Err(error) => {
            let _ = eprintln!(rt; "{PROGRAM}: {error:#}");
            Err(Exit::Reported(FAILED))
        }
    }
}

/// Judges the program of this file by the cases of a folder, and says what came of each. The status.
pub fn test_program<R>(
    rt: &R,
    setting: &Setting,
    path: &str,
    folder: &str,
    told: Told,
    limits: Limits,
) -> Result<u8, Exit>
where
    R: Files + Print + Eprint + AllocGlobal + Threads + Sync + Clone + Drop,
{
    let (alloc, form) = (rt.alloc(), form_of(told));
    let cases = cases_of(rt, folder)?;
    let program = find_program(rt, setting, path)?;
    say(rt, front(alloc, form, cases.len())?.as_str())?;
    let grades = grade(
        rt,
        alloc,
        program.into_files(),
        setting.options,
        &cases,
        limits,
    )?;
    say(
        rt,
        case_lines(alloc, form, 0, path, &cases, &grades)?.as_str(),
    )?;
    let passed = grades.passed();
    let failed = cases.len().saturating_sub(passed);
    let words = format!(in alloc; "{passed} passed, {failed} failed")?;
    say(rt, back(alloc, form, words.as_str())?.as_str())?;
    Ok(if failed == 0 { PASSED } else { NOT_PASSED })
}

/// The text of a program of a class, or of as much as shows that it is too long. That it cannot be read is reported.
fn text_in_class<R>(rt: &R, path: &str) -> Option<Vec<u8>>
where
    R: Files + Input + Eprint + AllocGlobal,
{
    if is_stream(rt, path) {
        let _ = eprintln!(rt; "{PROGRAM}: cannot read {path}: it is not a file");
        return None;
    }
    match read_input(rt, path) {
        Ok(text) => Some(text),
        Err(error) => {
            let _ = eprintln!(rt; "{PROGRAM}: cannot read {path}: {error}");
            None
        }
    }
}

/// The text of a program of a class, if it can be read.
fn readable_text<R>(rt: &R, path: &str) -> Option<Vec<u8>>
where
    R: Files + Input + AllocGlobal,
{
    if is_stream(rt, path) {
        return None;
    }
    read_input(rt, path).ok()
}

/// What comes of the program of this file, also if it cannot be read.
fn grades_of<R>(
    rt: &R,
    setting: &Setting,
    path: &str,
    cases: &[Case],
    limits: Limits,
) -> Result<Grades, Exit>
where
    R: Files + Input + Print + Eprint + AllocGlobal + Threads + Sync,
{
    let Some(text) = text_in_class(rt, path) else {
        return Ok(Grades::without_program());
    };
    match program_of_text(rt, setting, path, text) {
        Ok(program) => {
            let files = program.into_files();
            Ok(grade(rt, rt.alloc(), files, setting.options, cases, limits)?)
        }
        Err(Exit::Reported(_)) => Ok(Grades::without_program()),
        Err(exit) => Err(exit),
    }
}

/// Judges each program of a class, and says what came of it. How many passed all cases.
fn grade_class<R>(
    rt: &R,
    setting: &Setting,
    paths: &[String],
    cases: &[Case],
    form: Form,
    limits: Limits,
) -> Result<usize, Exit>
where
    R: Files + Input + Print + Eprint + AllocGlobal + Threads + Sync,
{
    let mut passed = 0usize;
    for (place, path) in paths.iter().enumerate() {
        let path = path.as_str();
        let grades = grades_of(rt, setting, path, cases, limits)?;
        let said = match form {
            Form::Lines => class_row(rt.alloc(), path, cases, &grades)?,
            _ => {
                let before = place.saturating_mul(cases.len());
                case_lines(rt.alloc(), form, before, path, cases, &grades)?
            }
        };
        say(rt, said.as_str())?;
        if grades.passed() == cases.len() {
            passed = passed.saturating_add(1);
        }
    }
    Ok(passed)
}

/// Says of which programs before it this one has the tokens.
fn say_same_before<R: Print + Eprint + AllocGlobal>(
    rt: &R,
    form: Form,
    before: &[(&str, Compared)],
    path: &str,
    one: &Compared,
) -> Result<(), Exit> {
    for other in before {
        if are_same(&other.1, one) {
            let line = same_line(rt.alloc(), form, other.0, path)?;
            say(rt, line.as_str())?;
        }
    }
    Ok(())
}

/// Says which programs of these files have the same tokens.
fn say_same<R>(rt: &R, form: Form, paths: &[String]) -> Result<(), Exit>
where
    R: Files + Input + Print + Eprint + AllocGlobal,
{
    let mut before = Vec::new(rt.alloc());
    for path in paths {
        let path = path.as_str();
        if let Some(text) = readable_text(rt, path) {
            let one = comparand(rt.alloc(), &text)?;
            say_same_before(rt, form, &before, path, &one)?;
            before.push((path, one))?;
        }
    }
    Ok(())
}

/// The paths of a pattern. That a folder cannot be read, or that there are none, is reported.
fn class_of<R>(rt: &R, pattern: &str) -> Result<Vec<String>, Exit>
where
    R: Files + Eprint + AllocGlobal + Clone + Drop,
{
    let paths = paths_of(rt, pattern)?;
    if paths.is_empty() {
        let _ = eprintln!(rt; "{PROGRAM}: no file matches {pattern}");
        return Err(Exit::Reported(FAILED));
    }
    Ok(paths)
}

/// Judges each program whose file is of this pattern by the cases of a folder, and says what came of each. The status.
pub fn test_class<R>(
    rt: &R,
    setting: &Setting,
    pattern: &str,
    folder: &str,
    is_compared: bool,
    told: Told,
    limits: Limits,
) -> Result<u8, Exit>
where
    R: Files + Input + Print + Eprint + AllocGlobal + Threads + Sync + Clone + Drop,
{
    let (alloc, form) = (rt.alloc(), form_of(told));
    let cases = cases_of(rt, folder)?;
    let paths = class_of(rt, pattern)?;
    let all = paths.len();
    say(
        rt,
        front(alloc, form, all.saturating_mul(cases.len()))?.as_str(),
    )?;
    let passed = grade_class(rt, setting, &paths, &cases, form, limits)?;
    if is_compared {
        say_same(rt, form, &paths)?;
    }
    let words = format!(in alloc; "{passed} of {all} programs passed all cases")?;
    say(rt, back(alloc, form, words.as_str())?.as_str())?;
    Ok(if passed == all { PASSED } else { NOT_PASSED })
}
