//! What is said of a run that did not end well.

use crate::parts::part_of;
use crate::place::{Names, Place};
use crate::watching::{Course, Marked, marked_program, watch};
use crate::words::{check_of, checked_words};
use anyhow::Result;
use follow_runs::{Call, Calls, calls_of};
use m2_rule::Fault;
use m2c::{Options, SourceFile};
use mark_statements::MarkKind;
use serde_json::{Value, json};
use show_refusals::marked_line;
use std::alloc::{AllocError, Global};
use std::fmt::Write;
use std::thread::Threads;
use wasm_run::End;
use watch_code::{Activation, Chosen};

/// How a run ended, where it was, and which calls lead there.
#[derive(Drop)]
pub struct Report {
    /// For people: the place and what is known of the values, the line with a mark, and the calls, each in a line.
    pub text: String,
    /// For programs: all of this as a JSON object in a line.
    pub object: String,
}

/// What is told of a run.
#[derive(Drop)]
struct Told<'a> {
    alloc: Global,
    names: Names<'a>,
    place: Place<'a>,
    words: String,
    calls: Calls,
}

/// What was learned of the check that failed: which words say so, and which part of the statement it is.
#[derive(Drop)]
struct Failure {
    words: String,
    sites: u8,
    site: Option<u8>,
}

impl Told<'_> {
    /// The row of a call, and of those of the same function around it.
    fn push_call(&self, text: &mut String, call: Call) -> Result<(), AllocError> {
        let Some(place) = self.names.place_of(call.activation) else {
            return Ok(());
        };
        let function = place.function(self.alloc)?;
        let spot = place.spot(self.alloc)?;
        write!(text, "  called in {function}, {spot}\n")?;
        if call.more > 0 {
            let more = call.more;
            write!(text, "  and {more} more of {function}\n")?;
        }
        Ok(())
    }

    /// The rows of the calls.
    fn push_calls(&self, text: &mut String) -> Result<(), AllocError> {
        let last = self.calls.told.len().saturating_sub(1);
        for (number, call) in self.calls.told.iter().enumerate() {
            let left_out = self.calls.left_out;
            if number == last && left_out > 0 {
                write!(text, "  and {left_out} more calls\n")?;
            }
            self.push_call(text, *call)?;
        }
        Ok(())
    }

    /// All that is said, for people.
    fn text(&self, is_coloured: bool) -> Result<String, AllocError> {
        let spot = self.place.spot(self.alloc)?;
        let function = self.place.function(self.alloc)?;
        let between = if self.words.is_empty() { "" } else { ": " };
        let words = &self.words;
        let mut text = format!(in self.alloc; "{spot}: in {function}{between}{words}\n")?;
        let bytes = &self.place.file.bytes;
        text.push_str(marked_line(self.alloc, bytes, self.place.pos, is_coloured)?.as_str())?;
        self.push_calls(&mut text)?;
        Ok(text)
    }

    /// The object of a place.
    fn object_of(&self, place: &Place<'_>, more: usize) -> Result<Value, AllocError> {
        let function = place.function(self.alloc)?;
        json!(in self.alloc; {
            "column": place.pos.col,
            "file": place.file.name.as_str(),
            "in": function.as_str(),
            "line": place.pos.line,
            "module": place.module,
            "more": more as u64
        })
    }

    /// The objects of the calls.
    fn call_objects(&self) -> Result<Vec<Value>, AllocError> {
        let mut all = Vec::new(self.alloc);
        for call in &self.calls.told {
            if let Some(place) = self.names.place_of(call.activation) {
                all.push(self.object_of(&place, call.more)?)?;
            }
        }
        Ok(all)
    }

    /// All that is said, for programs.
    fn object(&self, end: u64) -> Result<String, AllocError> {
        let place = self.object_of(&self.place, 0)?;
        let calls = Value::Array(self.call_objects()?);
        let object = json!(in self.alloc; {
            "calls": calls,
            "fault": end,
            "left_out": self.calls.left_out as u64,
            "place": place,
            "words": self.words.as_str()
        })?;
        object.to_string(self.alloc)
    }
}

/// The number of a fault, and 0 of a run that goes on.
fn number_of(end: End) -> u8 {
    match end {
        End::Done(number) => number,
        End::Trap | End::StillRunning => 0,
    }
}

/// The check that failed in a statement. The run is made once more, in which this statement tells.
fn failure_at(
    alloc: Global,
    program: &Marked,
    steps: u64,
    chosen: Chosen,
    fault: Fault,
) -> Result<Option<Failure>> {
    let Some(course) = watch(alloc, program, steps, Some(chosen))? else {
        return Ok(None);
    };
    match course.reader.checked() {
        None => Ok(None),
        Some(checked) => Ok(Some(Failure {
            words: checked_words(alloc, fault, checked)?,
            sites: course.sites,
            site: course.reader.site,
        })),
    }
}

/// The number of the first mark that tells of the place of this one.
fn first_mark(program: &Marked, function: u32, mark: usize) -> Option<usize> {
    let marks = &program.functions.all.get(function as usize)?.marks;
    let pos = marks.get(mark)?.pos;
    marks.iter().position(|it| it.pos == pos)
}

/// The check that failed in the innermost function. What a WHILE tests in its turns is the code behind its begin.
fn failure_of(
    alloc: Global,
    program: &Marked,
    steps: u64,
    activation: Activation,
    number: u8,
    fault: Fault,
) -> Result<Option<Failure>> {
    let (function, Some(mark)) = (activation.function, activation.mark) else {
        return Ok(None);
    };
    let chosen = Chosen {
        function,
        mark,
        fault: number,
    };
    if let Some(failure) = failure_at(alloc, program, steps, chosen, fault)? {
        return Ok(Some(failure));
    }
    match first_mark(program, function, mark).filter(|first| *first != mark) {
        None => Ok(None),
        Some(mark) => failure_at(alloc, program, steps, Chosen { mark, ..chosen }, fault),
    }
}

/// The place of the innermost function, moved to the part that failed.
fn move_to_part(
    alloc: Global,
    place: &mut Place<'_>,
    fault: Fault,
    failure: &Failure,
) -> Result<(), AllocError> {
    if let Some(site) = failure.site {
        let bytes = &place.file.bytes;
        if let Some(pos) = part_of(alloc, bytes, place.pos, fault, site, failure.sites)? {
            place.pos = pos;
        }
    }
    Ok(())
}

/// What is told of a course that ended as the run did.
fn told_of<'a>(
    alloc: Global,
    files: &'a [SourceFile],
    program: &'a Marked,
    steps: u64,
    course: &Course,
    end: End,
) -> Result<Option<Told<'a>>> {
    let names = Names {
        files,
        modules: &program.modules,
        functions: &program.functions.all,
    };
    let activations = &course.reader.activations;
    let Some(innermost) = activations.last() else {
        return Ok(None);
    };
    let Some(mut place) = names.place_of(*innermost) else {
        return Ok(None);
    };
    let mut words = String::new(alloc);
    let number = number_of(end);
    if let Some(fault) = check_of(number) {
        if let Some(failure) = failure_of(alloc, program, steps, *innermost, number, fault)? {
            let is_turn = names.kind_of(*innermost) == Some(MarkKind::Turn);
            if fault != Fault::OutOfRange || !is_turn {
                move_to_part(alloc, &mut place, fault, &failure)?;
            }
            words = failure.words;
        }
    }
    Ok(Some(Told {
        alloc,
        names,
        place,
        words,
        calls: calls_of(alloc, activations)?,
    }))
}

/// Where the run of the program of these files was when it ended so, after at most so many reductions. Nothing if that cannot be
/// known, as the program with its marks may be too long or nest too deep, or if the run that was made once more ended in another way.
///
/// An error if memory ran out.
pub fn explain_run<R>(
    rt: &R,
    files: &[SourceFile],
    options: Options,
    end: End,
    steps: u64,
    is_coloured: bool,
) -> Result<Option<Report>>
where
    R: AllocGlobal + Threads + Sync,
{
    let alloc = rt.alloc();
    let Some(program) = marked_program(rt, files, options)? else {
        return Ok(None);
    };
    let Some(course) = watch(alloc, &program, steps, None)? else {
        return Ok(None);
    };
    if course.end != Some(end) {
        return Ok(None);
    }
    match told_of(alloc, files, &program, steps, &course, end)? {
        None => Ok(None),
        Some(told) => Ok(Some(Report {
            text: told.text(is_coloured)?,
            object: told.object(u64::from(number_of(end)))?,
        })),
    }
}
