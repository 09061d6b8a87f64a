//! What a run does, a line for each statement.

use crate::session::Program;
use crate::telling::activation_of;
use anyhow::Result;
use debug_history::{Frame, History, Piece, Record};
use debug_views::{Component, Found};
use std::alloc::{AllocError, Global};
use std::fmt::Write as Text;
use std::io;
use std::io::Write;

/// How many records are kept of a run that goes forwards alone.
const KEPT: usize = 1024;

/// How many bytes are kept before they are written.
const ROOM: usize = 65536;

/// How a trace ended.
#[derive(Clone, Copy, Debug, PartialEq, Eq)]
pub enum Traced {
    /// It has all that the run did.
    Whole,
    /// The run goes on.
    Cut,
}

/// What a statement did so far.
#[derive(Drop)]
struct Segment {
    frame: Option<Frame>,
    /// Whether it has no line yet.
    is_new: bool,
    changes: Vec<Component>,
}

/// A trace in the making.
struct Tracer<'a> {
    alloc: Global,
    program: Program<'a>,
    history: History<'a>,
    segment: Segment,
    text: String,
    lines: u64,
}

// Written by hand, so that proofs above take a drop as one call.
impl<'a> Drop for Tracer<'a> {
    fn drop(self) {
        let Tracer {
            alloc: _alloc,
            program: _program,
            history,
            segment,
            text,
            lines: _lines,
        } = self;
        drop(history);
        drop(segment);
        drop(text);
    }
}

impl Tracer<'_> {
    /// Begins a line with where a function is.
    fn begin_line(&mut self, frame: Frame) -> Result<(), AllocError> {
        let names = self.program.places().names;
        if let Some(place) = names.place_of(activation_of(frame)) {
            let spot = place.spot(self.alloc)?;
            let function = place.function(self.alloc)?;
            write!(self.text, "{spot}: in {function}")?;
        }
        self.lines = self.lines.saturating_add(1);
        Ok(())
    }

    /// Adds a variable with its value.
    fn put_value(&mut self, between: &str, name: &str, found: Found) -> Result<(), AllocError> {
        let state = &self.history.state;
        let value = self.program.views.text_of(self.alloc, state, found)?;
        write!(self.text, "{between}{name} = {value}")
    }

    /// Adds the parameters of a procedure that begins.
    fn put_formals(&mut self, frame: Frame) -> Result<(), AllocError> {
        let views = self.program.views;
        let Some(view) = views.function(frame.function) else {
            return Ok(());
        };
        let mut is_first = true;
        for variable in view.variables.iter().take(view.formals) {
            if let Some(found) = views.local(&self.history.state, frame, variable) {
                let between = if is_first { " begins with " } else { ", " };
                let name = String::from_utf8_lossy(self.alloc, &variable.name)?;
                self.put_value(between, name.as_str(), found)?;
                is_first = false;
            }
        }
        if view.formals == 0 {
            self.text.push_str(" begins")?;
        }
        Ok(())
    }

    /// Adds what a statement changed.
    fn put_changes(&mut self, changes: &[Component]) -> Result<(), AllocError> {
        for (at, component) in changes.iter().enumerate() {
            let between = if at == 0 { ": " } else { ", " };
            self.put_value(
                between,
                component.name.as_str(),
                Found::Value(component.spot),
            )?;
        }
        Ok(())
    }

    /// The segment ends, and another one begins.
    fn flush(&mut self, is_new: bool) -> Result<(), AllocError> {
        let next = Segment {
            frame: self.history.state.frames.last().map(|it| *it),
            is_new,
            changes: Vec::new(self.alloc),
        };
        let Segment {
            frame,
            is_new,
            changes,
        } = std::mem::replace(&mut self.segment, next);
        let Some(frame) = frame else {
            return Ok(());
        };
        if !is_new && changes.is_empty() {
            return Ok(());
        }
        self.begin_line(frame)?;
        if frame.mark.is_none() {
            self.put_formals(frame)?;
        } else {
            self.put_changes(&changes)?;
        }
        self.text.push_str("\n")
    }

    /// Whether what was noted has these bytes already.
    fn is_noted(&self, address: u32) -> bool {
        self.segment.changes.iter().any(|it| {
            it.spot.address <= address && address < it.spot.address.saturating_add(it.size)
        })
    }

    /// Notes what was written.
    fn note(&mut self, piece: Piece) -> Result<(), AllocError> {
        let Some(frame) = self.segment.frame else {
            return Ok(());
        };
        if frame.mark.is_none() || self.is_noted(piece.address) {
            return Ok(());
        }
        let state = &self.history.state;
        let component = self
            .program
            .views
            .component_at(self.alloc, state, frame, piece.address, piece.is_block)?;
        if let Some(component) = component {
            self.segment.changes.push(component)?;
        }
        Ok(())
    }

    /// Follows a record that was made.
    fn follow(&mut self, record: Record) -> Result<(), AllocError> {
        match record {
            Record::Entered(_) | Record::Met(_) => self.flush(true),
            Record::Left(_) => self.flush(false),
            Record::Wrote(piece) => self.note(piece),
            Record::Printed(_) => Ok(()),
        }
    }

    /// Makes records until there are bytes to write. Whether the run goes on.
    fn fill(&mut self, most: u64) -> Result<bool> {
        for _ in 0..u64::MAX {
            if self.text.len() >= ROOM {
                return Ok(true);
            }
            if self.lines >= most {
                return Ok(false);
            }
            match self.history.advance()? {
                None => {
                    self.flush(false)?;
                    return Ok(false);
                }
                Some(record) => self.follow(record)?,
            }
        }
        Ok(false)
    }

    /// Writes what there is.
    fn write<W: Write>(&mut self, out: &mut W) -> io::Result<()> {
        let written = out.write_all(self.text.as_bytes());
        self.text.clear();
        written
    }
}

/// A tracer in front of the begin of a program.
fn tracer_of(alloc: Global, program: Program<'_>) -> Result<Tracer<'_>> {
    Ok(Tracer {
        alloc,
        program,
        history: History::new(alloc, program.prepared, program.steps, KEPT)?,
        segment: Segment {
            frame: None,
            is_new: false,
            changes: Vec::new(alloc),
        },
        text: String::new(alloc),
        lines: 0,
    })
}

/// Writes a line for each statement of a run, with the variables that it changed, as many lines as this at most. What came of it, or
/// why writing failed. An error if memory ran out.
pub fn trace_run<W: Write>(
    alloc: Global,
    program: Program<'_>,
    most: u64,
    out: &mut W,
) -> Result<io::Result<Traced>> {
    let mut tracer = tracer_of(alloc, program)?;
    for _ in 0..u64::MAX {
        let goes_on = tracer.fill(most)?;
        if let Err(error) = tracer.write(out) {
            return Ok(Err(error));
        }
        if !goes_on {
            break;
        }
    }
    Ok(Ok(if tracer.lines >= most {
        Traced::Cut
    } else {
        Traced::Whole
    }))
}
