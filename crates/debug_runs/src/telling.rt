//! What is told of a place of a run.

use crate::breaks::Places;
use debug_history::{Activation, Frame, Place, State};
use debug_views::{FunctionView, Variable, Views};
use m2_tree::Pos;
use show_refusals::marked_line;
use std::alloc::{AllocError, Global};
use std::fmt::Write;
use text_tokens::{offset_of, part};

/// The most calls that are told, the innermost ones.
const MOST_CALLS: usize = 24;

/// How many lines are shown in front of a place, and behind it.
const LINES_AROUND: u32 = 5;

/// A place as it is told.
pub fn activation_of(frame: Frame) -> Activation {
    Activation {
        function: frame.function,
        mark: frame.mark.map(|it| it as usize),
    }
}

/// What is told of a run.
#[derive(Clone, Copy)]
pub struct Teller<'a> {
    pub alloc: Global,
    pub places: Places<'a>,
    pub state: &'a State,
    pub is_coloured: bool,
}

impl<'a> Teller<'a> {
    /// Where a function is that runs.
    fn place_of(&self, frame: Frame) -> Option<Place<'a>> {
        self.places.names.place_of(activation_of(frame))
    }

    /// Where the innermost function is.
    fn here(&self) -> Option<Place<'a>> {
        self.place_of(*self.state.frames.last()?)
    }

    /// Where the innermost function is, with its line. Nothing if none runs.
    pub fn spot(&self) -> Result<Option<String>, AllocError> {
        let Some(place) = self.here() else {
            return Ok(None);
        };
        let spot = place.spot(self.alloc)?;
        let function = place.function(self.alloc)?;
        let line = marked_line(self.alloc, &place.file.bytes, place.pos, self.is_coloured)?;
        Ok(Some(format!(in self.alloc; "{spot}: in {function}\n{line}")?))
    }

    /// Adds the row of a call.
    fn put_call(&self, text: &mut String, frame: Frame, front: &str) -> Result<(), AllocError> {
        if let Some(place) = self.place_of(frame) {
            let spot = place.spot(self.alloc)?;
            let function = place.function(self.alloc)?;
            write!(text, "{front}{function}, {spot}\n")?;
        }
        Ok(())
    }

    /// The calls, the innermost first.
    pub fn calls(&self) -> Result<String, AllocError> {
        let mut text = String::new(self.alloc);
        for frame in self.state.frames.iter().rev().take(MOST_CALLS) {
            let front = if text.is_empty() {
                "in "
            } else {
                "  called in "
            };
            self.put_call(&mut text, *frame, front)?;
        }
        let more = self.state.frames.len().saturating_sub(MOST_CALLS);
        if more > 0 {
            write!(text, "  and {more} more calls\n")?;
        }
        Ok(text)
    }

    /// The lines around the innermost function's place. Nothing if none runs.
    pub fn lines(&self) -> Result<Option<String>, AllocError> {
        let Some(place) = self.here() else {
            return Ok(None);
        };
        let mut text = String::new(self.alloc);
        let from = place.pos.line.saturating_sub(LINES_AROUND).max(1);
        let to = place.pos.line.saturating_add(LINES_AROUND);
        let begin = line_begin(&place.file.bytes, from);
        let mut number = from;
        for line in part(&place.file.bytes, begin, place.file.bytes.len()).split(|byte| *byte
            == b'\n')
        {
            if number > to {
                break;
            }
            let line = String::from_utf8_lossy(self.alloc, line.trim_ascii_end())?;
            let mark = if number == place.pos.line { '>' } else { ' ' };
            write!(text, "{mark}{number:5}  {line}\n")?;
            number = number.saturating_add(1);
        }
        Ok(Some(text))
    }

    /// Adds variables of a function that runs, or one around it.
    fn put_locals(
        &self,
        text: &mut String,
        frame: Frame,
        view: &FunctionView,
    ) -> Result<(), AllocError> {
        for variable in &view.variables {
            let found = self.places.views.local(self.state, frame, variable);
            if let Some(found) = found {
                let value = self.places.views.text_of(self.alloc, self.state, found)?;
                let name = String::from_utf8_lossy(self.alloc, &variable.name)?;
                write!(text, "  {name} = {value}\n")?;
            }
        }
        Ok(())
    }

    /// Adds the variables of a function that runs and of those around it.
    fn put_frames(&self, text: &mut String, frame: Frame) -> Result<(), AllocError> {
        let mut frame = frame;
        for _ in 0..self.places.views.functions.len() {
            let Some(view) = self.places.views.function(frame.function) else {
                break;
            };
            if !view.variables.is_empty() {
                write!(text, "{}\n", view.name)?;
                self.put_locals(text, frame, view)?;
            }
            match self.places.views.outwards(self.state, frame) {
                None => break,
                Some(outer) => frame = outer,
            }
        }
        Ok(())
    }

    /// Adds the variables of a module.
    fn put_module(&self, text: &mut String, module: usize) -> Result<(), AllocError> {
        let views: &Views = self.places.views;
        let Some(view) = views.modules.get(module) else {
            return Ok(());
        };
        let name = String::from_utf8_lossy(self.alloc, &view.name)?;
        if view.variables.is_empty() {
            return write!(text, "the module {name} has no variables\n");
        }
        write!(text, "{name}\n")?;
        for variable in &view.variables {
            self.put_own(text, module, variable)?;
        }
        Ok(())
    }

    /// Adds a variable of a module.
    fn put_own(
        &self,
        text: &mut String,
        module: usize,
        variable: &Variable,
    ) -> Result<(), AllocError> {
        let views = self.places.views;
        if let Some(found) = views.own(module, variable) {
            let value = views.text_of(self.alloc, self.state, found)?;
            let name = String::from_utf8_lossy(self.alloc, &variable.name)?;
            write!(text, "  {name} = {value}\n")?;
        }
        Ok(())
    }

    /// The variables of the innermost function and then of its module.
    pub fn variables(&self) -> Result<String, AllocError> {
        let mut text = String::new(self.alloc);
        let frame = self.state.frames.last().map(|it| *it);
        if let Some(frame) = frame {
            self.put_frames(&mut text, frame)?;
        }
        self.put_module(&mut text, self.places.views.module_of(frame))?;
        Ok(text)
    }
}

/// Where a line begins.
fn line_begin(text: &[u8], line: u32) -> usize {
    offset_of(text, Pos { line, col: 1 })
}
