//! What a client asks of a session that has words of its own.

use crate::breaks::{Placed, Places};
use crate::goals::{Goals, Way};
use crate::session::Session;
use crate::telling::activation_of;
use anyhow::Result;
use debug_history::{Frame, Outcome, Place, explain_run};
use debug_views::{Sought, Views};
use debug_words::{Target, read_path};
use std::alloc::AllocError;
use std::thread::Threads;
use wasm_run::End;

/// How one goes through a run.
#[derive(Clone, Copy, Debug, PartialEq, Eq)]
pub enum Travel {
    /// From the begin to a breakpoint.
    Run,
    Continue,
    Step,
    Next,
    Finish,
    Back,
    BackContinue,
}

impl<'a> Session<'a> {
    /// Goes through the run. An error if memory ran out.
    pub fn travel(&mut self, travel: Travel) -> Result<Outcome> {
        let depth = self.history.state.frames.len();
        match travel {
            Travel::Run => {
                self.history.restart()?;
                self.shown = 0;
                self.go(Way::Break, false)
            }
            Travel::Continue => self.go(Way::Break, false),
            Travel::Step => self.go(Way::Statement, false),
            Travel::Next => self.go(Way::NoDeeper(depth.max(1)), false),
            Travel::Finish => self.go(Way::Shallower(depth), false),
            Travel::Back => self.go(Way::Statement, true),
            Travel::BackContinue => self.go(Way::Break, true),
        }
    }

    /// What was printed behind so many bytes.
    fn output_from(&self, from: usize) -> Result<String, AllocError> {
        let bytes = self.history.state.output().get(from..).unwrap_or(&[]);
        String::from_utf8_lossy(self.alloc, bytes)
    }

    /// What was printed since the last time. The only error is that memory ran out.
    pub fn new_output(&mut self) -> Result<String, AllocError> {
        let from = self.shown;
        let text = self.output_from(from)?;
        let length = self.history.state.output().len();
        self.shown = from.max(length);
        Ok(text)
    }

    /// The breakpoint at which the run is. The only error is that memory ran out.
    pub fn hit(&self) -> Result<Option<u64>, AllocError> {
        let goals = Goals {
            alloc: self.alloc,
            places: self.places(),
            breaks: &self.breaks.all,
            way: Way::Break,
        };
        goals.hit(&self.history.state)
    }

    /// The program, as breakpoints are set in it.
    fn places(&self) -> Places<'a> {
        self.program.places()
    }

    /// Where a breakpoint can stand that is asked for so. The only error is that memory ran out.
    pub fn place(&self, target: &Target) -> Result<Placed, AllocError> {
        self.places().place(self.alloc, target)
    }

    /// Takes the breakpoints of a module away. The only error is that memory ran out.
    pub fn clear_breaks(&mut self, module: &str) -> Result<(), AllocError> {
        let views = self.program.views;
        let Some(number) = views.module_named(module.as_bytes()) else {
            return Ok(());
        };
        let mut numbers = Vec::new(self.alloc);
        for it in &self.breaks.all {
            let function = views.function(it.statement.function);
            if function.is_some_and(|view| view.module == number) {
                numbers.push(it.number)?;
            }
        }
        for it in &numbers {
            let _ = self.breaks.remove(*it);
        }
        Ok(())
    }

    /// The variables of the program.
    pub fn views(&self) -> &'a Views {
        self.program.views
    }

    /// Where a function is that runs.
    pub fn place_of(&self, frame: Frame) -> Option<Place<'a>> {
        self.places().names.place_of(activation_of(frame))
    }

    /// What is said of a fault of this number, at which the run ended. An error if memory ran out.
    pub fn report<R>(&self, rt: &R, number: u8) -> Result<String>
    where
        R: AllocGlobal + Threads + Sync,
    {
        let program = self.program;
        let report = explain_run(
            rt,
            program.files,
            program.options,
            End::Done(number),
            program.steps,
            program.is_coloured,
        )?;
        Ok(match report {
            None => String::new(self.alloc),
            Some(report) => String::from_str(self.alloc, report.text.as_str())?,
        })
    }

    /// The value of a variable that is typed so, in a function that runs. A sentence if it is none. The only error is that memory ran
    /// out.
    pub fn value_named(
        &self,
        frame: Option<Frame>,
        text: &str,
    ) -> Result<Result<String, String>, AllocError> {
        let Some(path) = read_path(self.alloc, text)? else {
            let words = format!(in self.alloc; "'{text}' is no variable")?;
            return Ok(Err(words));
        };
        let state = &self.history.state;
        match self.program.views.find(self.alloc, state, frame, &path)? {
            Sought::Missing(words) => Ok(Err(words)),
            Sought::Found(found) => {
                Ok(Ok(self.program.views.text_of(self.alloc, state, found)?))
            }
        }
    }
}
