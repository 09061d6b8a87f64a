//! A session: commands are answered.

use crate::asking::Travel;
use crate::breaks::{Breaks, Placed, Places};
use crate::telling::Teller;
use anyhow::Result;
use build_jobs::{Options, SourceFile};
use debug_history::{History, MOST_RECORDS, Marked, Names, Prepared};
use debug_views::Views;
use debug_words::{Command, Condition, HELP, Target, read_command};
use std::alloc::{AllocError, Global};
use std::thread::Threads;

/// What is said where no function runs.
const NOT_BEGUN: &str = "the program has not begun; run or step begins it\n";

const NOTHING_RUNS: &str = "nothing runs here; back leads to the last statement\n";

/// A program in a session.
#[derive(Clone, Copy)]
pub struct Program<'a> {
    pub files: &'a [SourceFile],
    pub options: Options,
    pub marked: &'a Marked,
    pub prepared: &'a Prepared,
    pub views: &'a Views,
    /// The most reductions of a run.
    pub steps: u64,
    pub is_coloured: bool,
}

/// A session.
pub struct Session<'a> {
    pub(crate) alloc: Global,
    pub(crate) program: Program<'a>,
    pub history: History<'a>,
    pub breaks: Breaks,
    /// How many of the printed bytes were shown.
    pub(crate) shown: usize,
    /// What is to be said.
    text: Vec<u8>,
    /// Whether the session is over.
    pub is_over: bool,
}

// Written by hand, so that proofs above take a drop as one call, and not as one for each field.
impl Drop for Session<'_> {
    fn drop(self) {
        let Session {
            alloc: _,
            program: _,
            history,
            breaks,
            shown: _,
            text,
            is_over: _,
        } = self;
        drop(history);
        drop(breaks);
        drop(text);
    }
}

impl<'a> Program<'a> {
    /// The program, as breakpoints are set in it.
    pub fn places(&self) -> Places<'a> {
        Places {
            names: Names {
                files: self.files,
                modules: &self.marked.modules,
                functions: &self.marked.functions.all,
            },
            views: self.views,
        }
    }
}

impl<'a> Session<'a> {
    /// A session in front of the begin of a program. An error if memory ran out.
    pub fn new(alloc: Global, program: Program<'a>) -> Result<Session<'a>> {
        Ok(Session {
            alloc,
            program,
            history: History::new(alloc, program.prepared, program.steps, MOST_RECORDS)?,
            breaks: Breaks::new(alloc),
            shown: 0,
            text: Vec::new(alloc),
            is_over: false,
        })
    }

    /// Adds words to what is said.
    pub(crate) fn say(&mut self, words: &str) -> Result<(), AllocError> {
        self.text.extend_from_slice(words.as_bytes())
    }

    /// The bytes that the program printed behind so many, with the end of their line.
    fn printed_from(&self, from: usize) -> Result<Vec<u8>, AllocError> {
        let bytes = self.history.state.output().get(from..).unwrap_or(&[]);
        let mut printed = Vec::from_slice(self.alloc, bytes)?;
        if !bytes.is_empty() && !bytes.ends_with(b"\n") {
            printed.push(b'\n')?;
        }
        Ok(printed)
    }

    /// Adds bytes that the program printed, and ends their line.
    pub(crate) fn say_bytes(&mut self, from: usize) -> Result<(), AllocError> {
        let printed = self.printed_from(from)?;
        self.text.extend_from_slice(&printed)
    }

    /// What is said of the place at which the run is.
    pub(crate) fn teller(&self) -> Teller<'_> {
        Teller {
            alloc: self.alloc,
            places: self.program.places(),
            state: &self.history.state,
            is_coloured: self.program.is_coloured,
        }
    }

    /// Says that nothing runs.
    pub(crate) fn say_nothing_runs(&mut self) -> Result<(), AllocError> {
        if self.history.number() == 0 {
            self.say(NOT_BEGUN)
        } else {
            self.say(NOTHING_RUNS)
        }
    }

    /// Sets a breakpoint.
    fn set_break(&mut self, target: &Target, condition: Option<Condition>) -> Result<()> {
        let places = self.program.places();
        let statement = match places.place(self.alloc, target)? {
            Placed::Here(statement) => statement,
            Placed::Nowhere(words) => {
                self.say(words.as_str())?;
                self.say("\n")?;
                return Ok(());
            }
        };
        if let Target::Line(_, line) = target {
            if statement.pos.line != *line {
                let words = format!(in self.alloc; "line {line} has no statement of its own; ")?;
                self.say(words.as_str())?;
            }
        }
        let number = self.breaks.add(statement, condition)?;
        self.say_break(number)
    }

    /// Says where a breakpoint stands.
    fn say_break(&mut self, number: u64) -> Result<()> {
        let Some(it) = self.breaks.all.iter().find(|it| it.number == number) else {
            return Ok(());
        };
        let words = self.program.places().words_of(self.alloc, it)?;
        self.say(words.as_str())?;
        Ok(())
    }

    /// Lists the breakpoints.
    fn say_breaks(&mut self) -> Result<()> {
        if self.breaks.all.is_empty() {
            self.say("there are no breakpoints\n")?;
        }
        for at in 0..self.breaks.all.len() {
            if let Some(it) = self.breaks.all.get(at) {
                let number = it.number;
                self.say_break(number)?;
            }
        }
        Ok(())
    }

    /// Takes a breakpoint away.
    fn delete(&mut self, number: u64) -> Result<()> {
        let words = if self.breaks.remove(number) {
            format!(in self.alloc; "breakpoint {number} is gone\n")?
        } else {
            format!(in self.alloc; "there is no breakpoint {number}\n")?
        };
        self.say(words.as_str())?;
        Ok(())
    }

    /// Shows the calls.
    fn say_where(&mut self) -> Result<()> {
        let words = self.teller().calls()?;
        if words.is_empty() {
            self.say_nothing_runs()?;
        }
        self.say(words.as_str())?;
        Ok(())
    }

    /// Shows the lines around.
    fn say_lines(&mut self) -> Result<()> {
        match self.teller().lines()? {
            None => self.say_nothing_runs()?,
            Some(words) => self.say(words.as_str())?,
        }
        Ok(())
    }

    /// Shows the variables.
    fn say_variables(&mut self) -> Result<()> {
        let words = self.teller().variables()?;
        self.say(words.as_str())?;
        Ok(())
    }

    /// Shows what the program has printed.
    fn say_output(&mut self) -> Result<()> {
        if self.history.state.output().is_empty() {
            self.say("the program has printed nothing\n")?;
        }
        self.say_bytes(0)?;
        let more = self.history.state.unkept();
        if more > 0 {
            let words = format!(in self.alloc; "and {more} more bytes\n")?;
            self.say(words.as_str())?;
        }
        Ok(())
    }

    /// Answers a command that shows something.
    fn show(&mut self, command: &Command) -> Result<()> {
        match command {
            Command::Breaks => self.say_breaks(),
            Command::Delete(number) => self.delete(*number),
            Command::Where => self.say_where(),
            Command::List => self.say_lines(),
            Command::Variables => self.say_variables(),
            Command::Print(path, text) => self.print(path, text.as_str()),
            Command::Watch(path, text) => self.watch(path, text.as_str()),
            Command::Output => self.say_output(),
            Command::Help => Ok(self.say(HELP)?),
            Command::Mistake(words) => {
                self.say(words.as_str())?;
                Ok(self.say("\n")?)
            }
            _ => Ok(()),
        }
    }

    /// Answers a command.
    fn obey<R>(&mut self, rt: &R, command: Command) -> Result<()>
    where
        R: AllocGlobal + Threads + Sync,
    {
        match command {
            Command::Break(target, condition) => self.set_break(&target, condition),
            Command::Run => self.follow(rt, Travel::Run),
            Command::Continue => self.follow(rt, Travel::Continue),
            Command::Step => self.follow(rt, Travel::Step),
            Command::Next => self.follow(rt, Travel::Next),
            Command::Finish => self.finish(rt),
            Command::Back => self.follow(rt, Travel::Back),
            Command::BackContinue => self.follow(rt, Travel::BackContinue),
            Command::Quit => {
                self.is_over = true;
                Ok(())
            }
            other => self.show(&other),
        }
    }

    /// Answers a line. What is said, in lines. An error if memory ran out.
    pub fn answer<R>(&mut self, rt: &R, line: &str) -> Result<Vec<u8>>
    where
        R: AllocGlobal + Threads + Sync,
    {
        let command = read_command(self.alloc, line)?;
        self.obey(rt, command)?;
        Ok(std::mem::replace(&mut self.text, Vec::new(self.alloc)))
    }
}
