//! Commands that go through a run.

use crate::asking::Travel;
use crate::goals::{Goals, Way};
use crate::session::Session;
use anyhow::Result;
use debug_history::{Frame, Outcome};
use debug_views::{Found, Sought};
use debug_words::Path;
use run_directory::end_word;
use std::thread::Threads;
use wasm_run::End;

/// The number of an end by HALT.
const HALTED: u8 = 9;

/// A variable whose change is sought.
#[derive(Clone, Copy)]
struct Watched {
    found: Found,
    address: u32,
    size: u32,
    /// How many functions run at least while it is there.
    least: usize,
}

impl<'a> Session<'a> {
    /// Goes so far, forwards or backwards.
    pub(crate) fn go(&mut self, way: Way, is_back: bool) -> Result<Outcome> {
        let goals = Goals {
            alloc: self.alloc,
            places: self.program.places(),
            breaks: &self.breaks.all,
            way,
        };
        if is_back {
            self.history.backward(&goals)
        } else {
            self.history.forward(&goals)
        }
    }

    /// Says where the run is.
    fn say_spot(&mut self) -> Result<()> {
        match self.teller().spot()? {
            None => self.say_nothing_runs()?,
            Some(words) => self.say(words.as_str())?,
        }
        Ok(())
    }

    /// Says at which breakpoint the run is, if it is at one.
    fn say_hit(&mut self) -> Result<()> {
        if let Some(number) = self.hit()? {
            let words = format!(in self.alloc; "breakpoint {number}\n")?;
            self.say(words.as_str())?;
        }
        Ok(())
    }

    /// Says with which fault the run ended, and where.
    fn say_fault<R>(&mut self, rt: &R, number: u8) -> Result<()>
    where
        R: AllocGlobal + Threads + Sync,
    {
        let word = end_word(number);
        let words = format!(in self.alloc; "fault {number}: {word}\n")?;
        self.say(words.as_str())?;
        let report = self.report(rt, number)?;
        if report.is_empty() {
            return self.say_spot();
        }
        Ok(self.say(report.as_str())?)
    }

    /// Says how the run ended.
    fn say_end<R>(&mut self, rt: &R) -> Result<()>
    where
        R: AllocGlobal + Threads + Sync,
    {
        match self.history.end() {
            Some(End::Done(0)) => Ok(self.say("the program has ended\n")?),
            Some(End::Done(HALTED)) => Ok(self.say("the program has ended by HALT\n")?),
            Some(End::Done(number)) => self.say_fault(rt, number),
            Some(End::Trap) => Ok(self.say("trap\n")?),
            Some(End::StillRunning) => {
                let steps = self.program.steps;
                let words = format!(in self.alloc;
                    "the program has made its {steps} reductions; --steps N allows more\n"
                )?;
                self.say(words.as_str())?;
                self.say_spot()
            }
            None => Ok(()),
        }
    }

    /// Says what was printed on the way, and to what the run has come.
    fn arrive<R>(&mut self, rt: &R, outcome: Outcome) -> Result<()>
    where
        R: AllocGlobal + Threads + Sync,
    {
        self.say_bytes(self.shown)?;
        self.shown = self.shown.max(self.history.state.output().len());
        match outcome {
            Outcome::There => {
                self.say_hit()?;
                self.say_spot()
            }
            Outcome::AtBegin => Ok(self.say("this is the begin of the program\n")?),
            Outcome::AtEnd => self.say_end(rt),
        }
    }

    /// Goes through the run, and says where it is then.
    pub(crate) fn follow<R>(&mut self, rt: &R, travel: Travel) -> Result<()>
    where
        R: AllocGlobal + Threads + Sync,
    {
        let outcome = self.travel(travel)?;
        self.arrive(rt, outcome)
    }

    /// Goes on until the function is left.
    pub(crate) fn finish<R>(&mut self, rt: &R) -> Result<()>
    where
        R: AllocGlobal + Threads + Sync,
    {
        match self.history.state.frames.len() {
            0 => Ok(self.say_nothing_runs()?),
            1 => Ok(self.say("the body of a module is left at its end alone; continue goes on\n")?),
            _ => self.follow(rt, Travel::Finish),
        }
    }

    /// The innermost function.
    fn innermost(&self) -> Option<Frame> {
        self.history.state.frames.last().map(|it| *it)
    }

    /// What a path stands for here. Nothing, with a sentence, if it stands for nothing.
    fn sought(&mut self, path: &Path) -> Result<Option<Found>> {
        let frame = self.innermost();
        let views = self.program.views;
        match views.find(self.alloc, &self.history.state, frame, path)? {
            Sought::Found(found) => Ok(Some(found)),
            Sought::Missing(words) => {
                self.say(words.as_str())?;
                self.say("\n")?;
                Ok(None)
            }
        }
    }

    /// Shows a variable that is typed so.
    pub(crate) fn print(&mut self, path: &Path, text: &str) -> Result<()> {
        let Some(found) = self.sought(path)? else {
            return Ok(());
        };
        let value = self.value_of(found)?;
        let words = format!(in self.alloc; "{text} = {value}\n")?;
        self.say(words.as_str())?;
        Ok(())
    }

    /// What is found, as words.
    fn value_of(&self, found: Found) -> Result<String> {
        let state = &self.history.state;
        Ok(self.program.views.text_of(self.alloc, state, found)?)
    }

    /// A variable whose change is sought.
    fn watched(&self, found: Found) -> Watched {
        let (address, size) = self.program.views.extent_of(found);
        let frames = &self.history.state.frames;
        let least = frames.iter().filter(|it| it.base <= address).count();
        Watched {
            found,
            address,
            size,
            least,
        }
    }

    /// Says the value that a variable has since it changed, and the one before.
    fn say_change(&mut self, watched: Watched, text: &str) -> Result<()> {
        let here = self.history.number();
        let now = self.value_of(watched.found)?;
        self.history.go_to(here.saturating_sub(1))?;
        let before = self.value_of(watched.found)?;
        self.history.go_to(here)?;
        let words = if self.innermost().is_some_and(|it| it.mark.is_none()) {
            format!(in self.alloc; "{text} = {now} since the procedure began\n")?
        } else {
            format!(in self.alloc; "{text} = {now}, and was {before}\n")?
        };
        self.say(words.as_str())?;
        self.say_spot()
    }

    /// Goes back to the statement that changed a variable last.
    pub(crate) fn watch(&mut self, path: &Path, text: &str) -> Result<()> {
        let Some(found) = self.sought(path)? else {
            return Ok(());
        };
        let watched = self.watched(found);
        let here = self.history.number();
        let way = Way::Change(watched.address, watched.size, watched.least);
        let goals = Goals {
            alloc: self.alloc,
            places: self.program.places(),
            breaks: &[],
            way,
        };
        let outcome = self.history.backward(&goals)?;
        let is_there = self.history.state.frames.len() >= watched.least;
        if outcome == Outcome::There && is_there {
            return self.say_change(watched, text);
        }
        self.history.go_to(here)?;
        let words = format!(in self.alloc; "{text} has not changed up to here\n")?;
        self.say(words.as_str())?;
        Ok(())
    }
}
