//! Requests that go through the run.

use crate::adapter::Adapter;
use crate::messages::Request;
use anyhow::Result;
use debug_runs::{Outcome, Travel};
use run_directory::end_word;
use std::alloc::AllocError;
use std::thread::Threads;
use wasm_run::End;

/// The number of an end by HALT.
const HALTED: u8 = 9;

/// The status of a run that ended well, and of one that did not.
const WELL: u8 = 0;

const FAULTED: u8 = 1;

/// Why a run stops that went so, if it stops at no breakpoint.
fn reason_of(travel: Travel) -> &'static str {
    match travel {
        Travel::Run => "entry",
        Travel::Continue | Travel::BackContinue => "breakpoint",
        Travel::Step | Travel::Next | Travel::Finish | Travel::Back => "step",
    }
}

impl Adapter<'_> {
    /// How a request goes through the run. Nothing if it does not.
    pub fn travel_of(&self, request: &Request) -> Option<Travel> {
        match request.command.as_str() {
            "configurationDone" if self.stops_first => Some(Travel::Step),
            "configurationDone" | "continue" => Some(Travel::Continue),
            "next" => Some(Travel::Next),
            "stepIn" => Some(Travel::Step),
            "stepOut" => Some(Travel::Finish),
            "stepBack" => Some(Travel::Back),
            "reverseContinue" => Some(Travel::BackContinue),
            _ => None,
        }
    }

    /// Tells what was written to a stream of this name.
    fn tell_written(&mut self, stream: &str, words: &str) -> Result<(), AllocError> {
        let mut body = self.out.begin_body();
        body.words_member("category", stream);
        body.words_member("output", words);
        self.out.tell("output", body)
    }

    /// Tells what the program printed.
    fn tell_output(&mut self) -> Result<(), AllocError> {
        let output = self.session.new_output()?;
        if output.is_empty() {
            return Ok(());
        }
        self.tell_written("stdout", output.as_str())
    }

    /// Tells that the run has stopped.
    fn tell_stop(&mut self, reason: &str, words: &str) -> Result<(), AllocError> {
        let mut body = self.out.begin_body();
        body.flag_member("allThreadsStopped", true);
        body.words_member("reason", reason);
        body.words_member("text", words);
        body.number_member("threadId", 1);
        self.out.tell("stopped", body)
    }

    /// Tells that the program is over, with a status.
    fn tell_exit(&mut self, status: u8) -> Result<(), AllocError> {
        let mut body = self.out.begin_body();
        body.number_member("exitCode", u64::from(status));
        self.out.tell("exited", body)?;
        let nothing = self.out.begin_body();
        self.out.tell("terminated", nothing)
    }

    /// Tells how the run ended: a fault stops it first, so that one can go back from there.
    fn tell_end<R>(&mut self, rt: &R, was_at_end: bool) -> Result<()>
    where
        R: AllocGlobal + Threads + Sync,
    {
        match self.session.history.end() {
            Some(End::Done(WELL | HALTED)) | None => Ok(self.tell_exit(WELL)?),
            Some(_) if was_at_end => Ok(self.tell_exit(FAULTED)?),
            Some(End::Done(number)) => {
                let report = self.session.report(rt, number)?;
                self.tell_written("stderr", report.as_str())?;
                Ok(self.tell_stop("exception", end_word(number))?)
            }
            Some(End::Trap) => Ok(self.tell_stop("exception", "trap")?),
            Some(End::StillRunning) => Ok(self.tell_stop("pause", "all reductions are made")?),
        }
    }

    /// Goes through the run, and tells where it is then.
    pub fn travel<R>(&mut self, rt: &R, travel: Travel) -> Result<()>
    where
        R: AllocGlobal + Threads + Sync,
    {
        let was_at_end = self.session.history.end().is_some();
        let outcome = self.session.travel(travel)?;
        self.tell_output()?;
        match outcome {
            Outcome::There => {
                let is_hit = self.session.hit()?.is_some();
                let reason = if is_hit {
                    "breakpoint"
                } else {
                    reason_of(travel)
                };
                Ok(self.tell_stop(reason, "")?)
            }
            Outcome::AtBegin => Ok(self.tell_stop("entry", "this is the begin of the program")?),
            Outcome::AtEnd => self.tell_end(rt, was_at_end),
        }
    }
}
