//! Requests of a session are answered.

use crate::messages::{Outgoing, Request};
use anyhow::Result;
use debug_runs::Session;
use std::alloc::AllocError;
use std::thread::Threads;
use write_json::Json;

/// A session with an editor.
pub struct Adapter<'a> {
    pub session: Session<'a>,
    pub out: Outgoing,
    /// Whether the run stops at its first statement.
    pub stops_first: bool,
    /// Whether the client wants no more.
    pub is_over: bool,
}

// Written by hand, so that proofs above take a drop as one call, and not as one for each field.
impl Drop for Adapter<'_> {
    fn drop(self) {
        let Adapter {
            session,
            out,
            stops_first: _,
            is_over: _,
        } = self;
        drop(session);
        drop(out);
    }
}

/// Writes a place that has variables, which are asked for by this number.
fn put_scope(name: &str, number: u64, json: &mut Json) {
    json.begin_object();
    json.flag_member("expensive", false);
    json.words_member("name", name);
    json.number_member("variablesReference", number);
    json.end_object();
}

impl Adapter<'_> {
    /// Answers which threads there are: one.
    fn threads(&mut self, request: &Request) -> Result<(), AllocError> {
        let mut body = self.out.begin_body();
        body.name("threads");
        body.begin_list();
        body.begin_object();
        body.number_member("id", 1);
        body.words_member("name", "the program");
        body.end_object();
        body.end_list();
        self.out.answer(request, body)
    }

    /// Answers the variables of a place.
    fn scopes(&mut self, request: &Request) -> Result<(), AllocError> {
        let frame = request.number_of("frameId");
        let locals = frame.saturating_mul(2);
        let mut body = self.out.begin_body();
        body.name("scopes");
        body.begin_list();
        put_scope("Procedure", locals, &mut body);
        put_scope("Module", locals.saturating_add(1), &mut body);
        body.end_list();
        self.out.answer(request, body)
    }

    /// Answers the value of a variable.
    fn evaluate(&mut self, request: &Request) -> Result<(), AllocError> {
        let text = request.text("expression").unwrap_or("");
        let frame = self.frame_of(request.number_of("frameId"));
        match self.session.value_named(frame, text)? {
            Err(words) => self.out.refuse(request, words.as_str()),
            Ok(value) => {
                let mut body = self.out.begin_body();
                body.words_member("result", value.as_str());
                body.number_member("variablesReference", 0);
                self.out.answer(request, body)
            }
        }
    }

    /// Answers a request that changes nothing in the run.
    fn tell_of(&mut self, request: &Request) -> Result<(), AllocError> {
        match request.command.as_str() {
            "setBreakpoints" => self.set_breaks(request),
            "threads" => self.threads(request),
            "stackTrace" => self.stack(request),
            "scopes" => self.scopes(request),
            "variables" => self.variables(request),
            "evaluate" => self.evaluate(request),
            "setExceptionBreakpoints" | "pause" => self.out.accept(request),
            "disconnect" | "terminate" => {
                self.is_over = true;
                self.out.accept(request)
            }
            _ => self.out.refuse(request, "this request is not known here"),
        }
    }

    /// Answers a request. An error if memory ran out.
    pub fn answer<R>(&mut self, rt: &R, request: &Request) -> Result<()>
    where
        R: AllocGlobal + Threads + Sync,
    {
        match self.travel_of(request) {
            None => Ok(self.tell_of(request)?),
            Some(travel) => {
                self.out.accept(request)?;
                self.travel(rt, travel)
            }
        }
    }
}
