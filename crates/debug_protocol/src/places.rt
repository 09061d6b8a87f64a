//! Calls and variables.

use crate::adapter::Adapter;
use crate::messages::Request;
use debug_runs::{Found, Frame};
use std::alloc::AllocError;
use write_json::Json;

/// Writes a variable.
fn put_variable(adapter: &Adapter<'_>, name: &[u8], found: Found, json: &mut Json) {
    let views = adapter.session.views();
    let value = views.text_of(adapter.out.alloc, &adapter.session.history.state, found);
    json.begin_object();
    json.bytes_member("name", name);
    json.name("value");
    json.words_made(value);
    json.number_member("variablesReference", 0);
    json.end_object();
}

/// Writes the file in which a call stands.
fn put_source(file: &str, json: &mut Json) {
    json.name("source");
    json.begin_object();
    json.words_member("name", file);
    json.words_member("path", file);
    json.end_object();
}

impl Adapter<'_> {
    /// The function of this number, from 1, of those that run, the outermost first.
    pub fn frame_of(&self, number: u64) -> Option<Frame> {
        let at = usize::try_from(number.checked_sub(1)?).ok()?;
        self.session.history.state.frames.get(at).map(|it| *it)
    }

    /// Writes the call of this number.
    fn put_call(&self, number: usize, frame: Frame, json: &mut Json) {
        let place = self.session.place_of(frame);
        let (line, column) = match &place {
            None => (0, 0),
            Some(place) => (place.pos.line, place.pos.col),
        };
        json.begin_object();
        json.number_member("column", u64::from(column));
        json.number_member("id", (number as u64).saturating_add(1));
        json.number_member("line", u64::from(line));
        json.name("name");
        match &place {
            None => json.words(""),
            Some(place) => {
                json.words_made(place.function(self.out.alloc));
                put_source(place.file.name.as_str(), json);
            }
        }
        json.end_object();
    }

    /// Writes the calls, the innermost first, and how many there are.
    fn put_calls(&self, json: &mut Json) {
        let frames = &self.session.history.state.frames;
        json.name("stackFrames");
        json.begin_list();
        for (number, frame) in frames.iter().enumerate().rev() {
            self.put_call(number, *frame, json);
        }
        json.end_list();
        json.number_member("totalFrames", frames.len() as u64);
    }

    /// Answers the calls.
    pub fn stack(&mut self, request: &Request) -> Result<(), AllocError> {
        let mut body = self.out.begin_body();
        self.put_calls(&mut body);
        self.out.answer(request, body)
    }

    /// Writes the variables of a procedure that runs.
    fn put_locals(&self, frame: Frame, json: &mut Json) {
        let views = self.session.views();
        if let Some(view) = views.function(frame.function) {
            for it in &view.variables {
                if let Some(found) = views.local(&self.session.history.state, frame, it) {
                    put_variable(self, &it.name, found, json);
                }
            }
        }
    }

    /// Writes the variables of the module of a procedure that runs.
    fn put_owned(&self, frame: Frame, json: &mut Json) {
        let views = self.session.views();
        let module = views.module_of(Some(frame));
        if let Some(view) = views.modules.get(module) {
            for it in &view.variables {
                if let Some(found) = views.own(module, it) {
                    put_variable(self, &it.name, found, json);
                }
            }
        }
    }

    /// Answers the variables of a procedure or of its module.
    pub fn variables(&mut self, request: &Request) -> Result<(), AllocError> {
        let number = request.number_of("variablesReference");
        let mut body = self.out.begin_body();
        body.name("variables");
        body.begin_list();
        match self.frame_of(number / 2) {
            None => {}
            Some(frame) if number % 2 == 0 => self.put_locals(frame, &mut body),
            Some(frame) => self.put_owned(frame, &mut body),
        }
        body.end_list();
        self.out.answer(request, body)
    }
}
