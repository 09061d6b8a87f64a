//! Breakpoints of an editor.

use crate::adapter::Adapter;
use crate::messages::Request;
use debug_runs::Placed;
use debug_words::{Condition, Target, read_condition};
use serde_json::Value;
use std::alloc::AllocError;
use write_json::Json;

/// The last part of a path.
fn last_part(path: &str) -> &str {
    match path.rsplit_once('/') {
        None => path,
        Some((_, name)) => name,
    }
}

/// The name of the module whose body stands in the file of this path.
fn module_name(path: &str) -> &str {
    let name = last_part(path);
    match name.rsplit_once('.') {
        None => name,
        Some((name, _)) => name,
    }
}

/// Writes why a breakpoint has no place.
fn put_unset(words: &str, json: &mut Json) {
    json.begin_object();
    json.words_member("message", words);
    json.flag_member("verified", false);
    json.end_object();
}

impl Adapter<'_> {
    /// The condition of a breakpoint. A sentence if it is none.
    fn condition(
        &self,
        asked: &Value,
    ) -> Result<Result<Option<Condition>, &'static str>, AllocError> {
        let text = asked.get("condition").and_then(Value::as_str).unwrap_or("");
        if text.is_empty() {
            return Ok(Ok(None));
        }
        match read_condition(self.out.alloc, text)? {
            None => Ok(Err("a condition compares a variable with a constant, as: i = 3")),
            condition => Ok(Ok(condition)),
        }
    }

    /// Sets a breakpoint on a line of a module, and writes what came of it.
    fn set_break(
        &mut self,
        module: &str,
        asked: &Value,
        json: &mut Json,
    ) -> Result<(), AllocError> {
        let condition = match self.condition(asked)? {
            Ok(condition) => condition,
            Err(words) => {
                put_unset(words, json);
                return Ok(());
            }
        };
        let line = asked.get("line").and_then(Value::as_u64).unwrap_or(0);
        let line = u32::try_from(line).unwrap_or(u32::MAX);
        let name = Vec::from_slice(self.out.alloc, module.as_bytes())?;
        match self.session.place(&Target::Line(Some(name), line))? {
            Placed::Nowhere(words) => put_unset(words.as_str(), json),
            Placed::Here(statement) => {
                let number = self.session.breaks.add(statement, condition)?;
                json.begin_object();
                json.number_member("column", u64::from(statement.pos.col));
                json.number_member("id", number);
                json.number_member("line", u64::from(statement.pos.line));
                json.flag_member("verified", true);
                json.end_object();
            }
        }
        Ok(())
    }

    /// Sets the breakpoints of a file in place of those that it had.
    pub fn set_breaks(&mut self, request: &Request) -> Result<(), AllocError> {
        let source = request.arguments.get("source");
        let path = source.and_then(|it| it.get("path")).and_then(Value::as_str);
        let module = module_name(path.unwrap_or(""));
        self.session.clear_breaks(module)?;
        let mut body = self.out.begin_body();
        body.name("breakpoints");
        body.begin_list();
        let asked = request
            .arguments
            .get("breakpoints")
            .and_then(Value::as_array);
        if let Some(asked) = asked {
            for it in asked {
                self.set_break(module, it, &mut body)?;
            }
        }
        body.end_list();
        self.out.answer(request, body)
    }
}
