//! Messages of the protocol.

use serde_json::Value;
use std::alloc::{AllocError, Global};
use std::mem;
use write_json::Json;

/// A request.
#[derive(Drop)]
pub struct Request {
    /// Its number.
    pub number: i64,
    /// What is asked for.
    pub command: String,
    /// Of what, or null.
    pub arguments: Value,
}

/// What goes back.
#[derive(Drop)]
pub struct Outgoing {
    pub alloc: Global,
    /// How many messages there were.
    count: u64,
    bodies: Vec<Vec<u8>>,
}

/// What a message asks for. Nothing if it is no request. The only error is that memory ran out.
pub fn read_request(alloc: Global, bytes: &[u8]) -> Result<Option<Request>, AllocError> {
    let mut message = match Value::from_slice(alloc, bytes) {
        Ok(message) => message,
        Err(error) if error.is_memory() => return Err(AllocError),
        Err(_) => return Ok(None),
    };
    let number = message.get("seq").and_then(Value::as_i64);
    let command = match message.get("command").and_then(Value::as_str) {
        None => None,
        Some(command) => Some(String::from_str(alloc, command)?),
    };
    let arguments = match message.get_mut("arguments") {
        None => Value::Null,
        Some(arguments) => arguments.take(),
    };
    match (number, command) {
        (Some(number), Some(command)) => Ok(Some(Request {
            number,
            command,
            arguments,
        })),
        _ => Ok(None),
    }
}

impl Request {
    /// A text among its arguments.
    pub fn text(&self, name: &str) -> Option<&str> {
        self.arguments.get(name)?.as_str()
    }

    /// A number among its arguments, and 0 if there is none.
    pub fn number_of(&self, name: &str) -> u64 {
        self.arguments
            .get(name)
            .and_then(Value::as_u64)
            .unwrap_or(0)
    }

    /// Whether this is among its arguments and true.
    pub fn is_set(&self, name: &str) -> bool {
        self.arguments.get(name).and_then(Value::as_bool) == Some(true)
    }
}

impl Outgoing {
    /// Nothing.
    pub fn new(alloc: Global) -> Outgoing {
        Outgoing {
            alloc,
            count: 0,
            bodies: Vec::new(alloc),
        }
    }

    /// The messages since the last time, without their headers.
    pub fn take(&mut self) -> Vec<Vec<u8>> {
        mem::replace(&mut self.bodies, Vec::new(self.alloc))
    }

    /// The number of the next message.
    fn next(&mut self) -> u64 {
        self.count = self.count.saturating_add(1);
        self.count
    }

    /// The begin of a message, to which the members of its body are written.
    pub fn begin_body(&self) -> Json {
        let mut json = Json::new(self.alloc);
        json.begin_object();
        json.name("body");
        json.begin_object();
        json
    }

    /// Ends a message, and adds it.
    fn add(&mut self, mut json: Json) -> Result<(), AllocError> {
        json.end_object();
        let text = json.finish()?;
        self.bodies.push(text)?;
        Ok(())
    }

    /// Ends an answer to a request, and adds it.
    fn add_response(
        &mut self,
        request: &Request,
        is_met: bool,
        mut json: Json,
    ) -> Result<(), AllocError> {
        let number = self.next();
        json.words_member("command", request.command.as_str());
        json.name("request_seq");
        json.signed(request.number);
        json.number_member("seq", number);
        json.flag_member("success", is_met);
        json.words_member("type", "response");
        self.add(json)
    }

    /// Answers a request. The body is begun by `begin_body`, and ends here.
    pub fn answer(&mut self, request: &Request, mut body: Json) -> Result<(), AllocError> {
        body.end_object();
        self.add_response(request, true, body)
    }

    /// Answers a request with nothing but that it is met.
    pub fn accept(&mut self, request: &Request) -> Result<(), AllocError> {
        let nothing = self.begin_body();
        self.answer(request, nothing)
    }

    /// Answers a request that cannot be met, with a sentence.
    pub fn refuse(&mut self, request: &Request, words: &str) -> Result<(), AllocError> {
        let mut json = Json::new(self.alloc);
        json.begin_object();
        json.words_member("message", words);
        self.add_response(request, false, json)
    }

    /// Tells that something happened. The body is begun by `begin_body`, and ends here.
    pub fn tell(&mut self, event: &str, mut body: Json) -> Result<(), AllocError> {
        let number = self.next();
        body.end_object();
        body.words_member("event", event);
        body.number_member("seq", number);
        body.words_member("type", "event");
        self.add(body)
    }
}
