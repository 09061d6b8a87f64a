//! What messages say.

use crate::method::Method;
use crate::outgoing::ErrorCode;
use serde_json::Value;
use std::alloc::{AllocError, Global};

/// A request, or a notification.
pub struct Call {
    /// What is asked for.
    pub method: Method,
    /// The number or the text under which it is answered, or null for a notification.
    pub id: Value,
    /// What it is asked of, or null.
    pub params: Value,
}

// Written by hand, so that proofs above take a drop as one call.
impl Drop for Call {
    fn drop(self) {
        let Call {
            method: _method,
            id,
            params,
        } = self;
        drop(id);
        drop(params);
    }
}

/// A message that breaks the rules of JSON or of JSON-RPC, as it is answered.
#[derive(Drop)]
pub struct Invalid {
    /// The message's number or text, or null if none is known.
    pub id: Value,
    /// Which rules.
    pub code: ErrorCode,
    /// Why, in a sentence.
    pub words: &'static str,
}

/// A message.
#[derive(Drop)]
pub enum Incoming {
    /// A message that wants an answer.
    Request(Call),
    /// A message that wants none.
    Notification(Call),
    /// The answer to a request. This server makes none, so there is nothing to do.
    Response,
    /// A message that breaks rules.
    Invalid(Invalid),
}

/// The version that each message names.
const VERSION: &str = "2.0";

/// Takes a member out of a message: null if it has none.
fn taken(message: &mut Value, name: &str) -> Value {
    match message.get_mut(name) {
        Some(member) => member.take(),
        None => Value::Null,
    }
}

/// What is answered to a message that is none.
fn refuse(id: Value, code: ErrorCode, words: &'static str) -> Incoming {
    Incoming::Invalid(Invalid { id, code, words })
}

/// Whether this may stand as the number of a request.
fn is_id(id: &Value) -> bool {
    id.is_string() || id.is_number()
}

/// Whether this may stand as what a request is asked of.
fn is_params(params: &Value) -> bool {
    params.is_object() || params.is_array() || params.is_null()
}

/// What a message of this name says, with these parts.
fn call_of(method: Method, has_id: bool, id: Value, params: Value) -> Incoming {
    if !is_params(&params) {
        return refuse(
            id,
            ErrorCode::InvalidRequest,
            "the params are no object and no array",
        );
    }
    let call = Call { method, id, params };
    if !has_id {
        return Incoming::Notification(call);
    }
    if is_id(&call.id) {
        return Incoming::Request(call);
    }
    refuse(
        Value::Null,
        ErrorCode::InvalidRequest,
        "the id is no number and no string",
    )
}

/// What an object says.
fn message_of(object: &mut Value) -> Incoming {
    let has_id = object.get("id").is_some();
    let is_version = object.get("jsonrpc").and_then(Value::as_str) == Some(VERSION);
    let is_answer = object.get("result").is_some() || object.get("error").is_some();
    let has_method = object.get("method").is_some();
    let method = object
        .get("method")
        .and_then(Value::as_str)
        .map(|name| Method::of(name));
    let id = taken(object, "id");
    let params = taken(object, "params");
    match method {
        Some(method) if is_version => call_of(method, has_id, id, params),
        None if is_version && is_answer && !has_method => Incoming::Response,
        Some(_) => refuse(
            id,
            ErrorCode::InvalidRequest,
            "the message does not say that it is JSON-RPC 2.0",
        ),
        None => refuse(id, ErrorCode::InvalidRequest, "the message names no method"),
    }
}

/// What a value of a message says.
fn value_says(message: Value) -> Incoming {
    let mut message = message;
    if message.is_object() {
        return message_of(&mut message);
    }
    refuse(
        Value::Null,
        ErrorCode::InvalidRequest,
        "the message is no object",
    )
}

/// What the bytes of a message say. The only error is want of memory.
pub fn read_message(alloc: Global, bytes: &[u8]) -> Result<Incoming, AllocError> {
    match Value::from_slice(alloc, bytes) {
        Ok(message) => Ok(value_says(message)),
        Err(error) if error.is_memory() => Err(AllocError),
        Err(_) => Ok(refuse(Value::Null, ErrorCode::ParseError, "the message is no JSON")),
    }
}
