//! What is answered.

ghost use Rattle.std.specs.Prelude.{◌≡◌, ◌++◌, ◌∷◌, [], codes, length, IfOk};
ghost use Rattle.std.specs.Fmt.{decimal};

use serde_json::Value;
use std::alloc::{AllocError, Global};
use write_json::Json;

/// Why a request is not answered, as the protocol numbers it.
#[derive(Clone, Copy, Debug, PartialEq, Eq)]
pub enum ErrorCode {
    /// The bytes are no JSON.
    ParseError,
    /// The JSON is no request.
    InvalidRequest,
    /// The server knows no such request.
    MethodNotFound,
    /// The request lacks what it is asked of.
    InvalidParams,
    /// The server waits for `initialize`.
    ServerNotInitialized,
    /// The client does not want the answer any more.
    RequestCancelled,
    /// The request is right, and cannot be met.
    RequestFailed,
}

impl ErrorCode {
    /// The number of an error.
    pub fn number(self) -> i64 {
        match self {
            ErrorCode::ParseError => -32700,
            ErrorCode::InvalidRequest => -32600,
            ErrorCode::MethodNotFound => -32601,
            ErrorCode::InvalidParams => -32602,
            ErrorCode::ServerNotInitialized => -32002,
            ErrorCode::RequestCancelled => -32800,
            ErrorCode::RequestFailed => -32803,
        }
    }
}

/// These texts behind one another.
fn joined(alloc: Global, texts: &[&[u8]]) -> Result<Vec<u8>, AllocError> {
    let mut all = Vec::new(alloc);
    for text in texts {
        all.extend_from_slice(*text)?;
    }
    Ok(all)
}

/// The answer to the request of this number: this text of JSON. The only error is want of memory.
pub fn result_body(alloc: Global, id: &Value, answer: &[u8]) -> Result<Vec<u8>, AllocError> {
    let id = id.to_vec(alloc)?;
    joined(
        alloc,
        &[
            b"{\"id\":",
            &id,
            b",\"jsonrpc\":\"2.0\",\"result\":",
            answer,
            b"}",
        ],
    )
}

/// The answer that the request of this number is not met, with a sentence. The only error is want of memory.
pub fn error_body(
    alloc: Global,
    id: &Value,
    code: ErrorCode,
    words: &str,
) -> Result<Vec<u8>, AllocError> {
    let mut error = Json::new(alloc);
    error.begin_object();
    error.name("code");
    error.signed(code.number());
    error.words_member("message", words);
    error.end_object();
    let error = error.finish()?;
    let id = id.to_vec(alloc)?;
    joined(
        alloc,
        &[
            b"{\"error\":",
            &error,
            b",\"id\":",
            &id,
            b",\"jsonrpc\":\"2.0\"}",
        ],
    )
}

/// A notification with these params: a text of JSON. The only error is want of memory.
pub fn notice_body(alloc: Global, method: &str, params: &[u8]) -> Result<Vec<u8>, AllocError> {
    let mut name = Json::new(alloc);
    name.words(method);
    let name = name.finish()?;
    joined(
        alloc,
        &[
            b"{\"jsonrpc\":\"2.0\",\"method\":",
            &name,
            b",\"params\":",
            params,
            b"}",
        ],
    )
}

/// A message with its header in front. The only error is want of memory.
pub fn framed(alloc: Global, body: &[u8]) -> Result<Vec<u8>, AllocError>
    // Behind the digits stand two ends of lines, each the bytes 13 and 10.
    ensures { IfOk result (λ all.
        all.items
        ≡ codes "Content-Length: " ++ decimal (length body.now) ++ 13 ∷ 10 ∷ 13 ∷ 10 ∷ []
        ++ body.now) }
{
    let length = body.len();
    let header = format!(in alloc; "Content-Length: {length}\r\n\r\n")?;
    let mut all = Vec::from_slice(alloc, header.as_bytes())?;
    all.extend_from_slice(body)?;
    Ok(all)
}
