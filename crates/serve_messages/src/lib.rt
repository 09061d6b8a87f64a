//! Messages of the Language Server Protocol, version 3.17: how they stand in a stream of bytes, what they ask for, and what is
//! answered.
//!
//! - A message is a JSON text behind a header that says how many bytes it has. `Framer` finds messages in what is read.
//! - `read_message` tells requests, notifications and answers apart, after JSON-RPC 2.0.
//! - `result_body`, `error_body` and `notice_body` are what goes back, and `framed` puts the header in front of it.
#![tactic(auto)]

mod framing;
mod incoming;
mod method;
mod outgoing;

pub use framing::{Frame, FrameFault, Framer, MAX_MESSAGE};
pub use incoming::{Call, Incoming, Invalid, read_message};
pub use method::Method;
pub use outgoing::{ErrorCode, error_body, framed, notice_body, result_body};
