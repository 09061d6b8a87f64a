//! A language server: what is answered to each message of an editor.
//!
//! A `Server` takes messages one after another, in the order in which they come, and each is answered at once. It reads files
//! that are not open through a `Folder`, and writes none: what is to be changed goes to the editor.
//!
//! - A message is answered with bodies of messages. Diagnostics come behind all messages that came together.
//! - Diagnostics come of the compiler, over the programs of all open texts. Names come of the trees of the same programs.
//! - No message ends the server but `exit`. What is no message is answered with the protocol's error.
#![tactic(auto)]

mod actions;
mod diagnostics;
mod names;
mod server;
mod starting;
mod waiting;

pub use serve_sessions::{Folder, Setting};
pub use server::{Answer, Server};
