//! Folders and streams of the system, for the programs.
#![tactic(auto)]

mod notes;
mod reading;
mod sources;
mod stream;
mod writing;

pub use notes::Notes;
pub use reading::InFolder;
pub use sources::{is_stream, read_text};
pub use stream::{ByteStream, LineStream};
pub use writing::{OutFolder, remove_if_there};
