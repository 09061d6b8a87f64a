//! The texts that an editor has open, and where their letters stand.
//!
//! The compiler counts lines and columns from 1, columns in bytes, and a line ends at the byte 0AH. The protocol counts both from
//! 0, columns in the units of an encoding, and a line also ends at a byte 0DH alone. Both are turned into numbers of bytes.
#![tactic(auto)]

mod letters;
mod shift;
mod text;
mod texts;
mod uris;

pub use letters::Encoding;
pub use shift::Shift;
pub use text::{Known, Position, Text};
pub use texts::{Change, OpenText, Texts};
pub use uris::{path_of, uri_of};
