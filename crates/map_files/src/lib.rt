//! Maps of compiled modules: the file M.map says which bytes of the code of M.wasm come of which statement.
//!
//! - `Map` is what the file says. `write_map` writes its text, `read_map` reads it.
//! - `sum_of` is the checksum by which it is known to which module and to which source a map belongs.
//!
//! A map is never needed to run a module.
#![tactic(auto)]

mod fault;
mod map;
mod reading;
mod sums;
mod writing;

pub use fault::MapFault;
pub use map::{Map, Mapped, Row};
pub use reading::read_map;
pub use sums::sum_of;
pub use writing::write_map;
