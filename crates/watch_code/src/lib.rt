//! Code that says where it is. To the code of a module whose statements are marked (`mark_statements`) calls are added that print
//! signals: a function begins or is left, a mark is come to, a byte of the program follows. Nothing else of the code changes, so a
//! run of the modules with signals does what the program does, and who reads the signals knows at each time which functions run
//! and where they are. How many reductions the signals take is known too.
#![tactic(auto)]

mod events;
mod function;
mod helpers;
mod module;
mod numbered;
mod reader;
mod rewriting;
mod signals;
mod stores;

pub use events::{Event, EventReader};
pub use function::{MARK_OPERATIONS, is_mark};
pub use module::{Chosen, HELPERS, Watched, watch_module};
pub use numbered::watch_numbered;
pub use reader::{Activation, Checked, Reader};
pub use signals::IMPORTED;
pub use stores::with_stores;
