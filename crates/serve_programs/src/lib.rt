//! The programs to which open texts belong: their files, what is refused of them, and what their names stand for.
//!
//! A file is taken as the editor has it, if it is open, and else from a folder. A definition or an implementation that no open
//! program imports belongs to a program that is made of an import of it, and is never shown.
#![tactic(auto)]

mod folder;
mod heads;
mod importers;
mod places;
mod program;
mod refused;
mod roots;
mod view;

pub use find_modules::folder_of;
pub use folder::{Folder, Setting};
pub use heads::{Head, head_of, source_of};
pub use places::{Places, read_text};
pub use program::{Program, file_of, program_of, spare_of};
pub use refused::{Severity, Shown, length_at, refusals_of, shown_of};
pub use roots::{all_shown, programs_around, programs_with, roots_of};
pub use view::{FileView, Fresh, Mark, Spot, View, view_for, view_of};
