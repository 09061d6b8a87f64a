//! The files of a program, in the folders of the system: its own, and those of the modules that it imports.
#![tactic(auto)]

mod finding;
mod needed;
mod places;

pub use find_modules::folder_of;
pub use finding::{
    Program, Spare, alone, find_checked, find_program, partner_words, program_of_modules,
    program_of_text, say_find_fault, spare_files, text_of, text_of_program,
};
pub use needed::find_definitions;
pub use places::Places;
