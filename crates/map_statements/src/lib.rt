//! Maps of the modules of a program: which bytes of the code of each come of which statement. The modules are compiled once more with
//! marks in front of their statements (`mark_statements`). The code with marks is the code without them but for the marks, so both
//! are walked side by side. What is mapped is the code without marks, and nothing of it changes.
#![tactic(auto)]

mod begins;
mod maps;
mod sizes;
mod walk;

pub use maps::maps_of;
