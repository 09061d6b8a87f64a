//! Which rows of a module's code come of which statement. Typed trees have no places, so it is found by trial: a statement that
//! does nothing, and whose code is known, is put in front of each statement of a text. The text is compiled once more, and where
//! its code has rows that the code of the text has not, a statement begins.
#![tactic(auto)]

mod lines;
mod marks;
mod merge;
mod statements;

pub use marks::{fully_marked_text, marked_text};
pub use merge::with_statements;
pub use statements::{Mark, MarkKind, Statement, Statements, statements_of};
