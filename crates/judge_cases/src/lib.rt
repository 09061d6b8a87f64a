//! Cases of a program: what it reads, and what it is to print and how it is to end. A case is judged by the run of
//! the program with its input on the proved machine, and by reductions in place of seconds, so a verdict is the same
//! on every machine.
#![tactic(auto)]

mod case;
mod compiled;
mod excerpt;
mod folder;
mod grades;
mod judging;
mod pattern;
mod places;
mod report;
mod same;
mod verdict;

pub use case::{Case, Limits};
pub use excerpt::Mismatch;
pub use folder::read_cases;
pub use grades::{Grades, grade};
pub use pattern::paths_of;
pub use places::{Difference, first_difference};
pub use report::{Form, back, case_lines, class_row, front, same_line};
pub use same::{Compared, are_same, comparand};
pub use verdict::{Judgement, Verdict, words_of};
