//! Modules that were compiled alone, and how they are linked.
//!
//! - `Part` is what link has to know of a module. `write_part` writes it as the text of a file M.link, `read_part` reads it.
//! - `sum_of` is the checksum by which texts and modules are told apart, `interface_sum` that of definitions: of what their tokens
//!   say, as `tokens_of` answers it. `specs/Sums` has both.
//! - `begun`, `sealed` and `opened` make and read such texts, which others use too: with `sealed_by`, `unsealed` and `behind_first`
//!   under a checksum of their own.
//! - `link_modules` says whether modules fit together, and answers the module link.
#![tactic(auto)]

mod fault;
mod fitting;
mod linking;
mod part;
mod reading;
mod sealing;
mod stands;
mod sums;
mod writing;

pub use fault::{LinkFault, PartFault};
pub use linking::link_modules;
pub use part::{Interface, Part, Sizes, is_name};
pub use reading::{name_in, part_of, read_part};
pub use sealing::{begun, behind_first, opened, sealed, sealed_by, unsealed};
pub use sums::{interface_sum, sum_of, tokens_of};
pub use writing::{push_imports, push_part, write_part};
