//! What a module lists beside its code: the types of its functions, and the characters of its strings.
//!
//! They are the types of its procedures, and of its calls through the table. One pass over the typed tree marks them by
//! the number of their arguments, and one pass over the marks lists and numbers them.
//!
//! - `specs/Seen` says what a `Signature` stands for in the definitions of `def_scheme`.
//! - `specs/Marked` has the marks, `specs/Needed` the types that parts of a module need.
//! - `specs/Tables` has the list and the numbers that are made of the marks, `specs/Numbered` the look-up of a number.
//!
//! The characters stand in the order of the text, and for each procedure the place is kept at which its own begin.
//!
//! - `specs/Written` has the characters of the parts of a body, `specs/Offsets` what is gathered of a module (`AreTexts`).
#![tactic(auto)]

mod body;
mod characters;
mod expr;
mod exprs;
mod heading;
mod marks;
mod offsets;
mod signature;
mod signatures;
mod steps;
mod table;
mod texts;

pub use characters::Characters;
pub use heading::{arguments_in, has_result, is_own, numbers_of};
pub use offsets::Offsets;
pub use signature::Signature;
pub use signatures::{Signatures, signatures_of};
pub use texts::{ModuleTexts, module_texts};
