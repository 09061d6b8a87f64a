//! The declarations of program and implementation modules and of the procedures in them: in which scope each body is
//! checked.
#![tactic(auto)]

mod agreeing;
mod declarations;
mod heading;
mod inner;
mod naming;
mod nesting;

pub use agreeing::{agree, signature_of};
pub use declarations::{declare_block, declare_module};
pub use heading::{Standing, with_heading};
pub use inner::{Entered, enter};
pub use nesting::procedure_ends;
