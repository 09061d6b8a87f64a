//! Another input for a program that is built: its module InputBytes is exchanged, and link is moved to it.
//!
//! The texts of InputBytes have other sizes then, so what stands behind them in memory moves by the difference: the variables and
//! texts of later modules, and the begin of the stack. Nothing else of link changes, and no other module does.
#![tactic(auto)]

mod fault;
mod moving;

pub use fault::RelinkFault;
pub use moving::relink;
