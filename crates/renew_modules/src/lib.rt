//! What of a build the next build takes.
//!
//! - `find_kept` finds the modules of a program by the imports that were kept, or by the begins of texts.
//! - `plan_of` says which bodies have to be compiled, and why, or why all are.
//! - `renew` compiles these and links all.
//!
//! Nothing here is refused: whatever is out of the ordinary is answered by none, and then the whole program is built.
#![tactic(auto)]

mod finding;
mod planning;
mod renewing;
mod spreading;
mod trees;

pub use finding::{Found, find_kept};
pub use planning::{Plan, Planned, Stale, Why, plan_of, sums_of};
pub use renewing::{Renewal, renew};
