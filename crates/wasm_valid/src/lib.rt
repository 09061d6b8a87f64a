//! Which WebAssembly modules are valid, and which code in them (Core 1.0, section 3), in this project's profile.
//!
//! `validate` decides it of modules. `check_body` and `check_constant` decide it of code, given a `Scope`: what the code
//! may name.
#![tactic(auto)]

mod body;
mod code_scope;
mod frame;
mod grouped;
mod operands;
mod scope;
mod typing;
mod valid;

pub use body::check_body;
pub use code_scope::Scope;
pub use operands::Spares;
pub use typing::check_constant;
pub use valid::{ValidModule, validate};
