//! The variables of a run: how each is called, where it stands, and what it holds, in words of the language.
#![tactic(auto)]

mod building;
mod components;
mod finding;
mod forms;
mod names;
mod values;
mod views;

pub use components::Component;
pub use finding::{Found, Sought};
pub use forms::Spot;
pub use views::{FunctionView, ModuleView, Variable, Views, Way};
