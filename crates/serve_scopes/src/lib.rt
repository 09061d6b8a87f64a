//! What is declared in a program and where its names stand, as far as it is gathered: declarations, types by their parts, scopes and
//! the stretches of a text in which they hold, and the places of names. `serve_names` fills it from the trees.
#![tactic(auto)]

mod declaration;
mod marks;
mod places;
mod program;
mod scopes;
mod spots;

pub use declaration::{Declaration, Facts, Kind, Numbers};
pub use marks::Marks;
pub use places::{Focus, Packed, Place, Range, Role, Use};
pub use program::Program;
pub use scopes::{Region, Scope, Shape, Standing, Type};
pub use spots::{PUT, Spot};
