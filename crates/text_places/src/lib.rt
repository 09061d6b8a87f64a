//! What stands around a place of a text, found by its tokens: both sides of what is refused, the headings and the types that are
//! declared there.
#![tactic(auto)]

mod headings;
mod imports;
mod scopes;
mod sides;
mod texts;
mod types;
mod values;
mod written;

pub use headings::{Heading, procedure_around, procedure_in};
pub use imports::module_of;
pub use scopes::{Declared, Kind, declaration_of, declared_around};
pub use sides::{Side, Sides, Spots, operand_side, operator_sides, spots_at, value_side};
pub use texts::{Text, Texts};
pub use types::type_names;
pub use values::{Index, ValuePlace, label_sides, value_place};
pub use written::{spelled_type, written_type};
