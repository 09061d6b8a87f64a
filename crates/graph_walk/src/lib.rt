//! Nodes and the pairs between them: where chains of pairs lead, cycles, walks, and the order in which nodes get numbers.
//! Nodes are numbered from 0, and for each stands the list of those to which a pair goes from it.
#![tactic(auto)]

mod counts;
mod cycle;
mod flags;
mod least;
mod numbering;
mod reversal;
mod starts;

pub use cycle::{first_on_cycle, led_to};
pub use flags::{each_once, is_marked, no_marks};
pub use numbering::definition_order;
pub use reversal::reverse_links;
pub use starts::start_order;
