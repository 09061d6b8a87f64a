//! One step each of what bodies do with values that are known: names, operators, components, what places take, what calls ask
//! for and give, and what assignments do.
#![tactic(auto)]

mod agree;
mod argument;
mod callee;
mod class;
mod computed;
mod effect;
mod operate;
mod pieces;
mod places;
mod select;
mod side;
mod sign;
mod standard;

pub use agree::headings_agree;
pub use argument::{actual, next_formal, with_argument};
pub use callee::{Called, Callee, call_by, callee_of, function_of, proper_of};
pub use class::{Class, array_of, class_of, signature_of};
pub use computed::{
    Computed, Designated, designated_by, function_result, slot_of, value_at_place, variable_value,
};
pub use effect::{
    Target, amount, assignment_of, change_by, change_target, membership_of, put, set_element,
    set_variable, target_at, type_of_number,
};
pub use operate::operation_between;
pub use pieces::of_value;
pub use places::{Accepted, bases_suit, sort_suits, text_fits, value_for_place, value_suited};
pub use select::{Subscripted, element_at_index, field, indices};
pub use side::{Amount, Side, known_of, side_of};
pub use sign::{negation, with_sign};
pub use standard::{Form, Unary, bound_at, conversion_at, form_of, high_of, type_named, unary_at};
