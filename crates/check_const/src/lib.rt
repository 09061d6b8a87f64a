//! Constants: what operators and standard procedures make of them, and one step each of constant expressions, of parts that are
//! known. `check_expr` has the walk over trees.
#![tactic(auto)]

mod bounds;
mod call;
mod denoted;
mod elements;
mod expr;
mod number;
mod operand;
mod operate;
mod operator;
mod qualified;
mod sets;
mod standard;

pub use bounds::{are_ordered, bounds_in_order, fits_base, is_of_base, ordinal_in};
pub use call::{
    Sort, bound, bound_by, conversion_call, scalar_type, sort_of, type_argument, type_in, unary,
    unary_of,
};
pub use denoted::{Denoted, constant_by, of_value};
pub use elements::{set_element, single, span_of};
pub use expr::{
    component_in, element_of, field_in, first_name, joined_bits, named_type, relation_value,
    set_of, set_place, set_type, sign_place, signed_first, single_of, text_of, value_at,
};
pub use number::fits;
pub use operand::{Operand, Ordinal, is_number, is_truth, number_value, operand_of};
pub use operate::{
    binary, common, constant_operation, divisor, fitting, negation, takes, with_sign,
};
pub use operator::{BinaryOp, add_op, mul_op};
pub use qualified::exported_meaning;
pub use standard::{
    absolute, bound_of, capital, character, conversion_of, is_char, is_odd, ordinal_of,
    whole_number,
};
