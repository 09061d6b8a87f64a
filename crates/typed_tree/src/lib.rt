//! Types, constants and tables: what names of the language mean. And the typed tree of a body, in which names are replaced
//! by what they mean: the meaning of programs and their code are read off it.
#![tactic(auto)]

mod chain;
mod computed;
mod dictionary;
mod known_types;
mod meaning;
mod reached;
mod shape;
mod statement;
mod table;
mod typed_module;
mod types;

pub use chain::{behind, link_operand, root_place};
pub use computed::{
    Argument, Arithmetic, Call, Comparison, Component, Inclusion, Link, LocalProcedure, Place,
    Root, SetOperator, Slot, TypedExpr,
};
pub use dictionary::Dictionary;
pub use known_types::{Types, cells_of, is_result, made_of, scalar_of};
pub use meaning::{
    LocalKind, LocalVariable, Meaning, NestedProcedure, OpenedField, Procedure, ScalarValue,
    Standard, Value, Variable,
};
pub use reached::Reached;
pub use shape::{Formal, Made, Scalar, Shape, Signature};
pub use statement::{Change, Label, Membership, TypedArm, TypedStmt};
pub use table::{ModuleTypes, Table};
pub use typed_module::{Imported, Routine, TypedModule, Which};
pub use types::{
    BITSET, BOOLEAN, CARDINAL, CHAR, Home, INTEGER, TypeNo, are_same, is_integer, is_numeric,
};
