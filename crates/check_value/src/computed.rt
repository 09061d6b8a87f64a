//! What names stand for in bodies, and what is taken as a value.

ghost use Rattle.std.specs.Prelude.{◌≡◌, IfOk};
ghost use Rattle.check_scope.specs.Elaborated.{least};
ghost use Rattle.check_value.specs.Values.{slot_of, local_by, designated_by, function_result, variable_value, value_at_place};

use crate::class::{Class, class_of};
use check_scope::{Elaborated, report};
use m2_rule::Rule;
use m2_tree::Pos;
use std::alloc::{AllocError, Global};
use typed_tree::{
    Component, LocalKind, LocalProcedure, LocalVariable, Meaning, Place, Procedure, Root, Slot,
    Standard, TypeNo, TypedExpr, Types, Value, behind, root_place,
};

/// The value of an expression.
#[derive(Drop)]
pub enum Computed {
    Constant(Value),
    /// A scalar of this type, which computes in this base.
    Scalar(TypeNo, TypeNo, TypedExpr),
    /// A BITSET.
    Set(TypedExpr),
    /// A value of this procedure type.
    Routine(TypeNo, TypedExpr),
    /// A procedure that is named.
    Procedure(Procedure),
    /// An array or a record of this type.
    Whole(TypeNo, Place),
    /// An open array, which nothing takes as a value.
    Untaken,
}

/// What an expression or a designator of a body stands for.
#[derive(Drop)]
pub enum Designated {
    Value(Computed),
    /// A variable of this type, or a component of one.
    Variable(TypeNo, Place),
    /// A formal ARRAY OF these elements.
    Open(TypeNo, Slot),
    Type(TypeNo),
    Procedure(Procedure),
    Nested(LocalProcedure),
    Standard(Standard),
    /// A module, by the place of its table.
    Module(usize),
}

/// A local variable, seen from `level` procedures deep.
pub fn slot_of(level: usize, variable: LocalVariable) -> Slot
    ensures { result ≡ slot_of level variable }
{
    Slot {
        up: level.saturating_sub(variable.level),
        number: variable.number,
    }
}

fn local_by(alloc: Global, level: usize, variable: LocalVariable) -> Designated
    ensures { result ≡ local_by level variable variable.kind }
{
    let slot = slot_of(level, variable);
    match variable.kind {
        LocalKind::Variable => Designated::Variable(
            variable.of,
            root_place(alloc, Root::Local(slot)),
        ),
        LocalKind::Value => Designated::Variable(variable.of, root_place(alloc, Root::Local(slot))),
        LocalKind::Alias => Designated::Variable(variable.of, root_place(alloc, Root::Alias(slot))),
        LocalKind::Open => Designated::Open(variable.of, slot),
    }
}

/// What a name stands for, this many procedures deep. A procedure whose heading was not met yet is not declared yet:
/// 30.
pub fn designated_by(
    alloc: Global,
    level: usize,
    at: Pos,
    meaning: Meaning,
) -> Result<Elaborated<Designated>, AllocError>
    ensures { IfOk result (λ d. d ≡ designated_by least level at meaning) }
{
    match meaning {
        Meaning::Constant(value) => Ok(Ok(Designated::Value(Computed::Constant(value)))),
        Meaning::Type(t, _) => Ok(Ok(Designated::Type(t))),
        Meaning::Variable(variable) => {
            let place = root_place(alloc, Root::Global(variable));
            Ok(Ok(Designated::Variable(variable.of, place)))
        }
        Meaning::Local(variable) => Ok(Ok(local_by(alloc, level, variable))),
        Meaning::Field(field) => {
            let record = root_place(alloc, Root::With(field.with));
            let place = behind(record, Component::Field(field.whole, field.number))?;
            Ok(Ok(Designated::Variable(field.of, place)))
        }
        Meaning::Procedure(procedure) => Ok(Ok(Designated::Procedure(procedure))),
        Meaning::LocalProcedure(procedure) => Ok(Ok(Designated::Nested(LocalProcedure {
            up: level.saturating_sub(procedure.level),
            number: procedure.number,
            heading: procedure.heading,
        }))),
        Meaning::Ahead => Ok(report(at, Rule::Ahead)),
        Meaning::Standard(standard) => Ok(Ok(Designated::Standard(standard))),
        Meaning::Module(place) => Ok(Ok(Designated::Module(place))),
    }
}

/// What a function of this result type gives.
pub fn function_result(types: &Types, t: TypeNo, e: TypedExpr) -> Computed
    ensures { result ≡ function_result types.now t e }
{
    match class_of(types, t) {
        Class::Scalar(scalar) => Computed::Scalar(t, scalar.base, e),
        Class::Set => Computed::Set(e),
        Class::Procedure => Computed::Routine(t, e),
        Class::Whole => Computed::Untaken,
    }
}

/// What a variable of this type holds.
pub fn variable_value(types: &Types, t: TypeNo, place: Place) -> Computed
    ensures { result ≡ variable_value types.now t place }
{
    match class_of(types, t) {
        Class::Scalar(scalar) => Computed::Scalar(t, scalar.base, TypedExpr::Load(t, place)),
        Class::Set => Computed::Set(TypedExpr::Load(t, place)),
        Class::Procedure => Computed::Routine(t, TypedExpr::Load(t, place)),
        Class::Whole => Computed::Whole(t, place),
    }
}

/// What stands at a place, taken as a value. A type and a module are none: 40. A standard procedure and a procedure
/// of a procedure are none: 53.
pub fn value_at_place(types: &Types, at: Pos, designated: Designated) -> Elaborated<Computed>
    ensures { result ≡ value_at_place least types.now at designated }
{
    match designated {
        Designated::Value(value) => Ok(value),
        Designated::Variable(t, place) => Ok(variable_value(types, t, place)),
        Designated::Open(_, _) => Ok(Computed::Untaken),
        Designated::Type(_) => report(at, Rule::WrongType),
        Designated::Procedure(procedure) => Ok(Computed::Procedure(procedure)),
        Designated::Nested(_) => report(at, Rule::NoProcedureValue),
        Designated::Standard(_) => report(at, Rule::NoProcedureValue),
        Designated::Module(_) => report(at, Rule::WrongType),
    }
}
