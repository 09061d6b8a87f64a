//! What names mean.

ghost use Rattle.std.specs.Prelude.{◌≡◌, IfOk};

use crate::types::TypeNo;
use m2_tree::Quoted;
use std::alloc::AllocError;
use tree_parts::Shared;

/// A constant of a scalar type.
#[derive(Clone, Copy, PartialEq, Eq)]
pub struct ScalarValue {
    pub of: TypeNo,
    /// What its type computes in.
    pub base: TypeNo,
    /// The value's ordinal number.
    pub number: i64,
}

/// A constant.
#[derive(Drop)]
pub enum Value {
    /// One made of number literals alone, which takes the type that its place asks for.
    Number(i64),
    Scalar(ScalarValue),
    /// Element k is there if bit k is 1.
    Set(u32),
    /// A string. One of length 1 is a character if no array is asked for.
    Text(Shared<Quoted>),
}

/// A variable of a module: its number among those that the module declares.
#[derive(Clone, Copy, PartialEq, Eq)]
pub struct Variable {
    pub home: u32,
    pub number: usize,
    pub of: TypeNo,
}

/// A procedure of a module: its number among those that the module declares, and its heading as a procedure type.
#[derive(Clone, Copy, PartialEq, Eq)]
pub struct Procedure {
    pub home: u32,
    pub number: usize,
    pub heading: TypeNo,
}

/// Which sort of name of a procedure it is.
#[derive(Clone, Copy, PartialEq, Eq)]
pub enum LocalKind {
    /// A variable that the procedure declares.
    Variable,
    /// A value formal, but no open array.
    Value,
    /// A VAR formal, but no open array.
    Alias,
    /// A formal ARRAY OF.
    Open,
}

/// A variable or a formal of a procedure.
#[derive(Clone, Copy, PartialEq, Eq)]
pub struct LocalVariable {
    /// The level of the procedure: 1 for one of the module.
    pub level: usize,
    /// Its number among the formals and then the variables of the procedure, from 0.
    pub number: usize,
    pub kind: LocalKind,
    /// Its type, of an open array the type of the elements.
    pub of: TypeNo,
}

/// A procedure that is declared in a procedure.
#[derive(Clone, Copy, PartialEq, Eq)]
pub struct NestedProcedure {
    /// The level of the procedure around it.
    pub level: usize,
    /// Its number among all procedures in procedures of the module, in the order of their headings, from 0.
    pub number: usize,
    /// Its heading as a procedure type.
    pub heading: TypeNo,
}

/// A field of the record of a WITH.
#[derive(Clone, Copy, PartialEq, Eq)]
pub struct OpenedField {
    /// The number of the WITH among those around the place, the outermost first, from 0.
    pub with: usize,
    /// The type of the record.
    pub whole: TypeNo,
    /// The number of the field, from 0.
    pub number: usize,
    pub of: TypeNo,
}

/// A standard procedure.
#[derive(Clone, Copy, PartialEq, Eq)]
pub enum Standard {
    Abs,
    Cap,
    Chr,
    High,
    Max,
    Min,
    Odd,
    Ord,
    Val,
    Inc,
    Dec,
    Incl,
    Excl,
    Halt,
    /// `Console.Put`.
    Put,
}

/// What a name means.
#[derive(Drop)]
pub enum Meaning {
    Constant(Value),
    /// A type, and how many names come with its import: its own, and the constants of an enumeration that it is
    /// declared as, which follow it in the table.
    Type(TypeNo, usize),
    Variable(Variable),
    Local(LocalVariable),
    Field(OpenedField),
    Procedure(Procedure),
    LocalProcedure(NestedProcedure),
    /// A procedure of the block, before its heading.
    Ahead,
    Standard(Standard),
    /// A module, by the place of its table among those that are given.
    Module(usize),
}

impl Value {
    /// The same constant once more.
    pub fn copy(&self) -> Result<Value, AllocError>
        ensures { IfOk result (λ v. v ≡ self.now) }
    {
        match self {
            Value::Number(n) => Ok(Value::Number(*n)),
            Value::Scalar(scalar) => Ok(Value::Scalar(*scalar)),
            Value::Set(bits) => Ok(Value::Set(*bits)),
            Value::Text(text) => Ok(Value::Text(text.share()?)),
        }
    }
}

impl Meaning {
    /// The same meaning once more.
    pub fn copy(&self) -> Result<Meaning, AllocError>
        ensures { IfOk result (λ m. m ≡ self.now) }
    {
        match self {
            Meaning::Constant(value) => Ok(Meaning::Constant(value.copy()?)),
            Meaning::Type(t, constants) => Ok(Meaning::Type(*t, *constants)),
            Meaning::Variable(variable) => Ok(Meaning::Variable(*variable)),
            Meaning::Local(variable) => Ok(Meaning::Local(*variable)),
            Meaning::Field(field) => Ok(Meaning::Field(*field)),
            Meaning::Procedure(procedure) => Ok(Meaning::Procedure(*procedure)),
            Meaning::LocalProcedure(procedure) => Ok(Meaning::LocalProcedure(*procedure)),
            Meaning::Ahead => Ok(Meaning::Ahead),
            Meaning::Standard(standard) => Ok(Meaning::Standard(*standard)),
            Meaning::Module(place) => Ok(Meaning::Module(*place)),
        }
    }
}
