//! Variables and values of bodies, with every name replaced by what it means and a type at every value.

ghost use Rattle.std.specs.Prelude.{IfOk, ◌≡◌, ◌∷◌, []};
ghost use Rattle.typed_tree.specs.declared.computed.TypedExpr.TheVariants.{Chain};
ghost use Rattle.typed_tree.specs.Chains.{link_operand};

use crate::meaning::{Procedure, Variable};
use crate::types::TypeNo;
use m2_tree::Quoted;
use std::alloc::{AllocError, Global};
use tree_parts::{Boxed, Items, Shared};

/// A formal or a variable of a procedure.
#[derive(Clone, Copy, PartialEq, Eq)]
pub struct Slot {
    /// How many procedures outwards it is declared: 0 in the procedure itself.
    pub up: usize,
    /// Its number among the formals and then the variables of that procedure, from 0.
    pub number: usize,
}

/// A procedure that is declared in a procedure.
#[derive(Clone, Copy, PartialEq, Eq)]
pub struct LocalProcedure {
    /// How many procedures outwards it is declared: 0 in the procedure that calls it.
    pub up: usize,
    /// Its number among all procedures in procedures of the module, in the order of their headings, from 0.
    pub number: usize,
    /// Its heading as a procedure type.
    pub heading: TypeNo,
}

/// An operator on two INTEGERs or two CARDINALs.
#[derive(Clone, Copy, PartialEq, Eq)]
pub enum Arithmetic {
    Add,
    Subtract,
    Multiply,
    /// DIV.
    Divide,
    /// MOD.
    Remainder,
}

/// A relation between two values of one scalar type.
#[derive(Clone, Copy, PartialEq, Eq)]
pub enum Comparison {
    Equal,
    Unequal,
    Less,
    AtMost,
    Greater,
    AtLeast,
}

/// An operator on two sets.
#[derive(Clone, Copy, PartialEq, Eq)]
pub enum SetOperator {
    Union,
    Difference,
    Intersection,
    /// The elements that are in one of both.
    SymmetricDifference,
}

/// Which of two sets holds the other.
#[derive(Clone, Copy, PartialEq, Eq)]
pub enum Inclusion {
    /// The second holds the first.
    Within,
    /// The first holds the second.
    Around,
}

/// What a variable's name stands for.
#[derive(Clone, Copy, PartialEq, Eq)]
pub enum Root {
    /// A variable of a module.
    Global(Variable),
    /// A variable or a value formal of a procedure, but no open array.
    Local(Slot),
    /// What a VAR formal stands for.
    Alias(Slot),
    /// The elements of a formal ARRAY OF. An index stands behind it.
    Open(Slot),
    /// The record of a WITH around this place, by its number among these, the outermost first, from 0.
    With(usize),
}

/// Where a value stands: a variable, or a component of one.
#[cycle(computed)]
#[derive(Drop)]
pub struct Place {
    pub root: Root,
    /// The fields and indexes that lead to it, in order.
    pub components: Items<Component>,
}

/// A field or an index behind a variable.
#[cycle(computed)]
#[derive(Drop)]
pub enum Component {
    /// The type of the record, and the number of the field.
    Field(TypeNo, usize),
    /// The type of the array, and the index.
    Element(TypeNo, TypedExpr),
    /// The formal ARRAY OF these elements, and the index.
    OpenElement(Slot, TypeNo, TypedExpr),
}

/// An expression.
#[cycle(computed)]
pub enum TypedExpr {
    /// A constant of a scalar type by its ordinal number, or of BITSET, where element k is there if bit k is 1.
    Constant(TypeNo, i64),
    /// What a variable of this scalar type holds.
    Load(TypeNo, Place),
    /// A procedure as a value.
    Procedure(Procedure),
    /// The same value, of the base type of its operand: `+x`.
    Plus(TypeNo, Boxed<TypedExpr>),
    /// `-x` of INTEGER.
    Negate(Boxed<TypedExpr>),
    /// A first operand, and operators with their second operands, each applied to the result of those before it. It is as
    /// deep as its operands, and not as it is long.
    Chain(Boxed<TypedExpr>, Items<Link>),
    Compare(Comparison, Boxed<TypedExpr>, Boxed<TypedExpr>),
    Not(Boxed<TypedExpr>),
    Include(Inclusion, Boxed<TypedExpr>, Boxed<TypedExpr>),
    /// The element and the set: `x IN s`.
    In(Boxed<TypedExpr>, Boxed<TypedExpr>),
    /// ABS, of this base type.
    Abs(TypeNo, Boxed<TypedExpr>),
    Cap(Boxed<TypedExpr>),
    Chr(Boxed<TypedExpr>),
    Odd(Boxed<TypedExpr>),
    Ord(Boxed<TypedExpr>),
    /// VAL: the value as one of this type.
    Val(TypeNo, Boxed<TypedExpr>),
    /// The greatest index of a formal ARRAY OF.
    High(Slot),
    /// What a function gives, of this type.
    Call(TypeNo, Boxed<Call>),
}

// Written by hand, so that proofs above take a drop as one call, and not as a case for each variant.
impl Drop for TypedExpr {
    #[cycle(dropped)]
    fn drop(self) {
        match self {
            TypedExpr::Constant(_, _) => {}
            TypedExpr::Load(_, place) => drop(place),
            TypedExpr::Procedure(_) => {}
            TypedExpr::Plus(_, e) => drop(e),
            TypedExpr::Negate(e) => drop(e),
            TypedExpr::Chain(first, links) => {
                drop(first);
                drop(links);
            }
            TypedExpr::Compare(_, first, second) => {
                drop(first);
                drop(second);
            }
            TypedExpr::Not(e) => drop(e),
            TypedExpr::Include(_, first, second) => {
                drop(first);
                drop(second);
            }
            TypedExpr::In(element, set) => {
                drop(element);
                drop(set);
            }
            TypedExpr::Abs(_, e) => drop(e),
            TypedExpr::Cap(e) => drop(e),
            TypedExpr::Chr(e) => drop(e),
            TypedExpr::Odd(e) => drop(e),
            TypedExpr::Ord(e) => drop(e),
            TypedExpr::Val(_, e) => drop(e),
            TypedExpr::High(_) => {}
            TypedExpr::Call(_, call) => drop(call),
        }
    }
}

/// A chain with one operator.
fn chain_of(alloc: Global, first: TypedExpr, link: Link) -> Result<TypedExpr, AllocError>
    ensures { IfOk result (λ e. e ≡ Chain first (link ∷ [])) }
{
    let mut links = Items::new(alloc);
    links.push(link)?;
    Ok(TypedExpr::Chain(Boxed::new(alloc, first)?, links))
}

impl TypedExpr {
    /// This expression with one more operator and its second operand.
    pub(crate) fn with_link(self, alloc: Global, link: Link) -> Result<TypedExpr, AllocError>
        ensures { IfOk result (λ e. e ≡ link_operand self link) }
    {
        match self {
            TypedExpr::Chain(start, links) => {
                let mut links = links;
                links.push(link)?;
                Ok(TypedExpr::Chain(start, links))
            }
            TypedExpr::Constant(..)
            | TypedExpr::Load(..)
            | TypedExpr::Procedure(..)
            | TypedExpr::Plus(..)
            | TypedExpr::Negate(..)
            | TypedExpr::Compare(..)
            | TypedExpr::Not(..)
            | TypedExpr::Include(..)
            | TypedExpr::In(..)
            | TypedExpr::Abs(..)
            | TypedExpr::Cap(..)
            | TypedExpr::Chr(..)
            | TypedExpr::Odd(..)
            | TypedExpr::Ord(..)
            | TypedExpr::Val(..)
            | TypedExpr::High(..)
            | TypedExpr::Call(..) => chain_of(alloc, self, link),
        }
    }
}

/// An operator with its second operand.
#[cycle(computed)]
#[derive(Drop)]
pub enum Link {
    /// The base type, and the operand.
    Arithmetic(Arithmetic, TypeNo, TypedExpr),
    /// The operand is evaluated only if the result so far is TRUE.
    And(TypedExpr),
    /// The operand is evaluated only if the result so far is FALSE.
    Or(TypedExpr),
    Combine(SetOperator, TypedExpr),
}

/// A call of a procedure with its arguments.
#[cycle(computed)]
#[derive(Drop)]
pub enum Call {
    /// A procedure of a module.
    Module(Procedure, Items<Argument>),
    /// A procedure of a procedure.
    Nested(LocalProcedure, Items<Argument>),
    /// The procedure that a variable of this procedure type holds. The variable is read before the arguments.
    Variable(TypeNo, Place, Items<Argument>),
}

/// An argument of a call.
#[cycle(computed)]
#[derive(Drop)]
pub enum Argument {
    /// A value for a value formal of this scalar type.
    Value(TypeNo, TypedExpr),
    /// A variable for a VAR formal, or an array or a record for a value formal, which is copied.
    Place(Place),
    /// An array of this type for a formal ARRAY OF.
    Array(TypeNo, Place),
    /// An open array for a formal ARRAY OF.
    Open(Slot),
    /// A string for a formal ARRAY OF CHAR.
    Text(Shared<Quoted>),
}
