//! Types, declarations and modules as they are written.

use crate::expr::{Expr, Qualified};
use crate::name::Ident;
use crate::pos::Pos;
use crate::stmt::Stmt;
use tree_parts::{Boxed, Items};

/// A type that can stand as an index: a name, an enumeration or a subrange.
#[derive(PartialEq, Eq)]
pub enum Simple {
    Named(Qualified),
    /// The place of the bracket, and the constants.
    Enumeration(Pos, Items<Ident>),
    /// The base, if it is named, the place of the bracket, and the bounds.
    Subrange(Option<Qualified>, Pos, Boxed<Expr>, Boxed<Expr>),
}

impl Drop for Simple {
    fn drop(self) {
        match self {
            Simple::Named(name) => drop(name),
            Simple::Enumeration(_, names) => drop(names),
            Simple::Subrange(base, _, low, high) => {
                drop(base);
                drop(low);
                drop(high);
            }
        }
    }
}

/// A type.
#[cycle(types)]
#[derive(PartialEq, Eq)]
pub enum TypeExpr {
    Simple(Simple),
    /// The place of its first token, the index and the elements. `ARRAY a, b OF T` is `ARRAY a OF ARRAY b OF T`, in
    /// which the inner array begins at the first token of b.
    Array(Pos, Simple, Boxed<TypeExpr>),
    /// The place of the RECORD, and the fields.
    Record(Pos, Items<Field>),
    /// The place of the PROCEDURE, the formals, and the result.
    Procedure(Pos, Items<Parameter>, Option<Qualified>),
}

impl Drop for TypeExpr {
    #[cycle(dropped_type)]
    fn drop(self) {
        match self {
            TypeExpr::Simple(simple) => drop(simple),
            TypeExpr::Array(_, index, elements) => {
                drop(index);
                drop(elements);
            }
            TypeExpr::Record(_, fields) => drop(fields),
            TypeExpr::Procedure(_, formals, result) => {
                drop(formals);
                drop(result);
            }
        }
    }
}

/// Fields of one type.
#[cycle(types)]
#[derive(PartialEq, Eq, Drop)]
pub struct Field {
    pub names: Items<Ident>,
    pub of: TypeExpr,
}

/// The type of a formal.
#[derive(Clone, PartialEq, Eq, Drop)]
pub struct FormalType {
    /// Whether ARRAY OF stands before the name.
    pub is_open: bool,
    pub of: Qualified,
}

/// A formal of a procedure type.
#[derive(Clone, PartialEq, Eq, Drop)]
pub struct Parameter {
    /// Whether VAR stands before it.
    pub is_var: bool,
    pub of: FormalType,
}

/// Formals of one type, with their names.
#[derive(PartialEq, Eq, Drop)]
pub struct Section {
    /// Whether VAR stands before them.
    pub is_var: bool,
    pub names: Items<Ident>,
    pub of: FormalType,
}

/// The heading of a procedure.
#[derive(PartialEq, Eq, Drop)]
pub struct Heading {
    pub name: Ident,
    pub formals: Items<Section>,
    pub result: Option<Qualified>,
}

/// A constant, and its value.
#[derive(PartialEq, Eq, Drop)]
pub struct Constant {
    pub name: Ident,
    pub value: Expr,
}

/// The name of a type, and the type.
#[derive(PartialEq, Eq, Drop)]
pub struct TypeDecl {
    pub name: Ident,
    pub of: TypeExpr,
}

/// Variables of one type.
#[derive(PartialEq, Eq, Drop)]
pub struct Variables {
    pub names: Items<Ident>,
    pub of: TypeExpr,
}

/// What a definition module declares.
#[derive(PartialEq, Eq, Drop)]
pub enum Def {
    Constants(Items<Constant>),
    Types(Items<TypeDecl>),
    Variables(Items<Variables>),
    Procedure(Heading),
}

/// What a program module, an implementation module or a procedure declares.
#[cycle(decl)]
#[derive(PartialEq, Eq, Drop)]
pub enum Decl {
    Constants(Items<Constant>),
    Types(Items<TypeDecl>),
    Variables(Items<Variables>),
    Procedure(Heading, Boxed<Block>),
}

/// Declarations, and the statements behind the BEGIN if there is one.
#[cycle(decl)]
#[derive(PartialEq, Eq, Drop)]
pub struct Block {
    pub decls: Items<Decl>,
    pub body: Option<Items<Stmt>>,
}

/// An import: of modules, or of names from a module.
#[derive(PartialEq, Eq, Drop)]
pub struct Import {
    /// The module behind the FROM.
    pub from: Option<Ident>,
    pub names: Items<Ident>,
}

/// Which sort of module it is, and what it holds.
#[derive(PartialEq, Eq, Drop)]
pub enum Contents {
    Definition(Items<Def>),
    Implementation(Block),
    Program(Block),
}

/// A module.
#[derive(PartialEq, Eq)]
pub struct Module {
    pub name: Ident,
    pub imports: Items<Import>,
    pub contents: Contents,
}

// Written by hand, so that proofs above take a drop as one call, and not as one for each field.
impl Drop for Module {
    fn drop(self) {
        let Module {
            name,
            imports,
            contents,
        } = self;
        drop(name);
        drop(imports);
        drop(contents);
    }
}
