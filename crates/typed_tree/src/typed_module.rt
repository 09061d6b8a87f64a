//! Bodies of modules, as the meaning and the code read them.

use crate::known_types::Types;
use crate::statement::TypedStmt;
use crate::types::TypeNo;
use m2_tree::{Name, Pos};
use tree_parts::Items;

/// A procedure with its body.
#[derive(Drop)]
pub struct Routine {
    /// The place of its name.
    pub pos: Pos,
    /// Its heading as a procedure type, which has its formals.
    pub heading: TypeNo,
    /// 1 for a procedure of the module, one more than the level of the procedure around it for others.
    pub level: usize,
    /// The procedure in which it is declared, if there is one.
    pub around: Option<Which>,
    /// The types of the variables that it declares, in order.
    pub variables: Items<TypeNo>,
    pub body: Items<TypedStmt>,
}

/// Which procedure of a module it is, by its number in its list.
#[derive(Clone, Copy, PartialEq, Eq)]
pub enum Which {
    /// One of `TypedModule::procedures`.
    Module(usize),
    /// One of `TypedModule::locals`.
    Local(usize),
}

/// A module that is imported.
#[derive(Drop)]
pub struct Imported {
    /// Its name.
    pub name: Items<u8>,
    /// The number of the module, by which its types, variables and procedures are known.
    pub number: u32,
    /// The types of the variables that it exports, in order.
    pub variables: Items<TypeNo>,
}

/// The body of a program or an implementation module in which no rule is broken.
pub struct TypedModule {
    pub name: Name,
    /// The place of the name behind MODULE.
    pub pos: Pos,
    /// The modules that the definition and then the body imports, in order, each once, without Console.
    pub imports: Items<Imported>,
    /// The types that are known in it. The types of its own definition come first among its own.
    pub types: Types,
    /// The types of its variables: those of its definition, and then its own, in order.
    pub variables: Items<TypeNo>,
    /// Its procedures: those of its definition, in order, and then its own in the order of their headings.
    pub procedures: Items<Routine>,
    /// The procedures that are declared in procedures, in the order of their headings.
    pub locals: Items<Routine>,
    /// All procedures in the order in which their bodies end.
    pub order: Items<Which>,
    pub body: Items<TypedStmt>,
}

// Written by hand, so that proofs above take a drop as one call, and not as one for each field.
impl Drop for TypedModule {
    fn drop(self) {
        let TypedModule {
            name,
            pos: _,
            imports,
            types,
            variables,
            procedures,
            locals,
            order,
            body,
        } = self;
        drop(name);
        drop(imports);
        drop(types);
        drop(variables);
        drop(procedures);
        drop(locals);
        drop(order);
        drop(body);
    }
}
