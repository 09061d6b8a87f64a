//! What stands behind the names of a designator, one after another.

use crate::declaration::Kind;
use crate::program::Program;
use crate::scopes::{Shape, Standing};
use m2_tree::is_console;

/// What stands in front of a selector.
#[derive(Clone, Copy, Debug, PartialEq, Eq)]
pub enum Spot {
    /// A module with this scope of exported names.
    Module(usize),
    /// A value of the type of this number.
    Value(usize),
    /// The built in module.
    Console,
    /// Something that is known and has no parts.
    Known,
    /// A name that stands for nothing.
    Nothing,
}

/// The procedure of the built in module.
pub const PUT: &[u8] = b"Put";

impl Program {
    /// What stands in front of a selector behind the name of a declaration.
    fn spot_declared(&self, number: usize) -> Spot {
        match self.declaration(number) {
            None => Spot::Nothing,
            Some(it) => match (it.kind, it.scope, it.of) {
                (Kind::Module, Some(scope), _) => Spot::Module(scope),
                (Kind::Variable | Kind::Formal | Kind::Field, _, Some(of)) => Spot::Value(of),
                _ => Spot::Known,
            },
        }
    }

    /// What stands in front of a selector behind this name, which stands for this.
    pub fn spot_of(&self, standing: Option<Standing>, name: &[u8]) -> Spot {
        match standing {
            Some(Standing::Declared(number)) => self.spot_declared(number),
            Some(Standing::BuiltIn) => {
                if is_console(name) {
                    Spot::Console
                } else {
                    Spot::Known
                }
            }
            None => Spot::Nothing,
        }
    }

    /// The fields of a record, if this is one.
    pub fn fields_of(&self, spot: Spot) -> Option<usize> {
        match spot {
            Spot::Value(of) => match self.shape_of(of) {
                Shape::Record(scope) => Some(scope),
                Shape::Plain | Shape::Array(_) | Shape::Same(_) => None,
            },
            Spot::Module(_) | Spot::Console | Spot::Known | Spot::Nothing => None,
        }
    }

    /// The scope of the names that may stand behind a point.
    pub fn parts_of(&self, spot: Spot) -> Option<usize> {
        match spot {
            Spot::Module(scope) => Some(scope),
            Spot::Value(_) | Spot::Console | Spot::Known | Spot::Nothing => self.fields_of(spot),
        }
    }

    /// What a name behind a point stands for.
    pub fn picked(&self, spot: Spot, name: &[u8]) -> Option<Standing> {
        if spot == Spot::Console && name == PUT {
            return Some(Standing::BuiltIn);
        }
        self.found(self.parts_of(spot)?, name)
    }

    /// What an element is, behind a subscript.
    pub fn element_of(&self, spot: Spot) -> Spot {
        match spot {
            Spot::Value(of) => match self.shape_of(of) {
                Shape::Array(elements) => Spot::Value(elements),
                Shape::Plain | Shape::Record(_) | Shape::Same(_) => Spot::Known,
            },
            Spot::Nothing => Spot::Nothing,
            Spot::Module(_) | Spot::Console | Spot::Known => Spot::Known,
        }
    }
}
