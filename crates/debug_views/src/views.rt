//! The variables of a program.

use crate::forms::Spot;
use layout_storage::Layout;
use typed_tree::{TypeNo, TypedModule};

/// How a variable is kept.
#[derive(Clone, Copy, PartialEq, Eq)]
pub enum Way {
    /// Its value stands there.
    Direct,
    /// The address of what it stands for: a VAR parameter.
    Alias,
    /// The address and HIGH of an open array.
    Open,
}

/// A variable or a parameter.
#[derive(Drop)]
pub struct Variable {
    pub name: Vec<u8>,
    /// How many bytes it stands behind the address of its procedure's or its module's variables.
    pub offset: u32,
    pub way: Way,
    /// Its type, of an open array the type of the elements.
    pub of: TypeNo,
}

/// A procedure, or the body of a module, which has no variables of its own.
pub struct FunctionView {
    /// The number of its module in start order.
    pub module: usize,
    /// The parameters and then the variables.
    pub variables: Vec<Variable>,
    /// How many of them are parameters.
    pub formals: usize,
    /// The number of the procedure around it.
    pub around: Option<usize>,
    /// `Module.Procedure`, or the body of a module.
    pub name: String,
}

// Written by hand, so that proofs above take a drop as one call.
impl Drop for FunctionView {
    fn drop(self) {
        let FunctionView {
            module: _module,
            variables,
            formals: _formals,
            around: _around,
            name,
        } = self;
        drop(variables);
        drop(name);
    }
}

/// A module.
pub struct ModuleView {
    pub name: Vec<u8>,
    pub typed: TypedModule,
    pub layout: Layout,
    /// The address of its variables.
    pub address: u32,
    /// The number of its body in the table, and among the functions of the program.
    pub slot: u32,
    pub first: usize,
    pub variables: Vec<Variable>,
    /// The constants of its enumerations, in the order of their types. None if they are not known.
    pub constants: Vec<Vec<u8>>,
}

// Written by hand, so that proofs above take a drop as one call, and not as one for each field.
impl Drop for ModuleView {
    fn drop(self) {
        let ModuleView {
            name,
            typed,
            layout,
            address: _,
            slot: _,
            first: _,
            variables,
            constants,
        } = self;
        drop(name);
        drop(typed);
        drop(layout);
        drop(variables);
        drop(constants);
    }
}

/// The variables of a program.
pub struct Views {
    /// In start order.
    pub modules: Vec<ModuleView>,
    /// The functions, in the order in which the modules have them.
    pub functions: Vec<FunctionView>,
}

// Written by hand, so that proofs above take a drop as one call.
impl Drop for Views {
    fn drop(self) {
        let Views { modules, functions } = self;
        drop(modules);
        drop(functions);
    }
}

/// The variable of this name among some.
pub fn named<'a>(variables: &'a [Variable], name: &[u8]) -> Option<&'a Variable> {
    variables.iter().find(|it| it.name.as_slice() == name)
}

impl Views {
    /// The function of this number.
    pub fn function(&self, number: u32) -> Option<&FunctionView> {
        self.functions.get(number as usize)
    }

    /// The module of this name.
    pub fn module_named(&self, name: &[u8]) -> Option<usize> {
        self.modules
            .iter()
            .position(|it| it.name.as_slice() == name)
    }

    /// Where a variable of a module stands.
    pub fn own_spot(&self, module: usize, variable: &Variable) -> Option<Spot> {
        let address = self.modules.get(module)?.address;
        Some(Spot {
            module,
            of: variable.of,
            address: address.saturating_add(variable.offset),
        })
    }
}
