//! The variables of a program are gathered.

use crate::forms::count_of;
use crate::names::{add_names, constants_of, index_of, module_number, procedure_number};
use crate::views::{FunctionView, ModuleView, Variable, Views, Way};
use anyhow::{Result, bail};
use build_jobs::SourceFile;
use debug_history::{Activation, Function, Marked, Names, Places};
use layout_storage::{Layout, Row};
use serve_names::{Index, Kind};
use std::alloc::{AllocError, Global};
use typed_program::typed_program;
use typed_tree::{
    Formal, Home, Made, Routine, Shape, TypeNo, TypedModule, Types, Which, are_same, made_of,
};

/// A variable of this type that is kept so.
#[derive(Clone, Copy)]
struct Sort {
    way: Way,
    of: TypeNo,
}

/// The variables of these names, each at the place of its part in a row.
fn variables_of(
    alloc: Global,
    names: &[Vec<u8>],
    row: &Row,
    sorts: &[Sort],
) -> Result<Vec<Variable>, AllocError> {
    let mut all = Vec::new(alloc);
    let parts = row.starts.as_slice().iter().zip(sorts);
    for (name, (start, sort)) in names.iter().zip(parts) {
        all.push(Variable {
            name: Vec::from_slice(alloc, name)?,
            offset: *start,
            way: sort.way,
            of: sort.of,
        })?;
    }
    Ok(all)
}

/// Adds variables of these types.
fn add_direct(sorts: &mut Vec<Sort>, types: &[TypeNo]) -> Result<(), AllocError> {
    for of in types {
        sorts.push(Sort {
            way: Way::Direct,
            of: *of,
        })?;
    }
    Ok(())
}

/// How a parameter is kept.
fn way_of(formal: &Formal) -> Way {
    if formal.is_open {
        Way::Open
    } else if formal.is_var {
        Way::Alias
    } else {
        Way::Direct
    }
}

/// Adds the parameters of a procedure. How many there are.
fn add_formals(sorts: &mut Vec<Sort>, types: &Types, heading: TypeNo) -> Result<usize, AllocError> {
    if let Some(
        Made {
            shape: Shape::Procedure(signature),
            ..
        },
    ) = made_of(types, heading)
    {
        for formal in signature.formals.as_slice() {
            sorts.push(Sort {
                way: way_of(formal),
                of: formal.of,
            })?;
        }
    }
    Ok(sorts.len())
}

/// Whether this is the enumeration of its number among the types that a module makes, and how many constants it has.
pub fn enumeration_count(home: u32, number: usize, made: &Made) -> Option<u32> {
    let own = TypeNo {
        home: Home::Module(home),
        number,
    };
    match &made.shape {
        Shape::Scalar(scalar) if are_same(scalar.base, own) => Some(count_of(*scalar)),
        _ => None,
    }
}

/// How many constants the enumerations of a module have whose types stand in front of this number.
pub fn constants_before(typed: &TypedModule, number: usize) -> usize {
    let mut all: usize = 0;
    for (at, made) in typed.types.own.as_slice().iter().enumerate().take(number) {
        let count = enumeration_count(typed.types.home, at, made).unwrap_or(0);
        all = all.saturating_add(count as usize);
    }
    all
}

/// What is gathered for the variables of a program.
#[derive(Clone, Copy)]
struct Gathering<'a> {
    alloc: Global,
    index: &'a Index,
    program: &'a Marked,
    names: Names<'a>,
}

impl Gathering<'_> {
    /// The names of the variables of a module.
    fn module_names(&self, name: &[u8]) -> Result<Vec<Vec<u8>>, AllocError> {
        let mut names = Vec::new(self.alloc);
        if let Some(number) = module_number(self.index, name) {
            add_names(
                self.alloc,
                self.index,
                number,
                None,
                Kind::Variable,
                &mut names,
            )?;
        }
        Ok(names)
    }

    /// The names of the constants of a module, if they are as many as its types have.
    fn constant_names(&self, typed: &TypedModule) -> Result<Vec<Vec<u8>>, AllocError> {
        let Some(number) = module_number(self.index, typed.name.as_bytes()) else {
            return Ok(Vec::new(self.alloc));
        };
        let names = constants_of(self.alloc, self.index, number)?;
        if names.len() != constants_before(typed, typed.types.own.len()) {
            return Ok(Vec::new(self.alloc));
        }
        Ok(names)
    }

    /// A module of this number.
    fn module(&self, number: usize, typed: TypedModule, places: Places) -> Result<ModuleView> {
        let layout = match Layout::of(self.alloc, &typed)? {
            Ok(layout) => layout,
            Err(_) => bail!("the variables of a module have no room"),
        };
        let names = self.module_names(typed.name.as_bytes())?;
        let mut sorts = Vec::new(self.alloc);
        add_direct(&mut sorts, typed.variables.as_slice())?;
        let variables = variables_of(self.alloc, &names, &layout.variables, &sorts)?;
        Ok(ModuleView {
            name: Vec::from_slice(self.alloc, typed.name.as_bytes())?,
            constants: self.constant_names(&typed)?,
            typed,
            layout,
            address: places.variables,
            slot: places.slot,
            first: self.program.functions.first_of(number),
            variables,
        })
    }

    /// The names of the parameters and the variables of a procedure.
    fn procedure_names(&self, function: &Function) -> Result<Vec<Vec<u8>>, AllocError> {
        let mut names = Vec::new(self.alloc);
        let file = function.file;
        if let Some(number) = procedure_number(self.index, file, function.pos) {
            for kind in [Kind::Formal, Kind::Variable] {
                add_names(self.alloc, self.index, number, Some(file), kind, &mut names)?;
            }
        }
        Ok(names)
    }

    /// A function without variables.
    fn bare(&self, number: usize, function: &Function) -> Result<FunctionView, AllocError> {
        let activation = Activation {
            function: u32::try_from(number).unwrap_or(u32::MAX),
            mark: None,
        };
        let name = match self.names.place_of(activation) {
            Some(place) => place.function(self.alloc)?,
            None => String::new(self.alloc),
        };
        Ok(FunctionView {
            module: function.module,
            variables: Vec::new(self.alloc),
            formals: 0,
            around: None,
            name,
        })
    }

    /// A function of a module.
    fn function(
        &self,
        number: usize,
        function: &Function,
        module: &ModuleView,
    ) -> Result<FunctionView, AllocError> {
        let mut view = self.bare(number, function)?;
        let Some((routine, row)) = routine_of(module, number.saturating_sub(module.first)) else {
            return Ok(view);
        };
        let mut sorts = Vec::new(self.alloc);
        view.formals = add_formals(&mut sorts, &module.typed.types, routine.heading)?;
        add_direct(&mut sorts, routine.variables.as_slice())?;
        let names = self.procedure_names(function)?;
        view.variables = variables_of(self.alloc, &names, row, &sorts)?;
        view.around = routine.around.map(|which| number_of(module, which));
        Ok(view)
    }

    /// Adds all functions.
    fn add_functions(&self, views: &mut Views) -> Result<(), AllocError> {
        for (number, function) in self.program.functions.all.iter().enumerate() {
            let view = match views.modules.get(function.module) {
                Some(module) => self.function(number, function, module)?,
                None => self.bare(number, function)?,
            };
            views.functions.push(view)?;
        }
        Ok(())
    }
}

/// The number of a procedure of a module among the functions of the program.
fn number_of(module: &ModuleView, which: Which) -> usize {
    let behind_body = module.first.saturating_add(1);
    match which {
        Which::Module(number) => behind_body.saturating_add(number),
        Which::Local(number) => behind_body
            .saturating_add(module.typed.procedures.len())
            .saturating_add(number),
    }
}

/// The procedure of this number among the functions of a module, of which the first is the body, and its frame.
fn routine_of(module: &ModuleView, number: usize) -> Option<(&Routine, &Row)> {
    let number = number.checked_sub(1)?;
    match number.checked_sub(module.typed.procedures.len()) {
        None => {
            let routine = module.typed.procedures.get(number)?;
            Some((routine, module.layout.procedures.get(number)?))
        }
        Some(number) => {
            let routine = module.typed.locals.get(number)?;
            Some((routine, module.layout.locals.get(number)?))
        }
    }
}

impl Views {
    /// The variables of the program of these files, which was built with marks, and of which each module stands there. An error if
    /// memory ran out.
    pub fn of(
        alloc: Global,
        files: &[SourceFile],
        program: &Marked,
        places: &[Places],
    ) -> Result<Views> {
        let index = index_of(alloc, files)?;
        let gathering = Gathering {
            alloc,
            index: &index,
            program,
            names: Names {
                files,
                modules: &program.modules,
                functions: &program.functions.all,
            },
        };
        let mut views = Views {
            modules: Vec::new(alloc),
            functions: Vec::new(alloc),
        };
        let typed = typed_program(alloc, files)?;
        for (number, (typed, places)) in typed.into_iter().zip(places).enumerate() {
            views
                .modules
                .push(gathering.module(number, typed, *places)?)?;
        }
        gathering.add_functions(&mut views)?;
        Ok(views)
    }
}
