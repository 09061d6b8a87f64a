//! A program, as far as its names are gathered.

use crate::declaration::{Declaration, Facts, Kind};
use crate::places::{Packed, Place, Range, Role, Use};
use crate::scopes::{Region, Scope, Shape, Standing, Type};
use indexmap::IndexMap;
use m2_tree::Ident;
use std::alloc::{AllocError, Global};

/// The most types in a row that are the same as another, which was not known yet: one for each definition that a program may have.
const MOST_SAME: usize = 1024;

/// What is declared, and where names stand. Numbers are places in these lists.
pub struct Program {
    alloc: Global,
    pub declarations: Vec<Declaration>,
    pub types: Vec<Type>,
    pub scopes: Vec<Scope>,
    /// In the order in which they begin.
    pub regions: Vec<Region>,
    pub uses: Vec<Packed>,
    /// The names that stand for nothing.
    pub unresolved: Vec<Place>,
    /// The declarations of the modules that have a definition, by name.
    pub modules: IndexMap<Vec<u8>, usize>,
}

// Written by hand, so that proofs above take a drop as one call, and not as one for each field.
impl Drop for Program {
    fn drop(self) {
        let Program {
            alloc: _,
            declarations,
            types,
            scopes,
            regions,
            uses,
            unresolved,
            modules,
        } = self;
        drop(declarations);
        drop(types);
        drop(scopes);
        drop(regions);
        drop(uses);
        drop(unresolved);
        drop(modules);
    }
}

impl Program {
    /// A program without files.
    pub fn new(alloc: Global) -> Program {
        Program {
            alloc,
            declarations: Vec::new(alloc),
            types: Vec::new(alloc),
            scopes: Vec::new(alloc),
            regions: Vec::new(alloc),
            uses: Vec::new(alloc),
            unresolved: Vec::new(alloc),
            modules: IndexMap::new(alloc),
        }
    }

    /// A scope with no names yet. Its number.
    pub fn new_scope(&mut self) -> Result<usize, AllocError> {
        let number = self.scopes.len();
        self.scopes.push(Scope {
            names: IndexMap::new(self.alloc),
        })?;
        Ok(number)
    }

    /// What a name stands for in a scope.
    pub fn found(&self, scope: usize, name: &[u8]) -> Option<Standing> {
        self.scopes.get(scope)?.names.get(name).map(|it| *it)
    }

    /// Enters a name in a scope, unless the scope has it.
    pub fn enter(
        &mut self,
        scope: usize,
        name: &[u8],
        standing: Standing,
    ) -> Result<(), AllocError> {
        if self.found(scope, name).is_some() {
            return Ok(());
        }
        let key = Vec::from_slice(self.alloc, name)?;
        if let Some(it) = self.scopes.get_mut(scope) {
            it.names.insert(key, standing)?;
        }
        Ok(())
    }

    /// Enters a declaration in a scope under its own name.
    pub fn enter_declared(&mut self, scope: usize, number: usize) -> Result<(), AllocError> {
        let name = match self.declarations.get(number) {
            Some(it) => Vec::from_slice(self.alloc, &it.name)?,
            None => return Ok(()),
        };
        self.enter(scope, &name, Standing::Declared(number))
    }

    /// The declaration of this number.
    pub fn declaration(&self, number: usize) -> Option<&Declaration> {
        self.declarations.get(number)
    }

    /// What kind of thing the declaration of this number is.
    pub fn kind_of(&self, number: usize) -> Option<Kind> {
        self.declarations.get(number).map(|it| it.kind)
    }

    /// Declares a name in a file. The number of the declaration.
    pub fn declare(
        &mut self,
        file: usize,
        name: &Ident,
        facts: Facts,
    ) -> Result<usize, AllocError> {
        let number = self.declarations.len();
        let declaration = Declaration::new(self.alloc, file, name, number, facts)?;
        self.declarations.push(declaration)?;
        self.add_use(Place::of(file, name), number, Role::Declaration)?;
        Ok(number)
    }

    /// Notes where the implementation of a declared thing stands.
    pub fn implement(
        &mut self,
        number: usize,
        place: Place,
        range: Range,
    ) -> Result<(), AllocError> {
        if let Some(it) = self.declarations.get_mut(number) {
            it.implementation = Some(place);
            it.implementation_range = Some(range);
        }
        self.add_use(place, number, Role::Implementation)
    }

    /// Notes a name that stands for a declaration.
    pub fn add_use(
        &mut self,
        place: Place,
        declaration: usize,
        role: Role,
    ) -> Result<(), AllocError> {
        let found = Use {
            place,
            declaration,
            role,
        };
        self.uses.push(Packed::of(found))?;
        Ok(())
    }

    /// Notes a stretch of a text in which a scope is known.
    pub fn add_region(
        &mut self,
        file: usize,
        range: Range,
        scope: usize,
    ) -> Result<(), AllocError> {
        self.regions.push(Region { file, range, scope })?;
        Ok(())
    }

    /// A type. Its number.
    pub fn add_type(&mut self, shape: Shape, named: Option<usize>) -> Result<usize, AllocError> {
        let number = self.types.len();
        self.types.push(Type { shape, named })?;
        Ok(number)
    }

    /// Says what the type of a declaration is.
    pub fn set_type(&mut self, declaration: usize, of: usize) {
        if let Some(it) = self.declarations.get_mut(declaration) {
            it.of = Some(of);
        }
    }

    /// The type of a declaration.
    pub fn type_of(&self, declaration: usize) -> Option<Type> {
        let of = self.declarations.get(declaration)?.of?;
        self.types.get(of).map(|it| *it)
    }

    /// What the type of a declaration is made of, or that it is not known yet.
    pub fn shape_named(&self, declaration: usize) -> Shape {
        match self.type_of(declaration) {
            Some(of) => of.shape,
            None => Shape::Same(declaration),
        }
    }

    /// What the type of this number is made of.
    pub fn shape_of(&self, of: usize) -> Shape {
        let mut shape = self.types.get(of).map_or(Shape::Plain, |it| it.shape);
        for _ in 0..MOST_SAME {
            match shape {
                Shape::Same(declaration) => {
                    let next = self.shape_named(declaration);
                    if next == shape {
                        return Shape::Plain;
                    }
                    shape = next;
                }
                Shape::Plain | Shape::Array(_) | Shape::Record(_) => return shape,
            }
        }
        Shape::Plain
    }
}
