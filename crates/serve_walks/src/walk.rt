//! A walk through the trees of a program, with the scopes around its place.

use m2_tree::{Ident, Qualified};
use serve_scopes::{Facts, Focus, Marks, Place, Program, Range, Role, Spot, Standing};
use serve_words::is_predeclared;
use std::alloc::{AllocError, Global};

/// A walk through the trees of a program.
#[derive(Drop)]
pub struct Walk {
    pub alloc: Global,
    pub program: Program,
    /// The tokens of each file.
    marks: Vec<Marks>,
    /// Those of a file that has none.
    no_marks: Marks,
    /// The place that is asked about, if one is.
    focus: Option<Focus>,
    pub file: usize,
    /// The scopes around the place, the outermost first.
    pub around: Vec<usize>,
    /// The declarations of the module, and of the procedure or module around the place.
    pub module: Option<usize>,
    pub parent: Option<usize>,
    /// Whether the file is a definition.
    pub is_definition: bool,
    /// Whether VAR stands before the formals that are declared.
    pub is_var: bool,
}

impl Walk {
    /// A walk through files with these tokens that has not begun. If a place is asked about, bodies around which it does not stand
    /// are passed over.
    pub fn new(alloc: Global, marks: Vec<Marks>, focus: Option<Focus>) -> Walk {
        Walk {
            alloc,
            program: Program::new(alloc),
            marks,
            no_marks: Marks::none(alloc),
            focus,
            file: 0,
            around: Vec::new(alloc),
            module: None,
            parent: None,
            is_definition: false,
            is_var: false,
        }
    }

    /// The tokens of the file.
    pub fn marks(&self) -> &Marks {
        match self.marks.get(self.file) {
            Some(marks) => marks,
            None => &self.no_marks,
        }
    }

    /// Whether a stretch of the file is passed over, since another place is asked about.
    pub fn passes_over(&self, range: Range) -> bool {
        match self.focus {
            Some(focus) => focus.file != self.file || !range.has(focus.pos),
            None => false,
        }
    }

    /// The place of a name in the file.
    pub fn place(&self, name: &Ident) -> Place {
        Place::of(self.file, name)
    }

    /// What a name stands for here, if it is not predeclared.
    pub fn known(&self, name: &Ident) -> Option<Standing> {
        for scope in self.around.iter().rev() {
            let found = self.program.found(*scope, name.name.as_bytes());
            if found.is_some() {
                return found;
            }
        }
        None
    }

    /// The innermost scope.
    pub fn innermost(&self) -> Option<usize> {
        self.around.last().map(|it| *it)
    }

    /// Begins a scope that is known in this stretch of the file.
    pub fn open(&mut self, scope: usize, range: Range) -> Result<(), AllocError> {
        self.program.add_region(self.file, range, scope)?;
        self.around.push(scope)?;
        Ok(())
    }

    /// Ends the innermost scope.
    pub fn close(&mut self) {
        let _ = self.around.pop();
    }

    /// Whether the place stands in no procedure and no record.
    pub fn is_outermost(&self) -> bool {
        self.parent == self.module
    }

    /// Whether a name that the module declares is known already. What a module imports, its definition and what it declares itself
    /// are one scope.
    fn is_taken(&self, name: &Ident) -> bool {
        self.is_outermost() && self.known(name).is_some()
    }

    /// Declares a name in the innermost scope. The number of the declaration.
    pub fn declare(&mut self, name: &Ident, facts: Facts) -> Result<usize, AllocError> {
        let number = self.program.declare(self.file, name, facts)?;
        if self.is_taken(name) {
            return Ok(number);
        }
        if let Some(scope) = self.innermost() {
            let standing = Standing::Declared(number);
            self.program.enter(scope, name.name.as_bytes(), standing)?;
        }
        Ok(number)
    }

    /// The declaration whose name stands here, if the name is known for it.
    pub fn declared_here(&self, name: &Ident) -> Option<usize> {
        match self.known(name) {
            Some(Standing::Declared(number)) => {
                let declaration = self.program.declaration(number)?;
                if declaration.stands_at(self.place(name)) {
                    Some(number)
                } else {
                    None
                }
            }
            Some(Standing::BuiltIn) | None => None,
        }
    }

    /// Notes a name that stands for a declaration.
    pub fn mention(&mut self, name: &Ident, number: usize, role: Role) -> Result<(), AllocError> {
        let place = self.place(name);
        self.program.add_use(place, number, role)
    }

    /// Notes a name that stands for nothing.
    pub fn miss(&mut self, name: &Ident) -> Result<(), AllocError> {
        let place = self.place(name);
        self.program.unresolved.push(place)?;
        Ok(())
    }

    /// Notes what a name is found to stand for.
    fn note(&mut self, name: &Ident, found: Option<Standing>) -> Result<(), AllocError> {
        match found {
            Some(Standing::Declared(number)) => self.mention(name, number, Role::Mention),
            Some(Standing::BuiltIn) => Ok(()),
            None => self.miss(name),
        }
    }

    /// What a name stands for that is used here.
    fn resolve(&mut self, name: &Ident) -> Result<Option<Standing>, AllocError> {
        let mut found = self.known(name);
        if found.is_none() && is_predeclared(name.name.as_bytes()) {
            found = Some(Standing::BuiltIn);
        }
        self.note(name, found)?;
        Ok(found)
    }

    /// What a name behind a point stands for. Behind a name that stands for nothing it is not looked for.
    fn resolve_part(&mut self, spot: Spot, name: &Ident) -> Result<Option<Standing>, AllocError> {
        if spot == Spot::Nothing {
            return Ok(None);
        }
        let found = self.program.picked(spot, name.name.as_bytes());
        self.note(name, found)?;
        Ok(found)
    }

    /// What stands in front of a selector behind a name that is used here.
    pub fn begin(&mut self, name: &Ident) -> Result<Spot, AllocError> {
        let found = self.resolve(name)?;
        Ok(self.program.spot_of(found, name.name.as_bytes()))
    }

    /// The same behind a name that stands behind a point.
    pub fn pick(&mut self, spot: Spot, name: &Ident) -> Result<Spot, AllocError> {
        let found = self.resolve_part(spot, name)?;
        Ok(self.program.spot_of(found, name.name.as_bytes()))
    }

    /// The declaration that a name, or a name of a module, stands for.
    pub fn qualified(&mut self, of: &Qualified) -> Result<Option<usize>, AllocError> {
        let found = match &of.module {
            None => self.resolve(&of.name)?,
            Some(module) => {
                let spot = self.begin(module)?;
                self.resolve_part(spot, &of.name)?
            }
        };
        match found {
            Some(Standing::Declared(number)) => Ok(Some(number)),
            Some(Standing::BuiltIn) | None => Ok(None),
        }
    }
}
