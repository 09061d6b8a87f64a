//! The functions of a program: where each stands, and the marks in it.

use m2_tree::Pos;
use m2c::SourceFile;
use mark_statements::Mark;
use show_passes::{Built, Trees, trees_of};
use std::alloc::{AllocError, Global};

/// A function of a program.
#[derive(Drop)]
pub struct Function {
    /// The number of its file, and of its module in start order.
    pub file: usize,
    pub module: usize,
    /// The place of its name.
    pub pos: Pos,
    /// Whether it is the body of its module.
    pub is_body: bool,
    pub marks: Vec<Mark>,
}

/// The functions of a program, in the order in which its modules have them.
#[derive(Drop)]
pub struct Functions {
    pub all: Vec<Function>,
    /// How many functions the modules up to each have.
    pub ends: Vec<usize>,
}

impl Functions {
    /// Adds the functions of the module of this number and name. False if its body is not there.
    fn add_module(
        &mut self,
        alloc: Global,
        trees: &Trees,
        module: usize,
        name: &[u8],
    ) -> Result<bool, AllocError> {
        let Some(file) = trees.body_number(name) else {
            return Ok(false);
        };
        let Some(body) = trees.all.get(file) else {
            return Ok(false);
        };
        let titles = trees.titles(alloc, body, name)?;
        for (number, pos) in titles.places.iter().enumerate() {
            self.all.push(Function {
                file,
                module,
                pos: *pos,
                is_body: number == 0,
                marks: Vec::from_slice(alloc, body.statements.marks_of_name(*pos))?,
            })?;
        }
        self.ends.push(self.all.len())?;
        Ok(true)
    }

    /// The number of the first function of the module of this number.
    pub fn first_of(&self, module: usize) -> usize {
        match module.checked_sub(1) {
            Some(before) => self.ends.get(before).map_or(self.all.len(), |end| *end),
            None => 0,
        }
    }

    /// The functions of the module of this number.
    pub fn of_module(&self, module: usize) -> &[Function] {
        let end = self.ends.get(module).map_or(self.all.len(), |end| *end);
        let front = &self.all[..end.min(self.all.len())];
        &front[self.first_of(module).min(front.len())..]
    }
}

/// The trees of files.
fn trees_of_files(alloc: Global, files: &[SourceFile]) -> Result<Trees, AllocError> {
    let mut named = Vec::new(alloc);
    for file in files {
        named.push((file.name.as_str(), file.bytes.as_slice()))?;
    }
    trees_of(alloc, &named)
}

/// The functions of the modules that were built of files. Nothing if a module has no body among them.
pub fn functions_of(
    alloc: Global,
    files: &[SourceFile],
    modules: &[Built],
) -> Result<Option<Functions>, AllocError> {
    let trees = trees_of_files(alloc, files)?;
    if trees.all.len() != files.len() {
        return Ok(None);
    }
    let mut functions = Functions {
        all: Vec::new(alloc),
        ends: Vec::new(alloc),
    };
    for (number, module) in modules.iter().enumerate() {
        if !functions.add_module(alloc, &trees, number, module.0.as_bytes())? {
            return Ok(None);
        }
    }
    Ok(Some(functions))
}
