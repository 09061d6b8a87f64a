//! Breakpoints.

use debug_history::{Function, Names};
use debug_views::Views;
use debug_words::{Condition, Target};
use m2_tree::Pos;
use std::alloc::{AllocError, Global};

/// A statement of a program: the number of its function, and its place.
#[derive(Clone, Copy, PartialEq, Eq)]
pub struct Statement {
    pub function: u32,
    pub pos: Pos,
}

/// A breakpoint.
#[derive(Drop)]
pub struct Break {
    pub number: u64,
    pub statement: Statement,
    pub condition: Option<Condition>,
}

/// The breakpoints of a session.
#[derive(Drop)]
pub struct Breaks {
    pub all: Vec<Break>,
    /// How many there were.
    pub count: u64,
}

/// Where a breakpoint can stand.
#[derive(Drop)]
pub enum Placed {
    Here(Statement),
    /// Why it can stand nowhere, in a sentence.
    Nowhere(String),
}

/// A program in which breakpoints are set.
#[derive(Clone, Copy)]
pub struct Places<'a> {
    pub names: Names<'a>,
    pub views: &'a Views,
}

impl Breaks {
    /// None.
    pub fn new(alloc: Global) -> Breaks {
        Breaks {
            all: Vec::new(alloc),
            count: 0,
        }
    }

    /// Adds a breakpoint. Its number.
    pub fn add(
        &mut self,
        statement: Statement,
        condition: Option<Condition>,
    ) -> Result<u64, AllocError> {
        self.count = self.count.saturating_add(1);
        self.all.push(Break {
            number: self.count,
            statement,
            condition,
        })?;
        Ok(self.count)
    }

    /// Takes the breakpoint of this number away. False if there is none.
    pub fn remove(&mut self, number: u64) -> bool {
        match self.all.iter().position(|it| it.number == number) {
            None => false,
            Some(at) => {
                drop(self.all.remove(at));
                true
            }
        }
    }
}

/// The place of the first statement of a function from a line on.
fn first_from(function: &Function, line: u32) -> Option<Pos> {
    let mut first: Option<Pos> = None;
    for mark in &function.marks {
        if mark.pos.line >= line && first.is_none_or(|it| mark.pos < it) {
            first = Some(mark.pos);
        }
    }
    first
}

/// The number of a function.
fn narrow(number: usize) -> u32 {
    u32::try_from(number).unwrap_or(u32::MAX)
}

/// How many lines a text has.
fn line_count(text: &[u8]) -> usize {
    let ends = text.iter().filter(|byte| **byte == b'\n').count();
    if text.ends_with(b"\n") {
        ends
    } else {
        ends.saturating_add(1)
    }
}

impl<'a> Places<'a> {
    /// The first statement in a module from a line on.
    fn from_line(&self, module: usize, line: u32) -> Option<Statement> {
        let mut found: Option<Statement> = None;
        for (number, function) in self.names.functions.iter().enumerate() {
            if function.module == module {
                if let Some(pos) = first_from(function, line) {
                    if found.is_none_or(|it| pos < it.pos) {
                        found = Some(Statement {
                            function: narrow(number),
                            pos,
                        });
                    }
                }
            }
        }
        found
    }

    /// Whether the function of this number is the procedure of this name in a module.
    fn is_named(&self, number: usize, module: usize, name: &[u8]) -> bool {
        match self.views.functions.get(number) {
            Some(view) if view.module == module => match view.name.as_str().split_once('.') {
                None => false,
                Some((_, procedure)) => procedure.as_bytes() == name,
            },
            _ => false,
        }
    }

    /// The number of the procedure of this name in a module.
    fn procedure(&self, module: usize, name: &[u8]) -> Option<usize> {
        (0..self.names.functions.len()).find(|number| self.is_named(*number, module, name))
    }

    /// The module of this name, or the program's own. A sentence if there is none.
    fn module(
        &self,
        alloc: Global,
        name: &Option<Vec<u8>>,
    ) -> Result<Result<usize, String>, AllocError> {
        match name {
            None => Ok(Ok(self.views.module_of(None))),
            Some(name) => match self.views.module_named(name) {
                Some(module) => Ok(Ok(module)),
                None => {
                    let name = String::from_utf8_lossy(alloc, name)?;
                    Ok(Err(format!(in alloc; "the program has no module {name}")?))
                }
            },
        }
    }

    /// The file with the body of a module: its name, and how many lines it has.
    fn file_of(&self, module: usize) -> Option<(&'a str, usize)> {
        let function = self.names.functions.iter().find(|it| it.module == module)?;
        let file = self.names.files.get(function.file)?;
        Some((file.name.as_str(), line_count(&file.bytes)))
    }

    /// Where a breakpoint on a line of a module can stand.
    fn on_line(&self, alloc: Global, module: usize, line: u32) -> Result<Placed, AllocError> {
        if let Some(statement) = self.from_line(module, line) {
            return Ok(Placed::Here(statement));
        }
        let Some((file, count)) = self.file_of(module) else {
            return Ok(Placed::Nowhere(String::from_str(alloc, "the module has no statement")?));
        };
        let words = if line as usize > count {
            format!(in alloc; "{file} has {count} lines, and no line {line}")?
        } else {
            format!(in alloc; "no statement stands on line {line} of {file} or behind it")?
        };
        Ok(Placed::Nowhere(words))
    }

    /// Where a breakpoint at the begin of a procedure can stand.
    fn in_procedure(
        &self,
        alloc: Global,
        module: usize,
        name: &[u8],
    ) -> Result<Placed, AllocError> {
        let word = String::from_utf8_lossy(alloc, name)?;
        let Some(number) = self.procedure(module, name) else {
            let words = format!(in alloc; "the module has no procedure {word}")?;
            return Ok(Placed::Nowhere(words));
        };
        let function = self.names.functions.get(number);
        match function.and_then(|it| it.marks.first()) {
            Some(mark) => Ok(Placed::Here(Statement {
                function: narrow(number),
                pos: mark.pos,
            })),
            None => {
                let words = format!(in alloc; "the procedure {word} has no statement")?;
                Ok(Placed::Nowhere(words))
            }
        }
    }

    /// Where a breakpoint can stand that is asked for so.
    pub fn place(&self, alloc: Global, target: &Target) -> Result<Placed, AllocError> {
        let name = match target {
            Target::Line(name, _) => name,
            Target::Procedure(name, _) => name,
        };
        let module = match self.module(alloc, name)? {
            Ok(module) => module,
            Err(words) => return Ok(Placed::Nowhere(words)),
        };
        match target {
            Target::Line(_, line) => self.on_line(alloc, module, *line),
            Target::Procedure(_, name) => self.in_procedure(alloc, module, name),
        }
    }

    /// Where a breakpoint stands, in a line.
    pub fn words_of(&self, alloc: Global, it: &Break) -> Result<String, AllocError> {
        let number = it.number;
        let function = it.statement.function;
        let name = self
            .views
            .function(function)
            .map_or("", |view| view.name.as_str());
        let file = self
            .names
            .functions
            .get(function as usize)
            .and_then(|function| self.names.files.get(function.file))
            .map_or("", |file| file.name.as_str());
        let Pos { line, col } = it.statement.pos;
        let end = if it.condition.is_some() {
            ", with a condition"
        } else {
            ""
        };
        format!(in alloc; "breakpoint {number}: {file}:{line}:{col}, in {name}{end}\n")
    }
}
