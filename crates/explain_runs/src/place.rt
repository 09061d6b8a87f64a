//! Places of a run, as they are told.

use crate::functions::Function;
use m2_tree::Pos;
use m2c::SourceFile;
use mark_statements::MarkKind;
use show_passes::Built;
use std::alloc::{AllocError, Global};
use text_tokens::{offset_of, rest};
use watch_code::Activation;

/// Where a function is.
#[derive(Drop)]
pub struct Place<'a> {
    pub file: &'a SourceFile,
    pub pos: Pos,
    /// The name of the module.
    pub module: &'a str,
    /// The name of the procedure. Nothing in the body of the module.
    pub procedure: Option<&'a [u8]>,
}

/// A program as it is told: its files, and its modules in start order.
#[derive(Clone, Copy)]
pub struct Names<'a> {
    pub files: &'a [SourceFile],
    pub modules: &'a [Built],
    pub functions: &'a [Function],
}

/// The name that stands at a place of a text.
fn name_at(text: &[u8], pos: Pos) -> &[u8] {
    let text = rest(text, offset_of(text, pos));
    match text.iter().position(|byte| !byte.is_ascii_alphanumeric()) {
        Some(end) => &text[..end.min(text.len())],
        None => text,
    }
}

/// The place that is told of a function at one of its marks.
fn pos_of(function: &Function, mark: Option<usize>) -> Pos {
    match mark.and_then(|number| function.marks.get(number)) {
        Some(mark) => mark.pos,
        None => function.pos,
    }
}

impl<'a> Names<'a> {
    /// What begins at the last mark of a function that runs.
    pub fn kind_of(&self, activation: Activation) -> Option<MarkKind> {
        let function = self.functions.get(activation.function as usize)?;
        function.marks.get(activation.mark?).map(|mark| mark.kind)
    }

    /// Where a function is that runs.
    pub fn place_of(&self, activation: Activation) -> Option<Place<'a>> {
        let function = self.functions.get(activation.function as usize)?;
        let file = self.files.get(function.file)?;
        let module = self.modules.get(function.module)?;
        let procedure = if function.is_body {
            None
        } else {
            Some(name_at(&file.bytes, function.pos))
        };
        Some(Place {
            file,
            pos: pos_of(function, activation.mark),
            module: module.0.as_str(),
            procedure,
        })
    }
}

impl Place<'_> {
    /// Which function it is in: `Module.Procedure`, or the body of a module.
    pub fn function(&self, alloc: Global) -> Result<String, AllocError> {
        let module = self.module;
        match self.procedure {
            None => format!(in alloc; "the body of {module}"),
            Some(name) => {
                let name = String::from_utf8_lossy(alloc, name)?;
                format!(in alloc; "{module}.{name}")
            }
        }
    }

    /// The file, the line and the column.
    pub fn spot(&self, alloc: Global) -> Result<String, AllocError> {
        let file = &self.file.name;
        let Pos { line, col } = self.pos;
        format!(in alloc; "{file}:{line}:{col}")
    }
}
