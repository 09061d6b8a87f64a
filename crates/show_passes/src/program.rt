//! The code of a program's modules.

use crate::texts::{Shown, tree_of};
use crate::titles::{Titles, titles_of};
use m2_tree::{Contents, Module};
use mark_statements::{Statements, statements_of, with_statements};
use show_code::{Page, put_module};
use std::alloc::{AllocError, Global};
use typed_tree::Dictionary;
use wasm_binary::read_module;
use wasm_tree::WFault;

/// A file of a program: its name, and its text.
pub type File<'a> = (&'a str, &'a [u8]);

/// A module that was built: its name, and its bytes.
pub type Built = (String, Vec<u8>);

/// The tree of a text, and its statements.
#[derive(Drop)]
pub struct Parsed {
    pub tree: Module,
    pub statements: Statements,
}

/// The trees of a program, by the names of their modules.
pub struct Trees {
    /// Those of the files that have one, in the order of the files.
    pub all: Vec<Parsed>,
    /// The numbers of the definitions' trees.
    definitions: Dictionary<usize>,
    /// The numbers of the bodies' trees.
    bodies: Dictionary<usize>,
}

// Written by hand, so that proofs above take a drop as one call.
impl Drop for Trees {
    fn drop(self) {
        let Trees {
            all,
            definitions,
            bodies,
        } = self;
        drop(all);
        drop(definitions);
        drop(bodies);
    }
}

impl Trees {
    fn new(alloc: Global) -> Trees {
        Trees {
            all: Vec::new(alloc),
            definitions: Dictionary::new(alloc),
            bodies: Dictionary::new(alloc),
        }
    }

    /// One more tree.
    fn add(
        &mut self,
        alloc: Global,
        tree: Module,
        statements: Statements,
    ) -> Result<(), AllocError> {
        let number = self.all.len();
        let name = tree.name.name.as_bytes();
        match &tree.contents {
            Contents::Definition(_) => self.definitions.enter(alloc, name, number)?,
            Contents::Implementation(_) | Contents::Program(_) => {
                self.bodies.enter(alloc, name, number)?;
            }
        }
        self.all.push(Parsed { tree, statements })?;
        Ok(())
    }

    /// One more text. One without a tree is left out.
    fn add_text(&mut self, alloc: Global, text: &[u8]) -> Result<(), AllocError> {
        let statements = statements_of(alloc, text)?;
        match tree_of(alloc, text)? {
            Shown::Made(tree) => self.add(alloc, tree, statements),
            Shown::Refused(_, _) => Ok(()),
        }
    }

    /// The tree of this number.
    fn at(&self, number: Option<&usize>) -> Option<&Parsed> {
        self.all.get(*number?)
    }

    /// The number of the body of the module of this name.
    pub fn body_number(&self, name: &[u8]) -> Option<usize> {
        self.bodies.find(name).map(|number| *number)
    }

    /// The body of the module of this name.
    fn body(&self, name: &[u8]) -> Option<&Parsed> {
        self.at(self.bodies.find(name))
    }

    /// What the functions of the module of this name are, from its body.
    pub fn titles(&self, alloc: Global, body: &Parsed, name: &[u8]) -> Result<Titles, AllocError> {
        let definition = self.at(self.definitions.find(name));
        titles_of(alloc, &body.tree, definition.map(|it| &it.tree))
    }
}

/// The trees of the texts of files, and their statements. The only error is that memory ran out.
pub fn trees_of(alloc: Global, files: &[File<'_>]) -> Result<Trees, AllocError> {
    let mut trees = Trees::new(alloc);
    for file in files {
        trees.add_text(alloc, file.1)?;
    }
    Ok(trees)
}

/// The code of a module.
fn code_of(alloc: Global, titles: &[Vec<u8>], bytes: &[u8]) -> Result<Vec<u8>, WFault> {
    let tree = read_module(alloc, bytes)?;
    let mut page = Page::new(alloc);
    put_module(&mut page, titles, &tree);
    Ok(page.finish()?)
}

/// The code of a module with its statements beside it, if it is the marked code but for its marks.
fn explain_code(
    alloc: Global,
    titles: &Titles,
    statements: &Statements,
    code: Vec<u8>,
    marked: &[u8],
) -> Result<Vec<u8>, WFault> {
    let marked = code_of(alloc, &titles.titles, marked)?;
    match with_statements(alloc, &code, &marked, statements, &titles.places)? {
        Some(text) => Ok(text),
        None => Ok(code),
    }
}

/// Puts a comment with the name of a module's file, and then its code.
fn put_named(page: &mut Page, name: &[u8], code: &[u8]) {
    page.put_all(&[b";; ", name, b".wasm\n", code]);
}

/// Puts the module link, whose only function calls the bodies.
fn put_link(alloc: Global, page: &mut Page, link: &[u8]) -> Result<(), WFault> {
    let mut titles = Titles::new(alloc);
    titles.add_word("calls the bodies of all modules")?;
    put_named(page, b"link", &code_of(alloc, &titles.titles, link)?);
    Ok(())
}

/// Puts a module, with its marked code if there is one.
fn put_one(
    alloc: Global,
    page: &mut Page,
    trees: &Trees,
    module: &Built,
    marked: Option<&Built>,
) -> Result<(), WFault> {
    let name = module.0.as_bytes();
    let Some(body) = trees.body(name) else {
        put_named(page, name, &code_of(alloc, &[], &module.1)?);
        return Ok(());
    };
    let titles = trees.titles(alloc, body, name)?;
    let code = code_of(alloc, &titles.titles, &module.1)?;
    let code = match marked {
        Some(marked) => explain_code(alloc, &titles, &body.statements, code, &marked.1)?,
        None => code,
    };
    put_named(page, name, &code);
    Ok(())
}

/// The code of modules that were built of files, link first and the others with their names: each behind a comment with the
/// name of its file, in the text format that `wat2wasm` reads. Beside each function stands which procedure it is, with its
/// place in the text. If the modules are there that come of the files with marks, a comment with each statement stands in front of
/// its code.
///
/// `NoMemory` (90) if a request for memory was refused. Bytes that are no module have the fault with which `read_module`
/// refuses them.
pub fn show_program(
    alloc: Global,
    files: &[File<'_>],
    link: &[u8],
    modules: &[Built],
    marked: &[Built],
) -> Result<Vec<u8>, WFault> {
    let trees = trees_of(alloc, files)?;
    let mut page = Page::new(alloc);
    put_link(alloc, &mut page, link)?;
    for (number, module) in modules.iter().enumerate() {
        put_one(alloc, &mut page, &trees, module, marked.get(number))?;
    }
    Ok(page.finish()?)
}
