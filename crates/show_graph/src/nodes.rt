//! The modules of a program.

use list_imports::add_imports;
use m2_tree::{Contents, Module};
use std::alloc::{AllocError, Global};

/// One of the two texts of a module.
#[derive(Drop)]
pub struct Part<'a> {
    /// The file that has it.
    pub file: &'a str,
    /// The modules that it imports, in order, each once, without Console.
    pub imports: Vec<String>,
}

/// A module, and the texts that it has.
#[derive(Drop)]
pub struct Node<'a> {
    pub name: String,
    /// Whether it is a program module.
    pub is_program: bool,
    pub definition: Option<Part<'a>>,
    /// The implementation, or the text of a program module.
    pub body: Option<Part<'a>>,
}

/// A text of a file.
fn part_of<'a>(alloc: Global, file: &'a str, tree: &Module) -> Result<Part<'a>, AllocError> {
    let mut imports = Vec::new(alloc);
    add_imports(alloc, &mut imports, tree)?;
    Ok(Part { file, imports })
}

/// Adds an implementation: to its definition, if this is the last module, or alone.
fn add_implementation<'a>(
    nodes: &mut Vec<Node<'a>>,
    name: String,
    part: Part<'a>,
) -> Result<(), AllocError> {
    if let Some(last) = nodes.last_mut() {
        let is_lacking = !last.is_program && last.body.is_none();
        if is_lacking && last.name.as_bytes() == name.as_bytes() {
            last.body = Some(part);
            return Ok(());
        }
    }
    nodes.push(Node {
        name,
        is_program: false,
        definition: None,
        body: Some(part),
    })?;
    Ok(())
}

/// Adds a text to the modules.
fn add_text<'a>(
    alloc: Global,
    nodes: &mut Vec<Node<'a>>,
    file: &'a str,
    tree: &Module,
) -> Result<(), AllocError> {
    let name = String::from_utf8_lossy(alloc, tree.name.name.as_bytes())?;
    let part = part_of(alloc, file, tree)?;
    let (definition, body, is_program) = match &tree.contents {
        Contents::Implementation(_) => return add_implementation(nodes, name, part),
        Contents::Definition(_) => (Some(part), None, false),
        Contents::Program(_) => (None, Some(part), true),
    };
    nodes.push(Node {
        name,
        is_program,
        definition,
        body,
    })?;
    Ok(())
}

/// The modules with these trees, each under the name of its file, in this order. The implementation of a module stands right behind its
/// definition. The only error is that memory ran out.
pub fn nodes_of<'a>(
    alloc: Global,
    trees: &[(&'a str, &Module)],
) -> Result<Vec<Node<'a>>, AllocError> {
    let mut nodes = Vec::new(alloc);
    for (file, tree) in trees {
        add_text(alloc, &mut nodes, file, tree)?;
    }
    Ok(nodes)
}
