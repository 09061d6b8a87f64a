//! Modules in which nothing stands but imports: what stands for modules of a program that are not there as texts.
#![tactic(auto)]

ghost use Rattle.std.specs.Prelude.{◌≡◌, IfOk};
ghost use Rattle.empty_modules.specs.Empty.{ident_of, nothing, import_of, empty_definition, empty_body, empty_program};

use m2_tree::{Block, Contents, Ident, Import, Module, Name, Pos};
use std::alloc::{AllocError, Global};
use tree_parts::Items;

/// A name at the begin of a file.
fn ident_of(name: Name) -> Ident
    ensures { result ≡ ident_of name }
{
    Ident {
        pos: Pos { line: 1, col: 1 },
        name,
    }
}

/// A block in which nothing stands.
fn nothing(alloc: Global) -> Block
    ensures { result ≡ nothing }
{
    Block {
        decls: Items::new(alloc),
        body: None,
    }
}

/// The import of the module of this name. The only error is that memory ran out.
pub fn import_of(alloc: Global, name: Name) -> Result<Import, AllocError>
    ensures { IfOk result (λ i. i ≡ import_of name) }
{
    let mut names = Items::new(alloc);
    names.push(ident_of(name))?;
    Ok(Import { from: None, names })
}

/// The definition module of this name, which imports nothing.
pub fn empty_definition(alloc: Global, name: Name) -> Module
    ensures { result ≡ empty_definition name }
{
    Module {
        name: ident_of(name),
        imports: Items::new(alloc),
        contents: Contents::Definition(Items::new(alloc)),
    }
}

/// The implementation module of this name, with these imports.
pub fn empty_body(alloc: Global, name: Name, imports: Items<Import>) -> Module
    ensures { result ≡ empty_body name imports }
{
    Module {
        name: ident_of(name),
        imports,
        contents: Contents::Implementation(nothing(alloc)),
    }
}

/// The program module of this name, with these imports.
pub fn empty_program(alloc: Global, name: Name, imports: Items<Import>) -> Module
    ensures { result ≡ empty_program name imports }
{
    Module {
        name: ident_of(name),
        imports,
        contents: Contents::Program(nothing(alloc)),
    }
}
