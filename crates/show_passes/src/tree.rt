//! The tree of a module, each of its parts in a row below that which it is a part of.

use crate::tree_exprs::show_expr;
use crate::tree_stmts::show_stmts;
use crate::tree_types::{show_qualified, show_section, show_type};
use m2_tree::{
    Block, Constant, Contents, Decl, Def, Heading, Ident, Import, Module, Stmt, TypeDecl, Variables,
};
use show_code::Page;
use std::alloc::{AllocError, Global};

/// Rows of names.
pub fn show_names(page: &mut Page, level: usize, names: &[Ident]) {
    for name in names {
        page.row_at(level, &[b"name ", name.name.as_bytes()], name.pos);
    }
}

/// An import: the module behind FROM, and the names.
fn show_import(page: &mut Page, level: usize, import: &Import) {
    match &import.from {
        Some(from) => page.row_at(level, &[b"FROM ", from.name.as_bytes()], from.pos),
        None => page.row(level, &[b"IMPORT"]),
    }
    show_names(page, level.saturating_add(1), import.names.as_slice());
}

fn show_imports(page: &mut Page, level: usize, imports: &[Import]) {
    for import in imports {
        show_import(page, level, import);
    }
}

fn show_constants(page: &mut Page, level: usize, rows: &[Constant]) {
    for row in rows {
        page.row_at(level, &[b"CONST ", row.name.name.as_bytes()], row.name.pos);
        show_expr(page, level.saturating_add(1), &row.value);
    }
}

fn show_type_decls(page: &mut Page, level: usize, rows: &[TypeDecl]) {
    for row in rows {
        page.row_at(level, &[b"TYPE ", row.name.name.as_bytes()], row.name.pos);
        show_type(page, level.saturating_add(1), &row.of);
    }
}

fn show_variables(page: &mut Page, level: usize, rows: &[Variables]) {
    let inner = level.saturating_add(1);
    for row in rows {
        page.row(level, &[b"VAR"]);
        show_names(page, inner, row.names.as_slice());
        show_type(page, inner, &row.of);
    }
}

/// A heading: its formals, and what it gives.
fn show_heading(page: &mut Page, level: usize, heading: &Heading) {
    let inner = level.saturating_add(1);
    let name = &heading.name;
    page.row_at(level, &[b"PROCEDURE ", name.name.as_bytes()], name.pos);
    for section in heading.formals.as_slice() {
        show_section(page, inner, section);
    }
    match &heading.result {
        None => {}
        Some(result) => {
            page.row(inner, &[b"result"]);
            show_qualified(page, inner.saturating_add(1), result);
        }
    }
}

fn show_def(page: &mut Page, level: usize, def: &Def) {
    match def {
        Def::Constants(rows) => show_constants(page, level, rows.as_slice()),
        Def::Types(rows) => show_type_decls(page, level, rows.as_slice()),
        Def::Variables(rows) => show_variables(page, level, rows.as_slice()),
        Def::Procedure(heading) => show_heading(page, level, heading),
    }
}

/// A declaration of a body or of a procedure.
#[cycle(decl)]
fn show_decl(page: &mut Page, level: usize, decl: &Decl) {
    match decl {
        Decl::Constants(rows) => show_constants(page, level, rows.as_slice()),
        Decl::Types(rows) => show_type_decls(page, level, rows.as_slice()),
        Decl::Variables(rows) => show_variables(page, level, rows.as_slice()),
        Decl::Procedure(heading, block) => {
            show_heading(page, level, heading);
            show_block(page, level.saturating_add(1), block.get());
        }
    }
}

/// The statements behind BEGIN.
fn show_body(page: &mut Page, level: usize, stmts: &[Stmt]) {
    page.row(level, &[b"BEGIN"]);
    show_stmts(page, level.saturating_add(1), stmts);
}

/// Declarations, and the statements behind BEGIN.
#[cycle(decl)]
fn show_block(page: &mut Page, level: usize, block: &Block) {
    for decl in block.decls.as_slice() {
        show_decl(page, level, decl);
    }
    match &block.body {
        None => {}
        Some(stmts) => show_body(page, level, stmts.as_slice()),
    }
}

/// The words in front of a module's name.
fn words_before(contents: &Contents) -> &'static str {
    match contents {
        Contents::Definition(_) => "DEFINITION MODULE",
        Contents::Implementation(_) => "IMPLEMENTATION MODULE",
        Contents::Program(_) => "MODULE",
    }
}

/// The row of the module itself.
fn show_name(page: &mut Page, words: &str, name: &Ident) {
    page.row_at(0, &[words.as_bytes(), b" ", name.name.as_bytes()], name.pos);
}

fn show_contents(page: &mut Page, level: usize, contents: &Contents) {
    match contents {
        Contents::Definition(defs) => {
            for def in defs.as_slice() {
                show_def(page, level, def);
            }
        }
        Contents::Implementation(block) | Contents::Program(block) => {
            show_block(page, level, block);
        }
    }
}

/// The tree of a module: a row for each of its parts, behind more blanks than what it is a part of, with the place of the
/// token that it is known by. Names, numbers and strings are leaves. Below 32 levels a row says its level in place of more
/// blanks. The only error is that memory ran out.
pub fn show_tree(alloc: Global, tree: &Module) -> Result<Vec<u8>, AllocError> {
    let mut page = Page::new(alloc);
    show_name(&mut page, words_before(&tree.contents), &tree.name);
    show_imports(&mut page, 1, tree.imports.as_slice());
    show_contents(&mut page, 1, &tree.contents);
    page.finish()
}
