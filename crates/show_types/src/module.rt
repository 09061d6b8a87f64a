//! Typed modules.

use crate::rows::typed_row;
use crate::shapes::show_own_types;
use crate::stmts::show_stmts;
use itoa::Buffer;
use show_code::Page;
use std::alloc::{AllocError, Global};
use typed_tree::{Routine, TypeNo, TypedModule};

/// Variables, each with its number and its type.
fn show_variables(
    page: &mut Page,
    module: &TypedModule,
    level: usize,
    word: &[u8],
    variables: &[TypeNo],
) {
    for (number, t) in variables.iter().enumerate() {
        let mut digits = Buffer::new();
        let words: [&[u8]; 3] = [word, b" ", digits.format(number).as_bytes()];
        typed_row(page, module, level, &words, *t);
    }
}

/// Procedures, each with its number, the type of its heading, its variables, and its body.
fn show_routines(
    page: &mut Page,
    module: &TypedModule,
    level: usize,
    word: &[u8],
    routines: &[Routine],
) {
    let inner = level.saturating_add(1);
    for (number, routine) in routines.iter().enumerate() {
        let mut digits = Buffer::new();
        let words: [&[u8]; 3] = [word, b" ", digits.format(number).as_bytes()];
        let own = routine.variables.as_slice();
        page.row_at(level, &words, routine.pos);
        typed_row(page, module, inner, &[b"heading"], routine.heading);
        show_variables(page, module, inner, b"own variable", own);
        page.row(inner, &[b"body"]);
        show_stmts(
            page,
            module,
            inner.saturating_add(1),
            routine.body.as_slice(),
        );
    }
}

/// The typed tree of a module: its types, its variables, its procedures and its body. The only error is that memory ran out.
pub fn show_types(alloc: Global, module: &TypedModule) -> Result<Vec<u8>, AllocError> {
    let mut page = Page::new(alloc);
    page.row_at(0, &[b"MODULE ", module.name.as_bytes()], module.pos);
    show_own_types(&mut page, module, 1);
    show_variables(
        &mut page,
        module,
        1,
        b"variable",
        module.variables.as_slice(),
    );
    show_routines(
        &mut page,
        module,
        1,
        b"procedure",
        module.procedures.as_slice(),
    );
    show_routines(
        &mut page,
        module,
        1,
        b"local procedure",
        module.locals.as_slice(),
    );
    page.row(1, &[b"body"]);
    show_stmts(&mut page, module, 2, module.body.as_slice());
    page.finish()
}
