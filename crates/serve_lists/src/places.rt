//! Where a name stands.

use crate::ask::Ask;
use serve_names::{Role, Use};
use serve_programs::Mark;
use std::alloc::AllocError;
use write_json::Json;

/// Which places of a name are asked for.
#[derive(Clone, Copy, Debug, PartialEq, Eq)]
pub enum Extent {
    /// Those at which it is used.
    Uses,
    /// Also those at which it is declared.
    All,
}

/// The kind of a highlight: a use, or a declaration.
const READ: u64 = 2;

const WRITE: u64 = 3;

/// Writes where the thing at a place is declared: in the definition, if it has one. Null if none stands there.
pub fn definition(ask: &Ask<'_>, json: &mut Json) {
    match ask.declaration_here() {
        Some((_number, declaration)) => ask.put_location_at(declaration.place, json),
        None => json.null(),
    }
}

/// Writes where the thing at a place is implemented, or else declared. Null if none stands there.
pub fn implementation(ask: &Ask<'_>, json: &mut Json) {
    match ask.declaration_here() {
        Some((_number, declaration)) => {
            let place = declaration.implementation.unwrap_or(declaration.place);
            ask.put_location_at(place, json);
        }
        None => json.null(),
    }
}

/// Writes where the named type of the thing at a place is declared. Null if it has none.
pub fn type_definition(ask: &Ask<'_>, json: &mut Json) {
    let index = &ask.view.index;
    let found = ask
        .declaration_here()
        .and_then(|it| index.type_of(it.0))
        .and_then(|number| index.declaration(number));
    match found {
        Some(declaration) => ask.put_location_at(declaration.place, json),
        None => json.null(),
    }
}

/// All places of the thing at a place.
fn uses_here(ask: &Ask<'_>) -> Result<Vec<Use>, AllocError> {
    match ask.declaration_here() {
        Some((number, _declaration)) => ask.view.index.uses_of(ask.alloc, number),
        None => Ok(Vec::new(ask.alloc)),
    }
}

/// Whether a thing is used at a place, and not declared.
fn is_mention(role: Role) -> bool {
    matches!(role, Role::Import | Role::Mention)
}

/// Writes the places of the thing at a place.
pub fn references(ask: &Ask<'_>, wanted: Extent, json: &mut Json) -> Result<(), AllocError> {
    let uses = uses_here(ask)?;
    json.begin_list();
    for found in &uses {
        if wanted == Extent::All || is_mention(found.role) {
            if let Some(mark) = ask.view.mark_of(found.place) {
                ask.put_location(mark, json);
            }
        }
    }
    json.end_list();
    Ok(())
}

/// Writes a place in the same file.
fn put_highlight(ask: &Ask<'_>, mark: Mark, role: Role, json: &mut Json) {
    let kind = if is_mention(role) { READ } else { WRITE };
    json.begin_object();
    json.number_member("kind", kind);
    json.name("range");
    ask.put_range(mark, json);
    json.end_object();
}

/// Writes the places of the thing at a place in the same file.
pub fn highlights(ask: &Ask<'_>, json: &mut Json) -> Result<(), AllocError> {
    let uses = uses_here(ask)?;
    json.begin_list();
    for found in &uses {
        let mark = ask.view.mark_of(found.place);
        if let Some(mark) = mark.filter(|it| it.file == ask.file) {
            put_highlight(ask, mark, found.role, json);
        }
    }
    json.end_list();
    Ok(())
}

/// Writes the name at a place, if it can be renamed. Null if none stands there.
pub fn prepare_rename(ask: &Ask<'_>, json: &mut Json) {
    let Some((_found, mark)) = ask.name_here() else {
        json.null();
        return;
    };
    let name = ask.bytes().get(mark.begin..mark.end).unwrap_or(b"");
    json.begin_object();
    json.bytes_member("placeholder", name);
    json.name("range");
    ask.put_range(mark, json);
    json.end_object();
}
