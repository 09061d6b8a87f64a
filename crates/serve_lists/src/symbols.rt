//! Declarations in lists.

use crate::ask::Ask;
use serve_names::{Declaration, Kind, Place, Range};
use serve_programs::Mark;
use std::alloc::{AllocError, Global};
use write_json::Json;

/// The most names that are found in all files.
const MOST_SYMBOLS: usize = 512;

/// The number that the protocol has for a kind.
fn kind_number(kind: Kind) -> u64 {
    match kind {
        Kind::Module => 2,
        Kind::Field => 8,
        Kind::Procedure => 12,
        Kind::Variable | Kind::Formal => 13,
        Kind::Constant => 14,
        Kind::EnumerationConstant => 22,
        Kind::Type => 23,
    }
}

/// A declaration as it stands in a file: its name, and its whole.
#[derive(Clone, Copy)]
struct Standing {
    name: Mark,
    whole: Mark,
}

/// A name and its whole as they stand now.
fn standing_of(ask: &Ask<'_>, place: Place, range: Range) -> Option<Standing> {
    let name = ask.view.mark_of(place)?;
    let whole = ask.view.mark_of_range(place.file, range)?;
    Some(Standing { name, whole })
}

/// Where a declaration stands in the file: its heading in the definition or in the implementation.
fn standing_here(ask: &Ask<'_>, declaration: &Declaration) -> Option<Standing> {
    if declaration.place.file == ask.file {
        return standing_of(ask, declaration.place, declaration.range);
    }
    let place = declaration.implementation.filter(|it| it.file == ask.file)?;
    standing_of(ask, place, declaration.implementation_range?)
}

/// A declaration that stands in the file.
#[derive(Clone, Copy)]
struct Entry<'a> {
    number: usize,
    declaration: &'a Declaration,
    standing: Standing,
}

/// The declarations that stand in the file: those inside of each one, and those that stand in none, the last first.
#[derive(Drop)]
struct Nest<'a> {
    inside: Vec<Vec<Entry<'a>>>,
    outside: Vec<Entry<'a>>,
}

impl<'a> Nest<'a> {
    /// No entry yet, of so many declarations.
    fn new(alloc: Global, count: usize) -> Result<Nest<'a>, AllocError> {
        let mut inside = Vec::new(alloc);
        for _number in 0..count {
            inside.push(Vec::new(alloc))?;
        }
        Ok(Nest {
            inside,
            outside: Vec::new(alloc),
        })
    }

    /// The declarations that stand in the file.
    fn of(ask: &Ask<'a>) -> Result<Nest<'a>, AllocError> {
        let declarations = ask.view.index.declarations();
        let mut nest = Nest::new(ask.alloc, declarations.len())?;
        for (number, declaration) in declarations.iter().enumerate().rev() {
            if let Some(standing) = standing_here(ask, declaration) {
                nest.put(Entry {
                    number,
                    declaration,
                    standing,
                })?;
            }
        }
        Ok(nest)
    }

    /// Puts an entry into the declaration in which it stands.
    fn put(&mut self, entry: Entry<'a>) -> Result<(), AllocError> {
        let number = entry.declaration.parent.unwrap_or(self.inside.len());
        match self.inside.get_mut(number) {
            Some(entries) => entries.push(entry)?,
            None => self.outside.push(entry)?,
        }
        Ok(())
    }

    /// Takes out the first entry that is left inside of another, or of those that stand in none.
    fn take(&mut self, around: Option<Entry<'a>>) -> Option<Entry<'a>> {
        match around {
            Some(entry) => self.inside.get_mut(entry.number)?.pop(),
            None => self.outside.pop(),
        }
    }
}

/// Begins the object of a declaration, in which those inside of it come first.
fn begin_symbol(json: &mut Json) {
    json.begin_object();
    json.name("children");
    json.begin_list();
}

/// Ends the object of a declaration.
fn end_symbol(ask: &Ask<'_>, entry: Entry<'_>, json: &mut Json) {
    json.end_list();
    json.number_member("kind", kind_number(entry.declaration.kind));
    json.bytes_member("name", &entry.declaration.name);
    json.name("range");
    ask.put_range(entry.standing.whole, json);
    json.name("selectionRange");
    ask.put_range(entry.standing.name, json);
    json.end_object();
}

/// Writes the declarations of the file, each with those inside of it.
pub fn document_symbols(ask: &Ask<'_>, json: &mut Json) -> Result<(), AllocError> {
    let mut nest = Nest::of(ask)?;
    let mut open = Vec::new(ask.alloc);
    json.begin_list();
    // Each declaration is begun and ended once.
    for _ in 0..nest.inside.len().saturating_mul(2) {
        if let Some(entry) = nest.take(open.last().copied()) {
            begin_symbol(json);
            open.push(entry)?;
        } else if let Some(entry) = open.pop() {
            end_symbol(ask, entry, json);
        }
    }
    json.end_list();
    Ok(())
}

/// Whether a name has these letters in it, small or capital.
fn is_found(name: &[u8], wanted: &[u8]) -> bool {
    wanted.is_empty()
        || name
            .windows(wanted.len())
            .any(|part| part.eq_ignore_ascii_case(wanted))
}

/// Whether a declaration is shown in the list of all files.
fn is_listed(kind: Kind) -> bool {
    !matches!(kind, Kind::Formal | Kind::Field)
}

/// Where a declaration stands, if it is shown in the list of all files, and its name has these letters in it.
fn found_at(ask: &Ask<'_>, declaration: &Declaration, wanted: &[u8]) -> Option<Mark> {
    if is_listed(declaration.kind) && is_found(&declaration.name, wanted) {
        ask.view.mark_of(declaration.place)
    } else {
        None
    }
}

/// Writes a declaration of any file.
fn put_symbol(ask: &Ask<'_>, declaration: &Declaration, mark: Mark, json: &mut Json) {
    json.begin_object();
    json.number_member("kind", kind_number(declaration.kind));
    json.name("location");
    ask.put_location(mark, json);
    json.bytes_member("name", &declaration.name);
    json.end_object();
}

/// Writes the declarations of all files whose names have these letters in them, up to 512.
pub fn workspace_symbols(ask: &Ask<'_>, wanted: &[u8], json: &mut Json) {
    let mut left = MOST_SYMBOLS;
    json.begin_list();
    for declaration in ask.view.index.declarations() {
        if left == 0 {
            break;
        }
        if let Some(mark) = found_at(ask, declaration, wanted) {
            put_symbol(ask, declaration, mark, json);
            left = left.saturating_sub(1);
        }
    }
    json.end_list();
}
