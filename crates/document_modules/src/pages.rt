//! The pages of a library.

use crate::comments::{first_sentence, write_comment};
use crate::entries::{Entries, Entry, key_of, small_letters};
use crate::sheet::{Kind, Sheet};
use crate::uses::{Imports, Reference, Users, references_in};
use outline_modules::{Outline, Sort, Unit, own_names};
use std::alloc::{AllocError, Global};
use text_tokens::{part, rest};

/// The end of a line.
const LINE_FEED: u8 = b'\n';

/// How far the names of a section stand from the left.
const INDENT: &[u8] = b"  ";

/// A page, and the name of its file.
#[derive(Drop)]
pub struct Page {
    pub file: String,
    pub text: String,
}

/// A library that is written as pages.
struct Library<'a, 'b> {
    alloc: Global,
    kind: Kind,
    outlines: &'a [Outline<'b>],
    entries: Entries,
    users: Users,
}

// Written by hand, so that proofs above take a drop as one call.
impl<'a, 'b> Drop for Library<'a, 'b> {
    fn drop(self) {
        let Library {
            alloc: _alloc,
            kind: _kind,
            outlines: _outlines,
            entries,
            users,
        } = self;
        drop(entries);
        drop(users);
    }
}

/// The name of the index without its end.
fn index_stem(kind: Kind) -> &'static str {
    match kind {
        Kind::Markdown => "README",
        Kind::Html => "index",
    }
}

/// How the names of files end.
fn file_end(kind: Kind) -> &'static str {
    match kind {
        Kind::Markdown => ".md",
        Kind::Html => ".html",
    }
}

/// The name of the file of the index.
fn index_file(alloc: Global, kind: Kind) -> Result<String, AllocError> {
    let (stem, end) = (index_stem(kind), file_end(kind));
    format!(in alloc; "{stem}{end}")
}

/// The name of the file of a module, which is not that of the index.
fn file_of(alloc: Global, kind: Kind, module: &str) -> Result<String, AllocError> {
    let end = file_end(kind);
    if module.eq_ignore_ascii_case(index_stem(kind)) {
        return format!(in alloc; "{module}-module{end}");
    }
    format!(in alloc; "{module}{end}")
}

/// The word in front of the declarations of a section.
fn section_word(sort: Sort) -> Option<&'static str> {
    match sort {
        Sort::Constant => Some("CONST"),
        Sort::Type => Some("TYPE"),
        Sort::Variables => Some("VAR"),
        Sort::Heading | Sort::Import | Sort::Procedure | Sort::End => None,
    }
}

/// A line without as many blanks in front as the first line had bytes there.
fn moved(line: &[u8], column: usize) -> &[u8] {
    let blanks = line.iter().take_while(|byte| **byte == b' ').count();
    rest(line, blanks.min(column)).trim_ascii_end()
}

/// A declaration as it is written, in lines.
fn declaration(alloc: Global, of: &Outline<'_>, unit: &Unit) -> Result<Vec<u8>, AllocError> {
    let mut lines = Vec::new(alloc);
    let last = unit.end.saturating_sub(1);
    let (Some(first), Some(last)) = (of.pieces.get(unit.begin), of.pieces.get(last)) else {
        return Ok(lines);
    };
    let word = section_word(unit.sort);
    if let Some(word) = word {
        lines.extend_from_slice(word.as_bytes())?;
        lines.push(LINE_FEED)?;
    }
    let words = part(of.text, first.begin, last.end);
    for (number, line) in words.split(|byte| *byte == LINE_FEED).enumerate() {
        if word.is_some() {
            lines.extend_from_slice(INDENT)?;
        }
        lines.extend_from_slice(moved(line, if number == 0 { 0 } else { first.column }))?;
        lines.push(LINE_FEED)?;
    }
    Ok(lines)
}

/// Whether a comment is among these pieces.
fn has_comment(of: &Outline<'_>, from: usize, to: usize) -> bool {
    for number in from..to {
        if of.is_comment(number) {
            return true;
        }
    }
    false
}

impl<'a, 'b> Library<'a, 'b> {
    /// The module of this number.
    fn module(&self, number: usize) -> Option<&Outline<'b>> {
        self.outlines.get(number)
    }

    /// The anchor of an entry on its page.
    fn anchor_of(&self, entry: Entry) -> Result<Vec<u8>, AllocError> {
        let (Some(of), Some(heading)) = (self.module(entry.module), entry.heading) else {
            return Ok(Vec::new(self.alloc));
        };
        let mut anchor = small_letters(self.alloc, of.bytes_of(heading))?;
        if entry.twins > 0 {
            let twins = entry.twins;
            let end = format!(in self.alloc; "-{twins}")?;
            anchor.extend_from_slice(end.as_bytes())?;
        }
        Ok(anchor)
    }

    /// What leads to an entry.
    fn place_of(&self, entry: Entry) -> Result<Vec<u8>, AllocError> {
        let mut place = Vec::new(self.alloc);
        if let Some(of) = self.module(entry.module) {
            let file = file_of(self.alloc, self.kind, of.name)?;
            place.extend_from_slice(file.as_bytes())?;
        }
        let anchor = self.anchor_of(entry)?;
        if !anchor.is_empty() {
            place.push(b'#')?;
            place.extend_from_slice(&anchor)?;
        }
        Ok(place)
    }

    /// Writes the name of a module, which leads to its page.
    fn put_module(&self, sheet: &mut Sheet, number: usize) -> Result<(), AllocError> {
        let Some(of) = self.module(number) else {
            return Ok(());
        };
        let file = file_of(self.alloc, self.kind, of.name)?;
        sheet.put_link(of.name.as_bytes(), file.as_bytes());
        Ok(())
    }

    /// Writes which modules use the entry of this number, if any do.
    fn put_users(&self, sheet: &mut Sheet, number: Option<usize>) -> Result<(), AllocError> {
        let users = match number {
            Some(number) => self.users.users_of(number),
            None => &[],
        };
        if users.is_empty() {
            return Ok(());
        }
        sheet.begin_paragraph();
        for (at, user) in users.iter().enumerate() {
            sheet.put_plain(if at == 0 {
                b"Used by: ".as_slice()
            } else {
                b", ".as_slice()
            });
            self.put_module(sheet, *user)?;
        }
        sheet.end_paragraph();
        Ok(())
    }

    /// Writes a name of another module, which leads to its place if the library has it.
    fn put_reference(
        &self,
        sheet: &mut Sheet,
        of: &Outline<'_>,
        reference: Reference,
    ) -> Result<(), AllocError> {
        let module = of.bytes_of(reference.module);
        let name = of.bytes_of(reference.name);
        let words = key_of(self.alloc, module, name)?;
        let number = self.entries.number_of(self.alloc, module, name)?;
        match number.and_then(|it| self.entries.at(it)) {
            Some(entry) => sheet.put_link(&words, &self.place_of(entry)?),
            None => sheet.put_plain(&words),
        }
        Ok(())
    }

    /// Writes which names of other modules stand in a declaration, if any do.
    fn put_references(
        &self,
        sheet: &mut Sheet,
        of: &Outline<'_>,
        references: &[Reference],
    ) -> Result<(), AllocError> {
        if references.is_empty() {
            return Ok(());
        }
        sheet.begin_paragraph();
        for (at, reference) in references.iter().enumerate() {
            sheet.put_plain(if at == 0 {
                b"Uses: ".as_slice()
            } else {
                b", ".as_slice()
            });
            self.put_reference(sheet, of, *reference)?;
        }
        sheet.end_paragraph();
        Ok(())
    }

    /// Writes the comments among these pieces.
    fn put_comments(
        &self,
        sheet: &mut Sheet,
        of: &Outline<'_>,
        from: usize,
        to: usize,
    ) -> Result<(), AllocError> {
        for number in from..to {
            if of.is_comment(number) {
                write_comment(self.alloc, sheet, of.bytes_of(number))?;
            }
        }
        Ok(())
    }

    /// The entry of a name of a module, and its number.
    fn entry_of(
        &self,
        of: &Outline<'_>,
        name: usize,
    ) -> Result<Option<(usize, Entry)>, AllocError> {
        let module = of.name.as_bytes();
        let number = self
            .entries
            .number_of(self.alloc, module, of.bytes_of(name))?;
        let Some(number) = number else {
            return Ok(None);
        };
        Ok(self.entries.at(number).map(|entry| (number, entry)))
    }

    /// Writes the headings of the names of a declaration.
    fn put_headings(
        &self,
        sheet: &mut Sheet,
        of: &Outline<'_>,
        names: &[usize],
    ) -> Result<(), AllocError> {
        for name in names {
            if let Some((_, entry)) = self.entry_of(of, *name)? {
                sheet.put_heading(of.bytes_of(*name), &self.anchor_of(entry)?);
            }
        }
        Ok(())
    }

    /// Writes which modules use the names of a declaration.
    fn put_all_users(
        &self,
        sheet: &mut Sheet,
        of: &Outline<'_>,
        names: &[usize],
    ) -> Result<(), AllocError> {
        for name in names {
            if let Some((number, _)) = self.entry_of(of, *name)? {
                self.put_users(sheet, Some(number))?;
            }
        }
        Ok(())
    }

    /// Writes a declaration with all that belongs to it.
    fn put_export(
        &self,
        sheet: &mut Sheet,
        of: &Outline<'_>,
        imports: &Imports,
        unit: &Unit,
    ) -> Result<(), AllocError> {
        let names = own_names(self.alloc, &of.pieces, unit)?;
        self.put_headings(sheet, of, &names)?;
        sheet.put_lines("modula2", &declaration(self.alloc, of, unit)?);
        self.put_comments(sheet, of, unit.front, unit.begin)?;
        self.put_comments(sheet, of, unit.end, unit.behind)?;
        let references = references_in(self.alloc, of, imports, unit)?;
        self.put_references(sheet, of, &references)?;
        self.put_all_users(sheet, of, &names)
    }

    /// Writes the declarations of a module, and the comments that belong to none.
    fn put_exports(&self, sheet: &mut Sheet, of: &Outline<'_>) -> Result<(), AllocError> {
        let imports = Imports::of(self.alloc, of)?;
        let mut from = 0usize;
        let mut is_behind_export = false;
        for unit in &of.units {
            if is_behind_export && has_comment(of, from, unit.front) {
                sheet.put_rule();
            }
            self.put_comments(sheet, of, from, unit.front)?;
            if unit.sort.is_export() {
                self.put_export(sheet, of, &imports, unit)?;
                is_behind_export = true;
            }
            from = unit.behind;
        }
        Ok(())
    }

    /// Writes the comments of the heading of a module.
    fn put_head(&self, sheet: &mut Sheet, of: &Outline<'_>) -> Result<(), AllocError> {
        let Some(heading) = of.heading() else {
            return Ok(());
        };
        self.put_comments(sheet, of, heading.front, heading.begin)?;
        self.put_comments(sheet, of, heading.end, heading.behind)
    }

    /// Writes the names that a module declares, each of which leads to its heading.
    fn put_contents(&self, sheet: &mut Sheet, of: &Outline<'_>) -> Result<(), AllocError> {
        let mut is_first = true;
        for unit in &of.units {
            if unit.sort.is_export() {
                for name in &own_names(self.alloc, &of.pieces, unit)? {
                    self.put_content(sheet, of, *name, is_first)?;
                    is_first = false;
                }
            }
        }
        if is_first {
            return Ok(());
        }
        sheet.end_paragraph();
        Ok(())
    }

    /// Writes a name that a module declares.
    fn put_content(
        &self,
        sheet: &mut Sheet,
        of: &Outline<'_>,
        name: usize,
        is_first: bool,
    ) -> Result<(), AllocError> {
        let Some((_, entry)) = self.entry_of(of, name)? else {
            return Ok(());
        };
        if is_first {
            sheet.begin_paragraph();
            sheet.put_plain(b"Exports: ");
        } else {
            sheet.put_plain(b", ");
        }
        let mut place = Vec::from_slice(self.alloc, b"#")?;
        place.extend_from_slice(&self.anchor_of(entry)?)?;
        sheet.put_link(of.bytes_of(name), &place);
        Ok(())
    }

    /// The page of a module.
    fn module_page(&self, of: &Outline<'_>) -> Result<Page, AllocError> {
        let name = of.name;
        let title = format!(in self.alloc; "Module {name}")?;
        let mut sheet = Sheet::new(self.alloc, self.kind, title.as_bytes());
        self.put_head(&mut sheet, of)?;
        self.put_contents(&mut sheet, of)?;
        let itself = self.entries.number_of(self.alloc, of.name.as_bytes(), b"")?;
        self.put_users(&mut sheet, itself)?;
        self.put_exports(&mut sheet, of)?;
        let index = index_file(self.alloc, self.kind)?;
        sheet.begin_paragraph();
        sheet.put_link(b"All modules", index.as_bytes());
        sheet.end_paragraph();
        Ok(Page {
            file: file_of(self.alloc, self.kind, of.name)?,
            text: sheet.finish(self.alloc)?,
        })
    }

    /// The first sentence of a module's comment.
    fn sentence_of(&self, of: &Outline<'_>) -> Result<Vec<u8>, AllocError> {
        let Some(heading) = of.heading() else {
            return Ok(Vec::new(self.alloc));
        };
        let comment = if of.is_comment(heading.end) && heading.end < heading.behind {
            heading.end
        } else {
            heading.begin.saturating_sub(1)
        };
        if !of.is_comment(comment) {
            return Ok(Vec::new(self.alloc));
        }
        first_sentence(self.alloc, of.bytes_of(comment))
    }

    /// Writes the list of the modules.
    fn put_modules(&self, sheet: &mut Sheet) -> Result<(), AllocError> {
        sheet.begin_list();
        for (number, of) in self.outlines.iter().enumerate() {
            let sentence = self.sentence_of(of)?;
            sheet.begin_item();
            self.put_module(sheet, number)?;
            if !sentence.is_empty() {
                sheet.put_plain(b": ");
                sheet.put_prose(&sentence, false);
            }
            sheet.end_item();
        }
        sheet.end_list();
        Ok(())
    }

    /// The names that are exported, in the order of the alphabet.
    fn rows(&self) -> Result<Vec<Row>, AllocError> {
        let mut rows = Vec::new(self.alloc);
        for number in 0..self.entries.len() {
            if let Some(row) = self.row_of(number)? {
                rows.push(row)?;
            }
        }
        rows.sort_unstable();
        Ok(rows)
    }

    /// The row of an entry, if it is no module.
    fn row_of(&self, number: usize) -> Result<Option<Row>, AllocError> {
        let Some(entry) = self.entries.at(number) else {
            return Ok(None);
        };
        let (Some(of), Some(_)) = (self.module(entry.module), entry.heading) else {
            return Ok(None);
        };
        let name = of.bytes_of(entry.name);
        Ok(Some(Row {
            small: small_letters(self.alloc, name)?,
            name: Vec::from_slice(self.alloc, name)?,
            number,
        }))
    }

    /// Writes the list of the exports.
    fn put_rows(&self, sheet: &mut Sheet) -> Result<(), AllocError> {
        sheet.begin_list();
        for row in &self.rows()? {
            if let Some(entry) = self.entries.at(row.number) {
                sheet.begin_item();
                sheet.put_link(&row.name, &self.place_of(entry)?);
                sheet.put_plain(b" of ");
                self.put_module(sheet, entry.module)?;
                sheet.end_item();
            }
        }
        sheet.end_list();
        Ok(())
    }

    /// The page of the index.
    fn index_page(&self) -> Result<Page, AllocError> {
        let mut sheet = Sheet::new(self.alloc, self.kind, b"Modules");
        self.put_modules(&mut sheet)?;
        sheet.put_bare_heading("Exports");
        self.put_rows(&mut sheet)?;
        Ok(Page {
            file: index_file(self.alloc, self.kind)?,
            text: sheet.finish(self.alloc)?,
        })
    }
}

/// A name that is exported, and the number of its entry.
#[derive(PartialEq, Eq, PartialOrd, Ord, Drop)]
struct Row {
    small: Vec<u8>,
    name: Vec<u8>,
    number: usize,
}

/// The pages of a library, in the order of these modules, and its index behind them. The only error is that memory ran out.
pub fn write_pages(
    alloc: Global,
    outlines: &[Outline<'_>],
    kind: Kind,
) -> Result<Vec<Page>, AllocError> {
    let entries = Entries::of(alloc, outlines)?;
    let users = Users::of(alloc, &entries, outlines)?;
    let library = Library {
        alloc,
        kind,
        outlines,
        entries,
        users,
    };
    let mut pages = Vec::new(alloc);
    for of in outlines {
        pages.push(library.module_page(of)?)?;
    }
    pages.push(library.index_page()?)?;
    Ok(pages)
}
