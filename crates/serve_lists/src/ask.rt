//! What is asked about.

use crate::values::put_range;
use propose_mends::Source;
use serve_names::{Declaration, Place, Use};
use serve_programs::{FileView, Mark, Program, View, file_of, source_of};
use serve_texts::{Encoding, Texts, uri_of};
use std::alloc::{AllocError, Global};
use write_json::Json;

/// A byte of a file of a view.
#[derive(Clone, Copy)]
pub struct Ask<'a> {
    pub alloc: Global,
    /// The programs.
    pub view: &'a View,
    /// Those of the programs of which nothing is refused.
    pub built: &'a [Program],
    /// The open texts, whose names the editor chose.
    pub texts: &'a Texts,
    /// The number of the file.
    pub file: usize,
    /// How many bytes of its text, as it stands, are in front.
    pub offset: usize,
    /// The units in which the editor counts.
    pub encoding: Encoding,
}

impl<'a> Ask<'a> {
    /// The file.
    pub fn here(&self) -> Option<&'a FileView> {
        self.view.files.get(self.file)
    }

    /// The bytes of the file's text as it stands.
    pub fn bytes(&self) -> &'a [u8] {
        match self.here() {
            Some(file) => file.now.bytes(),
            None => b"",
        }
    }

    /// The bytes of the known text of a file.
    pub fn known_bytes(&self, file: usize) -> &'a [u8] {
        match self.view.files.get(file) {
            Some(it) => it.known().bytes(),
            None => b"",
        }
    }

    /// The name at the place, with where it stands now.
    pub fn name_here(&self) -> Option<(Use, Mark)> {
        let pos = self.here()?.known_pos(self.offset);
        let found = self.view.index.use_at(self.file, pos)?;
        let mark = self.view.mark_of(found.place)?;
        if mark.begin <= self.offset && self.offset <= mark.end {
            Some((found, mark))
        } else {
            None
        }
    }

    /// The declaration of the name at the place, and its number.
    pub fn declaration_here(&self) -> Option<(usize, &'a Declaration)> {
        let (found, _mark) = self.name_here()?;
        let declaration = self.view.index.declaration(found.declaration)?;
        Some((found.declaration, declaration))
    }

    /// Writes the range of a mark, or null if its file is not known.
    pub fn put_range(&self, mark: Mark, json: &mut Json) {
        match self.view.files.get(mark.file) {
            Some(file) => put_range(&file.now, self.encoding, mark.begin, mark.end, json),
            None => json.null(),
        }
    }

    /// The name of a file for the editor.
    pub fn uri_of(&self, file: usize) -> Result<String, AllocError> {
        let path = self.view.files.get(file).map_or("", |it| it.path.as_str());
        match self.texts.get(path) {
            Some(open) => String::from_str(self.alloc, open.uri.as_str()),
            None => uri_of(self.alloc, path),
        }
    }

    /// Writes the file and the range of a mark.
    pub fn put_location(&self, mark: Mark, json: &mut Json) {
        json.begin_object();
        json.name("range");
        self.put_range(mark, json);
        json.name("uri");
        json.words_made(self.uri_of(mark.file));
        json.end_object();
    }

    /// The tokens of the file's text as it stands with their places, or of one that does not divide those in front of where it does not.
    pub fn source(&self) -> Result<Source<'a>, AllocError> {
        source_of(self.alloc, self.bytes())
    }

    /// The first of the built programs that has the file of this path.
    pub fn built_with(&self, path: &str) -> Option<&'a Program> {
        self.built
            .iter()
            .find(|it| file_of(&it.files, path).is_some())
    }

    /// Writes the file and the range of a name, or null if it stands nowhere now.
    pub fn put_location_at(&self, place: Place, json: &mut Json) {
        match self.view.mark_of(place) {
            Some(mark) => self.put_location(mark, json),
            None => json.null(),
        }
    }
}
