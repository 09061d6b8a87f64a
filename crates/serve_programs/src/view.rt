//! What the names of programs stand for.

use crate::program::Program;
use m2_tree::Pos;
use m2c::SourceFile;
use serve_names::{Focus, Index, Outline, Parsed, Place, Range, read};
use serve_texts::{Encoding, Position, Shift, Text, Texts};
use std::alloc::{AllocError, Global};

/// How many bytes of a range have to be there for its begin to be known, and for its end.
const FIRST_BYTE: usize = 1;

const NO_BYTE: usize = 0;

/// A file of a view.
pub struct FileView {
    /// Its path.
    pub path: String,
    /// The text as it stands.
    pub now: Text,
    /// The last text that had a tree, if the one that stands has none.
    pub sound: Option<Text>,
    /// From the known text to that which stands.
    pub shift: Shift,
    /// Whether the known text has a tree.
    pub has_tree: bool,
    /// Whether the file was made, so that it is never shown.
    pub is_made: bool,
}

// Written by hand, so that proofs above take a drop as one call.
impl Drop for FileView {
    fn drop(self) {
        let FileView {
            path,
            now,
            sound,
            shift: _shift,
            has_tree: _has_tree,
            is_made: _is_made,
        } = self;
        drop(path);
        drop(now);
        drop(sound);
    }
}

/// Bytes of the text of a file as it stands.
#[derive(Clone, Copy, PartialEq, Eq, PartialOrd, Ord)]
pub struct Mark {
    /// The number of the file.
    pub file: usize,
    /// The first byte.
    pub begin: usize,
    /// The byte behind the last.
    pub end: usize,
}

/// The files of one or more programs, and what their names stand for.
pub struct View {
    pub files: Vec<FileView>,
    pub index: Index,
}

// Written by hand, so that proofs above take a drop as one call.
impl Drop for View {
    fn drop(self) {
        let View { files, index } = self;
        drop(files);
        drop(index);
    }
}

/// The tree of an open text as it stands, which was read when the text changed.
#[derive(Drop)]
pub struct Fresh {
    /// The path of the text.
    pub path: String,
    pub parsed: Parsed,
}

/// A place of a text as it stands.
#[derive(Clone, Copy)]
pub struct Spot<'a> {
    /// The path of the text.
    pub path: &'a str,
    pub position: Position,
    pub encoding: Encoding,
}

/// The text with a tree that an editor had before this one.
fn sound_before(alloc: Global, texts: &Texts, path: &str) -> Result<Option<Text>, AllocError> {
    match texts.get(path).and_then(|open| open.sound.as_ref()) {
        Some(sound) => {
            let bytes = Vec::from_slice(alloc, sound.bytes())?;
            Ok(Some(Text::of(alloc, bytes)?))
        }
        None => Ok(None),
    }
}

/// The tree of a known text. That of the open text of this path was read already, if it is fresh.
fn outline_of(
    alloc: Global,
    path: &str,
    known: &[u8],
    fresh: &mut Option<Fresh>,
) -> Result<Option<Outline>, AllocError> {
    let is_read = fresh.as_ref().is_some_and(|it| it.path.as_str() == path);
    let parsed = if is_read {
        fresh.take().map(|it| it.parsed)
    } else {
        read(alloc, known)?
    };
    match parsed {
        Some(parsed) => Ok(Some(parsed.outline(alloc)?)),
        None => Ok(None),
    }
}

/// A file whose names are those of the text that stands, or of the one before that had a tree, and the tree.
fn file_view(
    alloc: Global,
    texts: &Texts,
    file: &SourceFile,
    is_made: bool,
    fresh: &mut Option<Fresh>,
) -> Result<(FileView, Option<Outline>), AllocError> {
    let path = String::from_str(alloc, file.name.as_str())?;
    let now = Text::of(alloc, Vec::from_slice(alloc, &file.bytes)?)?;
    let sound = sound_before(alloc, texts, file.name.as_str())?;
    let known = sound.as_ref().map_or(now.bytes(), |it| it.bytes());
    let shift = Shift::between(known, now.bytes());
    let outline = outline_of(alloc, file.name.as_str(), known, fresh)?;
    let view = FileView {
        path,
        now,
        sound,
        shift,
        has_tree: outline.is_some(),
        is_made,
    };
    Ok((view, outline))
}

/// Files in the making, each with its tree.
#[derive(Drop)]
struct Files {
    views: Vec<FileView>,
    trees: Vec<Option<Outline>>,
}

impl Files {
    /// Whether the file of this path is there.
    fn has(&self, path: &str) -> bool {
        number_of(&self.views, path).is_some()
    }

    /// Adds the files of a program that are not there yet.
    fn add(
        &mut self,
        alloc: Global,
        texts: &Texts,
        program: &Program,
        fresh: &mut Option<Fresh>,
    ) -> Result<(), AllocError> {
        for (at, file) in program.files.iter().enumerate() {
            if !self.has(file.name.as_str()) {
                let is_made = program.is_made && at == 0;
                let (view, outline) = file_view(alloc, texts, file, is_made, fresh)?;
                self.views.push(view)?;
                self.trees.push(outline)?;
            }
        }
        Ok(())
    }

    /// The place that is asked about, in the known text of its file.
    fn focus(&self, spot: Spot<'_>) -> Option<Focus> {
        let file = number_of(&self.views, spot.path)?;
        let view = self.views.get(file)?;
        let offset = view.now.offset_of(spot.position, spot.encoding);
        Some(Focus {
            file,
            pos: view.known_pos(offset),
        })
    }

    /// What their names stand for, as far as is told for a place. The trees are let go.
    fn view(self, alloc: Global, spot: Option<Spot<'_>>) -> Result<View, AllocError> {
        let focus = spot.and_then(|it| self.focus(it));
        let Files { views, trees } = self;
        let index = Index::of_outlines(alloc, trees, focus)?;
        Ok(View {
            files: views,
            index,
        })
    }
}

/// The files of these programs, each once, and what their names stand for. Their trees are let go. The only error is want of memory.
pub fn view_of(alloc: Global, texts: &Texts, programs: &[Program]) -> Result<View, AllocError> {
    view_for(alloc, texts, programs, None, None)
}

/// The same, where a tree may be read already. If a place is named, only the names that are known there are looked at, and those in the
/// procedures around it.
pub fn view_for(
    alloc: Global,
    texts: &Texts,
    programs: &[Program],
    fresh: Option<Fresh>,
    spot: Option<Spot<'_>>,
) -> Result<View, AllocError> {
    let mut fresh = fresh;
    let mut files = Files {
        views: Vec::new(alloc),
        trees: Vec::new(alloc),
    };
    for program in programs {
        files.add(alloc, texts, program, &mut fresh)?;
    }
    files.view(alloc, spot)
}

/// The number of the file of this path.
fn number_of(files: &[FileView], path: &str) -> Option<usize> {
    files.iter().position(|it| it.path.as_str() == path)
}

impl FileView {
    /// The text whose names are known: the last that had a tree.
    pub fn known(&self) -> &Text {
        match &self.sound {
            Some(sound) => sound,
            None => &self.now,
        }
    }

    /// The place in the known text of a byte of the text that stands.
    pub fn known_pos(&self, offset: usize) -> Pos {
        self.known().pos_of_offset(self.shift.to_old(offset))
    }

    /// Where so many bytes from a place of the known text begin in the text that stands, unless one of them was changed.
    pub fn now_offset(&self, pos: Pos, length: usize) -> Option<usize> {
        self.shift.to_new(self.known().offset_of_pos(pos), length)
    }
}

impl View {
    /// The number of the file of this path.
    pub fn file_number(&self, path: &str) -> Option<usize> {
        number_of(&self.files, path)
    }

    /// The file that is shown under a number.
    fn shown_file(&self, number: usize) -> Option<&FileView> {
        self.files.get(number).filter(|it| !it.is_made)
    }

    /// Where a name stands now, unless it was changed.
    pub fn mark_of(&self, place: Place) -> Option<Mark> {
        let begin = self
            .shown_file(place.file)?
            .now_offset(place.pos, place.length)?;
        Some(Mark {
            file: place.file,
            begin,
            end: begin.saturating_add(place.length),
        })
    }

    /// Where a range of the file of this number stands now, unless its first byte was changed, or its end.
    pub fn mark_of_range(&self, number: usize, range: Range) -> Option<Mark> {
        let file = self.shown_file(number)?;
        Some(Mark {
            file: number,
            begin: file.now_offset(range.begin, FIRST_BYTE)?,
            end: file.now_offset(range.end, NO_BYTE)?,
        })
    }
}
