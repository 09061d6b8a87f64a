//! Places of names.

use m2_tree::{Ident, Pos};

/// A number as one of 32 bits, or the greatest one.
pub fn narrow(number: usize) -> u32 {
    match u32::try_from(number) {
        Ok(narrow) => narrow,
        Err(_) => u32::MAX,
    }
}

/// A number of 32 bits as a wider one.
pub fn wide(number: u32) -> usize {
    number as usize
}

/// A name where it stands in a file.
#[derive(Clone, Copy, Debug, PartialEq, Eq, PartialOrd, Ord)]
pub struct Place {
    /// The number of the file, from 0.
    pub file: usize,
    /// The place of its first letter.
    pub pos: Pos,
    /// How many bytes the name has.
    pub length: usize,
}

impl Place {
    /// The place of a name in a file.
    pub fn of(file: usize, name: &Ident) -> Place {
        Place {
            file,
            pos: name.pos,
            length: name.name.as_bytes().len(),
        }
    }

    /// The place directly behind its last letter.
    pub fn end(&self) -> Pos {
        Pos {
            line: self.pos.line,
            col: self.pos.col.saturating_add(narrow(self.length)),
        }
    }

    /// Whether a place of a file lies in the name, or directly behind it.
    pub fn has(&self, file: usize, pos: Pos) -> bool {
        self.file == file && self.pos <= pos && pos <= self.end()
    }

    /// Whether a name stands here.
    pub fn is_at(&self, file: usize, pos: Pos) -> bool {
        self.file == file && self.pos == pos
    }
}

/// A stretch of a text.
#[derive(Clone, Copy, Debug, PartialEq, Eq)]
pub struct Range {
    /// The place of its first byte.
    pub begin: Pos,
    /// The place behind its last byte.
    pub end: Pos,
}

impl Range {
    /// Whether a place lies in it, or directly behind it.
    pub fn has(&self, pos: Pos) -> bool {
        self.begin <= pos && pos <= self.end
    }
}

/// What a name does where it stands.
#[derive(Clone, Copy, Debug, PartialEq, Eq, PartialOrd, Ord)]
pub enum Role {
    /// It is declared.
    Declaration,
    /// It is the name in the heading of an implementation, of a module or a procedure that a definition declares.
    Implementation,
    /// It closes a module or a procedure.
    Closing,
    /// It is imported.
    Import,
    /// It is used.
    Mention,
}

/// A name that stands for a declaration. Uses are ordered as they stand in the files.
#[derive(Clone, Copy, Debug, PartialEq, Eq, PartialOrd, Ord)]
pub struct Use {
    /// Where it stands.
    pub place: Place,
    /// The number of the declaration.
    pub declaration: usize,
    /// What it does there.
    pub role: Role,
}

/// The same in less room, and ordered alike.
#[derive(Clone, Copy, Debug, PartialEq, Eq, PartialOrd, Ord)]
pub struct Packed {
    file: u32,
    pos: Pos,
    length: u32,
    declaration: u32,
    role: Role,
}

impl Packed {
    /// A use in less room.
    pub fn of(it: Use) -> Packed {
        Packed {
            file: narrow(it.place.file),
            pos: it.place.pos,
            length: narrow(it.place.length),
            declaration: narrow(it.declaration),
            role: it.role,
        }
    }

    /// The number of the file.
    pub fn file(&self) -> usize {
        wide(self.file)
    }

    /// The place of the name's first letter.
    pub fn pos(&self) -> Pos {
        self.pos
    }

    /// The number of the declaration.
    pub fn declaration(&self) -> usize {
        wide(self.declaration)
    }

    /// The use.
    pub fn unpacked(&self) -> Use {
        Use {
            place: Place {
                file: self.file(),
                pos: self.pos,
                length: wide(self.length),
            },
            declaration: self.declaration(),
            role: self.role,
        }
    }
}

/// The place that is asked about.
#[derive(Clone, Copy, Debug, PartialEq, Eq)]
pub struct Focus {
    /// The number of the file.
    pub file: usize,
    pub pos: Pos,
}
