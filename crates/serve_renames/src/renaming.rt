//! A thing gets another name.

use crate::copies::program_with;
use m2_tree::Refusal;
use serve_lists::{Ask, Edit, put_edit};
use serve_names::Index;
use serve_programs::{FileView, Mark, Program, Setting, View, file_of, refusals_of, view_of};
use std::alloc::AllocError;
use std::slice;
use std::thread::Threads;
use write_json::Json;

/// A thing that is to get another name.
#[derive(Clone, Copy)]
pub struct Renaming<'a> {
    /// A place where it is named.
    pub ask: Ask<'a>,
    /// The programs in which it may stand.
    pub programs: &'a [Program],
    pub setting: &'a Setting,
    /// The new name.
    pub new: &'a [u8],
}

/// Whether a rule is broken in a file that was not broken there before.
fn is_new(before: &[Refusal], refusal: &Refusal) -> bool {
    before.iter().all(|it| {
        it.number != refusal.number || it.file.as_str() != refusal.file.as_str()
    })
}

/// Whether all names stand for the same things as before.
fn are_alike(before: &Index, after: &Index) -> bool {
    before.unresolved().len() == after.unresolved().len()
        && before.uses().len() == after.uses().len()
        && before
            .uses()
            .iter()
            .zip(after.uses().iter())
            .all(|pair| pair.0.declaration() == pair.1.declaration())
}

/// Whether the text of a file has a tree as it stands.
fn is_sound(file: &FileView) -> bool {
    file.has_tree && file.sound.is_none()
}

/// Whether the file of this number was made.
fn is_made(view: &View, number: usize) -> bool {
    view.files.get(number).is_some_and(|it| it.is_made)
}

/// The places of the thing at a place, in order, or nothing if one is not known.
fn marks_of(ask: &Ask<'_>) -> Result<Option<Vec<Mark>>, AllocError> {
    let Some((number, _declaration)) = ask.declaration_here() else {
        return Ok(None);
    };
    let mut marks = Vec::new(ask.alloc);
    for found in &ask.view.index.uses_of(ask.alloc, number)? {
        match ask.view.mark_of(found.place) {
            Some(mark) => marks.push(mark)?,
            None if is_made(ask.view, found.place.file) => {}
            None => return Ok(None),
        }
    }
    marks.sort()?;
    Ok(Some(marks))
}

/// Whether all files of a program have trees as they stand.
fn is_whole(view: &View, program: &Program) -> bool {
    for file in &program.files {
        let found = match view.file_number(file.name.as_str()) {
            Some(number) => view.files.get(number),
            None => None,
        };
        if !found.is_some_and(is_sound) {
            return false;
        }
    }
    true
}

/// Whether a program has the file of a mark.
fn has_file(view: &View, program: &Program, mark: &Mark) -> bool {
    match view.files.get(mark.file) {
        Some(file) => file_of(&program.files, file.path.as_str()).is_some(),
        None => false,
    }
}

/// Whether a name of a program has one of these places.
fn is_concerned(view: &View, program: &Program, marks: &[Mark]) -> bool {
    marks.iter().any(|mark| has_file(view, program, mark))
}

/// Whether a path begins with that of a folder.
fn is_below(path: &str, folder: &str) -> bool {
    match path.strip_prefix(folder) {
        Some(rest) => folder.ends_with('/') || rest.starts_with('/'),
        None => false,
    }
}

impl Renaming<'_> {
    /// Whether the file of this path may be edited: not one of a library, unless it is open.
    fn is_editable(&self, path: &str) -> bool {
        self.ask.texts.get(path).is_some()
            || !self
                .setting
                .libraries
                .iter()
                .any(|it| is_below(path, it.as_str()))
    }

    /// Whether each file with one of these places may be edited.
    fn are_editable(&self, marks: &[Mark]) -> bool {
        for mark in marks {
            let file = self.ask.view.files.get(mark.file);
            if !self.is_editable(file.map_or("", |it| it.path.as_str())) {
                return false;
            }
        }
        true
    }

    /// Why a thing with these places cannot be renamed, whatever its new name, if it cannot.
    fn hindrance(&self, marks: &[Mark]) -> Option<&'static str> {
        let view = self.ask.view;
        for program in self.programs {
            if is_concerned(view, program, marks) && !is_whole(view, program) {
                return Some("a text of the program breaks the grammar, so its names are not known");
            }
        }
        if self.are_editable(marks) {
            None
        } else {
            Some("this name is declared in a library that is not open")
        }
    }

    /// Whether a program breaks no rule with the new name that it did not break before.
    fn is_kept<R: AllocGlobal + Threads + Sync>(
        &self,
        rt: &R,
        before: &Program,
        after: &Program,
    ) -> Result<bool, AllocError> {
        let broken = refusals_of(rt, self.setting, &after.files)?;
        if broken.is_empty() {
            return Ok(true);
        }
        let known = refusals_of(rt, self.setting, &before.files)?;
        Ok(broken.iter().all(|it| !is_new(&known, it)))
    }

    /// Whether all names of a program stand for the same things with the new name.
    fn is_alike(&self, before: &Program, after: &Program) -> Result<bool, AllocError> {
        let (alloc, texts) = (self.ask.alloc, self.ask.texts);
        let before = view_of(alloc, texts, slice::from_ref(before))?;
        let after = view_of(alloc, texts, slice::from_ref(after))?;
        Ok(are_alike(&before.index, &after.index))
    }

    /// Why this program cannot have the new name at these places, if it cannot.
    fn clash_in<R: AllocGlobal + Threads + Sync>(
        &self,
        rt: &R,
        program: &Program,
        marks: &[Mark],
    ) -> Result<Option<&'static str>, AllocError> {
        let after = program_with(self.ask.alloc, self.ask.view, program, marks, self.new)?;
        if !self.is_kept(rt, program, &after)? {
            Ok(Some("the program would be refused with this name"))
        } else if !self.is_alike(program, &after)? {
            Ok(Some("this name would stand for something else where it is used"))
        } else {
            Ok(None)
        }
    }

    /// Why the thing with these places cannot have the new name, if it cannot.
    fn clash<R: AllocGlobal + Threads + Sync>(
        &self,
        rt: &R,
        marks: &[Mark],
    ) -> Result<Option<&'static str>, AllocError> {
        for program in self.programs {
            if is_concerned(self.ask.view, program, marks) {
                let clash = self.clash_in(rt, program, marks)?;
                if clash.is_some() {
                    return Ok(clash);
                }
            }
        }
        Ok(None)
    }

    /// Why the thing with these places does not get the new name, if it does not.
    fn fault<R: AllocGlobal + Threads + Sync>(
        &self,
        rt: &R,
        marks: &[Mark],
    ) -> Result<Option<&'static str>, AllocError> {
        match self.hindrance(marks) {
            Some(words) => Ok(Some(words)),
            None => self.clash(rt, marks),
        }
    }

    /// Writes the edits of the file of this number.
    fn put_file_edits(&self, number: usize, file: &FileView, marks: &[Mark], json: &mut Json) {
        json.begin_list();
        for mark in marks {
            if mark.file == number {
                let edit = Edit {
                    begin: mark.begin,
                    end: mark.end,
                    new: self.new,
                };
                put_edit(&file.now, self.ask.encoding, edit, json);
            }
        }
        json.end_list();
    }

    /// Writes the edits of all files.
    fn put_edits(&self, marks: &[Mark], json: &mut Json) -> Result<(), AllocError> {
        json.begin_object();
        json.name("changes");
        json.begin_object();
        for (number, file) in self.ask.view.files.iter().enumerate() {
            if marks.iter().any(|it| it.file == number) {
                let uri = self.ask.uri_of(number)?;
                json.name(uri.as_str());
                self.put_file_edits(number, file, marks, json);
            }
        }
        json.end_object();
        json.end_object();
        Ok(())
    }

    /// Writes the edits that give the thing its new name, or answers why there are none. The only error is want of memory.
    pub fn put<R: AllocGlobal + Threads + Sync>(
        &self,
        rt: &R,
        json: &mut Json,
    ) -> Result<Option<&'static str>, AllocError> {
        let Some(marks) = marks_of(&self.ask)? else {
            return Ok(Some("no name that is declared in the program stands here"));
        };
        let fault = self.fault(rt, &marks)?;
        if fault.is_none() {
            self.put_edits(&marks, json)?;
        }
        Ok(fault)
    }
}
