//! What is refused of a file one after another, each with the mends of those before in place.

use crate::bench::{copy_files, refusals_of};
use crate::find::{Found, find_mend, number_of};
use crate::standing::Reach;
use m2_tree::{Pos, Refusal};
use m2c::{BuildFault, SourceFile};
use std::alloc::{AllocError, Global};
use std::thread::Threads;
use text_tokens::{offset_of, part};

/// The most refusals of one file that are followed.
const MOST_STEPS: usize = 10;

/// A refusal of a file, with the mend that was found for it.
#[derive(Drop)]
pub struct Step {
    /// What is refused, at its place in the file as it is.
    pub refusal: Refusal,
    /// The mend, as an edit of the text with the mends before it.
    pub found: Option<Found>,
    /// Where the edit begins and ends in the file as it is.
    pub begin: Pos,
    pub end: Pos,
}

/// The refusals of a file, and its text with all mends.
#[derive(Drop)]
pub struct Chain {
    pub steps: Vec<Step>,
    pub text: Vec<u8>,
    /// Whether nothing is refused of the program with this text.
    pub is_accepted: bool,
}

/// An edit that was made: where, how many bytes stood there, and how many stand there now.
#[derive(Clone, Copy)]
struct Shift {
    begin: usize,
    before: usize,
    behind: usize,
}

/// The place in front of which so many bytes of a text stand.
fn place_of(text: &[u8], offset: usize) -> Pos {
    let mut pos = Pos { line: 1, col: 1 };
    for byte in part(text, 0, offset) {
        if *byte == b'\n' {
            pos.line = pos.line.saturating_add(1);
            pos.col = 1;
        } else {
            pos.col = pos.col.saturating_add(1);
        }
    }
    pos
}

/// Where a byte stood before an edit.
fn unshift(shift: Shift, offset: usize) -> usize {
    if offset <= shift.begin {
        return offset;
    }
    let inside = offset.saturating_sub(shift.begin);
    if inside < shift.behind {
        return shift.begin;
    }
    let behind = inside.saturating_sub(shift.behind);
    shift
        .begin
        .saturating_add(shift.before)
        .saturating_add(behind)
}

/// Where a byte of a text with edits stood in the file.
fn first_place(file: &[u8], shifts: &[Shift], offset: usize) -> Pos {
    let mut offset = offset;
    for shift in shifts.iter().rev() {
        offset = unshift(*shift, offset);
    }
    place_of(file, offset)
}

/// The first refusal of a file among others.
fn first_in(refusals: Vec<Refusal>, name: &str) -> Option<Refusal> {
    refusals.into_iter().find(|it| it.file.as_str() == name)
}

/// The files of a program in which one is mended step by step.
#[derive(Drop)]
struct Walk<'a> {
    files: Vec<SourceFile>,
    number: usize,
    file: &'a [u8],
    shifts: Vec<Shift>,
    steps: Vec<Step>,
    is_accepted: bool,
}

impl Walk<'_> {
    /// The text as it is mended so far.
    fn text(&self) -> &[u8] {
        self.files
            .get(self.number)
            .map_or(b"".as_slice(), |it| it.bytes.as_slice())
    }

    /// Adds a refusal with what was found for it.
    fn add(
        &mut self,
        alloc: Global,
        refusal: Refusal,
        found: Option<Found>,
    ) -> Result<(), AllocError> {
        let offset = offset_of(self.text(), refusal.pos);
        let pos = first_place(self.file, &self.shifts, offset);
        let (begin, end) = match &found {
            Some(it) => (it.mend.begin, it.mend.end),
            None => (offset, offset),
        };
        let begin = first_place(self.file, &self.shifts, begin);
        let end = first_place(self.file, &self.shifts, end);
        if let Some(it) = &found {
            self.shifts.push(Shift {
                begin: it.mend.begin,
                before: it.mend.end.saturating_sub(it.mend.begin),
                behind: it.mend.text.len(),
            })?;
            let text = Vec::from_slice(alloc, &it.text)?;
            if let Some(file) = self.files.get_mut(self.number) {
                file.bytes = text;
            }
            self.is_accepted = it.reach == Reach::Program;
        }
        let Refusal { file, number, .. } = refusal;
        let refusal = Refusal { file, pos, number };
        self.steps.push(Step {
            refusal,
            found,
            begin,
            end,
        })?;
        Ok(())
    }
}

/// Whether a mend leads to a next refusal in the file.
fn goes_on(found: &Option<Found>) -> bool {
    match found {
        Some(it) => matches!(it.reach, Reach::Further(_)),
        None => false,
    }
}

/// What is refused of the file next.
fn next_refusal<R: AllocGlobal + Threads + Sync>(
    rt: &R,
    walk: &Walk<'_>,
    library: &[SourceFile],
    name: &str,
    pages: u32,
) -> Result<Option<Refusal>, BuildFault> {
    let mut all = Vec::new(rt.alloc());
    copy_files(rt.alloc(), &walk.files, &mut all)?;
    copy_files(rt.alloc(), library, &mut all)?;
    match refusals_of(rt, &all, pages)? {
        Some(refusals) => Ok(first_in(refusals, name)),
        None => Ok(None),
    }
}

/// A copy of a refusal.
fn copy_of(alloc: Global, refusal: &Refusal) -> Result<Refusal, AllocError> {
    Ok(Refusal {
        file: String::from_str(alloc, refusal.file.as_str())?,
        pos: refusal.pos,
        number: refusal.number,
    })
}

/// What is refused of the file of this refusal: it, and then what is refused with its mend in place, and so on, at
/// most `most` and at most 10. `None` if the file is not there. An error if memory ran out.
pub fn mend_file<R: AllocGlobal + Threads + Sync>(
    rt: &R,
    files: &[SourceFile],
    library: &[SourceFile],
    refusal: &Refusal,
    pages: u32,
    most: usize,
) -> Result<Option<Chain>, BuildFault> {
    let alloc = rt.alloc();
    let name = refusal.file.as_str();
    let Some(number) = number_of(files, name) else {
        return Ok(None);
    };
    let mut copies = Vec::new(alloc);
    copy_files(alloc, files, &mut copies)?;
    let mut walk = Walk {
        files: copies,
        number,
        file: files
            .get(number)
            .map_or(b"".as_slice(), |it| it.bytes.as_slice()),
        shifts: Vec::new(alloc),
        steps: Vec::new(alloc),
        is_accepted: false,
    };
    let mut next = Some(copy_of(alloc, refusal)?);
    for _ in 0..most.min(MOST_STEPS) {
        let Some(refusal) = next else {
            break;
        };
        let found = find_mend(rt, &walk.files, library, &refusal, pages)?;
        let is_last = !goes_on(&found);
        walk.add(alloc, refusal, found)?;
        next = if is_last {
            None
        } else {
            next_refusal(rt, &walk, library, name, pages)?
        };
    }
    let text = Vec::from_slice(alloc, walk.text())?;
    Ok(Some(Chain {
        steps: walk.steps,
        text,
        is_accepted: walk.is_accepted,
    }))
}
