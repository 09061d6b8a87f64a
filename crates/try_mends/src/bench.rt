//! Texts that are compiled in memory, one after another, in the place of a file of a program.

use crate::standing::Standing;
use m2_tree::Refusal;
use m2c::{BuildFault, Open, Options, Outcome, SourceFile, build};
use propose_mends::Mend;
use std::alloc::{AllocError, Global};
use std::thread::Threads;
use text_tokens::{part, rest};

/// The work that the trials of one place may make: bytes that are read, and `CHECKED` times the bytes that are
/// compiled.
pub const MOST_WORK: usize = 6291456;

/// How much more work it is to check and compile a byte than to read it.
const CHECKED: usize = 8;

/// The last rule that is looked at before modules are checked.
const LAST_OF_READING: u32 = 25;

/// The rule of an import of a module that is not there.
const NO_DEFINITION: u32 = 20;

/// The files of a program, of which one is changed, and those that it may import.
#[derive(Drop)]
pub struct Bench<'a> {
    pub files: Vec<SourceFile>,
    /// The number of the file that is changed.
    pub number: usize,
    pub library: &'a [SourceFile],
    pub pages: u32,
    /// Whether the texts have been read as they stand, so that each trial checks them.
    pub is_checked: bool,
    /// The work that may still be made.
    pub left: usize,
}

/// Copies files behind others.
pub fn copy_files(
    alloc: Global,
    files: &[SourceFile],
    all: &mut Vec<SourceFile>,
) -> Result<(), AllocError> {
    for file in files {
        all.push(SourceFile {
            name: String::from_str(alloc, file.name.as_str())?,
            bytes: Vec::from_slice(alloc, &file.bytes)?,
        })?;
    }
    Ok(())
}

/// How many bytes files have.
fn bytes_of(files: &[SourceFile]) -> usize {
    let mut sum: usize = 0;
    for file in files {
        sum = sum.saturating_add(file.bytes.len());
    }
    sum
}

/// A text with an edit.
pub fn mended(alloc: Global, text: &[u8], mend: &Mend) -> Result<Vec<u8>, AllocError> {
    let mut all = Vec::new(alloc);
    all.extend_from_slice(part(text, 0, mend.begin))?;
    all.extend_from_slice(&mend.text)?;
    all.extend_from_slice(rest(text, mend.end))?;
    Ok(all)
}

/// What is refused of files.
pub fn refusals_of<R: AllocGlobal + Threads + Sync>(
    rt: &R,
    files: &[SourceFile],
    pages: u32,
) -> Result<Option<Vec<Refusal>>, BuildFault> {
    let options = Options { workers: 1, pages };
    match build(rt, rt.alloc(), files, options, &Open)? {
        Outcome::Built { .. } => Ok(None),
        Outcome::Refused(refusals) => Ok(Some(refusals)),
    }
}

impl Bench<'_> {
    /// The name of the file that is changed.
    fn name(&self) -> &str {
        self.files
            .get(self.number)
            .map_or("", |it| it.name.as_str())
    }

    /// Puts a text in the place of the file.
    pub fn set_text(&mut self, text: Vec<u8>) {
        if let Some(file) = self.files.get_mut(self.number) {
            file.bytes = text;
        }
    }

    /// Counts the work of a trial.
    fn spend(&mut self, bytes: usize, is_read: bool) {
        let work = if is_read {
            bytes
        } else {
            bytes.saturating_mul(CHECKED)
        };
        self.left = self.left.saturating_sub(work);
    }

    /// How far the file comes with all that may be imported.
    fn standing_with_library<R: AllocGlobal + Threads + Sync>(
        &mut self,
        rt: &R,
    ) -> Result<Standing, BuildFault> {
        let mut all = Vec::new(rt.alloc());
        copy_files(rt.alloc(), &self.files, &mut all)?;
        copy_files(rt.alloc(), self.library, &mut all)?;
        self.spend(bytes_of(&all), false);
        match refusals_of(rt, &all, self.pages)? {
            Some(refusals) => Ok(Standing::of_file(&refusals, self.name())),
            None => Ok(Standing::accepted()),
        }
    }

    /// How far the file comes, as it stands. Nothing if too much was compiled already.
    pub fn standing<R: AllocGlobal + Threads + Sync>(
        &mut self,
        rt: &R,
    ) -> Result<Option<Standing>, BuildFault> {
        let bytes = bytes_of(&self.files);
        let least = if self.is_checked {
            bytes.saturating_mul(CHECKED)
        } else {
            bytes
        };
        if least > self.left {
            return Ok(None);
        }
        let Some(refusals) = refusals_of(rt, &self.files, self.pages)? else {
            self.left = 0;
            return Ok(Some(Standing::accepted()));
        };
        let is_read = refusals.iter().any(|it| it.number <= LAST_OF_READING);
        self.spend(bytes, is_read);
        let is_lacking = refusals.iter().any(|it| it.number == NO_DEFINITION);
        if is_lacking && !self.library.is_empty() {
            return Ok(Some(self.standing_with_library(rt)?));
        }
        Ok(Some(Standing::of_file(&refusals, self.name())))
    }
}
