//! What stands at a refused place, tried: a statement that only some types pass is put in front.

use m2_tree::Refusal;
use m2c::{BuildFault, Open, Options, Outcome, SourceFile, build};
use std::alloc::{AllocError, Global};
use std::thread::Threads;
use text_places::Spots;
use text_tokens::{offset_of, part, rest};

/// The name of the procedure that is declared for a trial. A program that has it is not tried with procedures.
pub const TAKER: &str = "TakesWhatIsTried";

/// The name of the variable that is declared beside it.
const INDEX: &str = "IndexOfWhatIsTried";

/// A test that what is tried passes or not.
#[derive(Clone, Copy)]
pub enum Test<'a> {
    /// Its value is compared so.
    Compared(&'a str),
    /// A formal of this type takes it by value.
    Taken(&'a str),
    /// A VAR formal of this type takes it.
    Changed(&'a str),
    /// A VAR formal of this type takes what stands behind it at an index.
    Elements(&'a str),
    /// It is assigned to itself.
    Assigned,
}

/// A text with a statement put into it.
#[derive(Drop)]
struct Changed {
    text: Vec<u8>,
    /// The byte behind the statement.
    end: usize,
}

/// A refused place at which something is tried.
#[derive(Clone, Copy)]
pub struct Trial<'a> {
    /// The files of the program.
    pub files: &'a [SourceFile],
    /// The workers and the pages of a build.
    pub options: Options,
    /// The name of the file of the place, and its text.
    pub name: &'a str,
    pub text: &'a [u8],
    /// Where the text may be changed.
    pub spots: Spots,
}

/// What has to be declared for a test.
fn declarations(alloc: Global, test: Test<'_>) -> Result<String, AllocError> {
    match test {
        Test::Compared(_) | Test::Assigned => Ok(String::new(alloc)),
        Test::Taken(of) => format!(in alloc; "PROCEDURE {TAKER}(t: {of}); BEGIN END {TAKER}; "),
        Test::Changed(of) => {
            format!(in alloc; "PROCEDURE {TAKER}(VAR t: {of}); BEGIN END {TAKER}; ")
        }
        Test::Elements(of) => format!(in alloc;
            "VAR {INDEX}: CARDINAL; PROCEDURE {TAKER}(VAR t: {of}); BEGIN END {TAKER}; "
        ),
    }
}

/// Puts texts at the end, one behind another.
fn put_all(text: &mut Vec<u8>, parts: &[&[u8]]) -> Result<(), AllocError> {
    for part in parts {
        text.extend_from_slice(part)?;
    }
    Ok(())
}

/// Puts the statement of a test at the end.
fn put_statement(text: &mut Vec<u8>, side: &[u8], test: Test<'_>) -> Result<(), AllocError> {
    match test {
        Test::Compared(so) => put_all(text, &[b"IF (", side, b") ", so.as_bytes(), b" THEN END "]),
        Test::Taken(_) | Test::Changed(_) => {
            put_all(text, &[TAKER.as_bytes(), b"(", side, b") "])
        }
        Test::Elements(_) => put_all(
            text,
            &[TAKER.as_bytes(), b"(", side, b"[", INDEX.as_bytes(), b"]) "],
        ),
        Test::Assigned => put_all(text, &[side, b" := ", side, b" "]),
    }
}

impl Trial<'_> {
    /// The text, with what a test of a side needs.
    fn text_with(&self, alloc: Global, side: &[u8], test: Test<'_>) -> Result<Changed, AllocError> {
        let Spots {
            body,
            front,
            is_condition,
        } = self.spots;
        let mut text = Vec::new(alloc);
        text.extend_from_slice(part(self.text, 0, body))?;
        text.extend_from_slice(declarations(alloc, test)?.as_bytes())?;
        text.extend_from_slice(part(self.text, body, front))?;
        text.extend_from_slice(if is_condition { b"; " } else { b"" })?;
        put_statement(&mut text, side, test)?;
        let end = text.len();
        text.extend_from_slice(if is_condition { b"" } else { b"; " })?;
        text.extend_from_slice(rest(self.text, front))?;
        Ok(Changed { text, end })
    }

    /// The files once more, with another text in the place of this one.
    fn files_with(&self, alloc: Global, text: &[u8]) -> Result<Vec<SourceFile>, AllocError> {
        let mut all = Vec::new(alloc);
        for file in self.files {
            let bytes = if file.name.as_str() == self.name {
                Vec::from_slice(alloc, text)?
            } else {
                Vec::from_slice(alloc, &file.bytes)?
            };
            let name = String::from_str(alloc, file.name.as_str())?;
            all.push(SourceFile { name, bytes })?;
        }
        Ok(all)
    }

    /// Whether a side passes a test.
    pub fn passes<R: AllocGlobal + Threads + Sync>(
        &self,
        rt: &R,
        side: &[u8],
        test: Test<'_>,
    ) -> Result<bool, BuildFault> {
        let changed = self.text_with(rt.alloc(), side, test)?;
        let files = self.files_with(rt.alloc(), &changed.text)?;
        match build(rt, rt.alloc(), &files, self.options, &Open)? {
            Outcome::Built { .. } => Ok(true),
            Outcome::Refused(refusals) => Ok(
                refusals
                    .iter()
                    .all(|it| it.file.as_str() != self.name || stands(&changed, it)),
            ),
        }
    }
}

/// Whether a changed text is refused, but behind the statement that was put into it.
fn stands(changed: &Changed, refusal: &Refusal) -> bool {
    offset_of(&changed.text, refusal.pos) >= changed.end
}
