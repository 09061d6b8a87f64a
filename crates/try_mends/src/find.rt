//! The mend of a refused place.

use crate::bench::{Bench, MOST_WORK, copy_files, mended};
use crate::standing::{Reach, Stage, Standing};
use m2_tree::{Pos, Refusal, Symbol};
use m2c::{BuildFault, SourceFile};
use propose_mends::{Export, Mend, Source, exports_of, proposals};
use std::alloc::{AllocError, Global};
use std::thread::Threads;

/// A mend that was tried, and what it comes to.
#[derive(Drop)]
pub struct Found {
    pub mend: Mend,
    pub reach: Reach,
    /// The text with it.
    pub text: Vec<u8>,
}

/// What the definitions among files export.
fn exports_in(
    alloc: Global,
    files: &[SourceFile],
    is_given: bool,
    all: &mut Vec<Export>,
) -> Result<(), AllocError> {
    for file in files {
        exports_of(alloc, &file.bytes, is_given, all)?;
    }
    Ok(())
}

/// The name of the module of which a text is this sort of file.
fn module_name<'a>(source: &Source<'a>, sort: Symbol) -> Option<&'a [u8]> {
    if source.is(0, sort) {
        Some(source.spelling(2))
    } else {
        None
    }
}

/// The definition of the implementation of this text, among files.
fn partner_of<'a>(
    alloc: Global,
    files: &'a [SourceFile],
    text: &[u8],
) -> Result<&'a [u8], AllocError> {
    let begin = Pos { line: 1, col: 1 };
    let source = Source::of(alloc, text, begin)?;
    let Some(name) = module_name(&source, Symbol::Implementation) else {
        return Ok(b"");
    };
    for file in files {
        let other = Source::of(alloc, &file.bytes, begin)?;
        if module_name(&other, Symbol::Definition) == Some(name) {
            return Ok(&file.bytes);
        }
    }
    Ok(b"")
}

/// The mends that are tried at a refusal.
fn mends_at(
    alloc: Global,
    files: &[SourceFile],
    library: &[SourceFile],
    text: &[u8],
    refusal: &Refusal,
) -> Result<Vec<Mend>, AllocError> {
    let mut exports = Vec::new(alloc);
    exports_in(alloc, files, true, &mut exports)?;
    exports_in(alloc, library, false, &mut exports)?;
    exports.push(Export {
        module: Vec::from_slice(alloc, b"Console")?,
        name: Vec::from_slice(alloc, b"Put")?,
        is_given: true,
    })?;
    let partner = partner_of(alloc, files, text)?;
    proposals(alloc, text, refusal.number, refusal.pos, &exports, partner)
}

/// The number of the file of this name.
pub fn number_of(files: &[SourceFile], name: &str) -> Option<usize> {
    files.iter().position(|it| it.name.as_str() == name)
}

/// Tries mends one after another: the first after which nothing is refused, else the one that leads farthest.
fn best_of<R: AllocGlobal + Threads + Sync>(
    rt: &R,
    bench: &mut Bench<'_>,
    text: &[u8],
    refusal: &Refusal,
    mends: Vec<Mend>,
) -> Result<Option<Found>, BuildFault> {
    let start = Standing::of(refusal);
    let mut best = start;
    let mut found = None;
    for mend in mends {
        bench.set_text(mended(rt.alloc(), text, &mend)?);
        let Some(standing) = bench.standing(rt)? else {
            return Ok(found);
        };
        let is_likely = !mend.is_bold || standing.stage == Stage::Program;
        if is_likely && standing.is_behind(start) && standing > best {
            best = standing;
            let text = mended(rt.alloc(), text, &mend)?;
            found = Some(Found {
                mend,
                reach: standing.reach(),
                text,
            });
        }
        if best.stage == Stage::Program {
            return Ok(found);
        }
    }
    Ok(found)
}

/// A mend of the file in which this is refused: one after which nothing is refused, else the one after which the next
/// refusal stands farthest behind, and at least a line. Each was tried: the files were compiled with it, and with
/// `library` if it imports what the files lack. Nothing if no mend that is known does so within 6291456 bytes of work
/// (see `MOST_WORK`). An error if memory ran out.
pub fn find_mend<R: AllocGlobal + Threads + Sync>(
    rt: &R,
    files: &[SourceFile],
    library: &[SourceFile],
    refusal: &Refusal,
    pages: u32,
) -> Result<Option<Found>, BuildFault> {
    let Some(number) = number_of(files, refusal.file.as_str()) else {
        return Ok(None);
    };
    let alloc = rt.alloc();
    let text = files
        .get(number)
        .map_or(b"".as_slice(), |it| it.bytes.as_slice());
    let mends = mends_at(alloc, files, library, text, refusal)?;
    let mut copies = Vec::new(alloc);
    copy_files(alloc, files, &mut copies)?;
    let mut bench = Bench {
        files: copies,
        number,
        library,
        pages,
        is_checked: Standing::of(refusal).stage > Stage::Imports,
        left: MOST_WORK,
    };
    best_of(rt, &mut bench, text, refusal, mends)
}
