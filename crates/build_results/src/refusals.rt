//! What is reported of files.

ghost use Rattle.std.specs.Prelude.{◌≡◌, ◌++◌, IfOk, OnOk, length, map};
ghost use Rattle.std.specs.String.{string_bytes};
ghost use Rattle.build_results.specs.Reported.{report_of, reported_at};
ghost use Rattle.build_results.specs.Texts.{refused_in, refused_of};

use build_jobs::{Read, SourceFile};
use m2_tree::{Pos, Refusal};
use std::alloc::{AllocError, Global};

/// A broken rule of a file.
pub fn refusal(alloc: Global, file: &str, pos: Pos, number: u32) -> Result<Refusal, AllocError>
    ensures { IfOk result (λ r. report_of r ≡ reported_at file.now pos.line pos.col number) }
{
    Ok(Refusal {
        file: String::from_str(alloc, file)?,
        pos,
        number,
    })
}

/// Adds the rule that a text breaks.
fn add_refused(
    alloc: Global,
    refusals: &mut Vec<Refusal>,
    file: &SourceFile,
    read: &Read,
) -> Result<(), AllocError>
    ensures { OnOk result
        (map report_of refusals.new.items
        ≡ map report_of refusals.old.items ++ refused_in (string_bytes file.now.name) read.now) }
{
    match read {
        Read::Parsed(_) => Ok(()),
        Read::Refused(pos, number) => {
            let reported = refusal(alloc, &file.name, *pos, *number)?;
            refusals.push(reported)?;
            Ok(())
        }
    }
}

/// The rules of tokens and of the grammar that texts break.
pub fn refused_of(
    alloc: Global,
    files: &[SourceFile],
    reads: &[Read],
) -> Result<Vec<Refusal>, AllocError>
    requires { length files.now ≡ length reads.now }
    ensures { IfOk result (λ rs. map report_of rs.items ≡ refused_of files.now reads.now) }
{
    let mut refusals = Vec::new(alloc);
    for k in 0..files.len() {
        add_refused(alloc, &mut refusals, &files[k], &reads[k])?;
    }
    Ok(refusals)
}
