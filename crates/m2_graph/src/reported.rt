//! What is reported of files.

ghost use Rattle.std.specs.Prelude.{◌≡◌, ◌<◌, ◌++◌, [], length, map, take, IfOk, OnOk};
ghost use Rattle.m2_graph.specs.Files.{trees};
ghost use Rattle.m2_graph.specs.Program.{modules_of, IsIndexed};
ghost use Rattle.m2_graph.specs.Refused.{breaches_of, least_of};
ghost use Rattle.m2_graph.specs.Sources.{file_of};
ghost use Rattle.m2_graph.specs.Reported.{cycle_breaches, report_of, reported_of, reported_at, refused_from, refused_of};

use crate::breaches::{FIRST_PLACE, breach_of};
use crate::program::Program;
use crate::sources::Source;
use m2_rule::{Breach, Rule};
use m2_tree::{Pos, Refusal};
use std::alloc::{AllocError, Global};

fn refusal(alloc: Global, file: &str, breach: Breach) -> Result<Refusal, AllocError>
    ensures { IfOk result (λ r. report_of r ≡ reported_of file.now breach) }
{
    Ok(Refusal {
        file: String::from_str(alloc, file)?,
        pos: breach.pos,
        number: breach.number,
    })
}

/// Adds what is reported of a file.
fn add_refusal(
    alloc: Global,
    file: &str,
    breach: Option<Breach>,
    refusals: &mut Vec<Refusal>,
) -> Result<(), AllocError>
    ensures { OnOk result (map report_of refusals.new.items
        ≡ map report_of refusals.old.items ++ reported_at file.now breach) }
{
    match breach {
        None => Ok(()),
        Some(found) => {
            refusals.push(refusal(alloc, file, found)?)?;
            Ok(())
        }
    }
}

/// What is reported of each file.
fn refused_from(
    alloc: Global,
    program: &Program<'_>,
    cycle: Option<(usize, Pos)>,
    sources: &[Source<'_>],
) -> Result<Vec<Refusal>, AllocError>
    requires indexed { IsIndexed program.now }
    requires same { modules_of program.now ≡ trees (map file_of sources.now) }
    ensures { IfOk result (λ rs.
        map report_of rs.items
        ≡ refused_from (trees (map file_of sources.now)) cycle []
        (map file_of sources.now)) }
{
    let mut refusals = Vec::new(alloc);
    for (number, source) in sources.iter().enumerate() {
        let breach = breach_of(program, cycle, number, source.given, source.tree);
        add_refusal(alloc, source.name, breach, &mut refusals)?;
    }
    Ok(refusals)
}

/// What is reported of files in order. `cycle` is what is reported of cycles.
pub fn refused_of(
    alloc: Global,
    program: &Program<'_>,
    cycle: Option<(usize, Pos)>,
    sources: &[Source<'_>],
) -> Result<Vec<Refusal>, AllocError>
    requires indexed { IsIndexed program.now }
    requires same { modules_of program.now ≡ trees (map file_of sources.now) }
    ensures { IfOk result (λ rs.
        map report_of rs.items ≡ refused_of (map file_of sources.now) cycle) }
{
    if sources.is_empty() {
        let mut refusals = Vec::new(alloc);
        let without_program = Breach::at(FIRST_PLACE, Rule::ProgramCount);
        add_refusal(alloc, "", Some(without_program), &mut refusals)?;
        return Ok(refusals);
    }
    refused_from(alloc, program, cycle, sources)
}
