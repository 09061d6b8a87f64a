//! `m2 graph`: the imports of a program.

use anyhow::Result;
use build_jobs::read_in_turn;
use build_results::{refused_of, trees_of};
use command_words::Exit;
use find_files::{Program, find_program, folder_of};
use show_graph::{Node, Steps, data, make_file, ninja_file, nodes_of, picture};
use std::rt::Files;
use tool_output::{show, write_page};
use tool_words::{Drawn, PROGRAM, Setting};

/// The status of a program that has no steps.
const REFUSED: u8 = 1;

/// The name of the program module, which is that of the first file.
fn program_of<'a>(nodes: &'a [Node<'_>]) -> Option<&'a str> {
    match nodes.first() {
        None => None,
        Some(first) => {
            if first.is_program {
                Some(first.name.as_str())
            } else {
                None
            }
        }
    }
}

/// Shows the steps that build a program. If it lacks modules, or is none, that is said. The status.
fn show_steps<R: Print + Eprint + AllocGlobal>(
    rt: &R,
    setting: &Setting,
    program: &Program,
    nodes: &[Node<'_>],
    drawn: Drawn,
    out: &str,
) -> Result<u8> {
    let path = program.files.first().map_or("", |it| it.name.as_str());
    let Some(name) = program_of(nodes) else {
        let _ = eprintln!(rt;
            "{PROGRAM}: {path}: it is no program module, so there is nothing to link"
        );
        return Ok(REFUSED);
    };
    if !program.lacking.is_empty() {
        return show(rt, setting.style, program, &[], &[]);
    }
    let steps = Steps {
        out,
        folder: folder_of(path),
        libraries: &setting.libraries,
        pages: setting.options.pages,
    };
    let page = if drawn == Drawn::Ninja {
        ninja_file(rt.alloc(), &steps, name, nodes)?
    } else {
        make_file(rt.alloc(), &steps, name, nodes)?
    };
    Ok(write_page(rt, page.as_bytes()))
}

/// Shows the imports of a program whose texts have trees. The status.
fn show_nodes<R: Print + Eprint + AllocGlobal>(
    rt: &R,
    setting: &Setting,
    program: &Program,
    nodes: &[Node<'_>],
    drawn: Drawn,
    out: &str,
) -> Result<u8> {
    let alloc = rt.alloc();
    let page = match drawn {
        Drawn::Picture => picture(alloc, nodes, &program.lacking)?.into_bytes(),
        Drawn::Data => data(alloc, nodes, &program.lacking)?,
        Drawn::Ninja | Drawn::Make => {
            return show_steps(rt, setting, program, nodes, drawn, out);
        }
    };
    Ok(write_page(rt, &page))
}

/// Shows what the modules of the program of this file import, or the steps that build it into the folder `out`. Texts that have no
/// trees are refused. The status.
pub fn show_imports<R>(
    rt: &R,
    setting: &Setting,
    path: &str,
    drawn: Drawn,
    out: &str,
) -> Result<u8, Exit>
where
    R: Files + Print + Eprint + AllocGlobal,
{
    let program = find_program(rt, setting, path)?;
    let alloc = rt.alloc();
    let reads = read_in_turn(alloc, &program.files)?;
    let refusals = refused_of(alloc, &program.files, &reads)?;
    if !refusals.is_empty() {
        return Ok(show(rt, setting.style, &program, &refusals, &[])?);
    }
    let trees = trees_of(alloc, &program.files, &reads)?;
    let nodes = nodes_of(alloc, &trees)?;
    Ok(show_nodes(rt, setting, &program, &nodes, drawn, out)?)
}
