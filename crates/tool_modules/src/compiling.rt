//! `m2 compile`: one module, compiled alone.

use crate::parts::part_of;
use crate::writing::{Compiled, write_module};
use anyhow::Result;
use build_jobs::{Read, read_text};
use command_words::{COMMAND_LINE, Exit};
use compile_module::{Made, compile_module};
use find_files::{Program, find_definitions, text_of};
use m2_tree::{Contents, Module};
use std::alloc::{AllocError, Global};
use std::rt::Files;
use tool_output::{refuse, show};
use tool_words::{PROGRAM, Setting};

/// The status of a definition in which nothing is refused.
const ACCEPTED: u8 = 0;

/// Compiles the first file of a program with the others, which are definitions, and writes the module. The status.
fn compile_found<R>(
    rt: &R,
    setting: &Setting,
    program: &Program,
    out: &Option<String>,
    deps: &Option<String>,
) -> Result<u8, Exit>
where
    R: Files + Print + Eprint + AllocGlobal,
{
    match compile_module(rt.alloc(), &program.files)? {
        Made::Refused(refusals) => Ok(show(rt, setting.style, program, &refusals, &[])?),
        Made::Defined => Ok(ACCEPTED),
        Made::Built {
            module,
            is_program,
            imports,
            interfaces,
        } => {
            let module = module.get();
            let alloc = rt.alloc();
            let part = part_of(
                alloc,
                &program.files,
                module,
                is_program,
                imports,
                &interfaces,
            )?;
            let made = Compiled {
                part: &part,
                code: module.bytes.as_slice(),
                files: &program.files,
            };
            write_module(rt, &made, out.as_ref().map_or("", |it| it.as_str()), deps)
        }
    }
}

/// What stands for a file in the folder that is searched first: this file, or the folder `from` itself.
fn place_of(alloc: Global, path: &str, from: &Option<String>) -> Result<String, AllocError> {
    match from {
        None => String::from_str(alloc, path),
        Some(folder) => {
            let between = if folder.ends_with('/') { "" } else { "/" };
            format!(in alloc; "{folder}{between}.")
        }
    }
}

/// The text of this tree, and the definitions that it needs.
fn find_around<R>(
    rt: &R,
    setting: &Setting,
    path: &str,
    from: &Option<String>,
    text: &[u8],
    tree: &Module,
) -> Result<Program, Exit>
where
    R: Files + Print + Eprint + AllocGlobal,
{
    let place = place_of(rt.alloc(), path, from)?;
    find_definitions(rt, setting, path, place.as_str(), text, tree)
}

/// Compiles the module of this file alone, and writes it into the folder `out`, or checks a definition. The definitions that it needs
/// are looked for in the folder `from`, or its own, and then in those of the setting. What is refused is shown, and then nothing is
/// written. The status.
pub fn compile_file<R>(
    rt: &R,
    setting: &Setting,
    path: &str,
    out: &Option<String>,
    deps: &Option<String>,
    from: &Option<String>,
) -> Result<u8, Exit>
where
    R: Files + Print + Eprint + AllocGlobal,
{
    let text = text_of(rt, path)?;
    let tree = match read_text(rt.alloc(), &text)? {
        Read::Parsed(tree) => tree,
        Read::Refused(pos, number) => {
            return Ok(refuse(rt, setting.style, path, text, pos, number)?);
        }
    };
    let is_definition = matches!(&tree.contents, Contents::Definition(_));
    if !is_definition && out.is_none() {
        let _ = eprintln!(rt; "{PROGRAM}: compile needs --out DIR for a body");
        return Ok(COMMAND_LINE);
    }
    let program = find_around(rt, setting, path, from, &text, &tree)?;
    compile_found(rt, setting, &program, out, deps)
}
