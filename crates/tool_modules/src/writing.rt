//! What is written of a module that was compiled alone.

use build_jobs::SourceFile;
use command_words::{Exit, FAILED, VERSION};
use link_parts::{Part, write_part};
use std::alloc::AllocError;
use std::rt::Files;
use std::{fs, io};
use system_streams::remove_if_there;
use tool_output::{holds_bytes, write_changed, write_depends};
use tool_words::PROGRAM;

/// The status if the module is written.
const WRITTEN: u8 = 0;

/// A module that was compiled alone.
#[derive(Clone, Copy)]
pub struct Compiled<'a> {
    /// What link has to know of it.
    pub part: &'a Part,
    /// The bytes of its file M.wasm.
    pub code: &'a [u8],
    /// The files that were read for it.
    pub files: &'a [SourceFile],
}

/// The files of a module in a folder.
#[derive(Drop)]
struct Paths {
    wasm: String,
    link: String,
    /// The program that was linked before.
    program: String,
}

/// Writes the two files of a module, M.link last. If another program was linked from what stood there, its link is removed first.
fn write_files<R: Files + AllocGlobal>(
    rt: &R,
    paths: &Paths,
    code: &[u8],
    text: &str,
) -> io::Result<()> {
    let (wasm, link) = (paths.wasm.as_str(), paths.link.as_str());
    if !(holds_bytes(rt, wasm, code) && holds_bytes(rt, link, text.as_bytes())) {
        remove_if_there(rt, paths.program.as_str())?;
        remove_if_there(rt, link)?;
    }
    write_changed(rt, wasm, code)?;
    fs::write(rt, link, text.as_bytes())
}

/// The files of a module in this folder.
fn paths_of<R: AllocGlobal>(rt: &R, out: &str, name: &str) -> Result<Paths, AllocError> {
    Ok(Paths {
        wasm: format!(in rt.alloc(); "{out}/{name}.wasm")?,
        link: format!(in rt.alloc(); "{out}/{name}.link")?,
        program: format!(in rt.alloc(); "{out}/link.wasm")?,
    })
}

/// Writes of which files those of a module were made.
fn write_deps<R: Files + Eprint + AllocGlobal>(
    rt: &R,
    deps: &str,
    paths: &Paths,
    files: &[SourceFile],
) -> Result<(), Exit> {
    let mut made = Vec::new(rt.alloc());
    made.push(String::from_str(rt.alloc(), paths.link.as_str())?)?;
    made.push(String::from_str(rt.alloc(), paths.wasm.as_str())?)?;
    let mut read = Vec::new(rt.alloc());
    for file in files {
        read.push(file.name.as_str())?;
    }
    write_depends(rt, deps, &made, &read)
}

/// Writes a module into this folder: M.wasm, which keeps its time if it does not change, and M.link. Before, it is written into the
/// file `deps`, if there is one, of which files they were made. The status.
pub fn write_module<R: Files + Eprint + AllocGlobal>(
    rt: &R,
    module: &Compiled<'_>,
    out: &str,
    deps: &Option<String>,
) -> Result<u8, Exit> {
    let name = module.part.name.as_str();
    let text = write_part(rt.alloc(), VERSION, module.part)?;
    let paths = paths_of(rt, out, name)?;
    if let Some(deps) = deps {
        write_deps(rt, deps.as_str(), &paths, module.files)?;
    }
    match write_files(rt, &paths, module.code, text.as_str()) {
        Ok(()) => Ok(WRITTEN),
        Err(error) => {
            let _ = eprintln!(rt;
                "{PROGRAM}: cannot write {name}.wasm and {name}.link into {out}: {error}"
            );
            Ok(FAILED)
        }
    }
}
