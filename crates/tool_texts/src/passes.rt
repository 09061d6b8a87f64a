//! `m2 show`: what a pass makes of a program.

use anyhow::Result;
use command_words::Exit;
use find_files::text_of;
use m2c::{Open, Options, Outcome, SourceFile, build};
use mark_statements::marked_text;
use show_passes::{File, Shown, show_program, show_text_tokens, show_text_tree};
use show_types::show_types;
use std::alloc::{AllocError, Global};
use std::rt::Files;
use std::thread::Threads;
use tool_builds::{Modules, build_program};
use tool_output::{refuse, write_page};
use tool_words::{Pass, Setting};
use typed_program::typed_program;

/// Shows what a pass makes of this text, or where it is refused. The status.
fn show_text<R: Print + Eprint + AllocGlobal>(
    rt: &R,
    setting: &Setting,
    path: &str,
    text: Vec<u8>,
    made: Shown<Vec<u8>>,
) -> Result<u8> {
    match made {
        Shown::Made(page) => Ok(write_page(rt, &page)),
        Shown::Refused(pos, number) => refuse(rt, setting.style, path, text, pos, number),
    }
}

/// The names of files with their texts.
fn named_files(alloc: Global, files: &[SourceFile]) -> Result<Vec<File<'_>>, AllocError> {
    let mut all = Vec::new(alloc);
    for file in files {
        all.push((file.name.as_str(), file.bytes.as_slice()))?;
    }
    Ok(all)
}

/// The files with their statements marked.
fn marked_files(alloc: Global, files: &[SourceFile]) -> Result<Vec<SourceFile>, AllocError> {
    let mut all = Vec::new(alloc);
    for file in files {
        let name = String::from_str(alloc, file.name.as_str())?;
        let bytes = marked_text(alloc, &file.bytes)?;
        all.push(SourceFile { name, bytes })?;
    }
    Ok(all)
}

/// The modules of a program whose statements are marked. None if they are not built, as a text may be too long with its marks.
fn marked_modules<R>(
    rt: &R,
    options: Options,
    files: &[SourceFile],
) -> Result<Vec<(String, Vec<u8>)>>
where
    R: AllocGlobal + Threads + Sync,
{
    let files = marked_files(rt.alloc(), files)?;
    match build(rt, rt.alloc(), &files, options, &Open) {
        Ok(Outcome::Built { modules, .. }) => Ok(modules),
        Ok(Outcome::Refused(_)) | Err(_) => Ok(Vec::new(rt.alloc())),
    }
}

/// The code of a program that was built.
fn code_of<R>(rt: &R, options: Options, built: &Modules) -> Result<Vec<u8>>
where
    R: AllocGlobal + Threads + Sync,
{
    let alloc = rt.alloc();
    let files = named_files(alloc, &built.files)?;
    let marked = marked_modules(rt, options, &built.files)?;
    Ok(show_program(alloc, &files, &built.link, &built.others, &marked)?)
}

/// The typed trees of a program that was built, in start order.
fn types_of(alloc: Global, built: &Modules) -> Result<Vec<u8>> {
    let mut page = Vec::new(alloc);
    for module in &typed_program(alloc, &built.files)? {
        page.extend_from_slice(&show_types(alloc, module)?)?;
    }
    Ok(page)
}

/// Shows the types or the code of the program of this file with all its modules. The status.
fn show_whole<R>(rt: &R, setting: &Setting, pass: Pass, path: &str) -> Result<u8, Exit>
where
    R: Files + Print + Eprint + AllocGlobal + Threads + Sync,
{
    let built = build_program(rt, setting, path)?;
    let page = if pass == Pass::Types {
        types_of(rt.alloc(), &built)?
    } else {
        code_of(rt, setting.options, &built)?
    };
    Ok(write_page(rt, &page))
}

/// Shows what a pass makes of the program of this file. The status.
pub fn show_pass<R>(rt: &R, setting: &Setting, pass: Pass, path: &str) -> Result<u8, Exit>
where
    R: Files + Print + Eprint + AllocGlobal + Threads + Sync,
{
    if pass == Pass::Types || pass == Pass::Code {
        return show_whole(rt, setting, pass, path);
    }
    let text = text_of(rt, path)?;
    let made = match pass {
        Pass::Tokens => show_text_tokens(rt.alloc(), &text)?,
        Pass::Tree | Pass::Types | Pass::Code => show_text_tree(rt.alloc(), &text)?,
    };
    Ok(show_text(rt, setting, path, text, made)?)
}
