//! The calls that save modules.

ghost use Rattle.std.specs.Prelude.{◌≡◌, ◌<◌, ◌^◌, ◌+◌, ◌++◌, ◌∷◌, [], ◌↔◌, map, IfOk, OnOk, IsErrOf, Bool};
ghost use Rattle.std.specs.String.{string_bytes};
ghost use Rattle.write_directory.specs.Borrowed.{files_borrowed};
ghost use Rattle.write_directory.specs.Calls.{file_of, module_file};
ghost use Rattle.write_directory.specs.Saves.{Saves, SavesFiles, WritesAll, WritesLink};

use crate::dir::OutDir;
use crate::fault::SaveFault;
use std::alloc::{AllocError, Global};

/// The file of the module that a program begins with.
const LINK: &str = "link.wasm";

/// The name of a module's file.
fn file_of(alloc: Global, name: &str) -> Result<String, AllocError>
    ensures { IfOk result (λ file. string_bytes file ≡ file_of name.now) }
{
    let mut file = String::from_str(alloc, name)?;
    file.push_str(".wasm")?;
    Ok(file)
}

/// Adds the file of a module.
fn add_file<'a>(
    alloc: Global,
    files: &mut Vec<(String, &'a [u8])>,
    module: &'a (String, Vec<u8>),
) -> Result<(), AllocError>
    ensures { OnOk result
        (files_borrowed files.new.items
        ≡ files_borrowed files.old.items ++ module_file module.now ∷ []) }
{
    let file = file_of(alloc, &module.0)?;
    files.push((file, module.1.as_slice()))?;
    Ok(())
}

/// The files of modules.
fn files_of(
    alloc: Global,
    modules: &[(String, Vec<u8>)],
) -> Result<Vec<(String, &[u8])>, AllocError>
    ensures { IfOk result (λ files. files_borrowed files.items ≡ map module_file modules.now) }
{
    let mut files = Vec::new(alloc);
    for module in modules {
        add_file(alloc, &mut files, module)?;
    }
    Ok(files)
}

/// Writes files in their order, up to one that fails.
fn write_files<D: OutDir>(dir: &mut D, files: &[(String, &[u8])]) -> bool
    requires { D.failed dir.old + 1 < 2 ^ 64 }
    ensures { WritesAll D.calls D.failed (files_borrowed files.now) result dir.old dir.new }
{
    for file in files {
        if !dir.write(&file.0, file.1) {
            return false;
        }
    }
    true
}

/// Writes link, and removes it again if that fails.
fn write_link<D: OutDir>(dir: &mut D, link: &[u8]) -> bool
    requires { D.failed dir.old + 2 < 2 ^ 64 }
    ensures { WritesLink D.calls D.failed link.now result dir.old dir.new }
{
    let is_written = dir.write(LINK, link);
    if !is_written {
        dir.remove(LINK);
    }
    is_written
}

/// Removes an old link, writes the files in their order, and then link, up to the first that fails.
fn save_files<D: OutDir>(dir: &mut D, link: &[u8], files: &[(String, &[u8])]) -> bool
    requires { D.failed dir.old + 2 < 2 ^ 64 }
    ensures { SavesFiles D.calls D.failed link.now (files_borrowed files.now) result dir.old
        dir.new }
{
    if !dir.remove(LINK) {
        return false;
    }
    if !write_files(dir, files) {
        return false;
    }
    write_link(dir, link)
}

/// Saves a program: removes an old `link.wasm`, writes each module M as `M.wasm` in this order, and then `link.wasm`, which
/// is removed again if that fails. It stops at the first other failure. So a directory with a `link.wasm` has all its
/// modules.
///
/// `NoMemory` (90) if memory for the names was refused; then the directory is not called. `Device` (93) if the directory
/// failed.
pub fn save<D: OutDir>(
    alloc: Global,
    link: &[u8],
    modules: &[(String, Vec<u8>)],
    dir: &mut D,
) -> Result<(), SaveFault>
    requires { D.failed dir.old + 2 < 2 ^ 64 }
    // Which calls are made, in which order, with which bytes and answers.
    ensures calls { Saves D.calls D.failed link.now (map module_file modules.now) result dir.old
        dir.new }
    // 93 exactly if the directory failed.
    ensures device { IsErrOf result SaveFault.Device ↔ (D.failed dir.old < D.failed dir.new) }
{
    let files = files_of(alloc, modules)?;
    if save_files(dir, link, &files) {
        Ok(())
    } else {
        Err(SaveFault::Device)
    }
}
