//! The files that are compiled.

ghost use Rattle.std.specs.Prelude.{◌≡◌, ◌++◌, ◌∷◌, [], List, map, IfOk, IfErr};
ghost use Rattle.std.specs.String.{string_bytes};
ghost use Rattle.run_directory.specs.Directory.{FileRead, HasRead};
ghost use Rattle.build_jobs.specs.declared.file.SourceFile.{SourceFile};
ghost use Rattle.m2c.specs.Compiles.{IsGiven, AreGiven, Lacks, FirstLack};

use crate::ending::Ending;
use crate::files::BuildFault;
use build_jobs::SourceFile;
use run_directory::InDir;
use std::alloc::Global;

/// Adds the file of this name.
fn add_file<'n, I: InDir>(
    alloc: Global,
    dir: &mut I,
    name: &'n str,
    files: &mut Vec<SourceFile>,
) -> Result<(), Ending<'n>>
    ensures ok { IfOk result (λ _.
        (read : FileRead)
        × HasRead I.reads I.gives (read ∷ []) dir.old dir.new
        × (file : SourceFile)
        × (files.new.items ≡ files.old.items ++ file ∷ [])
        × IsGiven read name.now file) }
    ensures err { IfErr result (λ e.
        (read : FileRead)
        × HasRead I.reads I.gives (read ∷ []) dir.old dir.new
        × Lacks read name.now e) }
{
    let Some(bytes) = dir.read(alloc, name) else {
        return Err(Ending::Unread(name));
    };
    let Ok(name) = String::from_str(alloc, name) else {
        return Err(Ending::Unbuilt(BuildFault::NoMemory));
    };
    if files.push(SourceFile { name, bytes }).is_err() {
        return Err(Ending::Unbuilt(BuildFault::NoMemory));
    }
    Ok(())
}

/// The files of these names, read in this order. Else what ends the compilation at the first that is not there.
pub fn read_files<'n, I: InDir>(
    alloc: Global,
    dir: &mut I,
    names: &'n [String],
) -> Result<Vec<SourceFile>, Ending<'n>>
    ensures ok { IfOk result (λ files.
        (reads : List FileRead)
        × HasRead I.reads I.gives reads dir.old dir.new
        × AreGiven reads (map string_bytes names.now) files.items) }
    ensures err { IfErr result (λ e.
        (reads : List FileRead)
        × HasRead I.reads I.gives reads dir.old dir.new
        × FirstLack reads (map string_bytes names.now) e) }
{
    let mut files = Vec::new(alloc);
    for name in names {
        match add_file(alloc, dir, name, &mut files) {
            Ok(()) => {}
            Err(ending) => return Err(ending),
        }
    }
    Ok(files)
}
