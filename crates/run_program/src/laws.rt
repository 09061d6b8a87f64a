//! The law of both programs over one folder. There is no code here but what names it.

ghost use Rattle.std.specs.Prelude.{ℕ, List, map, String};
ghost use Rattle.std.specs.Global.{Global, Vec};
ghost use Rattle.build_jobs.specs.declared.file.SourceFile.{SourceFile};
ghost use Rattle.m2c.specs.Build.{IsProgram, name_bytes};
ghost use Rattle.run_program.specs.Saved.{IsExecuted};

use run_directory::{InDir, Sink};
use write_directory::OutDir;

/// What `build` built, and `save` saved into a folder, `execute` reads back from there: the same modules, in the same order. So
/// for every number of reductions it prints what the program's run prints by the language's definition, or a beginning of it.
/// Only a file that cannot be read and want of memory come between, and then nothing was printed.
pub fn saved_laws<D: OutDir, I: InDir, S: Sink>()
    ensures { (files : List SourceFile) (pages : ℕ) (link : Vec ℕ)
        (modules : Vec (String Global × Vec ℕ))
        → (built : IsProgram files pages link.items (map name_bytes modules.items))
        → IsExecuted D.calls D.failed I.reads I.gives S.reported S.failed built.program pages link
        modules }
{}
