//! The run of a directory's modules.

ghost use Rattle.std.specs.Prelude.{◌≡◌, ◌+◌, ◌<◌, ◌^◌, List, map};
ghost use Rattle.std.specs.String.{string_bytes};
ghost use Rattle.run_directory.specs.Directory.{FileRead, HasRead};
ghost use Rattle.run_directory.specs.Reported.{IsOf, ComesOf, Executes};

use crate::dir::InDir;
use crate::load::{alone, module_of, modules_of};
use crate::names::module_names;
use crate::report::Report;
use crate::say::write_report;
use std::alloc::Global;
use wasm_engine::{Instances, Sink};
use wasm_tree::WFault;
use wasm_valid::ValidModule;

/// Links the modules, and executes them for `steps` reductions.
fn run_all<S: Sink>(
    alloc: Global,
    modules: &[ValidModule],
    steps: u64,
    out: &mut S,
) -> Report<'static>
    requires { S.failed out.old + 1 < 2 ^ 64 }
    ensures { IsOf S.reported S.failed modules.now steps result out.old out.new }
{
    match Instances::link(alloc, modules) {
        Err(fault) => Report::Refused("link", fault),
        Ok(mut instances) => match instances.run(steps, out) {
            Ok(end) => Report::Ran(end),
            Err(fault) => Report::Broken(fault),
        },
    }
}

/// Reads the modules of these names, and executes them behind the first.
fn run_named<'n, D: InDir, S: Sink>(
    alloc: Global,
    dir: &mut D,
    first: Vec<ValidModule>,
    names: &'n [String],
    steps: u64,
    out: &mut S,
) -> Report<'n>
    requires { S.failed out.old + 1 < 2 ^ 64 }
    ensures { (reads : List FileRead)
        × HasRead D.reads D.gives reads dir.old dir.new
        × ComesOf S.reported S.failed reads first.items (map string_bytes names.now) steps result
        out.old out.new }
{
    match modules_of(alloc, dir, first, names) {
        Ok(modules) => run_all(alloc, &modules, steps, out),
        Err(report) => report,
    }
}

/// Does what `m2run` does after its command line: reads `link.wasm` in this directory, and the file `M.wasm` for each
/// of its exports `tab.M` (M a name other than link), in their order, each of them decoded and validated before the
/// next; links them and executes them for `steps` reductions. The program prints on `out`.
///
/// The answer is the status: 0 if the program ended by itself or by HALT; 1 if it ended otherwise; 3 if a file, a module,
/// memory or `out` failed; 4 if it goes on. What 1 and 3 mean is reported in a line on `err`. If a file cannot be read, the
/// directory says what stands in front of that line, and why. Each stream is left alone after its first failure; one of
/// `err` changes no status.
pub fn execute<D: InDir, S: Sink, E: Sink>(
    alloc: Global,
    dir: &mut D,
    steps: u64,
    out: &mut S,
    err: &mut E,
) -> u8
    requires out { S.failed out.old + 1 < 2 ^ 64 }
    requires err { E.failed err.old + 1 < 2 ^ 64 }
    ensures { Executes D.reads D.gives D.in_front D.behind S.reported S.failed E.reported E.failed
        steps result dir.old dir.new out.old out.new err.old err.new }
{
    let link = match module_of(alloc, dir, "link") {
        Ok(link) => link,
        Err(report) => return write_report(err, dir, report),
    };
    let Ok(names) = module_names(alloc, link.exports()) else {
        return write_report(err, dir, Report::Refused("link", WFault::NoMemory));
    };
    let Ok(first) = alone(alloc, link) else {
        return write_report(err, dir, Report::Refused("link", WFault::NoMemory));
    };
    let report = run_named(alloc, dir, first, &names, steps, out);
    write_report(err, dir, report)
}
