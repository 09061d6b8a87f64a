//! What of an earlier build is taken, and what is kept for the next.

use crate::wanted::Wanted;
use command_words::{Exit, VERSION};
use find_files::{Places, Program, program_of_modules, say_find_fault};
use kept_modules::{Kept, Part, PartFault, read_kept, short_sum, stem_of, write_kept};
use renew_modules::{Found, Plan, Planned, Renewal, Stale, Why, find_kept, plan_of, renew};
use std::alloc::AllocError;
use std::fs;
use std::fs::Metadata;
use std::rt::Files;
use std::time::UNIX_EPOCH;
use tool_output::write_changed;
use tool_words::{PROGRAM, Setting};

/// The file of the program that runs, under the name that the system has for it.
const OWN_FILE: &str = "/proc/self/exe";

/// When a file was written, in nanoseconds since 1970. 0 if that is not known.
fn time_of(found: &Metadata) -> u128 {
    let Ok(time) = found.modified() else {
        return 0;
    };
    match time.duration_since(UNIX_EPOCH) {
        Ok(since) => since.as_nanos(),
        Err(_) => 0,
    }
}

/// Which m2 this is: its version, and how long its file is and when it was written, if the system says that. So two of one version are
/// told apart.
fn own_version<R: Files + AllocGlobal>(rt: &R) -> Result<String, AllocError> {
    match fs::metadata(rt, OWN_FILE) {
        Ok(found) => {
            let (length, time) = (found.len(), time_of(&found));
            format!(in rt.alloc(); "{VERSION} {length} {time}")
        }
        Err(_) => String::from_str(rt.alloc(), VERSION),
    }
}

/// Where it stands what is kept of the program of this file: in the folder of its modules, under the name of the file.
pub fn kept_path<R: AllocGlobal>(rt: &R, file: &str, out: &str) -> Result<String, AllocError> {
    let name = stem_of(file);
    format!(in rt.alloc(); "{out}/{name}.kept")
}

/// Says why all modules are compiled, if that is wanted.
fn say_whole<R: Eprint>(rt: &R, setting: &Setting, why: &str) {
    if setting.is_verbose {
        let _ = eprintln!(rt; "{PROGRAM}: all: {why}");
    }
}

/// Says why a module is compiled.
fn say_stale<R: Eprint>(rt: &R, body: &Part, stale: &Stale) {
    let name = &body.name;
    let _ = match &stale.why {
        Why::Text => eprintln!(rt; "{PROGRAM}: {name}: its text changed"),
        Why::Code => eprintln!(rt; "{PROGRAM}: {name}: {name}.wasm is not there as it was written"),
        Why::Definition(other) => {
            eprintln!(rt; "{PROGRAM}: {name}: the definition of {other} changed")
        }
    };
}

/// Says why modules are compiled, and how many others are taken as they are, if that is wanted.
fn say_plan<R: Eprint>(rt: &R, setting: &Setting, kept: &Kept, plan: &Plan) {
    if !setting.is_verbose {
        return;
    }
    for stale in &plan.stale {
        if let Some(body) = kept.bodies.get(stale.body) {
            say_stale(rt, body, stale);
        }
    }
    let compiled = plan.stale.len();
    let taken = kept.bodies.len().saturating_sub(compiled);
    let _ = eprintln!(rt; "{PROGRAM}: modules compiled: {compiled}, taken as they are: {taken}");
}

/// What was kept of a program in this file. Why there is nothing is said, if that is wanted.
fn kept_in<R: Files + Eprint + AllocGlobal>(
    rt: &R,
    setting: &Setting,
    path: &str,
) -> Result<Option<Kept>, AllocError> {
    let Ok(text) = fs::read(rt, path) else {
        say_whole(rt, setting, "nothing was kept");
        return Ok(None);
    };
    let version = own_version(rt)?;
    match read_kept(rt.alloc(), version.as_str(), &text) {
        Ok(kept) => Ok(Some(kept)),
        Err(PartFault::NoMemory) => Err(AllocError),
        Err(PartFault::Version) => {
            say_whole(rt, setting, "another m2 built it before");
            Ok(None)
        }
        Err(PartFault::Altered) => {
            say_whole(rt, setting, "what was kept was cut or altered");
            Ok(None)
        }
    }
}

/// The checksum of the file of a module, and none of one that is not there.
fn code_in<R: Files + AllocGlobal>(rt: &R, out: &str, body: &Part) -> Result<String, AllocError> {
    let name = &body.name;
    let path = format!(in rt.alloc(); "{out}/{name}.wasm")?;
    let is_file = match fs::metadata(rt, path.as_str()) {
        Ok(found) => found.is_file(),
        Err(_) => false,
    };
    if !is_file {
        return Ok(String::new(rt.alloc()));
    }
    match fs::read(rt, path.as_str()) {
        Ok(bytes) => short_sum(rt.alloc(), &bytes),
        Err(_) => Ok(String::new(rt.alloc())),
    }
}

/// Whether the files of all modules in this folder have the checksums that were kept.
pub fn holds_kept<R: Files + AllocGlobal>(
    rt: &R,
    out: &str,
    kept: &Kept,
) -> Result<bool, AllocError> {
    for body in &kept.bodies {
        if code_in(rt, out, body)?.as_bytes() != body.code.as_bytes() {
            return Ok(false);
        }
    }
    Ok(true)
}

/// The checksums of the files of modules in this folder.
fn codes_in<R: Files + AllocGlobal>(
    rt: &R,
    out: &str,
    kept: &Kept,
) -> Result<Vec<String>, AllocError> {
    let mut codes = Vec::new(rt.alloc());
    for body in &kept.bodies {
        codes.push(code_in(rt, out, body)?)?;
    }
    Ok(codes)
}

/// What was kept of a program in this file, unless a fresh build or maps are wanted. Why there is nothing is said, if that is wanted.
pub fn kept_for<R: Files + Eprint + AllocGlobal>(
    rt: &R,
    setting: &Setting,
    wanted: &Wanted<'_>,
    path: &str,
) -> Result<Option<Kept>, AllocError> {
    if wanted.is_fresh {
        say_whole(rt, setting, "a fresh build is wanted");
        return Ok(None);
    }
    if wanted.is_mapped {
        say_whole(rt, setting, "maps are wanted");
        return Ok(None);
    }
    kept_in(rt, setting, path)
}

/// The program of this file and this text, and the checksums of its texts. Its modules are found by what was kept and by the begins of
/// texts.
pub fn find_with<R: Files + Eprint + AllocGlobal>(
    rt: &R,
    setting: &Setting,
    file: &str,
    text: Vec<u8>,
    kept: &Kept,
) -> Result<(Program, Vec<String>), Exit> {
    let places = Places::of(rt, file, &setting.libraries)?;
    match find_kept(rt.alloc(), &places, &text, kept) {
        Ok(found) => {
            let Found { modules, texts } = found;
            let program = program_of_modules(rt, setting, file, text, &places, modules)?;
            Ok((program, texts))
        }
        Err(fault) => Err(say_find_fault(rt, fault)),
    }
}

/// The modules of a program of which only what changed was compiled, since this was kept in the folder of its modules. Its texts have
/// these checksums. None if the whole has to be built; why is said, if that is wanted.
pub fn renewed<R: Files + Eprint + AllocGlobal>(
    rt: &R,
    setting: &Setting,
    program: &Program,
    texts: Vec<String>,
    kept: Kept,
    out: &str,
) -> Result<Option<Renewal>, AllocError> {
    let codes = codes_in(rt, out, &kept)?;
    let plan = match plan_of(rt.alloc(), &program.files, &kept, texts, &codes)? {
        Planned::Part(plan) => plan,
        Planned::Whole(why) => {
            say_whole(rt, setting, why);
            return Ok(None);
        }
    };
    say_plan(rt, setting, &kept, &plan);
    let pages = setting.options.pages;
    let renewal = renew(rt.alloc(), &program.files, kept, &plan, pages)?;
    if renewal.is_none() {
        say_whole(
            rt,
            setting,
            "something is refused, or does not fit together",
        );
    }
    Ok(renewal)
}

/// Writes into this file what is kept of a program. A file that says it already keeps its time. If it cannot be written, that is said,
/// and nothing else is lost.
pub fn write_kept_file<R: Files + Eprint + AllocGlobal>(
    rt: &R,
    path: &str,
    kept: &Kept,
) -> Result<(), AllocError> {
    let version = own_version(rt)?;
    let text = write_kept(rt.alloc(), version.as_str(), kept)?;
    if let Err(error) = write_changed(rt, path, text.as_bytes()) {
        let _ = eprintln!(rt;
            "{PROGRAM}: cannot write {path}: {error}; the next build compiles all modules"
        );
        let _ = fs::remove_file(rt, path);
    }
    Ok(())
}
