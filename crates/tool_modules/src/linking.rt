//! `m2 link`: modules that were compiled alone, linked.

use crate::loading::{REFUSED, parts_in};
use anyhow::Result;
use build_jobs::MAX_PAGES;
use command_words::{COMMAND_LINE, Exit, FAILED};
use link_parts::{LinkFault, Part, is_name, link_modules};
use std::alloc::AllocError;
use std::rt::Files;
use system_streams::OutFolder;
use tool_words::PROGRAM;
use write_directory::{SaveFault, save};

/// The status if the program is linked.
const LINKED: u8 = 0;

/// The name of a module.
fn name_of(parts: &[Part], number: usize) -> &str {
    parts.get(number).map_or("", |it| it.name.as_str())
}

/// Says that two modules do not fit together.
fn say_two<R: Eprint>(rt: &R, out: &str, first: &str, second: &str, interface: &str) {
    let _ = eprintln!(rt;
        "{PROGRAM}: {out}/{first}.link and {out}/{second}.link: {first} and {second} were compiled with different definitions of {interface}; compile them again"
    );
}

/// Says how many pages a program needs.
fn say_pages<R: Eprint>(rt: &R, out: &str, program: &str, pages: u64) {
    let words = "the variables and strings of all modules are too large for the memory (61)";
    let _ = if pages > u64::from(MAX_PAGES) {
        eprintln!(rt;
            "{PROGRAM}: {out}/{program}.link: {words}; it needs more than {MAX_PAGES} pages"
        )
    } else {
        eprintln!(rt;
            "{PROGRAM}: {out}/{program}.link: {words}; it needs {pages} pages; --memory {pages}"
        )
    };
}

/// Says why modules do not make a program. The status.
fn say_fault<R: Eprint>(
    rt: &R,
    out: &str,
    parts: &[Part],
    fault: LinkFault,
) -> Result<u8, AllocError> {
    let program = name_of(parts, 0);
    match fault {
        LinkFault::NoMemory => return Err(AllocError),
        LinkFault::NoProgram => {
            let _ = eprintln!(rt;
                "{PROGRAM}: {out}/{program}.link: {program} is no program module"
            );
        }
        LinkFault::Program(number) => {
            let name = name_of(parts, number);
            let _ = eprintln!(rt;
                "{PROGRAM}: {out}/{name}.link: {name} is a program module, and a module imports it"
            );
        }
        LinkFault::Interfaces(first, second, interface) => {
            let (first, second) = (name_of(parts, first), name_of(parts, second));
            say_two(rt, out, first, second, interface.as_str());
        }
        LinkFault::Imports(number) => {
            let _ = eprintln!(rt;
                "{PROGRAM}: {out}/{program}.link: the imports of its modules are refused ({number})"
            );
        }
        LinkFault::Pages(pages) => say_pages(rt, out, program, pages),
    }
    Ok(REFUSED)
}

/// Writes link into this folder. The status.
fn write_link<R: Files + Eprint + AllocGlobal>(rt: &R, out: &str, link: &[u8]) -> Result<u8> {
    let mut dir = OutFolder::at(rt, out);
    match save(rt.alloc(), link, &[], &mut dir) {
        Ok(()) => Ok(LINKED),
        Err(SaveFault::NoMemory) => Err(anyhow::Error::from(AllocError)),
        Err(SaveFault::Device) => {
            let fault = dir.fault();
            let _ = eprintln!(rt; "{PROGRAM}: {fault}");
            Ok(FAILED)
        }
    }
}

/// Links the program module of this name with the modules that it imports, all of which were compiled into this folder, for a memory of
/// so many pages. If they do not fit together, that is said, and nothing is written. The status.
pub fn link_program<R: Files + Eprint + AllocGlobal>(
    rt: &R,
    program: &str,
    out: &str,
    pages: u32,
) -> Result<u8, Exit> {
    if !is_name(program) {
        let _ = eprintln!(rt; "{PROGRAM}: link takes the name of a program module, not {program}");
        return Ok(COMMAND_LINE);
    }
    let parts = parts_in(rt, out, program)?;
    match link_modules(rt.alloc(), &parts, pages) {
        Ok(link) => Ok(write_link(rt, out, &link)?),
        Err(fault) => Ok(say_fault(rt, out, &parts, fault)?),
    }
}
