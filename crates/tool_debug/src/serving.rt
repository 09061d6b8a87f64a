//! `m2 debug --dap`: an editor is served over the standard streams.

use crate::wire::Wire;
use anyhow::Result;
use command_words::{Exit, FAILED};
use debug_protocol::{Adapter, Followed, Outgoing, Request, Session, follow};
use find_files::{Program as FoundProgram, find_program};
use m2_tree::Refusal;
use pool_board::Open;
use run_program::{Loaded, load_program};
use std::alloc::{AllocError, Global};
use std::fmt::Write as Text;
use std::io::Read;
use std::rt::Files;
use std::thread::Threads;
use tool_builds::give_input;
use tool_words::Setting;

/// The status of a session that is over.
const ENDED: u8 = 0;

/// A program that is launched.
#[derive(Drop)]
struct Launched {
    found: FoundProgram,
    followed: Followed,
}

/// What comes of a launch.
#[derive(Drop)]
enum Launch {
    Ready(Launched),
    /// Why there is nothing to follow, in a sentence.
    Refused(String),
}

/// Answers what this server can do.
fn answer_abilities(request: &Request, out: &mut Outgoing) -> Result<(), AllocError> {
    let mut body = out.begin_body();
    body.flag_member("supportsConditionalBreakpoints", true);
    body.flag_member("supportsConfigurationDoneRequest", true);
    body.flag_member("supportsEvaluateForHovers", true);
    body.flag_member("supportsStepBack", true);
    out.answer(request, body)
}

/// A launch that is refused with a sentence.
fn refused(alloc: Global, words: &str) -> Result<Launch, AllocError> {
    Ok(Launch::Refused(String::from_str(alloc, words)?))
}

/// What is refused of a program.
fn words_of(alloc: Global, refusals: &[Refusal]) -> Result<String, AllocError> {
    let mut words = String::new(alloc);
    for refusal in refusals {
        write!(words, "{refusal}\n")?;
    }
    Ok(words)
}

/// Builds a program that was found.
fn launch_found<R>(rt: &R, setting: &Setting, found: FoundProgram) -> Result<Launch>
where
    R: AllocGlobal + Threads + Sync,
{
    let alloc = rt.alloc();
    match load_program(rt, alloc, &found.files, setting.options, &Open) {
        Ok(Loaded::Refused(refusals)) => {
            return Ok(Launch::Refused(words_of(alloc, &refusals)?));
        }
        Ok(Loaded::Ready(_)) => {}
        Err(_) => return Ok(refused(alloc, "the program cannot be built")?),
    }
    match follow(rt, &found.files, setting.options)? {
        None => Ok(refused(
            alloc,
            "with its marks the program is too long, or nests too deep",
        )?),
        Some(followed) => Ok(Launch::Ready(Launched { found, followed })),
    }
}

/// Finds and builds the program that a request names.
fn follow_launch<R>(rt: &R, setting: &Setting, request: &Request) -> Result<Launch>
where
    R: Files + Input + Eprint + AllocGlobal + Threads + Sync,
{
    let alloc = rt.alloc();
    let Some(path) = request.text("program") else {
        return Ok(refused(alloc, "launch names no program")?);
    };
    let Ok(mut found) = find_program(rt, setting, path) else {
        return Ok(refused(alloc, "the program is not found; standard error says more")?);
    };
    let input = match request.text("input") {
        None => None,
        Some(input) => Some(String::from_str(alloc, input)?),
    };
    if give_input(rt, path, &input, &mut found).is_err() {
        return Ok(refused(alloc, "the input cannot be read; standard error says more")?);
    }
    launch_found(rt, setting, found)
}

/// Answers the requests of a session with a program. The status.
fn serve_program<R, I, P>(
    rt: &R,
    setting: &Setting,
    steps: u64,
    launched: &Launched,
    stops_first: bool,
    out: Outgoing,
    wire: &mut Wire<I, P>,
) -> Result<u8>
where
    R: Eprint + AllocGlobal + Threads + Sync,
    I: Read,
    P: Print,
{
    let files = &launched.found.files;
    let program = launched
        .followed
        .program(files, setting.options, steps, false);
    let mut adapter = Adapter {
        session: Session::new(rt.alloc(), program)?,
        out,
        stops_first,
        is_over: false,
    };
    for _ in 0..u64::MAX {
        if !wire.write(rt, &mut adapter.out)? {
            return Ok(FAILED);
        }
        if adapter.is_over {
            break;
        }
        match wire.next_request(rt)? {
            None => break,
            Some(request) => adapter.answer(rt, &request)?,
        }
    }
    Ok(ENDED)
}

/// Answers a request that comes before the launch. The program, if it launches one.
fn answer_first<R>(
    rt: &R,
    setting: &Setting,
    request: &Request,
    out: &mut Outgoing,
) -> Result<Option<Launched>>
where
    R: Files + Input + Eprint + AllocGlobal + Threads + Sync,
{
    match request.command.as_str() {
        "initialize" => answer_abilities(request, out)?,
        "launch" => match follow_launch(rt, setting, request)? {
            Launch::Refused(words) => out.refuse(request, words.as_str())?,
            Launch::Ready(launched) => {
                out.accept(request)?;
                let nothing = out.begin_body();
                out.tell("initialized", nothing)?;
                return Ok(Some(launched));
            }
        },
        "disconnect" | "terminate" => out.accept(request)?,
        _ => out.refuse(request, "launch comes first")?,
    }
    Ok(None)
}

/// Whether this request ends the session before it began.
fn is_last(request: &Request) -> bool {
    matches!(request.command.as_str(), "disconnect" | "terminate")
}

/// Serves an editor by the Debug Adapter Protocol: messages come from standard input, and answers go to this stream. The program that
/// it launches makes at most `steps` reductions. The status. An error if memory ran out.
pub fn serve_debugger<R, P>(rt: &R, setting: &Setting, steps: u64, out: P) -> Result<u8, Exit>
where
    R: Files + Input + Eprint + AllocGlobal + Threads + Sync,
    P: Print + Drop,
{
    let mut wire = Wire::new(rt.alloc(), rt.reader(), out)?;
    let mut outgoing = Outgoing::new(rt.alloc());
    for _ in 0..u64::MAX {
        let Some(request) = wire.next_request(rt)? else {
            break;
        };
        if let Some(launched) = answer_first(rt, setting, &request, &mut outgoing)? {
            let stops_first = request.is_set("stopOnEntry");
            return Ok(serve_program(
                rt,
                setting,
                steps,
                &launched,
                stops_first,
                outgoing,
                &mut wire,
            )?);
        }
        if !wire.write(rt, &mut outgoing)? {
            return Ok(FAILED);
        }
        if is_last(&request) {
            break;
        }
    }
    Ok(ENDED)
}
