//! Messages are read, answered and written.

use crate::disk::{Disk, all_from_root};
use anyhow::Result;
use command_words::{Exit, FAILED};
use serve_messages::{Frame, Framer, framed};
use serve_requests::{Server, Setting as Served};
use std::alloc::Global;
use std::io::Read;
use std::rt::{Env, Files};
use std::thread::Threads;
use tool_words::{PROGRAM, Setting};

/// How many bytes are asked for at once.
const CHUNK: usize = 65536;

/// Writes messages with these bodies. The status, if that fails.
fn write_bodies<R: Eprint + AllocGlobal, P: Print>(
    rt: &R,
    bodies: &[Vec<u8>],
    out: &mut P,
) -> Result<Option<u8>> {
    for body in bodies {
        let message = framed(rt.alloc(), body)?;
        if let Err(error) = out.write_all(&message) {
            let _ = eprintln!(rt; "{PROGRAM}: standard output: {error}");
            return Ok(Some(FAILED));
        }
    }
    Ok(None)
}

/// Looks for requests that are not wanted any more.
fn look_ahead(alloc: Global, server: &mut Server, frames: &[Frame]) -> Result<()> {
    for frame in frames {
        if let Frame::Message(body) = frame {
            server.look_ahead(alloc, body)?;
        }
    }
    Ok(())
}

/// Answers messages. The status, if the server ends by one of them.
fn answer_frames<R, P>(
    rt: &R,
    server: &mut Server,
    frames: &[Frame],
    out: &mut P,
) -> Result<Option<u8>>
where
    R: Files + Eprint + AllocGlobal + Threads + Sync + Clone + Drop,
    P: Print,
{
    for frame in frames {
        let answer = match frame {
            Frame::Message(body) => server.answer(rt, &Disk { rt }, body)?,
            Frame::Broken(fault) => server.answer_broken(rt.alloc(), *fault)?,
        };
        let failed = write_bodies(rt, &answer.bodies, out)?;
        if failed.is_some() || answer.end.is_some() {
            return Ok(failed.or(answer.end));
        }
    }
    Ok(None)
}

/// Answers the messages that these bytes end, and then says what is refused. The status, if the server ends.
fn answer_bytes<R, P>(
    rt: &R,
    framer: &mut Framer,
    server: &mut Server,
    bytes: &[u8],
    out: &mut P,
) -> Result<Option<u8>>
where
    R: Files + Eprint + AllocGlobal + Threads + Sync + Clone + Drop,
    P: Print,
{
    let mut frames = Vec::new(rt.alloc());
    framer.feed(bytes, &mut frames)?;
    look_ahead(rt.alloc(), server, &frames)?;
    let end = answer_frames(rt, server, &frames, out)?;
    if end.is_some() {
        return Ok(end);
    }
    let bodies = server.settle(rt, &Disk { rt })?;
    let failed = write_bodies(rt, &bodies, out)?;
    server.prepare(rt.alloc(), &Disk { rt })?;
    Ok(failed)
}

/// What is asked of the programs that are served.
fn served<R: Env + AllocGlobal>(rt: &R, setting: &Setting) -> Result<Served> {
    Ok(Served {
        libraries: all_from_root(rt, &setting.libraries)?,
        workers: setting.options.workers,
        pages: setting.options.pages,
    })
}

/// Serves an editor that writes messages of the Language Server Protocol to standard input and reads answers from this stream, until
/// it says that this is the end, or until its messages end. The status: 0 if it asked for the end in order, else 1. An error if memory
/// ran out.
pub fn serve_editor<R, P>(rt: &R, setting: &Setting, out: P) -> Result<u8, Exit>
where
    R: Files + Input + Env + Eprint + AllocGlobal + Threads + Sync + Clone + Drop,
    P: Print + Drop,
{
    let mut out = out;
    let mut input = rt.reader();
    let mut framer = Framer::new(rt.alloc());
    let mut server = Server::new(rt.alloc(), served(rt, setting)?);
    let mut chunk = Vec::new(rt.alloc());
    chunk.resize(CHUNK, 0)?;
    for _ in 0..u64::MAX {
        let count = match input.read(&mut chunk) {
            Ok(count) => count,
            Err(error) => {
                let _ = eprintln!(rt; "{PROGRAM}: standard input: {error}");
                return Ok(FAILED);
            }
        };
        let bytes = chunk.get(..count).unwrap_or(&[]);
        if count == 0 {
            break;
        }
        if let Some(status) = answer_bytes(rt, &mut framer, &mut server, bytes, &mut out)? {
            return Ok(status);
        }
    }
    Ok(server.status_at_end())
}
