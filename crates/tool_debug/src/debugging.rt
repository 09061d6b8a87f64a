//! A program is built, and lines of standard input are answered.

use anyhow::Result;
use command_words::{Exit, FAILED};
use debug_protocol::{Program, Session, follow};
use std::io;
use std::rt::Files;
use std::thread::Threads;
use tool_builds::{Ready, load_given};
use tool_output::say_output_fault;
use tool_words::{Given, PROGRAM, Style};

/// The status of a session that is over.
const ENDED: u8 = 0;

/// What is written in front of a line that is typed at a terminal.
const PROMPT: &[u8] = b"> ";

/// A terminal, or the streams that stand for one.
#[derive(Drop)]
struct Terminal<P> {
    out: P,
    /// Whether a person types.
    is_typed: bool,
}

impl<P: Print> Terminal<P> {
    /// Writes what is said, and waits for a line.
    fn write(&mut self, bytes: &[u8]) -> io::Result<()> {
        self.out.write_all(bytes)?;
        if self.is_typed {
            self.out.write_all(PROMPT)?;
        }
        Ok(())
    }
}

/// Answers lines until the session is over. The status.
fn answer_lines<R, P>(rt: &R, session: &mut Session<'_>, terminal: &mut Terminal<P>) -> Result<u8>
where
    R: Input + Eprint + AllocGlobal + Threads + Sync,
    P: Print,
{
    for line in rt.lines(rt.alloc()) {
        let line = match line {
            Ok(line) => line,
            Err(error) => {
                let _ = eprintln!(rt; "{PROGRAM}: standard input: {error}");
                return Ok(FAILED);
            }
        };
        let said = session.answer(rt, line.as_str())?;
        if session.is_over {
            return Ok(ENDED);
        }
        if let Err(error) = terminal.write(&said) {
            say_output_fault(rt, &error);
            return Ok(FAILED);
        }
    }
    Ok(ENDED)
}

/// Says that a program cannot be followed. The status.
fn say_unwatched<R: Eprint>(rt: &R, path: &str) -> u8 {
    let _ = eprintln!(rt;
        "{PROGRAM}: {path} cannot be followed: with its marks it is too long, or nests too deep"
    );
    FAILED
}

/// A session with a program that can be followed. The status.
fn debug_followed<R, P>(
    rt: &R,
    path: &str,
    program: Program<'_>,
    terminal: &mut Terminal<P>,
) -> Result<u8>
where
    R: Input + Eprint + AllocGlobal + Threads + Sync,
    P: Print,
{
    let alloc = rt.alloc();
    let mut session = Session::new(alloc, program)?;
    let words = format!(in alloc; "{path} is ready; help lists the commands\n")?;
    if let Err(error) = terminal.write(words.as_bytes()) {
        say_output_fault(rt, &error);
        return Ok(FAILED);
    }
    answer_lines(rt, &mut session, terminal)
}

/// A session with a program, which makes at most `steps` reductions. Commands come from standard input, and answers go to this
/// stream. The status.
pub fn debug_file<R, P>(
    rt: &R,
    given: &Given,
    steps: u64,
    is_typed: bool,
    out: P,
) -> Result<u8, Exit>
where
    R: Files + Input + Print + Eprint + AllocGlobal + Threads + Sync,
    P: Print + Drop,
{
    let (setting, path) = (&given.setting, given.program.as_str());
    let Ready { found, program } = load_given(rt, setting, path, &given.input)?;
    drop(program);
    let Some(followed) = follow(rt, &found.files, setting.options)? else {
        return Ok(say_unwatched(rt, path));
    };
    let is_coloured = setting.style == Style::Coloured;
    let program = followed.program(&found.files, setting.options, steps, is_coloured);
    let mut terminal = Terminal { out, is_typed };
    Ok(debug_followed(rt, path, program, &mut terminal)?)
}
