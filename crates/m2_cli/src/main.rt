//! The one tool for people: `m2 run`, `m2 build`, `m2 compile`, `m2 link`, `m2 graph`, `m2 check`, `m2 test`, `m2 debug`,
//! `m2 lsp`, `m2 input`, `m2 fmt`, `m2 doc`, `m2 show`, `m2 explain` and `m2 new`.
//!
//! The words of the command line are read first. Then the modules that a program imports are found in folders, and the whole
//! is built in memory. `run` executes what was built, `build` writes it into a folder, and `check` does neither. What is
//! refused is a line each on standard output, and explained on standard error. All that this program says itself goes there.
//!
//! The statuses are the statuses of `m2c` for what is refused, and of `m2run` for runs: see docs/statuses.md.
#![tactic(auto)]

use anyhow::Result;
use command_words::{Exit, FAILED};
use create_program::create;
use document_modules::Kind;
use judge_cases::Limits;
use std::io::IsTerminal;
use std::process::ExitCode;
use std::rt::{Env, Files};
use std::thread::Threads;
use tool_builds::{Wanted, build_into, build_single, check_all, exchange_input};
use tool_debug::{debug_file, serve_debugger};
use tool_modules::{compile_file, link_program, show_imports};
use tool_runs::{cost_file, run_file};
use tool_server::serve_editor;
use tool_tests::{test_class, test_program};
use tool_texts::{document_folder, explain, format_all, show_pass};
use tool_words::{
    Asked, BuildRequest, PROGRAM, RunRequest, TestRequest, TextRequest, read_command_line,
};

/// Does what was asked of runs. Lines of standard input may be typed at a terminal.
fn run<R, P>(rt: &R, request: &RunRequest, out: P, is_typed: bool) -> Result<u8, Exit>
where
    R: Files + Input + Print + Eprint + AllocGlobal + Threads + Sync,
    P: Print + Drop,
{
    match request {
        RunRequest::Run { given, steps, told } => run_file(rt, given, *steps, told, out),
        RunRequest::Cost {
            program,
            inputs,
            setting,
            steps,
            plot,
        } => cost_file(rt, setting, program.as_str(), inputs, *steps, plot, out),
        RunRequest::Debug { given, steps } => debug_file(rt, given, *steps, is_typed, out),
        RunRequest::Adapt { setting, steps } => serve_debugger(rt, setting, *steps, out),
    }
}

/// Does what was asked of builds.
fn build<R>(rt: &R, request: &BuildRequest) -> Result<u8, Exit>
where
    R: Files + Input + Print + Eprint + AllocGlobal + Threads + Sync,
{
    match request {
        BuildRequest::Build {
            given,
            out,
            deps,
            is_mapped,
            is_fresh,
        } => {
            let wanted = Wanted {
                input: &given.input,
                out: out.as_str(),
                deps,
                is_mapped: *is_mapped,
                is_fresh: *is_fresh,
            };
            build_into(rt, &given.setting, given.program.as_str(), &wanted)
        }
        BuildRequest::Single { given, host, out } => build_single(rt, given, *host, out.as_str()),
        BuildRequest::Compile {
            file,
            setting,
            out,
            deps,
            from,
        } => compile_file(rt, setting, file.as_str(), out, deps, from),
        BuildRequest::Link {
            program,
            out,
            pages,
        } => link_program(rt, program.as_str(), out.as_str(), *pages),
        BuildRequest::Graph {
            program,
            setting,
            drawn,
            out,
        } => show_imports(rt, setting, program.as_str(), *drawn, out.as_str()),
        BuildRequest::Input {
            folder,
            input,
            setting,
        } => exchange_input(rt, setting, folder.as_str(), input.as_str()),
    }
}

/// Does what was asked of texts.
fn show<R>(rt: &R, request: &TextRequest) -> Result<u8, Exit>
where
    R: Files + Input + Print + Eprint + AllocGlobal + Threads + Sync + Clone + Drop,
{
    match request {
        TextRequest::Check {
            programs,
            setting,
            fix,
        } => check_all(rt, setting, programs, *fix),
        TextRequest::Show {
            pass,
            program,
            setting,
        } => show_pass(rt, setting, *pass, program.as_str()),
        TextRequest::Format {
            files,
            layout,
            style,
        } => format_all(rt, *style, files, *layout),
        TextRequest::Document {
            folder,
            out,
            is_html,
            style,
        } => {
            let kind = if *is_html { Kind::Html } else { Kind::Markdown };
            document_folder(rt, *style, folder.as_str(), out.as_str(), kind)
        }
    }
}

/// Judges a program, or each of a class.
fn judge<R>(rt: &R, request: &TestRequest) -> Result<u8, Exit>
where
    R: Files + Input + Print + Eprint + AllocGlobal + Threads + Sync + Clone + Drop,
{
    let limits = Limits {
        steps: request.steps,
        bytes: request.bytes as usize,
    };
    let (setting, told) = (&request.setting, request.told);
    let (program, cases) = (request.program.as_str(), request.cases.as_str());
    if request.is_class {
        let is_compared = request.is_compared;
        test_class(rt, setting, program, cases, is_compared, told, limits)
    } else {
        test_program(rt, setting, program, cases, told, limits)
    }
}

/// Does what was asked for, and answers the status. Lines of standard input may be typed at a terminal. An error if memory or a stream failed.
fn answer<R, P>(rt: &R, asked: &Asked, out: P, is_typed: bool) -> Result<u8, Exit>
where
    R: Files + Input + Env + Print + Eprint + AllocGlobal + Threads + Sync + Clone + Drop,
    P: Print + Drop,
{
    match asked {
        Asked::Run(request) => run(rt, request, out, is_typed),
        Asked::Build(request) => build(rt, request),
        Asked::Text(request) => show(rt, request),
        Asked::Test(request) => judge(rt, request),
        Asked::Serve { setting } => serve_editor(rt, setting, out),
        Asked::Explain { topic } => Ok(explain(rt, topic.as_str())),
        Asked::New { name, is_class } => Ok(create(rt, name.as_str(), *is_class)?),
    }
}

/// Does what the words ask for, and answers the status.
fn elaborate<R, P>(rt: &R, out: P, is_terminal: bool, is_typed: bool) -> Result<u8, Exit>
where
    R: Files + Input + Env + Print + Eprint + AllocGlobal + Threads + Sync + Clone + Drop,
    P: Print + Drop,
{
    let asked = read_command_line(rt, is_terminal)?;
    answer(rt, &asked, out, is_typed)
}

fn main(rt: HostRuntime) -> ExitCode {
    let (is_terminal, is_typed) = (rt.stderr().is_terminal(), rt.stdin().is_terminal());
    match elaborate(&rt, rt.stdout(), is_terminal, is_typed).or_else(Exit::status) {
        Ok(status) => ExitCode::from(status),
        Err(error) => {
            let _ = eprintln!(rt; "{PROGRAM}: {error}");
            ExitCode::from(FAILED)
        }
    }
}
