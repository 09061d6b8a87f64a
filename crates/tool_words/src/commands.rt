//! The commands of `m2`, and the words and options of each.

use crate::PROGRAM;
use anyhow::Result;
use build_words::{memory_option, workers_option};
use clap::{Arg, ArgAction, Command};
use command_words::{VERSION, steps_option};
use std::alloc::Global;

/// The name of the word for the program's file.
pub(crate) const FILE: &str = "PROGRAM";

/// The name of the word for a folder with a program that is built.
pub(crate) const DIR: &str = "DIR";

/// The name of the word for the file that a program that is built reads.
pub(crate) const INPUT_FILE: &str = "FILE";

/// The name of the word for the folder of cases.
pub(crate) const CASES: &str = "CASES";

/// The name of the word for a module.
pub(crate) const MODULE: &str = "MODULE";

/// The name of the word for a text.
pub(crate) const TEXT: &str = "TEXT";

/// The names of the options of which files have another layout, and of what would change.
pub(crate) const CHECK: &str = "check";

pub(crate) const DIFF: &str = "diff";

/// The name of the option for a class.
pub(crate) const EACH: &str = "each";

/// The name of the option for work that was handed in twice.
pub(crate) const SAME: &str = "same";

/// The name of the option that writes mends.
pub(crate) const FIX: &str = "fix";

/// The name of the option that writes them without asking.
pub(crate) const YES: &str = "yes";

/// The name of the option for an exercise.
pub(crate) const CLASS: &str = "class";

/// The name of the option for what a case may print.
pub(crate) const BYTES: &str = "bytes";

/// The name of the option for a profile.
pub(crate) const PROFILE: &str = "profile";

/// The name of the option for the lines that did not run.
pub(crate) const COVERAGE: &str = "coverage";

/// The names of the options for files into which it is written what ran.
pub(crate) const LISTING: &str = "listing";

pub(crate) const FLAME: &str = "flame";

pub(crate) const CALLGRIND: &str = "callgrind";

pub(crate) const LCOV: &str = "lcov";

/// The names of the options for a trace, and for its lines.
pub(crate) const TRACE: &str = "trace";

pub(crate) const TRACE_LIMIT: &str = "trace-limit";

/// The name of the option for editors.
pub(crate) const DAP: &str = "dap";

/// The names of the options for what runs with several inputs cost.
pub(crate) const COST: &str = "cost";

pub(crate) const COST_SVG: &str = "cost-svg";

/// The name of the option for standard streams.
pub(crate) const STDIO: &str = "stdio";

/// The name of the option for what the program reads.
pub(crate) const INPUT: &str = "input";

/// The name of the option for the folder of the modules.
pub(crate) const OUT: &str = "out";

/// The name of the option for the file that says what was read.
pub(crate) const DEPS: &str = "deps";

/// The name of the option for maps.
pub(crate) const MAP: &str = "map";

/// The name of the option for a build that takes nothing of an earlier one.
pub(crate) const FRESH: &str = "fresh";

/// The name of the option for the folder that is searched first.
pub(crate) const FROM: &str = "from";

/// The name of the option for pages in HTML.
pub(crate) const HTML: &str = "html";

/// The name of the option for one module.
pub(crate) const SINGLE: &str = "single";

/// The name of the option for the host of one module.
pub(crate) const HOST: &str = "host";

/// What a word or an option is.
#[derive(Clone, Copy)]
enum Sort {
    /// A word that must be there.
    Word,
    /// One word or more.
    Words,
    /// A word, or none.
    AnyWord,
    /// Words, or none.
    AnyWords,
    /// An option without a value.
    Flag,
    /// An option with a value, of which this is the name.
    Value(&'static str),
    /// The same of an option that must be there.
    Needed(&'static str),
    /// An option with values, each behind its own word.
    Values(&'static str),
    /// An option with a value, which is the second of these if none is given.
    Usual(&'static str, &'static str),
}

/// A word or an option of a command.
#[derive(Clone, Copy)]
struct Row {
    name: &'static str,
    sort: Sort,
    help: &'static str,
}

/// The options that a command has beside its own.
#[derive(Clone, Copy, PartialEq, Eq)]
enum Group {
    /// How programs are found and built, and how refusals are shown.
    Setting,
    /// How programs are found and built.
    Building,
    /// How refusals are shown.
    Style,
    /// How many pages of memory a program has.
    Memory,
    None,
}

/// A command.
#[derive(Clone, Copy)]
struct Entry {
    name: &'static str,
    about: &'static str,
    rows: &'static [Row],
    /// Whether it takes `--steps`.
    has_steps: bool,
    group: Group,
}

/// What is said of the word for the program's file.
const PROGRAM_HELP: &str = "The file of the program module; m2 finds the modules that it imports";

/// The word for the program's file.
const PROGRAM_ROW: Row = Row {
    name: FILE,
    sort: Sort::Word,
    help: PROGRAM_HELP,
};

/// The option `--input`.
const INPUT_ROW: Row = Row {
    name: INPUT,
    sort: Sort::Value("FILE"),
    help: "What a program that imports Input reads; - is standard input, to its end",
};

/// The option `--deps`.
const DEPS_ROW: Row = Row {
    name: DEPS,
    sort: Sort::Value("FILE"),
    help: "Writes in make's form what was written, and each file that was read for it",
};

/// What is said of the option for the folder of the modules.
const OUT_HELP: &str = "The folder into which the modules are written";

/// The option `--out` of those that write modules.
const OUT_ROW: Row = Row {
    name: OUT,
    sort: Sort::Value("DIR"),
    help: OUT_HELP,
};

const LIBRARY_ROWS: [Row; 2] = [
    Row {
        name: "lib",
        sort: Sort::Values("DIR"),
        help: "A folder to search for modules; M2_LIB names more",
    },
    Row {
        name: "verbose",
        sort: Sort::Flag,
        help: "Says which files are found, and why build compiles each module",
    },
];

const STYLE_ROWS: [Row; 2] = [
    Row {
        name: "format",
        sort: Sort::Usual("FORMAT", "text"),
        help: "How refusals and faults are shown: text, or json for other programs",
    },
    Row {
        name: "color",
        sort: Sort::Usual("WHEN", "auto"),
        help: "Whether the mark under a refusal is red: auto, never or always",
    },
];

const RUN_ROWS: [Row; 12] = [
    PROGRAM_ROW,
    INPUT_ROW,
    Row {
        name: PROFILE,
        sort: Sort::Flag,
        help: "Says how often each procedure and line ran, and for how many reductions",
    },
    Row {
        name: COVERAGE,
        sort: Sort::Flag,
        help: "Says on which lines nothing ran",
    },
    Row {
        name: LISTING,
        sort: Sort::Value("FILE"),
        help: "Writes the source with what each line took, and how often it ran, in front of it",
    },
    Row {
        name: FLAME,
        sort: Sort::Value("FILE"),
        help: "Writes a picture (SVG) of the calls: the wider, the more reductions",
    },
    Row {
        name: CALLGRIND,
        sort: Sort::Value("FILE"),
        help: "Writes the profile as callgrind does, for KCachegrind",
    },
    Row {
        name: LCOV,
        sort: Sort::Value("FILE"),
        help: "Writes which lines ran how often, for lcov",
    },
    Row {
        name: TRACE,
        sort: Sort::Value("FILE"),
        help: "Writes a line for each statement that ran, with the variables that it changed",
    },
    Row {
        name: TRACE_LIMIT,
        sort: Sort::Usual("N", "1000000"),
        help: "The most lines of the trace, from 1 to 1000000000",
    },
    Row {
        name: COST,
        sort: Sort::Values("FILE"),
        help: "An input, and further ones: says how the reductions grow with the size of the input",
    },
    Row {
        name: COST_SVG,
        sort: Sort::Value("FILE"),
        help: "With --cost: plots the reductions (SVG), with logarithmic scales",
    },
];

const DEBUG_ROWS: [Row; 3] = [
    Row {
        name: FILE,
        sort: Sort::AnyWord,
        help: PROGRAM_HELP,
    },
    INPUT_ROW,
    Row {
        name: DAP,
        sort: Sort::Flag,
        help: "Serves an editor by the Debug Adapter Protocol over its standard streams",
    },
];

const BUILD_ROWS: [Row; 8] = [
    PROGRAM_ROW,
    INPUT_ROW,
    OUT_ROW,
    DEPS_ROW,
    Row {
        name: MAP,
        sort: Sort::Flag,
        help: "Writes M.map beside each M.wasm, by which m2run and node tell where a fault was",
    },
    Row {
        name: FRESH,
        sort: Sort::Flag,
        help: "Takes nothing of an earlier build",
    },
    Row {
        name: SINGLE,
        sort: Sort::Value("FILE"),
        help: "The file into which the program is written as one module, in place of --out",
    },
    Row {
        name: HOST,
        sort: Sort::Value("HOST"),
        help: "What this module imports: wasi for WASI preview 1, or plain for put and stop",
    },
];

const COMPILE_ROWS: [Row; 4] = [
    Row {
        name: TEXT,
        sort: Sort::Word,
        help: "The file of the body, or of the definition",
    },
    OUT_ROW,
    DEPS_ROW,
    Row {
        name: FROM,
        sort: Sort::Value("DIR"),
        help: "The folder that is searched first, in place of the module's own",
    },
];

const LINK_ROWS: [Row; 2] = [
    Row {
        name: MODULE,
        sort: Sort::Word,
        help: "The name of the program module",
    },
    Row {
        name: OUT,
        sort: Sort::Needed("DIR"),
        help: OUT_HELP,
    },
];

const GRAPH_ROWS: [Row; 3] = [
    PROGRAM_ROW,
    Row {
        name: "format",
        sort: Sort::Usual("FORMAT", "dot"),
        help: "dot for graphviz, json for other programs, or ninja or make for the steps",
    },
    Row {
        name: OUT,
        sort: Sort::Usual("DIR", "out"),
        help: "The folder into which the steps write the modules",
    },
];

const INPUT_ROWS: [Row; 2] = [
    Row {
        name: DIR,
        sort: Sort::Word,
        help: "The folder into which the program was built",
    },
    Row {
        name: INPUT_FILE,
        sort: Sort::Word,
        help: "What the program reads; - is standard input, to its end",
    },
];

const CHECK_ROWS: [Row; 3] = [
    Row {
        name: FILE,
        sort: Sort::Words,
        help: PROGRAM_HELP,
    },
    Row {
        name: FIX,
        sort: Sort::Flag,
        help: "Writes mends with which the program is accepted, after asking for each file",
    },
    Row {
        name: YES,
        sort: Sort::Flag,
        help: "With --fix: writes them without asking",
    },
];

const TEST_ROWS: [Row; 6] = [
    PROGRAM_ROW,
    Row {
        name: CASES,
        sort: Sort::Word,
        help: "The folder of the cases: NAME.out, and NAME.in and NAME.status if need be",
    },
    Row {
        name: EACH,
        sort: Sort::Flag,
        help: "PROGRAM is a pattern with stars; each program that fits it is judged, one line each",
    },
    Row {
        name: SAME,
        sort: Sort::Flag,
        help: "With --each: says which programs differ only in spaces and comments",
    },
    Row {
        name: BYTES,
        sort: Sort::Usual("N", "1048576"),
        help: "The most bytes that a case may print, from 1 to 16777216",
    },
    Row {
        name: "format",
        sort: Sort::Usual("FORMAT", "text"),
        help: "How verdicts are shown: text, json, tap or junit",
    },
];

const SHOW_ROWS: [Row; 2] = [
    Row {
        name: "PASS",
        sort: Sort::Word,
        help: "tokens or tree of the file, or types or code of all modules of the program",
    },
    PROGRAM_ROW,
];

const FMT_ROWS: [Row; 3] = [
    Row {
        name: TEXT,
        sort: Sort::Words,
        help: "The files to lay out in place; - is standard input, laid out on standard output",
    },
    Row {
        name: CHECK,
        sort: Sort::Flag,
        help: "Prints the names of the files that have another layout, and writes nothing",
    },
    Row {
        name: DIFF,
        sort: Sort::Flag,
        help: "Prints what would change as a unified diff, and writes nothing",
    },
];

const DOC_ROWS: [Row; 3] = [
    Row {
        name: DIR,
        sort: Sort::Word,
        help: "The folder of the definitions: all its files NAME.def",
    },
    Row {
        name: HTML,
        sort: Sort::Flag,
        help: "Writes HTML without scripts, in place of Markdown",
    },
    Row {
        name: OUT,
        sort: Sort::Usual("DIR", "doc"),
        help: "The folder of the pages, which is made if it is not there",
    },
];

const LSP_ROWS: [Row; 1] = [Row {
    name: STDIO,
    sort: Sort::Flag,
    help: "The streams are standard input and output, as without this",
}];

const EXPLAIN_ROWS: [Row; 1] = [Row {
    name: "TOPIC",
    sort: Sort::AnyWords,
    help: "The number of a refusal, such as 40; or fault 2, status 3, profile, input",
}];

const NEW_ROWS: [Row; 2] = [
    Row {
        name: "NAME",
        sort: Sort::Word,
        help: "The name of the program module",
    },
    Row {
        name: CLASS,
        sort: Sort::Flag,
        help: "Writes an exercise: a solution, and a folder of cases for m2 test",
    },
];

/// The commands, in the order in which they are listed.
const COMMANDS: [Entry; 15] = [
    Entry {
        name: "run",
        about: "Compiles a program in memory and runs it",
        rows: &RUN_ROWS,
        has_steps: true,
        group: Group::Setting,
    },
    Entry {
        name: "debug",
        about: "Goes through a run, forwards and backwards, by commands; the command help lists them",
        rows: &DEBUG_ROWS,
        has_steps: true,
        group: Group::Setting,
    },
    Entry {
        name: "build",
        about: "Compiles a program to WebAssembly modules, link.wasm last, or to one module",
        rows: &BUILD_ROWS,
        has_steps: false,
        group: Group::Setting,
    },
    Entry {
        name: "compile",
        about: "Compiles one module: M.mod to M.wasm and M.link, or checks the definition M.def",
        rows: &COMPILE_ROWS,
        has_steps: false,
        group: Group::Setting,
    },
    Entry {
        name: "link",
        about: "Links modules that m2 compile wrote: writes link.wasm beside them",
        rows: &LINK_ROWS,
        has_steps: false,
        group: Group::Memory,
    },
    Entry {
        name: "graph",
        about: "Shows what the modules of a program import, or the steps that build it",
        rows: &GRAPH_ROWS,
        has_steps: false,
        group: Group::Building,
    },
    Entry {
        name: "input",
        about: "Gives a built program another input: writes InputBytes.wasm and link.wasm anew",
        rows: &INPUT_ROWS,
        has_steps: false,
        group: Group::Setting,
    },
    Entry {
        name: "check",
        about: "Says which rules a program breaks, and how it can be mended",
        rows: &CHECK_ROWS,
        has_steps: false,
        group: Group::Setting,
    },
    Entry {
        name: "test",
        about: "Judges a program by cases: what it prints and how it ends, for each input",
        rows: &TEST_ROWS,
        has_steps: true,
        group: Group::Building,
    },
    Entry {
        name: "show",
        about: "Shows what a pass makes of a program: tokens, tree, types or code",
        rows: &SHOW_ROWS,
        has_steps: false,
        group: Group::Setting,
    },
    Entry {
        name: "fmt",
        about: "Lays out texts in one style: spaces, levels and lines of up to 100 columns",
        rows: &FMT_ROWS,
        has_steps: false,
        group: Group::Style,
    },
    Entry {
        name: "doc",
        about: "Writes pages of what the definitions of a folder export, and an index",
        rows: &DOC_ROWS,
        has_steps: false,
        group: Group::Style,
    },
    Entry {
        name: "lsp",
        about: "Serves editors by the Language Server Protocol over its standard streams",
        rows: &LSP_ROWS,
        has_steps: false,
        group: Group::Building,
    },
    Entry {
        name: "explain",
        about: "Says what a refusal, a fault or a status means; without a topic, lists all",
        rows: &EXPLAIN_ROWS,
        has_steps: false,
        group: Group::None,
    },
    Entry {
        name: "new",
        about: "Writes a program that runs, and a module for it",
        rows: &NEW_ROWS,
        has_steps: false,
        group: Group::None,
    },
];

/// The word or the option of a row.
fn arg_of<'a>(alloc: Global, row: Row) -> Arg<'a> {
    let arg = Arg::new(alloc, row.name).help(row.help);
    match row.sort {
        Sort::Word => arg.required(true),
        Sort::AnyWord => arg,
        Sort::Words => arg.required(true).action(ArgAction::Append).num_args(1..),
        Sort::AnyWords => arg.action(ArgAction::Append).num_args(1..),
        Sort::Flag => arg.long(row.name).action(ArgAction::SetTrue),
        Sort::Value(value) => arg.long(row.name).value_name(value),
        Sort::Needed(value) => arg.long(row.name).value_name(value).required(true),
        Sort::Values(value) => arg
            .long(row.name)
            .value_name(value)
            .action(ArgAction::Append),
        Sort::Usual(value, usual) => arg.long(row.name).value_name(value).default_value(usual),
    }
}

/// A command with one more word or option.
fn with_arg<'a>(command: Command<'a>, arg: Arg<'a>) -> Result<Command<'a>> {
    Ok(command.arg(arg)?)
}

/// A command with the words and options of these rows.
fn with_rows<'a>(alloc: Global, command: Command<'a>, rows: &[Row]) -> Result<Command<'a>> {
    let mut command = command;
    for row in rows {
        command = with_arg(command, arg_of(alloc, *row))?;
    }
    Ok(command)
}

/// A command with the options that say how a program is found and built.
fn with_building<'a>(alloc: Global, command: Command<'a>) -> Result<Command<'a>> {
    let command = with_rows(alloc, command, &LIBRARY_ROWS)?;
    let command = with_arg(command, memory_option(alloc))?;
    with_arg(command, workers_option(alloc))
}

/// A command with the options of a group.
fn with_group<'a>(alloc: Global, command: Command<'a>, group: Group) -> Result<Command<'a>> {
    match group {
        Group::Setting => with_rows(alloc, with_building(alloc, command)?, &STYLE_ROWS),
        Group::Building => with_building(alloc, command),
        Group::Style => with_rows(alloc, command, &STYLE_ROWS),
        Group::Memory => with_arg(command, memory_option(alloc)),
        Group::None => Ok(command),
    }
}

/// The command of an entry.
fn command_of<'a>(alloc: Global, entry: &Entry) -> Result<Command<'a>> {
    let command = Command::new(alloc, entry.name).about(entry.about);
    let command = with_rows(alloc, command, entry.rows)?;
    if entry.has_steps {
        let command = with_arg(command, steps_option(alloc))?;
        return with_group(alloc, command, entry.group);
    }
    with_group(alloc, command, entry.group)
}

/// The command line of `m2`.
pub(crate) fn command<'a>(alloc: Global) -> Result<Command<'a>> {
    let mut command = Command::new(alloc, PROGRAM)
        .version(VERSION)
        .about("Runs, builds, checks, lays out, documents, shows and explains Modula-2 programs")
        .subcommand_required(true);
    for entry in &COMMANDS {
        command = command.subcommand(command_of(alloc, entry)?)?;
    }
    Ok(command)
}
