//! The words of the command line.

use crate::PROGRAM;
use crate::asked::{
    Asked, BuildRequest, Drawn, Fix, Given, Layout, Measured, Pass, RunRequest, Setting, Style,
    TestRequest, TextRequest, Told,
};
use crate::commands::{
    BYTES, CALLGRIND, CASES, CHECK, CLASS, COST, COST_SVG, COVERAGE, DAP, DEPS, DIFF, DIR, EACH,
    FILE, FIX, FLAME, FRESH, FROM, HOST, HTML, INPUT, INPUT_FILE, LCOV, LISTING, MAP, MODULE, OUT,
    PROFILE, SAME, SINGLE, TEXT, TRACE, TRACE_LIMIT, YES, command,
};
use crate::libraries::libraries_of;
use anyhow::Result;
use build_words::{options_of, pages_of};
use clap::ArgMatches;
use command_words::{
    COMMAND_LINE, Exit, are_named, command_line, is_named, matches_of, number_option, steps_of,
    strings_of,
};
use link_single::Host;
use std::alloc::Global;
use std::env::FillError;
use std::rt::{Env, Files};

/// The most bytes that a case may be allowed.
const MOST_BYTES: u64 = 16777216;

/// The most lines that a trace may be allowed.
const MOST_LINES: u64 = 1000000000;

/// The variable of those who want no colours, whatever its value is.
const NO_COLOUR: &str = "NO_COLOR";

/// Whether the other of two words was chosen. Any other word is reported.
fn choice_of<R: Eprint>(
    rt: &R,
    matches: &ArgMatches,
    id: &str,
    usual: &str,
    other: &str,
) -> Option<bool> {
    let word = matches.get_str(id).unwrap_or(usual);
    if word != usual && word != other {
        let _ = eprintln!(rt; "{PROGRAM}: --{id} takes {usual} or {other}, not {word}");
        return None;
    }
    Some(word == other)
}

/// Whether nobody asks for a terminal without colours.
fn may_be_coloured<R: Env>(rt: &R) -> bool {
    matches!(rt.var(NO_COLOUR, &mut []), Err(FillError::NotPresent))
}

/// Whether marks are red, which they are on this terminal if nothing is said. An unknown word is reported.
fn is_coloured<R: Eprint>(rt: &R, matches: &ArgMatches, usual: bool) -> Option<bool> {
    match matches.get_str("color").unwrap_or("auto") {
        "auto" => Some(usual),
        "always" => Some(true),
        "never" => Some(false),
        word => {
            let _ = eprintln!(rt; "{PROGRAM}: --color takes auto, never or always, not {word}");
            None
        }
    }
}

/// How refusals are shown. What they cannot be is reported.
fn style_of<R: Eprint>(rt: &R, matches: &ArgMatches, colours: bool) -> Option<Style> {
    let is_json = choice_of(rt, matches, "format", "text", "json")?;
    let is_coloured = is_coloured(rt, matches, colours)?;
    if is_json {
        return Some(Style::Json);
    }
    Some(if is_coloured {
        Style::Coloured
    } else {
        Style::Text
    })
}

/// How programs are found and built. What cannot be had is reported.
fn setting_of<R>(rt: &R, matches: &ArgMatches, colours: bool) -> Result<Setting, Exit>
where
    R: Files + Env + Eprint + AllocGlobal,
{
    let Some(style) = style_of(rt, matches, colours) else {
        return Err(Exit::Reported(COMMAND_LINE));
    };
    setting_in(rt, matches, style)
}

/// How programs are found and built, with refusals in this style. What cannot be had is reported.
fn setting_in<R>(rt: &R, matches: &ArgMatches, style: Style) -> Result<Setting, Exit>
where
    R: Files + Env + Eprint + AllocGlobal,
{
    let options = options_of(rt, PROGRAM, matches)?;
    let folders = matches.get_strs("lib").unwrap_or(&[]);
    Ok(Setting {
        options,
        libraries: libraries_of(rt, folders)?,
        is_verbose: matches.get_flag("verbose"),
        style,
    })
}

/// The value of an option or a word that names a file or a folder. An empty name is reported.
fn name_of<R>(rt: &R, matches: &ArgMatches, id: &str, said: &str) -> Result<String, Exit>
where
    R: Eprint + AllocGlobal,
{
    let name = matches.get_str(id).unwrap_or("");
    if !is_named(rt, PROGRAM, said, name) {
        return Err(Exit::Reported(COMMAND_LINE));
    }
    Ok(String::from_str(rt.alloc(), name)?)
}

/// The name of the file that an option names, if it is there. An empty name is reported.
fn file_of<R>(rt: &R, matches: &ArgMatches, id: &str, said: &str) -> Result<Option<String>, Exit>
where
    R: Eprint + AllocGlobal,
{
    if matches.get_str(id).is_none() {
        return Ok(None);
    }
    Ok(Some(name_of(rt, matches, id, said)?))
}

/// The name of the file that the program reads, if one is named. An empty name is reported.
fn input_of<R>(rt: &R, matches: &ArgMatches) -> Result<Option<String>, Exit>
where
    R: Eprint + AllocGlobal,
{
    file_of(rt, matches, INPUT, "--input")
}

/// The program, what it reads, and how it is built. What cannot be had is reported.
fn given_of<R>(rt: &R, matches: &ArgMatches, colours: bool) -> Result<Given, Exit>
where
    R: Files + Env + Eprint + AllocGlobal,
{
    Ok(Given {
        program: name_of(rt, matches, FILE, FILE)?,
        input: input_of(rt, matches)?,
        setting: setting_of(rt, matches, colours)?,
    })
}

/// Two names.
#[derive(Drop)]
struct Names {
    first: String,
    second: String,
}

/// The names of a word and of what stands behind it. An empty name is reported.
fn names_of<R>(
    rt: &R,
    matches: &ArgMatches,
    word: &str,
    other: &str,
    said: &str,
) -> Result<Names, Exit>
where
    R: Eprint + AllocGlobal,
{
    Ok(Names {
        first: name_of(rt, matches, word, word)?,
        second: name_of(rt, matches, other, said)?,
    })
}

/// The most lines of a trace. A number that they cannot be is reported.
fn lines_of<R: Eprint>(rt: &R, matches: &ArgMatches) -> Result<u64, Exit> {
    let text = matches.get_str(TRACE_LIMIT).unwrap_or("");
    number_option(rt, PROGRAM, TRACE_LIMIT, text, MOST_LINES).ok_or(Exit::Reported(COMMAND_LINE))
}

/// Reads the name of the file that an option names. An empty name is reported.
fn read_file<R>(
    rt: &R,
    matches: &ArgMatches,
    id: &str,
    said: &str,
    file: &mut Option<String>,
) -> Result<(), Exit>
where
    R: Eprint + AllocGlobal,
{
    *file = file_of(rt, matches, id, said)?;
    Ok(())
}

/// Reads into which files it is told what ran.
fn read_files<R>(rt: &R, matches: &ArgMatches, told: &mut Measured) -> Result<(), Exit>
where
    R: Eprint + AllocGlobal,
{
    read_file(rt, matches, LISTING, "--listing", &mut told.listing)?;
    read_file(rt, matches, FLAME, "--flame", &mut told.flame)?;
    read_file(rt, matches, CALLGRIND, "--callgrind", &mut told.callgrind)?;
    read_file(rt, matches, LCOV, "--lcov", &mut told.lcov)?;
    read_file(rt, matches, TRACE, "--trace", &mut told.trace)?;
    told.most_lines = lines_of(rt, matches)?;
    Ok(())
}

/// What is told of a run that is over.
fn measured_of<R>(rt: &R, matches: &ArgMatches) -> Result<Measured, Exit>
where
    R: Eprint + AllocGlobal,
{
    let mut told = Measured {
        is_profiled: matches.get_flag(PROFILE),
        is_covered: matches.get_flag(COVERAGE),
        listing: None,
        flame: None,
        callgrind: None,
        lcov: None,
        trace: None,
        most_lines: MOST_LINES,
    };
    read_files(rt, matches, &mut told)?;
    Ok(told)
}

/// How programs are built, and into which file what they cost is plotted.
fn plotted_of<R>(
    rt: &R,
    matches: &ArgMatches,
    colours: bool,
) -> Result<(Setting, Option<String>), Exit>
where
    R: Files + Env + Eprint + AllocGlobal,
{
    let setting = setting_of(rt, matches, colours)?;
    Ok((setting, file_of(rt, matches, COST_SVG, "--cost-svg")?))
}

fn cost_asked<R>(
    rt: &R,
    matches: &ArgMatches,
    colours: bool,
    inputs: &[&str],
) -> Result<RunRequest, Exit>
where
    R: Files + Env + Eprint + AllocGlobal,
{
    if matches.get_str(INPUT).is_some() {
        return Err(refuse(rt, "run takes --input or --cost, not both"));
    }
    if !are_named(rt, PROGRAM, "--cost", inputs) {
        return Err(Exit::Reported(COMMAND_LINE));
    }
    let steps = steps_of(rt, PROGRAM, matches)?;
    let program = name_of(rt, matches, FILE, FILE)?;
    let inputs = strings_of(rt.alloc(), inputs)?;
    let (setting, plot) = plotted_of(rt, matches, colours)?;
    Ok(RunRequest::Cost {
        program,
        inputs,
        setting,
        steps,
        plot,
    })
}

fn run_asked<R>(rt: &R, matches: &ArgMatches, colours: bool) -> Result<RunRequest, Exit>
where
    R: Files + Env + Eprint + AllocGlobal,
{
    if let Some(inputs) = matches.get_strs(COST) {
        return cost_asked(rt, matches, colours, inputs);
    }
    if matches.get_str(COST_SVG).is_some() {
        return Err(refuse(rt, "--cost-svg goes with --cost"));
    }
    let steps = steps_of(rt, PROGRAM, matches)?;
    let given = given_of(rt, matches, colours)?;
    let told = measured_of(rt, matches)?;
    Ok(RunRequest::Run { given, steps, told })
}

fn debug_asked<R>(rt: &R, matches: &ArgMatches, colours: bool) -> Result<RunRequest, Exit>
where
    R: Files + Env + Eprint + AllocGlobal,
{
    let is_served = matches.get_flag(DAP);
    if is_served && matches.get_str(FILE).is_some() {
        return Err(refuse(rt, "debug takes PROGRAM or --dap, not both"));
    }
    if is_served {
        return Ok(RunRequest::Adapt {
            steps: steps_of(rt, PROGRAM, matches)?,
            setting: setting_of(rt, matches, colours)?,
        });
    }
    if matches.get_str(FILE).is_none() {
        return Err(refuse(rt, "debug needs PROGRAM or --dap"));
    }
    let steps = steps_of(rt, PROGRAM, matches)?;
    let given = given_of(rt, matches, colours)?;
    Ok(RunRequest::Debug { given, steps })
}

/// Reports that words of the command line do not go together.
fn refuse<R: Eprint>(rt: &R, words: &str) -> Exit {
    let _ = eprintln!(rt; "{PROGRAM}: {words}");
    Exit::Reported(COMMAND_LINE)
}

/// The host of one module. Any other word is reported.
fn host_of<R: Eprint>(rt: &R, matches: &ArgMatches) -> Result<Host, Exit> {
    match choice_of(rt, matches, HOST, "wasi", "plain") {
        None => Err(Exit::Reported(COMMAND_LINE)),
        Some(false) => Ok(Host::Wasi),
        Some(true) => Ok(Host::Plain),
    }
}

fn single_asked<R>(rt: &R, matches: &ArgMatches, colours: bool) -> Result<BuildRequest, Exit>
where
    R: Files + Env + Eprint + AllocGlobal,
{
    if matches.get_str(OUT).is_some() {
        return Err(refuse(rt, "build takes --out or --single, not both"));
    }
    if matches.get_str(DEPS).is_some() {
        return Err(refuse(rt, "--deps goes with --out"));
    }
    if matches.get_flag(MAP) {
        return Err(refuse(rt, "--map goes with --out"));
    }
    if matches.get_flag(FRESH) {
        return Err(refuse(rt, "--fresh goes with --out"));
    }
    let host = host_of(rt, matches)?;
    let out = name_of(rt, matches, SINGLE, "--single")?;
    let given = given_of(rt, matches, colours)?;
    Ok(BuildRequest::Single { given, host, out })
}

/// Modules in a folder, or one module.
fn build_asked<R>(rt: &R, matches: &ArgMatches, colours: bool) -> Result<BuildRequest, Exit>
where
    R: Files + Env + Eprint + AllocGlobal,
{
    if matches.get_str(SINGLE).is_some() {
        return single_asked(rt, matches, colours);
    }
    if matches.get_str(HOST).is_some() {
        return Err(refuse(rt, "--host goes with --single"));
    }
    if matches.get_str(OUT).is_none() {
        return Err(refuse(rt, "build needs --out DIR or --single FILE"));
    }
    let out = name_of(rt, matches, OUT, "--out")?;
    let deps = file_of(rt, matches, DEPS, "--deps")?;
    let given = given_of(rt, matches, colours)?;
    Ok(BuildRequest::Build {
        given,
        out,
        deps,
        is_mapped: matches.get_flag(MAP),
        is_fresh: matches.get_flag(FRESH),
    })
}

/// What the imports of a program are drawn as. Any other word is reported.
fn drawn_of<R: Eprint>(rt: &R, word: &str) -> Option<Drawn> {
    match word {
        "dot" => Some(Drawn::Picture),
        "json" => Some(Drawn::Data),
        "ninja" => Some(Drawn::Ninja),
        "make" => Some(Drawn::Make),
        _ => {
            let _ = eprintln!(rt; "{PROGRAM}: --format takes dot, json, ninja or make, not {word}");
            None
        }
    }
}

fn graph_asked<R>(rt: &R, matches: &ArgMatches, colours: bool) -> Result<BuildRequest, Exit>
where
    R: Files + Env + Eprint + AllocGlobal,
{
    let Some(drawn) = drawn_of(rt, matches.get_str("format").unwrap_or("")) else {
        return Err(Exit::Reported(COMMAND_LINE));
    };
    let style = if colours {
        Style::Coloured
    } else {
        Style::Text
    };
    let names = names_of(rt, matches, FILE, OUT, "--out")?;
    let setting = setting_in(rt, matches, style)?;
    let Names { first, second } = names;
    Ok(BuildRequest::Graph {
        program: first,
        setting,
        drawn,
        out: second,
    })
}

/// The folder and the file into which a module is written. An empty name is reported.
fn written_of<R>(rt: &R, matches: &ArgMatches) -> Result<(Option<String>, Option<String>), Exit>
where
    R: Eprint + AllocGlobal,
{
    let out = file_of(rt, matches, OUT, "--out")?;
    Ok((out, file_of(rt, matches, DEPS, "--deps")?))
}

/// The folder that is searched first, and how programs are found. What cannot be had is reported.
fn searched_of<R>(
    rt: &R,
    matches: &ArgMatches,
    colours: bool,
) -> Result<(Option<String>, Setting), Exit>
where
    R: Files + Env + Eprint + AllocGlobal,
{
    let from = file_of(rt, matches, FROM, "--from")?;
    Ok((from, setting_of(rt, matches, colours)?))
}

fn compile_asked<R>(rt: &R, matches: &ArgMatches, colours: bool) -> Result<BuildRequest, Exit>
where
    R: Files + Env + Eprint + AllocGlobal,
{
    let file = name_of(rt, matches, TEXT, TEXT)?;
    let (out, deps) = written_of(rt, matches)?;
    let (from, setting) = searched_of(rt, matches, colours)?;
    Ok(BuildRequest::Compile {
        file,
        setting,
        out,
        deps,
        from,
    })
}

fn link_asked<R>(rt: &R, matches: &ArgMatches) -> Result<BuildRequest, Exit>
where
    R: Eprint + AllocGlobal,
{
    let names = names_of(rt, matches, MODULE, OUT, "--out")?;
    let pages = pages_of(rt, PROGRAM, matches)?;
    let Names { first, second } = names;
    Ok(BuildRequest::Link {
        program: first,
        out: second,
        pages,
    })
}

fn input_asked<R>(rt: &R, matches: &ArgMatches, colours: bool) -> Result<BuildRequest, Exit>
where
    R: Files + Env + Eprint + AllocGlobal,
{
    let names = names_of(rt, matches, DIR, INPUT_FILE, INPUT_FILE)?;
    let setting = setting_of(rt, matches, colours)?;
    let Names { first, second } = names;
    Ok(BuildRequest::Input {
        folder: first,
        input: second,
        setting,
    })
}

/// What becomes of mends.
fn fix_of(matches: &ArgMatches) -> Fix {
    if !matches.get_flag(FIX) {
        Fix::Show
    } else if matches.get_flag(YES) {
        Fix::Write
    } else {
        Fix::Ask
    }
}

fn check_asked<R>(rt: &R, matches: &ArgMatches, colours: bool) -> Result<TextRequest, Exit>
where
    R: Files + Env + Eprint + AllocGlobal,
{
    let programs = matches.get_strs(FILE).unwrap_or(&[]);
    if !are_named(rt, PROGRAM, FILE, programs) {
        return Err(Exit::Reported(COMMAND_LINE));
    }
    Ok(TextRequest::Check {
        programs: strings_of(rt.alloc(), programs)?,
        setting: setting_of(rt, matches, colours)?,
        fix: fix_of(matches),
    })
}

/// How verdicts are shown. Any other word is reported.
fn told_of<R: Eprint>(rt: &R, word: &str) -> Option<Told> {
    match word {
        "text" => Some(Told::Lines),
        "json" => Some(Told::Json),
        "tap" => Some(Told::Tap),
        "junit" => Some(Told::Junit),
        _ => {
            let _ = eprintln!(rt; "{PROGRAM}: --format takes text, json, tap or junit, not {word}");
            None
        }
    }
}

/// The most bytes that a case may print. A number that they cannot be is reported.
fn bytes_of<R: Eprint>(rt: &R, matches: &ArgMatches) -> Result<u64, Exit> {
    let text = matches.get_str(BYTES).unwrap_or("");
    number_option(rt, PROGRAM, BYTES, text, MOST_BYTES).ok_or(Exit::Reported(COMMAND_LINE))
}

fn test_asked<R>(rt: &R, matches: &ArgMatches) -> Result<TestRequest, Exit>
where
    R: Files + Env + Eprint + AllocGlobal,
{
    let Some(told) = told_of(rt, matches.get_str("format").unwrap_or("")) else {
        return Err(Exit::Reported(COMMAND_LINE));
    };
    let steps = steps_of(rt, PROGRAM, matches)?;
    let bytes = bytes_of(rt, matches)?;
    let names = names_of(rt, matches, FILE, CASES, CASES)?;
    let setting = setting_in(rt, matches, Style::Text)?;
    let Names { first, second } = names;
    Ok(TestRequest {
        program: first,
        is_class: matches.get_flag(EACH),
        is_compared: matches.get_flag(SAME),
        cases: second,
        setting,
        told,
        steps,
        bytes,
    })
}

/// The pass of this name. Any other word is reported.
fn pass_of<R: Eprint>(rt: &R, word: &str) -> Option<Pass> {
    match word {
        "tokens" => Some(Pass::Tokens),
        "tree" => Some(Pass::Tree),
        "types" => Some(Pass::Types),
        "code" => Some(Pass::Code),
        _ => {
            let _ = eprintln!(rt; "{PROGRAM}: PASS is tokens, tree, types or code, not {word}");
            None
        }
    }
}

fn show_asked<R>(rt: &R, matches: &ArgMatches, colours: bool) -> Result<TextRequest, Exit>
where
    R: Files + Env + Eprint + AllocGlobal,
{
    let Some(pass) = pass_of(rt, matches.get_str("PASS").unwrap_or("")) else {
        return Err(Exit::Reported(COMMAND_LINE));
    };
    Ok(TextRequest::Show {
        pass,
        program: name_of(rt, matches, FILE, FILE)?,
        setting: setting_of(rt, matches, colours)?,
    })
}

fn fmt_asked<R>(rt: &R, matches: &ArgMatches, colours: bool) -> Result<TextRequest, Exit>
where
    R: Eprint + AllocGlobal,
{
    let files = matches.get_strs(TEXT).unwrap_or(&[]);
    let Some(style) = style_of(rt, matches, colours) else {
        return Err(Exit::Reported(COMMAND_LINE));
    };
    if !are_named(rt, PROGRAM, TEXT, files) {
        return Err(Exit::Reported(COMMAND_LINE));
    }
    let layout = if matches.get_flag(DIFF) {
        Layout::Diff
    } else if matches.get_flag(CHECK) {
        Layout::Check
    } else {
        Layout::Write
    };
    Ok(TextRequest::Format {
        files: strings_of(rt.alloc(), files)?,
        layout,
        style,
    })
}

fn doc_asked<R>(rt: &R, matches: &ArgMatches, colours: bool) -> Result<TextRequest, Exit>
where
    R: Eprint + AllocGlobal,
{
    let Some(style) = style_of(rt, matches, colours) else {
        return Err(Exit::Reported(COMMAND_LINE));
    };
    let Names { first, second } = names_of(rt, matches, DIR, OUT, "--out")?;
    Ok(TextRequest::Document {
        folder: first,
        out: second,
        is_html: matches.get_flag(HTML),
        style,
    })
}

fn lsp_asked<R>(rt: &R, matches: &ArgMatches) -> Result<Asked, Exit>
where
    R: Files + Env + Eprint + AllocGlobal,
{
    Ok(Asked::Serve {
        setting: setting_in(rt, matches, Style::Json)?,
    })
}

/// The words of a topic, with a blank between two.
fn topic_of(alloc: Global, words: &[&str]) -> Result<String> {
    let mut topic = String::new(alloc);
    for word in words {
        if !topic.is_empty() {
            topic.push_str(" ")?;
        }
        topic.push_str(word)?;
    }
    Ok(topic)
}

fn explain_asked(alloc: Global, matches: &ArgMatches) -> Result<Asked, Exit> {
    let words = matches.get_strs("TOPIC").unwrap_or(&[]);
    Ok(Asked::Explain {
        topic: topic_of(alloc, words)?,
    })
}

fn new_asked<R>(rt: &R, matches: &ArgMatches) -> Result<Asked, Exit>
where
    R: Eprint + AllocGlobal,
{
    Ok(Asked::New {
        name: name_of(rt, matches, "NAME", "NAME")?,
        is_class: matches.get_flag(CLASS),
    })
}

/// What a subcommand asks of texts. The command line has no other subcommands.
fn text_request<R>(
    rt: &R,
    name: &str,
    matches: &ArgMatches,
    colours: bool,
) -> Result<TextRequest, Exit>
where
    R: Files + Env + Eprint + AllocGlobal,
{
    match name {
        "check" => check_asked(rt, matches, colours),
        "show" => show_asked(rt, matches, colours),
        "fmt" => fmt_asked(rt, matches, colours),
        "doc" => doc_asked(rt, matches, colours),
        _ => Err(Exit::Reported(COMMAND_LINE)),
    }
}

/// What a subcommand asks for that takes no program, or else of texts.
fn other_request<R>(rt: &R, name: &str, matches: &ArgMatches, colours: bool) -> Result<Asked, Exit>
where
    R: Files + Env + Eprint + AllocGlobal,
{
    match name {
        "lsp" => lsp_asked(rt, matches),
        "explain" => explain_asked(rt.alloc(), matches),
        "new" => new_asked(rt, matches),
        _ => Ok(Asked::Text(text_request(rt, name, matches, colours)?)),
    }
}

/// What a subcommand asks of builds, if it is one of theirs.
fn build_request<R>(
    rt: &R,
    name: &str,
    matches: &ArgMatches,
    colours: bool,
) -> Result<Option<BuildRequest>, Exit>
where
    R: Files + Env + Eprint + AllocGlobal,
{
    let request = match name {
        "build" => build_asked(rt, matches, colours)?,
        "compile" => compile_asked(rt, matches, colours)?,
        "link" => link_asked(rt, matches)?,
        "graph" => graph_asked(rt, matches, colours)?,
        "input" => input_asked(rt, matches, colours)?,
        _ => return Ok(None),
    };
    Ok(Some(request))
}

/// What a subcommand asks for that builds, or else runs nothing.
fn request_of<R>(rt: &R, name: &str, matches: &ArgMatches, colours: bool) -> Result<Asked, Exit>
where
    R: Files + Env + Eprint + AllocGlobal,
{
    match build_request(rt, name, matches, colours)? {
        Some(request) => Ok(Asked::Build(request)),
        None => other_request(rt, name, matches, colours),
    }
}

/// What a subcommand asks for.
fn request<R>(rt: &R, matches: &ArgMatches, colours: bool) -> Result<Asked, Exit>
where
    R: Files + Env + Eprint + AllocGlobal,
{
    match matches.subcommand() {
        None => Err(Exit::Reported(COMMAND_LINE)),
        Some(("run", inner)) => Ok(Asked::Run(run_asked(rt, inner, colours)?)),
        Some(("debug", inner)) => Ok(Asked::Run(debug_asked(rt, inner, colours)?)),
        Some(("test", inner)) => Ok(Asked::Test(test_asked(rt, inner)?)),
        Some((name, inner)) => request_of(rt, name, inner, colours),
    }
}

/// What these words ask for.
fn asked_by<R>(rt: &R, words: &[String], colours: bool) -> Result<Asked, Exit>
where
    R: Files + Env + Print + Eprint + AllocGlobal,
{
    let matches = matches_of(rt, command(rt.alloc())?, words)?;
    request(rt, &matches, colours)
}

/// What the command line asks for. Marks are red if standard error is a terminal and the command line says no more.
pub fn read_command_line<R>(rt: &R, is_terminal: bool) -> Result<Asked, Exit>
where
    R: Files + Env + Print + Eprint + AllocGlobal,
{
    let words = command_line(rt, PROGRAM)?;
    asked_by(rt, &words, is_terminal && may_be_coloured(rt))
}
