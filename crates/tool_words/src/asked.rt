//! What the command line asks for.

use build_jobs::Options;
use link_single::Host;

/// How refusals are shown.
#[derive(Clone, Copy, PartialEq, Eq)]
pub enum Style {
    /// For people.
    Text,
    /// For people, with a red mark under the token.
    Coloured,
    /// For programs, as JSON objects.
    Json,
}

/// A pass of the compiler, of which it is shown what it makes.
#[derive(Clone, Copy, PartialEq, Eq)]
pub enum Pass {
    /// The tokens of a text.
    Tokens,
    /// The tree of a text.
    Tree,
    /// The typed trees of all bodies of a program.
    Types,
    /// The code of all modules of a program.
    Code,
}

/// What the imports of a program are drawn as.
#[derive(Clone, Copy, PartialEq, Eq)]
pub enum Drawn {
    /// A picture, in the language of graphviz.
    Picture,
    /// A JSON object.
    Data,
    /// The steps of a build for ninja.
    Ninja,
    /// The steps of a build for make.
    Make,
}

/// How it is said what came of cases.
#[derive(Clone, Copy, PartialEq, Eq)]
pub enum Told {
    /// For people, a line a case.
    Lines,
    /// As JSON objects, a line each.
    Json,
    /// In the Test Anything Protocol.
    Tap,
    /// As the XML of JUnit.
    Junit,
}

/// What becomes of the mends that were found.
#[derive(Clone, Copy, PartialEq, Eq)]
pub enum Fix {
    /// They are shown.
    Show,
    /// They are written if the person says so.
    Ask,
    /// They are written.
    Write,
}

/// What is told of a run that is over: on standard error, or in files of these names.
pub struct Measured {
    /// How many reductions each procedure and each line took, and how often it ran.
    pub is_profiled: bool,
    /// The lines on which nothing ran.
    pub is_covered: bool,
    /// The source with what ran in front of each line.
    pub listing: Option<String>,
    /// A picture of the calls.
    pub flame: Option<String>,
    /// The profile in the format of callgrind.
    pub callgrind: Option<String>,
    /// The lines that ran in the format of lcov.
    pub lcov: Option<String>,
    /// What each statement did, in as many lines as this at most.
    pub trace: Option<String>,
    pub most_lines: u64,
}

// Written by hand, so that each exit takes a drop as one call.
impl Drop for Measured {
    fn drop(self) {
        let Measured {
            is_profiled: _,
            is_covered: _,
            listing,
            flame,
            callgrind,
            lcov,
            trace,
            most_lines: _,
        } = self;
        drop(listing);
        drop(flame);
        drop(callgrind);
        drop(lcov);
        drop(trace);
    }
}

/// What is done with a text whose layout is another than the one that it is to have.
#[derive(Clone, Copy, PartialEq, Eq)]
pub enum Layout {
    /// It is written anew.
    Write,
    /// Its name is printed.
    Check,
    /// The lines that differ are printed.
    Diff,
}

/// How programs are found and built.
#[derive(Drop)]
pub struct Setting {
    /// The workers and the pages of memory.
    pub options: Options,
    /// The folders in which modules are looked for behind the folder of the program, in this order.
    pub libraries: Vec<String>,
    /// Whether it is said what is found, and why each module is compiled.
    pub is_verbose: bool,
    /// How refusals are shown.
    pub style: Style,
}

/// A program by the name of its file, the file that it reads, if it reads one, and how it is built.
#[derive(Drop)]
pub struct Given {
    pub program: String,
    pub input: Option<String>,
    pub setting: Setting,
}

/// What is asked of runs. Each makes at most `steps` reductions.
#[derive(Drop)]
pub enum RunRequest {
    /// To run a program, and to tell behind the run what ran.
    Run {
        given: Given,
        steps: u64,
        told: Measured,
    },
    /// To say how many reductions the program of this file takes with each of these inputs, and maybe to plot them into a file.
    Cost {
        program: String,
        inputs: Vec<String>,
        setting: Setting,
        steps: u64,
        plot: Option<String>,
    },
    /// To go through a run of a program by commands of standard input.
    Debug {
        given: Given,
        steps: u64,
    },
    /// To serve an editor that follows runs over the standard streams.
    Adapt {
        setting: Setting,
        steps: u64,
    },
}

/// What is asked of builds.
#[derive(Drop)]
pub enum BuildRequest {
    /// To write the modules of a program into a folder. Into the file `deps` it is written of which files the modules were made.
    /// Beside each module its map is written, if this is wanted. A fresh build takes nothing of an earlier one.
    Build {
        given: Given,
        out: String,
        deps: Option<String>,
        is_mapped: bool,
        is_fresh: bool,
    },
    /// To write a program as one module over a host into the file `out`.
    Single {
        given: Given,
        host: Host,
        out: String,
    },
    /// To compile the module of this file alone into a folder, or to check a definition. The folder `from` is searched first,
    /// or the file's own. Into the file `deps` it is written of which files the module was made.
    Compile {
        file: String,
        setting: Setting,
        out: Option<String>,
        deps: Option<String>,
        from: Option<String>,
    },
    /// To link modules of a folder to the program of this name, with so many pages of memory.
    Link {
        program: String,
        out: String,
        pages: u32,
    },
    /// To show what the modules of the program of this file import, or the steps that build it into the folder `out`.
    Graph {
        program: String,
        setting: Setting,
        drawn: Drawn,
        out: String,
    },
    /// To give the program that was built into this folder another input, the bytes of this file.
    Input {
        folder: String,
        input: String,
        setting: Setting,
    },
}

/// What is asked of texts.
#[derive(Drop)]
pub enum TextRequest {
    /// To say what is refused of the programs of these files, and maybe to mend them.
    Check {
        programs: Vec<String>,
        setting: Setting,
        fix: Fix,
    },
    /// To show what a pass makes of the program of this file.
    Show {
        pass: Pass,
        program: String,
        setting: Setting,
    },
    /// To lay out the texts of these files. `-` is standard input.
    Format {
        files: Vec<String>,
        layout: Layout,
        style: Style,
    },
    /// To write pages of the definitions of a folder into the folder `out`.
    Document {
        folder: String,
        out: String,
        /// Whether they are HTML, and not Markdown.
        is_html: bool,
        style: Style,
    },
}

/// The judging of the program of this file by the cases of a folder, or of each program of a class, whose files this is a pattern
/// of. Each run makes at most so many reductions, and prints at most so many bytes.
#[derive(Drop)]
pub struct TestRequest {
    pub program: String,
    pub is_class: bool,
    pub is_compared: bool,
    pub cases: String,
    pub setting: Setting,
    pub told: Told,
    pub steps: u64,
    pub bytes: u64,
}

/// What the command line asks for.
#[derive(Drop)]
pub enum Asked {
    Run(RunRequest),
    Build(BuildRequest),
    Text(TextRequest),
    Test(TestRequest),
    /// To serve an editor over the standard streams.
    Serve { setting: Setting },
    /// To print the page of a topic, or the list of all topics if this is empty.
    Explain { topic: String },
    /// To write the files of a new program of this name, or of an exercise with its cases.
    New { name: String, is_class: bool },
}
