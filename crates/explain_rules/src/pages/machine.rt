//! Pages: modules, memory and streams. tools/write_explanations writes this file: change the pages of docs/, and call it.

use crate::topic::{Topic, page_in};

/// The topics, each with its page.
static TOPICS: [Topic; 9] = [
    Topic {
        name: "80",
        page: r#"# Refusal 80: the file is not a module

`m2run` read a file `M.wasm` whose bytes are not those of a WebAssembly module. It prints
`M: refusal 80` and ends with status 3.

Why: A damaged file must not be executed.

Place: none. The line starts with the module's name and has no line number.

Instead: Compile the program again with `m2c`.

## How it comes about

- The file was cut short, for example by a full disk or an interrupted copy.
- A text or another file was named `M.wasm`.
- Another tool wrote a number with more bytes than it needs. Other engines accept that; this profile
  has only the shortest form.
"#,
    },
    Topic {
        name: "81",
        page: r#"# Refusal 81: the module uses something outside the profile

`m2run` read a module with an instruction, a section or a type of values outside this project's
profile of WebAssembly. It prints `M: refusal 81` and ends with status 3.

Why: `m2run` executes only the part of WebAssembly that `m2c` needs, and executes it exactly as the
standard says.

Place: none. The line starts with the module's name.

Instead: Compile the program again with `m2c`. A module from another compiler needs another engine.
docs/BINARY.md describes the profile.

## How it comes about

- Another compiler wrote the module, for example with floating point.
- A tool added a section with names for a debugger.
- Blocks nest more than 4096 deep in a function.
- The file is damaged.
"#,
    },
    Topic {
        name: "82",
        page: r#"# Refusal 82: the module is not valid

`m2run` read a module that has the right form but breaks a rule of validation. For example, an
operand of an instruction is missing. It prints `M: refusal 82` and ends with status 3.

Why: What a valid module does is always defined. What an invalid one would do is not.

Place: none. The line starts with the module's name.

Instead: Compile the program again with `m2c`. Its modules are always valid.

## How it comes about

- The file was changed by hand or by another tool.
- Another compiler wrote the module for a later version of WebAssembly, for example with functions
  that have several results.
- The file is damaged, but still has the form of a module.
"#,
    },
    Topic {
        name: "83",
        page: r#"# Refusal 83: the modules do not fit together

`m2run` read all modules, but one of them imports something that is missing or has another type. Or
`link.wasm` has no function `run` to start with. It prints `link: refusal 83` and ends with status
3.

Why: Every import must be resolved before the program starts.

Place: none. The line starts with `link`, whichever module is at fault.

Instead: Compile all files of the program again, with one `m2c` command, into an empty folder.

## How it comes about

- The folder holds modules of two programs, or of two versions of one program.
- `link.wasm` was replaced or written by hand.
"#,
    },
    Topic {
        name: "84",
        page: r#"# Refusal 84: a module's data does not fit into the memory

`m2run` linked the modules, but the strings of a module would lie outside the memory, or its
procedures outside the table. It prints `link: refusal 84` and ends with status 3.

Why: Nothing may be written outside the memory.

Place: none. The line starts with `link`, whichever module is at fault.

Instead: Compile all files of the program again, with one `m2c` command, into an empty folder.

## How it comes about

- The folder holds a module of another program, or of an older version, under the same name.
- `link.wasm` was replaced or written by hand.
"#,
    },
    Topic {
        name: "90",
        page: r#"# Refusal 90: there is no memory left

The compiler or `m2run` asked the system for memory and did not get it. It ends with status 3. This
is not about the memory of the compiled program, which `--memory` sets.

Why: Without memory, the work cannot be finished, and nothing half done is handed out.

Place: none. The number is printed on standard error. If a module was being read, its name comes
first.

Instead: Close other programs, or raise the limit that the system sets. Compile with fewer
`--workers`. Give the compiled program fewer pages with `--memory`.

## How it comes about

- The system is short of memory.
- A limit on memory is set, for example by `ulimit -v` or by a container.
- The program's calls are nested so deeply that `m2run` has no memory for more.
"#,
    },
    Topic {
        name: "91",
        page: r#"# Refusal 91: the output could not be printed

The program printed a character, and standard output did not take it. `m2run` prints `refusal 91` on
standard error and ends with status 3. What was printed before has been written.

Why: If output is lost, the run should not look like a success.

Place: none. The output failed, not a line of the program.

Instead: Check where standard output goes. Is the disk full? Has the program that reads it ended?

## How it comes about

- The output goes to a file, and the disk is full.
- The output goes through a pipe to a program that has ended.
- Standard output is closed.
"#,
    },
    Topic {
        name: "92",
        page: r#"# Refusal 92: the run was broken off before

A run that failed with 90 or 91 was asked to go on. `m2run` never prints this number, because it
executes a program once. Only programs that use the engine as a library see it.

Why: After 90 or 91, a step of the program may be half done.

Place: none.

Instead: Link the modules again, and start the run from the beginning.

## How it comes about

- A program that uses the engine calls `run` again after it answered 90 or 91.
"#,
    },
    Topic {
        name: "93",
        page: r#"# Refusal 93: the folder did not take the modules

A file could not be written into the folder, or an old `link.wasm` could not be removed from it.
`m2c` says this in words, with the system's reason, and ends with status 3. Only programs that save
modules through the library see the number.

Why: A folder with old and new modules would be a program that nobody wrote. So nothing else is
written after a failure, and there is no `link.wasm`.

Place: none. The folder failed, not a line of the program.

Instead: Check the folder. Does it exist? May you write into it? Is the disk full? Then compile
again.

## How it comes about

- The folder after `--out` does not exist, or is a file.
- The folder, or a module in it, may not be written.
- The disk is full.
"#,
    },
];

/// The page of a topic, if it is one of these.
pub fn page(topic: &str) -> Option<&'static str> {
    page_in(&TOPICS, topic)
}
