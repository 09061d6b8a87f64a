//! Pages: what the profile leaves out, and statuses. tools/write_explanations writes this file: change the pages of docs/, and call it.

use crate::topic::{Topic, page_in};

/// The topics, each with its page.
static TOPICS: [Topic; 8] = [
    Topic {
        name: "profile",
        page: r#"# Not in this profile

This compiler leaves out some parts of the Modula-2 of Wirth's book, fourth edition. A program that
uses one of them is refused by the first rule that it breaks. For each part, the list gives an
example, this refusal, and what to write instead.

```modula2 declarations
MODULE M; FROM Console IMPORT Put; FROM InOut IMPORT WriteString, WriteInt;
TYPE Node = RECORD value, next: CARDINAL END;
VAR i, j: INTEGER; c: CARDINAL; p: CARDINAL; s: BITSET; ch: CHAR;
    node: ARRAY [1..100] OF Node; used: CARDINAL;
    name: ARRAY [0..19] OF CHAR; fromOne: ARRAY [1..20] OF CHAR;
```

## Numbers
- REAL and LONGREAL: `VAR x: REAL;`, refusal 30 at `REAL`. Write `VAR x: INTEGER;`, in cents.
- A number with a fraction: `i := 1.5`, refusal 10 at `.`. Write `i := 15`, in tenths.
- FLOAT and TRUNC: `i := TRUNC(i)`, refusal 30 at `TRUNC`. Write `i := i DIV 10`.
- LONGINT and LONGCARD: `VAR x: LONGINT;`, refusal 30 at `LONGINT`. Write `VAR x: INTEGER;`.
- `/` for numbers: `i := i / j`, refusal 40 at `/`. Write `i := i DIV j`.
- A type's name as a function: `c := CARDINAL(i)`, refusal 40 at `CARDINAL`. Write
  `c := VAL(CARDINAL, i)`.

## Pointers
- Pointer types: `TYPE Link = POINTER TO Node;`, refusal 13 at `POINTER`. Write
  `TYPE Link = [0..100];`, an index of an array, 0 for none.
- Following a pointer: `p^.value := 1`, refusal 2 at `^`. Write `node[p].value := 1`.
- NIL: `p := NIL`, refusal 30 at `NIL`. Write `p := 0`.
- NEW and ALLOCATE: `NEW(p)`, refusal 30 at `NEW`. Write `INC(used); p := used`.
- DISPOSE and DEALLOCATE: `DISPOSE(p)`, refusal 30 at `DISPOSE`. Write
  `node[p].next := used; used := p`, a list of free nodes.
- Storage: `MODULE M; FROM Storage IMPORT ALLOCATE; END M.`, refusal 20 at `Storage`. Write nothing.

## Types
- Set types: `TYPE Letters = SET OF CHAR;`, refusal 13 at `SET`. Write
  `TYPE Letters = ARRAY CHAR OF BOOLEAN;`, or BITSET for 0 to 31.
- Variables as elements in braces: `s := {c}`, refusal 34 at `c`. Write `s := {}; INCL(s, c)`.
- Variant records: `TYPE R = RECORD CASE k: BOOLEAN OF TRUE: x: CHAR END END;`, refusal 10 at
  `CASE`. Write `TYPE R = RECORD k: BOOLEAN; x: CHAR END;`, with the fields of all variants.
- Opaque types in a definition: `TYPE Stack;`, refusal 10 at `;`. Write `TYPE Stack = [0..100];`,
  and keep the records in the implementation.
- PROC: `VAR run: PROC;`, refusal 30 at `PROC`. Write `VAR run: PROCEDURE;`.
- SIZE and TSIZE: `c := SIZE(c)`, refusal 30 at `SIZE`. Write `c := 4`, by hand.
- Arrays from 1 as open arrays: `WriteString(fromOne)`, refusal 43 at `fromOne`. Write
  `WriteString(name)`, with `ARRAY [0..19] OF CHAR`.

## Modules
- Export lists, as in older editions:
  `DEFINITION MODULE M; EXPORT QUALIFIED x; CONST x = 1; END M.`, refusal 13 at `EXPORT`. Write
  nothing: everything in a definition is exported.
- Modules inside modules: `MODULE Inner; END Inner;`, refusal 13 at `MODULE`. Write
  `PROCEDURE Inner; END Inner;`, or a module with its own files.
- Priorities: `MODULE M[4]; END M.`, refusal 10 at `[`. Write `MODULE M; END M.`.
- SYSTEM, with WORD, ADR and coroutines: `MODULE M; FROM SYSTEM IMPORT ADR; END M.`, refusal 20 at
  `SYSTEM`. Write nothing: nothing takes its place, and a program cannot get addresses.

## Input and files
- The keyboard: `MODULE M; FROM InOut IMPORT ReadInt; END M.`, refusal 32 at `ReadInt`. Write
  `MODULE M; FROM Input IMPORT ReadInt; END M.`: it is in Input; see `m2 explain input`.
- Files: a program cannot open any. Its output can be sent to a file.
"#,
    },
    Topic {
        name: "input",
        page: r#"# How a program reads

The language has no input. What a program reads is one of its modules: a program that imports Input
is linked with a module InputBytes that holds the bytes of its input. So the program with its input
is a program like any other, and it does the same in each run, on each engine.

- `m2 run --input FILE P.mod` gives the program the bytes of a file, and `--input -` those of
  standard input, up to its end. `m2 build --input FILE` builds a program with its input.
- With no `--input` the input is empty, and `m2` says so on standard error.
- Any bytes can be read. The text of the module that holds them may have 1048576 bytes. That is
  enough for any 500000 bytes, and for nearly a million letters. A longer input is refused, and
  never cut. The bytes stand in the memory of the program: `--memory PAGES` asks for more, if it
  is refused with 61.

## What Input has

- `Read(ch)`: one character. At the end of the input ch becomes 0C.
- `ReadString(text)`: a word, up to the next blank.
- `ReadLine(text)`: a line, without its end.
- `ReadInt(number)`, `ReadCard(number)`: a number.
- `Done`: whether the last of these found what it reads. `Cut`: whether the array had no room for
  all of it; the rest is read next, so nothing is lost.
- `Peek()`: the next character, without reading it. `AtEnd()`: whether everything has been read.
- `Skip`, `SkipLine`: up to the next character that is not a blank, and up to the next line.
- `Size()`: the number of bytes. `Restart`: begins again with the first one.

`lib/Input.def` says what each does with every byte, on overflow, and at the end.

## Dialogues

Nobody can type while a program runs. Write the answers into a file, one to a line, and let the
program print its questions: exercises/adventure is a game of this kind.
"#,
    },
    Topic {
        name: "status 0",
        page: r#"# Status 0

## m2c

- **0: built.** The modules are in the folder. Nothing is printed. `--help` and `--version` also end
  with 0.

## m2run

- **0: the program ended normally**, by itself or by HALT: see docs/faults/0.md and
  docs/faults/9.md.

## m2

- **0: success.** The program ended by itself or by HALT, its modules are written, no program is
  refused, the page is printed, or the files are written.
"#,
    },
    Topic {
        name: "status 1",
        page: r#"# Status 1

## m2c

- **1: refused.** The program breaks a rule of the language. Standard output has a line
  `FILE:LINE:COL: refusal NUMBER` for each refusal. No module is written. docs/refusals explains
  each number.

## m2run

- **1: the program ended with a fault.** Standard error has a line such as `fault 2: overflow`.
  docs/faults explains each fault. A module that `m2c` did not write can also end with `trap`, or
  with `fault 42: unknown`.

## m2

- **1: refused, or a fault.** The program breaks a rule of the language, or it ended with a fault.
  `m2 check` ends with the greatest status of its programs. `m2 test` ends with 1 if a case did not
  pass.
"#,
    },
    Topic {
        name: "status 2",
        page: r#"# Status 2

## m2c

- **2: wrong command line.** An option is unknown, a number is out of its range, or a name is
  missing. Standard error says which. No file was read.

## m2run

- **2: wrong command line.** The folder is missing, an option is unknown, or the number after
  `--steps` is not from 1 to 1000000000000.

## m2

- **2: wrong command line.** An option is unknown, a number is out of its range, a name is missing,
  there is no page on a topic, or `m2 new` was given a word that cannot be a program's name.
"#,
    },
    Topic {
        name: "status 3",
        page: r#"# Status 3

## m2c

- **3: failed.** A file cannot be read or written, the folder does not exist, memory ran out (90),
  or standard output is full. Standard error says which. If writing failed halfway, `link.wasm` is
  missing, so that old and new modules do not mix.

## m2run

- **3: failed.** A module cannot be read (`cannot read M.wasm`) or is not valid (`M: refusal 80`, up
  to 84). Or memory ran out (90), or standard output failed (91).

## m2

- **3: failed.** A file or a folder cannot be read or written, memory ran out, or standard output
  failed. `m2 new` ends with 3 if a file already exists, and writes nothing.
"#,
    },
    Topic {
        name: "status 4",
        page: r#"# Status 4

## m2c

`m2c` has no status 4.

## m2run

- **4: the program was still running.** It was stopped after as many steps as `--steps` allows, or
  after 1000000000 without this option. If the folder has maps (docs/maps.md), standard error says in
  which statement it was. Else nothing is printed about it. What the program printed stays printed.

After status 4, allow more steps: `m2run DIR --steps 100000000000`. If that does not help, look for
a loop without end.

## m2

- **4: the program was still running** after as many steps as `--steps` allows.
"#,
    },
    Topic {
        name: "statuses",
        page: r#"# Exit statuses

Each program reports by its exit status how it ended. In a shell, `echo $?` prints the status of the
last command.

## m2c

- **0: built.** The modules are in the folder. Nothing is printed. `--help` and `--version` also end
  with 0.
- **1: refused.** The program breaks a rule of the language. Standard output has a line
  `FILE:LINE:COL: refusal NUMBER` for each refusal. No module is written. docs/refusals explains
  each number.
- **2: wrong command line.** An option is unknown, a number is out of its range, or a name is
  missing. Standard error says which. No file was read.
- **3: failed.** A file cannot be read or written, the folder does not exist, memory ran out (90),
  or standard output is full. Standard error says which. If writing failed halfway, `link.wasm` is
  missing, so that old and new modules do not mix.

`m2c` has no status 4.

## m2run

- **0: the program ended normally**, by itself or by HALT: see docs/faults/0.md and
  docs/faults/9.md.
- **1: the program ended with a fault.** Standard error has a line such as `fault 2: overflow`.
  docs/faults explains each fault. A module that `m2c` did not write can also end with `trap`, or
  with `fault 42: unknown`.
- **2: wrong command line.** The folder is missing, an option is unknown, or the number after
  `--steps` is not from 1 to 1000000000000.
- **3: failed.** A module cannot be read (`cannot read M.wasm`) or is not valid (`M: refusal 80`, up
  to 84). Or memory ran out (90), or standard output failed (91).
- **4: the program was still running.** It was stopped after as many steps as `--steps` allows, or
  after 1000000000 without this option. If the folder has maps (docs/maps.md), standard error says in
  which statement it was. Else nothing is printed about it. What the program printed stays printed.

After status 4, allow more steps: `m2run DIR --steps 100000000000`. If that does not help, look for
a loop without end.

## m2

- **0: success.** The program ended by itself or by HALT, its modules are written, no program is
  refused, the page is printed, or the files are written.
- **1: refused, or a fault.** The program breaks a rule of the language, or it ended with a fault.
  `m2 check` ends with the greatest status of its programs. `m2 test` ends with 1 if a case did not
  pass.
- **2: wrong command line.** An option is unknown, a number is out of its range, a name is missing,
  there is no page on a topic, or `m2 new` was given a word that cannot be a program's name.
- **3: failed.** A file or a folder cannot be read or written, memory ran out, or standard output
  failed. `m2 new` ends with 3 if a file already exists, and writes nothing.
- **4: the program was still running** after as many steps as `--steps` allows.

## What goes where

- `m2c` prints refusals on standard output, and everything else on standard error.
- `m2run` adds nothing to the program's own output on standard output. Faults and refusals go to
  standard error.
- `m2` prints refusals on standard output, as `m2c` does, and explains them on standard error.
"#,
    },
];

/// The page of a topic, if it is one of these.
pub fn page(topic: &str) -> Option<&'static str> {
    page_in(&TOPICS, topic)
}
