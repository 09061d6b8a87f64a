//! Pages: limits and options. tools/write_explanations writes this file: change the pages of docs/, and call it.

use crate::topic::{Topic, page_in};

/// The topics, each with its page.
static TOPICS: [Topic; 4] = [
    Topic {
        name: "60",
        page: r#"# Refusal 60: too much data in one module or one procedure

The variables and strings of one module have at most 16777216 bytes (16 megabytes) together. The
same limit holds for the formals and variables of one procedure.

Why: The limit keeps all data within the memory that a program can have.

Place: the module's name in the file of its body, or the procedure's name.

Instead: Use smaller arrays, or elements of a smaller type. BOOLEAN, CHAR and `[0..255]` take one
byte, `[0..65535]` takes two, INTEGER and CARDINAL take four. Or split the data among several
modules.

In the example, `<<32 times v#, >>` stands for `v1, v2, ` and so on. Each variable takes 524288
bytes.

## Broken

```modula2 m.mod
MODULE M;
VAR <<32 times v#, >>last: ARRAY [0..131071] OF CARDINAL;
END M.
```

Options: --memory 1024

Refused: m.mod:1:8: refusal 60

## Mended

```modula2 m.mod
MODULE M;
VAR <<31 times v#, >>last: ARRAY [0..131071] OF CARDINAL;
END M.
```

Options: --memory 257
"#,
    },
    Topic {
        name: "61",
        page: r#"# Refusal 61: the data does not fit into the memory

The variables and strings of all modules of the program, and 4096 bytes for the stack, must fit into
its memory. The option `--memory` says how many pages of 65536 bytes it has: from 1 to 1024, and 16
without the option.

Why: A program whose data does not fit cannot even start.

Place: 1:1 of the program module's file, since all modules together are too large.

Instead: Ask for more pages with `--memory`, use smaller arrays, or elements of a smaller type. If
calls go deep, the stack needs more memory than 4096 bytes. Otherwise the program ends with fault 8.

The array in the example takes 61444 bytes. With 4096 more, this is 4 bytes over one page.

## Broken

```modula2 m.mod
MODULE M;
VAR a: ARRAY [0..15360] OF CARDINAL;
END M.
```

Options: --memory 1

Refused: m.mod:1:1: refusal 61

## Mended

```modula2 m.mod
MODULE M;
VAR a: ARRAY [0..15360] OF CARDINAL;
END M.
```

Options: --memory 2
"#,
    },
    Topic {
        name: "70",
        page: r#"# Refusal 70: a number of workers that is not from 1 to 64

The option `--workers` says how many threads compile: 1 to 64, and 4 without the option. The modules
that are written do not depend on it.

Why: Without a worker nothing is compiled, and more than 64 would hardly find work.

Place: none, since it is about the command line. `m2c` reports it in words on standard error and
ends with status 2. Only programs that use the compiler as a library see the number 70.

Instead: Leave the option out, or give the number of your processors.

## Broken

```modula2 m.mod
MODULE M;
END M.
```

Options: --workers 65

Refused: m2c: --workers takes a number from 1 to 64, and not '65'

## Mended

```modula2 m.mod
MODULE M;
END M.
```

Options: --workers 64
"#,
    },
    Topic {
        name: "73",
        page: r#"# Refusal 73: a number of pages that is not from 1 to 1024

The option `--memory` says how many pages of 65536 bytes the program's memory has: 1 to 1024, and 16
without the option.

Why: A program needs at least one page for its stack. 1024 pages are 64 megabytes.

Place: none, since it is about the command line. `m2c` reports it in words on standard error and
ends with status 2. Only programs that use the compiler as a library see the number 73.

Instead: Leave the option out, or give a number of pages in this range.

## Broken

```modula2 m.mod
MODULE M;
END M.
```

Options: --memory 1025

Refused: m2c: --memory takes a number from 1 to 1024, and not '1025'

## Mended

```modula2 m.mod
MODULE M;
END M.
```

Options: --memory 1024
"#,
    },
];

/// The page of a topic, if it is one of these.
pub fn page(topic: &str) -> Option<&'static str> {
    page_in(&TOPICS, topic)
}
