//! Pages: modules and imports. tools/write_explanations writes this file: change the pages of docs/, and call it.

use crate::topic::{Topic, page_in};

/// The topics, each with its page.
static TOPICS: [Topic; 6] = [
    Topic {
        name: "20",
        page: r#"# Refusal 20: the definition of an imported module is missing

If a module is imported, its definition must be among the files that are compiled. Only `Console` is
built in. The body of a module may not import its own module.

Why: The definition says what the module exports. Without it, no use of the module can be checked.

Place: the module's name in the import.

Instead: `m2` looks for the module beside the program, in the folders of `--lib`, and in its own
library: add the folder. Give `m2c` both files of the module: `Stacks.def` and `Stacks.mod`, or
`lib/InOut.def` and `lib/InOut.mod`. If the name is misspelt, write it as in its definition. Program
modules and SYSTEM cannot be imported. An implementation sees everything that its own definition
declares, so it needs no import of itself.

## Broken

```modula2 m.mod
MODULE M;
FROM Stacks IMPORT Push;
BEGIN
  Push(1)
END M.
```

Refused: m.mod:2:6: refusal 20

## Mended

```modula2 Stacks.def
DEFINITION MODULE Stacks;
PROCEDURE Push(x: CARDINAL);
END Stacks.
```

```modula2 Stacks.mod
IMPLEMENTATION MODULE Stacks;
PROCEDURE Push(x: CARDINAL);
BEGIN
END Push;
END Stacks.
```

```modula2 m.mod
MODULE M;
FROM Stacks IMPORT Push;
BEGIN
  Push(1)
END M.
```
"#,
    },
    Topic {
        name: "21",
        page: r#"# Refusal 21: a second file for one module

A module has at most one file for its definition and at most one for its body. No module may be
named `Console`, which is built in, or `link`, which the compiler writes itself.

Why: With two files for one definition, it would not be clear which one an import means.

Place: the module's name, in every file but the first, in order of file names. A module named
`Console` or `link` is refused in each of its files.

Instead: Leave the old copy out. If you want both, give one of the modules another name.

## Broken

```modula2 Stacks.def
DEFINITION MODULE Stacks;
PROCEDURE Push(x: CARDINAL);
END Stacks.
```

```modula2 StacksOld.def
DEFINITION MODULE Stacks;
END Stacks.
```

```modula2 Stacks.mod
IMPLEMENTATION MODULE Stacks;
PROCEDURE Push(x: CARDINAL);
END Push;
END Stacks.
```

```modula2 m.mod
MODULE M;
END M.
```

Refused: StacksOld.def:1:19: refusal 21

## Mended

```modula2 Stacks.def
DEFINITION MODULE Stacks;
PROCEDURE Push(x: CARDINAL);
END Stacks.
```

```modula2 Stacks.mod
IMPLEMENTATION MODULE Stacks;
PROCEDURE Push(x: CARDINAL);
END Push;
END Stacks.
```

```modula2 m.mod
MODULE M;
END M.
```
"#,
    },
    Topic {
        name: "22",
        page: r#"# Refusal 22: definitions that import each other

A definition may not import itself, neither directly nor through other definitions. Bodies may
import each other freely.

Why: A definition is compiled after those that it imports. In a cycle, none could come first.

Place: the import that leads back to the same definition. It is reported once for the whole program,
in the file whose name comes first.

Instead: If only the body needs an import, move it there. Or put what both need into a third
definition that imports neither.

## Broken

```modula2 A.def
DEFINITION MODULE A; IMPORT B; END A.
```
```modula2 A.mod
IMPLEMENTATION MODULE A; END A.
```
```modula2 B.def
DEFINITION MODULE B; IMPORT A; END B.
```
```modula2 B.mod
IMPLEMENTATION MODULE B; END B.
```
```modula2 m.mod
MODULE M; END M.
```

Refused: A.def:1:29: refusal 22

## Mended

```modula2 A.def
DEFINITION MODULE A; END A.
```
```modula2 A.mod
IMPLEMENTATION MODULE A; IMPORT B; END A.
```
```modula2 B.def
DEFINITION MODULE B; IMPORT A; END B.
```
```modula2 B.mod
IMPLEMENTATION MODULE B; END B.
```
```modula2 m.mod
MODULE M; END M.
```
"#,
    },
    Topic {
        name: "23",
        page: r#"# Refusal 23: not exactly one program module

A program has exactly one program module, which starts with the word MODULE alone. All other files
are definitions and implementations.

Why: The program's own statements, from which everything else is called, are in the program module.

Place: the module's name, in every program module but the first, in order of file names. If there is
none, 1:1 of the file whose name comes first.

Instead: Compile one program at a time, and leave out the files of other programs. If a module is
meant to be imported, write IMPLEMENTATION before MODULE, and add its definition. If there is no
program module, add its file to the command.

## Broken

```modula2 m.mod
MODULE M;
END M.
```

```modula2 n.mod
MODULE N;
END N.
```

Refused: n.mod:1:8: refusal 23

## Mended

```modula2 m.mod
MODULE M;
END M.
```
"#,
    },
    Topic {
        name: "24",
        page: r#"# Refusal 24: a definition or an implementation without its partner

Each definition module needs an implementation module of the same name, and the other way round.
Even a definition with nothing but constants and types needs an implementation, which is then empty.

Why: The two files together are one module: what it offers, and how it works.

Place: the module's name.

Instead: Add both files to the command. Compare the two names letter by letter. If the module is the
program itself, drop the word IMPLEMENTATION.

## Broken

```modula2 Limits.def
DEFINITION MODULE Limits;
CONST most = 100;
END Limits.
```

```modula2 m.mod
MODULE M;
IMPORT Limits;
END M.
```

Refused: Limits.def:1:19: refusal 24

## Mended

```modula2 Limits.def
DEFINITION MODULE Limits;
CONST most = 100;
END Limits.
```

```modula2 Limits.mod
IMPLEMENTATION MODULE Limits;
END Limits.
```

```modula2 m.mod
MODULE M;
IMPORT Limits;
END M.
```
"#,
    },
    Topic {
        name: "25",
        page: r#"# Refusal 25: too many files

A program has at most 1024 files.

Why: A limit on the files also limits the work of one build.

Place: 1:1 of file 1025, in the order in which the files are given.

Instead: Leave out modules that the program does not import. Merge small modules.

In the example, `Part#.def, 512 times` stands for the files `Part1.def` to `Part512.def`.

## Broken

```modula2 Part#.def, 512 times
DEFINITION MODULE Part#;
END Part#.
```

```modula2 Part#.mod, 512 times
IMPLEMENTATION MODULE Part#;
END Part#.
```

```modula2 m.mod
MODULE M;
END M.
```

Refused: m.mod:1:1: refusal 25

## Mended

```modula2 Part#.def, 511 times
DEFINITION MODULE Part#;
END Part#.
```

```modula2 Part#.mod, 511 times
IMPLEMENTATION MODULE Part#;
END Part#.
```

```modula2 m.mod
MODULE M;
END M.
```
"#,
    },
];

/// The page of a topic, if it is one of these.
pub fn page(topic: &str) -> Option<&'static str> {
    page_in(&TOPICS, topic)
}
