//! Pages: tokens and grammar. tools/write_explanations writes this file: change the pages of docs/, and call it.

use crate::topic::{Topic, page_in};

/// The topics, each with its page.
static TOPICS: [Topic; 11] = [
    Topic {
        name: "1",
        page: r#"# Refusal 1: the text is too long

A file holds at most 1048576 bytes. Every byte counts, including spaces and comments.

Why: A limit on the text also limits the time and memory that one file can take. A module that
people can read is far shorter.

Place: 1:1, the start of the file, since no single line is at fault.

Instead: Split the module. Move some of its procedures into a module of their own, with a definition
that lists them.

In the example, `<<1048576 times .>>` stands for that many dots.

## Broken

```modula2 m.mod
MODULE M;
(* <<1048576 times .>> *)
END M.
```

Refused: m.mod:1:1: refusal 1

## Mended

```modula2 m.mod
MODULE M;
(* <<1000 times .>> *)
END M.
```
"#,
    },
    Topic {
        name: "2",
        page: r#"# Refusal 2: a character that may not appear here

Outside comments and strings, a program consists of letters, digits, spaces, line ends and the signs
of the language. Nothing starts with `! $ % ? @ \ ^ _` or a backquote, or with a letter other than A
to Z and a to z. A string may hold the bytes 20H (the space) to 7EH, so it has no tabs and no
accented letters. Comments may hold anything.

Why: Names are made of letters and digits, and one byte is one character.

Place: the byte itself. Columns count bytes, and an accented letter has two or more of them.

## Causes

```modula2 declarations
MODULE M; FROM Console IMPORT Put;
VAR mySum, i, j: INTEGER; cell: ARRAY [0..9] OF INTEGER;
```

- A name with an underscore: `my_sum := 1`, at `_`. Write `mySum := 1`.
- Following a pointer; this profile has no pointers: `i^ := 1`, at `^`. Write `cell[i] := 1`, with
  an index instead of the pointer.
- The remainder as in C: `i := j % 2`, at `%`. Write `i := j MOD 2`.
- Unequal as in C: `IF i != j THEN END`, at `!`. Write `IF i # j THEN END`.
- An accented letter in a string: `Put("é")`, at `é`. Write `Put(303C); Put(251C)`, its UTF-8 bytes
  as octal codes.

## Broken

```modula2 m.mod
MODULE M;
VAR my_sum: INTEGER;
BEGIN
  my_sum := 0
END M.
```

Refused: m.mod:2:7: refusal 2

## Mended

```modula2 m.mod
MODULE M;
VAR mySum: INTEGER;
BEGIN
  mySum := 0
END M.
```
"#,
    },
    Topic {
        name: "3",
        page: r#"# Refusal 3: a comment that is not closed

A comment starts with `(*` and ends with `*)`. Comments nest: each `(*` inside a comment needs its
own `*)`.

Why: Nesting lets you turn a piece of program into a comment, even if it has comments in it.

Place: the outermost `(*` that is still open at the end of the file.

Instead: Count `(*` and `*)` from that place on, and add the missing `*)`. Beware that `(*)` opens a
comment and does not close it.

## Broken

```modula2 m.mod
MODULE M;
(* This comment (* holds a second one. *)
END M.
```

Refused: m.mod:2:1: refusal 3

## Mended

```modula2 m.mod
MODULE M;
(* This comment (* holds a second one. *) *)
END M.
```
"#,
    },
    Topic {
        name: "4",
        page: r#"# Refusal 4: a string that is not closed on its line

A string starts with `"` or `'` and ends with the same quote, on the same line. It cannot contain
that quote.

Why: Otherwise one forgotten quote would turn the rest of the file into a string.

Place: the quote that opens the string.

## Causes

```modula2 declarations
MODULE M; FROM InOut IMPORT WriteString, Write;
```

- The closing quote is missing: `WriteString("Hello)`, at `"`. Write `WriteString("Hello")`.
- The string contains its own quote: `WriteString('Don't')`, at the third `'`. Write
  `WriteString("Don't")`, with the other kind of quote around it.
- A string cannot run over two lines. Print the line end by itself. Write
  `WriteString("one"); Write(12C); WriteString("two")`.

## Broken

```modula2 m.mod
MODULE M;
FROM InOut IMPORT WriteString;
BEGIN
  WriteString("Hello)
END M.
```

Refused: m.mod:4:15: refusal 4

## Mended

```modula2 m.mod
MODULE M;
FROM InOut IMPORT WriteString;
BEGIN
  WriteString("Hello")
END M.
```
"#,
    },
    Topic {
        name: "5",
        page: r#"# Refusal 5: digits and letters that are not a number

Whatever starts with a digit runs on to the last digit or letter, and all of it must be one number.
There are four kinds: decimal (`255`), octal with B (`377B`), hexadecimal with H (`0FFH`), and a
character by its octal code with C (`101C`).

Why: If `12A` meant the number 12 and the name A, a typing mistake would go unnoticed.

Place: the first digit.

## Causes

```modula2 declarations
MODULE M; VAR c: CARDINAL; second: CARDINAL;
```

- Hexadecimal without its H: `c := 1F`, at `1F`. Write `c := 1FH`.
- Hexadecimal as in C: `c := 0x1F`, at `0x1F`. Write `c := 1FH`.
- 8 and 9 are not octal digits: `c := 18B`, at `18B`. Write `c := 22B`, or `c := 18`.
- A power of ten: `c := 1E3`, at `1E3`. Write `c := 1000`.
- A name that starts with a digit: `2nd := 1`, at `2nd`. Write `second := 1`.

## Broken

```modula2 m.mod
MODULE M;
CONST mask = 1F;
END M.
```

Refused: m.mod:2:14: refusal 5

## Mended

```modula2 m.mod
MODULE M;
CONST mask = 1FH;
END M.
```
"#,
    },
    Topic {
        name: "6",
        page: r#"# Refusal 6: a number that is too large

A number is at most 4294967295 (0FFFFFFFFH). The code of a character is at most 377C.

Why: A CARDINAL has 32 bits, and no type holds larger numbers. There are 256 characters.

Place: the first digit of the number.

## Causes

```modula2 declarations
MODULE M; VAR c, millions: CARDINAL; ch: CHAR;
```

- A number of more than 32 bits: `c := 5000000000`, at `5000000000`. Write `millions := 5000`, and
  count in a larger unit.
- A code above 377C: `ch := 400C`, at `400C`. Write `ch := 377C`, the largest code.

## Broken

```modula2 m.mod
MODULE M;
CONST people = 8000000000;
END M.
```

Refused: m.mod:2:16: refusal 6

## Mended

```modula2 m.mod
MODULE M;
CONST millionsOfPeople = 8000;
END M.
```
"#,
    },
    Topic {
        name: "7",
        page: r#"# Refusal 7: a name that is too long

A name has at most 64 letters and digits.

Why: Names become part of the compiled modules, so their length is limited.

Place: the first letter of the name.

Instead: Choose a shorter name. Perhaps a space is missing between two words.

In the example, `<<65 times a>>` stands for the letter a, 65 times.

## Broken

```modula2 m.mod
MODULE M;
VAR <<65 times a>>: INTEGER;
END M.
```

Refused: m.mod:2:5: refusal 7

## Mended

```modula2 m.mod
MODULE M;
VAR <<64 times a>>: INTEGER;
END M.
```
"#,
    },
    Topic {
        name: "10",
        page: r#"# Refusal 10: this word or sign does not fit here

The marked word or sign cannot appear here, whatever comes after it. Everything before it is the
start of a correct program.

Why: The grammar says what may come next. After the first word that does not fit, the compiler
cannot know what was meant.

Place: the first word or sign that does not fit. If something is missing, it belongs before this
place, often at the end of the line above. If the file ends too early, the place is just after its
last byte.

## Causes

```modula2 declarations
MODULE M;
TYPE Line = ARRAY [0..9] OF CHAR;
VAR i, j, k: INTEGER; b: BOOLEAN;
```

- A semicolon is missing between two statements: `i := 1 j := 2`, at `j`. Write `i := 1; j := 2`.
- `=` in an assignment: `i = 1`, at `=`. Write `i := 1`.
- `:=` in a comparison: `IF i := 1 THEN END`, at `:=`. Write `IF i = 1 THEN END`.
- A minus sign after an operator: `i := 2 * -3`, at `-`. Write `i := 2 * (-3)`.
- Two comparisons in a row: `b := 1 < i < 9`, at the second `<`. Write `b := (1 < i) AND (i < 9)`.
- ELSE IF needs one more END than ELSIF: `IF b THEN i := 1 ELSE IF i = 2 THEN i := 3 END`, at `M` of
  the module's end. Write `IF b THEN i := 1 ELSIF i = 2 THEN i := 3 END`.
- Reserved words in lower case: `if b THEN END`, at `b`. Write `IF b THEN END`.
- Arms of a CASE without `|`: `CASE i OF 1: j := 1; 2: j := 2 END`, at the first `2`. Write
  `CASE i OF 1: j := 1 | 2: j := 2 END`.
- A function's heading without brackets: `PROCEDURE F: INTEGER; BEGIN RETURN 1 END F;`, at `:`.
  Write `PROCEDURE F(): INTEGER; BEGIN RETURN 1 END F;`.
- A type written out in a heading: `PROCEDURE P(x: [0..9]); END P;`, at `[`. Write
  `PROCEDURE P(x: Line); END P;`, with the name of a type.
- A number with a fraction, which this profile does not have: `i := 1.5`, at `.`. Write `i := 15`,
  in tenths.

## Broken

```modula2 m.mod
MODULE M;
VAR i: INTEGER;
BEGIN
  i := 1
  i := 2
END M.
```

Refused: m.mod:5:3: refusal 10

## Mended

```modula2 m.mod
MODULE M;
VAR i: INTEGER;
BEGIN
  i := 1;
  i := 2
END M.
```
"#,
    },
    Topic {
        name: "11",
        page: r#"# Refusal 11: the closing name differs from the opening one

A module or procedure ends with END and its own name. Upper and lower case matter.

Why: The closing name shows that every IF, LOOP and the like inside has found its own END.

Place: the closing name.

Instead: If the name is misspelt, write it as after MODULE or PROCEDURE. If it is the name of an
outer procedure, an END is missing before it.

## Broken

```modula2 m.mod
MODULE M;
PROCEDURE Count;
BEGIN
END count;
END M.
```

Refused: m.mod:4:5: refusal 11

## Mended

```modula2 m.mod
MODULE M;
PROCEDURE Count;
BEGIN
END Count;
END M.
```
"#,
    },
    Topic {
        name: "12",
        page: r#"# Refusal 12: nested too deeply

Constructs may be nested at most 200 levels deep. Levels are IF, CASE, loops and WITH, and each
ELSIF. So are procedures, types, brackets, subscripts, lists of arguments, sets and NOTs.

Why: The deeper a program is nested, the deeper the compiler's own calls go. The limit keeps them
from running out of stack.

Place: the first word or sign of level 201.

Instead: Write a long chain of ELSIFs as a CASE. Move inner statements into a procedure. Compute
parts of a long expression first.

In the example, `<<200 times (>>` stands for that many brackets.

## Broken

```modula2 m.mod
MODULE M;
VAR i: INTEGER;
BEGIN
  i :=
<<200 times (>>(1<<201 times )>>
END M.
```

Refused: m.mod:5:201: refusal 12

## Mended

```modula2 m.mod
MODULE M;
VAR i: INTEGER;
BEGIN
  i :=
<<200 times (>>1<<200 times )>>
END M.
```
"#,
    },
    Topic {
        name: "13",
        page: r#"# Refusal 13: a word of something that this profile leaves out

POINTER, QUALIFIED, EXPORT and SET are reserved words, but this profile leaves out what they are
for. MODULE appears only at the start of a file.

Why: These words are correct Modula-2. A number of its own tells this apart from a typing mistake
(10).

Place: the word.

## Causes

```modula2 declarations
MODULE M;
TYPE Node = RECORD value: INTEGER END;
```

- A pointer type: `TYPE Link = POINTER TO Node;`, at `POINTER`. Write
  `TYPE Link = [0..999]; VAR pool: ARRAY Link OF Node;`, an index into an array of nodes.
- A set type: `TYPE Set = SET OF [0..9];`, at `SET`. Write `TYPE Set = BITSET;`, with the elements 0
  to 31.
- A module inside a module: `MODULE Inner; END Inner;`, at `MODULE`. Write
  `PROCEDURE Inner; END Inner;`, or give the module its own files.
- An export list: `EXPORT Node;`, at `EXPORT`. Write nothing: everything in a definition is
  exported.
- A second module after the first in one file, at its MODULE. Put each into a file of its own.

## Broken

```modula2 m.mod
MODULE M;
TYPE Node = RECORD value: INTEGER; next: POINTER TO Node END;
END M.
```

Refused: m.mod:2:42: refusal 13

## Mended

```modula2 m.mod
MODULE M;
TYPE Node = RECORD value: INTEGER; next: [0..99] END;
VAR nodes: ARRAY [0..99] OF Node;
END M.
```
"#,
    },
];

/// The page of a topic, if it is one of these.
pub fn page(topic: &str) -> Option<&'static str> {
    page_in(&TOPICS, topic)
}
