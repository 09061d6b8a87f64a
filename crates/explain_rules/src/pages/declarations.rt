//! Pages: names and types. tools/write_explanations writes this file: change the pages of docs/, and call it.

use crate::topic::{Topic, page_in};

/// The topics, each with its page.
static TOPICS: [Topic; 9] = [
    Topic {
        name: "30",
        page: r#"# Refusal 30: a name that is not declared, or not yet

A name must be declared before it is used: in the same procedure, in one around it, in the module,
or by an import. Only procedures may be called before their heading. After a dot, the name must be a
field of the record.

Why: Otherwise a misspelt name would quietly become a new variable.

Place: the name, or the field that the record does not have.

## Causes

```modula2 declarations
MODULE M; FROM InOut IMPORT WriteLn, WriteInt, WriteString;
TYPE Point = RECORD x, y: INTEGER END;
VAR count, i: INTEGER; c: CARDINAL; p: Point; line: ARRAY [0..9] OF CHAR;
PROCEDURE Local; VAR inside: INTEGER; BEGIN inside := 1 END Local;
```

- The name is misspelt: `cuont := 1`, at `cuont`. Write `count := 1`.
- Upper and lower case matter: `Count := 1`, at `Count`. Write `count := 1`.
- A standard name in lower case: `inc(i)`, at `inc`. Write `INC(i)`.
- The name is declared later: `TYPE Row = ARRAY [0..last] OF CHAR; CONST last = 9;`, at the first
  `last`. Write `CONST last = 9; TYPE Row = ARRAY [0..last] OF CHAR;`.
- The variable is declared after the procedure that uses it:
  `PROCEDURE P; BEGIN v := 1 END P; VAR v: INTEGER;`, at the first `v`. Write
  `VAR v: INTEGER; PROCEDURE P; BEGIN v := 1 END P;`.
- The variable belongs to another procedure: `inside := 2`, at `inside`. Write `count := 2`, a
  variable of the module, or pass it as an argument.
- The record has no such field: `p.z := 1`, at `z`. Write `p.x := 1`.
- The import is missing: `WriteCard(c, 0)`, at `WriteCard`. Write `WriteInt(count, 0)`, or add
  WriteCard to `FROM InOut IMPORT`.
- FROM imports the name alone: `InOut.WriteLn`, at `InOut`. Write `WriteLn`, or add `IMPORT InOut`.
- The module's own name: `M.count := 1`, at the first `M`. Write `count := 1`.
- A hexadecimal number that starts with a letter is taken for a name: `c := FFH`, at `FFH`. Write
  `c := 0FFH`.
- A type that contains itself: `TYPE Tree = RECORD left: Tree END;`, at the second `Tree`. Write
  `TYPE Tree = RECORD left: [0..99] END;`, an index into an array of trees.
- The constants of an enumeration come with the type that lists them. If you import only a variable
  of the type, or another name for it, import the type too.
- An implementation does not see what its definition imports. Import it again there.
- REAL, NIL, NEW, SIZE, FLOAT and LONGINT, among others, are not in this profile. profile.md says
  what to write instead.

## Broken

```modula2 m.mod
MODULE M;
VAR count: INTEGER;
BEGIN
  count := 0;
  cuont := 1
END M.
```

Refused: m.mod:5:3: refusal 30

## Mended

```modula2 m.mod
MODULE M;
VAR count: INTEGER;
BEGIN
  count := 0;
  count := 1
END M.
```
"#,
    },
    Topic {
        name: "31",
        page: r#"# Refusal 31: a name is declared twice

A name may be declared only once in the same scope. A module's imports, its definition and its own
declarations are one scope. The formals and variables of a procedure are another, and so are the
fields of a record.

Why: With two meanings for one name, it would not be clear which one is meant.

Place: the second of the two. If a constant clashes that came with an imported enumeration, the
place is the type's name in the import.

## Causes

```modula2 declarations
MODULE M; FROM InOut IMPORT Write;
TYPE Light = (red, green);
VAR i: INTEGER;
```

- Two variables of one name: `VAR i: CARDINAL;`, at `i`. Write `VAR k: CARDINAL;`.
- The same constant in two enumerations: `TYPE Fruit = (green, ripe);`, at `green`. Write
  `TYPE Fruit = (unripe, ripe);`.
- A procedure with the name of an imported one: `PROCEDURE Write; END Write;`, at the first `Write`.
  Write `PROCEDURE WriteAll; END WriteAll;`, or write `IMPORT InOut` and call `InOut.Write`.
- A formal and a variable: `PROCEDURE P(n: INTEGER); VAR n: INTEGER; END P;`, at the second `n`.
  Write `PROCEDURE P(n: INTEGER); END P;`; a formal is a variable already.
- Two fields: `TYPE R = RECORD x: INTEGER; x: CHAR END;`, at the second `x`. Write
  `TYPE R = RECORD x: INTEGER; c: CHAR END;`.
- An implementation repeats a declaration of its definition. Only procedures appear in both; leave
  constants, types and variables to the definition.

## Broken

```modula2 m.mod
MODULE M;
VAR i: INTEGER;
    i: CARDINAL;
END M.
```

Refused: m.mod:3:5: refusal 31

## Mended

```modula2 m.mod
MODULE M;
VAR i: INTEGER;
    k: CARDINAL;
END M.
```
"#,
    },
    Topic {
        name: "32",
        page: r#"# Refusal 32: the module does not export this name

A module exports what its definition declares, and nothing else. What the definition imports is not
exported. What appears only in the implementation is not either.

Why: The definition says what others may use. Everything else may change without notice.

Place: the name after the dot, or in the list of names after IMPORT.

Instead: Look up the name in the definition, and add it if it is missing there. Import a name from
the module that declares it, not from one that imports it. This project's InOut only writes: it has
Write, WriteLn, WriteString, WriteInt and WriteCard, but no ReadInt. Read, ReadString, ReadInt and
ReadCard are in Input.

## Broken

```modula2 m.mod
MODULE M;
FROM InOut IMPORT WriteInt, ReadInt;
BEGIN
  WriteInt(1, 0)
END M.
```

Refused: m.mod:2:29: refusal 32

## Mended

```modula2 m.mod
MODULE M;
FROM InOut IMPORT WriteInt;
BEGIN
  WriteInt(1, 0)
END M.
```
"#,
    },
    Topic {
        name: "33",
        page: r#"# Refusal 33: a type is needed here

Some places take only the name of a type. The result of a function may not be an array or a record.
A subrange, MAX, MIN and VAL take only INTEGER, CARDINAL, BOOLEAN, CHAR, enumerations and subranges.

Why: Such a place says what kind of value is meant, and a value cannot say that. A function returns
one simple value.

Place: the name; the argument of MAX, MIN or VAL.

## Causes

```modula2 declarations
MODULE M;
TYPE Row = ARRAY [0..9] OF INTEGER; Point = RECORD x, y: INTEGER END;
VAR i: INTEGER; row: Row; s: BITSET;
```

- A variable as a type: `VAR k: i;`, at `i`. Write `VAR k: INTEGER;`.
- A function that returns an array or a record:
  `PROCEDURE Read(): Row; VAR r: Row; BEGIN RETURN r END Read;`, at the first `Row`. Write
  `PROCEDURE Read(VAR r: Row); END Read;`, with a VAR formal for the result.
- MAX of a value: `i := MAX(i)`, at the second `i`. Write `i := MAX(INTEGER)`. MAX gives the
  greatest value of a type, not the greater of two numbers.
- VAL with its arguments in the wrong order: `i := VAL(3, INTEGER)`, at `3`. Write
  `i := VAL(INTEGER, 3)`.
- A subrange of an array or a record: `TYPE T = Row[0..3];`, at `Row`. Write
  `TYPE T = INTEGER[0..3];`.
- A name other than BITSET in front of a set: `s := Row{1, 2}`, at `Row`. Write `s := {1, 2}`.

## Broken

```modula2 m.mod
MODULE M;
TYPE Point = RECORD x, y: INTEGER END;
PROCEDURE Origin(): Point;
VAR p: Point;
BEGIN
  p.x := 0; p.y := 0;
  RETURN p
END Origin;
END M.
```

Refused: m.mod:3:21: refusal 33

## Mended

```modula2 m.mod
MODULE M;
TYPE Point = RECORD x, y: INTEGER END;
PROCEDURE Origin(VAR p: Point);
BEGIN
  p.x := 0; p.y := 0
END Origin;
END M.
```
"#,
    },
    Topic {
        name: "34",
        page: r#"# Refusal 34: a constant is needed here

A constant is known before the program runs. It consists of numbers, strings, sets, named constants,
operators, and ABS, CAP, CHR, ODD, ORD, VAL, MAX and MIN. Variables and calls of your own functions
are not constant, nor is HIGH.

Why: The compiler needs bounds and steps, and the sizes of arrays, before the program runs.

Place: the name, or the name of the function that is called.

## Causes

```modula2 declarations
MODULE M;
VAR n, i: INTEGER; c: CARDINAL; s: BITSET;
PROCEDURE Size(): CARDINAL; BEGIN RETURN 10 END Size;
```

- A constant computed from a variable: `CONST twice = 2 * n;`, at `n`. Write
  `CONST size = 5; twice = 2 * size;`.
- An array whose length is a variable: `VAR row: ARRAY [0..n] OF CHAR;`, at `n`. Write
  `CONST last = 99; VAR row: ARRAY [0..last] OF CHAR;`, large enough for every case.
- A call in a constant: `CONST size = Size();`, at `Size`. Write `CONST size = 10;`.
- A type's name as a function: `CONST k = CARDINAL(5);`, at `CARDINAL`. Write
  `CONST k = VAL(CARDINAL, 5);`.
- A variable as the step of a FOR: `FOR i := 1 TO 9 BY n DO END`, at `n`. Write
  `i := 1; WHILE i <= 9 DO i := i + n END`.
- A variable as an element in braces: `s := {c}`, at `c`. Write `s := {}; INCL(s, c)`.

## Broken

```modula2 m.mod
MODULE M;
VAR n: CARDINAL;
    row: ARRAY [0..n] OF CHAR;
END M.
```

Refused: m.mod:3:20: refusal 34

## Mended

```modula2 m.mod
MODULE M;
CONST n = 99;
VAR row: ARRAY [0..n] OF CHAR;
END M.
```
"#,
    },
    Topic {
        name: "35",
        page: r#"# Refusal 35: an empty range

In a range `a..b`, the first bound may not be greater than the second. This holds for subranges, for
the labels of a CASE and for sets.

Why: A range without values is nearly always a mistake. A variable of such a type could hold
nothing.

Place: the first bound.

Instead: Swap the bounds if they are in the wrong order. A range of one value is `a..a`. If the
second bound is a constant such as `n - 1`, check whether n is 0.

## Broken

```modula2 m.mod
MODULE M;
TYPE Digit = [9..0];
END M.
```

Refused: m.mod:2:15: refusal 35

## Mended

```modula2 m.mod
MODULE M;
TYPE Digit = [0..9];
END M.
```
"#,
    },
    Topic {
        name: "36",
        page: r#"# Refusal 36: this type cannot be an index

The index type of an array is a subrange, CHAR, BOOLEAN or an enumeration.

Why: An array has one element for each value of its index type. For INTEGER or CARDINAL that would
be far too many.

Place: the index type.

Instead: Write a range, as in `ARRAY [0..9] OF CHAR`. Both bounds belong to the range, so this array
has ten elements.

## Broken

```modula2 m.mod
MODULE M;
VAR row: ARRAY CARDINAL OF CHAR;
END M.
```

Refused: m.mod:2:16: refusal 36

## Mended

```modula2 m.mod
MODULE M;
VAR row: ARRAY [0..99] OF CHAR;
END M.
```
"#,
    },
    Topic {
        name: "37",
        page: r#"# Refusal 37: an enumeration with more than 256 constants

An enumeration has at most 256 constants.

Why: A value of an enumeration takes one byte, and a byte has 256 values.

Place: constant number 257.

Instead: Use a subrange of CARDINAL and named constants, or several enumerations.

In the example, `<<256 times c#, >>` stands for `c1, c2, ` and so on up to `c256, `.

## Broken

```modula2 m.mod
MODULE M;
TYPE Code = (<<256 times c#, >>
  last);
END M.
```

Refused: m.mod:3:3: refusal 37

## Mended

```modula2 m.mod
MODULE M;
TYPE Code = (<<255 times c#, >>
  last);
END M.
```
"#,
    },
    Topic {
        name: "38",
        page: r#"# Refusal 38: a type that is too large

A type has at most 131072 cells. A number, a character or another simple value is one cell. An array
has the cells of all its elements, and a record those of all its fields.

Why: The limit keeps every size within what the program's memory can hold.

Place: the type.

Instead: Use fewer elements, or split the array into several variables. Each of them may have 131072
cells.

## Broken

```modula2 m.mod
MODULE M;
VAR grid: ARRAY [0..399], [0..399] OF INTEGER;
END M.
```

Refused: m.mod:2:11: refusal 38

## Mended

```modula2 m.mod
MODULE M;
VAR upper, lower: ARRAY [0..199], [0..399] OF INTEGER;
END M.
```
"#,
    },
];

/// The page of a topic, if it is one of these.
pub fn page(topic: &str) -> Option<&'static str> {
    page_in(&TOPICS, topic)
}
