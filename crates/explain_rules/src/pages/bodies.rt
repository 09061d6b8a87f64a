//! Pages: statements, and bodies without their definitions. tools/write_explanations writes this file: change the pages of docs/, and call it.

use crate::topic::{Topic, page_in};

/// The topics, each with its page.
static TOPICS: [Topic; 6] = [
    Topic {
        name: "48",
        page: r#"# Refusal 48: the step of a FOR is 0

The step after BY is a constant other than 0. It may be negative. Without BY it is 1.

Why: With a step of 0 the loop would never end.

Place: the step.

Instead: Write the step that you mean. For a loop without an end, write LOOP.

## Broken

```modula2 m.mod
MODULE M;
CONST step = 0;
VAR i: INTEGER;
BEGIN
  FOR i := 1 TO 9 BY step DO END
END M.
```

Refused: m.mod:5:22: refusal 48

## Mended

```modula2 m.mod
MODULE M;
CONST step = 2;
VAR i: INTEGER;
BEGIN
  FOR i := 1 TO 9 BY step DO END
END M.
```
"#,
    },
    Topic {
        name: "49",
        page: r#"# Refusal 49: a label that appears twice, or is not a constant

The labels of a CASE are constants, and no value appears in two of them. A range stands for all its
values.

Why: For each value, it must be clear which arm is executed.

Place: the label. A range is one label, marked at its start.

## Causes

```modula2 declarations
MODULE M;
TYPE Colour = (red, green, blue);
VAR i, j: INTEGER; e: Colour; ch: CHAR;
```

- The same value twice: `CASE i OF 1: | 2, 1: END`, at the second `1`. Write
  `CASE i OF 1: | 2: END`.
- Ranges that overlap: `CASE i OF 1..5: | 5..9: END`, at the second `5`. Write
  `CASE i OF 1..5: | 6..9: END`.
- The same character, written in two ways: `CASE ch OF "A": | 101C: END`, at `101C`. Write
  `CASE ch OF "A": | "B": END`.
- A variable as a label: `CASE i OF j: END`, at `j`. Write `IF i = j THEN END`.

## Broken

```modula2 m.mod
MODULE M;
VAR grade: CARDINAL;
BEGIN
  CASE grade OF
    1..3: grade := 0
  | 3..6: grade := 1
  END
END M.
```

Refused: m.mod:6:5: refusal 49

## Mended

```modula2 m.mod
MODULE M;
VAR grade: CARDINAL;
BEGIN
  CASE grade OF
    1..3: grade := 0
  | 4..6: grade := 1
  ELSE
  END
END M.
```
"#,
    },
    Topic {
        name: "50",
        page: r#"# Refusal 50: the heading differs from the one in the definition

The heading of an exported procedure must agree with the one in the definition. It has the same
number of formals, with the same types, VAR for the same ones, and the same result. The names of the
formals may differ.

Why: Other modules call the procedure as the definition says.

Place: the procedure's name in the implementation.

Instead: Copy the heading from the definition, or change both. If the types look alike, note that
each declaration makes a new type. Declare the type once, in the definition, and use its name in
both headings.

## Broken

```modula2 Sums.def
DEFINITION MODULE Sums;
PROCEDURE Add(x: INTEGER; VAR sum: INTEGER);
END Sums.
```

```modula2 Sums.mod
IMPLEMENTATION MODULE Sums;
PROCEDURE Add(x: INTEGER; sum: INTEGER);
BEGIN sum := sum + x END Add;
END Sums.
```

```modula2 m.mod
MODULE M;
END M.
```

Refused: Sums.mod:2:11: refusal 50

## Mended

```modula2 Sums.def
DEFINITION MODULE Sums;
PROCEDURE Add(x: INTEGER; VAR sum: INTEGER);
END Sums.
```

```modula2 Sums.mod
IMPLEMENTATION MODULE Sums;
PROCEDURE Add(x: INTEGER; VAR sum: INTEGER);
BEGIN sum := sum + x END Add;
END Sums.
```

```modula2 m.mod
MODULE M;
END M.
```
"#,
    },
    Topic {
        name: "51",
        page: r#"# Refusal 51: an exported procedure is missing

Every procedure whose heading is in the definition must be in the implementation. It must belong to
the module itself, not to another procedure.

Why: Other modules rely on it.

Place: the module's name after IMPLEMENTATION MODULE, since what is missing has no place of its own.

Instead: Compare the names in both files letter by letter. Write the procedure, or remove its
heading from the definition.

## Broken

```modula2 Sums.def
DEFINITION MODULE Sums;
PROCEDURE Add(x, y: INTEGER): INTEGER;
END Sums.
```

```modula2 Sums.mod
IMPLEMENTATION MODULE Sums;
END Sums.
```

```modula2 m.mod
MODULE M;
END M.
```

Refused: Sums.mod:1:23: refusal 51

## Mended

```modula2 Sums.def
DEFINITION MODULE Sums;
PROCEDURE Add(x, y: INTEGER): INTEGER;
END Sums.
```

```modula2 Sums.mod
IMPLEMENTATION MODULE Sums;
PROCEDURE Add(x, y: INTEGER): INTEGER;
BEGIN RETURN x + y END Add;
END Sums.
```

```modula2 m.mod
MODULE M;
END M.
```
"#,
    },
    Topic {
        name: "52",
        page: r#"# Refusal 52: a constant that is out of range

A constant must fit the place where it is used. The result of an operation on constants must fit its
type. A constant divisor must be 1 or more.

Why: The program would end with a fault whenever it got there. The compiler can tell you earlier.

Place: the operator, if its result is out of range or its divisor is below 1. Otherwise the
constant.

## Causes

```modula2 declarations
MODULE M;
TYPE Hour = [0..23]; Colour = (red, green, blue);
VAR i: INTEGER; c: CARDINAL; h: Hour; ch: CHAR; s: BITSET; e: Colour; b: BOOLEAN;
    a: ARRAY [0..9] OF INTEGER;
```

- A negative number for a CARDINAL: `c := -1`, at `-`. Write `i := -1`.
- A negative number added to a CARDINAL: `c := c + (-1)`, at the first `(`. Write `c := c - 1`.
- A number outside a subrange: `h := 24`, at `24`. Write `h := 0`.
- A number beyond INTEGER: `i := 2147483648`, at `2147483648`. Write `c := 2147483648`.
- A subscript outside the array: `a[10] := 0`, at `10`. Write `a[9] := 0`, the last element of
  `ARRAY [0..9]`.
- A divisor of 0: `i := i DIV 0`, at `DIV`. Write `i := i DIV 2`.
- A negative divisor: `i := i DIV (-2)`, at `DIV`. Write `i := -(i DIV 2)`.
- A result that is too large: `c := 4294967295 + 1`, at `+`. Write `c := 4294967295`.
- A character code over 255: `ch := CHR(256)`, at `256`. Write `ch := CHR(255)`.
- An element over 31: `s := {32}`, at `32`. Write `s := {31}`.
- A number that an enumeration does not have: `e := VAL(Colour, 3)`, at `3`. Write
  `e := VAL(Colour, 2)`; the first constant has number 0.

## Broken

```modula2 m.mod
MODULE M;
VAR c: CARDINAL;
BEGIN
  c := -1
END M.
```

Refused: m.mod:4:8: refusal 52

## Mended

```modula2 m.mod
MODULE M;
VAR c: INTEGER;
BEGIN
  c := -1
END M.
```
"#,
    },
    Topic {
        name: "53",
        page: r#"# Refusal 53: this procedure cannot be used as a value

A procedure variable takes procedures that belong to a module. It does not take standard procedures
such as ABS or INC, nor `Console.Put`, nor a procedure inside another one.

Why: An inner procedure can use the variables of the outer one, and these are gone when the outer
one ends. Standard procedures are not real procedures: the compiler replaces them with code.

Place: the name of the procedure; in `M.x`, the `M`.

## Causes

```modula2 declarations
MODULE M; FROM Console IMPORT Put;
TYPE Writer = PROCEDURE(CHAR); Change = PROCEDURE(INTEGER): INTEGER;
VAR w: Writer; f: Change; i: INTEGER;
PROCEDURE Magnitude(x: INTEGER): INTEGER; BEGIN RETURN ABS(x) END Magnitude;
PROCEDURE Show(ch: CHAR); BEGIN Put(ch) END Show;
```

- A standard procedure: `f := ABS`, at `ABS`. Write `f := Magnitude`, a procedure that calls it.
- Put of Console: `w := Put`, at `Put`. Write `w := Show`, a procedure that calls it.
- A standard function without its arguments: `i := ORD`, at `ORD`. Write `i := ORD("a")`.
- An inner procedure:
  `PROCEDURE P; PROCEDURE Q(ch: CHAR); BEGIN Put(ch) END Q; BEGIN w := Q END P;`, at the third `Q`.
  Write `PROCEDURE Q(ch: CHAR); BEGIN Put(ch) END Q; PROCEDURE P; BEGIN w := Q END P;`.

## Broken

```modula2 m.mod
MODULE M;
FROM Console IMPORT Put;
VAR write: PROCEDURE(CHAR);
BEGIN
  write := Put;
  write("A")
END M.
```

Refused: m.mod:5:12: refusal 53

## Mended

```modula2 m.mod
MODULE M;
FROM Console IMPORT Put;
VAR write: PROCEDURE(CHAR);
PROCEDURE Show(ch: CHAR);
BEGIN Put(ch) END Show;
BEGIN
  write := Show;
  write("A")
END M.
```
"#,
    },
];

/// The page of a topic, if it is one of these.
pub fn page(topic: &str) -> Option<&'static str> {
    page_in(&TOPICS, topic)
}
