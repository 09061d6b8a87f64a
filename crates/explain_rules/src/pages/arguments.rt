//! Pages: arguments, and statements that stand in the wrong place. tools/write_explanations writes this file: change the pages of docs/, and call it.

use crate::topic::{Topic, page_in};

/// The topics, each with its page.
static TOPICS: [Topic; 5] = [
    Topic {
        name: "43",
        page: r#"# Refusal 43: the argument does not fit the formal

A formal without VAR takes what can be assigned to a variable of its type. For an array or a record,
this is a variable of the same type. `ARRAY OF T` takes an array whose index starts at 0 and whose
elements have type T. `ARRAY OF CHAR` also takes a string.

Why: The procedure was written for values of this type only. The first element of an open array
always has number 0.

Place: the argument.

## Causes

```modula2 declarations
MODULE M; FROM InOut IMPORT Write, WriteString, WriteInt, WriteCard;
TYPE Name = ARRAY [0..7] OF CHAR; Row = ARRAY [0..3] OF INTEGER;
VAR i: INTEGER; ch: CHAR; s: BITSET; b: BOOLEAN; name: Name; row: Row;
    other: ARRAY [0..7] OF CHAR; fromOne: ARRAY [1..20] OF CHAR;
PROCEDURE Greet(n: Name); BEGIN WriteString(n) END Greet;
```

- An array whose index starts at 1: `WriteString(fromOne)`, at `fromOne`. Write `WriteString(name)`,
  and declare the array as `ARRAY [0..19] OF CHAR`. Many textbooks allow it. In this profile, open
  arrays take only arrays from 0.
- An array of another type: `Greet(other)`, at `other`. Write `Greet(name)`, and declare the
  variable with the name of the formal's type.
- A string for an array that is not open: `Greet("Ada")`, at `"Ada"`. Write
  `name := "Ada"; Greet(name)`.
- A number for a character: `Write(65)`, at `65`. Write `Write(CHR(65))`.
- A string of several characters for a CHAR: `Write("ab")`, at `"ab"`. Write `WriteString("ab")`.
- A character for a string: `WriteString(ch)`, at `ch`. Write `Write(ch)`.
- A BOOLEAN for a number: `WriteCard(b, 0)`, at `b`. Write `WriteCard(ORD(b), 0)`.
- CHR of a character: `ch := CHR("a")`, at `"a"`. Write `ch := "a"`.
- HIGH of an array that is not open: `i := HIGH(row)`, at `row`. Write `i := 3`.

## Broken

```modula2 m.mod
MODULE M;
FROM InOut IMPORT WriteString;
VAR name: ARRAY [1..20] OF CHAR;
BEGIN
  name := "Ada";
  WriteString(name)
END M.
```

Refused: m.mod:6:15: refusal 43

## Mended

```modula2 m.mod
MODULE M;
FROM InOut IMPORT WriteString;
VAR name: ARRAY [0..19] OF CHAR;
BEGIN
  name := "Ada";
  WriteString(name)
END M.
```
"#,
    },
    Topic {
        name: "44",
        page: r#"# Refusal 44: a variable of the same type is needed here

A VAR formal takes a variable of exactly the same type. INC and DEC take a variable that holds a
number, a character, a BOOLEAN or an enumeration. INCL and EXCL take a BITSET variable.

Why: The procedure may change the variable. A value that is not a variable cannot be changed. A
variable of another type could get a value that it cannot hold.

Place: the argument.

## Causes

```modula2 declarations
MODULE M;
TYPE Digit = [0..9];
CONST limit = 10;
VAR i, j: INTEGER; c: CARDINAL; digit: Digit; s: BITSET; a: ARRAY [0..3] OF INTEGER;
    row: ARRAY [1..4] OF INTEGER;
PROCEDURE Swap(VAR x, y: INTEGER); VAR t: INTEGER; BEGIN t := x; x := y; y := t END Swap;
PROCEDURE Clear(VAR x: ARRAY OF INTEGER); BEGIN x[0] := 0 END Clear;
```

- A constant: `Swap(i, 3)`, at `3`. Write `j := 3; Swap(i, j)`.
- An expression, even a variable in brackets: `Swap(i, (j))`, at the second `(`. Write `Swap(i, j)`.
- Another type, even if it could be assigned: `Swap(i, c)`, at `c`. Write
  `j := c; Swap(i, j); c := j`.
- A subrange of the type: `Swap(i, digit)`, at `digit`. Write `j := digit; Swap(i, j); digit := j`.
- An array whose index does not start at 0, for an open array: `Clear(row)`, at `row`. Write
  `Clear(a)`, and declare the array from 0.
- INC of a constant: `INC(limit)`, at `limit`. Write `i := limit + 1`.
- INC of an array: `INC(a)`, at `a`. Write `INC(a[0])`.
- INCL into a number: `INCL(c, 1)`, at `c`. Write `INCL(s, 1)`.

## Broken

```modula2 m.mod
MODULE M;
VAR i: INTEGER; c: CARDINAL;
PROCEDURE Double(VAR x: INTEGER);
BEGIN x := 2 * x END Double;
BEGIN
  i := 1; c := 2;
  Double(c)
END M.
```

Refused: m.mod:7:10: refusal 44

## Mended

```modula2 m.mod
MODULE M;
VAR i: INTEGER; c: CARDINAL;
PROCEDURE Double(VAR x: INTEGER);
BEGIN x := 2 * x END Double;
BEGIN
  i := 1; c := 2;
  Double(i)
END M.
```
"#,
    },
    Topic {
        name: "45",
        page: r#"# Refusal 45: EXIT outside a LOOP

EXIT leaves the innermost LOOP around it, in the same procedure. It does not leave a WHILE, REPEAT
or FOR.

Why: A WHILE ends when its condition is false, and in no other way. Readers can rely on that.

Place: the EXIT.

Instead: Turn the WHILE or REPEAT into a LOOP, with `IF .. THEN EXIT END` inside. Or add a BOOLEAN
to its condition. To leave a procedure, write RETURN. A procedure that is called in a LOOP cannot
end the loop: let it return a BOOLEAN, and write EXIT after the call.

## Broken

```modula2 m.mod
MODULE M;
VAR i: INTEGER;
BEGIN
  WHILE i < 10 DO
    IF i = 5 THEN EXIT END;
    INC(i)
  END
END M.
```

Refused: m.mod:5:19: refusal 45

## Mended

```modula2 m.mod
MODULE M;
VAR i: INTEGER;
BEGIN
  LOOP
    IF (i >= 10) OR (i = 5) THEN EXIT END;
    INC(i)
  END
END M.
```
"#,
    },
    Topic {
        name: "46",
        page: r#"# Refusal 46: RETURN with a value, or without one

In a function, every RETURN has a value. In a procedure without a result, and in the body of a
module, no RETURN has one.

Why: The heading says whether there is a result, and every call relies on it.

Place: the RETURN.

## Causes

```modula2 declarations
MODULE M;
VAR i: INTEGER;
```

- The heading has no result type: `PROCEDURE Twice(x: INTEGER); BEGIN RETURN 2 * x END Twice;`, at
  `RETURN`. Write `PROCEDURE Twice(x: INTEGER): INTEGER; BEGIN RETURN 2 * x END Twice;`.
- A function returns no value: `PROCEDURE One(): INTEGER; BEGIN RETURN END One;`, at `RETURN`. Write
  `PROCEDURE One(): INTEGER; BEGIN RETURN 1 END One;`.
- The program returns a status, as in C: `RETURN 0`, at `RETURN`. Write `RETURN`, or HALT.

## Broken

```modula2 m.mod
MODULE M;
PROCEDURE Twice(x: INTEGER);
BEGIN
  RETURN 2 * x
END Twice;
END M.
```

Refused: m.mod:4:3: refusal 46

## Mended

```modula2 m.mod
MODULE M;
PROCEDURE Twice(x: INTEGER): INTEGER;
BEGIN
  RETURN 2 * x
END Twice;
END M.
```
"#,
    },
    Topic {
        name: "47",
        page: r#"# Refusal 47: this variable cannot control a FOR

The control variable of a FOR belongs to the module, or to the procedure in which the FOR is. It
holds a number, a character, a BOOLEAN or an enumeration. It may not be a formal, a field, an
imported variable, or a variable of an outer procedure.

Why: The loop counts with this variable, so it should be clear who can change it.

Place: the variable.

## Causes

```modula2 declarations
MODULE M;
TYPE Point = RECORD x, y: INTEGER END;
VAR i: INTEGER; p: Point; a: ARRAY [0..3] OF INTEGER; s: BITSET;
```

- A formal: `PROCEDURE P(n: INTEGER); BEGIN FOR n := 1 TO 9 DO END END P;`, at the second `n`. Write
  `PROCEDURE P(n: INTEGER); VAR k: INTEGER; BEGIN FOR k := 1 TO 9 DO END END P;`.
- A variable of the outer procedure:
  `PROCEDURE P; VAR k: INTEGER; PROCEDURE Q; BEGIN FOR k := 1 TO 9 DO END END Q; END P;`, at the
  second `k`. Write
  `PROCEDURE P; PROCEDURE Q; VAR k: INTEGER; BEGIN FOR k := 1 TO 9 DO END END Q; END P;`.
- A field under WITH: `WITH p DO FOR x := 1 TO 9 DO END END`, at `x`. Write
  `FOR i := 1 TO 9 DO p.x := i END`.
- An array or a set: `FOR s := 1 TO 9 DO END`, at `s`. Write `FOR i := 1 TO 9 DO INCL(s, i) END`.

## Broken

```modula2 m.mod
MODULE M;
PROCEDURE Count(n: INTEGER);
BEGIN
  FOR n := 1 TO 9 DO END
END Count;
END M.
```

Refused: m.mod:4:7: refusal 47

## Mended

```modula2 m.mod
MODULE M;
PROCEDURE Count(n: INTEGER);
VAR i: INTEGER;
BEGIN
  FOR i := 1 TO n DO END
END Count;
END M.
```
"#,
    },
];

/// The page of a topic, if it is one of these.
pub fn page(topic: &str) -> Option<&'static str> {
    page_in(&TOPICS, topic)
}
