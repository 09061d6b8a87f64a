//! Pages: operands, values and numbers of arguments. tools/write_explanations writes this file: change the pages of docs/, and call it.

use crate::topic::{Topic, page_in};

/// The topics, each with its page.
static TOPICS: [Topic; 3] = [
    Topic {
        name: "40",
        page: r#"# Refusal 40: the types of the operands do not fit the operator

Each operator takes operands of certain types, and both operands have the same one. This number also
stands for other parts of a wrong type: a condition, a label, a bound, the record of a WITH. And it
stands for a name of the wrong kind, such as a call of something that is not a procedure.

Why: Numbers, characters and sets mean different things. A silent conversion between them could hide
a mistake.

Place: the operator. If there is none, the expression of the wrong type, or the name that is called
or assigned to. If something has no elements or fields, the `[` or the `.` after it.

## Causes

```modula2 declarations
MODULE M; IMPORT InOut;
TYPE Colour = (red, green, blue); Point = RECORD x, y: INTEGER END;
     Row = ARRAY [0..9] OF INTEGER;
CONST limit = 10;
VAR i, j: INTEGER; c: CARDINAL; b: BOOLEAN; ch: CHAR; s: BITSET; e: Colour;
    p, q: Point; a, d: Row; name: ARRAY [0..7] OF CHAR;
PROCEDURE Show(x: INTEGER); BEGIN END Show;
PROCEDURE Twice(x: INTEGER): INTEGER; BEGIN RETURN 2 * x END Twice;
```

Numbers and characters:

- INTEGER with CARDINAL: `i := i + c`, at `+`. Write `i := i + VAL(INTEGER, c)`, or give both
  variables one type.
- INTEGER compared with CARDINAL: `b := i < c`, at `<`. Write
  `b := (i < 0) OR (VAL(CARDINAL, i) < c)`.
- ORD gives a CARDINAL: `i := i + ORD(ch)`, at `+`. Write `i := i + VAL(INTEGER, ORD(ch))`.
- A minus sign before a CARDINAL: `i := -c`, at `-`. Write `i := -VAL(INTEGER, c)`.
- `/` does not divide numbers: `i := i / 2`, at `/`. Write `i := i DIV 2`.
- Arithmetic with characters: `ch := ch + 1`, at `+`. Write `ch := CHR(ORD(ch) + 1)`.
- Arithmetic with an enumeration: `e := e + 1`, at `+`. Write `INC(e)`.
- AND on the bits of numbers: `c := c AND 7`, at `AND`. Write `c := c MOD 8`, or use a BITSET.
- A type's name as a function: `c := CARDINAL(i)`, at `CARDINAL`. Write `c := VAL(CARDINAL, i)`.

Conditions:

- AND binds more tightly than comparisons: `IF i > 0 AND b THEN END`, at `AND`. Write
  `IF (i > 0) AND b THEN END`.
- So does NOT: `b := NOT i = j`, at `NOT`. Write `b := NOT (i = j)`, or `b := i # j`.
- A number is not a condition: `IF i THEN END`, at `i`. Write `IF i # 0 THEN END`.
- A BOOLEAN is not a number: `IF b = 1 THEN END`, at `=`. Write `IF b THEN END`.

Arrays, records and strings:

- Arrays and records are not compared as a whole: `b := p = q`, at `=`. Write
  `b := (p.x = q.x) AND (p.y = q.y)`.
- Nor is an array of characters compared with a string: `b := name = "x"`, at `=`. Write
  `b := (name[0] = "x") AND (name[1] = 0C)`, or a loop.
- `+` does not join strings: `name := "ab" + "cd"`, at `+`. Write `name := "abcd"`.
- A subscript after something that is not an array: `i := c[1]`, at `[`. Write `i := a[1]`.
- A subscript too many: `i := a[1, 2]`, at `[`. Write `i := a[1]`.
- A field of something that is not a record: `i := a.x`, at `.`. Write `i := p.x`.
- Round brackets around a subscript: `i := a(1)`, at `a`. Write `i := a[1]`.
- WITH needs a record: `WITH a DO END`, at `a`. Write `WITH p DO END`.

Sets:

- A number is not a set: `s := s + 3`, at `+`. Write `INCL(s, 3)`, or `s := s + {3}`.
- A character before IN: `b := ch IN s`, at `IN`. Write `b := ORD(ch) IN s`; only 0 to 31 are
  elements.

Procedures and names:

- A function called as a statement: `Twice(3)`, at `Twice`. Write `i := Twice(3)`.
- A procedure without a result in an expression: `i := Show(3)`, at `Show`. Write `Show(3)`.
- Assigning the result to the function's name: `PROCEDURE F(): INTEGER; BEGIN F := 1 END F;`, at the
  second `F`. Write `PROCEDURE F(): INTEGER; BEGIN RETURN 1 END F;`.
- Assigning to a constant: `limit := 3`, at `limit`. Write `i := 3`, or declare limit as a variable.
- A variable alone is not a statement: `i`, at `i`. Write `INC(i)`, or what is meant.
- A type as a value: `i := INTEGER`, at `INTEGER`. Write `i := MAX(INTEGER)`.
- A module as a value: `i := InOut`, at `InOut`. Write `InOut.WriteInt(i, 0)`, with the name of what
  is meant.

Labels and bounds:

- A label of another type: `CASE i OF "a": END`, at `"a"`. Write `CASE ch OF "a": END`.
- Bounds of two types: `TYPE T = [1.."z"];`, at `"z"`. Write `TYPE T = ["a".."z"];`.
- CASE over an array: `CASE name OF "a": END`, at `name`. Write `CASE name[0] OF "a": END`.
- A step that is not a number: `FOR ch := "a" TO "z" BY "b" DO END`, at `"b"`. Write
  `FOR ch := "a" TO "z" BY 2 DO END`.

## Broken

```modula2 m.mod
MODULE M;
VAR i: INTEGER; c: CARDINAL;
BEGIN
  c := 2;
  i := i + c
END M.
```

Refused: m.mod:5:10: refusal 40

## Mended

```modula2 m.mod
MODULE M;
VAR i: INTEGER; c: CARDINAL;
BEGIN
  c := 2;
  i := i + VAL(INTEGER, c)
END M.
```
"#,
    },
    Topic {
        name: "41",
        page: r#"# Refusal 41: the value does not fit the variable

A variable takes values of its own type. INTEGER and CARDINAL can be assigned to each other, and
subranges to whatever they are a part of, and back. A string fits an array of CHAR that is long
enough. The same holds for the value of a RETURN, the start and limit of a FOR, and a subscript.

Why: A type that is written out twice is two types, even if both look alike. So no value ends up in
a variable that was meant for something else.

Place: the start of the value, or of the subscript.

## Causes

```modula2 declarations
MODULE M;
TYPE Colour = (red, green, blue); Change = PROCEDURE(INTEGER): INTEGER;
VAR i: INTEGER; c: CARDINAL; b: BOOLEAN; ch: CHAR; s: BITSET; e: Colour; f: Change;
    a: ARRAY [0..9] OF INTEGER; name: ARRAY [0..7] OF CHAR;
PROCEDURE Show(x: INTEGER); BEGIN END Show;
PROCEDURE Twice(x: INTEGER): INTEGER; BEGIN RETURN 2 * x END Twice;
PROCEDURE Next(): INTEGER; BEGIN RETURN 1 END Next;
```

- A number for a character: `ch := 65`, at `65`. Write `ch := CHR(65)`, or `ch := 101C`, the code in
  octal.
- A character for a number: `c := ch`, at `ch`. Write `c := ORD(ch)`.
- A digit in quotes is a character: `c := "7"`, at `"7"`. Write `c := 7`; for a variable,
  `c := ORD(ch) - ORD("0")`.
- A number for a BOOLEAN: `b := 1`, at `1`. Write `b := TRUE`.
- A number for an enumeration: `e := 1`, at `1`. Write `e := VAL(Colour, 1)`, or `e := green`.
- An enumeration for a number: `c := e`, at `e`. Write `c := ORD(e)`.
- A number for a set: `s := 3`, at `3`. Write `s := {3}`.
- A string longer than the array: `name := "nine char"`, at `"nine char"`. Write
  `name := "eight ch"`, or make the array longer.
- A string that is not one character long, for a CHAR: `ch := ""`, at `""`. Write `ch := 0C`, or
  `ch := " "`.
- A character code for an array: `name := 101C`, at `101C`. Write `name[0] := 101C; name[1] := 0C`.
- Two arrays with types of their own:
  `VAR x: ARRAY [0..3] OF CHAR; y: ARRAY [0..3] OF CHAR; BEGIN x := y`, at the second `y`. Write
  `TYPE Word = ARRAY [0..3] OF CHAR; VAR x: Word; y: Word; BEGIN x := y`, with one name for the
  type.
- An open array as a whole: `PROCEDURE P(t: ARRAY OF CHAR); BEGIN name := t END P;`, at the second
  `t`. Write
  `PROCEDURE P(t: ARRAY OF CHAR); VAR k: CARDINAL; BEGIN FOR k := 0 TO HIGH(t) DO name[k] := t[k] END END P;`.
- A function without its brackets is not called: `i := Next`, at `Next`. Write `i := Next()`.
- A procedure whose heading differs from the procedure type: `f := Show`, at `Show`. Write
  `f := Twice`.
- The value of a RETURN: `PROCEDURE F(): CHAR; BEGIN RETURN 1 END F;`, at `1`. Write
  `PROCEDURE F(): CHAR; BEGIN RETURN "1" END F;`.
- A subscript of another type: `i := a["1"]`, at `"1"`. Write `i := a[1]`.
- The start of a FOR: `FOR i := "a" TO "z" DO END`, at `"a"`. Write `FOR ch := "a" TO "z" DO END`.
- The limit of a FOR: `FOR i := 1 TO TRUE DO END`, at `TRUE`. Write `FOR i := 1 TO 9 DO END`.

## Broken

```modula2 m.mod
MODULE M;
VAR first: ARRAY [0..9] OF INTEGER;
    second: ARRAY [0..9] OF INTEGER;
BEGIN
  first := second
END M.
```

Refused: m.mod:5:12: refusal 41

## Mended

```modula2 m.mod
MODULE M;
TYPE Row = ARRAY [0..9] OF INTEGER;
VAR first: Row;
    second: Row;
BEGIN
  first := second
END M.
```
"#,
    },
    Topic {
        name: "42",
        page: r#"# Refusal 42: too many or too few arguments

A call has as many arguments as the heading of the procedure has formals. Only INC and DEC may leave
out their second argument.

Why: A missing argument would leave a formal without a value.

Place: the name of the procedure that is called; in `M.x`, the `M`.

## Causes

```modula2 declarations
MODULE M; FROM InOut IMPORT WriteInt, WriteLn, Write;
VAR i, j, most: INTEGER; c: CARDINAL;
PROCEDURE Add(x, y: INTEGER): INTEGER; BEGIN RETURN x + y END Add;
```

- An argument is missing: `WriteInt(i)`, at `WriteInt`. Write `WriteInt(i, 6)`; the second argument
  is the width.
- There is one argument too many: `WriteLn(1)`, at `WriteLn`. Write `WriteLn`.
- MAX does not compare two numbers: `most := MAX(i, j)`, at `MAX`. Write
  `IF i > j THEN most := i ELSE most := j END`.
- Several characters at once: `Write("a", "b")`, at `Write`. Write `Write("a"); Write("b")`.
- HALT with a status: `HALT(1)`, at `HALT`. Write `HALT`.

## Broken

```modula2 m.mod
MODULE M;
FROM InOut IMPORT WriteInt;
BEGIN
  WriteInt(7)
END M.
```

Refused: m.mod:4:3: refusal 42

## Mended

```modula2 m.mod
MODULE M;
FROM InOut IMPORT WriteInt;
BEGIN
  WriteInt(7, 0)
END M.
```
"#,
    },
];

/// The page of a topic, if it is one of these.
pub fn page(topic: &str) -> Option<&'static str> {
    page_in(&TOPICS, topic)
}
