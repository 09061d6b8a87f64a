//! Pages: how programs end. tools/write_explanations writes this file: change the pages of docs/, and call it.

use crate::topic::{Topic, page_in};

/// The topics, each with its page.
static TOPICS: [Topic; 10] = [
    Topic {
        name: "fault 0",
        page: r#"# End 0: the program ended by itself

The program came to the end of its body, or to a RETURN there. This is not a fault. `m2run` adds
nothing to the output and ends with status 0.

Why: As everywhere, 0 means that all went well.

## Example

```modula2 m.mod
MODULE M;
FROM InOut IMPORT WriteString, WriteLn;
BEGIN
  WriteString("done"); WriteLn
END M.
```

```text prints
done
```

Ends: 0
"#,
    },
    Topic {
        name: "fault 1",
        page: r#"# Fault 1: range

A value did not fit the place that it was meant for. The place may be a variable, a formal, the
result of a function, or an operand of CHR, VAL, ORD, IN, INCL or EXCL.

Why: If the program went on with a wrong value, the mistake would show up far from its cause.

Instead: Find out where the value comes from, and test it first. Or give the variable a wider type.

## Causes

- A subrange gets a value outside its bounds. This can also be the work of INC, DEC or FOR.
- A CARDINAL gets a negative value, or an INTEGER gets one over 2147483647.
- CHR gets a number that is not from 0 to 255. VAL gets a number that the type does not have.
- ORD gets a negative number.
- The number before IN, or the one given to INCL or EXCL, is not from 0 to 31.

## Broken

```modula2 m.mod
MODULE M;
FROM InOut IMPORT WriteCard, WriteLn;
VAR hour: [0..23];
BEGIN
  hour := 23;
  WriteCard(hour, 0); WriteLn;
  hour := hour + 1;
  WriteCard(hour, 0); WriteLn
END M.
```

```text prints
23
```

Ends: fault 1

## Mended

```modula2 m.mod
MODULE M;
FROM InOut IMPORT WriteCard, WriteLn;
VAR hour: [0..23];
BEGIN
  hour := 23;
  WriteCard(hour, 0); WriteLn;
  hour := (hour + 1) MOD 24;
  WriteCard(hour, 0); WriteLn
END M.
```

```text prints
23
0
```

Ends: 0
"#,
    },
    Topic {
        name: "fault 2",
        page: r#"# Fault 2: overflow

The result of `+`, `-`, `*`, ABS, INC or DEC is outside its type. An INTEGER is from -2147483648 to
2147483647, a CARDINAL from 0 to 4294967295.

Why: Otherwise the program would go on with a wrong number, and nobody would notice.

`m2 run` says on which line that was, and what the result would have been. `m2run` prints only the
fault, since compiled modules hold no places.

Instead: Use INTEGER for numbers that may become negative. Compare before you subtract.

## Causes

- A CARDINAL falls below 0. This is the most common cause: `c - 1` when c is 0, or `a - b` when a is
  less than b.
- A sum or a product becomes too large for its type.
- ABS or a minus sign is applied to -2147483648.

## Broken

```modula2 m.mod
MODULE M;
FROM InOut IMPORT WriteCard, WriteLn;
VAR c: CARDINAL;
BEGIN
  c := 1;
  WHILE c >= 0 DO WriteCard(c, 0); WriteLn; c := c - 1 END
END M.
```

```text prints
1
0
```

Ends: fault 2

## Mended

```modula2 m.mod
MODULE M;
FROM InOut IMPORT WriteInt, WriteLn;
VAR i: INTEGER;
BEGIN
  i := 1;
  WHILE i >= 0 DO WriteInt(i, 0); WriteLn; i := i - 1 END
END M.
```

```text prints
1
0
```

Ends: 0
"#,
    },
    Topic {
        name: "fault 3",
        page: r#"# Fault 3: index

A subscript is outside the index type of the array. An open array has the subscripts 0 to HIGH.

Why: Otherwise the program would read or change other variables, which happen to be stored after the
array.

Instead: Name the bounds as constants, and use these both in the type and in the loop. In a
condition, test the index first: `(i < n) AND (a[i] # x)`.

## Causes

- A loop goes one step too far: to n, and not to n - 1.
- The array starts at 0 and the loop at 1, or the other way round.
- A search runs past the last element, because the condition tests the element before the index.

## Broken

```modula2 m.mod
MODULE M;
FROM InOut IMPORT WriteCard, WriteLn;
VAR square: ARRAY [0..3] OF CARDINAL; i: CARDINAL;
BEGIN
  FOR i := 1 TO 4 DO
    square[i] := i * i; WriteCard(square[i], 0); WriteLn
  END
END M.
```

```text prints
1
4
9
```

Ends: fault 3

## Mended

```modula2 m.mod
MODULE M;
FROM InOut IMPORT WriteCard, WriteLn;
CONST last = 4;
VAR square: ARRAY [1..last] OF CARDINAL; i: CARDINAL;
BEGIN
  FOR i := 1 TO last DO
    square[i] := i * i; WriteCard(square[i], 0); WriteLn
  END
END M.
```

```text prints
1
4
9
16
```

Ends: 0
"#,
    },
    Topic {
        name: "fault 4",
        page: r#"# Fault 4: divisor

The right side of DIV or MOD was 0 or less.

Why: Division by 0 has no result. On negative divisors, books and machines do not agree, so this
language leaves them out.

Instead: Test the divisor before the division.

## Causes

- The mean of no values at all: the count is 0.
- The divisor is negative. Divide by its ABS, and change the sign of the result yourself.

## Broken

```modula2 m.mod
MODULE M;
FROM InOut IMPORT WriteString, WriteInt, WriteLn;
VAR sum, count: INTEGER;
BEGIN
  WriteString("The mean is"); WriteLn;
  WriteInt(sum DIV count, 0); WriteLn
END M.
```

```text prints
The mean is
```

Ends: fault 4

## Mended

```modula2 m.mod
MODULE M;
FROM InOut IMPORT WriteString, WriteInt, WriteLn;
VAR sum, count: INTEGER;
BEGIN
  WriteString("The mean is"); WriteLn;
  IF count = 0 THEN WriteString("unknown") ELSE WriteInt(sum DIV count, 0) END;
  WriteLn
END M.
```

```text prints
The mean is
unknown
```

Ends: 0
"#,
    },
    Topic {
        name: "fault 5",
        page: r#"# Fault 5: case

The value of a CASE has no label, and the CASE has no ELSE.

Why: A forgotten case should be noticed, not silently skipped.

Instead: Add the missing labels. If the other values need no action, write an ELSE with nothing
after it.

## Broken

```modula2 m.mod
MODULE M;
FROM InOut IMPORT WriteString, WriteLn;
VAR day: CARDINAL;
BEGIN
  FOR day := 5 TO 7 DO
    CASE day OF
      1..5: WriteString("work")
    | 6: WriteString("rest")
    END;
    WriteLn
  END
END M.
```

```text prints
work
rest
```

Ends: fault 5

## Mended

```modula2 m.mod
MODULE M;
FROM InOut IMPORT WriteString, WriteLn;
VAR day: CARDINAL;
BEGIN
  FOR day := 5 TO 7 DO
    CASE day OF
      1..5: WriteString("work")
    | 6, 7: WriteString("rest")
    END;
    WriteLn
  END
END M.
```

```text prints
work
rest
rest
```

Ends: 0
"#,
    },
    Topic {
        name: "fault 6",
        page: r#"# Fault 6: no return

A function reached its END without a RETURN.

Why: The caller needs a result, and there is none.

Instead: Make every path through the function end with a RETURN. The usual gaps are an IF without
ELSE, and the end of a loop.

## Broken

```modula2 m.mod
MODULE M;
FROM InOut IMPORT WriteInt, WriteLn;
PROCEDURE Sign(x: INTEGER): INTEGER;
BEGIN
  IF x > 0 THEN RETURN 1 END;
  IF x < 0 THEN RETURN -1 END
END Sign;
BEGIN
  WriteInt(Sign(5), 0); WriteLn;
  WriteInt(Sign(0), 0); WriteLn
END M.
```

```text prints
1
```

Ends: fault 6

## Mended

```modula2 m.mod
MODULE M;
FROM InOut IMPORT WriteInt, WriteLn;
PROCEDURE Sign(x: INTEGER): INTEGER;
BEGIN
  IF x > 0 THEN RETURN 1 END;
  IF x < 0 THEN RETURN -1 END;
  RETURN 0
END Sign;
BEGIN
  WriteInt(Sign(5), 0); WriteLn;
  WriteInt(Sign(0), 0); WriteLn
END M.
```

```text prints
1
0
```

Ends: 0
"#,
    },
    Topic {
        name: "fault 7",
        page: r#"# Fault 7: empty procedure

A procedure variable was called before a procedure was assigned to it.

Why: A new procedure variable holds no procedure, so there is nothing to call.

Instead: Assign a procedure before the first call, for example at the start of the body. A procedure
that does nothing is a good first value.

## Broken

```modula2 m.mod
MODULE M;
FROM InOut IMPORT WriteString, WriteLn;
VAR report: PROCEDURE;
BEGIN
  WriteString("start"); WriteLn;
  report
END M.
```

```text prints
start
```

Ends: fault 7

## Mended

```modula2 m.mod
MODULE M;
FROM InOut IMPORT WriteString, WriteLn;
VAR report: PROCEDURE;
PROCEDURE Nothing;
END Nothing;
BEGIN
  report := Nothing;
  WriteString("start"); WriteLn;
  report
END M.
```

```text prints
start
```

Ends: 0
"#,
    },
    Topic {
        name: "fault 8",
        page: r#"# Fault 8: storage

A procedure was called, and its variables did not fit into the memory that was left. Until a call
ends, it takes 16 bytes, its formals and variables, and copies of arrays that are passed without
VAR.

Why: Calls without end would use up any memory.

Instead: Look for the condition that ends the recursion. Does each call come closer to it?

## Causes

- A procedure calls itself again and again, because the condition to stop is missing or never true.
- The recursion is correct but deep. Then compile with more pages, for example `--memory 64`.
- A large array is copied for each call. Then make the formal VAR.

## Broken

```modula2 m.mod
MODULE M;
FROM InOut IMPORT WriteCard, WriteLn;
PROCEDURE Sum(n: CARDINAL): CARDINAL;
BEGIN
  RETURN n + Sum(n - 1)
END Sum;
BEGIN
  WriteCard(3, 0); WriteLn;
  WriteCard(Sum(1000000), 0); WriteLn
END M.
```

```text prints
3
```

Ends: fault 8

## Mended

```modula2 m.mod
MODULE M;
FROM InOut IMPORT WriteCard, WriteLn;
PROCEDURE Sum(n: CARDINAL): CARDINAL;
BEGIN
  IF n = 0 THEN RETURN 0 END;
  RETURN n + Sum(n - 1)
END Sum;
BEGIN
  WriteCard(3, 0); WriteLn;
  WriteCard(Sum(1000), 0); WriteLn
END M.
```

```text prints
3
500500
```

Ends: 0
"#,
    },
    Topic {
        name: "fault 9",
        page: r#"# End 9: HALT

The program called HALT. This is not a fault: the program chose to stop there. `m2run` adds nothing
to the output and ends with status 0, as for end 0.

Why: HALT has its own number so that other hosts of the modules can tell it from end 0.

Nothing after HALT is executed, not even the rest of the procedures that led there.

## Example

```modula2 m.mod
MODULE M;
FROM InOut IMPORT WriteString, WriteLn;
PROCEDURE Stop;
BEGIN
  WriteString("stopped"); WriteLn;
  HALT
END Stop;
BEGIN
  Stop;
  WriteString("never printed"); WriteLn
END M.
```

```text prints
stopped
```

Ends: 9
"#,
    },
];

/// The page of a topic, if it is one of these.
pub fn page(topic: &str) -> Option<&'static str> {
    page_in(&TOPICS, topic)
}
