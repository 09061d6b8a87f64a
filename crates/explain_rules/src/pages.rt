//! The rules and the topics. tools/write_explanations writes this file: change the pages of docs/, and call it.

pub mod arguments;
pub mod bodies;
pub mod declarations;
pub mod faults;
pub mod imports;
pub mod limits;
pub mod machine;
pub mod operands;
pub mod summaries;
pub mod texts;

use crate::rule::Rule;

/// All topics, each in a line with what it is about.
pub const TOPIC_LIST: &str = r#"1           the text is too long
2           a character that may not appear here
3           a comment that is not closed
4           a string that is not closed on its line
5           digits and letters that are not a number
6           a number that is too large
7           a name that is too long
10          this word or sign does not fit here
11          the closing name differs from the opening one
12          nested too deeply
13          a word of something that this profile leaves out
20          the definition of an imported module is missing
21          a second file for one module
22          definitions that import each other
23          not exactly one program module
24          a definition or an implementation without its partner
25          too many files
30          a name that is not declared, or not yet
31          a name is declared twice
32          the module does not export this name
33          a type is needed here
34          a constant is needed here
35          an empty range
36          this type cannot be an index
37          an enumeration with more than 256 constants
38          a type that is too large
40          the types of the operands do not fit the operator
41          the value does not fit the variable
42          too many or too few arguments
43          the argument does not fit the formal
44          a variable of the same type is needed here
45          EXIT outside a LOOP
46          RETURN with a value, or without one
47          this variable cannot control a FOR
48          the step of a FOR is 0
49          a label that appears twice, or is not a constant
50          the heading differs from the one in the definition
51          an exported procedure is missing
52          a constant that is out of range
53          this procedure cannot be used as a value
60          too much data in one module or one procedure
61          the data does not fit into the memory
70          a number of workers that is not from 1 to 64
73          a number of pages that is not from 1 to 1024
80          the file is not a module
81          the module uses something outside the profile
82          the module is not valid
83          the modules do not fit together
84          a module's data does not fit into the memory
90          there is no memory left
91          the output could not be printed
92          the run was broken off before
93          the folder did not take the modules
fault 0     the program ended by itself
fault 1     range
fault 2     overflow
fault 3     index
fault 4     divisor
fault 5     case
fault 6     no return
fault 7     empty procedure
fault 8     storage
fault 9     HALT
profile     what this profile of Modula-2 leaves out
input       how a program reads its input
status 0    m2c: built; m2run: the program ended normally; m2: success
status 1    m2c: refused; m2run: the program ended with a fault; m2: refused, or a fault
status 2    m2c: wrong command line; m2run: wrong command line; m2: wrong command line
status 3    m2c: failed; m2run: failed; m2: failed
status 4    m2run: the program was still running; m2: the program was still running
statuses    all statuses of the programs
"#;

/// The rules, each with its sentence.
pub static RULES: [Rule; 53] = [
    Rule {
        number: 1,
        sentence: "the text is too long",
    },
    Rule {
        number: 2,
        sentence: "a character that may not appear here",
    },
    Rule {
        number: 3,
        sentence: "a comment that is not closed",
    },
    Rule {
        number: 4,
        sentence: "a string that is not closed on its line",
    },
    Rule {
        number: 5,
        sentence: "digits and letters that are not a number",
    },
    Rule {
        number: 6,
        sentence: "a number that is too large",
    },
    Rule {
        number: 7,
        sentence: "a name that is too long",
    },
    Rule {
        number: 10,
        sentence: "this word or sign does not fit here",
    },
    Rule {
        number: 11,
        sentence: "the closing name differs from the opening one",
    },
    Rule {
        number: 12,
        sentence: "nested too deeply",
    },
    Rule {
        number: 13,
        sentence: "a word of something that this profile leaves out",
    },
    Rule {
        number: 20,
        sentence: "the definition of an imported module is missing",
    },
    Rule {
        number: 21,
        sentence: "a second file for one module",
    },
    Rule {
        number: 22,
        sentence: "definitions that import each other",
    },
    Rule {
        number: 23,
        sentence: "not exactly one program module",
    },
    Rule {
        number: 24,
        sentence: "a definition or an implementation without its partner",
    },
    Rule {
        number: 25,
        sentence: "too many files",
    },
    Rule {
        number: 30,
        sentence: "a name that is not declared, or not yet",
    },
    Rule {
        number: 31,
        sentence: "a name is declared twice",
    },
    Rule {
        number: 32,
        sentence: "the module does not export this name",
    },
    Rule {
        number: 33,
        sentence: "a type is needed here",
    },
    Rule {
        number: 34,
        sentence: "a constant is needed here",
    },
    Rule {
        number: 35,
        sentence: "an empty range",
    },
    Rule {
        number: 36,
        sentence: "this type cannot be an index",
    },
    Rule {
        number: 37,
        sentence: "an enumeration with more than 256 constants",
    },
    Rule {
        number: 38,
        sentence: "a type that is too large",
    },
    Rule {
        number: 40,
        sentence: "the types of the operands do not fit the operator",
    },
    Rule {
        number: 41,
        sentence: "the value does not fit the variable",
    },
    Rule {
        number: 42,
        sentence: "too many or too few arguments",
    },
    Rule {
        number: 43,
        sentence: "the argument does not fit the formal",
    },
    Rule {
        number: 44,
        sentence: "a variable of the same type is needed here",
    },
    Rule {
        number: 45,
        sentence: "EXIT outside a LOOP",
    },
    Rule {
        number: 46,
        sentence: "RETURN with a value, or without one",
    },
    Rule {
        number: 47,
        sentence: "this variable cannot control a FOR",
    },
    Rule {
        number: 48,
        sentence: "the step of a FOR is 0",
    },
    Rule {
        number: 49,
        sentence: "a label that appears twice, or is not a constant",
    },
    Rule {
        number: 50,
        sentence: "the heading differs from the one in the definition",
    },
    Rule {
        number: 51,
        sentence: "an exported procedure is missing",
    },
    Rule {
        number: 52,
        sentence: "a constant that is out of range",
    },
    Rule {
        number: 53,
        sentence: "this procedure cannot be used as a value",
    },
    Rule {
        number: 60,
        sentence: "too much data in one module or one procedure",
    },
    Rule {
        number: 61,
        sentence: "the data does not fit into the memory",
    },
    Rule {
        number: 70,
        sentence: "a number of workers that is not from 1 to 64",
    },
    Rule {
        number: 73,
        sentence: "a number of pages that is not from 1 to 1024",
    },
    Rule {
        number: 80,
        sentence: "the file is not a module",
    },
    Rule {
        number: 81,
        sentence: "the module uses something outside the profile",
    },
    Rule {
        number: 82,
        sentence: "the module is not valid",
    },
    Rule {
        number: 83,
        sentence: "the modules do not fit together",
    },
    Rule {
        number: 84,
        sentence: "a module's data does not fit into the memory",
    },
    Rule {
        number: 90,
        sentence: "there is no memory left",
    },
    Rule {
        number: 91,
        sentence: "the output could not be printed",
    },
    Rule {
        number: 92,
        sentence: "the run was broken off before",
    },
    Rule {
        number: 93,
        sentence: "the folder did not take the modules",
    },
];
