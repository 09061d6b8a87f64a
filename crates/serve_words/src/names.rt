//! What is said of predeclared names.

use crate::word::{Sort, Word};

/// The predeclared names, and behind them what the built in module has.
pub static NAMES: [Word; 23] = [
    Word {
        name: "INTEGER",
        sort: Sort::Type,
        heading: "INTEGER",
        sentence: "The whole numbers from -2147483648 to 2147483647.",
    },
    Word {
        name: "CARDINAL",
        sort: Sort::Type,
        heading: "CARDINAL",
        sentence: "The whole numbers from 0 to 4294967295.",
    },
    Word {
        name: "BOOLEAN",
        sort: Sort::Type,
        heading: "BOOLEAN = (FALSE, TRUE)",
        sentence: "The two values FALSE and TRUE.",
    },
    Word {
        name: "CHAR",
        sort: Sort::Type,
        heading: "CHAR",
        sentence: "The 256 characters, each known by its code.",
    },
    Word {
        name: "BITSET",
        sort: Sort::Type,
        heading: "BITSET",
        sentence: "The sets of numbers from 0 to 31.",
    },
    Word {
        name: "FALSE",
        sort: Sort::Constant,
        heading: "FALSE: BOOLEAN",
        sentence: "The value of a condition that does not hold.",
    },
    Word {
        name: "TRUE",
        sort: Sort::Constant,
        heading: "TRUE: BOOLEAN",
        sentence: "The value of a condition that holds.",
    },
    Word {
        name: "ABS",
        sort: Sort::Procedure,
        heading: "ABS(x)",
        sentence: "Gives the absolute value of x, in the base type of x. Of the least INTEGER it is fault 2.",
    },
    Word {
        name: "CAP",
        sort: Sort::Procedure,
        heading: "CAP(c: CHAR): CHAR",
        sentence: "Gives the capital letter of a to z, and any other character as it is.",
    },
    Word {
        name: "CHR",
        sort: Sort::Procedure,
        heading: "CHR(n): CHAR",
        sentence: "Gives the character with the code n. A code above 255 is fault 1.",
    },
    Word {
        name: "HIGH",
        sort: Sort::Procedure,
        heading: "HIGH(a): CARDINAL",
        sentence: "Gives the greatest subscript of the open array a.",
    },
    Word {
        name: "MAX",
        sort: Sort::Procedure,
        heading: "MAX(T)",
        sentence: "Gives the greatest value of the scalar type T.",
    },
    Word {
        name: "MIN",
        sort: Sort::Procedure,
        heading: "MIN(T)",
        sentence: "Gives the least value of the scalar type T.",
    },
    Word {
        name: "ODD",
        sort: Sort::Procedure,
        heading: "ODD(n): BOOLEAN",
        sentence: "Says whether n is odd.",
    },
    Word {
        name: "ORD",
        sort: Sort::Procedure,
        heading: "ORD(x): CARDINAL",
        sentence: "Gives the number of the scalar value x. A negative one is fault 1.",
    },
    Word {
        name: "VAL",
        sort: Sort::Procedure,
        heading: "VAL(T, n)",
        sentence: "Gives the value of the scalar type T that has the number n. It is fault 1 if T has none.",
    },
    Word {
        name: "INC",
        sort: Sort::Procedure,
        heading: "INC(VAR v; n)",
        sentence: "Adds n to v, or 1 if n is left out.",
    },
    Word {
        name: "DEC",
        sort: Sort::Procedure,
        heading: "DEC(VAR v; n)",
        sentence: "Takes n from v, or 1 if n is left out.",
    },
    Word {
        name: "INCL",
        sort: Sort::Procedure,
        heading: "INCL(VAR s: BITSET; n)",
        sentence: "Puts the number n into the set s. A number above 31 is fault 1.",
    },
    Word {
        name: "EXCL",
        sort: Sort::Procedure,
        heading: "EXCL(VAR s: BITSET; n)",
        sentence: "Takes the number n out of the set s. A number above 31 is fault 1.",
    },
    Word {
        name: "HALT",
        sort: Sort::Procedure,
        heading: "HALT",
        sentence: "Ends the program with 9.",
    },
    Word {
        name: "Console",
        sort: Sort::Console,
        heading: "MODULE Console",
        sentence: "The built in module, which exports Put alone.",
    },
    Word {
        name: "Put",
        sort: Sort::Console,
        heading: "PROCEDURE Put(c: CHAR)",
        sentence: "Prints the character as one byte. It is exported by the built in module Console.",
    },
];
