//! What a call asks for.

use crate::given::Scene;
use std::alloc::{AllocError, Global};
use text_places::{
    Declared, Heading, Kind, Texts, declaration_of, module_of, procedure_around, procedure_in,
};
use text_tokens::{Argument, Call, name_at};

/// A procedure of the language, and what it takes.
struct Standard {
    name: &'static str,
    takes: &'static str,
}

/// The procedures of the language.
const STANDARD: [Standard; 14] = [
    Standard {
        name: "ABS",
        takes: "a number",
    },
    Standard {
        name: "CAP",
        takes: "a CHAR",
    },
    Standard {
        name: "CHR",
        takes: "a number",
    },
    Standard {
        name: "HIGH",
        takes: "an open array",
    },
    Standard {
        name: "MAX",
        takes: "a scalar type",
    },
    Standard {
        name: "MIN",
        takes: "a scalar type",
    },
    Standard {
        name: "ODD",
        takes: "a number",
    },
    Standard {
        name: "ORD",
        takes: "a scalar",
    },
    Standard {
        name: "VAL",
        takes: "a scalar type and a number",
    },
    Standard {
        name: "INC",
        takes: "a scalar variable and maybe a number",
    },
    Standard {
        name: "DEC",
        takes: "a scalar variable and maybe a number",
    },
    Standard {
        name: "INCL",
        takes: "a BITSET variable and a number",
    },
    Standard {
        name: "EXCL",
        takes: "a BITSET variable and a number",
    },
    Standard {
        name: "HALT",
        takes: "no argument",
    },
];

/// The module that is built in, its only procedure, and what this takes.
const CONSOLE: &[u8] = b"Console";

const PUT: Standard = Standard {
    name: "Put",
    takes: "a CHAR",
};

/// What is called.
enum Callee<'a> {
    /// A procedure with a heading in a text.
    Headed(Heading<'a>),
    /// One that is built in.
    BuiltIn(&'static Standard),
    /// A procedure variable that is declared in the text.
    Variable(Declared),
    /// What has no heading among the files.
    Unknown,
}

/// The procedure of the language that has this name.
fn built_in(name: &[u8]) -> Callee<'static> {
    match STANDARD.iter().find(|it| it.name.as_bytes() == name) {
        Some(it) => Callee::BuiltIn(it),
        None => Callee::Unknown,
    }
}

/// What a module exports under a name.
fn export_of<'a>(texts: &'a Texts<'_>, module: &[u8], name: &[u8]) -> Callee<'a> {
    if module == CONSOLE {
        return Callee::BuiltIn(&PUT);
    }
    let Some(text) = texts.definition(module) else {
        return Callee::Unknown;
    };
    match procedure_in(text.tokens, name) {
        Some(name) => Callee::Headed(Heading {
            text: text.bytes,
            tokens: text.tokens,
            name,
        }),
        None => Callee::Unknown,
    }
}

/// What a name that stands alone means as a procedure.
fn callee_of<'a>(texts: &'a Texts<'_>, scene: &'a Scene<'_>, name: &[u8]) -> Callee<'a> {
    let tokens = scene.text.tokens;
    match declaration_of(tokens, &scene.declared, name) {
        Some(declared) => match declared.kind {
            Kind::Procedure => Callee::Headed(Heading {
                text: scene.text.bytes,
                tokens,
                name: declared.token,
            }),
            Kind::Variable => Callee::Variable(declared),
            Kind::Type => Callee::Unknown,
        },
        None => match module_of(tokens, name) {
            Some(module) => export_of(texts, module, name),
            None => built_in(name),
        },
    }
}

/// What a call calls.
fn what_is_called<'a>(texts: &'a Texts<'_>, scene: &'a Scene<'_>, call: Call) -> Callee<'a> {
    let tokens = scene.text.tokens;
    let Some(name) = name_at(tokens, call.name) else {
        return Callee::Unknown;
    };
    let Some(module) = call.module.and_then(|it| name_at(tokens, it)) else {
        return callee_of(texts, scene, name);
    };
    match declaration_of(tokens, &scene.declared, module) {
        Some(_) => Callee::Unknown,
        None => export_of(texts, module, name),
    }
}

/// What a built in procedure takes.
fn takes(alloc: Global, standard: &Standard) -> Result<Option<String>, AllocError> {
    let Standard { name, takes } = standard;
    Ok(Some(format!(in alloc; "{name} takes {takes}")?))
}

/// What is asked for in the place of an argument.
pub fn formal_words(
    alloc: Global,
    texts: &Texts<'_>,
    scene: &Scene<'_>,
    argument: Argument,
) -> Result<Option<String>, AllocError> {
    match what_is_called(texts, scene, argument.call) {
        Callee::Unknown => Ok(None),
        Callee::BuiltIn(standard) => takes(alloc, standard),
        Callee::Variable(declared) => Ok(Some(scene.words_of(alloc, declared)?)),
        Callee::Headed(heading) => match heading.formal_words(alloc, argument.number)? {
            Some(words) => Ok(Some(format!(in alloc; "the parameter is {words}")?)),
            None => Ok(None),
        },
    }
}

/// What the result is of the procedure around a token, as its heading has it.
pub fn result_words(
    alloc: Global,
    scene: &Scene<'_>,
    at: usize,
) -> Result<Option<String>, AllocError> {
    let Some(name) = procedure_around(alloc, scene.text.tokens, at)? else {
        return Ok(None);
    };
    let heading = Heading {
        text: scene.text.bytes,
        tokens: scene.text.tokens,
        name,
    };
    match heading.result_words(alloc)? {
        Some(words) => Ok(Some(format!(in alloc; "the result is {words}")?)),
        None => Ok(None),
    }
}

/// What is asked for in all.
pub fn all_words(
    alloc: Global,
    texts: &Texts<'_>,
    scene: &Scene<'_>,
    call: Call,
) -> Result<Option<String>, AllocError> {
    match what_is_called(texts, scene, call) {
        Callee::Unknown => Ok(None),
        Callee::BuiltIn(standard) => takes(alloc, standard),
        Callee::Variable(declared) => Ok(Some(scene.words_of(alloc, declared)?)),
        Callee::Headed(heading) => match heading.all_words(alloc)? {
            Some(words) => Ok(Some(format!(in alloc; "the parameters are {words}")?)),
            None => Ok(Some(String::from_str(alloc, "there are no parameters")?)),
        },
    }
}
