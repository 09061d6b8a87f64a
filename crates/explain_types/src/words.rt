//! What is said of a refused place.

use crate::given::{CARDINAL, INTEGER, Scene};
use crate::trial::{TAKER, Trial};
use crate::wanted::{all_words, formal_words, result_words};
use m2_rule::Rule;
use m2_tree::{Refusal, Symbol};
use m2c::{BuildFault, Options, SourceFile};
use std::alloc::{AllocError, Global};
use std::thread::Threads;
use text_places::{
    Index, Side, Sides, Text, Texts, ValuePlace, declared_around, label_sides, operand_side,
    operator_sides, spots_at, type_names, value_place, value_side,
};
use text_tokens::{argument_at, argument_count, call_at, is_named, symbol_at};

/// The most bytes of a program of which something is tried. Each trial compiles the program once.
const MOST_BYTES: usize = 262144;

/// How many bytes the trials of one place compile at most, all together.
const MOST_COMPILED: usize = 4194304;

/// How many trials a side needs beside the trials of the types that the program declares.
const OTHER_TRIALS: usize = 8;

/// The most types of a program that are tried.
const MOST_TYPES: usize = 16;

/// How many bytes the files have.
fn bytes_of(files: &[SourceFile]) -> usize {
    let mut sum: usize = 0;
    for file in files {
        sum = sum.saturating_add(file.bytes.len());
    }
    sum
}

/// How many types of a program with this many bytes are tried, if two sides are.
fn types_tried(bytes: usize) -> usize {
    let trials = MOST_COMPILED / bytes.max(1);
    (trials / 2).saturating_sub(OTHER_TRIALS).min(MOST_TYPES)
}

/// What to do if these types meet, if that is known.
fn advice(left: &str, right: &str) -> &'static str {
    if left == INTEGER && right == CARDINAL {
        "; VAL(INTEGER, x) takes x as an INTEGER"
    } else if left == CARDINAL && right == INTEGER {
        "; VAL(CARDINAL, x) takes x as a CARDINAL"
    } else if left == right && !left.starts_with("a string") {
        "; a type that is written out twice is two types"
    } else {
        ""
    }
}

/// What two sides are called.
#[derive(Clone, Copy)]
struct SideNames {
    left: &'static str,
    right: &'static str,
}

/// What the sides of an operator and of an assignment are called.
const SIDES: SideNames = SideNames {
    left: "left side",
    right: "right side",
};

/// What the variable of a FOR and its limit are called.
const CONTROL: SideNames = SideNames {
    left: "control variable",
    right: "limit",
};

/// What the selector of a CASE and its label are called.
const LABEL: SideNames = SideNames {
    left: "selector",
    right: "label",
};

/// Which types stand on both sides, if both are known.
fn words_of_sides<R: AllocGlobal + Threads + Sync>(
    rt: &R,
    scene: &Scene<'_>,
    sides: Sides,
    names: SideNames,
) -> Result<Option<String>, BuildFault> {
    let Some(left) = scene.operand_words(rt, sides.left)? else {
        return Ok(None);
    };
    let Some(right) = scene.operand_words(rt, sides.right)? else {
        return Ok(None);
    };
    let advice = advice(left.as_str(), right.as_str());
    let words = format!(in rt.alloc();
        "the {} is {left}, and the {} {right}{advice}",
        names.left, names.right
    )?;
    Ok(Some(words))
}

/// What is wanted, and what is given, as far as both are known.
fn join_words(
    alloc: Global,
    wanted: Option<String>,
    given: Option<String>,
) -> Result<Option<String>, AllocError> {
    match (wanted, given) {
        (Some(wanted), Some(given)) => {
            Ok(Some(format!(in alloc; "{wanted}, and {given} is given")?))
        }
        (None, Some(given)) => Ok(Some(format!(in alloc; "{given} is given")?)),
        (wanted, None) => Ok(wanted),
    }
}

/// What an argument is to be, and what it is.
fn words_of_argument<R: AllocGlobal + Threads + Sync>(
    rt: &R,
    texts: &Texts<'_>,
    scene: &Scene<'_>,
    at: usize,
    is_variable: bool,
) -> Result<Option<String>, BuildFault> {
    let alloc = rt.alloc();
    let wanted = match argument_at(alloc, scene.text.tokens, at)? {
        Some(argument) => formal_words(alloc, texts, scene, argument)?,
        None => None,
    };
    let side = value_side(scene.text.tokens, at);
    let given = if is_variable {
        scene.variable_words(rt, side)?
    } else {
        scene.value_words(rt, side)?
    };
    Ok(join_words(alloc, wanted, given)?)
}

/// What the result of a function is to be, and what it is.
fn words_of_result<R: AllocGlobal + Threads + Sync>(
    rt: &R,
    scene: &Scene<'_>,
    value: Side,
) -> Result<Option<String>, BuildFault> {
    let wanted = result_words(rt.alloc(), scene, value.from)?;
    let given = scene.value_words(rt, value)?;
    Ok(join_words(rt.alloc(), wanted, given)?)
}

/// What an array is, and what is given as its index.
fn words_of_index<R: AllocGlobal + Threads + Sync>(
    rt: &R,
    scene: &Scene<'_>,
    index: Index,
) -> Result<Option<String>, BuildFault> {
    let alloc = rt.alloc();
    let Some(given) = scene.value_words(rt, index.value)? else {
        return Ok(None);
    };
    let number = index.number.saturating_add(1);
    let words = match scene.declaration_words(alloc, index.array)? {
        Some(array) => format!(in alloc; "{array}, and index {number} is {given}")?,
        None => {
            let array = scene.excerpt(alloc, index.array)?;
            format!(in alloc; "index {number} of {array} is {given}")?
        }
    };
    Ok(Some(words))
}

/// What a value is given to, and what it is.
fn words_of_value<R: AllocGlobal + Threads + Sync>(
    rt: &R,
    scene: &Scene<'_>,
    at: usize,
) -> Result<Option<String>, BuildFault> {
    match value_place(rt.alloc(), scene.text.tokens, at)? {
        Some(ValuePlace::Assigned(sides)) => words_of_sides(rt, scene, sides, SIDES),
        Some(ValuePlace::Limit(sides)) => words_of_sides(rt, scene, sides, CONTROL),
        Some(ValuePlace::Result(value)) => words_of_result(rt, scene, value),
        Some(ValuePlace::Index(index)) => words_of_index(rt, scene, index),
        None => Ok(None),
    }
}

/// What has to stand behind a word of a statement.
fn need_behind(symbol: Symbol) -> Option<&'static str> {
    match symbol {
        Symbol::If | Symbol::Elsif | Symbol::While | Symbol::Until => Some(
            "a condition is BOOLEAN",
        ),
        Symbol::Case => Some("a selector is a scalar"),
        Symbol::With => Some("WITH takes a record"),
        Symbol::By => Some("a step is a number"),
        Symbol::LeftBrace => Some("an element is a number"),
        _ => None,
    }
}

/// What has to stand behind a sign.
fn need_of_sign(sign: Option<Symbol>) -> &'static str {
    if sign == Some(Symbol::Minus) {
        "minus stands before an INTEGER"
    } else {
        "plus stands before a number"
    }
}

/// What has to stand at a place, and what does.
fn words_of_need<R: AllocGlobal + Threads + Sync>(
    rt: &R,
    scene: &Scene<'_>,
    side: Side,
    need: &str,
) -> Result<Option<String>, BuildFault> {
    let given = scene.value_words(rt, side)?;
    let wanted = String::from_str(rt.alloc(), need)?;
    Ok(join_words(rt.alloc(), Some(wanted), given)?)
}

/// What the selector of a CASE is, and its label.
fn words_of_label<R: AllocGlobal + Threads + Sync>(
    rt: &R,
    scene: &Scene<'_>,
    at: usize,
) -> Result<Option<String>, BuildFault> {
    match label_sides(rt.alloc(), scene.text.tokens, at)? {
        Some(sides) => words_of_sides(rt, scene, sides, LABEL),
        None => Ok(None),
    }
}

/// What stands behind a word of a statement, or as a label of a CASE.
fn words_of_part<R: AllocGlobal + Threads + Sync>(
    rt: &R,
    scene: &Scene<'_>,
    at: usize,
) -> Result<Option<String>, BuildFault> {
    let tokens = scene.text.tokens;
    match symbol_at(tokens, at.saturating_sub(1)).and_then(need_behind) {
        Some(need) => words_of_need(rt, scene, value_side(tokens, at), need),
        None => words_of_label(rt, scene, at),
    }
}

/// Which types an operator meets, or what stands at the place of a condition, a selector, a label, a record, a step or an
/// element.
fn words_of_operator<R: AllocGlobal + Threads + Sync>(
    rt: &R,
    scene: &Scene<'_>,
    at: usize,
) -> Result<Option<String>, BuildFault> {
    let tokens = scene.text.tokens;
    let operand = operand_side(tokens, at.saturating_add(1));
    if symbol_at(tokens, at) == Some(Symbol::Not) {
        return words_of_need(rt, scene, operand, "NOT takes a BOOLEAN");
    }
    match operator_sides(rt.alloc(), tokens, at)? {
        Some(sides) if sides.left.is_empty() => {
            words_of_need(rt, scene, operand, need_of_sign(symbol_at(tokens, at)))
        }
        Some(sides) => words_of_sides(rt, scene, sides, SIDES),
        None => words_of_part(rt, scene, at),
    }
}

/// How many arguments a call is to have, and how many it has.
fn words_of_call(
    alloc: Global,
    texts: &Texts<'_>,
    scene: &Scene<'_>,
    at: usize,
) -> Result<Option<String>, AllocError> {
    let call = call_at(scene.text.tokens, at);
    let count = argument_count(scene.text.tokens, call);
    let noun = if count == 1 { "argument" } else { "arguments" };
    match all_words(alloc, texts, scene, call)? {
        Some(wanted) => {
            let words = format!(in alloc; "{wanted}; the call has {count} {noun}")?;
            Ok(Some(words))
        }
        None => Ok(None),
    }
}

/// What is said of the token of this number, at which this rule is broken.
fn words_at<R: AllocGlobal + Threads + Sync>(
    rt: &R,
    texts: &Texts<'_>,
    scene: &Scene<'_>,
    number: u32,
    at: usize,
) -> Result<Option<String>, BuildFault> {
    if number == Rule::ArgumentCount.number() {
        return Ok(words_of_call(rt.alloc(), texts, scene, at)?);
    }
    if number == Rule::WrongArgument.number() {
        return words_of_argument(rt, texts, scene, at, false);
    }
    if number == Rule::NoVariable.number() {
        return words_of_argument(rt, texts, scene, at, true);
    }
    if number == Rule::NotAssignable.number() {
        return words_of_value(rt, scene, at);
    }
    words_of_operator(rt, scene, at)
}

/// Whether a text has the name that trials declare.
fn has_taker(text: Text<'_>) -> bool {
    for number in 0..text.tokens.len() {
        if is_named(text.tokens, number, TAKER.as_bytes()) {
            return true;
        }
    }
    false
}

/// The place of the token of this number in the file of this name, if something can be tried there.
fn scene_at<'a>(
    alloc: Global,
    texts: &'a Texts<'_>,
    options: Options,
    name: &'a str,
    text: Text<'a>,
    at: usize,
) -> Result<Option<Scene<'a>>, AllocError> {
    let Some(spots) = spots_at(text, at) else {
        return Ok(None);
    };
    if has_taker(text) {
        return Ok(None);
    }
    let declared = declared_around(alloc, text.tokens, at)?;
    let most = types_tried(bytes_of(texts.files));
    let types = type_names(alloc, texts, text, &declared, most)?;
    Ok(Some(Scene {
        trial: Trial {
            files: texts.files,
            options,
            name,
            text: text.bytes,
            spots,
        },
        text,
        declared,
        types,
    }))
}

/// Whether something is said of a place at which this rule is broken.
fn is_explained(number: u32) -> bool {
    let rules = [
        Rule::WrongType,
        Rule::NotAssignable,
        Rule::ArgumentCount,
        Rule::WrongArgument,
        Rule::NoVariable,
    ];
    rules.iter().any(|it| it.number() == number)
}

/// What is said of a refusal in one of these texts.
fn words_in<R: AllocGlobal + Threads + Sync>(
    rt: &R,
    texts: &Texts<'_>,
    options: Options,
    refusal: &Refusal,
) -> Result<Option<String>, BuildFault> {
    let name = refusal.file.as_str();
    let Some(text) = texts.text_of(name) else {
        return Ok(None);
    };
    let Some(at) = text.tokens.iter().position(|it| it.pos == refusal.pos) else {
        return Ok(None);
    };
    match scene_at(rt.alloc(), texts, options, name, text, at)? {
        Some(scene) => words_at(rt, texts, &scene, refusal.number, at),
        None => Ok(None),
    }
}

/// Which types meet at a refused operator or assignment, what a refused argument is to be and what it is, or how many
/// arguments a call is to have. Nothing if the place is none of these, if what stands there is not known, or if the
/// program has more than 262144 bytes. An error if memory ran out.
pub fn type_words<R: AllocGlobal + Threads + Sync>(
    rt: &R,
    files: &[SourceFile],
    options: Options,
    refusal: &Refusal,
) -> Result<Option<String>, BuildFault> {
    if bytes_of(files) > MOST_BYTES || !is_explained(refusal.number) {
        return Ok(None);
    }
    let texts = Texts::of(rt.alloc(), files)?;
    words_in(rt, &texts, options, refusal)
}
