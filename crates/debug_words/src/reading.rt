//! A line is read.

use crate::command::{Command, Condition, Path, Target};
use crate::cursor::Cursor;
use m2_tree::Symbol;
use refused_text::tokens_of;
use std::alloc::{AllocError, Global};

/// What all commands do.
pub const HELP: &str = "\
break 12            stops in front of line 12 of the program's own file
break M:12          stops in front of line 12 of the module M
break Fill          stops at the first statement of the procedure Fill, or M.Fill
break 12 if i = 3   stops there if a variable compares so with a constant or a variable:
                    one comparison by =, #, <, <=, > or >=
breaks              lists the breakpoints
delete 1            takes the breakpoint 1 away
run                 runs from the begin to a breakpoint or the end
continue            goes on to the next breakpoint or the end
step                goes to the next statement, also into a procedure
next                goes to the next statement here, over what it calls
finish              goes on until this procedure is left
back                goes back by a statement
back-continue       goes back to the last breakpoint or the begin
where               tells the calls, the innermost first
list                shows the lines around
vars                shows the variables of the procedure and then of the module
print a[3].x        shows a variable or a component; M.x is one of the module M
watch a[3]          goes back to where it changed last
output              shows what the program has printed
help                shows this
quit                ends the session; so does the end of the input
A first letter stands for its command: b for break, d for delete, r, c, s, n, f, w for where, l, v, p, o, h, q.
";

/// The names of the commands for which a first letter stands, in the order in which it finds them.
const WORDS: [&str; 13] = [
    "break", "delete", "run", "continue", "step", "next", "finish", "where", "list", "vars",
    "print", "output", "help",
];

/// What is said of words that are not understood.
const NO_TARGET: &str = "break takes a line, as 12 or M:12, or a procedure, as Fill or M.Fill";

const NO_CONDITION: &str = "a condition compares a variable with a constant, as: break 12 if i = 3";

const NO_NUMBER: &str = "delete takes the number of a breakpoint; breaks lists them";

/// The command that is a word alone.
fn word_command(word: &str) -> Option<Command> {
    match word {
        "run" => Some(Command::Run),
        "continue" => Some(Command::Continue),
        "step" => Some(Command::Step),
        "next" => Some(Command::Next),
        "finish" => Some(Command::Finish),
        "breaks" => Some(Command::Breaks),
        "back" => Some(Command::Back),
        "back-continue" => Some(Command::BackContinue),
        "where" => Some(Command::Where),
        "list" => Some(Command::List),
        "vars" => Some(Command::Variables),
        "output" => Some(Command::Output),
        "help" => Some(Command::Help),
        "quit" => Some(Command::Quit),
        _ => None,
    }
}

/// The whole name of a command for which a first letter may stand.
fn whole_word(word: &str) -> &str {
    if word == "q" {
        return "quit";
    }
    if word.len() > 1 {
        return word;
    }
    for whole in WORDS {
        if whole.starts_with(word) {
            return whole;
        }
    }
    word
}

/// A line that is not understood, with this sentence.
fn mistake(alloc: Global, words: &str) -> Result<Command, AllocError> {
    Ok(Command::Mistake(String::from_str(alloc, words)?))
}

/// The variable with its selectors that is typed so. Nothing if it is none. The only error is that memory ran out.
pub fn read_path(alloc: Global, text: &str) -> Result<Option<Path>, AllocError> {
    let tokens = tokens_of(alloc, text.as_bytes())?;
    let mut cursor = Cursor::new(&tokens);
    match cursor.path(alloc)? {
        Some(path) if cursor.is_at_end() => Ok(Some(path)),
        _ => Ok(None),
    }
}

/// Where a breakpoint is to stand. Nothing if that is not said.
fn target_of(alloc: Global, text: &str) -> Result<Option<Target>, AllocError> {
    let tokens = tokens_of(alloc, text.as_bytes())?;
    let mut cursor = Cursor::new(&tokens);
    if let Some(line) = cursor.number() {
        return Ok(Some(Target::Line(None, line)).filter(|_| cursor.is_at_end()));
    }
    let Some(name) = cursor.name() else {
        return Ok(None);
    };
    let name = Vec::from_slice(alloc, name)?;
    let target = if cursor.takes(Symbol::Colon) {
        cursor.number().map(|line| Target::Line(Some(name), line))
    } else if cursor.takes(Symbol::Dot) {
        match cursor.name() {
            None => None,
            Some(procedure) => Some(Target::Procedure(
                Some(name),
                Vec::from_slice(alloc, procedure)?,
            )),
        }
    } else {
        Some(Target::Procedure(None, name))
    };
    Ok(target.filter(|_| cursor.is_at_end()))
}

/// The condition of a breakpoint that is typed so. Nothing if it is none. The only error is that memory ran out.
pub fn read_condition(alloc: Global, text: &str) -> Result<Option<Condition>, AllocError> {
    let tokens = tokens_of(alloc, text.as_bytes())?;
    let mut cursor = Cursor::new(&tokens);
    let Some(path) = cursor.path(alloc)? else {
        return Ok(None);
    };
    let Some(relation) = cursor.relation() else {
        return Ok(None);
    };
    match cursor.value(alloc)? {
        Some(value) if cursor.is_at_end() => Ok(Some(Condition {
            path,
            relation,
            value,
        })),
        _ => Ok(None),
    }
}

/// A breakpoint that these words ask for.
fn break_command(alloc: Global, words: &str) -> Result<Command, AllocError> {
    let (place, condition) = match words.split_once(" if ") {
        None => (words, None),
        Some((place, condition)) => (place, Some(condition)),
    };
    let Some(target) = target_of(alloc, place)? else {
        return mistake(alloc, NO_TARGET);
    };
    match condition {
        None => Ok(Command::Break(target, None)),
        Some(text) => match read_condition(alloc, text)? {
            None => mistake(alloc, NO_CONDITION),
            condition => Ok(Command::Break(target, condition)),
        },
    }
}

/// A command with a variable, or what is said if there is none.
fn path_command(alloc: Global, word: &str, words: &str) -> Result<Command, AllocError> {
    match read_path(alloc, words)? {
        None => {
            let words = format!(in alloc; "{word} takes a variable, as a[3].x")?;
            Ok(Command::Mistake(words))
        }
        Some(path) => {
            let text = String::from_str(alloc, words)?;
            Ok(if word == "watch" {
                Command::Watch(path, text)
            } else {
                Command::Print(path, text)
            })
        }
    }
}

/// A command that is a word alone.
fn lone_command(alloc: Global, word: &str, words: &str) -> Result<Command, AllocError> {
    match word_command(word) {
        None => {
            let words = format!(in alloc; "'{word}' is no command; help lists all of them")?;
            Ok(Command::Mistake(words))
        }
        Some(_) if !words.is_empty() => {
            let words = format!(in alloc; "nothing stands behind {word}, but '{words}' does")?;
            Ok(Command::Mistake(words))
        }
        Some(command) => Ok(command),
    }
}

/// The command in a line. The only error is that memory ran out.
pub fn read_command(alloc: Global, line: &str) -> Result<Command, AllocError> {
    let line = line.trim();
    if line.is_empty() {
        return Ok(Command::Nothing);
    }
    let (word, words) = match line.split_once(' ') {
        None => (line, ""),
        Some((word, words)) => (word, words.trim()),
    };
    let word = whole_word(word);
    match word {
        "break" => break_command(alloc, words),
        "print" | "watch" => path_command(alloc, word, words),
        "delete" => match words.parse::<u64>() {
            Ok(number) => Ok(Command::Delete(number)),
            Err(_) => mistake(alloc, NO_NUMBER),
        },
        _ => lone_command(alloc, word, words),
    }
}
