//! Commands.

/// A value that is typed.
#[derive(Drop)]
pub enum Value {
    /// A number, or the code of a character.
    Number(i64),
    /// A name: of a constant, or of a variable.
    Named(Vec<u8>),
}

/// What stands behind the name of a variable.
#[derive(Drop)]
pub enum Selector {
    Field(Vec<u8>),
    Index(Value),
}

/// A variable or a component of one, as it is typed.
#[derive(Drop)]
pub struct Path {
    pub name: Vec<u8>,
    pub selectors: Vec<Selector>,
}

/// How two values are compared.
#[derive(Clone, Copy, Debug, PartialEq, Eq)]
pub enum Relation {
    Equal,
    Unequal,
    Less,
    AtMost,
    Greater,
    AtLeast,
}

/// The condition of a breakpoint.
#[derive(Drop)]
pub struct Condition {
    pub path: Path,
    pub relation: Relation,
    pub value: Value,
}

/// Where a breakpoint is to stand.
#[derive(Drop)]
pub enum Target {
    /// On a line of the module of this name, or of the program's own file.
    Line(Option<Vec<u8>>, u32),
    /// At the first statement of a procedure, which may be named with its module.
    Procedure(Option<Vec<u8>>, Vec<u8>),
}

/// A command.
#[derive(Drop)]
pub enum Command {
    /// An empty line.
    Nothing,
    Break(Target, Option<Condition>),
    /// To list the breakpoints.
    Breaks,
    Delete(u64),
    Run,
    Continue,
    Step,
    Next,
    Finish,
    Back,
    BackContinue,
    Where,
    List,
    Variables,
    /// To show a variable, which is typed so.
    Print(Path, String),
    /// To go back to where it changed.
    Watch(Path, String),
    Output,
    Help,
    Quit,
    /// A line that is no command, and what is said of it.
    Mistake(String),
}
