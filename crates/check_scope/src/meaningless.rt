//! Names and designators that have no meaning.

ghost use Rattle.std.specs.Prelude.{◌≡◌};
ghost use Rattle.check_scope.specs.Elaborated.{least, of_sort, of_heading, of_value, of_sort_of_value, plain};
ghost use Rattle.check_scope.specs.Scopes.{heading_means};

use crate::elaborated::{Elaborated, report};
use m2_rule::{Breach, Rule};
use m2_tree::Pos;
use typed_tree::Meaning;

/// Why a name or a designator has no meaning, with what is reported of it.
#[derive(Clone, Copy, PartialEq, Eq)]
pub enum Meaningless<T> {
    /// Rules are broken in it, or in its declaration.
    Broken(T),
    /// It is a procedure in whose heading rules are broken, and whether it is declared in a procedure.
    Headless(bool, T),
}

/// What a name or a designator means, or why it means nothing.
pub type Sought<T> = Result<T, Meaningless<Breach>>;

/// What a rule looks at that asks what sort of thing a name is. It is broken by a procedure, whatever its heading.
pub fn of_sort<T>(pos: Pos, broken: Rule, sought: Sought<T>) -> Elaborated<T>
    ensures { result ≡ of_sort least pos broken sought }
{
    match sought {
        Ok(meaning) => Ok(meaning),
        Err(Meaningless::Broken(breach)) => Err(breach),
        Err(Meaningless::Headless(_, _)) => report(pos, broken),
    }
}

/// What a rule looks at for which a procedure's heading counts. The refusals of a heading are repeated.
pub fn of_heading<T>(sought: Sought<T>) -> Elaborated<T>
    ensures { result ≡ of_heading sought }
{
    match sought {
        Ok(meaning) => Ok(meaning),
        Err(Meaningless::Broken(breach)) => Err(breach),
        Err(Meaningless::Headless(_, breach)) => Err(breach),
    }
}

/// What is taken as a value. A procedure in a procedure is none, whatever its heading; else the heading counts.
pub fn of_value<T>(pos: Pos, sought: Sought<T>) -> Elaborated<T>
    ensures { result ≡ of_value least pos sought }
{
    match sought {
        Ok(meaning) => Ok(meaning),
        Err(Meaningless::Broken(breach)) => Err(breach),
        Err(Meaningless::Headless(true, _)) => report(pos, Rule::NoProcedureValue),
        Err(Meaningless::Headless(false, breach)) => Err(breach),
    }
}

/// What a rule looks at that asks what sort of value it is.
pub fn of_sort_of_value<T>(pos: Pos, broken: Rule, sought: Sought<T>) -> Elaborated<T>
    ensures { result ≡ of_sort_of_value least pos broken sought }
{
    match sought {
        Ok(meaning) => Ok(meaning),
        Err(Meaningless::Broken(breach)) => Err(breach),
        Err(Meaningless::Headless(true, _)) => report(pos, Rule::NoProcedureValue),
        Err(Meaningless::Headless(false, _)) => report(pos, broken),
    }
}

/// What is no procedure without a heading.
pub fn plain<T>(elaborated: Elaborated<T>) -> Sought<T>
    ensures { result ≡ plain elaborated }
{
    match elaborated {
        Ok(meaning) => Ok(meaning),
        Err(breach) => Err(Meaningless::Broken(breach)),
    }
}

/// What a heading says of a procedure, in a procedure or not.
pub fn heading_means(nested: bool, means: Elaborated<Meaning>) -> Sought<Meaning>
    ensures { result ≡ heading_means nested means }
{
    match means {
        Ok(meaning) => Ok(meaning),
        Err(breach) => Err(Meaningless::Headless(nested, breach)),
    }
}
