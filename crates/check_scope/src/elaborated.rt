//! Rules that are broken.

ghost use Rattle.std.specs.Prelude.{◌≡◌, Err};
ghost use Rattle.check_scope.specs.Elaborated.{least, both, beside, refusal_beside, reported_beside};
ghost use Rattle.m2_rule.specs.Breaches.{breach};

use m2_rule::{Breach, Rule, lesser};
use m2_tree::Pos;

/// What a part means, or the least rule that is broken in it.
pub type Elaborated<T> = Result<T, Breach>;

/// What is reported of a rule that is broken.
pub fn report<T>(pos: Pos, broken: Rule) -> Elaborated<T>
    ensures { result ≡ Err (breach pos broken) }
{
    Err(Breach::at(pos, broken))
}

/// Two parts that stand beside one another. If both have broken rules, the least is reported.
pub fn both<A: Drop, B: Drop>(first: Elaborated<A>, second: Elaborated<B>) -> Elaborated<(A, B)>
    ensures { result ≡ both least first second }
{
    match (first, second) {
        (Ok(a), Ok(b)) => Ok((a, b)),
        (Ok(_), Err(g)) => Err(g),
        (Err(f), Ok(_)) => Err(f),
        (Err(f), Err(g)) => Err(lesser(f, g)),
    }
}

/// Two parts, of which the meanings are not needed.
pub fn beside(first: Elaborated<()>, second: Elaborated<()>) -> Elaborated<()>
    ensures { result ≡ beside least first second }
{
    match (first, second) {
        (Ok(_), Ok(_)) => Ok(()),
        (Ok(_), Err(g)) => Err(g),
        (Err(f), Ok(_)) => Err(f),
        (Err(f), Err(g)) => Err(lesser(f, g)),
    }
}

/// A refusal, beside what is reported of the parts that stand behind.
pub fn refusal_beside<T>(breach: Breach, rest: Elaborated<()>) -> Elaborated<T>
    ensures { result ≡ refusal_beside least breach rest }
{
    match rest {
        Ok(()) => Err(breach),
        Err(other) => Err(lesser(breach, other)),
    }
}

/// What is reported of a rule that is broken, beside what is reported of the parts that stand behind.
pub fn reported_beside<T>(pos: Pos, broken: Rule, rest: Elaborated<()>) -> Elaborated<T>
    ensures { result ≡ reported_beside least pos broken rest }
{
    refusal_beside(Breach::at(pos, broken), rest)
}
