//! The procedures that are called.

ghost use Rattle.std.specs.Prelude.{◌≡◌, suc, pos, slice_get, IfOk, MatchOption};
ghost use Rattle.std.specs.Option.{option_map};
ghost use Rattle.def_meaning.specs.Environment.{module_callee, nested_in, entries_before, entry_callee, entry_of, procedure_value};
ghost use Rattle.plain_values.specs.Surroundings.{modules_in, modules_of, surroundings, callee_of};
ghost use Rattle.plain_steps.specs.Parts.{entries_at};
ghost use Rattle.std.specs.Prelude.{drop};

use plain_store::blanks::plus;
use plain_store::prepared::Prepared;
use plain_store::state::RunFault;
use plain_values::places::{module_place, whole};
use plain_values::program::{Around, Callee, Named, Program, copy_frames};
use std::alloc::{AllocError, Global};
use tree_parts::Items;

/// The place of a module, and the number of a procedure among its own.
#[derive(Clone, Copy)]
pub struct Found {
    pub place: usize,
    pub number: usize,
}

/// One less, if there is a number less.
fn less_one(n: usize) -> Option<usize>
    ensures { MatchOption result (n ≡ 0) (λ d. n ≡ suc d) }
{
    n.checked_sub(1)
}

/// How many entries stand before a module's.
#[tactic(auto, using(crate::proofs::Entries::entries))]
fn entries_before(place: usize, modules: &[Prepared<'_>]) -> Result<usize, RunFault>
    ensures { IfOk result (λ n. n ≡ entries_before place (modules_in modules.now)) }
{
    match less_one(place) {
        None => Ok(0),
        Some(others) => match modules {
            [] => Ok(0),
            [m, rest @ ..] => {
                let own = plus(1, m.body.procedures.len())?;
                plus(own, entries_before(others, rest)?)
            }
        },
    }
}

/// The number of a procedure as a value.
#[tactic(auto, unfolding(plain_values::specs::Surroundings::modules_of))]
pub fn procedure_value(around: &Around<'_>, home: u32, number: usize) -> Result<i64, RunFault>
    ensures { let p = modules_of around.now.program.now in
        IfOk result (λ v. v ≡ procedure_value p home number) }
{
    let before = entries_before(module_place(around, home), around.program.modules)?;
    whole(plus(plus(before, number)?, 2)?)
}

/// The procedure with a number among all entries of these modules.
fn procedure_at(modules: &[Prepared<'_>], place: usize, k: usize) -> Result<Option<Found>, RunFault>
    ensures { let ms = modules_in modules.now in
        IfOk result (λ f. f ≡ entries_at place ms k) }
{
    match modules {
        [] => Ok(None),
        [m, rest @ ..] => match less_one(k) {
            None => Ok(None),
            Some(j) => {
                let count = m.body.procedures.len();
                if j < count {
                    Ok(Some(Found { place, number: j }))
                } else {
                    procedure_at(rest, plus(place, 1)?, j - count)
                }
            }
        },
    }
}

/// The module at a place.
fn home_at<'a>(modules: &[Prepared<'a>], place: usize) -> Option<Prepared<'a>>
    ensures { result ≡ slice_get modules.now place }
{
    match modules {
        [] => None,
        [m, rest @ ..] => match less_one(place) {
            None => Some(*m),
            Some(place) => home_at(rest, place),
        },
    }
}

/// The frames this many procedures outwards.
fn outer(
    alloc: Global,
    frames: &[Items<Named>],
    up: usize,
) -> Result<Items<Items<Named>>, AllocError>
    ensures { IfOk result (λ all. all ≡ drop up frames.now) }
{
    match less_one(up) {
        None => copy_frames(alloc, frames),
        Some(up) => match frames {
            [] => Ok(Items::new(alloc)),
            [_, rest @ ..] => outer(alloc, rest, up),
        },
    }
}

#[tactic(auto, using(crate::proofs::Asking::callees))]
fn callee<'a>(program: &Program<'a>, place: usize, number: usize) -> Option<Callee<'a>>
    ensures { option_map callee_of result ≡ module_callee (modules_of program.now) place number }
{
    match home_at(program.modules, place) {
        None => None,
        Some(home) => match home.body.procedures.get(number) {
            None => None,
            Some(routine) => Some(Callee {
                place,
                home,
                routine,
                frames: Items::new(program.alloc),
            }),
        },
    }
}

/// A procedure of the module at a place.
pub fn module_callee<'a>(around: &Around<'a>, place: usize, number: usize) -> Option<Callee<'a>>
    ensures { let p = modules_of around.now.program.now in
        option_map callee_of result ≡ module_callee p place number }
{
    callee(around.program, place, number)
}

/// A number that is not negative. The only error is that it does not fit.
fn count_from(v: i64) -> Result<usize, RunFault>
    ensures { IfOk result (λ n. v ≡ pos n) }
{
    match usize::try_from(v) {
        Err(_) => Err(RunFault::TooLarge),
        Ok(n) => Ok(n),
    }
}

/// The procedure that a number stands for. The only error is that a number does not fit.
#[tactic(auto, using(crate::proofs::Asking::variables))]
pub fn variable_callee<'a>(around: &Around<'a>, v: i64) -> Result<Option<Callee<'a>>, RunFault>
    ensures { let p = modules_of around.now.program.now in
        IfOk result (λ c. option_map callee_of c ≡ entry_callee p (entry_of p v)) }
{
    if v < 1 {
        return Ok(None);
    }
    let Some(k) = less_one(count_from(v)?) else {
        return Ok(None);
    };
    match procedure_at(around.program.modules, 0, k)? {
        None => Ok(None),
        Some(found) => Ok(callee(around.program, found.place, found.number)),
    }
}

/// A procedure of a procedure, which is declared this many procedures outwards. The only error is that memory ran out.
#[tactic(auto, using(crate::proofs::Asking::nested))]
pub fn nested_callee<'a>(
    around: &Around<'a>,
    up: usize,
    number: usize,
) -> Result<Option<Callee<'a>>, AllocError>
    ensures { let a = surroundings around.now in
        let home = slice_get (modules_of around.now.program.now) a.place in
        IfOk result (λ c.
        option_map callee_of c ≡ nested_in a.place home (drop up a.frames) number) }
{
    match home_at(around.program.modules, around.place) {
        None => Ok(None),
        Some(home) => match home.body.locals.get(number) {
            None => Ok(None),
            Some(routine) => {
                let frames = outer(around.program.alloc, around.frames.as_slice(), up)?;
                Ok(Some(Callee {
                    place: around.place,
                    home,
                    routine,
                    frames,
                }))
            }
        },
    }
}
