//! The run of a program: the bodies of its modules in start order, on fresh variables.

ghost use Rattle.std.specs.Prelude.{◌≡◌, ◌-◌, map, IfOk};
ghost use Rattle.layout_storage.specs.Frames.{module_row};
ghost use Rattle.layout_storage.specs.Texts.{module_texts, characters};
ghost use Rattle.layout_storage.specs.Types.{row as row_type};
ghost use Rattle.def_meaning.specs.Store.{fresh};
ghost use Rattle.def_meaning.specs.Runs.{run, storage, body_frame};
ghost use Rattle.plain_store.specs.Seen.{view_of, stop_course};
ghost use Rattle.plain_values.specs.Surroundings.{modules_in};
ghost use Rattle.plain_store.specs.Contents.{contents};
ghost use Rattle.plain_store.specs.Blanks.{known_blanks, row_blank, variables_of};
ghost use Rattle.plain_run.specs.Whole.{IsBodyAround, course_of, data_of, bodies_in};

use crate::runs::steps;
use layout_storage::Layout;
use plain_store::blanks::{Blank, Kept, all_blanks, plus, row, variables_blank};
use plain_store::held::Held;
use plain_store::prepared::Prepared;
use plain_store::state::{Outcome, RunFault, State, Stop};
use plain_values::program::{Around, Program};
use std::alloc::Global;
use tree_parts::Items;
use typed_tree::TypedModule;

/// How a run ends, and what it has printed.
#[derive(Drop)]
pub struct Report {
    pub end: Stop,
    pub out: Items<u8>,
}

/// Variables of all types of the modules.
fn known_all(alloc: Global, modules: &[TypedModule]) -> Result<Items<Items<Kept>>, RunFault>
    ensures { IfOk result (λ ks. ks ≡ map (λ m. known_blanks m.types) modules.now) }
{
    let mut all = Items::new(alloc);
    for m in modules {
        all.push(all_blanks(alloc, &m.types)?)?;
    }
    Ok(all)
}

fn prepare_run<'a>(
    alloc: Global,
    modules: &'a [TypedModule],
    kept: &'a [Items<Kept>],
) -> Result<Items<Prepared<'a>>, RunFault>
    requires { kept.now ≡ map (λ m. known_blanks m.types) modules.now }
    ensures { IfOk result (λ ps. modules_in ps ≡ modules.now) }
{
    match modules {
        [] => Ok(Items::new(alloc)),
        [m, rest @ ..] => match kept {
            [] => Err(RunFault::TooLarge),
            [first, others @ ..] => {
                let mut all = Items::new(alloc);
                all.push(Prepared {
                    body: m,
                    kept: first.as_slice(),
                })?;
                all.append(prepare_run(alloc, rest, others)?)?;
                Ok(all)
            }
        },
    }
}

/// The characters of the texts of a module.
#[tactic(auto, using(crate::proofs::Wholes::texts_exact))]
fn texts_size(alloc: Global, m: &TypedModule) -> Result<usize, RunFault>
    ensures { IfOk result (λ n. n ≡ characters (module_texts m.now)) }
{
    match Layout::of(alloc, m)? {
        Err(_) => Err(RunFault::TooLarge),
        Ok(layout) => Ok(layout.texts as usize),
    }
}

/// The variables of a module.
fn module_blank(alloc: Global, home: &Prepared<'_>) -> Result<Blank, RunFault>
    ensures { IfOk result (λ b. b ≡ variables_of home.now.body.now) }
{
    variables_blank(
        alloc,
        &home.body.types,
        home.kept,
        home.body.variables.as_slice(),
    )
}

fn module_blanks(alloc: Global, homes: &[Prepared<'_>]) -> Result<Items<Blank>, RunFault>
    ensures { IfOk result (λ bs. bs ≡ map variables_of (modules_in homes.now)) }
{
    let mut all = Items::new(alloc);
    for home in homes {
        all.push(module_blank(alloc, home)?)?;
    }
    Ok(all)
}

/// The bytes of the variables and the texts of all modules.
fn data_size(alloc: Global, homes: &[Prepared<'_>]) -> Result<usize, RunFault>
    ensures { IfOk result (λ n. n ≡ data_of (modules_in homes.now)) }
{
    match homes {
        [] => Ok(0),
        [home, rest @ ..] => {
            let blank = module_blank(alloc, home)?;
            let own = plus(blank.size, texts_size(alloc, home.body)?)?;
            plus(own, data_size(alloc, rest)?)
        }
    }
}

/// The storage of calls in a body.
#[tactic(auto, using(crate::proofs::Wholes::storage_is))]
fn free_storage(alloc: Global, homes: &[Prepared<'_>], pages: usize) -> Result<usize, RunFault>
    ensures { IfOk result (λ n. n ≡ storage (modules_in homes.now) pages - body_frame) }
{
    let data = data_size(alloc, homes)?;
    match pages.checked_mul(65_536) {
        None => Err(RunFault::TooLarge),
        Some(all) => Ok(all.saturating_sub(data).saturating_sub(16)),
    }
}

/// The fresh variables of all modules.
fn first_blank(alloc: Global, homes: &[Prepared<'_>]) -> Result<Blank, RunFault>
    ensures { IfOk result (λ b. b ≡ row_blank (map variables_of (modules_in homes.now))) }
{
    let blanks = module_blanks(alloc, homes)?;
    row(alloc, blanks.as_slice())
}

/// What all variables hold at first.
#[tactic(auto, using(crate::proofs::Wholes::all_fresh))]
fn first_held(alloc: Global, homes: &[Prepared<'_>]) -> Result<Held, RunFault>
    ensures { let t = row_type (map module_row (modules_in homes.now)) in
        IfOk result (λ h. contents h ≡ fresh t) }
{
    let blank = first_blank(alloc, homes)?;
    Ok(blank.held)
}

/// What stands around the body of a module.
fn around_module<'a>(
    program: &'a Program<'a>,
    home: Prepared<'a>,
    place: usize,
    left: usize,
) -> Result<Around<'a>, RunFault>
    ensures { IfOk result (λ a. IsBodyAround program.now home.entry place left a) }
{
    Ok(Around {
        program,
        depth: program.bound,
        place,
        home,
        frames: Items::new(program.alloc),
        withs: Items::new(program.alloc),
        next: plus(program.modules.len(), 1)?,
        left,
    })
}

/// The bodies of modules, one after the other.
fn bodies<'a>(
    program: &'a Program<'a>,
    homes: &'a [Prepared<'a>],
    place: usize,
    left: usize,
    nesting: usize,
    st: &mut State,
) -> Result<Stop, RunFault>
    ensures { let ms = modules_in homes.now in
        IfOk result (λ s. stop_course s st.new
        ≡ bodies_in program.now left place ms (view_of st.old)) }
{
    match homes {
        [] => Ok(Stop::Ended(0)),
        [home, rest @ ..] => {
            let around = around_module(program, *home, place, left)?;
            let next = plus(place, 1)?;
            match steps(&around, nesting, home.body.body.as_slice(), st)? {
                Outcome::Normal => bodies(program, rest, next, left, nesting, st),
                Outcome::Exited => bodies(program, rest, next, left, nesting, st),
                Outcome::Returned(_) => bodies(program, rest, next, left, nesting, st),
                Outcome::Stopped(stop) => Ok(stop),
            }
        }
    }
}

fn run_prepared<'a>(
    alloc: Global,
    homes: &'a [Prepared<'a>],
    pages: usize,
    bound: usize,
    nesting: usize,
) -> Result<Report, RunFault>
    ensures { let p = modules_in homes.now in
        IfOk result (λ x. course_of x ≡ run p pages bound) }
{
    let program = Program {
        alloc,
        modules: homes,
        bound,
    };
    let left = free_storage(alloc, homes, pages)?;
    let mut st = State {
        store: first_held(alloc, homes)?,
        out: Items::new(alloc),
    };
    let end = bodies(&program, homes, 0, left, nesting, &mut st)?;
    let State { store: _, out } = st;
    Ok(Report { end, out })
}

/// Runs a program, given as the modules that are reached in start order, in memories of `pages` pages. Each loop makes
/// at most `bound` turns, and calls nest at most as deep. On `Ok` it is exactly the run of the definition. The only
/// errors are that memory ran out, that a number does not fit into the machine's types, or that parts nest deeper than
/// is allowed.
pub fn run(
    alloc: Global,
    modules: &[TypedModule],
    pages: usize,
    bound: usize,
    nesting: usize,
) -> Result<Report, RunFault>
    ensures { IfOk result (λ x. course_of x ≡ run modules.now pages bound) }
{
    let kept = known_all(alloc, modules)?;
    let homes = prepare_run(alloc, modules, kept.as_slice())?;
    run_prepared(alloc, homes.as_slice(), pages, bound, nesting)
}
