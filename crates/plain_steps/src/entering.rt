//! How calls begin, and how they end.

ghost use Rattle.std.specs.Prelude.{◌≡◌, ◌∷◌, [], ◌++◌, suc, false, map, length, IfOk, OnOk, MatchOption};
ghost use Rattle.layout_storage.specs.Frames.{formals_of};
ghost use Rattle.layout_storage.specs.Texts.{argument_text};
ghost use Rattle.def_meaning.specs.Environment.{Elements, Number, Variable, Array, Text};
ghost use Rattle.def_meaning.specs.Calls.{variable_at, with_passed, with_all, variables_from, enter_call, is_function, copies_size, copy_size, storage_need};
ghost use Rattle.def_meaning.specs.Calls.{result as end_of};
ghost use Rattle.plain_store.specs.Seen.{view_of, answer_meaning, outcome_course};
ghost use Rattle.plain_values.specs.Surroundings.{name_of, argument_sent};
ghost use Rattle.plain_steps.specs.Entering.{begun_of, names_of, IsBodyOf};
ghost use Rattle.plain_steps.specs.Asked.{need_of, IsTooSmall, HasRoom};

use m2_rule::Fault;
use plain_store::blanks::{formals_of, plus, times};
use plain_store::prepared::Prepared;
use plain_store::state::{Answer, Outcome, RunFault, State, Stop, copy_to, put_at, store, text_to};
use plain_store::storage::{frame_held, frame_size, type_size};
use plain_values::program::{Around, Callee, Named, Passed, Program};
use std::alloc::{AllocError, Global};
use tree_parts::Items;
use typed_tree::{Formal, Routine, Shape, TypeNo, Types, made_of};

/// How formals begin: their names, and the number of the next instance.
#[derive(Drop)]
pub struct Begun {
    pub names: Items<Named>,
    pub next: usize,
}

/// What is asked of a procedure: its arguments, the number of the next instance, and the bytes of storage that are free.
#[derive(Drop)]
pub struct Request<'a> {
    pub callee: Callee<'a>,
    pub passed: Items<Passed>,
    pub next: usize,
    pub left: usize,
}

/// The location of a variable of an activation.
fn variable_at(alloc: Global, activation: usize, v: usize) -> Result<Items<usize>, RunFault>
    ensures { IfOk result (λ l. l ≡ variable_at activation v) }
{
    let mut l = Items::new(alloc);
    l.push(activation)?;
    l.push(plus(v, 1)?)?;
    Ok(l)
}

/// The location of an instance.
fn instance(alloc: Global, number: usize) -> Result<Items<usize>, AllocError>
    ensures { IfOk result (λ l. l ≡ number ∷ []) }
{
    let mut l = Items::new(alloc);
    l.push(number)?;
    Ok(l)
}

/// One more name. The only error is that memory ran out.
#[tactic(auto, using(crate::proofs::Begins::begins))]
fn add_name(begun: &mut Begun, name: Named) -> Result<(), RunFault>
    ensures names { OnOk result (names_of begun.new.names
        ≡ names_of begun.old.names ++ name_of name ∷ []) }
    ensures next { OnOk result (begun.new.next ≡ begun.old.next) }
{
    begun.names.push(name)?;
    Ok(())
}

/// The name of a copy, which is an instance of its own.
#[tactic(auto, using(crate::proofs::Begins::begins))]
fn add_copy(alloc: Global, begun: &mut Begun, high: usize) -> Result<(), RunFault>
    ensures names { OnOk result (names_of begun.new.names
        ≡ names_of begun.old.names ++ Elements (begun.old.next ∷ []) high ∷ []) }
    ensures next { OnOk result (begun.new.next ≡ suc begun.old.next) }
{
    begun
        .names
        .push(Named::Elements(instance(alloc, begun.next)?, high))?;
    begun.next = plus(begun.next, 1)?;
    Ok(())
}

/// The location of the next formal.
#[tactic(auto, using(crate::proofs::Begins::length_names))]
fn own(alloc: Global, activation: usize, begun: &Begun) -> Result<Items<usize>, RunFault>
    ensures { let v = length (names_of begun.now.names) in
        IfOk result (λ l. l ≡ variable_at activation v) }
{
    variable_at(alloc, activation, begun.names.len())
}

/// A number that is passed to a value formal.
#[tactic(auto, using(crate::proofs::Begins::stores))]
fn pass_number(
    alloc: Global,
    activation: usize,
    v: i64,
    begun: &mut Begun,
    st: &mut State,
) -> Result<(), RunFault>
    ensures begun { OnOk result (begun_of begun.new (view_of st.new)
        ≡ with_passed false activation (begun_of begun.old (view_of st.old)) (Number v)) }
    ensures out { OnOk result ((view_of st.new).out ≡ (view_of st.old).out) }
{
    let l = own(alloc, activation, begun)?;
    store(alloc, l.as_slice(), v, st)?;
    add_name(begun, Named::At(l))
}

/// An array or a record that is passed to a value formal.
#[tactic(auto, using(crate::proofs::Begins::stores))]
fn pass_copy(
    alloc: Global,
    activation: usize,
    from: &[usize],
    begun: &mut Begun,
    st: &mut State,
) -> Result<(), RunFault>
    ensures begun { OnOk result (begun_of begun.new (view_of st.new)
        ≡ with_passed false activation (begun_of begun.old (view_of st.old)) (Variable from.now)) }
    ensures out { OnOk result ((view_of st.new).out ≡ (view_of st.old).out) }
{
    let l = own(alloc, activation, begun)?;
    copy_to(alloc, l.as_slice(), from, st)?;
    add_name(begun, Named::At(l))
}

/// An array that is passed to an open array by value.
#[tactic(auto, using(crate::proofs::Begins::stores))]
fn pass_elements(
    alloc: Global,
    activation: usize,
    from: &[usize],
    high: usize,
    begun: &mut Begun,
    st: &mut State,
) -> Result<(), RunFault>
    ensures begun { OnOk result (begun_of begun.new (view_of st.new)
        ≡ with_passed false activation (begun_of begun.old (view_of st.old))
        (Array from.now high)) }
    ensures out { OnOk result ((view_of st.new).out ≡ (view_of st.old).out) }
{
    let l = instance(alloc, begun.next)?;
    copy_to(alloc, l.as_slice(), from, st)?;
    add_copy(alloc, begun, high)
}

/// A string that is passed to an open array.
#[tactic(auto, using(crate::proofs::Begins::stores))]
fn pass_text(
    alloc: Global,
    is_var: bool,
    activation: usize,
    text: &[u8],
    begun: &mut Begun,
    st: &mut State,
) -> Result<(), RunFault>
    ensures begun { OnOk result (begun_of begun.new (view_of st.new)
        ≡ with_passed is_var activation (begun_of begun.old (view_of st.old)) (Text text.now)) }
    ensures out { OnOk result ((view_of st.new).out ≡ (view_of st.old).out) }
{
    let l = instance(alloc, begun.next)?;
    text_to(alloc, l.as_slice(), text, st)?;
    add_copy(alloc, begun, text.len().saturating_sub(1))
}

/// An argument that is passed to a formal.
#[tactic(auto, using(crate::proofs::Begins::either))]
fn pass(
    alloc: Global,
    is_var: bool,
    activation: usize,
    v: &Passed,
    begun: &mut Begun,
    st: &mut State,
) -> Result<(), RunFault>
    ensures begun { OnOk result (begun_of begun.new (view_of st.new)
        ≡ with_passed is_var activation (begun_of begun.old (view_of st.old))
        (argument_sent v.now)) }
    ensures out { OnOk result ((view_of st.new).out ≡ (view_of st.old).out) }
{
    match v {
        Passed::Number(n) => pass_number(alloc, activation, *n, begun, st),
        Passed::Variable(l) => {
            if is_var {
                add_name(begun, Named::At(Items::from_slice(alloc, l.as_slice())?))
            } else {
                pass_copy(alloc, activation, l.as_slice(), begun, st)
            }
        }
        Passed::Array(l, high) => {
            if is_var {
                let l = Items::from_slice(alloc, l.as_slice())?;
                add_name(begun, Named::Elements(l, *high))
            } else {
                pass_elements(alloc, activation, l.as_slice(), *high, begun, st)
            }
        }
        Passed::Text(text) => { pass_text(alloc, is_var, activation, text.as_slice(), begun, st) }
    }
}

/// The arguments that are passed to the formals, one after the other.
fn pass_all(
    alloc: Global,
    activation: usize,
    formals: &[Formal],
    vs: &[Passed],
    begun: &mut Begun,
    st: &mut State,
) -> Result<(), RunFault>
    ensures begun { OnOk result (begun_of begun.new (view_of st.new)
        ≡ with_all activation formals.now (map argument_sent vs.now)
        (begun_of begun.old (view_of st.old))) }
    ensures out { OnOk result ((view_of st.new).out ≡ (view_of st.old).out) }
{
    match formals {
        [] => Ok(()),
        [formal, formals @ ..] => match vs {
            [] => Ok(()),
            [v, vs @ ..] => {
                pass(alloc, formal.is_var, activation, v, begun, st)?;
                pass_all(alloc, activation, formals, vs, begun, st)
            }
        },
    }
}

/// The names of variables, behind the names of the formals.
#[tactic(auto, using(crate::proofs::Begins::variables))]
fn add_variables(
    alloc: Global,
    activation: usize,
    variables: &[TypeNo],
    names: Items<Named>,
) -> Result<Items<Named>, RunFault>
    ensures { let v = length (names_of names) in
        IfOk result (λ all. names_of all
        ≡ names_of names ++ variables_from activation v variables.now) }
{
    match variables {
        [] => Ok(names),
        [_, rest @ ..] => {
            let mut all = names;
            let l = variable_at(alloc, activation, all.len())?;
            all.push(Named::At(l))?;
            add_variables(alloc, activation, rest, all)
        }
    }
}

/// Whether a procedure gives a value.
fn is_function(types: &Types, routine: &Routine) -> bool
    ensures { result ≡ is_function types.now routine.now }
{
    match made_of(types, routine.heading) {
        None => false,
        Some(made) => match &made.shape {
            Shape::Procedure(signature) => signature.result.is_some(),
            Shape::Scalar(_)
            | Shape::Set
            | Shape::Array(_, _)
            | Shape::Record(_)
            | Shape::Open(_) => false,
        },
    }
}

/// What a body that ends so gives.
#[tactic(auto, using(crate::proofs::Begins::results))]
fn result_of(function: bool, o: Outcome) -> Answer<i64>
    ensures { (st : State) → answer_meaning result st ≡ end_of function (outcome_course o st) }
{
    match o {
        Outcome::Normal => {
            if function {
                Answer::Stopped(Stop::Ended(Fault::NoReturn.number()))
            } else {
                Answer::Value(0)
            }
        }
        Outcome::Exited => {
            if function {
                Answer::Stopped(Stop::Ended(Fault::NoReturn.number()))
            } else {
                Answer::Value(0)
            }
        }
        Outcome::Returned(v) => Answer::Value(v),
        Outcome::Stopped(stop) => Answer::Stopped(stop),
    }
}

/// What the body of a procedure gives.
pub fn result(home: &Prepared<'_>, routine: &Routine, o: Outcome, st: &State) -> Answer<i64>
    ensures { let function = is_function home.now.body.now.types routine.now in
        answer_meaning result st.now ≡ end_of function (outcome_course o st.now) }
{
    result_of(is_function(&home.body.types, routine), o)
}

/// The bytes of the copy of an open array.
fn copy_size(
    alloc: Global,
    home: &Prepared<'_>,
    formal: &Formal,
    v: &Passed,
) -> Result<usize, RunFault>
    ensures { let types = home.now.body.now.types in
        IfOk result (λ n. n ≡ copy_size types formal.now (argument_sent v.now)) }
{
    match v {
        Passed::Number(_) => Ok(0),
        Passed::Variable(_) => Ok(0),
        Passed::Array(_, high) => {
            if formal.is_var {
                Ok(0)
            } else {
                times(plus(*high, 1)?, type_size(alloc, home, formal.of)?)
            }
        }
        Passed::Text(text) => times(
            text_size(text.as_slice()),
            type_size(alloc, home, formal.of)?,
        ),
    }
}

/// How many characters a string has that is passed.
fn text_size(text: &[u8]) -> usize
    ensures { result ≡ length (argument_text text.now) }
{
    match text {
        [] => 1,
        [_, ..] => text.len(),
    }
}

fn copies_size(
    alloc: Global,
    home: &Prepared<'_>,
    formals: &[Formal],
    vs: &[Passed],
) -> Result<usize, RunFault>
    ensures { let types = home.now.body.now.types in
        IfOk result (λ n. n ≡ copies_size types formals.now (map argument_sent vs.now)) }
{
    match formals {
        [] => Ok(0),
        [formal, formals @ ..] => match vs {
            [] => Ok(0),
            [v, vs @ ..] => {
                let one = copy_size(alloc, home, formal, v)?;
                plus(one, copies_size(alloc, home, formals, vs)?)
            }
        },
    }
}

/// The bytes of storage that a call takes. The only error is that a number does not fit.
fn storage_need(
    alloc: Global,
    home: &Prepared<'_>,
    routine: &Routine,
    vs: &[Passed],
) -> Result<usize, RunFault>
    ensures { let types = home.now.body.now.types in
        IfOk result (λ n. n ≡ storage_need types routine.now (map argument_sent vs.now)) }
{
    let copies = copies_size(
        alloc,
        home,
        formals_of(&home.body.types, routine.heading),
        vs,
    )?;
    plus(frame_size(alloc, home, routine)?, copies)
}

/// The names of the formals and the variables of a call, and the number of the next instance.
#[tactic(auto, using(crate::proofs::Begins::enters))]
fn enter_with(
    alloc: Global,
    home: &Prepared<'_>,
    routine: &Routine,
    activation: usize,
    vs: &[Passed],
    st: &mut State,
) -> Result<Begun, RunFault>
    ensures begun { let types = home.now.body.now.types in
        IfOk result (λ b.
        begun_of b (view_of st.new)
        ≡ enter_call types routine.now activation (map argument_sent vs.now)
        (view_of st.old).store) }
    ensures out { OnOk result ((view_of st.new).out ≡ (view_of st.old).out) }
{
    let blank = frame_held(alloc, home, routine)?;
    let l = instance(alloc, activation)?;
    put_at(alloc, l.as_slice(), blank, st)?;
    let mut begun = Begun {
        names: Items::new(alloc),
        next: plus(activation, 1)?,
    };
    let formals = formals_of(&home.body.types, routine.heading);
    pass_all(alloc, activation, formals, vs, &mut begun, st)?;
    Ok(begun)
}

/// The names of the formals of a call, and the number of the next instance.
pub fn enter(alloc: Global, request: &Request<'_>, st: &mut State) -> Result<Begun, RunFault>
    ensures begun { let q = request.now in
        let types = q.callee.home.body.now.types in
        let vs = map argument_sent q.passed in
        let r = q.callee.routine.now in
        IfOk result (λ b.
        begun_of b (view_of st.new) ≡ enter_call types r q.next vs (view_of st.old).store) }
    ensures out { OnOk result ((view_of st.new).out ≡ (view_of st.old).out) }
{
    let (home, routine) = (&request.callee.home, request.callee.routine);
    enter_with(
        alloc,
        home,
        routine,
        request.next,
        request.passed.as_slice(),
        st,
    )
}

/// The bytes of storage that a call takes.
#[tactic(auto, unfolding(crate::specs::Asked::need_of))]
fn need_of(alloc: Global, request: &Request<'_>) -> Result<usize, RunFault>
    ensures { IfOk result (λ n. n ≡ need_of request.now) }
{
    let (home, routine) = (&request.callee.home, request.callee.routine);
    storage_need(alloc, home, routine, request.passed.as_slice())
}

/// The storage that a call leaves, if it fits into what is free. The only error is that memory ran out, or that a number
/// does not fit.
pub fn rest_of(alloc: Global, request: &Request<'_>) -> Result<Option<usize>, RunFault>
    ensures { IfOk result (λ o. MatchOption o (IsTooSmall request.now) (HasRoom request.now)) }
{
    let need = need_of(alloc, request)?;
    if request.left < need {
        return Ok(None);
    }
    Ok(Some(request.left - need))
}

/// A frame before others. The only error is that memory ran out.
fn innermost(
    alloc: Global,
    own: Items<Named>,
    outer: Items<Items<Named>>,
) -> Result<Items<Items<Named>>, AllocError>
    ensures { IfOk result (λ all. all ≡ own ∷ outer) }
{
    let mut all = Items::new(alloc);
    all.push(own)?;
    all.append(outer)?;
    Ok(all)
}

/// What stands around the body of a call.
#[tactic(auto, using(crate::proofs::Begins::frames_are))]
pub fn body_environment<'a>(
    program: &'a Program<'a>,
    depth: usize,
    callee: Callee<'a>,
    activation: usize,
    begun: Begun,
    left: usize,
) -> Result<Around<'a>, RunFault>
    ensures { IfOk result (λ a. IsBodyOf program.now depth callee.entry activation begun left a) }
{
    let alloc = program.alloc;
    let Callee {
        place,
        home,
        routine,
        frames,
    } = callee;
    let Begun { names, next } = begun;
    let names = add_variables(alloc, activation, routine.variables.as_slice(), names)?;
    Ok(Around {
        program,
        depth,
        place,
        home,
        frames: innermost(alloc, names, frames)?,
        withs: Items::new(alloc),
        next,
        left,
    })
}
