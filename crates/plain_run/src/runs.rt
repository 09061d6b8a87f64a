//! The run of the parts of a program: each as the definition says.

ghost use Rattle.std.specs.Prelude.{◌≡◌, suc, map, IfOk, MatchOption};
ghost use Rattle.std.specs.Option.{option_map};
ghost use Rattle.def_meaning.specs.Calls.{runs, calling};
ghost use Rattle.typed_tree.specs.declared.statement.TypedStmt.TheVariants.{If, Case, With};
ghost use Rattle.plain_store.specs.Seen.{view_of, answer_meaning, outcome_course};
ghost use Rattle.plain_values.specs.Surroundings.{modules_of, callee_of, argument_sent, value_in, located_in, called_in, linked_in, links_in, reached_in, components_in, given_in, all_given_in, does_in, steps_in};
ghost use Rattle.plain_steps.specs.Parts.{answered_sent, answered_all, pair_in, in_in, target_in, ends_in, asked_in, while_in, repeat_in, loop_in, for_in, for_begun, turns_in};

use m2_rule::Fault;
use plain_steps::callees::{module_callee, nested_callee, procedure_value, variable_callee};
use plain_steps::entering::{Request, body_environment, enter, rest_of, result};
use plain_steps::passing::{
    array_passed, in_front, load_number, number_passed, open_passed, text_passed, variable_passed,
};
use plain_steps::simple::{
    Ends, Target, Turns, assign, begin_for, call_outcome, change, chosen_arm, copy, copy_text,
    give, membership, next_turn, put,
};
use plain_store::state::{Answer, Outcome, RunFault, State, Stop, deeper, load};
use plain_values::checks::{
    Operands, capital, character, combined_with, comparison_holds, denial_of, distance,
    inclusion_holds, is_in, negation_of, odd, operated_with, ordinal, value_as, within,
};
use plain_values::operators::{is_true, truth};
use plain_values::places::{
    component, element_at, module_place, open_element_at, root_location, slot_high, whole,
};
use plain_values::program::{Around, Callee, Passed, Program, under};
use tree_parts::Items;
use typed_tree::{Argument, Call, Component, Link, Place, TypeNo, TypedArm, TypedExpr, TypedStmt};

/// The value of an expression.
#[cycle(runs)]
#[tactic(auto, using(crate::proofs::Variants::variants))]
pub fn value<'a>(
    around: &Around<'a>,
    room: usize,
    e: &TypedExpr,
    st: &mut State,
) -> Result<Answer<i64>, RunFault>
    ensures { IfOk result (λ j.
        answer_meaning j st.new ≡ value_in around.now e.now (view_of st.old)) }
{
    let room = deeper(room)?;
    match e {
        TypedExpr::Constant(_, n) => Ok(Answer::Value(*n)),
        TypedExpr::Load(_, d) => Ok(load_number(location_of(around, room, d, st)?, st)),
        TypedExpr::Procedure(f) => Ok(Answer::Value(procedure_value(around, f.home, f.number)?)),
        TypedExpr::Plus(_, a) => value(around, room, a.get(), st),
        TypedExpr::Negate(a) => negation_of(around, value(around, room, a.get(), st)?, st),
        TypedExpr::Chain(a, links) => match value(around, room, a.get(), st)? {
            Answer::Value(x) => links_value(around, room, links.as_slice(), x, st),
            Answer::Stopped(stop) => Ok(Answer::Stopped(stop)),
        },
        TypedExpr::Compare(o, a, b) => {
            Ok(comparison_holds(*o, operands(around, room, a.get(), b.get(), st)?, st))
        }
        TypedExpr::Not(a) => Ok(denial_of(value(around, room, a.get(), st)?, st)),
        TypedExpr::Include(o, a, b) => {
            Ok(inclusion_holds(*o, operands(around, room, a.get(), b.get(), st)?, st))
        }
        TypedExpr::In(a, b) => in_value(around, room, a.get(), b.get(), st),
        _ => function_value(around, room, e, st),
    }
}

/// The value of a function's call, of a standard function or of another. Of any other expression it is the value too.
#[cycle(runs)]
#[tactic(auto, using(crate::proofs::Variants::variants))]
fn function_value<'a>(
    around: &Around<'a>,
    room: usize,
    e: &TypedExpr,
    st: &mut State,
) -> Result<Answer<i64>, RunFault>
    ensures { IfOk result (λ j.
        answer_meaning j st.new ≡ value_in around.now e.now (view_of st.old)) }
{
    let room = deeper(room)?;
    match e {
        TypedExpr::Abs(t, a) => distance(around, *t, value(around, room, a.get(), st)?, st),
        TypedExpr::Cap(a) => capital(value(around, room, a.get(), st)?, st),
        TypedExpr::Chr(a) => Ok(character(value(around, room, a.get(), st)?, st)),
        TypedExpr::Odd(a) => Ok(odd(value(around, room, a.get(), st)?, st)),
        TypedExpr::Ord(a) => Ok(ordinal(value(around, room, a.get(), st)?, st)),
        TypedExpr::Val(t, a) => Ok(value_as(around, *t, value(around, room, a.get(), st)?, st)),
        TypedExpr::High(slot) => Ok(Answer::Value(whole(slot_high(around, *slot))?)),
        TypedExpr::Call(_, call) => call_value(around, room, call.get(), st),
        _ => value(around, room, e, st),
    }
}

/// The values of two expressions, the first before the second.
#[cycle(runs)]
#[tactic(auto, using(plain_store::proofs::Threads::threads), unfolding(plain_steps::specs::Parts::pair_in))]
fn operands<'a>(
    around: &Around<'a>,
    room: usize,
    a: &TypedExpr,
    b: &TypedExpr,
    st: &mut State,
) -> Result<Answer<Operands>, RunFault>
    ensures { IfOk result (λ j.
        answer_meaning j st.new ≡ pair_in around.now a.now b.now (view_of st.old)) }
{
    let room = deeper(room)?;
    match value(around, room, a, st)? {
        Answer::Value(first) => match value(around, room, b, st)? {
            Answer::Value(second) => Ok(Answer::Value(Operands { first, second })),
            Answer::Stopped(stop) => Ok(Answer::Stopped(stop)),
        },
        Answer::Stopped(stop) => Ok(Answer::Stopped(stop)),
    }
}

/// Whether an element is in a set. The element is checked before the set is evaluated.
#[cycle(runs)]
#[tactic(auto, using(plain_store::proofs::Threads::threads), unfolding(plain_steps::specs::Parts::in_in))]
fn in_value<'a>(
    around: &Around<'a>,
    room: usize,
    a: &TypedExpr,
    b: &TypedExpr,
    st: &mut State,
) -> Result<Answer<i64>, RunFault>
    ensures { IfOk result (λ j.
        answer_meaning j st.new ≡ in_in around.now a.now b.now (view_of st.old)) }
{
    let room = deeper(room)?;
    match value(around, room, a, st)? {
        Answer::Value(x) => match within(0, 31, 1, x, st) {
            Answer::Value(x) => is_in(x, value(around, room, b, st)?, st),
            Answer::Stopped(stop) => Ok(Answer::Stopped(stop)),
        },
        Answer::Stopped(stop) => Ok(Answer::Stopped(stop)),
    }
}

/// What the operators of a chain make of a value, one after the other.
#[cycle(runs)]
#[tactic(auto, using(plain_store::proofs::Threads::threads), unfolding(plain_values::specs::Surroundings::links_in, plain_values::specs::Surroundings::linked_in))]
fn links_value<'a>(
    around: &Around<'a>,
    room: usize,
    links: &[Link],
    first: i64,
    st: &mut State,
) -> Result<Answer<i64>, RunFault>
    ensures { IfOk result (λ j.
        answer_meaning j st.new ≡ links_in around.now links.now first (view_of st.old)) }
{
    let room = deeper(room)?;
    let mut x = first;
    for link in links {
        match link_value(around, room, link, x, st)? {
            Answer::Value(y) => x = y,
            Answer::Stopped(stop) => return Ok(Answer::Stopped(stop)),
        }
    }
    Ok(Answer::Value(x))
}

/// What an operator makes of a value.
#[cycle(runs)]
#[tactic(auto, using(crate::proofs::Variants::variants))]
fn link_value<'a>(
    around: &Around<'a>,
    room: usize,
    link: &Link,
    x: i64,
    st: &mut State,
) -> Result<Answer<i64>, RunFault>
    ensures { IfOk result (λ j.
        answer_meaning j st.new ≡ linked_in around.now link.now x (view_of st.old)) }
{
    let room = deeper(room)?;
    match link {
        Link::Arithmetic(o, t, b) => {
            operated_with(around, *o, *t, x, value(around, room, b, st)?, st)
        }
        Link::And(b) => {
            if is_true(x) {
                value(around, room, b, st)
            } else {
                Ok(Answer::Value(truth(false)))
            }
        }
        Link::Or(b) => {
            if is_true(x) {
                Ok(Answer::Value(truth(true)))
            } else {
                value(around, room, b, st)
            }
        }
        Link::Combine(o, b) => combined_with(*o, x, value(around, room, b, st)?, st),
    }
}

/// Where a designator leads.
#[cycle(runs)]
#[tactic(auto, using(crate::proofs::Variants::variants))]
pub fn location_of<'a>(
    around: &Around<'a>,
    room: usize,
    d: &Place,
    st: &mut State,
) -> Result<Answer<Items<usize>>, RunFault>
    ensures { IfOk result (λ j.
        answer_meaning j st.new ≡ located_in around.now d.now (view_of st.old)) }
{
    let room = deeper(room)?;
    let l = root_location(around, d.root)?;
    reached_all(around, room, d.components.as_slice(), l, st)
}

/// What fields and indexes make of a location, one after the other.
#[cycle(runs)]
#[tactic(auto, using(plain_store::proofs::Threads::threads), unfolding(plain_values::specs::Surroundings::components_in, plain_values::specs::Surroundings::reached_in))]
fn reached_all<'a>(
    around: &Around<'a>,
    room: usize,
    components: &[Component],
    first: Items<usize>,
    st: &mut State,
) -> Result<Answer<Items<usize>>, RunFault>
    ensures { let cs = components.now in
        IfOk result (λ j.
        answer_meaning j st.new ≡ components_in around.now cs first (view_of st.old)) }
{
    let room = deeper(room)?;
    let mut l = first;
    for component in components {
        match component_value(around, room, component, l, st)? {
            Answer::Value(next) => l = next,
            Answer::Stopped(stop) => return Ok(Answer::Stopped(stop)),
        }
    }
    Ok(Answer::Value(l))
}

/// What a field or an index makes of a location.
#[cycle(runs)]
#[tactic(auto, using(crate::proofs::Variants::variants))]
fn component_value<'a>(
    around: &Around<'a>,
    room: usize,
    of: &Component,
    l: Items<usize>,
    st: &mut State,
) -> Result<Answer<Items<usize>>, RunFault>
    ensures { IfOk result (λ j.
        answer_meaning j st.new ≡ reached_in around.now of.now l (view_of st.old)) }
{
    let room = deeper(room)?;
    match of {
        Component::Field(_, k) => Ok(Answer::Value(component(l, *k)?)),
        Component::Element(t, i) => element_at(around, *t, l, value(around, room, i, st)?, st),
        Component::OpenElement(slot, _, i) => {
            open_element_at(around, *slot, l, value(around, room, i, st)?, st)
        }
    }
}

/// What a call gives.
#[cycle(runs)]
#[tactic(auto, using(crate::proofs::Variants::variants))]
pub fn call_value<'a>(
    around: &Around<'a>,
    room: usize,
    call: &Call,
    st: &mut State,
) -> Result<Answer<i64>, RunFault>
    ensures { IfOk result (λ j.
        answer_meaning j st.new ≡ called_in around.now call.now (view_of st.old)) }
{
    let room = deeper(room)?;
    match call {
        Call::Module(f, arguments) => {
            let callee = module_callee(around, module_place(around, f.home), f.number);
            call_with(around, room, callee, arguments.as_slice(), st)
        }
        Call::Nested(f, arguments) => {
            let callee = nested_callee(around, f.up, f.number)?;
            call_with(around, room, callee, arguments.as_slice(), st)
        }
        Call::Variable(_, d, arguments) => match location_of(around, room, d, st)? {
            Answer::Value(l) => {
                match variable_callee(around, load(l.as_slice(), st))? {
                    None => Ok(Answer::Stopped(Stop::Ended(Fault::NoProcedure.number()))),
                    Some(callee) => {
                        call_with(around, room, Some(callee), arguments.as_slice(), st)
                    }
                }
            }
            Answer::Stopped(stop) => Ok(Answer::Stopped(stop)),
        },
    }
}

/// So deep may calls nest in a call.
fn fewer(depth: usize) -> Option<usize>
    ensures { MatchOption result (depth ≡ 0) (λ d. depth ≡ suc d) }
{
    depth.checked_sub(1)
}

/// The arguments, and then the call of a procedure, if there is one.
#[cycle(runs)]
#[tactic(auto, using(crate::proofs::Variants::asking))]
fn call_with<'a>(
    around: &Around<'a>,
    room: usize,
    callee: Option<Callee<'a>>,
    arguments: &[Argument],
    st: &mut State,
) -> Result<Answer<i64>, RunFault>
    ensures { let c = option_map callee_of callee.entry in
        IfOk result (λ j.
        answer_meaning j st.new ≡ asked_in around.now c arguments.now (view_of st.old)) }
{
    let room = deeper(room)?;
    match given_all(around, room, arguments, st)? {
        Answer::Value(passed) => match fewer(around.depth) {
            None => Ok(Answer::Stopped(Stop::StillRunning)),
            Some(depth) => match callee {
                None => Ok(Answer::Stopped(Stop::Ended(Fault::NoProcedure.number()))),
                Some(callee) => {
                    let request = Request {
                        callee,
                        passed,
                        next: around.next,
                        left: around.left,
                    };
                    body_run(around.program, depth, room, request, st)
                }
            },
        },
        Answer::Stopped(stop) => Ok(Answer::Stopped(stop)),
    }
}

/// The arguments of a call, one after the other.
#[cycle(runs)]
#[tactic(auto, using(plain_store::proofs::Threads::threads), unfolding(plain_values::specs::Surroundings::all_given_in, plain_values::specs::Surroundings::given_in))]
fn given_all<'a>(
    around: &Around<'a>,
    room: usize,
    arguments: &[Argument],
    st: &mut State,
) -> Result<Answer<Items<Passed>>, RunFault>
    ensures { let xs = arguments.now in
        IfOk result (λ j. answered_all j st.new ≡ all_given_in around.now xs (view_of st.old)) }
{
    let room = deeper(room)?;
    match arguments {
        [] => Ok(Answer::Value(Items::new(around.program.alloc))),
        [x, rest @ ..] => match argument_value(around, room, x, st)? {
            Answer::Value(v) => match given_all(around, room, rest, st)? {
                Answer::Value(vs) => Ok(Answer::Value(in_front(around.program.alloc, v, vs)?)),
                Answer::Stopped(stop) => Ok(Answer::Stopped(stop)),
            },
            Answer::Stopped(stop) => Ok(Answer::Stopped(stop)),
        },
    }
}

/// What an argument gives.
#[cycle(runs)]
#[tactic(auto, using(crate::proofs::Variants::variants))]
fn argument_value<'a>(
    around: &Around<'a>,
    room: usize,
    x: &Argument,
    st: &mut State,
) -> Result<Answer<Passed>, RunFault>
    ensures { IfOk result (λ j.
        answered_sent j st.new ≡ given_in around.now x.now (view_of st.old)) }
{
    let room = deeper(room)?;
    match x {
        Argument::Value(t, e) => { Ok(number_passed(around, *t, value(around, room, e, st)?, st)) }
        Argument::Place(d) => Ok(variable_passed(location_of(around, room, d, st)?, st)),
        Argument::Array(t, d) => array_passed(around, *t, location_of(around, room, d, st)?, st),
        Argument::Open(slot) => Ok(Answer::Value(open_passed(around, *slot)?)),
        Argument::Text(text) => {
            Ok(Answer::Value(text_passed(around.program.alloc, text.get().as_bytes())?))
        }
    }
}

/// What the body of a procedure gives.
#[cycle(runs)]
#[tactic(auto, using(plain_steps::proofs::Bodies::bodies))]
fn body_run<'a>(
    program: &'a Program<'a>,
    depth: usize,
    room: usize,
    request: Request<'a>,
    st: &mut State,
) -> Result<Answer<i64>, RunFault>
    ensures { let p = modules_of program.now in
        let n = program.now.bound in
        let vs = map argument_sent request.entry.passed in
        let c = callee_of request.entry.callee in
        IfOk result (λ j.
        answer_meaning j st.new
        ≡ runs p n (calling p n depth) c vs request.entry.next request.entry.left
        (view_of st.old)) }
{
    let room = deeper(room)?;
    match rest_of(program.alloc, &request)? {
        None => Ok(Answer::Stopped(Stop::Ended(Fault::Storage.number()))),
        Some(rest) => {
            let (home, routine) = (request.callee.home, request.callee.routine);
            let begins = enter(program.alloc, &request, st)?;
            let Request {
                callee,
                passed: _,
                next,
                left: _,
            } = request;
            let inner = body_environment(program, depth, callee, next, begins, rest)?;
            let o = steps(&inner, room, routine.body.as_slice(), st)?;
            Ok(result(&home, routine, o, st))
        }
    }
}

/// Statements, one after the other.
#[cycle(runs)]
#[tactic(auto, using(plain_store::proofs::Threads::threads), unfolding(plain_values::specs::Surroundings::steps_in, plain_values::specs::Surroundings::does_in))]
pub fn steps<'a>(
    around: &Around<'a>,
    room: usize,
    body: &[TypedStmt],
    st: &mut State,
) -> Result<Outcome, RunFault>
    ensures { IfOk result (λ o.
        outcome_course o st.new ≡ steps_in around.now body.now (view_of st.old)) }
{
    let room = deeper(room)?;
    for stmt in body {
        match step(around, room, stmt, st)? {
            Outcome::Normal => {}
            Outcome::Exited => return Ok(Outcome::Exited),
            Outcome::Returned(v) => return Ok(Outcome::Returned(v)),
            Outcome::Stopped(stop) => return Ok(Outcome::Stopped(stop)),
        }
    }
    Ok(Outcome::Normal)
}

/// A statement.
#[cycle(runs)]
#[tactic(auto, using(crate::proofs::Stepped::variants))]
fn step<'a>(
    around: &Around<'a>,
    room: usize,
    stmt: &TypedStmt,
    st: &mut State,
) -> Result<Outcome, RunFault>
    ensures { IfOk result (λ o.
        outcome_course o st.new ≡ does_in around.now stmt.now (view_of st.old)) }
{
    let room = deeper(room)?;
    match stmt {
        TypedStmt::Assign(d, t, e) => assign(around, *t, target(around, room, d, e, st)?, st),
        TypedStmt::Copy(to, from, _) => copy(around, ends(around, room, to, from, st)?, st),
        TypedStmt::CopyText(d, _, text) => {
            copy_text(
                around,
                location_of(around, room, d, st)?,
                text.get().as_bytes(),
                st,
            )
        }
        TypedStmt::Call(call) => Ok(call_outcome(call_value(around, room, call, st)?, st)),
        TypedStmt::Put(e) => put(around, value(around, room, e, st)?, st),
        TypedStmt::Change(o, d, t, e) => {
            change(around, *o, *t, target(around, room, d, e, st)?, st)
        }
        TypedStmt::Membership(o, d, e) => {
            membership(around, *o, target(around, room, d, e, st)?, st)
        }
        TypedStmt::Halt => Ok(Outcome::Stopped(Stop::Ended(Fault::Halt.number()))),
        TypedStmt::If(e, body, others) => if_run(around, room, e, body, others, st),
        TypedStmt::Case(e, arms, others) => case_run(around, room, e, arms, others, st),
        TypedStmt::While(e, body) => while_turns(around, room, e, body.as_slice(), st),
        TypedStmt::Repeat(body, e) => repeat_turns(around, room, body.as_slice(), e, st),
        TypedStmt::Loop(body) => loop_turns(around, room, body.as_slice(), st),
        TypedStmt::Exit => Ok(Outcome::Exited),
        TypedStmt::Return => Ok(Outcome::Returned(0)),
        TypedStmt::Give(t, e) => Ok(give(around, *t, value(around, room, e, st)?, st)),
        TypedStmt::For(d, t, start, limit, by, body) => {
            match turns(around, room, d, *t, start, limit, st)? {
                Answer::Value(of) => for_run(around, room, *t, by, body.as_slice(), &of, st),
                Answer::Stopped(stop) => Ok(Outcome::Stopped(stop)),
            }
        }
        TypedStmt::With(d, body) => with_run(around, room, d, body, st),
    }
}

/// An IF.
#[cycle(runs)]
#[tactic(auto, using(crate::proofs::Stepped::variants))]
fn if_run<'a>(
    around: &Around<'a>,
    room: usize,
    e: &TypedExpr,
    body: &Items<TypedStmt>,
    others: &Option<Items<TypedStmt>>,
    st: &mut State,
) -> Result<Outcome, RunFault>
    ensures { let s = If e.now body.now others.now in
        IfOk result (λ o. outcome_course o st.new ≡ does_in around.now s (view_of st.old)) }
{
    let room = deeper(room)?;
    match value(around, room, e, st)? {
        Answer::Value(v) => {
            if is_true(v) {
                return steps(around, room, body.as_slice(), st);
            }
            match others {
                None => Ok(Outcome::Normal),
                Some(others) => steps(around, room, others.as_slice(), st),
            }
        }
        Answer::Stopped(stop) => Ok(Outcome::Stopped(stop)),
    }
}

/// A CASE.
#[cycle(runs)]
#[tactic(auto, using(crate::proofs::Stepped::variants))]
fn case_run<'a>(
    around: &Around<'a>,
    room: usize,
    e: &TypedExpr,
    arms: &Items<TypedArm>,
    others: &Option<Items<TypedStmt>>,
    st: &mut State,
) -> Result<Outcome, RunFault>
    ensures { let s = Case e.now arms.now others.now in
        IfOk result (λ o. outcome_course o st.new ≡ does_in around.now s (view_of st.old)) }
{
    let room = deeper(room)?;
    match value(around, room, e, st)? {
        Answer::Value(v) => match chosen_arm(v, arms.as_slice()) {
            Some(arm) => steps(around, room, arm.body.as_slice(), st),
            None => match others {
                None => Ok(Outcome::Stopped(Stop::Ended(Fault::NoLabel.number()))),
                Some(others) => steps(around, room, others.as_slice(), st),
            },
        },
        Answer::Stopped(stop) => Ok(Outcome::Stopped(stop)),
    }
}

/// A WITH.
#[cycle(runs)]
#[tactic(auto, using(crate::proofs::Stepped::variants))]
fn with_run<'a>(
    around: &Around<'a>,
    room: usize,
    d: &Place,
    body: &Items<TypedStmt>,
    st: &mut State,
) -> Result<Outcome, RunFault>
    ensures { let s = With d.now body.now in
        IfOk result (λ o. outcome_course o st.new ≡ does_in around.now s (view_of st.old)) }
{
    let room = deeper(room)?;
    match location_of(around, room, d, st)? {
        Answer::Value(l) => {
            let inner = under(around, l)?;
            steps(&inner, room, body.as_slice(), st)
        }
        Answer::Stopped(stop) => Ok(Outcome::Stopped(stop)),
    }
}

/// The turns of a FOR, from its start on.
#[cycle(runs)]
#[tactic(auto, using(crate::proofs::Stepped::variants))]
fn for_run<'a>(
    around: &Around<'a>,
    room: usize,
    t: TypeNo,
    by: &i64,
    body: &[TypedStmt],
    of: &Turns,
    st: &mut State,
) -> Result<Outcome, RunFault>
    ensures { IfOk result (λ o.
        outcome_course o st.new ≡ for_begun around.now t by.now body.now of.now (view_of st.old)) }
{
    let room = deeper(room)?;
    if begin_for(around, by, of, st)? {
        return Ok(Outcome::Normal);
    }
    for_turns(around, room, t, by, body, of, st)
}

/// A location, and then the value behind it.
#[cycle(runs)]
#[tactic(auto, using(plain_store::proofs::Threads::threads), unfolding(plain_steps::specs::Parts::target_in))]
fn target<'a>(
    around: &Around<'a>,
    room: usize,
    d: &Place,
    e: &TypedExpr,
    st: &mut State,
) -> Result<Answer<Target>, RunFault>
    ensures { IfOk result (λ j.
        answer_meaning j st.new ≡ target_in around.now d.now e.now (view_of st.old)) }
{
    let room = deeper(room)?;
    match location_of(around, room, d, st)? {
        Answer::Value(l) => match value(around, room, e, st)? {
            Answer::Value(v) => Ok(Answer::Value(Target { l, v })),
            Answer::Stopped(stop) => Ok(Answer::Stopped(stop)),
        },
        Answer::Stopped(stop) => Ok(Answer::Stopped(stop)),
    }
}

/// Two locations, the first before the second.
#[cycle(runs)]
#[tactic(auto, using(plain_store::proofs::Threads::threads), unfolding(plain_steps::specs::Parts::ends_in))]
fn ends<'a>(
    around: &Around<'a>,
    room: usize,
    to: &Place,
    from: &Place,
    st: &mut State,
) -> Result<Answer<Ends>, RunFault>
    ensures { IfOk result (λ j.
        answer_meaning j st.new ≡ ends_in around.now to.now from.now (view_of st.old)) }
{
    let room = deeper(room)?;
    match location_of(around, room, to, st)? {
        Answer::Value(to) => match location_of(around, room, from, st)? {
            Answer::Value(from) => Ok(Answer::Value(Ends { to, from })),
            Answer::Stopped(stop) => Ok(Answer::Stopped(stop)),
        },
        Answer::Stopped(stop) => Ok(Answer::Stopped(stop)),
    }
}

/// WHILE: the condition is evaluated before each turn, and behind the last one.
#[cycle(runs)]
#[tactic(auto, using(crate::proofs::Stepped::whiles))]
fn while_turns<'a>(
    around: &Around<'a>,
    room: usize,
    e: &TypedExpr,
    body: &[TypedStmt],
    st: &mut State,
) -> Result<Outcome, RunFault>
    ensures { let n = around.now.program.now.bound in
        IfOk result (λ o.
        outcome_course o st.new ≡ while_in around.now e.now body.now n (view_of st.old)) }
{
    let room = deeper(room)?;
    for _ in 0..around.program.bound {
        match value(around, room, e, st)? {
            Answer::Value(v) => {
                if !is_true(v) {
                    return Ok(Outcome::Normal);
                }
            }
            Answer::Stopped(stop) => return Ok(Outcome::Stopped(stop)),
        }
        match steps(around, room, body, st)? {
            Outcome::Normal => {}
            Outcome::Exited => return Ok(Outcome::Exited),
            Outcome::Returned(v) => return Ok(Outcome::Returned(v)),
            Outcome::Stopped(stop) => return Ok(Outcome::Stopped(stop)),
        }
    }
    match value(around, room, e, st)? {
        Answer::Value(v) => {
            if is_true(v) {
                return Ok(Outcome::Stopped(Stop::StillRunning));
            }
            Ok(Outcome::Normal)
        }
        Answer::Stopped(stop) => Ok(Outcome::Stopped(stop)),
    }
}

/// REPEAT: the condition is evaluated behind each turn.
#[cycle(runs)]
#[tactic(auto, using(crate::proofs::Stepped::repeats))]
fn repeat_turns<'a>(
    around: &Around<'a>,
    room: usize,
    body: &[TypedStmt],
    e: &TypedExpr,
    st: &mut State,
) -> Result<Outcome, RunFault>
    ensures { let n = around.now.program.now.bound in
        IfOk result (λ o.
        outcome_course o st.new ≡ repeat_in around.now body.now e.now n (view_of st.old)) }
{
    let room = deeper(room)?;
    for _ in 0..around.program.bound {
        match steps(around, room, body, st)? {
            Outcome::Normal => {}
            Outcome::Exited => return Ok(Outcome::Exited),
            Outcome::Returned(v) => return Ok(Outcome::Returned(v)),
            Outcome::Stopped(stop) => return Ok(Outcome::Stopped(stop)),
        }
        match value(around, room, e, st)? {
            Answer::Value(v) => {
                if is_true(v) {
                    return Ok(Outcome::Normal);
                }
            }
            Answer::Stopped(stop) => return Ok(Outcome::Stopped(stop)),
        }
    }
    Ok(Outcome::Stopped(Stop::StillRunning))
}

/// LOOP: EXIT ends it.
#[cycle(runs)]
#[tactic(auto, using(crate::proofs::Stepped::loops))]
fn loop_turns<'a>(
    around: &Around<'a>,
    room: usize,
    body: &[TypedStmt],
    st: &mut State,
) -> Result<Outcome, RunFault>
    ensures { let n = around.now.program.now.bound in
        IfOk result (λ o.
        outcome_course o st.new ≡ loop_in around.now body.now n (view_of st.old)) }
{
    let room = deeper(room)?;
    for _ in 0..around.program.bound {
        match steps(around, room, body, st)? {
            Outcome::Normal => {}
            Outcome::Exited => return Ok(Outcome::Normal),
            Outcome::Returned(v) => return Ok(Outcome::Returned(v)),
            Outcome::Stopped(stop) => return Ok(Outcome::Stopped(stop)),
        }
    }
    Ok(Outcome::Stopped(Stop::StillRunning))
}

/// The control variable of a FOR, its start, and the limit, in this order.
#[cycle(runs)]
#[tactic(auto, using(plain_store::proofs::Threads::threads), unfolding(plain_steps::specs::Parts::turns_in))]
fn turns<'a>(
    around: &Around<'a>,
    room: usize,
    d: &Place,
    t: TypeNo,
    start: &TypedExpr,
    limit: &TypedExpr,
    st: &mut State,
) -> Result<Answer<Turns>, RunFault>
    ensures { let a = around.now in
        IfOk result (λ j.
        answer_meaning j st.new ≡ turns_in a d.now t start.now limit.now (view_of st.old)) }
{
    let room = deeper(room)?;
    match location_of(around, room, d, st)? {
        Answer::Value(l) => match value_as(around, t, value(around, room, start, st)?, st) {
            Answer::Value(v) => match value(around, room, limit, st)? {
                Answer::Value(last) => Ok(Answer::Value(Turns { l, v, last })),
                Answer::Stopped(stop) => Ok(Answer::Stopped(stop)),
            },
            Answer::Stopped(stop) => Ok(Answer::Stopped(stop)),
        },
        Answer::Stopped(stop) => Ok(Answer::Stopped(stop)),
    }
}

/// The turns of a FOR.
#[cycle(runs)]
#[tactic(auto, using(crate::proofs::Stepped::fors))]
fn for_turns<'a>(
    around: &Around<'a>,
    room: usize,
    t: TypeNo,
    by: &i64,
    body: &[TypedStmt],
    of: &Turns,
    st: &mut State,
) -> Result<Outcome, RunFault>
    ensures { let a = around.now in let n = a.program.now.bound in
        IfOk result (λ o. outcome_course o st.new
        ≡ for_in a t by.now body.now of.now.l of.now.last n (view_of st.old)) }
{
    let room = deeper(room)?;
    for _ in 0..around.program.bound {
        match steps(around, room, body, st)? {
            Outcome::Normal => {}
            Outcome::Exited => return Ok(Outcome::Exited),
            Outcome::Returned(v) => return Ok(Outcome::Returned(v)),
            Outcome::Stopped(stop) => return Ok(Outcome::Stopped(stop)),
        }
        match next_turn(around, t, by, of, st)? {
            Answer::Value(over) => {
                if over {
                    return Ok(Outcome::Normal);
                }
            }
            Answer::Stopped(stop) => return Ok(Outcome::Stopped(stop)),
        }
    }
    Ok(Outcome::Stopped(Stop::StillRunning))
}
