//! The functions of a module.

ghost use Rattle.std.specs.Prelude.{◌≡◌, ◌++◌, ◌∷◌, [], ℕ, List, IfOk, OnOk, MatchOption, Some, None, map, suc, ◌+◌};
ghost use Rattle.layout_storage.specs.Types.{frame_of};
ghost use Rattle.layout_storage.specs.Sizes.{size};
ghost use Rattle.layout_storage.specs.Frames.{frame};
ghost use Rattle.layout_storage.specs.Rows.{frame_row};
ghost use Rattle.layout_storage.specs.Texts.{characters, texts_before, routines_texts};
ghost use Rattle.def_scheme.specs.Functions.{routine_of, routine_at, end_code, enter_code, numbers_of, prologue, setting, frames_around, routine_function, module_function};
ghost use Rattle.def_scheme.specs.Addresses.{addresses_in};
ghost use Rattle.def_scheme.specs.Exprs.{has_result};
ghost use Rattle.def_scheme.specs.Modules.{numbering_of};
ghost use Rattle.emit_buffer.specs.Cut.{cut, cut_function};
ghost use Rattle.emit_buffer.specs.Frames.{AreFramed, IsFramed, routines_in, setting_of, frames_of};
ghost use Rattle.emit_buffer.specs.Drafts.{put};
ghost use Rattle.emit_stmt.specs.Written.{with_steps};
ghost use Rattle.emit_proc.specs.Around.{routines_around, routine_setting, begin_code, finish_code};

use crate::prologue::{Locals as Kept, enter_code, prologue};
use emit_buffer::{Amount, Draft, Framed, Home, Setting, cut, cut_sum, fault};
use emit_stmt::{addresses_in, body_code};
use emit_tables::{has_result, numbers_of};
use m2_rule::Fault;
use std::alloc::{AllocError, Global};
use tree_parts::Items;
use typed_tree::{Routine, Which};
use wasm_tree::{Body, Code, Function, Locals, ValueType};

/// How many locals of 32 bits a function has beside those for addresses: the stack's top, and the address of a copy.
const BEFORE_ADDRESSES: u32 = 2;

/// The number of the type of bodies.
const BODY_TYPE: usize = 5;

/// The bytes of the frame of a body.
const BODY_FRAME: u32 = 16;

/// The function of a code that was made.
fn finish_code(alloc: Global, type_index: usize, draft: Draft) -> Result<Function, AllocError>
    ensures { IfOk result (λ f. f ≡ finish_code type_index draft) }
{
    let (ops, addresses, numbers) = draft.finish();
    let first = Locals {
        count: cut_sum(BEFORE_ADDRESSES, addresses.kept()),
        value_type: ValueType::I32,
    };
    let second = Locals {
        count: numbers.kept(),
        value_type: ValueType::I64,
    };
    Ok(Function {
        type_index: cut(type_index),
        body: Body {
            locals: Items::from_slice(alloc, &[first, second])?,
            code: Code::new(ops),
        },
    })
}

/// What stands before the statements of the module's body, and these.
fn module_draft(alloc: Global, home: &Home<'_>, texts: usize) -> Result<Draft, AllocError>
    ensures { let s = setting home.now (frame_of [] ∷ []) 1 (addresses_in home.now.body) in
        IfOk result (λ d.
        d ≡ with_steps s (put (enter_code 1 16) (begin_code texts)) home.now.body) }
{
    let body = home.module_body().body.as_slice();
    let setting = Setting::new(alloc, home, &[], Amount::of(1), addresses_in(body));
    let mut draft = Draft::new(alloc, texts);
    enter_code(&Amount::of(1), BODY_FRAME, &mut draft)?;
    body_code(alloc, &setting, body, &mut draft)?;
    Ok(draft)
}

/// The function of the module's body, if this many characters of texts stand before its own. The only error is that
/// memory ran out.
#[tactic(auto, using(crate::proofs::Finished::module_is))]
pub fn module_function(alloc: Global, home: &Home<'_>, texts: usize) -> Result<Function, AllocError>
    requires { texts ≡ characters (routines_texts home.now) }
    ensures { IfOk result (λ f.
        f ≡ cut_function (module_function (numbering_of home.now) home.now)) }
{
    finish_code(alloc, BODY_TYPE, module_draft(alloc, home, texts)?)
}

/// The procedure around a procedure, with its frame.
fn framed_at<'a>(home: &'a Home<'_>, around: Option<Which>) -> Option<Framed<'a>>
    ensures { MatchOption result (routine_at home.now around ≡ None)
        (λ f. (routine_at home.now around ≡ Some f.routine.now) × IsFramed home.now.types f) }
{
    match around {
        None => None,
        Some(which) => home.frame_of(which),
    }
}

/// Appends the frames of the procedures around a procedure, from the inner one outwards.
#[tactic(auto, using(crate::proofs::Framing::more_framed, crate::proofs::Framing::more_routines, crate::proofs::Framing::none_more))]
fn push_around<'a>(
    home: &'a Home<'_>,
    level: usize,
    around: Option<Which>,
    frames: &mut Vec<Framed<'a>>,
) -> Result<(), AllocError>
    ensures routines { let more = routines_around home.now level around in
        OnOk result (routines_in frames.new.items ≡ routines_in frames.old.items ++ more) }
    ensures framed { OnOk result
        (AreFramed home.now.types frames.old.items → AreFramed home.now.types frames.new.items) }
{
    if level == 0 {
        return Ok(());
    }
    match framed_at(home, around) {
        None => Ok(()),
        Some(framed) => {
            frames.push(framed)?;
            push_around(home, level - 1, framed.routine.around, frames)
        }
    }
}

/// The frames that a procedure sees: its own, and then those around it.
fn frames_of<'a>(
    alloc: Global,
    home: &'a Home<'_>,
    framed: Framed<'a>,
) -> Result<Vec<Framed<'a>>, AllocError>
    requires { IsFramed home.now.types framed }
    ensures routines { IfOk result (λ fs. let r = framed.entry.routine.now in
        routines_in fs.items ≡ r ∷ routines_around home.now r.level r.around) }
    ensures framed { IfOk result (λ fs. AreFramed home.now.types fs.items) }
{
    let mut frames = Vec::new(alloc);
    frames.push(framed)?;
    push_around(
        home,
        framed.routine.level,
        framed.routine.around,
        &mut frames,
    )?;
    Ok(frames)
}

/// The code of a procedure, with the frames that it sees.
#[tactic(auto, using(crate::proofs::Finished::drafted, crate::proofs::Finished::own_frame_is, crate::proofs::Finished::home_is))]
fn routine_draft<'a>(
    alloc: Global,
    home: &'a Home<'a>,
    frames: &'a [Framed<'a>],
    routine: &Routine,
    numbers: usize,
    bytes: u32,
    draft: &mut Draft,
) -> Result<(), AllocError>
    requires framed { AreFramed home.now.types frames.now }
    requires routines { let r = routine.now in
        routines_in frames.now ≡ r ∷ routines_around home.now r.level r.around }
    requires numbers { numbers ≡ numbers_of home.now.types routine.now }
    requires bytes { bytes ≡ cut (size (frame home.now.types routine.now)) }
    ensures { let s = routine_setting home.now routine.now in
        let before = prologue home.now.types routine.now (suc numbers) (suc (suc numbers)) in
        OnOk result (draft.new ≡ with_steps s (put before draft.old) routine.now.body) }
{
    let arguments = Amount::of(1).plus(&Amount::of(numbers));
    let kept = Kept {
        top: arguments.again(),
        copy: Amount::of(2).plus(&Amount::of(numbers)),
    };
    let body = routine.body.as_slice();
    let setting = Setting::new(alloc, home, frames, arguments, addresses_in(body));
    prologue(&setting, routine, &kept, bytes, draft)?;
    body_code(alloc, &setting, body, draft)
}

/// The function of a procedure with its frame.
#[tactic(auto, using(crate::proofs::Finished::frame_size))]
fn framed_function<'a>(
    alloc: Global,
    home: &'a Home<'a>,
    framed: Framed<'a>,
    texts: usize,
) -> Result<Function, AllocError>
    requires { IsFramed home.now.types framed }
    ensures { let r = framed.entry.routine.now in
        let n = numbers_of home.now.types r in
        let before = prologue home.now.types r (suc n) (suc (suc n)) in
        let s = routine_setting home.now r in
        let gives = has_result home.now.types r.heading in
        let t = numbering_of home.now (numbers_of home.now.types r) gives in
        IfOk result (λ f.
        f
        ≡ finish_code t
        (put (end_code gives) (with_steps s (put before (begin_code texts)) r.body))) }
{
    let routine = framed.routine;
    let types = &home.module_body().types;
    let count = numbers_of(types, routine);
    let gives = has_result(types, routine.heading);
    let bytes = framed.row.size;
    let frames = frames_of(alloc, home, framed)?;
    let mut draft = Draft::new(alloc, texts);
    routine_draft(
        alloc,
        &*home,
        frames.as_slice(),
        routine,
        count,
        bytes,
        &mut draft,
    )?;
    if gives {
        fault(Fault::NoReturn, &mut draft)?;
    }
    finish_code(alloc, home.signatures().number(count, gives), draft)
}

/// The function of a procedure, if this many characters of texts stand before its own. The only error is that memory
/// ran out.
#[tactic(auto, using(crate::proofs::Finished::routine_is))]
pub fn routine_function(
    alloc: Global,
    home: &Home<'_>,
    which: Which,
    routine: &Routine,
    texts: usize,
) -> Result<Function, AllocError>
    requires found { routine_of home.now which ≡ Some routine.now }
    requires texts { texts ≡ characters (texts_before home.now which home.now.order) }
    ensures { let numbers = numbering_of home.now in
        IfOk result (λ f. f ≡ cut_function (routine_function numbers home.now which routine.now)) }
{
    match home.frame_of(which) {
        None => unreachable!(),
        Some(framed) => framed_function(alloc, home, framed, texts),
    }
}
