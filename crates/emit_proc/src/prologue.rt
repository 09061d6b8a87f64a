//! What a procedure does before its statements.

ghost use Rattle.std.specs.Prelude.{◌≡◌, ◌∷◌, ◌++◌, [], suc, OnOk};
ghost use Rattle.wasm_tree.specs.declared.instr.Instr.TheVariants.{LocalGet};
ghost use Rattle.std.specs.Option.{option_copied};
ghost use Rattle.layout_storage.specs.Frames.{formals_made, frame};
ghost use Rattle.layout_storage.specs.Sizes.{size, offset};
ghost use Rattle.layout_storage.specs.Shapes.{tree};
ghost use Rattle.emit_buffer.specs.Cut.{cut};
ghost use Rattle.emit_buffer.specs.Frames.{setting_of};
ghost use Rattle.emit_buffer.specs.Drafts.{put};
ghost use Rattle.def_scheme.specs.Coded.{extend_word};
ghost use Rattle.def_scheme.specs.Functions.{prologue, limit_check, enter_code, link_kept, word_kept, value_kept, bytes_code, open_copied, formal_kept, formals_kept};
ghost use Rattle.emit_proc.specs.Kept.{own, word_at, copy_begun, copy_made};

use emit_buffer::{
    Amount, Draft, Helper, Setting, extend_word, fault, operation, raise_address, size_in, store,
    wrap_word,
};
use m2_rule::Fault;
use std::alloc::AllocError;
use typed_tree::{Formal, Made, Routine, Shape, Slot, TypeNo, made_of};
use wasm_tree::{Numeric, Op, Operation, Relation, StoreWidth};

/// Ends the run if the stack's top is past the limit.
#[tactic(auto, using(crate::proofs::Entered::limit_fault))]
fn limit_check(draft: &mut Draft) -> Result<(), AllocError>
    ensures { OnOk result (draft.new ≡ put limit_check draft.old) }
{
    draft.push(Op::GlobalGet(0))?;
    draft.push(Op::Numeric(Numeric::I32Relation(Relation::GtU)))?;
    let at = draft.open()?;
    fault(Fault::Storage, draft)?;
    draft.close_if(at, None);
    Ok(())
}

/// Puts the stack's top behind a frame of this many bytes, which are filled with zeros.
pub fn enter_code(top: &Amount, bytes: u32, draft: &mut Draft) -> Result<(), AllocError>
    ensures { OnOk result (draft.new ≡ put (enter_code top.now bytes) draft.old) }
{
    draft.push(Op::LocalGet(0))?;
    raise_address(bytes, draft)?;
    draft.local_tee(top)?;
    limit_check(draft)?;
    draft.push(Op::LocalGet(0))?;
    draft.word(bytes)?;
    draft.help(Helper::Fill)
}

/// A nested procedure keeps the frame of the procedure around it.
fn link_kept(routine: &Routine, draft: &mut Draft) -> Result<(), AllocError>
    ensures { OnOk result (draft.new ≡ put (link_kept routine.now) draft.old) }
{
    if routine.level <= 1 {
        return Ok(());
    }
    draft.push(Op::LocalGet(0))?;
    draft.push(Op::LocalGet(1))?;
    draft.push(Op::Store(StoreWidth::Eight))
}

/// Keeps an argument as a word at an offset of the frame.
fn word_at(at: u32, x: &Amount, draft: &mut Draft) -> Result<(), AllocError>
    ensures { OnOk result (draft.new ≡ put (word_at at (LocalGet x.now ∷ [])) draft.old) }
{
    draft.push(Op::LocalGet(0))?;
    raise_address(at, draft)?;
    draft.local_get(x)?;
    draft.push(Op::Store(StoreWidth::Four))
}

/// Keeps an address as a word at an offset of the frame.
fn address_at(at: u32, p: &Amount, draft: &mut Draft) -> Result<(), AllocError>
    ensures { OnOk result
        (draft.new ≡ put (word_at at (LocalGet p.now ∷ extend_word ∷ [])) draft.old) }
{
    draft.push(Op::LocalGet(0))?;
    raise_address(at, draft)?;
    draft.local_get(p)?;
    extend_word(draft)?;
    draft.push(Op::Store(StoreWidth::Four))
}

/// The offset of a formal in the frame, cut to 32 bits.
fn offset_of(setting: &Setting<'_>, v: usize) -> u32
    ensures { result ≡ cut (offset (own (setting_of setting.now)) (suc v ∷ [])) }
{
    setting.slot_offset(Slot { up: 0, number: v })
}

/// The offset of the second cell of an open array in the frame, cut to 32 bits.
fn high_of(setting: &Setting<'_>, v: usize) -> u32
    ensures { result ≡ cut (offset (own (setting_of setting.now)) (suc v ∷ 1 ∷ [])) }
{
    setting.high_offset(Slot { up: 0, number: v })
}

/// Keeps the two cells of a VAR formal ARRAY OF.
#[tactic(auto, using(emit_buffer::proofs::Emitted::put_append, emit_buffer::proofs::Plain::word_again, crate::proofs::Entered::first_cell))]
fn open_kept(
    setting: &Setting<'_>,
    v: usize,
    x: &Amount,
    draft: &mut Draft,
) -> Result<(), AllocError>
    ensures { let f = own (setting_of setting.now) in
        let first = word_kept f v (0 ∷ []) (LocalGet x.now ∷ []) in
        OnOk result
        (draft.new ≡ put (first ++ word_kept f v (1 ∷ []) (LocalGet (suc x.now) ∷ [])) draft.old) }
{
    word_at(offset_of(setting, v), x, draft)?;
    word_at(high_of(setting, v), &x.next(), draft)
}

/// Keeps a value formal that is no open array: a scalar is stored in the frame, and an array or a record copied.
#[tactic(auto, using(emit_buffer::proofs::Plain::word_again, crate::proofs::Entered::scalar_value, crate::proofs::Entered::whole_value))]
fn value_kept(
    setting: &Setting<'_>,
    t: TypeNo,
    v: usize,
    x: &Amount,
    draft: &mut Draft,
) -> Result<(), AllocError>
    ensures { let f = own (setting_of setting.now) in
        OnOk result
        (draft.new ≡ put (value_kept f v x.now (tree setting.now.home.types t)) draft.old) }
{
    draft.push(Op::LocalGet(0))?;
    raise_address(offset_of(setting, v), draft)?;
    draft.local_get(x)?;
    match setting.home().kind(t) {
        Some(_) => store(setting, t, draft),
        None => {
            wrap_word(draft)?;
            draft.word(size_in(setting, t))?;
            draft.help(Helper::Copy)
        }
    }
}

/// The bytes of an open array, by its HIGH in a local.
fn bytes_code(h: &Amount, element: u32, draft: &mut Draft) -> Result<(), AllocError>
    ensures { OnOk result (draft.new ≡ put (bytes_code h.now element) draft.old) }
{
    draft.local_get(h)?;
    draft.push(Op::I64Const(1))?;
    operation(Operation::Add, draft)?;
    draft.long(u64::from(element))?;
    operation(Operation::Mul, draft)?;
    wrap_word(draft)
}

/// Raises the stack's top by the bytes of a copy.
fn copy_begun(
    locals: &Locals,
    x: &Amount,
    element: u32,
    draft: &mut Draft,
) -> Result<(), AllocError>
    ensures { let code = copy_begun locals.now.top locals.now.copy x.now element in
        OnOk result (draft.new ≡ put code draft.old) }
{
    draft.local_get(&locals.top)?;
    draft.local_set(&locals.copy)?;
    draft.local_get(&locals.top)?;
    bytes_code(&x.next(), element, draft)?;
    draft.push(Op::Numeric(Numeric::I32Add))?;
    draft.local_tee(&locals.top)?;
    limit_check(draft)
}

/// Copies an open array.
fn copy_made(p: &Amount, x: &Amount, element: u32, draft: &mut Draft) -> Result<(), AllocError>
    ensures { OnOk result (draft.new ≡ put (copy_made p.now x.now element) draft.old) }
{
    draft.local_get(p)?;
    draft.local_get(x)?;
    wrap_word(draft)?;
    bytes_code(&x.next(), element, draft)?;
    draft.help(Helper::Copy)
}

/// Keeps the address of a copy, and HIGH.
#[tactic(auto, using(emit_buffer::proofs::Emitted::put_append, emit_buffer::proofs::Plain::word_again, crate::proofs::Entered::first_cell))]
fn copy_kept(
    setting: &Setting<'_>,
    v: usize,
    p: &Amount,
    x: &Amount,
    draft: &mut Draft,
) -> Result<(), AllocError>
    ensures { let f = own (setting_of setting.now) in
        let first = word_kept f v (0 ∷ []) (LocalGet p.now ∷ extend_word ∷ []) in
        OnOk result
        (draft.new ≡ put (first ++ word_kept f v (1 ∷ []) (LocalGet (suc x.now) ∷ [])) draft.old) }
{
    address_at(offset_of(setting, v), p, draft)?;
    word_at(high_of(setting, v), &x.next(), draft)
}

/// Copies an open array behind the frame, and keeps its address and HIGH.
#[tactic(auto, using(crate::proofs::Entered::open_is))]
fn open_copied(
    setting: &Setting<'_>,
    locals: &Locals,
    element: u32,
    v: usize,
    x: &Amount,
    draft: &mut Draft,
) -> Result<(), AllocError>
    ensures { let f = own (setting_of setting.now) in
        let code = open_copied locals.now.top locals.now.copy f v x.now element in
        OnOk result (draft.new ≡ put code draft.old) }
{
    copy_begun(locals, x, element, draft)?;
    copy_made(&locals.copy, x, element, draft)?;
    copy_kept(setting, v, &locals.copy, x, draft)
}

/// The locals for the stack's top and for the address of a copy.
#[derive(Drop)]
pub struct Locals {
    pub top: Amount,
    pub copy: Amount,
}

/// Keeps a formal.
#[tactic(auto, using(emit_buffer::proofs::Plain::word_again))]
fn formal_kept(
    setting: &Setting<'_>,
    locals: &Locals,
    formal: &Formal,
    v: usize,
    x: &Amount,
    draft: &mut Draft,
) -> Result<(), AllocError>
    ensures { let f = own (setting_of setting.now) in
        let code =
        formal_kept setting.now.home.types locals.now.top locals.now.copy f v x.now formal.now in
        OnOk result (draft.new ≡ put code draft.old) }
{
    if formal.is_open {
        if formal.is_var {
            return open_kept(setting, v, x, draft);
        }
        return open_copied(setting, locals, size_in(setting, formal.of), v, x, draft);
    }
    if formal.is_var {
        return word_at(offset_of(setting, v), x, draft);
    }
    value_kept(setting, formal.of, v, x, draft)
}

/// Keeps formals, the first argument of which stands in a local.
#[tactic(auto, using(emit_buffer::proofs::Emitted::put_append))]
fn formals_kept(
    setting: &Setting<'_>,
    locals: &Locals,
    formals: &[Formal],
    first: &Amount,
    draft: &mut Draft,
) -> Result<(), AllocError>
    ensures { let f = own (setting_of setting.now) in
        let code = formals_kept setting.now.home.types locals.now.top locals.now.copy f 0 first.now
        formals.now in
        OnOk result (draft.new ≡ put code draft.old) }
{
    let mut v = 0;
    let mut x = first.again();
    for formal in formals {
        formal_kept(setting, locals, formal, v, &x, draft)?;
        v += 1;
        x = x.plus(&Amount::of(if formal.is_open { 2 } else { 1 }));
    }
    Ok(())
}

/// Keeps the formals of a procedure.
fn heading_kept(
    setting: &Setting<'_>,
    locals: &Locals,
    heading: Option<&Made>,
    first: &Amount,
    draft: &mut Draft,
) -> Result<(), AllocError>
    ensures { let f = own (setting_of setting.now) in
        let formals = formals_made (option_copied heading.entry) in
        let code =
        formals_kept setting.now.home.types locals.now.top locals.now.copy f 0 first.now formals in
        OnOk result (draft.new ≡ put code draft.old) }
{
    match heading {
        None => Ok(()),
        Some(made) => match &made.shape {
            Shape::Procedure(signature) => {
                formals_kept(setting, locals, signature.formals.as_slice(), first, draft)
            }
            Shape::Scalar(_)
            | Shape::Set
            | Shape::Array(_, _)
            | Shape::Record(_)
            | Shape::Open(_) => Ok(()),
        },
    }
}

/// The prologue of a procedure with a frame of this many bytes, cut to 32 bits.
#[tactic(auto, using(emit_buffer::proofs::Emitted::put_append, emit_buffer::proofs::Plain::word_again))]
pub fn prologue(
    setting: &Setting<'_>,
    routine: &Routine,
    locals: &Locals,
    bytes: u32,
    draft: &mut Draft,
) -> Result<(), AllocError>
    requires frame { own (setting_of setting.now) ≡ frame setting.now.home.types routine.now }
    requires bytes { bytes ≡ cut (size (frame setting.now.home.types routine.now)) }
    ensures { let code =
        prologue setting.now.home.types routine.now locals.now.top locals.now.copy in
        OnOk result (draft.new ≡ put code draft.old) }
{
    enter_code(&locals.top, bytes, draft)?;
    link_kept(routine, draft)?;
    let heading = made_of(&setting.home().module_body().types, routine.heading);
    let first = Amount::of(if routine.level <= 1 { 1 } else { 2 });
    heading_kept(setting, locals, heading, &first, draft)
}
