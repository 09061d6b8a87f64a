//! Where code stands.

ghost use Rattle.std.specs.Prelude.{◌++◌, ◌≡◌, ◌+◌, ◌∷◌, [], IfOk, map, slice_get};
ghost use Rattle.layout_storage.specs.Extents.{total};
ghost use Rattle.std.specs.Option.{option_copied};
ghost use Rattle.def_scheme.specs.Exprs.{slot_path};
ghost use Rattle.emit_buffer.specs.Cut.{cut};
ghost use Rattle.emit_buffer.specs.Slots.{slot_from, behind_formal, behind_variable, behind_first, second_of, second_at};
ghost use Rattle.def_scheme.specs.Coded.{top_local, address_local, number_local};
ghost use Rattle.def_scheme.specs.Functions.{setting};
ghost use Rattle.emit_buffer.specs.Frames.{setting_of, frames_of, routines_in, AreFramed};

use crate::amount::{Amount, cut_sum};
use crate::frame::Framed;
use crate::home::{Home, start_or};
use layout_storage::Row;
use smallvec::SmallVec;
use std::alloc::{AllocError, Global};
use std::marker::Model;
use typed_tree::{Formal, Routine, Shape, Slot, TypeNo, made_of};

/// How many counts of labels, and how many records under WITH, stand in place. Most code needs no more.
const NEAR_LABELS: usize = 8;

const NEAR_WITHS: usize = 2;

/// The module, the frames that are seen, the procedure's own first, and the function's arguments and locals. Contracts see
/// the record of the scheme.
pub struct Setting<'a> {
    home: &'a Home<'a>,
    frames: &'a [Framed<'a>],
    arguments: Amount,
    addresses: Amount,
    /// How many labels stand between EXIT and its loop: a count for each statement around it.
    labels: SmallVec<usize, NEAR_LABELS>,
    withs: SmallVec<Amount, NEAR_WITHS>,
}

impl<'a> Model for Setting<'a> {
    ghost use Rattle.std.specs.Coded.{codes};
    ghost use Rattle.typed_tree.specs.contracts.typed_module.Routine as r;
    ghost use Rattle.typed_tree.specs.contracts.typed_module.TypedModule as e;
    ghost use Rattle.layout_storage.specs.Extents.{total};
    ghost use Rattle.emit_buffer.specs.Frames.{Standing, routines_in, AreFramed};

    ghost Value = { Standing };

    ghost coded = { Prim.hlevel (codes, e.the_row.coded, r.the_row.coded) };

    ghost view = { λ s. record {
      home = s.home.now;
      routines = routines_in s.frames.now;
      arguments = s.arguments;
      addresses = s.addresses;
      exit = total s.labels.items;
      withs = s.withs.items;
    } };

    ghost invariant = { λ s. AreFramed s.home.now.types s.frames.now };
}

// Written by hand, so that proofs above take a drop as one call.
impl<'a> Drop for Setting<'a> {
    fn drop(self) {
        let Setting {
            home: _home,
            frames: _frames,
            arguments,
            addresses,
            labels,
            withs,
        } = self;
        drop(arguments);
        drop(addresses);
        drop(labels);
        drop(withs);
    }
}

/// What is kept of the frame `up` procedures outwards.
fn row_at<'a>(frames: &'a [Framed<'_>], up: usize) -> Option<&'a Row>
    ensures { option_copied result ≡ slice_get (map (λ f. f.row.now) frames.now) up }
{
    match frames.get(up) {
        None => None,
        Some(framed) => Some(framed.row),
    }
}

/// How many locals stand between the arguments and the locals for addresses.
const BEFORE: usize = 2;

/// The bytes of a cell of 32 bits.
const WORD: u32 = 4;

/// The offset of a slot, as it is kept.
fn slot_from(frames: &[Framed<'_>], slot: Slot) -> u32
    ensures { result ≡ slot_from (map (λ f. f.row.now) frames.now) slot.up slot.number }
{
    match frames {
        [] => { if slot.up == 0 { 16 } else { 0 } }
        [_, ..] => start_or(row_at(frames, slot.up), slot.number),
    }
}

/// How far the second cell of a formal stands behind its first, cut to 32 bits.
fn behind_formal(home: &Home<'_>, formal: &Formal) -> u32
    ensures { result ≡ cut (behind_formal home.now.types formal.now) }
{
    if formal.is_open {
        return WORD;
    }
    if formal.is_var {
        return 0;
    }
    home.offset(formal.of, 1)
}

/// The same of a variable.
fn behind_variable(home: &Home<'_>, t: Option<&TypeNo>) -> u32
    ensures { result ≡ cut (behind_variable home.now.types (option_copied t.entry)) }
{
    match t {
        None => 0,
        Some(t) => home.offset(*t, 1),
    }
}

/// The same of a formal or a variable of a procedure that has these formals.
fn behind_first(home: &Home<'_>, routine: &Routine, formals: &[Formal], number: usize) -> u32
    ensures { let types = home.now.types in
        result ≡ cut (behind_first types formals.now routine.now.variables number) }
{
    match formals.get(number) {
        Some(formal) => behind_formal(home, formal),
        None => behind_variable(
            home,
            routine.variables.get(number.saturating_sub(formals.len())),
        ),
    }
}

fn second_of(home: &Home<'_>, routine: &Routine, number: usize) -> u32
    ensures { result ≡ cut (second_of home.now.types routine.now number) }
{
    match made_of(&home.module_body().types, routine.heading) {
        None => behind_first(home, routine, &[], number),
        Some(made) => match &made.shape {
            Shape::Procedure(signature) => {
                behind_first(home, routine, signature.formals.as_slice(), number)
            }
            Shape::Scalar(_)
            | Shape::Set
            | Shape::Array(_, _)
            | Shape::Record(_)
            | Shape::Open(_) => behind_first(home, routine, &[], number),
        },
    }
}

fn second_at(home: &Home<'_>, frames: &[Framed<'_>], slot: Slot) -> u32
    ensures { let rs = routines_in frames.now in
        result ≡ cut (second_at home.now.types rs slot.up slot.number) }
{
    match frames.get(slot.up) {
        None => 0,
        Some(framed) => second_of(home, framed.routine, slot.number),
    }
}

/// The sum of counts of labels.
fn sum_of(labels: &[usize]) -> Amount
    ensures { result ≡ total labels.now }
{
    let mut sum = Amount::of(0);
    for count in labels {
        sum = sum.plus(&Amount::of(*count));
    }
    sum
}

/// The records under WITH once more.
fn again(withs: &SmallVec<Amount, NEAR_WITHS>) -> Result<SmallVec<Amount, NEAR_WITHS>, AllocError>
    ensures { IfOk result (λ ws. ws.items ≡ withs.now.items) }
{
    let mut copied = SmallVec::new(*withs.allocator());
    for w in withs.as_slice() {
        copied.push(w.again())?;
    }
    Ok(copied)
}

impl<'a> Setting<'a> {
    /// The setting of a function: no frames for the body of the module. Nothing is inside a WITH or a LOOP.
    pub fn new(
        alloc: Global,
        home: &'a Home<'a>,
        frames: &'a [Framed<'a>],
        arguments: Amount,
        addresses: Amount,
    ) -> Setting<'a>
        requires { AreFramed home.now.types frames.now }
        ensures frames { let frames = frames_of home.now.types (routines_in frames.now) in
            setting_of result ≡ setting home.now frames arguments addresses }
        ensures routines { result.routines ≡ routines_in frames.now }
    {
        Setting {
            home,
            frames,
            arguments,
            addresses,
            labels: SmallVec::new(alloc),
            withs: SmallVec::new(alloc),
        }
    }

    /// The setting with other labels.
    fn with_labels(&self, labels: SmallVec<usize, NEAR_LABELS>) -> Result<Setting<'a>, AllocError>
        ensures { IfOk result (λ s. s ≡ record self.now { exit = total labels.items }) }
    {
        let withs = again(&self.withs)?;
        Ok(Setting {
            home: self.home,
            frames: self.frames,
            arguments: self.arguments.again(),
            addresses: self.addresses.again(),
            labels,
            withs,
        })
    }

    /// The setting inside `count` more blocks. The only error is that memory ran out.
    #[tactic(auto, using(crate::proofs::Amounts::one_more))]
    pub fn within(&self, count: usize) -> Result<Setting<'a>, AllocError>
        ensures { IfOk result (λ s. s ≡ record self.now { exit = self.now.exit + count }) }
    {
        let mut labels = SmallVec::from_slice(*self.labels.allocator(), self.labels.as_slice())?;
        labels.push(count)?;
        self.with_labels(labels)
    }

    /// The setting in which EXIT leaves the block of this label. The only error is that memory ran out.
    #[tactic(auto, using(crate::proofs::Amounts::one_alone))]
    pub fn leaving(&self, exit: usize) -> Result<Setting<'a>, AllocError>
        ensures { IfOk result (λ s. s ≡ record self.now { exit = exit }) }
    {
        let mut labels = SmallVec::new(*self.labels.allocator());
        labels.push(exit)?;
        self.with_labels(labels)
    }

    /// The setting in a WITH whose record is kept in this local. The only error is that memory ran out.
    pub fn under(&self, w: &Amount) -> Result<Setting<'a>, AllocError>
        ensures { IfOk result (λ s. s ≡ record self.now { withs = self.now.withs ++ w.now ∷ [] }) }
    {
        let labels = SmallVec::from_slice(*self.labels.allocator(), self.labels.as_slice())?;
        let mut withs = again(&self.withs)?;
        withs.push(w.again())?;
        Ok(Setting {
            home: self.home,
            frames: self.frames,
            arguments: self.arguments.again(),
            addresses: self.addresses.again(),
            labels,
            withs,
        })
    }

    /// The local for an address of this number.
    pub fn address_local(&self, number: &Amount) -> Amount
        ensures { result ≡ address_local (setting_of self.now) number.now }
    {
        self.arguments.plus(&Amount::of(BEFORE).plus(number))
    }

    /// The local for a number of this number.
    pub fn number_local(&self, number: &Amount) -> Amount
        ensures { result ≡ number_local (setting_of self.now) number.now }
    {
        let behind = self.addresses.plus(number);
        self.arguments.plus(&Amount::of(BEFORE).plus(&behind))
    }

    /// How many arguments the function has. The stack's top is the local behind them.
    pub fn arguments(&self) -> &Amount
        ensures { result.now ≡ self.now.arguments }
    {
        &self.arguments
    }

    /// The module.
    pub fn home(&self) -> &'a Home<'a>
        ensures { result.now ≡ self.now.home }
    {
        self.home
    }

    /// The label of the block that EXIT leaves.
    pub fn exit(&self) -> Amount
        ensures { result ≡ self.now.exit }
    {
        sum_of(self.labels.as_slice())
    }

    /// The locals with the records of the WITHs, the outermost first.
    pub fn withs(&self) -> &[Amount]
        ensures { result.now ≡ self.now.withs }
    {
        self.withs.as_slice()
    }

    /// The offset of a formal or a variable in its frame, cut to 32 bits.
    #[tactic(auto, using(crate::proofs::Slots::slot_is))]
    pub fn slot_offset(&self, slot: Slot) -> u32
        ensures { result ≡ cut (slot_path (setting_of self.now) slot []) }
    {
        slot_from(self.frames, slot)
    }

    /// The offset of the second cell of a formal or a variable, cut to 32 bits: the greatest index of a formal ARRAY OF.
    #[tactic(auto, using(crate::proofs::Slots::second_is, crate::proofs::Amounts::sum_is))]
    pub fn high_offset(&self, slot: Slot) -> u32
        ensures { result ≡ cut (slot_path (setting_of self.now) slot (1 ∷ [])) }
    {
        cut_sum(
            self.slot_offset(slot),
            second_at(self.home, self.frames, slot),
        )
    }
}
