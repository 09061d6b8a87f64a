//! What fresh variables hold, and how many bytes they have.

ghost use Rattle.std.specs.Prelude.{◌≡◌, ◌+◌, ◌-ℤ◌, ◌*◌, ◌∷◌, ◌++◌, [], pos, map, unsigned_abs, IfOk};
ghost use Rattle.std.specs.List.{fold};
ghost use Rattle.std.specs.Option.{option_copied, option_map};
ghost use Rattle.layout_storage.specs.Types.{Natural, first};
ghost use Rattle.layout_storage.specs.Sizes.{width, room_for, bytes_in};
ghost use Rattle.layout_storage.specs.Shapes.{scalar_kind, elements_of};
ghost use Rattle.layout_storage.specs.Frames.{formals_of};
ghost use Rattle.plain_store.specs.Blanks.{cell, cell_blank, word_blank, hidden_blank, scalar_blank, array_blank, held_in, total, row_blank, or_none, kept_of, blank_in, field_blank, shape_blank, keep_blanks, with_made, module_blanks, with_module, if_some, other_blanks, known_blanks, formal_blank, header_blank, frame_blank};

use crate::copying::copy;
use crate::held::Held;
use crate::state::RunFault;
use std::alloc::Global;
use tree_parts::{Boxed, Items, Shared};
use typed_tree::{
    Dictionary, Formal, Home, Made, Routine, Scalar, Shape, TypeNo, Types, are_same, is_integer,
    made_of, scalar_of,
};

/// What a fresh variable of a type holds, and its size.
#[derive(Drop)]
pub struct Blank {
    pub held: Held,
    pub size: usize,
}

/// The types that a module makes.
#[derive(Drop)]
pub struct Kept {
    pub home: u32,
    pub blanks: Items<Blank>,
}

/// The sum. The error is `TooLarge`.
pub fn plus(a: usize, b: usize) -> Result<usize, RunFault>
    ensures { IfOk result (λ n. n ≡ a + b) }
{
    match a.checked_add(b) {
        None => Err(RunFault::TooLarge),
        Some(n) => Ok(n),
    }
}

/// The product. The error is `TooLarge`.
pub fn times(a: usize, b: usize) -> Result<usize, RunFault>
    ensures { IfOk result (λ n. n ≡ a * b) }
{
    match a.checked_mul(b) {
        None => Err(RunFault::TooLarge),
        Some(n) => Ok(n),
    }
}

fn distance(low: i64, high: i64) -> Result<u64, RunFault>
    ensures { IfOk result (λ n. n ≡ unsigned_abs (high -ℤ low)) }
{
    match high.checked_sub(low) {
        None => Err(RunFault::TooLarge),
        Some(n) => Ok(n.unsigned_abs()),
    }
}

fn cell(alloc: Global, v: i64, size: usize) -> Result<Blank, RunFault>
    ensures { IfOk result (λ b. b ≡ cell v size) }
{
    Ok(Blank {
        held: Held::Parts(v, Items::new(alloc), Boxed::new(alloc, Held::Same(0))?),
        size,
    })
}

/// The bytes of a cell for numbers from 0 to this one.
fn bytes_for(greatest: u64) -> usize
    ensures { result ≡ bytes_in (room_for greatest) }
{
    if greatest < 256 {
        1
    } else if greatest < 65_536 {
        2
    } else {
        4
    }
}

fn word(alloc: Global) -> Result<Blank, RunFault>
    ensures { IfOk result (λ b. b ≡ word_blank) }
{
    cell(alloc, 0, 4)
}

/// A variable of a scalar type.
fn scalar_cell(alloc: Global, t: TypeNo, s: Scalar) -> Result<Blank, RunFault>
    ensures { IfOk result (λ b. b ≡ cell_blank (scalar_kind t s)) }
{
    if !are_same(t, s.base) {
        return cell(alloc, s.low, bytes_for(distance(s.low, s.high)?));
    }
    if is_integer(t) {
        return cell(alloc, 0, 4);
    }
    cell(alloc, 0, bytes_for(s.high.unsigned_abs()))
}

fn scalar_or_word(alloc: Global, t: TypeNo, scalar: Option<Scalar>) -> Result<Blank, RunFault>
    ensures { IfOk result (λ b. b ≡ scalar_blank t scalar) }
{
    match scalar {
        None => word(alloc),
        Some(s) => scalar_cell(alloc, t, s),
    }
}

fn hidden(size: usize) -> Blank
    ensures { result ≡ hidden_blank size }
{
    Blank {
        held: Held::Same(0),
        size,
    }
}

fn copy_blank(alloc: Global, blank: &Blank) -> Result<Blank, RunFault>
    ensures { IfOk result (λ b. b ≡ blank.now) }
{
    Ok(Blank {
        held: copy(alloc, &blank.held)?,
        size: blank.size,
    })
}

fn array(alloc: Global, count: usize, one: Blank) -> Result<Blank, RunFault>
    ensures { IfOk result (λ b. b ≡ array_blank count one) }
{
    let Blank { held, size } = one;
    Ok(Blank {
        held: Held::Array(count, Boxed::new(alloc, held)?),
        size: times(count, size)?,
    })
}

fn held_all(alloc: Global, blanks: &[Blank]) -> Result<Items<Held>, RunFault>
    ensures { IfOk result (λ hs. hs ≡ map held_in blanks.now) }
{
    let mut all = Items::new(alloc);
    for blank in blanks {
        all.push(copy(alloc, &blank.held)?)?;
    }
    Ok(all)
}

fn total(blanks: &[Blank]) -> Result<usize, RunFault>
    ensures { IfOk result (λ n. n ≡ total blanks.now) }
{
    match blanks {
        [] => Ok(0),
        [blank, rest @ ..] => plus(blank.size, total(rest)?),
    }
}

/// A record of these fields, or variables of these types. The only error is that memory ran out, or that a number does
/// not fit.
pub fn row(alloc: Global, blanks: &[Blank]) -> Result<Blank, RunFault>
    ensures { IfOk result (λ b. b ≡ row_blank blanks.now) }
{
    let size = total(blanks)?;
    let parts = held_all(alloc, blanks)?;
    Ok(Blank {
        held: Held::Parts(0, parts, Boxed::new(alloc, Held::Same(0))?),
        size,
    })
}

fn kept_of(home: u32, known: &[Kept]) -> Option<&Items<Blank>>
    ensures { option_copied result ≡ kept_of home known.now }
{
    match known {
        [] => None,
        [kept, rest @ ..] => {
            if home == kept.home {
                Some(&kept.blanks)
            } else {
                kept_of(home, rest)
            }
        }
    }
}

fn among(alloc: Global, found: Option<&Items<Blank>>, number: usize) -> Result<Blank, RunFault>
    ensures { let of = option_copied found.entry in
        IfOk result (λ b. b ≡ or_none (Rattle.plain_store.specs.Blanks.among of number)) }
{
    match found {
        None => row(alloc, &[]),
        Some(blanks) => match blanks.get(number) {
            None => row(alloc, &[]),
            Some(blank) => copy_blank(alloc, blank),
        },
    }
}

/// A variable of a type. The only error is that memory ran out, or that a number does not fit.
pub fn type_blank(
    alloc: Global,
    types: &Types,
    known: &[Kept],
    t: TypeNo,
) -> Result<Blank, RunFault>
    ensures { IfOk result (λ b. b ≡ blank_in known.now t) }
{
    match t.home {
        Home::Predeclared => scalar_or_word(alloc, t, scalar_of(types, t)),
        Home::Module(home) => among(alloc, kept_of(home, known), t.number),
    }
}

/// A variable of a type that the module at work makes, or one that stands before it.
fn part(
    alloc: Global,
    types: &Types,
    own: &Kept,
    before: &[Kept],
    t: TypeNo,
) -> Result<Blank, RunFault>
    ensures { IfOk result (λ b. b ≡ blank_in (own.now ∷ before.now) t) }
{
    match t.home {
        Home::Predeclared => scalar_or_word(alloc, t, scalar_of(types, t)),
        Home::Module(home) => {
            if home == own.home {
                return among(alloc, Some(&own.blanks), t.number);
            }
            among(alloc, kept_of(home, before), t.number)
        }
    }
}

fn field(
    alloc: Global,
    types: &Types,
    own: &Kept,
    before: &[Kept],
    all: Items<Blank>,
    entry: Option<(&[u8], &TypeNo)>,
) -> Result<Items<Blank>, RunFault>
    ensures { let e = option_map (λ e. (e.0.now, e.1.now)) entry.entry in
        let all_blanks = own.now ∷ before.now in
        IfOk result (λ bs. bs ≡ if_some (λ bs f. bs ++ field_blank all_blanks f ∷ []) all e) }
{
    match entry {
        None => Ok(all),
        Some((_, t)) => {
            let mut all = all;
            all.push(part(alloc, types, own, before, *t)?)?;
            Ok(all)
        }
    }
}

fn fields(
    alloc: Global,
    types: &Types,
    own: &Kept,
    before: &[Kept],
    of: &Dictionary<TypeNo>,
) -> Result<Items<Blank>, RunFault>
    ensures { let all_blanks = own.now ∷ before.now in
        IfOk result (λ bs. bs ≡ fold (λ bs f. bs ++ field_blank all_blanks f ∷ []) [] of.now) }
{
    let mut all = Items::new(alloc);
    for number in 0..of.len() {
        all = field(alloc, types, own, before, all, of.get(number))?;
    }
    Ok(all)
}

fn elements_of(range: Option<Scalar>) -> Result<usize, RunFault>
    ensures { IfOk result (λ n. n ≡ elements_of range) }
{
    match range {
        None => Ok(0),
        Some(s) => match usize::try_from(distance(s.low, s.high)?) {
            Err(_) => Err(RunFault::TooLarge),
            Ok(n) => plus(n, 1),
        },
    }
}

/// A variable of a type that is made so.
#[tactic(auto, using(crate::proofs::Fields::fields_are))]
fn blank_of_shape(
    alloc: Global,
    types: &Types,
    own: &Kept,
    before: &[Kept],
    t: TypeNo,
    shape: &Shape,
) -> Result<Blank, RunFault>
    ensures { let all_blanks = own.now ∷ before.now in
        IfOk result (λ b. b ≡ shape_blank types.now all_blanks t shape.now) }
{
    match shape {
        Shape::Scalar(s) => scalar_cell(alloc, t, *s),
        Shape::Set => word(alloc),
        Shape::Array(i, e) => {
            let one = part(alloc, types, own, before, *e)?;
            array(alloc, elements_of(scalar_of(types, *i))?, one)
        }
        Shape::Record(of) => {
            let all = fields(alloc, types, own, before, of)?;
            row(alloc, all.as_slice())
        }
        Shape::Procedure(_) => word(alloc),
        Shape::Open(_) => row(alloc, &[]),
    }
}

fn with_made(
    alloc: Global,
    types: &Types,
    own: Kept,
    before: &[Kept],
    made: &Made,
) -> Result<Kept, RunFault>
    ensures { let old = own in
        let bs = with_made types.now before.now old.home old.blanks made.now in
        IfOk result (λ k. k ≡ keep_blanks old.home bs) }
{
    let t = TypeNo {
        home: Home::Module(own.home),
        number: own.blanks.len(),
    };
    let next = blank_of_shape(alloc, types, &own, before, t, &made.shape)?;
    let Kept { home, blanks } = own;
    let mut blanks = blanks;
    blanks.push(next)?;
    Ok(Kept { home, blanks })
}

/// The types of a module, each from those before it.
fn all_made(
    alloc: Global,
    types: &Types,
    before: &[Kept],
    home: u32,
    all: &[Made],
) -> Result<Kept, RunFault>
    ensures { IfOk result (λ k.
        k ≡ keep_blanks home (module_blanks types.now before.now home all.now)) }
{
    let mut own = Kept {
        home,
        blanks: Items::new(alloc),
    };
    for made in all {
        own = with_made(alloc, types, own, before, made)?;
    }
    Ok(own)
}

fn with_module(
    alloc: Global,
    types: &Types,
    before: Items<Kept>,
    entry: Option<(&u32, &Shared<Items<Made>>)>,
) -> Result<Items<Kept>, RunFault>
    ensures { let e = option_map (λ e. (e.0.now, e.1.now)) entry.entry in
        IfOk result (λ ks. ks ≡ if_some (with_module types.now) before e) }
{
    match entry {
        None => Ok(before),
        Some((home, made)) => {
            let next = all_made(
                alloc,
                types,
                before.as_slice(),
                *home,
                made.get().as_slice(),
            )?;
            let mut all = before;
            all.push(next)?;
            Ok(all)
        }
    }
}

fn others(alloc: Global, types: &Types) -> Result<Items<Kept>, RunFault>
    ensures { IfOk result (λ ks. ks ≡ other_blanks types.now) }
{
    let mut modules = Items::new(alloc);
    for place in 0..types.others.len() {
        modules = with_module(alloc, types, modules, types.others.get(place))?;
    }
    Ok(modules)
}

/// Variables of all types that a module knows. The only error is that memory ran out, or that a number does not fit.
#[tactic(auto, unfolding(crate::specs::Blanks::known_blanks))]
pub fn all_blanks(alloc: Global, types: &Types) -> Result<Items<Kept>, RunFault>
    ensures { IfOk result (λ ks. ks ≡ known_blanks types.now) }
{
    let before = others(alloc, types)?;
    let own = all_made(
        alloc,
        types,
        before.as_slice(),
        types.home,
        types.own.as_slice(),
    )?;
    let mut all = Items::new(alloc);
    all.push(own)?;
    all.append(before)?;
    Ok(all)
}

fn pair(alloc: Global, size: usize) -> Result<Blank, RunFault>
    ensures { IfOk result (λ b. b ≡ row_blank (hidden_blank size ∷ hidden_blank size ∷ [])) }
{
    let mut all = Items::new(alloc);
    all.push(hidden(size))?;
    all.push(hidden(size))?;
    row(alloc, all.as_slice())
}

fn formal_blank(
    alloc: Global,
    types: &Types,
    known: &[Kept],
    formal: &Formal,
) -> Result<Blank, RunFault>
    ensures { IfOk result (λ b. b ≡ formal_blank known.now formal.now) }
{
    if formal.is_open {
        return pair(alloc, 4);
    }
    if formal.is_var {
        return Ok(hidden(4));
    }
    type_blank(alloc, types, known, formal.of)
}

fn with_formals(
    alloc: Global,
    types: &Types,
    known: &[Kept],
    before: Items<Blank>,
    formals: &[Formal],
) -> Result<Items<Blank>, RunFault>
    ensures { IfOk result (λ bs. bs ≡ before ++ map (formal_blank known.now) formals.now) }
{
    let mut all = before;
    for formal in formals {
        all.push(formal_blank(alloc, types, known, formal)?)?;
    }
    Ok(all)
}

fn with_variables(
    alloc: Global,
    types: &Types,
    known: &[Kept],
    before: Items<Blank>,
    variables: &[TypeNo],
) -> Result<Items<Blank>, RunFault>
    ensures { IfOk result (λ bs. bs ≡ before ++ map (blank_in known.now) variables.now) }
{
    let mut all = before;
    for t in variables {
        all.push(type_blank(alloc, types, known, *t)?)?;
    }
    Ok(all)
}

/// The formals of a procedure type.
pub fn formals_of(types: &Types, heading: TypeNo) -> &[Formal]
    ensures { result.now ≡ formals_of types.now heading }
{
    match made_of(types, heading) {
        None => &[],
        Some(made) => match &made.shape {
            Shape::Procedure(signature) => signature.formals.as_slice(),
            Shape::Scalar(_)
            | Shape::Set
            | Shape::Array(_, _)
            | Shape::Record(_)
            | Shape::Open(_) => &[],
        },
    }
}

/// The frame of a procedure. The only error is that memory ran out, or that a number does not fit.
#[tactic(auto, using(crate::proofs::Fields::frame_parts))]
pub fn frame(
    alloc: Global,
    types: &Types,
    known: &[Kept],
    routine: &Routine,
) -> Result<Blank, RunFault>
    ensures { IfOk result (λ b. b ≡ frame_blank types.now known.now routine.now) }
{
    let mut all = Items::new(alloc);
    all.push(pair(alloc, 8)?)?;
    let formals = formals_of(types, routine.heading);
    let all = with_formals(alloc, types, known, all, formals)?;
    let all = with_variables(alloc, types, known, all, routine.variables.as_slice())?;
    row(alloc, all.as_slice())
}

/// The variables of these types. The only error is that memory ran out, or that a number does not fit.
pub fn variables_blank(
    alloc: Global,
    types: &Types,
    known: &[Kept],
    variables: &[TypeNo],
) -> Result<Blank, RunFault>
    ensures { IfOk result (λ b. b ≡ row_blank (map (blank_in known.now) variables.now)) }
{
    let all = with_variables(alloc, types, known, Items::new(alloc), variables)?;
    row(alloc, all.as_slice())
}
