//! Programs, and what stands around a part of one while it runs.

ghost use Rattle.std.specs.Prelude.{◌≡◌, ◌++◌, ◌∷◌, [], IfOk};
ghost use Rattle.plain_values.specs.Surroundings.{IsUnder};

use plain_store::prepared::Prepared;
use plain_store::state::RunFault;
use std::alloc::{AllocError, Global};
use tree_parts::Items;
use typed_tree::Routine;

/// A program, and its bound.
#[derive(Clone, Copy)]
pub struct Program<'a> {
    pub alloc: Global,
    /// The modules that are reached, in start order.
    pub modules: &'a [Prepared<'a>],
    /// How many turns each loop makes at most, and how deep calls nest at most.
    pub bound: usize,
}

/// What a formal or a variable of a procedure stands for.
#[derive(Drop)]
pub enum Named {
    /// A location.
    At(Items<usize>),
    /// The elements of an open array, and its HIGH.
    Elements(Items<usize>, usize),
}

/// What stands around a part of a program.
#[derive(Drop)]
pub struct Around<'a> {
    pub program: &'a Program<'a>,
    /// So deep may calls nest.
    pub depth: usize,
    /// The place of the module in start order.
    pub place: usize,
    pub home: Prepared<'a>,
    /// The names of the activation, and of those around it, outwards.
    pub frames: Items<Items<Named>>,
    /// The records of the WITHs, the outermost first.
    pub withs: Items<Items<usize>>,
    /// The number of the next instance.
    pub next: usize,
    /// How many bytes of storage are free.
    pub left: usize,
}

/// A procedure, and the activations around its own.
#[derive(Drop)]
pub struct Callee<'a> {
    pub place: usize,
    pub home: Prepared<'a>,
    pub routine: &'a Routine,
    pub frames: Items<Items<Named>>,
}

/// An argument that was evaluated.
#[derive(Drop)]
pub enum Passed {
    Number(i64),
    Variable(Items<usize>),
    /// The elements, and HIGH.
    Array(Items<usize>, usize),
    Text(Items<u8>),
}

/// The same name once more.
fn copy_name(alloc: Global, name: &Named) -> Result<Named, AllocError>
    ensures { IfOk result (λ n. n ≡ name.now) }
{
    match name {
        Named::At(l) => Ok(Named::At(Items::from_slice(alloc, l.as_slice())?)),
        Named::Elements(l, high) => {
            let l = Items::from_slice(alloc, l.as_slice())?;
            Ok(Named::Elements(l, *high))
        }
    }
}

fn copy_names(alloc: Global, names: &[Named]) -> Result<Items<Named>, AllocError>
    ensures { IfOk result (λ all. all ≡ names.now) }
{
    let mut all = Items::new(alloc);
    for name in names {
        all.push(copy_name(alloc, name)?)?;
    }
    Ok(all)
}

/// The same frames once more. The only error is that memory ran out.
pub fn copy_frames(
    alloc: Global,
    frames: &[Items<Named>],
) -> Result<Items<Items<Named>>, AllocError>
    ensures { IfOk result (λ all. all ≡ frames.now) }
{
    let mut all = Items::new(alloc);
    for frame in frames {
        all.push(copy_names(alloc, frame.as_slice())?)?;
    }
    Ok(all)
}

fn copy_locations(
    alloc: Global,
    locations: &[Items<usize>],
) -> Result<Items<Items<usize>>, AllocError>
    ensures { IfOk result (λ all. all ≡ locations.now) }
{
    let mut all = Items::new(alloc);
    for l in locations {
        all.push(Items::from_slice(alloc, l.as_slice())?)?;
    }
    Ok(all)
}

/// The records of WITHs with one more. The only error is that memory ran out.
fn longer(
    alloc: Global,
    withs: &[Items<usize>],
    l: Items<usize>,
) -> Result<Items<Items<usize>>, AllocError>
    ensures { IfOk result (λ all. all ≡ withs.now ++ l ∷ []) }
{
    let mut all = copy_locations(alloc, withs)?;
    all.push(l)?;
    Ok(all)
}

/// What stands around the statements of a WITH.
#[tactic(auto, unfolding(crate::specs::Surroundings::surroundings, crate::specs::Surroundings::asks_of, crate::specs::Surroundings::modules_of))]
pub fn under<'a>(around: &Around<'a>, l: Items<usize>) -> Result<Around<'a>, RunFault>
    ensures { IfOk result (λ a. IsUnder around.now l a) }
{
    let alloc = around.program.alloc;
    Ok(Around {
        program: around.program,
        depth: around.depth,
        place: around.place,
        home: around.home,
        frames: copy_frames(alloc, around.frames.as_slice())?,
        withs: longer(alloc, around.withs.as_slice(), l)?,
        next: around.next,
        left: around.left,
    })
}
