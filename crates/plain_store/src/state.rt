//! What changes while a program runs, and how its parts end.

ghost use Rattle.std.specs.Prelude.{◌≡◌, ◌<◌, ◌∷◌, ◌++◌, [], ℤ, OnOk, IfOk};
ghost use Rattle.def_meaning.specs.Store.{copy_whole, overlay};
ghost use Rattle.def_meaning.specs.Statements.{character, store_number};
ghost use Rattle.plain_store.specs.declared.state.RunFault.TheVariants.{NoMemory};
ghost use Rattle.plain_store.specs.Contents.{contents};
ghost use Rattle.plain_store.specs.Seen.{view_of, with_store, with_byte};

use crate::held::{Held, read};
use crate::variables;
use std::alloc::{AllocError, Global};
use std::mem;
use thiserror::Error;
use tree_parts::Items;

/// Why a run has no answer.
#[derive(Clone, Copy, Debug, PartialEq, Eq, Error)]
pub enum RunFault {
    /// A request for memory was refused.
    #[error("out of memory")]
    NoMemory,
    /// A number does not fit into the machine's types.
    #[error("a number does not fit")]
    TooLarge,
    /// Evaluations nest too deep.
    #[error("too deep")]
    TooDeep,
}

impl From<AllocError> for RunFault {
    ghost from_gives = { λ _ e. e ≡ NoMemory };

    fn from(_: AllocError) -> RunFault {
        RunFault::NoMemory
    }
}

/// What the variables hold, and what has been printed.
#[derive(Drop)]
pub struct State {
    pub store: Held,
    pub out: Items<u8>,
}

/// Why a part of a program gives no value.
#[derive(Clone, Copy, PartialEq, Eq)]
pub enum Stop {
    /// A fault with this number, or the end: 0, or 9 for HALT.
    Ended(u32),
    /// The bound was met.
    StillRunning,
}

/// What an expression gives.
#[derive(Drop)]
pub enum Answer<T> {
    Value(T),
    Stopped(Stop),
}

/// How statements end.
#[derive(Clone, Copy, PartialEq, Eq)]
pub enum Outcome {
    /// At their end.
    Normal,
    /// By EXIT.
    Exited,
    /// By RETURN with this value, or 0 without one.
    Returned(i64),
    Stopped(Stop),
}

/// The room for what is nested one level deeper.
pub fn deeper(room: usize) -> Result<usize, RunFault>
    ensures { IfOk result (λ r. r < room) }
{
    match room.checked_sub(1) {
        None => Err(RunFault::TooDeep),
        Some(left) => Ok(left),
    }
}

/// The number at a location.
pub fn load(l: &[usize], st: &State) -> i64
    ensures { result ≡ (view_of st.now).store l.now }
{
    read(&st.store, l)
}

/// Stores a number at a location.
pub fn store(alloc: Global, l: &[usize], v: i64, st: &mut State) -> Result<(), RunFault>
    ensures { OnOk result (view_of st.new ≡ store_number l.now v (view_of st.old)) }
{
    let old = mem::replace(&mut st.store, Held::Same(0));
    st.store = variables::assign_number(alloc, old, l, v)?;
    Ok(())
}

/// Copies an array or a record to a location.
pub fn copy_to(alloc: Global, to: &[usize], from: &[usize], st: &mut State) -> Result<(), RunFault>
    ensures { let store = copy_whole to.now from.now (view_of st.old).store in
        OnOk result (view_of st.new ≡ with_store store (view_of st.old)) }
{
    let old = mem::replace(&mut st.store, Held::Same(0));
    st.store = variables::copy_whole(alloc, old, to, from)?;
    Ok(())
}

/// Puts what a variable holds at a location.
pub fn put_at(alloc: Global, to: &[usize], new: Held, st: &mut State) -> Result<(), RunFault>
    ensures { let store = overlay to.now (contents new) (view_of st.old).store in
        OnOk result (view_of st.new ≡ with_store store (view_of st.old)) }
{
    let old = mem::replace(&mut st.store, Held::Same(0));
    st.store = variables::put(alloc, old, to, new)?;
    Ok(())
}

/// Puts the characters of a string at a location.
pub fn text_to(alloc: Global, to: &[usize], text: &[u8], st: &mut State) -> Result<(), RunFault>
    ensures { let store = overlay to.now (character text.now) (view_of st.old).store in
        OnOk result (view_of st.new ≡ with_store store (view_of st.old)) }
{
    let new = variables::characters(alloc, text)?;
    put_at(alloc, to, new, st)
}

/// Prints a character.
pub fn print(v: i64, st: &mut State) -> Result<(), RunFault>
    ensures { OnOk result (view_of st.new ≡ with_byte v (view_of st.old)) }
{
    match u8::try_from(v) {
        Err(_) => Err(RunFault::TooLarge),
        Ok(byte) => {
            st.out.push(byte)?;
            Ok(())
        }
    }
}
