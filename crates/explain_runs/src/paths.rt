//! By which calls a run came to its functions.

use crate::profile::{NONE, Tally};
use indexmap::IndexMap;
use std::alloc::{AllocError, Global};
use watch_code::Activation;

/// The most ways of calls that are told apart. A call by a further way counts for its caller.
const MOST_PATHS: usize = 65536;

/// A way of calls that leads to a function. A function that is on the way already is not entered a second time: what a recursion
/// takes counts where it began.
#[derive(Clone, Copy)]
pub struct Path {
    /// The number of the function.
    pub function: u32,
    /// The number of the way that leads to its caller. Nothing for a function that nothing called.
    pub caller: Option<usize>,
    /// How often it was called by this way, and what it took without what it called.
    pub tally: Tally,
}

/// The calls of a function at a place of another.
#[derive(Clone, Copy)]
pub struct CallCount {
    /// The function that calls, and the last mark in it that was come to.
    pub place: Activation,
    /// The number of the function that is called.
    pub function: u32,
    /// How often, and what that took with all that it called. Calls within a recursion take nothing of their own.
    pub tally: Tally,
}

/// A function that runs.
#[derive(Clone, Copy)]
struct Entered {
    path: usize,
    /// The number of the calls at its place. Nothing for a function that nothing called.
    call: Option<usize>,
    /// The reductions of the whole run when it was entered.
    begun: u64,
    /// Whether it is on the way already.
    is_recursion: bool,
}

/// The ways of calls of a run, and where the run is.
pub struct Paths {
    all: Vec<Path>,
    /// The numbers of the ways, by the caller's way and the function.
    numbers: IndexMap<u64, usize>,
    calls: Vec<CallCount>,
    /// The places at which something is called, and the numbers of the calls by the place and the function.
    places: IndexMap<u64, usize>,
    call_numbers: IndexMap<u64, usize>,
    entered: Vec<Entered>,
    /// The reductions of the run so far.
    made: u64,
}

// Written by hand, so that proofs above take a drop as one call.
impl Drop for Paths {
    fn drop(self) {
        let Paths {
            all,
            numbers,
            calls,
            places,
            call_numbers,
            entered,
            made: _made,
        } = self;
        drop(all);
        drop(numbers);
        drop(calls);
        drop(places);
        drop(call_numbers);
        drop(entered);
    }
}

/// Two numbers as one. A missing one is 0.
fn key_of(first: Option<usize>, second: u32) -> u64 {
    let number = first.map_or(0, |it| (it as u64).saturating_add(1));
    number
        .saturating_mul(1 << 32)
        .saturating_add(u64::from(second))
}

/// One more call.
fn once_more(tally: &mut Tally) {
    tally.times = tally.times.saturating_add(1);
}

impl Paths {
    /// Nothing ran yet.
    pub fn new(alloc: Global) -> Paths {
        Paths {
            all: Vec::new(alloc),
            numbers: IndexMap::new(alloc),
            calls: Vec::new(alloc),
            places: IndexMap::new(alloc),
            call_numbers: IndexMap::new(alloc),
            entered: Vec::new(alloc),
            made: 0,
        }
    }

    /// The way to a function among a way and those that lead to it. Nothing if the function is not on the way.
    fn path_above(&self, from: Option<usize>, function: u32) -> Option<usize> {
        let mut next = from;
        for _ in &self.all {
            let number = next?;
            let path = self.all.get(number)?;
            if path.function == function {
                return Some(number);
            }
            next = path.caller;
        }
        None
    }

    /// The way by which a function is called behind another. It is new if there was none, unless there are enough.
    fn path_to(&mut self, caller: Option<usize>, function: u32) -> Result<usize, AllocError> {
        let key = key_of(caller, function);
        if let Some(number) = self.numbers.get(&key) {
            return Ok(*number);
        }
        let number = self.all.len();
        if let (true, Some(caller)) = (number >= MOST_PATHS, caller) {
            return Ok(caller);
        }
        self.numbers.insert(key, number)?;
        self.all.push(Path {
            function,
            caller,
            tally: NONE,
        })?;
        Ok(number)
    }

    /// The number of a place at which something is called.
    fn place_number(&mut self, place: Activation) -> Result<usize, AllocError> {
        let key = key_of(place.mark, place.function);
        if let Some(number) = self.places.get(&key) {
            return Ok(*number);
        }
        let number = self.places.len();
        self.places.insert(key, number)?;
        Ok(number)
    }

    /// The number of the calls of a function at a place.
    fn call_at(&mut self, place: Activation, function: u32) -> Result<usize, AllocError> {
        let key = key_of(Some(self.place_number(place)?), function);
        if let Some(number) = self.call_numbers.get(&key) {
            return Ok(*number);
        }
        let number = self.calls.len();
        self.call_numbers.insert(key, number)?;
        self.calls.push(CallCount {
            place,
            function,
            tally: NONE,
        })?;
        Ok(number)
    }

    /// The calls of a function at a place. Nothing if nothing called it.
    fn call_from(
        &mut self,
        place: Option<Activation>,
        function: u32,
    ) -> Result<Option<usize>, AllocError> {
        match place {
            Some(place) => Ok(Some(self.call_at(place, function)?)),
            None => Ok(None),
        }
    }

    /// A function is entered, called at a place of another.
    pub fn enter(&mut self, place: Option<Activation>, function: u32) -> Result<(), AllocError> {
        let caller = self.entered.last().map(|it| it.path);
        let above = self.path_above(caller, function);
        let path = match above {
            Some(path) => path,
            None => self.path_to(caller, function)?,
        };
        let call = self.call_from(place, function)?;
        if let Some(path) = self.all.get_mut(path) {
            once_more(&mut path.tally);
        }
        if let Some(call) = call.and_then(|it| self.calls.get_mut(it)) {
            once_more(&mut call.tally);
        }
        self.entered.push(Entered {
            path,
            call,
            begun: self.made,
            is_recursion: above.is_some(),
        })?;
        Ok(())
    }

    /// So many reductions are made, and so many of them are of signals.
    pub fn take(&mut self, made: u64, signals: u64) {
        let sum = self.made.saturating_add(made);
        self.made = sum.saturating_sub(signals);
        let here = self.entered.last().map(|it| it.path);
        if let Some(path) = here.and_then(|it| self.all.get_mut(it)) {
            let sum = path.tally.reductions.saturating_add(made);
            path.tally.reductions = sum.saturating_sub(signals);
        }
    }

    /// What a call took is added to the calls at its place.
    fn close(&mut self, entered: Entered) {
        if entered.is_recursion {
            return;
        }
        if let Some(call) = entered.call.and_then(|it| self.calls.get_mut(it)) {
            let took = self.made.saturating_sub(entered.begun);
            call.tally.reductions = call.tally.reductions.saturating_add(took);
        }
    }

    /// So many functions are left.
    pub fn leave(&mut self, count: usize) {
        for _ in 0..count {
            if let Some(entered) = self.entered.pop() {
                self.close(entered);
            }
        }
    }

    /// The run is over: all functions are left.
    fn leave_all(&mut self) {
        let count = self.entered.len();
        self.leave(count);
    }

    /// The ways and the calls.
    fn into_parts(self) -> (Vec<Path>, Vec<CallCount>) {
        let Paths {
            all,
            numbers,
            calls,
            places,
            call_numbers,
            entered,
            made: _,
        } = self;
        drop(numbers);
        drop(places);
        drop(call_numbers);
        drop(entered);
        (all, calls)
    }

    /// The ways and the calls of a run that is over.
    pub fn finish(self) -> (Vec<Path>, Vec<CallCount>) {
        let mut paths = self;
        paths.leave_all();
        paths.into_parts()
    }
}
