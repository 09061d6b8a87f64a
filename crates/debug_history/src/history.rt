//! A run that goes forwards and backwards.

use crate::prepared::Prepared;
use crate::records::{Frame, Piece, Record};
use crate::state::State;
use anyhow::Result;
use std::alloc::{AllocError, Global};
use std::mem;
use wasm_run::{End, Instances, Sink};
use watch_code::{Event, EventReader};

/// How many records are kept if nothing else is said: 64 MiB of them.
pub const MOST_RECORDS: usize = 2796202;

/// How many reductions are made before their signals are read.
const SLICE: u64 = 20000;

/// How many bytes are copied or cleared by a record.
const CHUNK: u32 = 8;

/// What a run is to come to.
pub trait Goal {
    /// Whether it is there behind this record, which was made last. The only error is that memory ran out.
    fn is_met(&self, state: &State, record: Record) -> Result<bool, AllocError>;
}

/// What a run has come to.
#[derive(Clone, Copy, Debug, PartialEq, Eq)]
pub enum Outcome {
    /// The goal.
    There,
    /// The begin of the program.
    AtBegin,
    /// The end of the program, or the reductions that it may make are made.
    AtEnd,
}

/// What hears the signals of a run.
#[derive(Drop)]
struct Ear {
    bytes: Vec<u8>,
    failures: u64,
}

impl Sink for Ear {
    ghost use Rattle.std.specs.Prelude.{None};

    ghost failed = { λ s. s.failures };

    ghost reported = { λ _. None };

    fn take(&mut self, byte: u8) -> bool {
        let is_taken = self.bytes.push(byte).is_ok();
        if !is_taken {
            self.failures += 1;
        }
        is_taken
    }

    fn failures(&self) -> u64 {
        self.failures
    }
}

/// Bytes that are copied or cleared piece by piece.
#[derive(Clone, Copy)]
struct Block {
    to: u32,
    /// From where they are copied, if they are not cleared.
    from: Option<u32>,
    left: u32,
}

/// The signals of a run that are not read yet.
#[derive(Drop)]
struct Signals {
    bytes: Vec<u8>,
    at: usize,
    reader: EventReader,
}

impl Signals {
    /// Whether there are some.
    fn is_left(&self) -> bool {
        self.at < self.bytes.len()
    }

    /// What is told next.
    fn next_event(&mut self) -> Option<Event> {
        for _ in self.at..self.bytes.len() {
            let byte = *self.bytes.get(self.at)?;
            self.at = self.at.saturating_add(1);
            let event = self.reader.take(byte);
            if event.is_some() {
                return event;
            }
        }
        None
    }
}

/// Puts a record in the place of the one of this number.
fn put_record(records: &mut Vec<Record>, at: usize, record: Record) {
    if let Some(place) = records.get_mut(at) {
        *place = record;
    }
}

/// The records that are kept: the older ones, and behind them the newer ones.
#[derive(Drop)]
struct Kept {
    older: Vec<Record>,
    newer: Vec<Record>,
    /// How many there are of each at most.
    most: usize,
    /// How many there were that are not kept.
    lost: u64,
}

impl Kept {
    fn len(&self) -> usize {
        self.older.len().saturating_add(self.newer.len())
    }

    /// The record of this number.
    fn get(&self, at: usize) -> Option<Record> {
        match at.checked_sub(self.older.len()) {
            None => self.older.get(at).map(|it| *it),
            Some(at) => self.newer.get(at).map(|it| *it),
        }
    }

    /// Puts a record in the place of the one of this number.
    fn set(&mut self, at: usize, record: Record) {
        match at.checked_sub(self.older.len()) {
            None => put_record(&mut self.older, at, record),
            Some(at) => put_record(&mut self.newer, at, record),
        }
    }

    /// Adds a record behind all others. If there are too many, the older ones are forgotten.
    fn push(&mut self, alloc: Global, record: Record) -> Result<()> {
        if self.newer.len() >= self.most {
            let room = Vec::with_capacity(alloc, self.most)?;
            let newer = mem::replace(&mut self.newer, room);
            let older = mem::replace(&mut self.older, newer);
            self.lost = self.lost.saturating_add(older.len() as u64);
        }
        self.newer.push(record)?;
        Ok(())
    }
}

/// A run of a program, and the place in it at which one is.
pub struct History<'a> {
    alloc: Global,
    program: &'a Prepared,
    instances: Instances<'a>,
    signals: Signals,
    block: Option<Block>,
    pub state: State,
    kept: Kept,
    /// How many of the kept records are made.
    at: usize,
    /// How many reductions were made, the signals among them, and how many the program may make.
    made: u64,
    steps: u64,
    end: Option<End>,
}

// Written by hand, so that proofs above take a drop as one call.
impl<'a> Drop for History<'a> {
    fn drop(self) {
        let History {
            alloc: _alloc,
            program: _program,
            instances,
            signals,
            block: _block,
            state,
            kept,
            at: _at,
            made: _made,
            steps: _steps,
            end: _end,
        } = self;
        drop(instances);
        drop(signals);
        drop(state);
        drop(kept);
    }
}

/// No signals.
fn no_signals(alloc: Global) -> Signals {
    Signals {
        bytes: Vec::new(alloc),
        at: 0,
        reader: EventReader::new(),
    }
}

/// No records, of which so many are kept.
fn no_records(alloc: Global, most: usize) -> Kept {
    Kept {
        older: Vec::new(alloc),
        newer: Vec::new(alloc),
        most,
        lost: 0,
    }
}

/// Makes so many reductions. Where the run is then, and the signals among them. Nothing if it was broken off.
fn run_slice(alloc: Global, instances: &mut Instances<'_>, steps: u64) -> (Option<End>, Vec<u8>) {
    let mut ear = Ear {
        bytes: Vec::new(alloc),
        failures: 0,
    };
    let end = instances.run(steps, &mut ear).ok();
    let Ear { bytes, .. } = ear;
    (end, bytes)
}

impl<'a> History<'a> {
    /// The begin of a run of at most so many reductions, of which so many records are kept. An error if memory ran out.
    pub fn new(
        alloc: Global,
        program: &'a Prepared,
        steps: u64,
        most: usize,
    ) -> Result<History<'a>> {
        Ok(History {
            alloc,
            program,
            instances: Instances::link(alloc, &program.modules)?,
            signals: no_signals(alloc),
            block: None,
            state: State::new(alloc, program.size, &program.texts)?,
            kept: no_records(alloc, most / 2),
            at: 0,
            made: 0,
            steps,
            end: None,
        })
    }

    /// Goes to the begin of the run, and forgets all records. An error if memory ran out.
    pub fn restart(&mut self) -> Result<()> {
        self.instances = Instances::link(self.alloc, &self.program.modules)?;
        self.state = State::new(self.alloc, self.program.size, &self.program.texts)?;
        self.signals = no_signals(self.alloc);
        self.kept = no_records(self.alloc, self.kept.most);
        self.block = None;
        self.at = 0;
        self.made = 0;
        self.end = None;
        Ok(())
    }

    /// How many records of the whole run are made.
    pub fn number(&self) -> u64 {
        self.kept.lost.saturating_add(self.at as u64)
    }

    /// How the run ended, if it is known and one is at its end.
    pub fn end(&self) -> Option<End> {
        if self.at < self.kept.len() || self.signals.is_left() || self.block.is_some() {
            return None;
        }
        self.end
    }

    /// The record that was made last, if it is kept.
    fn last(&self) -> Option<Record> {
        self.kept.get(self.at.checked_sub(1)?)
    }

    /// How many reductions the program made itself, as far as the signals are read.
    fn own(&self) -> u64 {
        self.made.saturating_sub(self.signals.reader.reductions)
    }

    /// Makes a few more reductions. False if the run is over.
    fn extend(&mut self) -> Result<bool> {
        let left = self.steps.saturating_sub(self.own());
        if self.end.is_some() {
            return Ok(false);
        }
        if left == 0 && !self.signals.reader.is_open() {
            self.end = Some(End::StillRunning);
            return Ok(false);
        }
        let steps = left.clamp(1, SLICE);
        let (end, bytes) = run_slice(self.alloc, &mut self.instances, steps);
        match end {
            None => anyhow::bail!("no memory left (90)"),
            Some(End::StillRunning) => {}
            Some(_) => self.end = end,
        }
        self.made = self.made.saturating_add(steps);
        self.signals.bytes = bytes;
        self.signals.at = 0;
        Ok(true)
    }

    /// The next piece of the bytes that are copied or cleared.
    fn next_piece(&mut self) -> Option<Record> {
        let block = self.block?;
        if block.left == 0 {
            self.block = None;
            return None;
        }
        let width = block.left.min(CHUNK);
        let value = match block.from {
            None => 0,
            Some(from) => self.state.number(from, width as usize),
        };
        self.block = Some(Block {
            to: block.to.saturating_add(width),
            from: block.from.map(|from| from.saturating_add(width)),
            left: block.left.saturating_sub(width),
        });
        Some(Record::Wrote(Piece {
            address: block.to,
            value,
            width: width as u8,
            is_block: true,
        }))
    }

    /// The record of what is told. Nothing if it has several.
    fn record_of(&mut self, event: Event) -> Option<Record> {
        match event {
            Event::Printed(byte) => Some(Record::Printed(byte)),
            Event::Entered(function, base) => Some(Record::Entered(Frame {
                function,
                base,
                mark: None,
            })),
            Event::Left => Some(Record::Left(Frame {
                function: 0,
                base: 0,
                mark: None,
            })),
            Event::Met(mark) => Some(Record::Met(Some(mark))),
            Event::Stored(address, value, width) => Some(Record::Wrote(Piece {
                address,
                value,
                width,
                is_block: false,
            })),
            Event::Copied(to, from, left) => {
                self.block = Some(Block {
                    to,
                    from: Some(from),
                    left,
                });
                None
            }
            Event::Cleared(to, left) => {
                self.block = Some(Block {
                    to,
                    from: None,
                    left,
                });
                None
            }
        }
    }

    /// The next record that is not kept yet. Nothing if the run is over.
    fn next_record(&mut self) -> Result<Option<Record>> {
        for _ in 0..u64::MAX {
            if let Some(record) = self.next_piece() {
                return Ok(Some(record));
            }
            match self.signals.next_event() {
                Some(event) => {
                    if let Some(record) = self.record_of(event) {
                        return Ok(Some(record));
                    }
                }
                None => {
                    if !self.extend()? {
                        return Ok(None);
                    }
                }
            }
        }
        Ok(None)
    }

    /// Makes the next record: one that was undone, or a new one. Nothing if the run is over. An error if memory ran out.
    pub fn advance(&mut self) -> Result<Option<Record>> {
        if let Some(record) = self.kept.get(self.at) {
            let made = self.state.make(record)?;
            self.kept.set(self.at, made);
            self.at = self.at.saturating_add(1);
            return Ok(Some(made));
        }
        let Some(record) = self.next_record()? else {
            return Ok(None);
        };
        let made = self.state.make(record)?;
        self.kept.push(self.alloc, made)?;
        self.at = self.kept.len();
        Ok(Some(made))
    }

    /// Undoes the record that was made last, if it is kept. An error if memory ran out.
    fn retreat(&mut self) -> Result<()> {
        let Some(at) = self.at.checked_sub(1) else {
            return Ok(());
        };
        if let Some(record) = self.kept.get(at) {
            let undone = self.state.undo(record)?;
            self.kept.set(at, undone);
            self.at = at;
        }
        Ok(())
    }

    /// Goes on to the goal, or to the end of the run. An error if memory ran out.
    pub fn forward<G: Goal>(&mut self, goal: &G) -> Result<Outcome> {
        for _ in 0..u64::MAX {
            match self.advance()? {
                None => return Ok(Outcome::AtEnd),
                Some(record) => {
                    if goal.is_met(&self.state, record)? {
                        return Ok(Outcome::There);
                    }
                }
            }
        }
        Ok(Outcome::AtEnd)
    }

    /// Goes back to the goal, or to the begin of the run. What is not kept is found by running from the begin. An error if memory
    /// ran out.
    pub fn backward<G: Goal>(&mut self, goal: &G) -> Result<Outcome> {
        for _ in 0..u64::MAX {
            if self.at == 0 {
                break;
            }
            self.retreat()?;
            if let Some(record) = self.last() {
                if goal.is_met(&self.state, record)? {
                    return Ok(Outcome::There);
                }
            }
        }
        if self.kept.lost == 0 {
            return Ok(Outcome::AtBegin);
        }
        self.earlier(goal)
    }

    /// Goes to the last place up to here at which the goal is met, or to the begin.
    fn earlier<G: Goal>(&mut self, goal: &G) -> Result<Outcome> {
        let limit = self.number();
        let found = self.last_before(goal, limit)?;
        self.go_to(found)?;
        Ok(if found == 0 {
            Outcome::AtBegin
        } else {
            Outcome::There
        })
    }

    /// Runs from the begin up to so many records. How many are made at the last place at which the goal is met, and 0 if it never is.
    fn last_before<G: Goal>(&mut self, goal: &G, limit: u64) -> Result<u64> {
        self.restart()?;
        let mut found = 0;
        for _ in 0..limit {
            match self.advance()? {
                None => break,
                Some(record) => {
                    if goal.is_met(&self.state, record)? {
                        found = self.number();
                    }
                }
            }
        }
        Ok(found)
    }

    /// Goes to the place at which so many records are made. An error if memory ran out.
    pub fn go_to(&mut self, number: u64) -> Result<()> {
        if number < self.kept.lost {
            self.restart()?;
        }
        for _ in number..self.number() {
            self.retreat()?;
        }
        for _ in self.number()..number {
            if self.advance()?.is_none() {
                break;
            }
        }
        Ok(())
    }
}
