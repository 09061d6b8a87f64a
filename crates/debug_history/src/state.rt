//! What is known of a run at a time.

use crate::records::{Frame, Piece, Record};
use std::alloc::{AllocError, Global};

/// The most bytes of what a program printed that are kept, the first ones.
const MOST_OUTPUT: usize = 16777216;

/// The bytes of a number in the memory at most.
const WORD: usize = 8;

/// A run at a time.
#[derive(Drop)]
pub struct State {
    memory: Vec<u8>,
    /// The functions that run, the innermost one last.
    pub frames: Vec<Frame>,
    output: Vec<u8>,
    /// How many bytes were printed that are not kept.
    unkept: u64,
}

impl State {
    /// The begin of a run whose memory has so many bytes, which are 0 but for these texts, each at its address.
    pub fn new(alloc: Global, size: usize, texts: &[(u32, Vec<u8>)]) -> Result<State, AllocError> {
        let mut memory = Vec::new(alloc);
        memory.resize(size, 0)?;
        let mut state = State {
            memory,
            frames: Vec::new(alloc),
            output: Vec::new(alloc),
            unkept: 0,
        };
        for (address, bytes) in texts {
            state.put_all(*address, bytes);
        }
        Ok(state)
    }

    /// Puts bytes into the memory from an address on.
    fn put_all(&mut self, address: u32, bytes: &[u8]) {
        for (at, byte) in bytes.iter().enumerate() {
            if let Some(place) = self.memory.get_mut((address as usize).saturating_add(at)) {
                *place = *byte;
            }
        }
    }

    /// The byte at an address, and 0 outside of the memory.
    pub fn byte(&self, address: u32) -> u8 {
        self.memory.get(address as usize).map_or(0, |byte| *byte)
    }

    /// The number in so many bytes from an address on, the lowest first; eight at most.
    pub fn number(&self, address: u32, width: usize) -> u64 {
        let mut bytes = [0; 8];
        for (at, place) in bytes.iter_mut().enumerate().take(width) {
            let at = u32::try_from(at).unwrap_or(u32::MAX);
            *place = self.byte(address.saturating_add(at));
        }
        u64::from_le_bytes(bytes)
    }

    /// What the program printed, as far as it is kept.
    pub fn output(&self) -> &[u8] {
        &self.output
    }

    /// How many bytes the program printed that are not kept.
    pub fn unkept(&self) -> u64 {
        self.unkept
    }

    /// Writes bytes, and keeps in the piece what stood there.
    fn exchange(&mut self, piece: &mut Piece) {
        let width = usize::from(piece.width).min(WORD);
        let before = self.number(piece.address, width);
        let bytes = piece.value.to_le_bytes();
        self.put_all(piece.address, &bytes[..width]);
        piece.value = before;
    }

    /// The innermost function comes to this mark. The one from which it comes.
    fn meet(&mut self, mark: Option<u32>) -> Option<u32> {
        match self.frames.last_mut() {
            None => mark,
            Some(frame) => {
                let before = frame.mark;
                frame.mark = mark;
                before
            }
        }
    }

    /// Keeps a byte that is printed.
    fn print(&mut self, byte: u8) -> Result<(), AllocError> {
        if self.output.len() < MOST_OUTPUT {
            self.output.push(byte)?;
        } else {
            self.unkept = self.unkept.saturating_add(1);
        }
        Ok(())
    }

    /// Takes a printed byte back.
    fn take_back(&mut self) {
        if self.unkept > 0 {
            self.unkept = self.unkept.saturating_sub(1);
        } else {
            let _ = self.output.pop();
        }
    }

    /// What a record says happens. The record that undoes it.
    pub fn make(&mut self, record: Record) -> Result<Record, AllocError> {
        match record {
            Record::Printed(byte) => {
                self.print(byte)?;
                Ok(record)
            }
            Record::Entered(frame) => {
                self.frames.push(frame)?;
                Ok(record)
            }
            Record::Left(_) => match self.frames.pop() {
                None => Ok(record),
                Some(frame) => Ok(Record::Left(frame)),
            },
            Record::Met(mark) => Ok(Record::Met(self.meet(mark))),
            Record::Wrote(mut piece) => {
                self.exchange(&mut piece);
                Ok(Record::Wrote(piece))
            }
        }
    }

    /// What a record says is undone. The record that makes it again.
    pub fn undo(&mut self, record: Record) -> Result<Record, AllocError> {
        match record {
            Record::Printed(_) => {
                self.take_back();
                Ok(record)
            }
            Record::Entered(_) => {
                let _ = self.frames.pop();
                Ok(record)
            }
            Record::Left(frame) => {
                self.frames.push(frame)?;
                Ok(record)
            }
            Record::Met(mark) => Ok(Record::Met(self.meet(mark))),
            Record::Wrote(mut piece) => {
                self.exchange(&mut piece);
                Ok(Record::Wrote(piece))
            }
        }
    }
}
