//! Signals are read.

use crate::signals::{
    BYTE, CHECKED, ENTERED, FIRST_MARK, LEFT, PRINTED, REDUCTIONS, SITE, VALUE_BYTES,
};
use std::alloc::{AllocError, Global};

/// A function that runs, or waits for one that it called.
#[derive(Clone, Copy, PartialEq, Eq)]
pub struct Activation {
    /// The number of the function among those of all modules.
    pub function: u32,
    /// The number of the last mark in it that was come to. Nothing if its code has just begun.
    pub mark: Option<usize>,
}

/// What a failed check had: the value, and the least and the greatest that pass.
#[derive(Clone, Copy, PartialEq, Eq)]
pub struct Checked {
    pub value: i64,
    pub least: i64,
    pub most: i64,
}

/// What the next byte is.
#[derive(Clone, Copy)]
enum Awaited {
    /// The first of a signal.
    Signal,
    /// The program's.
    Printed,
    /// One of the number of a function: how many more there are, and the number so far.
    Function(u32, u32),
    /// The last of the number of a mark, and the number so far.
    Mark(usize),
    /// The number of a check.
    Site,
    /// A byte of the values of a failed check, by its number.
    Value(usize),
}

/// Reads the signals of a run: it knows which functions run, and where they are.
#[derive(Drop)]
pub struct Reader {
    awaited: Awaited,
    /// The functions that run, the innermost one last.
    pub activations: Vec<Activation>,
    /// How often a function began or a mark was come to.
    pub arrivals: u64,
    /// How many reductions the signals took.
    pub reductions: u64,
    /// How many bytes the program printed.
    pub printed: u64,
    /// The number of the last check of the chosen statement.
    pub site: Option<u8>,
    /// The bytes of the values of the check that failed, the lowest first.
    values: [[u8; 8]; 3],
    is_checked: bool,
}

/// The bytes of the number of a function.
const FUNCTION_BYTES: u32 = 3;

impl Reader {
    /// No signal was read.
    pub fn new(alloc: Global) -> Reader {
        Reader {
            awaited: Awaited::Signal,
            activations: Vec::new(alloc),
            arrivals: 0,
            reductions: 0,
            printed: 0,
            site: None,
            values: [[0; 8]; 3],
            is_checked: false,
        }
    }

    /// The function that runs.
    pub fn innermost(&self) -> Option<Activation> {
        self.activations.last().map(|it| *it)
    }

    /// The values of the check that failed, if they were signalled.
    pub fn checked(&self) -> Option<Checked> {
        if !self.is_checked {
            return None;
        }
        let [value, least, most] = self.values;
        Some(Checked {
            value: i64::from_le_bytes(value),
            least: i64::from_le_bytes(least),
            most: i64::from_le_bytes(most),
        })
    }

    /// The first byte of a signal. What the next one is.
    fn first(&mut self, byte: u8) -> Awaited {
        match byte {
            PRINTED => Awaited::Printed,
            ENTERED => Awaited::Function(FUNCTION_BYTES, 0),
            LEFT => {
                let _ = self.activations.pop();
                Awaited::Signal
            }
            SITE => Awaited::Site,
            CHECKED => Awaited::Value(0),
            _ => Awaited::Mark(usize::from(byte.saturating_sub(FIRST_MARK)).saturating_mul(BYTE)),
        }
    }

    /// A byte of the number of a function. What the next one is.
    fn function(&mut self, left: u32, number: u32, byte: u8) -> Result<Awaited, AllocError> {
        let function = number.saturating_mul(256).saturating_add(u32::from(byte));
        if left > 1 {
            return Ok(Awaited::Function(left.saturating_sub(1), function));
        }
        self.activations.push(Activation {
            function,
            mark: None,
        })?;
        self.arrivals = self.arrivals.saturating_add(1);
        Ok(Awaited::Signal)
    }

    /// The innermost function is at this mark.
    fn meet(&mut self, mark: usize) {
        if let Some(activation) = self.activations.last_mut() {
            activation.mark = Some(mark);
        }
        self.arrivals = self.arrivals.saturating_add(1);
    }

    /// A byte of this number of the values of a failed check. What the next one is.
    fn value(&mut self, number: usize, byte: u8) -> Awaited {
        if let Some(value) = self.values.get_mut(number / VALUE_BYTES) {
            if let Some(place) = value.get_mut(number % VALUE_BYTES) {
                *place = byte;
            }
        }
        let next = number.saturating_add(1);
        if next < self.values.len().saturating_mul(VALUE_BYTES) {
            return Awaited::Value(next);
        }
        self.is_checked = true;
        Awaited::Signal
    }

    /// A byte that the run printed. The only error is that memory ran out.
    pub fn take(&mut self, byte: u8) -> Result<(), AllocError> {
        if matches!(self.awaited, Awaited::Printed) {
            self.printed = self.printed.saturating_add(1);
            self.awaited = Awaited::Signal;
            return Ok(());
        }
        self.reductions = self.reductions.saturating_add(REDUCTIONS);
        self.awaited = match self.awaited {
            Awaited::Signal | Awaited::Printed => self.first(byte),
            Awaited::Function(left, number) => self.function(left, number, byte)?,
            Awaited::Mark(number) => {
                self.meet(number.saturating_add(usize::from(byte)));
                Awaited::Signal
            }
            Awaited::Site => {
                self.site = Some(byte);
                Awaited::Signal
            }
            Awaited::Value(number) => self.value(number, byte),
        };
        Ok(())
    }
}
