//! What a run tells by its signals, one thing after another.

use crate::signals::{
    BYTE, CLEARED, COPIED, ENTERED, FIRST_MARK, FRAME, LEFT, PRINTED, STORED_EIGHT, STORED_FOUR,
    STORED_ONE, STORED_TWO,
};

/// What a run tells.
#[derive(Clone, Copy, Debug, PartialEq, Eq)]
pub enum Event {
    /// The program prints this byte.
    Printed(u8),
    /// The function of this number begins, and its variables stand from this address on.
    Entered(u32, u32),
    /// A function is left.
    Left,
    /// The function comes to its mark of this number.
    Met(u32),
    /// These bytes are written at an address, the lowest first: so many of them.
    Stored(u32, u64, u8),
    /// So many bytes are copied to an address from another.
    Copied(u32, u32, u32),
    /// So many bytes from an address on are set to 0.
    Cleared(u32, u32),
}

/// How many bytes a number in a signal has at most.
const WORD: usize = 4;

/// How many bytes stand in front of the value of what is stored.
const BEFORE_VALUE: usize = 4;

/// How many bits a byte has.
const BITS: u32 = 8;

/// How many bytes a signal that begins so has behind its first.
fn length_of(first: u8) -> usize {
    match first {
        LEFT => 0,
        ENTERED => 3,
        FRAME => 4,
        STORED_ONE => 5,
        STORED_TWO => 6,
        STORED_FOUR | CLEARED => 8,
        STORED_EIGHT | COPIED => 12,
        _ => 1,
    }
}

/// How many reductions a signal that begins so takes, beside those that the program makes itself.
fn reductions_of(first: u8) -> u64 {
    match first {
        PRINTED | LEFT => 2,
        ENTERED => 8,
        FRAME => 22,
        STORED_ONE => 30,
        STORED_TWO => 34,
        STORED_FOUR => 42,
        STORED_EIGHT => 58,
        COPIED => 67,
        CLEARED => 46,
        _ => 4,
    }
}

/// Reads the signals of a run whose modules tell what they write (`with_stores`).
#[derive(Drop)]
pub struct EventReader {
    /// The first byte of the signal that has begun.
    first: Option<u8>,
    /// Its bytes behind the first, so many so far.
    bytes: [u8; 12],
    count: usize,
    /// Where the variables of the next function stand.
    frame: u32,
    /// How many reductions the signals took.
    pub reductions: u64,
}

impl EventReader {
    /// No signal was read.
    pub fn new() -> EventReader {
        EventReader {
            first: None,
            bytes: [0; 12],
            count: 0,
            frame: 0,
            reductions: 0,
        }
    }

    /// Whether a signal has begun that is not whole yet.
    pub fn is_open(&self) -> bool {
        self.first.is_some()
    }

    /// The number in so many bytes from one on, the lowest first.
    fn number(&self, from: usize, count: usize) -> u64 {
        let mut number: u64 = 0;
        for byte in self.bytes.iter().skip(from).take(count).rev() {
            number = number.wrapping_shl(BITS) | u64::from(*byte);
        }
        number
    }

    /// The address or the length that begins with this byte.
    fn word(&self, from: usize) -> u32 {
        u32::try_from(self.number(from, WORD)).unwrap_or(u32::MAX)
    }

    /// The byte of this number.
    fn byte(&self, at: usize) -> u32 {
        self.bytes.get(at).map_or(0, |byte| u32::from(*byte))
    }

    /// What is stored: so many bytes.
    fn stored(&self, count: u8) -> Event {
        let value = self.number(BEFORE_VALUE, usize::from(count));
        Event::Stored(self.word(0), value, count)
    }

    /// The number of the function that begins, the highest byte first.
    fn function(&self) -> u32 {
        let high = self.byte(0).saturating_mul(65536);
        let middle = self.byte(1).saturating_mul(256);
        high.saturating_add(middle).saturating_add(self.byte(2))
    }

    /// What a whole signal tells.
    fn event(&mut self, first: u8) -> Option<Event> {
        match first {
            PRINTED => Some(Event::Printed(self.bytes[0])),
            ENTERED => Some(Event::Entered(self.function(), self.frame)),
            LEFT => Some(Event::Left),
            FRAME => {
                self.frame = self.word(0);
                None
            }
            STORED_ONE => Some(self.stored(1)),
            STORED_TWO => Some(self.stored(2)),
            STORED_FOUR => Some(self.stored(4)),
            STORED_EIGHT => Some(self.stored(8)),
            COPIED => Some(Event::Copied(self.word(0), self.word(4), self.word(8))),
            CLEARED => Some(Event::Cleared(self.word(0), self.word(4))),
            _ => {
                let high = u32::from(first.saturating_sub(FIRST_MARK)).saturating_mul(BYTE as u32);
                Some(Event::Met(high.saturating_add(self.byte(0))))
            }
        }
    }

    /// A byte that the run printed. What the signal tells that it ends, if it ends one that tells something.
    pub fn take(&mut self, byte: u8) -> Option<Event> {
        match self.first {
            None => {
                self.first = Some(byte);
                self.count = 0;
            }
            Some(_) => {
                if let Some(place) = self.bytes.get_mut(self.count) {
                    *place = byte;
                }
                self.count = self.count.saturating_add(1);
            }
        }
        let first = self.first?;
        if self.count < length_of(first) {
            return None;
        }
        self.first = None;
        self.reductions = self.reductions.saturating_add(reductions_of(first));
        self.event(first)
    }
}
