//! Messages in a stream of bytes.

use std::alloc::{AllocError, Global};
use std::mem;

/// The most bytes of a message.
pub const MAX_MESSAGE: usize = 67_108_864;

/// The most bytes of a line of a header.
const MAX_LINE: usize = 4096;

/// How many digits there are.
const BASE: usize = 10;

/// The name of the line that says how many bytes a message has.
const LENGTH_NAME: &[u8] = b"content-length";

/// Why bytes of a stream are no message.
#[derive(Clone, Copy, Debug, PartialEq, Eq)]
pub enum FrameFault {
    /// A line of a header has no colon, or is longer than 4096 bytes, or its length is no number.
    NoHeader,
    /// A header has no length.
    NoLength,
    /// A message has more bytes than `MAX_MESSAGE`. They were passed over.
    TooLong,
}

impl FrameFault {
    /// The fault in a sentence.
    pub fn words(self) -> &'static str {
        match self {
            FrameFault::NoHeader => "this is no header of a message",
            FrameFault::NoLength => "the header has no Content-Length",
            FrameFault::TooLong => "the message is longer than 67108864 bytes",
        }
    }
}

/// What stands in a stream.
#[derive(Debug, Drop)]
pub enum Frame {
    /// The bytes of a message, without its header.
    Message(Vec<u8>),
    /// Bytes that are no message. The next message is found, once a line with a length comes.
    Broken(FrameFault),
}

/// What is read next.
#[derive(Clone, Copy)]
enum Stage {
    /// A line of a header.
    Header,
    /// So many bytes of a message, one at least.
    Body(usize),
    /// So many bytes of a message that is too long.
    Passed(usize),
}

/// Finds messages in bytes that come piece by piece.
#[derive(Drop)]
pub struct Framer {
    alloc: Global,
    stage: Stage,
    /// The line of the header as far as it came.
    line: Vec<u8>,
    /// The message as far as it came.
    body: Vec<u8>,
    /// The length that the header has named.
    length: Option<usize>,
    /// Whether something was broken behind the last length: then a length may also stand at the end of a line.
    is_lost: bool,
}

/// The number that these digits write, or nothing if they are none or the number is too great.
fn number_of(digits: &[u8]) -> Option<usize> {
    let mut number: usize = 0;
    for digit in digits {
        if !digit.is_ascii_digit() {
            return None;
        }
        let value = usize::from(digit.saturating_sub(b'0'));
        number = number.checked_mul(BASE)?.checked_add(value)?;
    }
    if digits.is_empty() {
        None
    } else {
        Some(number)
    }
}

/// The part of a name that is compared with `LENGTH_NAME`: its end, if what stands before it was lost.
fn compared_part(name: &[u8], is_lost: bool) -> &[u8] {
    let front = name.len().saturating_sub(LENGTH_NAME.len());
    if is_lost {
        name.get(front..).unwrap_or(name)
    } else {
        name
    }
}

/// The two sides of the last colon of a line, without blanks around them.
fn sides_of(line: &[u8]) -> Option<(&[u8], &[u8])> {
    let at = line.iter().rposition(|byte| *byte == b':')?;
    let name = line.get(..at)?;
    let value = line.get(at.saturating_add(1)..)?;
    Some((name.trim_ascii(), value.trim_ascii()))
}

impl Framer {
    /// Nothing has been read yet.
    pub fn new(alloc: Global) -> Framer {
        Framer {
            alloc,
            stage: Stage::Header,
            line: Vec::new(alloc),
            body: Vec::new(alloc),
            length: None,
            is_lost: false,
        }
    }

    /// Takes bytes that were read, and adds what is whole with them to `frames`.
    pub fn feed(&mut self, bytes: &[u8], frames: &mut Vec<Frame>) -> Result<(), AllocError> {
        for byte in bytes {
            self.take(*byte, frames)?;
        }
        Ok(())
    }

    /// Takes a byte.
    fn take(&mut self, byte: u8, frames: &mut Vec<Frame>) -> Result<(), AllocError> {
        match self.stage {
            Stage::Header => self.take_header(byte, frames),
            Stage::Body(left) => self.take_body(byte, left, frames),
            Stage::Passed(left) => self.pass(left, frames),
        }
    }

    /// Takes a byte of a message of which so many are still to come.
    fn take_body(
        &mut self,
        byte: u8,
        left: usize,
        frames: &mut Vec<Frame>,
    ) -> Result<(), AllocError> {
        self.body.push(byte)?;
        if left > 1 {
            self.stage = Stage::Body(left.saturating_sub(1));
            return Ok(());
        }
        self.stage = Stage::Header;
        let body = mem::replace(&mut self.body, Vec::new(self.alloc));
        frames.push(Frame::Message(body))?;
        Ok(())
    }

    /// Passes over a byte of a message that is too long.
    fn pass(&mut self, left: usize, frames: &mut Vec<Frame>) -> Result<(), AllocError> {
        if left > 1 {
            self.stage = Stage::Passed(left.saturating_sub(1));
            return Ok(());
        }
        self.stage = Stage::Header;
        frames.push(Frame::Broken(FrameFault::TooLong))?;
        Ok(())
    }

    /// Takes a byte of a header.
    fn take_header(&mut self, byte: u8, frames: &mut Vec<Frame>) -> Result<(), AllocError> {
        if byte == b'\n' {
            return self.end_line(frames);
        }
        if self.line.len() >= MAX_LINE {
            self.line.clear();
            self.lose(FrameFault::NoHeader, frames)?;
        }
        self.line.push(byte)?;
        Ok(())
    }

    /// Says that something is broken, once for each place from which no message is found.
    fn lose(&mut self, fault: FrameFault, frames: &mut Vec<Frame>) -> Result<(), AllocError> {
        if !self.is_lost {
            frames.push(Frame::Broken(fault))?;
        }
        self.is_lost = true;
        self.length = None;
        Ok(())
    }

    /// Looks at a whole line of a header.
    fn end_line(&mut self, frames: &mut Vec<Frame>) -> Result<(), AllocError> {
        let line = mem::replace(&mut self.line, Vec::new(self.alloc));
        if line.trim_ascii().is_empty() {
            return self.end_header(frames);
        }
        let Some((name, value)) = sides_of(&line) else {
            return self.lose(FrameFault::NoHeader, frames);
        };
        if !compared_part(name, self.is_lost).eq_ignore_ascii_case(LENGTH_NAME) {
            return Ok(());
        }
        match number_of(value) {
            Some(length) => {
                self.length = Some(length);
                self.is_lost = false;
                Ok(())
            }
            None => self.lose(FrameFault::NoHeader, frames),
        }
    }

    /// Goes on behind a header.
    fn end_header(&mut self, frames: &mut Vec<Frame>) -> Result<(), AllocError> {
        match self.length.take() {
            None => self.lose(FrameFault::NoLength, frames),
            Some(0) => {
                frames.push(Frame::Message(Vec::new(self.alloc)))?;
                Ok(())
            }
            Some(length) => {
                self.stage = if length > MAX_MESSAGE {
                    Stage::Passed(length)
                } else {
                    Stage::Body(length)
                };
                Ok(())
            }
        }
    }
}
