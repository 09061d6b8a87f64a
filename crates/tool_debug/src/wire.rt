//! Messages of an editor, in and out.

use anyhow::Result;
use debug_protocol::{Outgoing, Request, read_request};
use serve_messages::{Frame, Framer, framed};
use std::alloc::Global;
use std::io::Read;
use tool_output::say_output_fault;
use tool_words::PROGRAM;

/// How many bytes are asked for at once.
const CHUNK: usize = 65536;

/// The streams of an editor.
#[derive(Drop)]
pub struct Wire<I, P> {
    alloc: Global,
    input: I,
    out: P,
    framer: Framer,
    chunk: Vec<u8>,
    /// What came and was not taken yet, the last one first.
    frames: Vec<Frame>,
}

impl<I: Read + Drop, P: Print + Drop> Wire<I, P> {
    /// Streams over which nothing went yet. An error if memory ran out.
    pub fn new(alloc: Global, input: I, out: P) -> Result<Wire<I, P>> {
        let mut chunk = Vec::new(alloc);
        chunk.resize(CHUNK, 0)?;
        Ok(Wire {
            alloc,
            input,
            out,
            framer: Framer::new(alloc),
            chunk,
            frames: Vec::new(alloc),
        })
    }
}

impl<I: Read, P: Print> Wire<I, P> {
    /// Reads more. False if there is nothing more, which is said if reading failed.
    fn read_more<R: Eprint>(&mut self, rt: &R) -> Result<bool> {
        let count = match self.input.read(&mut self.chunk) {
            Ok(count) => count,
            Err(error) => {
                let _ = eprintln!(rt; "{PROGRAM}: standard input: {error}");
                return Ok(false);
            }
        };
        let bytes = self.chunk.get(..count).unwrap_or(&[]);
        self.framer.feed(bytes, &mut self.frames)?;
        self.frames.reverse();
        Ok(count > 0)
    }

    /// The next request. Nothing if there are no more. What is no request is passed over.
    pub fn next_request<R: Eprint>(&mut self, rt: &R) -> Result<Option<Request>> {
        for _ in 0..u64::MAX {
            match self.frames.pop() {
                None => {
                    if !self.read_more(rt)? {
                        return Ok(None);
                    }
                }
                Some(Frame::Broken(_)) => {}
                Some(Frame::Message(body)) => {
                    let request = read_request(self.alloc, &body)?;
                    if request.is_some() {
                        return Ok(request);
                    }
                }
            }
        }
        Ok(None)
    }

    /// Writes what goes out. False, with a sentence, if that failed.
    pub fn write<R: Eprint>(&mut self, rt: &R, out: &mut Outgoing) -> Result<bool> {
        for body in &out.take() {
            let message = framed(self.alloc, body)?;
            if let Err(error) = self.out.write_all(&message) {
                say_output_fault(rt, &error);
                return Ok(false);
            }
        }
        Ok(true)
    }
}
