// Standard input, read to its end, and text written to standard output. What cannot be read or written is said on
// standard error.
#![tactic(auto)]

ghost use Rattle.std.specs.Prelude.{IsTrue, Some, OnOk};
ghost use Rattle.console.specs.Input.{Within, Exhausts};

use std::io;
use std::io::{Input, Read, Write};

// Room for the system's words on an error.
const REASON: usize = 96;

// What failed, and the system's words for why, without the error's number.
fn fail(rt: &impl Eprint, what: &str, error: io::Error) {
    let mut text = [0u8; REASON];
    let mut rest: &mut [u8] = &mut text;
    let _ = write!(rest, "{error}");
    let n = REASON.saturating_sub(rest.len());
    let words = std::str::from_utf8(&text[..n]).unwrap_or("");
    let reason = words
        .split_once(" (os error ")
        .map_or(words, |(front, _)| front);
    let _ = eprintln!(rt; "{what}: {reason}");
}

// What is read until the input ends, cannot be read or fills the buffer, which may then be longer: so many bytes at the
// front of the buffer, and whether it could be read.
pub fn read_full<R: Read>(input: &mut R, buf: &mut [u8]) -> (usize, io::Result<()>)
    ensures within { Within (Some result.0) buf.new }
    ensures exhausts { OnOk result.1 (Exhausts (R.remaining input.old) (R.remaining input.new) (Some result.0) buf.new) }
{
    let mut n: usize = 0;
    // As it is: a loop by as many bytes as a read gives, which no range says.
    while n < buf.len() {
        match input.read(&mut buf[n..]) {
            Ok(0) => return (n, Ok(())),
            Ok(more) => n += more,
            Err(e) => return (n, Err(e)),
        }
    }
    (n, Ok(()))
}

// The same, unless the input cannot be read, which is said.
pub fn read_from<R: Read>(rt: &impl Eprint, input: &mut R, buf: &mut [u8]) -> Option<usize>
    ensures within { Within result buf.new }
    ensures exhausts { Exhausts (R.remaining input.old) (R.remaining input.new) result buf.new }
{
    match read_full(input, buf) {
        (n, Ok(())) => Some(n),
        (_, Err(e)) => {
            fail(rt, "standard input", e);
            None
        }
    }
}

// Standard input, until it ends or the buffer is full.
pub fn read_all(rt: &(impl Input + Eprint), buf: &mut [u8]) -> Option<usize>
    ensures { Within result buf.new }
{
    read_from(rt, &mut rt.reader(), buf)
}

// ---- standard output

// Bytes, written to standard output; whether they were. What fails is said.
fn written(rt: &(impl Print + Eprint), text: &[u8]) -> bool {
    match rt.write_all(text) {
        Ok(()) => true,
        Err(e) => {
            fail(rt, "standard output", e);
            false
        }
    }
}

// Standard output, which is open until a write fails, and then stays closed.
// As it is: a flag, which says that alone: what failed is told when it does, and kept nowhere.
#[derive(Drop)]
pub struct Console {
    open: bool,
}

impl Console {
    // Standard output, open: nothing has failed yet.
    pub fn new() -> Console
        ensures { IsTrue result.open }
    {
        Console { open: true }
    }

    // A text, written, while it is open: so a failure is said once, and nothing is written after it.
    pub fn write(&mut self, rt: &(impl Print + Eprint), text: &[u8])
        ensures { IsTrue self.new.open → IsTrue self.old.open }
    {
        if self.open {
            self.open = written(rt, text);
        }
    }
}
