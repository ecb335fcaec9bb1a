// Reads frame bodies from standard input and prints one line for each: the refusal that it gets, and for a body that
// passes its mode, time, numbers of engine tracks, observations, associations and sensors, and for each association
// index, engine id ("-" where it has none) and outcome.
//
// In the input each body stands after its length, two bytes, little-endian. The cases are, in this order:
// - bodies that pass: one with no rows; document 01's example; one with 32 engine tracks, 32 observations, 32
//   associations and 8 sensors; one with every option (a class that is 0, one that is missing, ids 0 and 2^64 - 1,
//   costs that are missing, a number, a NaN and -0.0, an outcome 2 with an id and 0 without, two engine tracks of one
//   id, coordinates -0.0, subnormal and greatest); modes 1 and 2; times 2^62 - 1 and -(2^62 - 1); and the body of which
//   most of those below are made;
// - malformed in one way each: no byte; 15 bytes; a body without its last byte; one with a byte more; 33 engine tracks,
//   observations or associations; 9 sensors; a sensor without engine tracks; each count one too low; each zero byte of
//   the header, of an engine track and of an association set; present byte 2 of a class, an id and a cost; a missing
//   class, id or cost that is not zero, and a missing cost of -0.0; modes and outcomes 3 and 255; times 2^62, -2^62 and
//   the two ends of i64;
// - a NaN, an infinity and a negative infinity in x, y and z of a dot, once of a dot that no association names;
// - an index that is past the observations by one, 255, or 0 where there are none; an index twice, beside each other
//   and apart, and twice without an engine id;
// - two faults in one body: 6 and 7, 5 and 6, 5 and 7.
#![tactic(auto)]

use engine::body::Body;
use engine::little;
use engine::types::{Association, BodyKind};
use std::io;

// Room for the cases.
const CASES: usize = 65536;

fn print_association(rt: &impl Print, a: Association) -> io::Result<()> {
    print!(rt; " {}", a.index.0)?;
    match a.track {
        None => print!(rt; " -")?,
        Some(id) => print!(rt; " {}", id.0)?,
    }
    print!(rt; " {}", u64::from(a.outcome))
}

fn print_associations(rt: &impl Print, b: &Body<'_>) -> io::Result<()> {
    for j in 0..b.association_count() {
        print_association(rt, b.association(j))?;
    }
    Ok(())
}

fn print_frame(rt: &impl Print, b: &Body<'_>) -> io::Result<()> {
    print!(rt; " {}", u64::from(b.mode()))?;
    print!(rt; " {}", b.time())?;
    print!(rt; " {}", b.track_count())?;
    print!(rt; " {}", b.observation_count())?;
    print!(rt; " {}", b.association_count())?;
    print!(rt; " {}", b.sensor_count())?;
    print_associations(rt, b)
}

fn print_body(rt: &impl Print, b: &Body<'_>) -> io::Result<()> {
    match engine_check::check_body(b) {
        Ok(checked) => {
            print!(rt; "0")?;
            print_frame(rt, &checked.body)?;
        }
        Err(refusal) => print!(rt; "{}", u8::from(refusal))?,
    }
    print!(rt; "\n")
}

fn print_bodies(rt: &impl Print, s: &[u8]) -> io::Result<()> {
    let mut at = 0;
    // As it is: a loop by the length that each body has, which no range says. `replay` has its twin, for lengths of
    // four bytes; the two programs share no crate of recordings, and a function of both, with a contract and a
    // definition of a block, would be longer than these ten lines.
    while at < s.len() {
        if s.len() - at < 2 {
            return Ok(());
        }
        let size = little::u16_at(s, at) as usize;
        let from = at + 2;
        if s.len() - from < size {
            return Ok(());
        }
        at = from + size;
        let body = Body {
            kind: BodyKind::Narrow,
            bytes: &s[from..at],
        };
        print_body(rt, &body)?;
    }
    Ok(())
}

fn main(rt: HostRuntime) -> io::Result<()> {
    let mut buffer = [0u8; CASES];
    let (n, _) = console::read_full(&mut rt.stdin(), &mut buffer);
    print_bodies(&rt, &buffer[..n])
}
