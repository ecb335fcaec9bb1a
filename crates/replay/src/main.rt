// Plays recordings from standard input, one after the other, each twice: it prints each emitted frame in full, then in
// short. Each recording stands after its length, four bytes, little-endian. The sample and its answers are
// oracle/sample's; the answers came from the published Rust.
#![tactic(auto)]

use engine::little;
use playback::play;
use playback::sink::{Full, Short};

// Room for the sample.
const SAMPLE: usize = 262144;

// A recording, played in full, then in short.
fn both(rt: &(impl Print + Eprint), s: &[u8]) {
    play::play::<Full>(rt, s);
    play::play::<Short>(rt, s);
}

fn play_all(rt: &(impl Print + Eprint), s: &[u8]) {
    let mut at = 0;
    // As it is: a loop by the length that each recording has, which no range says. `replay_bodies` has its twin, for
    // lengths of two bytes; the two programs share no crate of recordings, and a function of both, with a contract and
    // a definition of a block, would be longer than these ten lines.
    while at < s.len() {
        if s.len() - at < 4 {
            return;
        }
        let size = little::u32_at(s, at) as usize;
        let from = at + 4;
        if s.len() - from < size {
            return;
        }
        at = from + size;
        both(rt, &s[from..at]);
    }
}

fn main(rt: HostRuntime) {
    let mut buffer = [0u8; SAMPLE];
    if let Some(n) = console::read_all(&rt, &mut buffer) {
        play_all(&rt, &buffer[..n]);
    }
}
