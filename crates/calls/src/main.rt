// Plays a list of calls of a refiner and of a smoother from standard input and prints each answer: README, "Calls by
// hand".
#![tactic(auto)]

mod calling;

use bounds::{CALLS, TEXT};
use calling::Desk;
use console::Console;
use print::lines;

// A list of the greatest length, and one byte that tells a longer one.
const INPUT: usize = CALLS + 1;

// Room for the line of a bad call.
const BAD: usize = 16;

// The calls of a list that is not too long, one after the other; a bad one ends it.
fn play(rt: &(impl Print + Eprint), s: &[u8]) {
    let mut desk = Desk::new();
    let mut out = [0u8; TEXT];
    let mut console = Console::new();
    let mut at: usize = 0;
    // As it is: a loop by the length that each call has, which no range says.
    while at < s.len() {
        let n = calls_input::next_at(s, at);
        let end = calling::call(&mut desk, n.call, &s[n.from..n.end], &mut out);
        console.write(rt, &out[..end]);
        if n.call.is_none() {
            return;
        }
        at = n.end;
    }
}

// A bad call alone.
fn print_bad(rt: &(impl Print + Eprint)) {
    let mut out = [0u8; BAD];
    let end = lines::put_bad(&mut out);
    let mut console = Console::new();
    console.write(rt, &out[..end]);
}

fn main(rt: HostRuntime) {
    let mut buffer = [0u8; INPUT];
    if let Some(n) = console::read_all(&rt, &mut buffer) {
        if CALLS < n {
            print_bad(&rt);
        } else {
            play(&rt, &buffer[..n]);
        }
    }
}
