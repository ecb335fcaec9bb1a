// Plays a recording from standard input through the refiner and, with its lag and density, through the smoother, and
// prints each smoothed frame in full: its words, and its numbers. The answers in `stdout` came from the published Rust.
#![tactic(auto)]

use playback::play;
use playback::smoothed::Smoother;

fn main(rt: HostRuntime) {
    play::play_input::<Smoother>(&rt);
}
