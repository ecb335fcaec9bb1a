// Plays a recording from standard input through the refiner and prints each emitted frame in full: its words, and its
// numbers.
#![tactic(auto)]

use playback::play;
use playback::sink::Full;

fn main(rt: HostRuntime) {
    play::play_input::<Full>(&rt);
}
