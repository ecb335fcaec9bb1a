// Plays a recording from standard input through the refiner and prints each emitted frame in short: document 01,
// "Recording and print".
#![tactic(auto)]

use playback::play;
use playback::sink::Short;

fn main(rt: HostRuntime) {
    play::play_input::<Short>(&rt);
}
