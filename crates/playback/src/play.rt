// A recording, played and printed, with a smoother or without; last come the counters.
ghost use Rattle.playback.specs.Played.{Fresh, Played};

use crate::sink::Sink;
use crate::steps::Player;
use bounds::RECORDING;
use console::Console;
use fgo_state::state::Memory;
use print::lines;
use refusals::Refusal;

// A recording of the greatest length, and one byte that tells a longer one.
const INPUT: usize = RECORDING + 1;

// Room for the line of a refusal.
const REFUSED: usize = 32;

// The line of a refusal alone.
#[tactic(auto, using(print::proofs::Fitting::ready, print::proofs::Fitting::refused_few))]
fn print_refusal(rt: &(impl Print + Eprint), refusal: Refusal) {
    let mut out = [0u8; REFUSED];
    let n = lines::put_refused(&mut out, 0, refusal);
    let mut console = Console::new();
    console.write(rt, &out[..n]);
}

// A recording of n frames, played from this start: all the frames, then what a smoother holds, then the counters.
fn run<S: Sink>(rt: &(impl Print + Eprint), s: &[u8], n: usize, player: &mut Player<S>)
    requires fresh { Fresh player.old.refiner }
    requires opened { S.opened_of player.old.refiner.config player.old.sink }
    ensures { Played S.emptied_of s.now n player.old.refiner player.new }
{
    player.push_all(rt, s, n);
    player.take_all(rt);
    player.take_rest(rt);
    player.print_counters(rt);
}

// ---- a recording

// A recording, played, its frames printed as the sink has it; or what it is refused for: 11, 12, 1 or what the sink is
// refused for.
fn try_play<S: Sink>(rt: &(impl Print + Eprint), s: &[u8]) -> Result<(), Refusal> {
    let start = recording::contents_of(s)?;
    let mut memory = Memory::new();
    let refiner = fgo::open(start.config, &mut memory)?;
    let mut player = Player::new(refiner, memory, S::new());
    player.sink.open(refiner.config)?;
    run(rt, s, start.count, &mut player);
    Ok(())
}

// The same, its refusal printed too.
pub fn play<S: Sink>(rt: &(impl Print + Eprint), s: &[u8]) {
    if let Err(refusal) = try_play::<S>(rt, s) {
        print_refusal(rt, refusal);
    }
}

// The recording on standard input, played.
pub fn play_input<S: Sink>(rt: &(impl Input + Print + Eprint)) {
    let mut buffer = [0u8; INPUT];
    if let Some(n) = console::read_all(rt, &mut buffer) {
        play::<S>(rt, &buffer[..n]);
    }
}
