// A first program: one frame, document 01's example, goes through a refiner, and what comes out is printed.
#![tactic(auto)]

use bounds::{NUMBERS, TEXT, WORDS};
use console::Console;
use engine::body::Body;
use engine::config::FgoConfig;
use engine::types::BodyKind;
use fgo_state::state::Memory;
use print::answer_ref::AnswerRef;
use print::answers;

// The frame's body: README.md, "Formats".
const FRAME: [u8; 64] = [
    0, 0, 1, 1, 0, 0, 0, 0, 0, 0, 0, 0, 0, 0, 0, 0, // one dot, one association, time 0
    0, 0, 0, 0, 0, 0, 0xf0, 0x3f, 0, 0, 0, 0, 0, 0, 0, 0x40, // x 1, y 2
    0, 0, 0, 0, 0, 0, 0xe0, 0x3f, 0, 1, 1, 0, 0, 0, 0, 0, // height 0.5; dot 0, with an id, spawned
    7, 0, 0, 0, 0, 0, 0, 0, 0, 0, 0, 0, 0, 0, 0, 0, // engine id 7, no cost
];

fn main(rt: HostRuntime) {
    let config = FgoConfig {
        lag_frames: 0,
        ..FgoConfig::default()
    };
    let mut memory = Memory::new();
    let Ok(mut refiner) = fgo::open(config, &mut memory) else {
        return;
    };
    let body = Body {
        kind: BodyKind::Narrow,
        bytes: &FRAME,
    };
    let mut words = [0; WORDS];
    let mut numbers = [0.0; NUMBERS];
    let answer = fgo::push(&mut refiner, &body, &mut memory, &mut words, &mut numbers);
    let shown = AnswerRef {
        answer,
        words: &words,
        numbers: &numbers,
    };
    let mut text = [0; TEXT];
    let end = answers::put_short(&mut text, &shown);
    Console::new().write(&rt, &text[..end]);
}
