// Output buffers for the frames of refiner and smoother.
ghost use Rattle.std.specs.Prelude.{◌≡◌};
ghost use Rattle.playback.specs.Told.{empty_buffers};

use bounds::{NUMBERS, WORDS};

// Output buffers with room for the longest frame.
#[derive(Drop)]
pub struct FrameBuffers {
    pub words: [u64; WORDS],
    pub numbers: [f64; NUMBERS],
}

impl FrameBuffers {
    // All zero.
    pub fn new() -> FrameBuffers
        ensures { result ≡ empty_buffers }
    {
        FrameBuffers {
            words: [0; WORDS],
            numbers: [0.0; NUMBERS],
        }
    }
}
