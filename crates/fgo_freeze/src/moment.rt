// The moment that ages are told at.
#![tactic(auto)]

ghost use Rattle.std.specs.Prelude.{◌≡◌, true, ◌<◌, ◌-ℤ◌};
ghost use Rattle.bounds.specs.Bounds.{FROZEN};
ghost use Rattle.engine.specs.Body.{time_ok};
ghost use Rattle.fgo_part.specs.Parts.{part_last_ns};

use bounds::PARTS;
use engine::config::FgoConfig;
use fgo_part::part_last_ns;

// The time of a frame, which is in bounds, and the settings that say how old what is listed or kept may be.
#[derive(Clone, Copy)]
pub struct Moment {
    pub config: FgoConfig,
    pub time: i64,
    pub ghost near: { time_ok time ≡ true },
}

impl Moment {
    // The age of what was seen last at a time, which must be in bounds.
    pub fn age_of(self, last: i64) -> i64
        requires { time_ok last ≡ true }
        ensures { result ≡ self.time -ℤ last }
    {
        self.time - last
    }

    // The age of frozen part k, whose time must be in bounds.
    pub fn part_age(self, tracks: &[u64; PARTS], k: usize) -> i64
        requires { (k < FROZEN) × (time_ok (part_last_ns tracks.now k) ≡ true) }
        ensures { result ≡ self.time -ℤ part_last_ns tracks.now k }
    {
        self.age_of(part_last_ns(tracks, k))
    }
}
