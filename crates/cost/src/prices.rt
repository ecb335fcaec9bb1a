// What prices windows.
ghost use Rattle.std.specs.Prelude.{◌^◌, ◌<◌};

use bounds::DETECTIONS;
use engine::config::FgoConfig;
use engine::types::ScanIndex;
use kf::filter::Dot;

// The settings, the number of the oldest scan held, which is far from where a word ends, and the dots.
#[derive(Clone, Copy)]
pub struct Prices<'a> {
    pub config: FgoConfig,
    pub first: ScanIndex,
    pub dots: &'a [Dot; DETECTIONS],
    pub ghost early: { first.0 < 2 ^ 33 },
}
