// The refiner's settings.
ghost use Rattle.std.specs.Prelude.{◌≡◌};
ghost use Rattle.engine.specs.Config.{legal, defaults, position_variance};

use bounds::{LAG, PASSES};
use scalar::bits;

// What the refiner is opened with: how long it holds scans back, what its costs are, how tracks move, and when they are
// forgotten.
#[derive(Clone, Copy)]
pub struct FgoConfig {
    // Scans held back; a scan is emitted this many scans late.
    pub lag_frames: usize,
    // Two tracks are compared where their detections come this close, in metres.
    pub radius_m: f64,
    // Cost of starting a track.
    pub birth_cost: f64,
    // Cost of each scan in which a track has no detection, between its first and its last.
    pub miss_cost: f64,
    // Cost of a detection that belongs to no track.
    pub clutter_cost: f64,
    // Acceleration spectral density of the motion, in m²/s³.
    pub accel_spectral_density: f64,
    // Standard deviation of a detection's position, in metres.
    pub position_sigma_m: f64,
    // Variance of a new track's speed, in m²/s².
    pub initial_velocity_variance: f64,
    // A track is listed for this long after its last detection.
    pub coast_ns: i64,
    // A track without detections for longer than this is forgotten.
    pub forget_after_ns: i64,
    // The most passes of the search at one push.
    pub max_passes: usize,
}

impl Default for FgoConfig {
    ghost is_default = { λ c. c ≡ defaults };

    fn default() -> FgoConfig {
        FgoConfig {
            lag_frames: 10,
            radius_m: 1.5,
            birth_cost: 25.0,
            miss_cost: 0.3,
            clutter_cost: 30.0,
            accel_spectral_density: 0.5,
            position_sigma_m: 0.25,
            initial_velocity_variance: 1.0,
            coast_ns: 500000000,
            forget_after_ns: 2000000000,
            max_passes: 20,
        }
    }
}

impl FgoConfig {
    // The variance of a detection's position.
    pub fn position_variance(self) -> f64
        ensures { result ≡ position_variance self }
    {
        self.position_sigma_m * self.position_sigma_m
    }

    // Every setting is in bounds and finite: else refusal 1.
    pub fn is_legal(self) -> bool
        ensures { result ≡ legal self }
    {
        self.lag_frames <= LAG
            && self.max_passes <= PASSES
            && bits::is_finite(self.radius_m)
            && bits::is_finite(self.birth_cost)
            && bits::is_finite(self.miss_cost)
            && bits::is_finite(self.clutter_cost)
            && bits::is_finite(self.accel_spectral_density)
            && bits::is_finite(self.position_sigma_m)
            && bits::is_finite(self.initial_velocity_variance)
    }
}
