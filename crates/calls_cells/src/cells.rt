// A refiner and a smoother as cells: their fields as words, in the order of README's table, and back.
ghost use Rattle.std.specs.Prelude.{◌≡◌, ◌<◌, ◌≤◌, ℕ, List, set};
ghost use Rattle.bounds.specs.Bounds.{REFINER};
ghost use Rattle.calls_cells.specs.Cells.{refiner_fields, config_of, refiner_of, smoother_fields, smoother_of};

use bounds::{REFINER, SMOOTHER};
use engine::config::FgoConfig;
use engine::types::{RefinedId, ScanIndex};
use fgo_spec::moves::FgoCounters;
use fgo_state::state::FixedLagRefiner;
use scalar::bits;
use smoother_window::{FixedLagSmoother, SmootherConfig};

// What is kept as so many words: its fields, in that order, and back.
pub trait Fields<const N: usize>: Copy {
    ghost words: { Self → List ℕ };

    ghost of_words: { List ℕ → Self };

    // The fields.
    fn fields(self) -> [u64; N]
        ensures { result ≡ words self };

    // What has such fields.
    fn of(f: &[u64; N]) -> Self
        ensures { result ≡ of_words f.now };

    // One of them, written; there are no more than a refiner has.
    fn write_field(&mut self, index: usize, value: u64)
        requires { (index < N) × (N ≤ REFINER) }
        ensures { self.new ≡ of_words (set (words self.old) index value) }
    {
        let mut fields = self.fields();
        fields[index] = value;
        *self = Self::of(&fields);
    }
}

// The settings of such fields.
// As it is: a list of all eleven, as recording's `settings_of` has it of bytes: why is said there.
#[tactic(auto, unfolding(crate::specs::Cells::config_of))]
fn config_of(f: &[u64; REFINER]) -> FgoConfig
    ensures { result ≡ config_of f.now }
{
    FgoConfig {
        lag_frames: f[0] as usize,
        radius_m: bits::from_bits(f[1]),
        birth_cost: bits::from_bits(f[2]),
        miss_cost: bits::from_bits(f[3]),
        clutter_cost: bits::from_bits(f[4]),
        accel_spectral_density: bits::from_bits(f[5]),
        position_sigma_m: bits::from_bits(f[6]),
        initial_velocity_variance: bits::from_bits(f[7]),
        coast_ns: bits::from_word(f[8]),
        forget_after_ns: bits::from_word(f[9]),
        max_passes: f[10] as usize,
    }
}

impl Fields<REFINER> for FixedLagRefiner {
    ghost words = { refiner_fields };

    ghost of_words = { refiner_of };

    #[tactic(auto, unfolding(crate::specs::Cells::refiner_fields))]
    fn fields(self) -> [u64; REFINER] {
        let c = self.config;
        [
            c.lag_frames as u64,
            bits::to_bits(c.radius_m),
            bits::to_bits(c.birth_cost),
            bits::to_bits(c.miss_cost),
            bits::to_bits(c.clutter_cost),
            bits::to_bits(c.accel_spectral_density),
            bits::to_bits(c.position_sigma_m),
            bits::to_bits(c.initial_velocity_variance),
            bits::to_word(c.coast_ns),
            bits::to_word(c.forget_after_ns),
            c.max_passes as u64,
            self.first.0,
            self.held as u64,
            self.frozen as u64,
            self.owned as u64,
            self.next_id.0,
            self.counters.swaps,
            self.counters.merges,
            self.counters.splits,
            self.counters.drops,
        ]
    }

    #[tactic(auto, unfolding(crate::specs::Cells::refiner_of))]
    fn of(f: &[u64; REFINER]) -> FixedLagRefiner {
        let config = config_of(f);
        let counters = FgoCounters {
            swaps: f[16],
            merges: f[17],
            splits: f[18],
            drops: f[19],
        };
        FixedLagRefiner {
            config,
            first: ScanIndex(f[11]),
            held: f[12] as usize,
            frozen: f[13] as usize,
            owned: f[14] as usize,
            next_id: RefinedId(f[15]),
            counters,
        }
    }
}

impl Fields<SMOOTHER> for FixedLagSmoother {
    ghost words = { smoother_fields };

    ghost of_words = { smoother_of };

    #[tactic(auto, unfolding(crate::specs::Cells::smoother_fields))]
    fn fields(self) -> [u64; SMOOTHER] {
        [
            self.config.lag_frames as u64,
            bits::to_bits(self.config.accel_spectral_density),
            self.config.max_tracks as u64,
            self.first as u64,
            self.held as u64,
        ]
    }

    #[tactic(auto, unfolding(crate::specs::Cells::smoother_of))]
    fn of(f: &[u64; SMOOTHER]) -> FixedLagSmoother {
        let config = SmootherConfig {
            lag_frames: f[0] as usize,
            accel_spectral_density: bits::from_bits(f[1]),
            max_tracks: f[2] as usize,
        };
        FixedLagSmoother {
            config,
            first: f[3] as usize,
            held: f[4] as usize,
        }
    }
}
