// The cost of a window of detections: a left fold over them, and a close.
#![tactic(auto)]

ghost use Rattle.std.specs.Prelude.{◌≡◌, ◌+◌, ◌^◌, ◌<◌};
ghost use Rattle.cost.specs.Cost.{dot_at, gap, added, born, resumed, closed, measurement_of};

pub mod logs;
pub mod prices;

use bounds::DETECTIONS;
use engine::config::FgoConfig;
use engine::types::ScanIndex;
use kf::filter::{Dot, Kf, Updated};
use logs::Logs;

// Where the fold over a window stands.
#[derive(Clone, Copy)]
pub enum Fold {
    // Nothing yet, and no frozen part.
    Fresh,
    // Nothing yet, after a frozen part: its filter and its last scan.
    Frozen { kf: Kf, last: ScanIndex },
    // After a detection.
    Going(Sums),
}

// The filter after the last detection, the NLLs so far, the last detection's scan, and the scans without a detection.
#[derive(Clone, Copy)]
pub struct Sums {
    pub kf: Kf,
    pub total: f64,
    pub last: ScanIndex,
    pub misses: u64,
}

// Dot i, counted round.
pub fn dot_at(dots: &[Dot; DETECTIONS], i: usize) -> Dot
    ensures { result ≡ dot_at dots.now i }
{
    dots[i % DETECTIONS]
}

// The scans skipped between two.
pub fn skipped(scan: ScanIndex, last: ScanIndex) -> u64
    ensures { result ≡ gap scan.0 last.0 }
{
    scan.0.saturating_sub(last.0).saturating_sub(1)
}

// A window that starts with a detection.
pub fn born_at(c: FgoConfig, scan: ScanIndex, d: Dot) -> Sums
    ensures { result ≡ born c (measurement_of scan d) }
{
    let kf = Kf::start(d, c.initial_velocity_variance);
    Sums {
        kf,
        total: c.birth_cost,
        last: scan,
        misses: 0,
    }
}

// What goes on from a frozen part.
pub fn resume(kf: Kf, last: ScanIndex) -> Sums
    ensures { result ≡ resumed kf last }
{
    Sums {
        kf,
        total: 0.0,
        last,
        misses: 0,
    }
}

impl Sums {
    // Predict to the detection's time, update with its position, and add its NLL; the scans skipped since the last are
    // misses. q is the acceleration spectral density. It asks for a count of misses that stays below 2^64.
    pub fn add(self, q: f64, scan: ScanIndex, d: Dot, logs: &mut Logs) -> Sums
        requires { self.misses + scan.0 < 2 ^ 64 }
        ensures { result ≡ added q self (measurement_of scan d) }
    {
        let p = self.kf.predict(d.t, q);
        let l = logs.log_of(p.p00 + d.r);
        let Updated { kf, nll } = p.update_by(d, l);
        Sums {
            kf,
            total: self.total + nll,
            last: scan,
            misses: self.misses + skipped(scan, self.last),
        }
    }
}

impl Fold {
    // The cost of the window that was folded.
    pub fn close(&self, c: FgoConfig) -> f64
        ensures { result ≡ closed c self.now }
    {
        match *self {
            Fold::Fresh | Fold::Frozen { .. } => 0.0,
            Fold::Going(r) => r.total + std::num::nearest_u64_to_f64(r.misses) * c.miss_cost,
        }
    }
}
