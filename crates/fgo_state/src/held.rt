// The scans held, as they are lent: from the number of the oldest on.
ghost use Rattle.std.specs.Prelude.{◌≡◌, ◌+◌, ◌≤◌};
ghost use Rattle.bounds.specs.Bounds.{ACCEPTED, SCANS};
ghost use Rattle.fgo_spec.specs.Windows.{window_count};
ghost use Rattle.fgo_state.specs.Memory.{in_window, scans_in};

use crate::scans::Scans;
use engine::types::{RefinedId, ScanIndex};

// The scans held, from the number `first` on: these are numbers of accepted scans.
#[derive(Clone, Copy)]
pub struct HeldRef<'a> {
    pub scans: &'a Scans,
    pub first: ScanIndex,
    pub count: usize,
    pub ghost early: { first.0 + count ≤ ACCEPTED + 1 },
}

impl HeldRef<'_> {
    // Whether a refined id stands in the column of a held scan.
    pub fn windows_in(&self, id: RefinedId) -> bool
        ensures { result ≡ in_window id.0 (scans_in self.now.scans.now.bodies self.now.scans.now.columns self.now.first.0 self.now.count) }
    {
        (self.first.0..self.first.0 + self.count as u64).any(|n| self.scans.holds(ScanIndex(n), id))
    }

    // Detections in windows, of SCANS held scans at most.
    pub fn window_count(&self) -> usize
        requires { self.now.count ≤ SCANS }
        ensures { result ≡ window_count (scans_in self.now.scans.now.bodies self.now.scans.now.columns self.now.first.0 self.now.count) }
    {
        (0..self.count)
            .map(|i| {
                let n = self.first.later(i);
                self.scans.count_in(n, self.scans.count_of(n))
            })
            .sum()
    }
}
