// The moves of the search, each with its gain, and their counters.
use engine::types::{RefinedId, ScanIndex};

// A move of a pair of tracks.
// As it is, here and in `TrackMove`: the gain stands in each variant. With a struct of a move and its gain, each
// definition of the search that makes a move or reads one would name that struct too, which is no plainer.
#[derive(Clone, Copy)]
pub enum PairMove {
    // From the cut on the two exchange their windows.
    Swap {
        cut: ScanIndex,
        gain: f64,
    },
    // The keeper takes over the other's window; in the scans that both have, its own detections are kept, or else the
    // other's.
    Merge {
        keeper: RefinedId,
        own: bool,
        gain: f64,
    },
}

// A move of one track.
#[derive(Clone, Copy)]
pub enum TrackMove {
    // From the cut on the window goes to a new track.
    Split { cut: ScanIndex, gain: f64 },
    // The detection of one scan becomes clutter.
    Drop { scan: ScanIndex, gain: f64 },
}

// Moves made so far.
#[derive(Clone, Copy)]
pub struct FgoCounters {
    pub swaps: u64,
    pub merges: u64,
    pub splits: u64,
    pub drops: u64,
}
