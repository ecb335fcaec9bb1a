// What a move does to the gathered ids, and what it counts.
ghost use Rattle.std.specs.Prelude.{◌≡◌, ◌+◌, ◌^◌, ◌<◌, cond, leb, get_or, ℕ, Float};
ghost use Rattle.bounds.specs.Bounds.{SCANS};
ghost use Rattle.fgo_spec.specs.Searching.{best_gain, better, pair_gain, track_gain};
ghost use Rattle.search_rows.specs.Moves.{retarget, become, keeper_target, other_target, pair_targets, track_targets, map_over, has_slot, renamed_from};
ghost use Rattle.search_rows.specs.Moves.{one_more, begun, pair_counters, track_counters, next_id_after, counted};

use crate::starts::StartsRef;
use bounds::{DETECTIONS, SCANS};
use engine::types::{RefinedId, ScanIndex};
use fgo_spec::moves::{FgoCounters, PairMove, TrackMove};

// From here on a number is counted no further: 2^63.
const FULL: u64 = 0x8000_0000_0000_0000;

// One more; a number that is counted no further stays.
fn one_more(n: u64) -> u64
    ensures { result ≡ one_more n }
{
    if n < FULL { n + 1 } else { n }
}

// A candidate for the best move: what it gains, below 0 where it lowers the costs, and what is counted once it is made.
pub trait Candidate: Copy {
    ghost use Rattle.fgo_spec.specs.declared.moves.FgoCounters.{FgoCounters};

    ghost gain_of: { Self → Float };

    ghost counters_of: { Self → FgoCounters → FgoCounters };

    ghost next_id_of: { Self → ℕ → ℕ };

    fn gain(self) -> f64
        ensures { result ≡ gain_of self };

    // The counters after it.
    fn counters(self, k: FgoCounters) -> FgoCounters
        ensures { result ≡ counters_of self k };

    // The next id after it.
    fn next_id(self, n: RefinedId) -> RefinedId
        ensures { result.0 ≡ next_id_of self n.0 };
}

impl Candidate for PairMove {
    ghost gain_of = { pair_gain };

    ghost counters_of = { pair_counters };

    ghost next_id_of = { λ m n. n };

    fn gain(self) -> f64 {
        match self {
            PairMove::Swap { gain, .. } | PairMove::Merge { gain, .. } => gain,
        }
    }

    fn counters(self, k: FgoCounters) -> FgoCounters {
        match self {
            PairMove::Swap { .. } => FgoCounters {
                swaps: one_more(k.swaps),
                ..k
            },
            PairMove::Merge { .. } => FgoCounters {
                merges: one_more(k.merges),
                ..k
            },
        }
    }

    fn next_id(self, n: RefinedId) -> RefinedId {
        n
    }
}

impl Candidate for TrackMove {
    ghost gain_of = { track_gain };

    ghost counters_of = { track_counters };

    ghost next_id_of = { next_id_after };

    fn gain(self) -> f64 {
        match self {
            TrackMove::Split { gain, .. } | TrackMove::Drop { gain, .. } => gain,
        }
    }

    fn counters(self, k: FgoCounters) -> FgoCounters {
        match self {
            TrackMove::Split { .. } => FgoCounters {
                splits: one_more(k.splits),
                ..k
            },
            TrackMove::Drop { .. } => FgoCounters {
                drops: one_more(k.drops),
                ..k
            },
        }
    }

    // The tail of a split takes an id.
    fn next_id(self, n: RefinedId) -> RefinedId {
        match self {
            TrackMove::Split { .. } => RefinedId(one_more(n.0)),
            TrackMove::Drop { .. } => n,
        }
    }
}

// What the best so far gains; 0.0 where there is none.
fn best_gain<M: Candidate>(best: Option<M>) -> f64
    ensures { result ≡ best_gain M.gain_of best }
{
    best.map_or(0.0, |m| m.gain())
}

// The best so far or a candidate, which wins only if its gain is below the best by more than 1e-9.
pub fn better<M: Candidate>(best: Option<M>, m: M) -> Option<M>
    ensures { result ≡ better M.gain_of best m }
{
    if m.gain() < best_gain(best) - 0.000000001 {
        Some(m)
    } else {
        best
    }
}

// What becomes of two ids in one scan; 0 is clutter.
// As it is: the gathered ids are numbers, of which 0 is clutter, as in the published columns that they are put back
// into.
#[derive(Clone, Copy)]
pub struct Targets {
    pub a: RefinedId,
    pub b: RefinedId,
}

// The next id, the moves counted, the passes that ran, and whether the last one made a move.
// As it is: a flag, which says that alone and stands beside no value that it is about.
#[derive(Clone, Copy)]
pub struct Tally {
    pub next_id: RefinedId,
    pub counters: FgoCounters,
    pub passes: u64,
    pub moved: bool,
}

// The ids of scan k, with a and b renamed.
fn rename_scan(
    starts: &StartsRef<'_>,
    k: usize,
    a: RefinedId,
    b: RefinedId,
    t: Targets,
    ids: &mut [u64; DETECTIONS],
)
    requires { k < SCANS }
    ensures { ids.new ≡ map_over (retarget a.0 b.0 t) (get_or starts.now.places.now k 0) (get_or starts.now.places.now (k + 1) 0) ids.old }
{
    for x in &mut ids[starts.places[k]..starts.places[k + 1]] {
        if *x == a.0 {
            *x = t.a.0;
        } else if *x == b.0 {
            *x = t.b.0;
        }
    }
}

// What becomes of the keeper in a scan of a merge; the other has a detection there or not.
fn keeper_target(own: bool, other: bool, k: RefinedId) -> RefinedId
    ensures { result.0 ≡ keeper_target own other k.0 }
{
    if own || !other { k } else { RefinedId(0) }
}

// What becomes of the other in a scan of a merge; the keeper has a detection there or not.
fn other_target(own: bool, keeper: bool, k: RefinedId) -> RefinedId
    ensures { result.0 ≡ other_target own keeper k.0 }
{
    if own && keeper { RefinedId(0) } else { k }
}

// What becomes of two ids in the scan n, if they are exchanged from a cut on.
fn exchanged(cut: ScanIndex, n: ScanIndex, a: RefinedId, b: RefinedId) -> Targets
    ensures { result ≡ cond (leb cut.0 n.0) (become b.0 a.0) (become a.0 b.0) }
{
    if cut <= n {
        Targets { a: b, b: a }
    } else {
        Targets { a, b }
    }
}

// A move, by what becomes of two ids in each scan.
pub trait Renames {
    ghost use Rattle.search_rows.specs.declared.moves.Targets.{Targets};

    ghost targets_of: { Self → ℕ → ℕ → ℕ → ℕ → Targets };

    // What becomes of a and b in the scan at place k, whose number is n.
    fn targets(&self, a: RefinedId, b: RefinedId, k: usize, n: ScanIndex) -> Targets
        requires { k < SCANS }
        ensures { result ≡ targets_of self.now a.0 b.0 k n.0 };
}

// A move of a pair, with the rows of the two.
#[derive(Drop)]
pub struct PairWithRows<'a> {
    pub m: PairMove,
    pub ra: &'a [usize; SCANS],
    pub rb: &'a [usize; SCANS],
}

impl Renames for PairWithRows<'_> {
    ghost targets_of = { λ p a b k n. pair_targets p.m a b n (has_slot p.ra.now k) (has_slot p.rb.now k) };

    fn targets(&self, a: RefinedId, b: RefinedId, k: usize, n: ScanIndex) -> Targets {
        let ha = 0 < self.ra[k];
        let hb = 0 < self.rb[k];
        match self.m {
            PairMove::Swap { cut, .. } => exchanged(cut, n, a, b),
            PairMove::Merge { keeper, own, .. } => {
                if a == keeper {
                    Targets {
                        a: keeper_target(own, hb, a),
                        b: other_target(own, ha, a),
                    }
                } else {
                    Targets {
                        a: other_target(own, hb, b),
                        b: keeper_target(own, ha, b),
                    }
                }
            }
        }
    }
}

// A move of the track a; a new track would be b.
impl Renames for TrackMove {
    ghost targets_of = { λ m a b k n. track_targets m a b n };

    fn targets(&self, a: RefinedId, b: RefinedId, k: usize, n: ScanIndex) -> Targets {
        match *self {
            TrackMove::Split { cut, .. } => exchanged(cut, n, a, b),
            TrackMove::Drop { scan, .. } => Targets {
                a: if scan == n { RefinedId(0) } else { a },
                b,
            },
        }
    }
}

// A move of a and b, in every scan. It asks for scan numbers below 2^33.
pub fn apply<M: Renames>(
    m: &M,
    first: ScanIndex,
    a: RefinedId,
    b: RefinedId,
    starts: &StartsRef<'_>,
    ids: &mut [u64; DETECTIONS],
)
    requires { first.0 < 2 ^ 33 }
    ensures { ids.new ≡ renamed_from starts.now.places.now a.0 b.0 (λ k. M.targets_of m.now a.0 b.0 k (first.0 + k)) 0 SCANS ids.old }
{
    for k in 0..SCANS {
        let t = m.targets(a, b, k, first.later(k));
        rename_scan(starts, k, a, b, t, ids);
    }
}

impl Tally {
    // A pass begins.
    pub fn begin(self) -> Tally
        ensures { result ≡ begun self }
    {
        Tally {
            passes: one_more(self.passes),
            moved: false,
            ..self
        }
    }

    // A move was made.
    pub fn count<M: Candidate>(self, m: M) -> Tally
        ensures { result ≡ counted (M.counters_of m) (M.next_id_of m) self }
    {
        Tally {
            next_id: m.next_id(self.next_id),
            counters: m.counters(self.counters),
            moved: true,
            ..self
        }
    }
}
