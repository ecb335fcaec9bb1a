// The best move of one row.
#![tactic(auto)]

ghost use Rattle.std.specs.Prelude.{◌≡◌, ◌^◌, ◌≤◌, ◌<◌, length};
ghost use Rattle.bounds.specs.Bounds.{SCANS};
ghost use Rattle.cost.specs.Cost.{misses_of, view_in};
ghost use Rattle.search_track.specs.Track.{marks, frozen_one, better_split, drop_gain, best_split_row, DropGains, best_drop_by, best_track_row};

use bounds::SCANS;
use cost::Fold;
use cost::logs::Logs;
use cost::prices::Prices;
use cost_row::window::Window;
use engine::types::ScanIndex;
use fgo_spec::moves::TrackMove;
use search_rows::moves::better;

// The best so far or the split before scan k, by the fold f over the row before it.
fn better_split(
    prices: &Prices<'_>,
    w: &Window<'_>,
    best: Option<TrackMove>,
    f: &Fold,
    k: usize,
    logs: &mut Logs,
) -> Option<TrackMove>
    requires { k ≤ SCANS }
    ensures { result ≡ better_split prices.now.config (view_in prices.now) best f.now w.now.row.slots.now k w.now.cost }
{
    let tail = cost_row::rest_cost(prices, &Fold::Fresh, &w.row, k, logs);
    let gain = f.close(prices.config) + tail - w.cost;
    let cut = prices.first.later(k);
    better(best, TrackMove::Split { cut, gain })
}

// What the drop of the detection in scan k gains, by the fold f over the row before it.
fn drop_gain(prices: &Prices<'_>, w: &Window<'_>, f: &Fold, k: usize, logs: &mut Logs) -> f64
    requires { (misses_of f.now < 2 ^ 58) × (k < SCANS) }
    ensures { result ≡ drop_gain prices.now.config (view_in prices.now) f.now w.now.row.slots.now k w.now.cost }
{
    cost_row::rest_cost(prices, f, &w.row, k + 1, logs) + prices.config.clutter_cost - w.cost
}

// The best split, after the first detection, the second and so on, so before each detection but the first; and for each
// detection what its drop gains. The fold over the row goes on from one to the next.
// As it is: what the drops gain stands beside the row, a number for each scan. As an array of Options it says no more:
// a scan without a detection has no drop, and `best_drop`, which goes by the same row, reads none of it.
fn best_split(
    prices: &Prices<'_>,
    w: &Window<'_>,
    gains: &mut [f64; SCANS],
    logs: &mut Logs,
) -> Option<TrackMove>
    ensures best { result ≡ best_split_row prices.now.config (view_in prices.now) w.now.from w.now.row.slots.now w.now.cost }
    ensures drop_gains { DropGains prices.now.config (view_in prices.now) w.now.from w.now.row.slots.now w.now.cost w.now.row.end gains.new }
{
    let mut best = None;
    let mut fold = w.from;
    let mut done: usize = 0;
    let mut seen = false;
    for k in 0..w.row.end {
        if 0 < w.row.slots[k] {
            fold = cost_row::fold_to(prices, &fold, w.row.slots, done, k, logs);
            done = k;
            if seen {
                best = better_split(prices, w, best, &fold, k, logs);
            }
            gains[k] = drop_gain(prices, w, &fold, k, logs);
            seen = true;
        }
    }
    best
}

// The best so far, or the drop of a single detection, by what each gains.
// As it is: as `filter` and `fold` over the range it was tried, and is as long. The closures are proved, but that the
// fold is the definition's was not found; the scans from the end of the row on, which the definition goes over too,
// would want a lemma of their own.
fn best_drop(
    first: ScanIndex,
    w: &Window<'_>,
    start: Option<TrackMove>,
    gains: &[f64; SCANS],
) -> Option<TrackMove>
    requires { first.0 < 2 ^ 33 }
    ensures { result ≡ best_drop_by first.0 gains.now w.now.row.slots.now start }
{
    let mut best = start;
    for k in 0..w.row.end {
        if 0 < w.row.slots[k] {
            let scan = first.later(k);
            best = better(
                best,
                TrackMove::Drop {
                    scan,
                    gain: gains[k],
                },
            );
        }
    }
    best
}

// How many detections a row has.
fn length_of(row: &[usize; SCANS]) -> usize
    ensures { result ≡ length (marks row.now) }
{
    row.iter().filter(|x| 0 < **x).count()
}

// 1 if a window goes on from a frozen part, else 0.
fn frozen_one(p: Fold) -> usize
    ensures { result ≡ frozen_one p }
{
    usize::from(!matches!(p, Fold::Fresh))
}

// The best move of a track by its window, or none.
pub fn best_of_track(prices: &Prices<'_>, w: &Window<'_>, logs: &mut Logs) -> Option<TrackMove>
    ensures { result ≡ best_track_row prices.now.config (view_in prices.now) w.now.from w.now.row.slots.now w.now.cost }
{
    let mut gains = [0.0; SCANS];
    let best = best_split(prices, w, &mut gains, logs);
    if 1 < length_of(w.row.slots) + frozen_one(w.from) {
        return best_drop(prices.first, w, best, &gains);
    }
    best
}
