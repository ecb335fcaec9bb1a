// What the windows of tracks go on from, and what they cost.
#![tactic(auto)]

ghost use Rattle.std.specs.Prelude.{◌≡◌, ◌^◌, ◌≤◌, ◌<◌, drop};
ghost use Rattle.bounds.specs.Bounds.{SCANS, FROZEN};
ghost use Rattle.cost.specs.Cost.{measurements, cost, misses_of, view_in};
ghost use Rattle.cost_row.specs.Price.{frozen_at, fold_among, row_cost, on_to, Until};

pub mod ended;
pub mod window;

use bounds::{FILTERS, PARTS, SCANS};
use cost::Fold;
use cost::logs::Logs;
use cost::prices::Prices;
use ended::EndedRow;
use engine::types::RefinedId;
use fgo_part::FrozenTracks;

// The frozen part at place n, as what a window goes on from.
fn frozen_at(n: usize, tracks: &[u64; PARTS], filters: &[f64; FILTERS]) -> Fold
    requires { n < FROZEN }
    ensures { result ≡ frozen_at tracks.now filters.now n }
{
    Fold::Frozen {
        kf: fgo_part::part_kf(filters, n),
        last: fgo_part::part_last_frame(tracks, n),
    }
}

// What the window of x goes on from: its frozen part, of the words and the numbers of the frozen tracks, or nothing.
pub fn fold_from(x: RefinedId, frozen: &FrozenTracks<'_>, filters: &[f64; FILTERS]) -> Fold
    ensures { let f = frozen.now in result ≡ fold_among f.tracks.now filters.now f.count x.0 }
{
    frozen
        .find(x)
        .map_or(Fold::Fresh, |n| frozen_at(n, frozen.tracks, filters))
}

// The fold over the scans of a row from k up to g, going on from where it stands. It asks for few misses so far.
#[inline(always)]
pub fn fold_to(
    prices: &Prices<'_>,
    f: &Fold,
    row: &[usize; SCANS],
    k: usize,
    g: usize,
    logs: &mut Logs,
) -> Fold
    requires { (g ≤ SCANS) × Until g k f.now row.now }
    ensures { result ≡ on_to prices.now.config (view_in prices.now) k g row.now f.now }
{
    cost_fold::fold_window(prices, f, &row[k..g], k, logs)
}

// What a window costs: f is the fold over its scans before k, the rest is the row from k on. It asks for few misses so
// far.
// As it is: few misses are asked for here, in `fold_to`, and in `swap_gain` and `drop_gain` of the searches. As a fact
// of the fold it would not be kept: one that goes on may have more misses than before.
#[inline(always)]
pub fn rest_cost(
    prices: &Prices<'_>,
    f: &Fold,
    row: &EndedRow<'_>,
    k: usize,
    logs: &mut Logs,
) -> f64
    requires { misses_of f.now < 2 ^ 58 }
    ensures { result ≡ cost prices.now.config f.now (measurements (view_in prices.now) k (drop k row.now.slots.now)) }
{
    if row.end <= k {
        return f.close(prices.config);
    }
    let slots = row.slots;
    cost_fold::cost_of(prices, f, &slots[k..row.end], k, logs)
}

// What the window costs that goes on from p and has this row.
pub fn row_cost(prices: &Prices<'_>, p: &Fold, row: &EndedRow<'_>, logs: &mut Logs) -> f64
    requires { misses_of p.now ≡ 0 }
    ensures { result ≡ row_cost prices.now.config (view_in prices.now) p.now row.now.slots.now }
{
    rest_cost(prices, p, row, 0, logs)
}
