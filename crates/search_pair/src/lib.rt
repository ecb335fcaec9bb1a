// The best move of a pair of rows.
#![tactic(auto)]

ghost use Rattle.std.specs.Prelude.{◌≡◌, true, ◌^◌, ◌≤◌, ◌<◌, drop};
ghost use Rattle.bounds.specs.Bounds.{SCANS};
ghost use Rattle.cost.specs.Cost.{measurements, cost, misses_of, view_in};
ghost use Rattle.fgo_spec.specs.Searching.{◌⊕◌, ◌⊖◌};
ghost use Rattle.cost_row.specs.Price.{row_cost};
ghost use Rattle.search_pair.specs.Pair.{cut_at, first_swap, best_swap_row, best_pair_row, Exchanged};

use bounds::SCANS;
use cost::Fold;
use cost::logs::Logs;
use cost::prices::Prices;
use cost_row::window::Window;
use fgo_spec::moves::PairMove;
use search_merge::Merging;
use search_rows::moves::better;

// A pair may be cut at scan k: it is close in k, or in the scan before.
fn is_cut(close: &[bool; SCANS], k: usize) -> bool
    requires { k ≤ SCANS }
    ensures { result ≡ cut_at close.now k }
{
    (k < SCANS && close[k]) || (0 < k && close[k - 1])
}

// Two windows and the scans in which they are close. `base` is what both cost now; the exchanged costs are what each
// would cost with the other's row, and are right at least where there is a cut before all scans.
#[derive(Drop)]
struct Pair<'a> {
    prices: &'a Prices<'a>,
    close: &'a [bool; SCANS],
    a: &'a Window<'a>,
    b: &'a Window<'a>,
    base: f64,
    exchanged_a: f64,
    exchanged_b: f64,
    ghost summed: { base ≡ a.now.cost ⊕ b.now.cost },
    ghost priced: { Exchanged prices.now close.now a.now b.now exchanged_a exchanged_b },
}

impl Pair<'_> {
    // The swap at the cut before all scans, if there is one: the rows are exchanged.
    fn first_swap(&self) -> Option<PairMove>
        ensures { let p = self.now in result ≡ first_swap (cut_at p.close.now 0) p.prices.now.first p.exchanged_a p.exchanged_b p.base }
    {
        if is_cut(self.close, 0) {
            let cut = self.prices.first;
            let gain = self.exchanged_a + self.exchanged_b - self.base;
            return better(None, PairMove::Swap { cut, gain });
        }
        None
    }

    // The gain of the swap at a cut, by the folds over both rows before it.
    fn swap_gain(&self, fa: &Fold, fb: &Fold, cut: usize, logs: &mut Logs) -> f64
        requires { (misses_of fa.now < 2 ^ 58) × (misses_of fb.now < 2 ^ 58) }
        ensures { let p = self.now.prices.now in result
            ≡ cost p.config fa.now (measurements (view_in p) cut (drop cut self.now.b.now.row.slots.now))
            ⊕ cost p.config fb.now (measurements (view_in p) cut (drop cut self.now.a.now.row.slots.now))
            ⊖ self.now.base }
    {
        let x = cost_row::rest_cost(self.prices, fa, &self.b.row, cut, logs);
        let y = cost_row::rest_cost(self.prices, fb, &self.a.row, cut, logs);
        x + y - self.base
    }

    // The best swap, at each cut: the folds over both rows go on from cut to cut. A swap at or past the end of both
    // would change nothing.
    fn best_swap(&self, logs: &mut Logs) -> Option<PairMove>
        ensures { let p = self.now.prices.now in let a = self.now.a.now in let b = self.now.b.now in
            result ≡ best_swap_row p.config (view_in p) a.from b.from self.now.close.now a.row.slots.now b.row.slots.now self.now.base }
    {
        let prices = self.prices;
        let a = self.a;
        let b = self.b;
        let end = a.row.end.max(b.row.end);
        let mut best = self.first_swap();
        let mut fa = a.from;
        let mut fb = b.from;
        let mut done: usize = 0;
        for k in 1..end {
            if is_cut(self.close, k) {
                fa = cost_row::fold_to(prices, &fa, a.row.slots, done, k, logs);
                fb = cost_row::fold_to(prices, &fb, b.row.slots, done, k, logs);
                done = k;
                let gain = self.swap_gain(&fa, &fb, k, logs);
                let cut = prices.first.later(k);
                best = better(best, PairMove::Swap { cut, gain });
            }
        }
        best
    }
}

// What the window `mine` would cost with the row of `other`. A swap reads it if there is a `cut` before all scans, and
// a merge if `mine` has no scan `alone`, one in which `other` has no detection; else nobody does, and the answer is
// 0.0.
// As it is: no Option, since who reads the answer knows by the cut, or by the scans alone, that it was asked for, and
// would have a None that never comes.
fn exchanged_cost(
    prices: &Prices<'_>,
    mine: &Window<'_>,
    other: &Window<'_>,
    cut: bool,
    alone: u64,
    logs: &mut Logs,
) -> f64
    ensures by_cut { cut ≡ true → result ≡ row_cost prices.now.config (view_in prices.now) mine.now.from other.now.row.slots.now }
    ensures by_merge { alone ≡ 0 → result ≡ row_cost prices.now.config (view_in prices.now) mine.now.from other.now.row.slots.now }
{
    if cut || alone == 0 {
        return cost_row::row_cost(prices, &mine.from, &other.row, logs);
    }
    0.0
}

// The best move of a pair of windows, or none; `close` says in which scans they are close. It asks that the cost of
// each is that of its row.
pub fn best_of_pair(
    prices: &Prices<'_>,
    close: &[bool; SCANS],
    a: &Window<'_>,
    b: &Window<'_>,
    logs: &mut Logs,
) -> Option<PairMove>
    requires { (a.now.cost ≡ row_cost prices.now.config (view_in prices.now) a.now.from a.now.row.slots.now)
        × (b.now.cost ≡ row_cost prices.now.config (view_in prices.now) b.now.from b.now.row.slots.now) }
    ensures { result
        ≡ best_pair_row prices.now.config (view_in prices.now) a.now.id b.now.id a.now.from b.now.from close.now
        a.now.row.slots.now b.now.row.slots.now (a.now.cost ⊕ b.now.cost) }
{
    let overlap = search_merge::overlap_of(a.row.slots, b.row.slots);
    let cut = is_cut(close, 0);
    let exchanged_a = exchanged_cost(prices, a, b, cut, overlap.mine, logs);
    let exchanged_b = exchanged_cost(prices, b, a, cut, overlap.theirs, logs);
    let pair = Pair {
        prices,
        close,
        a,
        b,
        base: a.cost + b.cost,
        exchanged_a,
        exchanged_b,
    };
    let into_a = Merging {
        prices,
        keeper: a,
        other: &b.row,
        overlap,
        exchanged: exchanged_a,
    };
    let into_b = Merging {
        prices,
        keeper: b,
        other: &a.row,
        overlap: overlap.turned(),
        exchanged: exchanged_b,
    };
    let swap = pair.best_swap(logs);
    let best = into_a.better_merge(swap, pair.base, logs);
    into_b.better_merge(best, pair.base, logs)
}
