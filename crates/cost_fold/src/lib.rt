// The fold over the row of a window.
//
// A row has for each scan held one more than the place of its detection among the dots, 0 where it has none.
// As it is: a slot is a number and no Option, which is no plainer: the definition of a window's measurements reads a
// row as numbers, so that each clause over a row of Options would first have to say which numbers they stand for; and a
// row, which is copied for each pair of a pass that comes close, would be twice as wide.
#![tactic(auto)]

ghost use Rattle.std.specs.Prelude.{◌≡◌, MatchOption};
ghost use mathlib.Core.List.{foldl};
ghost use Rattle.cost.specs.declared.Fold.TheVariants.{Going};
ghost use Rattle.cost.specs.Cost.{added, fold_over, cost, measurements, view_in};
ghost use Rattle.engine.specs.Config.{density};
ghost use Rattle.cost_fold.specs.Fold.{Asks, Bare, Leading};

use cost::logs::Logs;
use cost::prices::Prices;
use cost::{Fold, Sums};

// Where the first detection stands, if there is one.
fn first_detection(slots: &[usize]) -> Option<usize>
    ensures { MatchOption result (Bare slots.now) (Leading slots.now) }
{
    slots.iter().position(|x| 0 < *x)
}

// The fold over the slots of a row after a detection or a frozen part: the row begins at the held scan k.
// As it is: prices and logs are two arguments, here and in all that comes to a cost by it. In one struct, lent as
// `&mut`, each clause would say too that the prices stay as they were; given by value, it would be made at each call.
#[inline(always)]
fn fold_on(prices: &Prices<'_>, from: &Sums, slots: &[usize], k: usize, logs: &mut Logs) -> Sums
    requires { Asks slots.now k (Going from.now) }
    ensures { result ≡ foldl (added (density prices.now.config)) from.now (measurements (view_in prices.now) k slots.now) }
{
    let q = prices.config.accel_spectral_density;
    let mut r = *from;
    for (i, code) in slots.iter().enumerate() {
        if 0 < *code {
            let scan = prices.first.later(k + i);
            r = r.add(q, scan, cost::dot_at(prices.dots, *code - 1), logs);
        }
    }
    r
}

// The fold over a part of a row that begins at the held scan k, going on from where it stands. It asks that the part
// ends by scan SCANS, and for few misses so far.
// As it is: the part and the scan that it begins at are two arguments here, in `fold_on` and in `cost_of`. A struct of
// both would be no plainer: of the calls all but two, `fold_on` of a whole part and `fold_window` in `cost_of`, cut a
// new part and would make it there; and few misses would still be asked for.
#[inline(always)]
pub fn fold_window(
    prices: &Prices<'_>,
    from: &Fold,
    slots: &[usize],
    k: usize,
    logs: &mut Logs,
) -> Fold
    requires { Asks slots.now k from.now }
    ensures { result ≡ fold_over prices.now.config from.now (measurements (view_in prices.now) k slots.now) }
{
    match *from {
        Fold::Fresh => {
            let Some(i) = first_detection(slots) else {
                return *from;
            };
            let scan = prices.first.later(k + i);
            let r = cost::born_at(prices.config, scan, cost::dot_at(prices.dots, slots[i] - 1));
            Fold::Going(fold_on(prices, &r, &slots[i + 1..], k + (i + 1), logs))
        }
        Fold::Frozen { kf, last } => {
            let Some(i) = first_detection(slots) else {
                return *from;
            };
            let r = cost::resume(kf, last);
            Fold::Going(fold_on(prices, &r, &slots[i..], k + i, logs))
        }
        Fold::Going(sums) => Fold::Going(fold_on(prices, &sums, slots, k, logs)),
    }
}

// The cost of a window, of which `from` is the fold so far and the slots from the held scan k on are the rest. It asks
// what `fold_window` asks.
#[inline(always)]
pub fn cost_of(prices: &Prices<'_>, from: &Fold, slots: &[usize], k: usize, logs: &mut Logs) -> f64
    requires { Asks slots.now k from.now }
    ensures { result ≡ cost prices.now.config from.now (measurements (view_in prices.now) k slots.now) }
{
    fold_window(prices, from, slots, k, logs).close(prices.config)
}
