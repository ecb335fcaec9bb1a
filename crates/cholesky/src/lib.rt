// Cholesky's factor of a matrix, and the inverse by it.
#![tactic(auto)]

ghost use Rattle.std.specs.Prelude.{◌≡◌, ◌+◌, ◌*◌, ◌≤◌, ◌<◌, true, false};
ghost use Rattle.std.specs.Result.{MatchResult};
ghost use Rattle.scalar.specs.F64.{f64};
ghost use Rattle.linalg.specs.Cholesky as Cholesky;
ghost use Rattle.linalg.specs.Rows as Rows;

use linalg::rows::{put_row, row};
use std::array::from_fn;

// All six are above 0.
fn above6(d0: f64, d1: f64, d2: f64, d3: f64, d4: f64, d5: f64) -> bool
    ensures { result ≡ Cholesky.above6 f64 d0 d1 d2 d3 d4 d5 }
{
    0.0 < d0 && 0.0 < d1 && 0.0 < d2 && 0.0 < d3 && 0.0 < d4 && 0.0 < d5
}

// Cholesky's factor, by columns of the lower triangle: column j subtracts L(j,k)·column k, k rising, and the root of
// the pivot divides it.
// A pivot that is not above 0 fails; what the definition gives then, which nobody should use, is the error.
// As it is, 41 lines: each makes one number of the factor, and a split would hand some twenty of them on. The error
// holds the factor, since the function promised the definition's factor of any matrix before it had a Result, and may
// promise no less.
#[rattlefmt::skip]
pub fn cholesky6(a: &[f64; 36]) -> Result<[f64; 36], [f64; 36]>
    ensures { MatchResult result (λ l. (Cholesky.positive f64 a.now ≡ true) × (l ≡ Cholesky.cholesky f64 a.now))
        (λ l. (Cholesky.positive f64 a.now ≡ false) × (l ≡ Cholesky.cholesky f64 a.now)) }
{
    let d0 = a[0];
    let l00 = sqrt::sqrt(d0);
    let l10 = a[6] / l00;
    let l20 = a[12] / l00;
    let l30 = a[18] / l00;
    let l40 = a[24] / l00;
    let l50 = a[30] / l00;
    let d1 = a[7] - l10 * l10;
    let l11 = sqrt::sqrt(d1);
    let l21 = (a[13] - l10 * l20) / l11;
    let l31 = (a[19] - l10 * l30) / l11;
    let l41 = (a[25] - l10 * l40) / l11;
    let l51 = (a[31] - l10 * l50) / l11;
    let d2 = a[14] - l20 * l20 - l21 * l21;
    let l22 = sqrt::sqrt(d2);
    let l32 = (a[20] - l20 * l30 - l21 * l31) / l22;
    let l42 = (a[26] - l20 * l40 - l21 * l41) / l22;
    let l52 = (a[32] - l20 * l50 - l21 * l51) / l22;
    let d3 = a[21] - l30 * l30 - l31 * l31 - l32 * l32;
    let l33 = sqrt::sqrt(d3);
    let l43 = (a[27] - l30 * l40 - l31 * l41 - l32 * l42) / l33;
    let l53 = (a[33] - l30 * l50 - l31 * l51 - l32 * l52) / l33;
    let d4 = a[28] - l40 * l40 - l41 * l41 - l42 * l42 - l43 * l43;
    let l44 = sqrt::sqrt(d4);
    let l54 = (a[34] - l40 * l50 - l41 * l51 - l42 * l52 - l43 * l53) / l44;
    let d5 = a[35] - l50 * l50 - l51 * l51 - l52 * l52 - l53 * l53 - l54 * l54;
    let l55 = sqrt::sqrt(d5);
    let l = [
        l00, 0.0, 0.0, 0.0, 0.0, 0.0,
        l10, l11, 0.0, 0.0, 0.0, 0.0,
        l20, l21, l22, 0.0, 0.0, 0.0,
        l30, l31, l32, l33, 0.0, 0.0,
        l40, l41, l42, l43, l44, 0.0,
        l50, l51, l52, l53, l54, l55,
    ];
    if above6(d0, d1, d2, d3, d4, d5) { Ok(l) } else { Err(l) }
}

// r less s times row i of w.
fn less_row(r: &[f64; 6], s: f64, w: &[f64; 36], i: usize) -> [f64; 6]
    requires { i < 6 }
    ensures { result ≡ Rows.less_row f64 r.now s w.now i }
{
    let v = row(w, i);
    from_fn(|c| r[c] - s * v[c])
}

// The row divided by d.
fn divide_row(r: &[f64; 6], d: f64) -> [f64; 6]
    ensures { result ≡ Rows.divided_by f64 r.now d }
{
    from_fn(|c| r[c] / d)
}

// Row i of w less l's number at p times row q, the one at p + s times row q + 1, .., n of them.
// As it is: i, p, s, q and n are five arguments, here and in `solve_row`. Each call of `forward6` and `backward6` has
// other numbers, so a struct of them would be made at each: `solve_row(l, w, Steps { i, p: i * 6, s: 1, q: 0, n: i })`
// for `solve_row(l, w, i, i * 6, 1, 0, i)`.
#[tactic(auto, unfolding(linalg::specs::Cholesky::less, linalg::specs::Rows::less_rows))]
fn less_rows(
    l: &[f64; 36],
    w: &[f64; 36],
    i: usize,
    p: usize,
    s: usize,
    q: usize,
    n: usize,
) -> [f64; 6]
    requires { (i < 6) × (p + n * s < 36 + s) × (q + n ≤ 6) }
    ensures { result ≡ Rows.less_rows f64 l.now w.now i p s q n }
{
    // As it is: tried as a fold over 0..n. Its closure has to say again what `less_row` asks and promises, of the
    // numbers here: nine lines for these five.
    let mut r = row(w, i);
    for k in 0..n {
        r = less_row(&r, l[p + k * s], w, q + k);
    }
    r
}

// Row i of w is solved: less l's number at p times row q, the one at p + s times row q + 1, .., n of them, then divided
// by the diagonal.
#[tactic(auto, unfolding(linalg::specs::Rows::solved_row))]
fn solve_row(l: &[f64; 36], w: &mut [f64; 36], i: usize, p: usize, s: usize, q: usize, n: usize)
    requires { (i < 6) × (p + n * s < 36 + s) × (q + n ≤ 6) }
    ensures { w.new ≡ Rows.put_row f64 w.old i (Rows.solved_row f64 l.now w.old i p s q n) }
{
    let r = less_rows(l, w, i, p, s, q, n);
    let v = divide_row(&r, l[i * 6 + i]);
    put_row(w, i, &v);
}

#[rattlefmt::skip]
const IDENTITY: [f64; 36] = [
    1.0, 0.0, 0.0, 0.0, 0.0, 0.0,
    0.0, 1.0, 0.0, 0.0, 0.0, 0.0,
    0.0, 0.0, 1.0, 0.0, 0.0, 0.0,
    0.0, 0.0, 0.0, 1.0, 0.0, 0.0,
    0.0, 0.0, 0.0, 0.0, 1.0, 0.0,
    0.0, 0.0, 0.0, 0.0, 0.0, 1.0,
];

// Forward substitution of the six unit columns at once: a row of w has what is known at its index.
fn forward6(l: &[f64; 36], w: &mut [f64; 36])
    ensures { w.new ≡ Cholesky.half_way f64 l.now }
{
    *w = IDENTITY;
    for i in 0..6 {
        solve_row(l, w, i, i * 6, 1, 0, i);
    }
}

// Backward substitution of what that left, from the last row up.
fn backward6(l: &[f64; 36], w: &mut [f64; 36])
    requires { w.old ≡ Cholesky.half_way f64 l.now }
    ensures { w.new ≡ Cholesky.inverse f64 l.now }
{
    for i in (0..6).rev() {
        solve_row(l, w, i, i * 6 + 6 + i, 6, i + 1, 5 - i);
    }
}

// The inverse of the matrix that has the factor l: per unit column, forward then backward substitution.
// As it is: written where it is wanted. Tried by value, the matrix is copied: in bench/run's hall with lag 16, smooth
// takes 1,024,139 instructions a frame in place of 1,012,152, which is 12 in 1,000 more. The bar is 10 in 1,000.
pub fn inverse6(l: &[f64; 36], w: &mut [f64; 36])
    ensures { w.new ≡ Cholesky.inverse f64 l.now }
{
    forward6(l, w);
    backward6(l, w);
}
