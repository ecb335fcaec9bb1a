// The square root of IEEE 754: nearest, ties to even.
#![tactic(auto)]

ghost use Rattle.std.specs.Prelude.{◌≡◌, false, ◌+◌, ◌*◌, ◌<◌, ◌≤◌, ◌^◌};
ghost use Rattle.std.specs.Float.Ieee.{odd};
ghost use Rattle.scalar.specs.Root.{root_of};

use scalar::digits::{Digits, digits_of, full_digits};

// The root of a whole number, rounded down, and what is left: root * root + rest, with rest at most 2 * root.
#[derive(Clone, Copy)]
struct WholeRoot {
    root: u64,
    rest: u64,
    ghost floor: { rest ≤ 2 * root },
    ghost short: { root < 2 ^ 53 },
}

// The root of m * 2^52, digit by digit.
// As it is, m < 2^54 here and twice below: one function makes the one number, so a struct of it would be no plainer.
#[tactic(auto, using(scalar::proofs::RootDigits::under))]
fn root_digits(m: u64) -> WholeRoot
    requires { m < 2 ^ 54 }
    ensures { result.root * result.root + result.rest ≡ m * 2 ^ 52 }
{
    let mut root = 0u64;
    let mut rest = 0u64;
    let mut left = m * 1024;
    for _ in 0..53u64 {
        let t = rest * 4 + left / 0x4000_0000_0000_0000;
        left = left % 0x4000_0000_0000_0000 * 4;
        let d = 4 * root + 1;
        if d <= t {
            rest = t - d;
            root = 2 * root + 1;
        } else {
            rest = t;
            root = 2 * root;
        }
    }
    WholeRoot { root, rest }
}

// A step from y towards the root of x by Newton's rule.
fn newton(x: f64, y: f64) -> f64 {
    0.5 * (y + x / y)
}

// A guess at the root of m * 2^52, rounded down, for m from 2^52 to 2^54: that root or one less, though nothing is
// promised but that it is below 2^53.
#[tactic(auto, using(scalar::proofs::RootScale::no_nan))]
fn root_guess(m: u64) -> u64
    requires { m < 2 ^ 54 }
    ensures { result < 2 ^ 53 }
{
    // m / 2^52, from 1 to 4
    let x = if m < 0x20_0000_0000_0000 {
        f64::from_bits(m + 0x3fe0_0000_0000_0000)
    } else {
        f64::from_bits(m / 2 + 0x3ff0_0000_0000_0000)
    };
    // a parabola within a half percent of the root, and three steps by Newton's rule
    let a = 0.5185546289372467 + x * (0.5260096897298638 - x * 0.03954011251060684);
    let y = newton(x, newton(x, newton(x, a)));
    if 0.0 < y {
        // y is from 1 to 2, where the last 53 bits of a pattern are the number's digits: these, less one
        return (y.to_bits() % 0x1000_0000_0000_0000 + 0x1f_ffff_ffff_ffff) % 0x20_0000_0000_0000;
    }
    0
}

// The root of m * 2^52: a guess where what its square leaves shows it right, or one too small, and else digit by digit.
fn whole_root(m: u64) -> WholeRoot
    requires { m < 2 ^ 54 }
    ensures { result.root * result.root + result.rest ≡ m * 2 ^ 52 }
{
    let root = root_guess(m);
    let square = root as u128 * root as u128;
    if let Some(rest) = (m as u128 * 0x10_0000_0000_0000).checked_sub(square) {
        let twice = 2 * root as u128;
        if rest <= twice {
            return WholeRoot {
                root,
                rest: rest as u64,
            };
        }
        let less = rest - twice - 1;
        if less <= twice + 2 {
            return WholeRoot {
                root: root + 1,
                rest: less as u64,
            };
        }
    }
    root_digits(m)
}

// The root of q * 2^(y - 1074). No root of a whole number lies half way between two, so there is no tie.
fn root_scaled(q: u64, y: u64) -> f64
    requires { (0 < q) × (q < 2 ^ 53) × (y < 2046) }
    ensures { result ≡ root_of (odd 53 false q y 1074) }
{
    let full = full_digits(q, y);
    let WholeRoot { root, rest } = whole_root(full.digits * (1 + full.exponent % 2));
    let base = (full.exponent / 2 + 485) * 0x10_0000_0000_0000;
    if rest <= root {
        return f64::from_bits(base + root);
    }
    f64::from_bits(base + (root + 1))
}

// The square root: NaN for a NaN or below 0, a zero for itself, +∞ for +∞.
#[tactic(auto, using(scalar::proofs::RootCases::top_is, scalar::proofs::RootCases::zero_is, scalar::proofs::RootCases::none_is))]
pub fn sqrt(a: f64) -> f64
    ensures { result ≡ root_of a }
{
    match digits_of(a) {
        Digits::Finite { q, y } => root_scaled(q, y),
        Digits::Infinite | Digits::Zero => a,
        Digits::Other => f64::NAN,
    }
}
