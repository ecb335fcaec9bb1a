// The natural logarithm, each operation rounded once, in document 01's order.
ghost use Rattle.std.specs.Prelude.{◌≡◌, ◌^◌, ◌<◌, false};
ghost use Rattle.std.proofs.Math.IntN.{sub_ℕ};
ghost use lib.Ieee.{odd};
ghost use Rattle.scalar.specs.Ln.{ln_of, ln_near, ln_series};

use crate::digits::{Digits, digits_of, full_digits};

// s = 1/21; then s = s·w + 1/n for n = 19, 17, .., 1.
fn series(w: f64) -> f64
    ensures { result ≡ ln_series w }
{
    let s = 1.0 / 21.0;
    let s = s * w + 1.0 / 19.0;
    let s = s * w + 1.0 / 17.0;
    let s = s * w + 1.0 / 15.0;
    let s = s * w + 1.0 / 13.0;
    let s = s * w + 1.0 / 11.0;
    let s = s * w + 1.0 / 9.0;
    let s = s * w + 1.0 / 7.0;
    let s = s * w + 1.0 / 5.0;
    let s = s * w + 1.0 / 3.0;
    s * w + 1.0 / 1.0
}

// The exponent k - 1074 as a float.
fn exponent(k: u64) -> f64
    requires { k < 4096 }
    ensures { result ≡ lib.Ieee.of_int lib.Ieee.binary64 (sub_ℕ k 1074) }
{
    ((k as i64) - 1074) as f64
}

// The logarithm of m · 2^(k - 1074), where m lies between the root of a half and the root of two.
#[tactic(auto, unfolding(crate::specs::Ln::ln_near))]
fn ln_near(m: f64, k: u64) -> f64
    requires { k < 4096 }
    ensures { result ≡ ln_near m (sub_ℕ k 1074) }
{
    let f = (m - 1.0) / (m + 1.0);
    let s = series(f * f);
    exponent(k) * 0.6931471805599453 + 2.0 * f * s
}

// The logarithm of q · 2^(y - 1074): its 53 digits are those of m.
fn ln_digits(q: u64, y: u64) -> f64
    requires { (0 < q) × (q < 2 ^ 53) × (y < 2046) }
    ensures { result ≡ ln_of (odd 53 false q y 1074) }
{
    let full = full_digits(q, y);
    let m = f64::from_bits(full.digits + 0x3fe0_0000_0000_0000);
    if 1.4142135623730951 < m {
        return ln_near(m * 0.5, full.exponent + 1);
    }
    ln_near(m, full.exponent)
}

// The natural logarithm: NaN for a NaN or below 0, -∞ for either zero, +∞ for +∞.
pub fn ln(a: f64) -> f64
    ensures { result ≡ ln_of a }
{
    match digits_of(a) {
        Digits::Finite { q, y } => ln_digits(q, y),
        Digits::Infinite => a,
        Digits::Zero => f64::NEG_INFINITY,
        Digits::Other => f64::NAN,
    }
}
