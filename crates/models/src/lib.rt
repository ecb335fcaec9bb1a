// The motion of constant velocity over the positions x, y, z and their speeds, and products with it.
#![tactic(auto)]

ghost use Rattle.std.specs.Prelude.{◌≡◌};
ghost use Rattle.scalar.specs.F64.{f64};
ghost use Rattle.linalg.specs.Matrix as Matrix;
ghost use Rattle.models.specs.Motion as Motion;

use linalg::rows::{column, put_column, put_row, row};

// The motion over dt.
#[rattlefmt::skip]
#[tactic(auto, unfolding(crate::specs::Motion::cv_f, linalg::specs::Grown::tabulate))]
pub fn cv_f6(dt: f64) -> [f64; 36]
    ensures { result ≡ Motion.cv_f f64 dt }
{
    [
        1.0, 0.0, 0.0, dt, 0.0, 0.0,
        0.0, 1.0, 0.0, 0.0, dt, 0.0,
        0.0, 0.0, 1.0, 0.0, 0.0, dt,
        0.0, 0.0, 0.0, 1.0, 0.0, 0.0,
        0.0, 0.0, 0.0, 0.0, 1.0, 0.0,
        0.0, 0.0, 0.0, 0.0, 0.0, 1.0,
    ]
}

// The motion's noise over dt, of the spectral density q.
#[rattlefmt::skip]
#[tactic(auto, unfolding(crate::specs::Motion::cv_q, linalg::specs::Grown::tabulate))]
pub fn cv_q6(dt: f64, q: f64) -> [f64; 36]
    ensures { result ≡ Motion.cv_q f64 dt q }
{
    let dt2 = dt * dt;
    let dt3 = dt2 * dt;
    let a = 0.0 + q * dt3 / 3.0;
    let b = 0.0 + q * dt2 / 2.0;
    let d = 0.0 + q * dt;
    [
        a, 0.0, 0.0, b, 0.0, 0.0,
        0.0, a, 0.0, 0.0, b, 0.0,
        0.0, 0.0, a, 0.0, 0.0, b,
        b, 0.0, 0.0, d, 0.0, 0.0,
        0.0, b, 0.0, 0.0, d, 0.0,
        0.0, 0.0, b, 0.0, 0.0, d,
    ]
}

// The motion times a vector: the products with 0.0 count, since they spread a NaN and an infinity.
#[tactic(auto, unfolding(crate::specs::Motion::cv_f, linalg::specs::Matrix::mul_vec, linalg::specs::Grown::tabulate))]
pub fn cv_f6_mul_vec(dt: f64, v: &[f64; 6]) -> [f64; 6]
    ensures { result ≡ Matrix.mul_vec f64 (Motion.cv_f f64 dt) v.now }
{
    let [a, b, c, d, e, f] = *v;
    [
        1.0 * a + 0.0 * b + 0.0 * c + dt * d + 0.0 * e + 0.0 * f,
        0.0 * a + 1.0 * b + 0.0 * c + 0.0 * d + dt * e + 0.0 * f,
        0.0 * a + 0.0 * b + 1.0 * c + 0.0 * d + 0.0 * e + dt * f,
        0.0 * a + 0.0 * b + 0.0 * c + 1.0 * d + 0.0 * e + 0.0 * f,
        0.0 * a + 0.0 * b + 0.0 * c + 0.0 * d + 1.0 * e + 0.0 * f,
        0.0 * a + 0.0 * b + 0.0 * c + 0.0 * d + 0.0 * e + 1.0 * f,
    ]
}

// The motion times a matrix, column by column.
pub fn cv_f6_mul(dt: f64, m: &[f64; 36]) -> [f64; 36]
    ensures { result ≡ Matrix.mul f64 (Motion.cv_f f64 dt) m.now }
{
    let mut out = [0.0; 36];
    for j in 0..6 {
        let v = column(m, j);
        let r = cv_f6_mul_vec(dt, &v);
        put_column(&mut out, j, &r);
    }
    out
}

// A matrix times the transposed motion, row by row.
// As it is: written where it is wanted. Tried by value, the product is copied: in bench/run's hall with lag 16, smooth
// takes 1,027,023 instructions a frame in place of 1,012,152, which is 15 in 1,000 more. The bar is 10 in 1,000.
pub fn mul_cv_f6t(m: &[f64; 36], dt: f64, out: &mut [f64; 36])
    ensures { out.new ≡ Matrix.mul f64 m.now (Matrix.transpose f64 (Motion.cv_f f64 dt)) }
{
    for i in 0..6 {
        let v = row(m, i);
        let r = cv_f6_mul_vec(dt, &v);
        put_row(out, i, &r);
    }
}
