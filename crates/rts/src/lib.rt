// One step of the backward pass.
#![tactic(auto)]

ghost use Rattle.std.specs.Prelude.{◌≡◌};
ghost use Rattle.scalar.specs.F64.{f64};
ghost use Rattle.rts.specs.Smoothing as Smoothing;
ghost use Rattle.rts.specs.Smoothing.{estimate_of, back_step};

use cholesky::{cholesky6, inverse6};
use linalg::matrix::{add, half_sum6, mul_vec6, mul6, sub, transpose6};
use models::{cv_f6_mul, cv_f6_mul_vec, cv_q6, mul_cv_f6t};

// A track's state: position and velocity, and their covariance by rows.
#[derive(Clone, Copy)]
pub struct TrackState {
    pub x: [f64; 6],
    pub p: [f64; 36],
}

// What a step did.
// As it is: three cases and no Option. What `back` promises tells a step that was skipped from one that smoothed, and
// it may promise no less.
#[derive(Clone, Copy)]
pub enum Step {
    // The later state is replaced by this one's smoothed form.
    Smoothed,
    // dt is 0 or below: the later state stays.
    Skipped,
    // A pivot is not above 0: the later state stays.
    Failed,
}

// The predicted covariance: f·p·fᵀ + cv_q6.
#[tactic(auto, unfolding(crate::specs::Smoothing::p_pred))]
fn predicted(q: f64, dt: f64, p: &[f64; 36]) -> [f64; 36]
    ensures { result ≡ Smoothing.p_pred f64 q dt p.now }
{
    let fp = cv_f6_mul(dt, p);
    let mut fpf = [0.0; 36];
    mul_cv_f6t(&fp, dt, &mut fpf);
    let noise = cv_q6(dt, q);
    add(&fpf, &noise)
}

// The gain: (p·fᵀ)·inverse, where l is the factor of the predicted covariance.
#[tactic(auto, unfolding(crate::specs::Smoothing::gain))]
fn gain(dt: f64, p: &[f64; 36], l: &[f64; 36]) -> [f64; 36]
    ensures { result ≡ Smoothing.gain f64 dt p.now l.now }
{
    let mut pf = [0.0; 36];
    mul_cv_f6t(p, dt, &mut pf);
    let mut inverse = [0.0; 36];
    inverse6(l, &mut inverse);
    let mut g = [0.0; 36];
    mul6(&pf, &inverse, &mut g);
    g
}

// The state: x + gain·(xs − x_pred).
#[tactic(auto, unfolding(crate::specs::Smoothing::smoothed_x, crate::specs::Smoothing::x_pred))]
fn smoothed_x(dt: f64, x: &[f64; 6], g: &[f64; 36], xs: &[f64; 6]) -> [f64; 6]
    ensures { result ≡ Smoothing.smoothed_x f64 dt x.now g.now xs.now }
{
    let x_pred = cv_f6_mul_vec(dt, x);
    let d = sub(xs, &x_pred);
    let gd = mul_vec6(g, &d);
    add(x, &gd)
}

// The covariance: p + (gain·(ps − p_pred))·gainᵀ, then half the sum of it and its transpose.
#[tactic(auto, unfolding(crate::specs::Smoothing::smoothed_p))]
fn smoothed_p(p: &[f64; 36], p_pred: &[f64; 36], g: &[f64; 36], ps: &[f64; 36]) -> [f64; 36]
    ensures { result ≡ Smoothing.smoothed_p f64 p.now p_pred.now g.now ps.now }
{
    let d = sub(ps, p_pred);
    let mut gd = [0.0; 36];
    mul6(g, &d, &mut gd);
    let gt = transpose6(g);
    let mut gdg = [0.0; 36];
    mul6(&gd, &gt, &mut gdg);
    let sum = add(p, &gdg);
    half_sum6(&sum)
}

// One step back: from the smoothed form of the state dt later to that of the state a, where q is the density of the
// motion's noise.
#[tactic(auto, unfolding(crate::specs::Smoothing::back, crate::specs::Smoothing::smoothed))]
pub fn back(q: f64, dt: f64, a: &TrackState, later: &mut TrackState) -> Step
    ensures { back_step result (estimate_of later.new) ≡ Smoothing.back f64 q dt (estimate_of a.now) (estimate_of later.old) }
{
    if dt <= 0.0 {
        return Step::Skipped;
    }
    let p_pred = predicted(q, dt, &a.p);
    let Ok(l) = cholesky6(&p_pred) else {
        return Step::Failed;
    };
    let g = gain(dt, &a.p, &l);
    later.x = smoothed_x(dt, &a.x, &g, &later.x);
    later.p = smoothed_p(&a.p, &p_pred, &g, &later.p);
    Step::Smoothed
}
