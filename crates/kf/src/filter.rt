// The plain filter: constant velocity on the plane; x and y share one covariance.
ghost use Rattle.std.specs.Prelude.{◌≡◌, ◌+◌, ◌≤◌, length};
ghost use Rattle.bounds.specs.Bounds.{KF};
ghost use Rattle.scalar.specs.F64.{f64};
ghost use Rattle.kf.specs.Plain.{log_term};
ghost use Rattle.kf.specs.Filter.{started, predicted, updated, worked, log_of, kf_in, kf_numbers};

use bounds::KF;
use scalar::log;

// What is known of a track at one time: position, velocity, and the variances and covariance of both, which are the
// same for x and for y.
#[derive(Clone, Copy)]
pub struct Kf {
    pub x: f64,
    pub y: f64,
    pub vx: f64,
    pub vy: f64,
    pub p00: f64,
    pub p01: f64,
    pub p11: f64,
    // The time of the state, in seconds.
    pub t: f64,
}

// Where a detection lies, the variance of its position, and its scan's time in seconds.
#[derive(Clone, Copy)]
pub struct Dot {
    pub x: f64,
    pub y: f64,
    pub r: f64,
    pub t: f64,
}

// A filter after an update, with the negative log-likelihood of the observation.
#[derive(Clone, Copy)]
pub struct Updated {
    pub kf: Kf,
    pub nll: f64,
}

// The logarithm that each axis adds to the NLL: ln((2·pi)·s).
pub fn log_term(s: f64) -> f64
    ensures { result ≡ log_term f64 s }
{
    log::ln(2.0 * 3.141592653589793 * s)
}

impl Kf {
    // A filter that starts with a detection: v is the variance of the speed.
    pub fn start(d: Dot, v: f64) -> Kf
        ensures { result ≡ started d.x d.y d.t d.r v }
    {
        Kf {
            x: d.x,
            y: d.y,
            vx: 0.0,
            vy: 0.0,
            p00: d.r,
            p01: 0.0,
            p11: v,
            t: d.t,
        }
    }

    // Predict to the time t: q is the acceleration spectral density.
    pub fn predict(self, t: f64, q: f64) -> Kf
        ensures { result ≡ predicted self t q }
    {
        let dt = t - self.t;
        Kf {
            x: self.x + dt * self.vx,
            y: self.y + dt * self.vy,
            vx: self.vx,
            vy: self.vy,
            p00: self.p00 + 2.0 * dt * self.p01 + dt * dt * self.p11 + q * (dt * (dt * dt)) / 3.0,
            p01: self.p01 + dt * self.p11 + q * dt * dt / 2.0,
            p11: self.p11 + q * dt,
            t,
        }
    }

    // Update with the position of a detection, to whose time it was predicted.
    pub fn update(self, d: Dot) -> Updated
        ensures { result ≡ updated self d.x d.y d.r }
    {
        let l = log_term(self.p00 + d.r);
        self.update_by(d, l)
    }

    // The same, with the logarithm that both axes add: l is ln((2·pi)·s), which a caller may have worked out before.
    pub fn update_by(self, d: Dot, l: f64) -> Updated
        requires { l ≡ log_of self d.r }
        ensures { result ≡ updated self d.x d.y d.r }
    {
        let s = self.p00 + d.r;
        let k0 = self.p00 / s;
        let k1 = self.p01 / s;
        let nu_x = d.x - self.x;
        let nu_y = d.y - self.y;
        let nll = 0.0 + 0.5 * (nu_x * nu_x / s + l) + 0.5 * (nu_y * nu_y / s + l);
        let kf = Kf {
            x: self.x + k0 * nu_x,
            y: self.y + k0 * nu_y,
            vx: self.vx + k1 * nu_x,
            vy: self.vy + k1 * nu_y,
            p00: (1.0 - k0) * self.p00,
            p01: (1.0 - k0) * self.p01,
            p11: self.p11 - k1 * self.p01,
            t: self.t,
        };
        Updated { kf, nll }
    }

    // Predict to the time of a detection, then update with its position: the filter that is lent moves on by one
    // detection.
    pub fn advance(&mut self, d: Dot, q: f64)
        ensures { self.new ≡ (worked self.old d.t q d.x d.y d.r).kf }
    {
        *self = self.predict(d.t, q).update(d).kf;
    }

    // The filter whose numbers stand in a list from place o on; they must be there.
    pub fn at(numbers: &[f64], o: usize) -> Kf
        requires { o + KF ≤ length numbers.now }
        ensures { result ≡ kf_in numbers.now o }
    {
        Kf {
            x: numbers[o],
            y: numbers[o + 1],
            vx: numbers[o + 2],
            vy: numbers[o + 3],
            p00: numbers[o + 4],
            p01: numbers[o + 5],
            p11: numbers[o + 6],
            t: numbers[o + 7],
        }
    }

    // Its numbers, in that order.
    pub fn numbers(self) -> [f64; KF]
        ensures { result ≡ kf_numbers self }
    {
        [
            self.x, self.y, self.vx, self.vy, self.p00, self.p01, self.p11, self.t,
        ]
    }
}
