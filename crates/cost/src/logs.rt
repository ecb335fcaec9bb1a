// Logarithms that were worked out: an update of a variance that was met before takes none.
ghost use Rattle.std.specs.Prelude.{◌≡◌};
ghost use Rattle.scalar.specs.F64.{f64};
ghost use Rattle.kf.specs.Plain.{log_term};
ghost use Rattle.cost.specs.Logs.{LogsKept};

use bounds::KEPT;
use kf::filter::log_term;

// A variance, and the logarithm that an update with it adds; 0.0 and anything where there is none yet.
// As it is: a variance of 0.0 stands for no entry. A table of `Option<Logged>` was tried, and proved: the best moves of
// tracks and pairs with rows of 17 scans then took 162.4 million instructions and not 158.4 million, 2.6 in 100 more;
// such work is three quarters of what a recording of a crossing hall takes.
#[derive(Clone, Copy)]
pub struct Logged {
    pub variance: f64,
    pub log: f64,
}

// The logarithms worked out, each at the place that its variance's bits name. They are right.
#[derive(Drop)]
pub struct Logs {
    pub entries: [Logged; KEPT],
    pub ghost kept: { LogsKept entries },
}

impl Logs {
    // None yet.
    pub fn new() -> Logs {
        Logs {
            entries: [Logged {
                variance: 0.0,
                log: 0.0,
            }; KEPT],
        }
    }

    // The logarithm that an update of variance s adds, from those worked out before if it is there.
    pub fn log_of(&mut self, s: f64) -> f64
        ensures { result ≡ log_term f64 s }
    {
        if 0.0 < s {
            let b = s.to_bits();
            let i = b as usize % KEPT;
            let old = self.entries[i];
            if old.variance.to_bits() == b {
                return old.log;
            }
            let log = log_term(s);
            self.entries[i] = Logged { variance: s, log };
            return log;
        }
        log_term(s)
    }
}
