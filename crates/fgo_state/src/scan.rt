// A held scan as it is lent: its number, and its frame as it lies in the memory of the held scans.
ghost use Rattle.std.specs.Prelude.{◌≡◌, ◌^◌, ◌<◌};
ghost use Rattle.engine.specs.Body.{associations_in, body_of, body_refusal};
ghost use Rattle.fgo_state.specs.Memory.{association_in, body_at, id_at};

use crate::scans::Scans;
use engine::checked::CheckedBody;
use engine::types::{Association, RefinedId, ScanIndex};

// The held scan n, whose body passes.
#[derive(Clone, Copy)]
pub struct HeldScan<'a> {
    pub scans: &'a Scans,
    pub n: ScanIndex,
    pub frame: CheckedBody<'a>,
    pub ghost lies: { body_of frame.body ≡ body_at scans.now.bodies scans.now.columns n.0 },
}

impl HeldScan<'_> {
    // How many associations it has.
    pub fn count(&self) -> usize
        ensures count { result ≡ associations_in (body_of self.now.frame.body) }
        ensures small { result < 2 ^ 8 }
    {
        self.frame.body.association_count()
    }

    // Its association j, in the frame's order.
    pub fn association(&self, j: usize) -> Association
        ensures { result ≡ association_in (body_of self.now.frame.body) j }
    {
        self.frame.association(j)
    }

    // The refined id of its association j; 0 past the last that there is room for.
    pub fn id(&self, j: usize) -> RefinedId
        ensures { result.0 ≡ id_at self.now.scans.now.columns self.now.n.0 j }
    {
        self.scans.id_at(self.n, j)
    }
}

impl Scans {
    // The held scan n, whose body passes.
    pub fn held(&self, n: ScanIndex) -> HeldScan<'_>
        requires { body_refusal (body_at self.now.bodies self.now.columns n.0) ≡ 0 }
        ensures { (result.scans.now ≡ self.now) × (result.n ≡ n) }
    {
        HeldScan {
            scans: self,
            n,
            frame: CheckedBody { body: self.body(n) },
        }
    }
}
