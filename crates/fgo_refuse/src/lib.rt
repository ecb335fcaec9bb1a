// What a push is refused for, once the state is sound and the buffers are long enough.
#![tactic(auto)]

ghost use Rattle.std.specs.Prelude.{◌≡◌, ◌+◌, ◌<◌, ◌≤◌, ◌++◌, length, Some};
ghost use Rattle.bounds.specs.Bounds.{ACCEPTED, ASSOCIATIONS};
ghost use Rattle.refusals.specs.Refusals.{refused};
ghost use Rattle.engine.specs.Body.{body_of, frame_in};
ghost use Rattle.fgo_spec.specs.Refiner.{id_count};
ghost use Rattle.fgo_part.specs.Parts.{cells};
ghost use Rattle.fgo_refuse.specs.Refusing.{full_in, join_end, joined_in, Refuses, push_refusal};

use bounds::{ACCEPTED, ASSOCIATIONS, COUNTED, DETECTIONS, OWNED, OWNERS};
use engine::body::Body;
use engine::checked::CheckedBody;
use engine::types::EngineId;
use fgo_state::owners::OwnersRef;
use fgo_state::state::FixedLagRefiner;
use id_index::IdIndex;
use refusals::Refusal;

// New associations with an id.
fn id_count(b: &CheckedBody<'_>) -> usize
    ensures { (result ≡ id_count (frame_in (body_of b.now.body)).associations) × (result ≤ ASSOCIATIONS) }
{
    (0..b.body.association_count())
        .filter(|j| b.association(*j).track.is_some())
        .count()
}

// The engine ids of a frame that no owner entry has, each once: the first `count`.
#[derive(Drop)]
struct NewEngines {
    all: [u64; ASSOCIATIONS],
    count: usize,
}

impl NewEngines {
    // One more, unless an entry has it or it is among them.
    fn join(&mut self, owners: &IdIndex<'_>, e: EngineId)
        requires { self.old.count < ASSOCIATIONS }
        ensures ids { owners.now.ids.now ++ cells 0 self.new.all 0 self.new.count
            ≡ join_end (Some e) (owners.now.ids.now ++ cells 0 self.old.all 0 self.old.count) }
        ensures count { self.new.count ≤ self.old.count + 1 }
    {
        if !owners.has(e.0) && !self.all[..self.count].contains(&e.0) {
            self.all[self.count] = e.0;
            self.count += 1;
        }
    }
}

// Engine ids with an owner, joined with the frame's.
fn joined_count(o: &OwnersRef<'_>, b: &CheckedBody<'_>) -> usize
    ensures { result ≡ length (joined_in o.now.entries.now o.now.owned (body_of b.now.body) 0) }
{
    let mut keys = [0; OWNED];
    o.keys(&mut keys);
    let owners = IdIndex::of(&keys[..o.owned]);
    let mut joined = NewEngines {
        all: [0; ASSOCIATIONS],
        count: 0,
    };
    for j in (0..b.body.association_count()).rev() {
        if let Some(e) = b.association(j).track {
            joined.join(&owners, e);
        }
    }
    o.owned + joined.count
}

// `Refusal::Count`: no more scans, ids or moves can be counted.
fn is_full(r: &FixedLagRefiner) -> bool
    requires { r.now.first.0 + r.now.held ≤ ACCEPTED + 1 }
    ensures { result ≡ full_in r.now }
{
    let k = &r.counters;
    ACCEPTED <= r.first.0 + r.held as u64
        || COUNTED < r.next_id.0
        || COUNTED < k.swaps
        || COUNTED < k.merges
        || COUNTED < k.splits
        || COUNTED < k.drops
}

// Whether a frame may be pushed, after `State` and `Output`: or the first that it is refused for of `Frame`,
// `Coordinate`, `Index`, `Count`, `Detections` and `Owners`, where so many detections lie in windows. It asks that SCANS
// scans at most are held, with FROZEN parts, OWNED owners and DETECTIONS such detections at most.
pub fn check_push(
    r: &FixedLagRefiner,
    detections: usize,
    owners: &[u64; OWNERS],
    b: &Body<'_>,
) -> Result<(), Refusal>
    requires { Refuses r.now detections }
    ensures { refused result ≡ push_refusal r.now detections owners.now (body_of b.now) }
{
    let b = engine_check::check_body(b)?;
    if is_full(r) {
        return Err(Refusal::Count);
    }
    let ids = id_count(&b);
    if DETECTIONS < r.frozen + detections + ids {
        return Err(Refusal::Detections);
    }
    let owners = OwnersRef {
        entries: owners,
        owned: r.owned,
    };
    // Joined they are no more than both together, which mostly are few.
    if OWNED < r.owned + ids && OWNED < joined_count(&owners, &b) {
        return Err(Refusal::Owners);
    }
    Ok(())
}
