// Placing: each association of a new frame goes to the track that owns its engine id, or starts a track.
ghost use Rattle.std.specs.Prelude.{◌≡◌, ◌+◌, ◌^◌, ◌<◌, ◌≤◌, Some};
ghost use mathlib.Core.List.{flat_map};
ghost use Rattle.bounds.specs.Bounds.{ASSOCIATIONS, OWNED};
ghost use Rattle.buffers.specs.Buffers.{over};
ghost use Rattle.engine.specs.Body.{body_of, frame_in, associations_in};
ghost use Rattle.fgo_spec.specs.Placing as spec;
ghost use Rattle.fgo_state.specs.Memory.{owner_of, owner_words, owners_in};
ghost use Rattle.fgo_state.specs.Owners.{id_from};
ghost use Rattle.fgo_place.specs.Placing.{assigned_in, free_below, placed_one, placed_all, Grown, Placed, begins};

use crate::placing::Placing;
use bounds::{ASSOCIATIONS, OWNED, OWNERS};
use engine::checked::CheckedBody;
use engine::types::{EngineId, RefinedId};
use fgo_state::owners::{OwnersRef, put_owner};

// An engine id gets an owner: its entry, or a new one at the end while there is room. How many entries there are then.
// As it is, here and in own.rt: the owners and how many there are, as two arguments. Once the array is lent to a struct
// by `&mut`, no fact says what it holds afterwards.
fn assign(owners: &mut [u64; OWNERS], owned: usize, e: EngineId, x: RefinedId) -> usize
    requires { owned ≤ OWNED }
    ensures few { result ≤ OWNED }
    ensures owners { owners_in owners.new result ≡ assigned_in e.0 x.0 (owners_in owners.old owned) }
    ensures grown { Grown owned result owners.old owners.new }
{
    let table = OwnersRef {
        entries: owners,
        owned,
    };
    if let Some(k) = table.place_of(e) {
        put_owner(owners, k, e, x);
        return owned;
    }
    if owned < OWNED {
        put_owner(owners, owned, e, x);
        return owned + 1;
    }
    owned
}

// The owner of an engine id, if it was there before this push and has no detection among the ids of the frame so far.
// `old` is the next id before the push.
fn free_owner(old: RefinedId, table: &OwnersRef<'_>, e: EngineId, ids: &[u64]) -> Option<RefinedId>
    ensures { result ≡ id_from (free_below old.0 ids.now (owner_of table.now.entries.now table.now.owned e.0)) }
{
    table
        .owner_of(e)
        .filter(|x| *x < old && !ids.contains(&x.0))
}

// Association j, with an engine id: it goes to its owner, or starts a track, which owns the engine id from then on.
fn place_track(
    p: Placing,
    old: RefinedId,
    e: EngineId,
    j: usize,
    owners: &mut [u64; OWNERS],
    ids: &mut [u64; ASSOCIATIONS],
) -> Placing
    requires { (j < ASSOCIATIONS) × (p.next_id.0 < 2 ^ 63) }
    ensures next { result.next_id.0 ≤ p.next_id.0 + 1 }
    ensures grown { Grown p.owned result.owned owners.old owners.new }
    ensures placed { (q : spec.Placing) → Placed j q p owners.old ids.old
        → Placed (j + 1) (placed_one old.0 q (Some e)) result owners.new ids.new }
{
    let table = OwnersRef {
        entries: owners,
        owned: p.owned,
    };
    if let Some(x) = free_owner(old, &table, e, &ids[..j]) {
        ids[j] = x.0;
        return p;
    }
    ids[j] = p.next_id.0;
    Placing {
        owned: assign(owners, p.owned, e, p.next_id),
        next_id: RefinedId(p.next_id.0 + 1),
    }
}

// Association j.
fn place_one(
    p: Placing,
    old: RefinedId,
    t: Option<EngineId>,
    j: usize,
    owners: &mut [u64; OWNERS],
    ids: &mut [u64; ASSOCIATIONS],
) -> Placing
    requires { (j < ASSOCIATIONS) × (p.next_id.0 < 2 ^ 63) }
    ensures next { result.next_id.0 ≤ p.next_id.0 + 1 }
    ensures grown { Grown p.owned result.owned owners.old owners.new }
    ensures placed { (q : spec.Placing) → Placed j q p owners.old ids.old → Placed (j + 1) (placed_one old.0 q t) result owners.new ids.new }
{
    match t {
        None => {
            ids[j] = 0;
            p
        }
        Some(e) => place_track(p, old, e, j, owners, ids),
    }
}

// The associations of a frame, in order, none of which has an id yet: the ids of their tracks. The next id must be
// below 2^62.
pub fn place_all(
    b: &CheckedBody<'_>,
    begun: Placing,
    owners: &mut [u64; OWNERS],
    ids: &mut [u64; ASSOCIATIONS],
) -> Placing
    requires { begun.next_id.0 < 2 ^ 62 }
    ensures { let p = placed_all begun.next_id.0 (frame_in (body_of b.now.body)).associations (begins owners.old begun.owned begun.next_id.0) in
        (owners.new ≡ over 0 (flat_map owner_words p.owners) owners.old) × Placed (associations_in (body_of b.now.body)) p result owners.new ids.new }
{
    let mut p = begun;
    for j in 0..b.body.association_count() {
        p = place_one(p, begun.next_id, b.association(j).track, j, owners, ids);
    }
    p
}
