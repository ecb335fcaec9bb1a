// Owning: after a search each engine id goes to the track that holds its latest detection, and an owner stays while it
// is live.
ghost use Rattle.std.specs.Prelude.{◌≡◌, ◌*◌, ◌≤◌, length};
ghost use mathlib.Core.List.{flat_map};
ghost use Rattle.bounds.specs.Bounds.{OWNED, OWNER};
ghost use Rattle.buffers.specs.Buffers.{over, renewed};
ghost use Rattle.fgo_spec.specs.Lists.{keep};
ghost use Rattle.fgo_state.specs.Live.{live_among};
ghost use Rattle.fgo_state.specs.Memory.{owner_words, owners_in};
ghost use Rattle.fgo_state.specs.Gathering.{held_latest};

use bounds::{OWNER, OWNERS};
use fgo_state::gather::Gathered;
use fgo_state::owners::{engine_at, owner_at, put_owner};
use fgo_state::state::LiveTracks;
use id_index::IdIndex;

// The owners, each changed to the holder of the latest detection of its engine id, if a window has one. It asks for
// OWNED owners at most, and for the engine ids that were gathered.
// As it is, here and in keep_owners: a loop over places and no iterator over entries. `chunks_exact_mut` was tried
// here, and the proof did not close: once its borrow is over, the check knows how long the array is and not what it
// holds. And keep_owners writes an entry at another place than where it was read.
pub fn hold_latest(
    owners: &mut [u64; OWNERS],
    owned: usize,
    gathered: &Gathered,
    engines: &IdIndex<'_>,
)
    requires { (owned ≤ OWNED) × (gathered.now.count ≤ length engines.now.ids.now) }
    ensures { let g = gathered.now in let os = held_latest g.ids engines.now.ids.now g.starts g.held (owners_in owners.old owned) in
        owners.new ≡ over 0 (flat_map owner_words os) owners.old }
{
    for k in 0..owned {
        let e = engine_at(owners, k);
        if let Some(x) = gathered.latest(engines, e) {
            put_owner(owners, k, e, x);
        }
    }
}

// The entries of the owner table that have a live owner, moved together, and the others cleared; how many stay. It asks
// for OWNED owners at most.
// As it is: a loop like that of fgo_freeze's `forget`: here entries of one array move, there parts of two arrays. A
// function of both would take two closures, one that tests a place and one that moves what lies there, which is no
// plainer. And w counts by hand: a `filter` with `enumerate` tells no count after the last, as fgo_emit's `put_tracks`
// says.
pub fn keep_owners(live: &LiveTracks<'_>, owned: usize, owners: &mut [u64; OWNERS]) -> usize
    requires { owned ≤ OWNED }
    ensures { let os = keep (λ o. live_among live.now o.1) (owners_in owners.old owned) in
        (result ≡ length os) × (owners.new ≡ renewed 0 (OWNER * owned) (flat_map owner_words os) owners.old) }
{
    let mut w: usize = 0;
    for k in 0..owned {
        let x = owner_at(owners, k);
        if live.has(x) {
            put_owner(owners, w, engine_at(owners, k), x);
            w += 1;
        }
    }
    buffers::clear(owners, OWNER * w, OWNER * (owned - w), 0);
    w
}
