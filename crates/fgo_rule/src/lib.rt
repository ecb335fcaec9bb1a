// The state rule, checked whole: `Refusal::State` is answered where it is broken.
#![tactic(auto)]

ghost use Rattle.std.specs.Prelude.{◌≡◌, ◌<◌, ◌≤◌, ◌&&◌, length, is_some, IfSome};
ghost use Rattle.bounds.specs.Bounds.{FROZEN};
ghost use Rattle.engine.specs.Body.{body_of, associations_in};
ghost use Rattle.fgo_spec.specs.Rule.{loose_ok};
ghost use Rattle.fgo_state.specs.Live.{live_among};
ghost use Rattle.fgo_state.specs.Gathered.{GatheredOf};
ghost use Rattle.fgo_state.specs.Owners.{engines_in};
ghost use Rattle.fgo_state.specs.Sound.{bodies_ok};
ghost use Rattle.fgo_rule.specs.Tests.{counts_ok, id_ok, column_in, scan_ok, columns_ok, id_before, part_ok, parts_ok};
ghost use Rattle.fgo_rule.specs.Tests.{last_at, distinct_in, owned_at, owned_all, lives_in, sound_in};

mod owners;

use crate::owners::IndexedOwners;
use bounds::{ACCEPTED, DETECTIONS, FROZEN, HEIGHTS, OWNED, OWNERS, PARTS};
use engine::types::{EngineId, RefinedId, ScanIndex};
use fgo_part::{part_count, part_height_count, part_id, part_last_frame, part_last_ns};
use fgo_state::gather::Gathered;
use fgo_state::held::HeldRef;
use fgo_state::owners::{OwnersRef, owner_at};
use fgo_state::scan::HeldScan;
use fgo_state::scans::Scans;
use fgo_state::state::{FixedLagRefiner, LiveTracks};
use id_index::IdIndex;

// ---- counts

fn counts_ok(r: &FixedLagRefiner) -> bool
    ensures { result ≡ counts_ok r.now }
{
    r.config.is_legal()
        && r.held <= r.config.lag_frames
        && r.first.0 <= ACCEPTED
        && r.first.0 + r.held as u64 <= ACCEPTED
        && r.next_id.0 != 0
        && r.frozen <= FROZEN
        && r.owned <= OWNED
}

// ---- held scans

// Clutter where there is no engine id.
fn loose_ok(a: Option<EngineId>, id: RefinedId) -> bool
    ensures { result ≡ loose_ok a id.0 }
{
    a.is_some() || id.0 == 0
}

// The id of association j of a held scan.
fn id_ok(next: RefinedId, s: &HeldScan<'_>, j: usize) -> bool
    requires { j < associations_in (body_of s.now.frame.body) }
    ensures { result ≡ id_ok next.0 s.now.scans.now.columns (body_of s.now.frame.body) s.now.n.0 j }
{
    let x = s.id(j);
    (x.0 == 0 || !s.scans.stands_in(s.n, j + 1, s.count(), x))
        && x < next
        && loose_ok(s.association(j).track, x)
}

fn column_ok(next: RefinedId, s: &HeldScan<'_>) -> bool
    ensures { result ≡ column_in next.0 s.now.scans.now.columns (body_of s.now.frame.body) s.now.n.0 }
{
    (0..s.count()).all(|j| id_ok(next, s, j))
}

// Scan n has a body that passes, and ids in order.
fn scan_ok(next: RefinedId, scans: &Scans, n: ScanIndex) -> bool
    ensures { result ≡ scan_ok next.0 scans.now.bodies scans.now.columns n.0 }
{
    let Ok(frame) = engine_check::check_body(&scans.body(n)) else {
        return false;
    };
    column_ok(next, &HeldScan { scans, n, frame })
}

fn scans_ok(next: RefinedId, h: &HeldRef<'_>) -> bool
    ensures { result
        ≡ bodies_ok h.now.scans.now.bodies h.now.scans.now.columns h.now.first.0 h.now.count
        && columns_ok next.0 h.now.scans.now.bodies h.now.scans.now.columns h.now.first.0 h.now.count }
{
    (0..h.count).all(|i| scan_ok(next, h.scans, h.first.later(i)))
}

// ---- frozen parts

// The id before that of frozen part k, 0 before the first.
fn id_before(tracks: &[u64; PARTS], k: usize) -> RefinedId
    requires { k < FROZEN }
    ensures { result.0 ≡ id_before tracks.now k }
{
    if k == 0 {
        RefinedId(0)
    } else {
        part_id(tracks, k - 1)
    }
}

fn part_ok(first: ScanIndex, next: RefinedId, tracks: &[u64; PARTS], k: usize) -> bool
    requires { k < FROZEN }
    ensures { result ≡ part_ok first.0 next.0 tracks.now k }
{
    let id = part_id(tracks, k);
    let count = part_count(tracks, k);
    let heights = part_height_count(tracks, k);
    id_before(tracks, k) < id
        && id < next
        && 1 <= count
        && count <= first.0
        && 1 <= heights
        && heights <= HEIGHTS as u64
        && part_last_frame(tracks, k) < first
        && engine_check::time_ok(part_last_ns(tracks, k))
}

fn parts_ok(first: ScanIndex, next: RefinedId, tracks: &[u64; PARTS], frozen: usize) -> bool
    requires { frozen ≤ FROZEN }
    ensures { result ≡ parts_ok first.0 next.0 tracks.now frozen }
{
    (0..frozen).all(|k| part_ok(first, next, tracks, k))
}

// ---- owners

// The id at place k of a list stands at no later place.
fn is_last(ids: &IdIndex<'_>, k: usize) -> bool
    requires { k < length ids.now.ids.now }
    ensures { result ≡ last_at ids.now.ids.now k }
{
    ids.place_of(ids.ids[k]) == Some(k)
}

// No id of a list stands at two places: each stands at its last one alone.
fn are_distinct(ids: &IdIndex<'_>) -> bool
    ensures { result ≡ distinct_in ids.now.ids.now }
{
    (0..ids.ids.len()).all(|k| is_last(ids, k))
}

// The engine id of gathered detection i is owned by the holder of its latest: one that stands again later is tested
// there.
fn is_owned(g: &Gathered, engines: &IdIndex<'_>, o: &IndexedOwners<'_>, i: usize) -> bool
    requires { (i < length engines.now.ids.now) × (g.now.count ≤ length engines.now.ids.now) }
    ensures { result
        ≡ owned_at g.now.ids engines.now.ids.now g.now.starts g.now.held o.now.owners.entries.now o.now.owners.owned i }
{
    let e = EngineId(engines.ids[i]);
    !is_last(engines, i) || o.owner_of(e) == g.latest(engines, e)
}

// Each engine id gathered is owned by the holder of its latest. `engines` has those that were gathered.
fn owned_all(g: &Gathered, engines: &IdIndex<'_>, o: &IndexedOwners<'_>) -> bool
    requires { g.now.count ≤ length engines.now.ids.now }
    ensures { result
        ≡ owned_all g.now.ids engines.now.ids.now g.now.starts g.now.held o.now.owners.entries.now o.now.owners.owned }
{
    (0..engines.ids.len()).all(|i| is_owned(g, engines, o, i))
}

// Each owner is live.
fn lives_ok(live: &LiveTracks<'_>, o: &OwnersRef<'_>) -> bool
    ensures { result ≡ lives_in (live_among live.now) o.now.entries.now o.now.owned }
{
    (0..o.owned).all(|k| live.has(owner_at(o.entries, k)))
}

// Every entry of the owner table has an engine id of its own and a live owner, and each engine id gathered is owned by
// the holder of its latest. In this order: that an id is looked up at its last place wants ids that are distinct.
fn owners_ok(live: &LiveTracks<'_>, g: &Gathered, engines: &IdIndex<'_>, o: &OwnersRef<'_>) -> bool
    requires { g.now.count ≤ length engines.now.ids.now }
    ensures { result
        ≡ distinct_in (engines_in o.now.entries.now o.now.owned)
        && (owned_all g.now.ids engines.now.ids.now g.now.starts g.now.held o.now.entries.now o.now.owned
        && lives_in (live_among live.now) o.now.entries.now o.now.owned) }
{
    let mut keys = [0; OWNED];
    o.keys(&mut keys);
    let index = &IdIndex::of(&keys[..o.owned]);
    if !are_distinct(index) {
        return false;
    }
    owned_all(g, engines, &IndexedOwners { owners: *o, index }) && lives_ok(live, o)
}

// ---- the rule

// What the held scans have in windows, if a refiner and its memory meet the state rule, whatever the filters of the
// frozen parts are; the engine ids go where the caller has room for them.
// As it is: three parts of a `Memory`, since the filters are not asked for, as `counters` of fgo says. And the frozen
// parts are tested before the tracks that are live are lent: a part is found among rising ids only.
pub fn gather_sound(
    r: &FixedLagRefiner,
    scans: &Scans,
    owners: &[u64; OWNERS],
    tracks: &[u64; PARTS],
    engines: &mut [u64; DETECTIONS],
) -> Option<Gathered>
    ensures sound { is_some result ≡ sound_in r.now scans.now.bodies scans.now.columns owners.now tracks.now }
    ensures gathered { IfSome result (λ g. GatheredOf scans.now r.now.first.0 r.now.held engines.old g engines.new) }
{
    if !counts_ok(r) {
        return None;
    }
    let held = r.held_in(scans);
    if !scans_ok(r.next_id, &held) || !parts_ok(r.first, r.next_id, tracks, r.frozen) {
        return None;
    }
    if DETECTIONS < r.frozen + held.window_count() {
        return None;
    }
    let gathered = held.gather(engines);
    let index = IdIndex::of(&engines[..gathered.count]);
    let live = r.live_in(scans, tracks);
    let owners = OwnersRef {
        entries: owners,
        owned: r.owned,
    };
    if owners_ok(&live, &gathered, &index, &owners) {
        return Some(gathered);
    }
    None
}

// Whether a refiner and its memory meet the state rule, whatever the filters of the frozen parts are.
pub fn is_sound(
    r: &FixedLagRefiner,
    scans: &Scans,
    owners: &[u64; OWNERS],
    tracks: &[u64; PARTS],
) -> bool
    ensures { result ≡ sound_in r.now scans.now.bodies scans.now.columns owners.now tracks.now }
{
    let mut engines = [0; DETECTIONS];
    gather_sound(r, scans, owners, tracks, &mut engines).is_some()
}
