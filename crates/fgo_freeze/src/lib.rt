// Freezing: the oldest scan's detections move the frozen parts of their tracks on, and parts that nothing asks for any
// more are forgotten.
#![tactic(auto)]

pub mod moment;

ghost use Rattle.std.specs.Prelude.{◌≡◌, true, ◌<◌, ◌≤◌, None};
ghost use Rattle.std.proofs.Math.Option.{none, some};
ghost use Rattle.bounds.specs.Bounds.{FROZEN};
ghost use Rattle.engine.specs.Body.{body_of, time_ok, frame_in};
ghost use Rattle.fgo_spec.specs.Windows.{class_among, class_for};
ghost use Rattle.fgo_spec.specs.Freezing as spec;
ghost use Rattle.fgo_part.specs.Parts.{prefix_of, table_in, part_last_ns};
ghost use Rattle.fgo_state.specs.Memory.{scan_in, scans_in};
ghost use Rattle.fgo_state.specs.Gathering.{dot_of};
ghost use Rattle.fgo_freeze.specs.Frozen.{detection_by, seen_in, Moves, Raised, frozen_by, Freezes, FreezesScan, Past, kept_in, PartsOk, Remembered};

use crate::moment::Moment;
use bounds::{FILTER, PART, PARTS};
use engine::checked::CheckedBody;
use engine::config::FgoConfig;
use engine::types::{EngineId, RefinedId, ScanIndex};
use fgo_part::{FrozenParts, FrozenTracks, Heights, Prefix, part_id};
use fgo_state::held::HeldRef;
use fgo_state::scan::HeldScan;
use fgo_state::scans::Scans;
use kf::filter::{Dot, Kf};
use scalar::bits;

// A detection as it is frozen: the number of its scan, the scan's time, where it lies, and the class that its
// association knows.
#[derive(Clone, Copy)]
pub struct Detection {
    pub scan: ScanIndex,
    pub time: i64,
    pub x: f64,
    pub y: f64,
    pub z: f64,
    pub class: Option<u32>,
}

// ---- what a frame says of an association

// The class of the last engine track of a frame with this id.
fn class_among(b: &CheckedBody<'_>, e: EngineId) -> Option<u32>
    ensures { result ≡ class_among e.0 None (frame_in (body_of b.now.body)).tracks }
{
    (0..b.body.track_count())
        .rev()
        .map(|i| b.track(i))
        .find(|t| t.id == e)
        .and_then(|t| t.class)
}

fn class_for(b: &CheckedBody<'_>, a: Option<EngineId>) -> Option<u32>
    ensures { result ≡ class_for a (frame_in (body_of b.now.body)).tracks }
{
    class_among(b, a?)
}

// Association j of a scan.
fn seen_at(s: &HeldScan<'_>, j: usize) -> Detection
    ensures { detection_by result ≡ seen_in s.now.n.0 (body_of s.now.frame.body) j }
{
    let a = s.association(j);
    let p = s.frame.observation(a.index);
    Detection {
        scan: s.n,
        time: s.frame.time(),
        x: p.x,
        y: p.y,
        z: p.z,
        class: class_for(&s.frame, a.track),
    }
}

// ---- one detection more

// A detection as the filter takes it.
fn dot_of(c: FgoConfig, d: Detection) -> Dot
    ensures { result ≡ dot_of c (detection_by d) }
{
    Dot {
        x: d.x,
        y: d.y,
        r: c.position_variance(),
        t: bits::seconds(d.time),
    }
}

// The frozen part of a track that had none.
fn fresh(c: FgoConfig, d: Detection) -> Prefix
    ensures { prefix_of result ≡ spec.freeze c none (detection_by d) }
{
    Prefix {
        kf: Kf::start(dot_of(c, d), c.initial_velocity_variance),
        last_frame: d.scan,
        last_ns: d.time,
        count: 1,
        heights: Heights::new().with(d.z),
        class: d.class,
    }
}

// The frozen filter moves on by one detection.
fn moved_on(c: FgoConfig, kf: Kf, d: Detection) -> Kf
    ensures { result ≡ spec.move_on c kf (detection_by d) }
{
    let mut k = kf;
    k.advance(dot_of(c, d), c.accel_spectral_density);
    k
}

// A frozen part after one detection more.
fn freeze(c: FgoConfig, p: Prefix, d: Detection) -> Prefix
    requires { Moves p }
    ensures { prefix_of result ≡ spec.freeze c (some (prefix_of p)) (detection_by d) }
{
    Prefix {
        kf: moved_on(c, p.kf, d),
        last_frame: d.scan,
        last_ns: d.time,
        count: p.count + 1,
        heights: p.heights.with(d.z),
        class: d.class.or(p.class),
    }
}

// ---- the table of frozen parts

// The parts from k on move up by one; no cell past the last of them changes.
// As it is, here and below: the parts and how many there are are two arguments. A caller lends the parts apart from the
// state, which counts them, so a struct of both would hold a `&mut`, and of such a struct no fact says what it holds
// afterwards.
// As it is: by PART and FILTER, at which stride parts lie in the lent memory: that is a published format.
fn make_room(parts: &mut FrozenParts, k: usize, frozen: usize)
    requires { (k ≤ frozen) × (frozen < FROZEN) }
    ensures { Raised k frozen parts.old.tracks parts.old.filters parts.new.tracks parts.new.filters }
{
    parts
        .tracks
        .copy_within(PART * k..PART * frozen, PART * (k + 1));
    parts
        .filters
        .copy_within(FILTER * k..FILTER * frozen, FILTER * (k + 1));
}

// One detection is frozen into its track; how many parts there are then, past which no cell changes.
fn freeze_one(
    c: FgoConfig,
    parts: &mut FrozenParts,
    frozen: usize,
    id: RefinedId,
    d: Detection,
) -> usize
    requires { Freezes id.0 parts.old.tracks parts.old.filters frozen }
    ensures past { Past result parts.old.tracks parts.old.filters parts.new.tracks parts.new.filters }
    ensures table { table_in parts.new.tracks parts.new.filters result
        ≡ frozen_by c id.0 (detection_by d) (table_in parts.old.tracks parts.old.filters frozen) }
{
    let tracks = FrozenTracks {
        tracks: &parts.tracks,
        count: frozen,
    };
    let k = tracks.place_of(id);
    if k < frozen && part_id(&parts.tracks, k) == id {
        let p = parts.prefix_at(k);
        parts.put(k, id, freeze(c, p, d));
        return frozen;
    }
    make_room(parts, k, frozen);
    parts.put(k, id, fresh(c, d));
    frozen + 1
}

// The detections of a scan are frozen into their tracks; how many parts there are then, past which no cell changes. The
// scan's body must pass, the table be in order and have room.
pub fn freeze_scan(
    c: FgoConfig,
    scans: &Scans,
    n: ScanIndex,
    parts: &mut FrozenParts,
    frozen: usize,
) -> usize
    requires { FreezesScan scans.now.bodies scans.now.columns n.0 parts.old.tracks parts.old.filters frozen }
    ensures past { Past result parts.old.tracks parts.old.filters parts.new.tracks parts.new.filters }
    ensures table { table_in parts.new.tracks parts.new.filters result
        ≡ spec.freeze_scan c n.0 (scan_in scans.now.bodies scans.now.columns n.0) (table_in parts.old.tracks parts.old.filters frozen) }
{
    let s = scans.held(n);
    let mut f = frozen;
    for j in 0..s.count() {
        let id = s.id(j);
        if 0 < id.0 {
            f = freeze_one(c, parts, f, id, seen_at(&s, j));
        }
    }
    f
}

// ---- forgetting

// Whether frozen part k stays: its age is at most forget_after_ns, or its track has a window, which is the longer of
// the two to find out.
fn is_kept(at: Moment, held: &HeldRef<'_>, tracks: &[u64; PARTS], k: usize) -> bool
    requires { (k < FROZEN) × (time_ok (part_last_ns tracks.now k) ≡ true) }
    ensures { result
        ≡ kept_in at.config at.time (scans_in held.now.scans.now.bodies held.now.scans.now.columns held.now.first.0 held.now.count) tracks.now k }
{
    at.part_age(tracks, k) <= at.config.forget_after_ns || held.windows_in(part_id(tracks, k))
}

// The frozen parts that stay, moved together, and the others cleared; how many stay. All times must be in bounds.
// As it is: a part that stays is read and written by value, so that what it leaves is told by the part alone: a word
// for a class that is not known, and the place of a height that is not there, may be anything in what a caller lends.
// As it is: a loop like that of `keep_owners`. This one moves parts in two arrays, that one entries in one, so a
// function of both would take a closure that tells which stay and one that moves them, which is no plainer. `w += 1`
// counts those that stayed, which no iterator tells after its last, as `put_tracks` of fgo_emit says.
pub fn forget(
    c: FgoConfig,
    time: i64,
    held: &HeldRef<'_>,
    parts: &mut FrozenParts,
    frozen: usize,
) -> usize
    requires { PartsOk time parts.old.tracks parts.old.filters frozen }
    ensures { Remembered (spec.remember c time
        (scans_in held.now.scans.now.bodies held.now.scans.now.columns held.now.first.0 held.now.count)
        (table_in parts.old.tracks parts.old.filters frozen)) frozen result
        parts.old.tracks parts.old.filters parts.new.tracks parts.new.filters }
{
    let at = Moment { config: c, time };
    let mut w: usize = 0;
    for k in 0..frozen {
        if is_kept(at, held, &parts.tracks, k) {
            let id = part_id(&parts.tracks, k);
            let p = parts.prefix_at(k);
            parts.put(w, id, p);
            w += 1;
        }
    }
    parts.clear(w, frozen);
    w
}
