// The emitted frame: words and numbers at the start of the lent buffers.
#![tactic(auto)]

ghost use Rattle.std.specs.Prelude.{◌≡◌, ◌+◌, ◌*◌, ◌<◌, ◌≤◌, true, length, ◌-ℤ◌, int_le};
ghost use Rattle.bounds.specs.Bounds.{FROZEN, HEAD, LINK, VECTOR};
ghost use Rattle.engine.specs.Config.{coast};
ghost use Rattle.engine.specs.Body.{body_of, time_ok, frame_in, sensors_in, associations_in};
ghost use Rattle.engine.specs.Encode.{cost_present};
ghost use Rattle.fgo_spec.specs.Emitting as spec;
ghost use Rattle.buffers.specs.Buffers.{over};
ghost use Rattle.fgo_part.specs.Parts.{prefix_of, table_in, part_last_ns};
ghost use Rattle.fgo_freeze.specs.Frozen.{PartsOk};
ghost use Rattle.fgo_emit.specs.Writing.{Lists, report_in, PutsTrack, PutTrack, Roomy, PutTracks, links_in, costs_in, emitted_in, PutsFrame, PutFrame, head_in};

use bounds::{HEAD, LINK, PARTS, STATE, TRACK, VECTOR};
use buffers::{FrameSize, put};
use engine::config::FgoConfig;
use engine::types::{Association, Outcome, RefinedId, ScanIndex};
use fgo_freeze::moment::Moment;
use fgo_part::{FrozenParts, Prefix, class_word, part_id};
use fgo_state::scan::HeldScan;
use fgo_state::scans::Scans;
use kf::filter::Kf;
use scalar::bits;

// ---- tracks

fn lifecycle(count: u64) -> u64
    ensures { result ≡ spec.lifecycle count }
{
    u64::from(2 <= count)
}

// The words of a listed track.
fn track_words(at: Moment, id: RefinedId, p: Prefix) -> [u64; TRACK]
    requires { Lists p }
    ensures { result ≡ spec.track_words (spec.report at.config at.time id.0 (prefix_of p)) }
{
    [
        id.0,
        lifecycle(p.count),
        bits::to_word(p.last_ns),
        bits::to_word(at.age_of(p.last_ns)),
        class_word(p.class),
        p.count,
    ]
}

// Where an entry of the covariance stands among the numbers of a listed track: by rows, after position and velocity.
// As it is, here and below: numbers at a place by row and column, and no matrix: by rows in one list is the published
// format of an emitted frame.
fn entry(row: usize, column: usize) -> usize
    requires { (row < VECTOR) × (column < VECTOR) }
    ensures { result ≡ VECTOR + VECTOR * row + column }
{
    VECTOR + VECTOR * row + column
}

// The numbers of a listed track: position, velocity and covariance.
fn row_of(k: Kf, height: f64, r: f64) -> [f64; STATE]
    ensures { result ≡ spec.state_numbers k height r }
{
    let mut l = [0.0; STATE];
    l[0] = k.x;
    l[1] = k.y;
    l[2] = height;
    l[3] = k.vx;
    l[4] = k.vy;
    l[entry(0, 0)] = k.p00;
    l[entry(0, 3)] = k.p01;
    l[entry(1, 1)] = k.p00;
    l[entry(1, 4)] = k.p01;
    l[entry(2, 2)] = r;
    l[entry(3, 0)] = k.p01;
    l[entry(3, 3)] = k.p11;
    l[entry(4, 1)] = k.p01;
    l[entry(4, 4)] = k.p11;
    l[entry(5, 5)] = r;
    l
}

fn track_numbers(at: Moment, id: RefinedId, p: Prefix) -> [f64; STATE]
    requires { Lists p }
    ensures { result ≡ spec.track_numbers (spec.report at.config at.time id.0 (prefix_of p)) }
{
    let c = at.config;
    let k = p
        .kf
        .predict(bits::seconds(at.time), c.accel_spectral_density);
    row_of(k, p.heights.mean(), c.position_variance())
}

// Frozen part k as listed track i.
// As it is: words and numbers at a stride, which are the published format of an emitted frame.
fn put_track(
    at: Moment,
    parts: &FrozenParts,
    k: usize,
    i: usize,
    words: &mut [u64],
    numbers: &mut [f64],
)
    requires { PutsTrack parts.now.tracks parts.now.filters k i words.old numbers.old }
    ensures { PutTrack (report_in at.config at.time parts.now.tracks parts.now.filters k) i words.old numbers.old words.new numbers.new }
{
    let id = part_id(&parts.tracks, k);
    let p = parts.prefix_at(k);
    put(words, HEAD + TRACK * i, &track_words(at, id, p));
    put(numbers, STATE * i, &track_numbers(at, id, p));
}

// Whether frozen part k is listed at a moment: its age is at most coast_ns.
fn is_listed(at: Moment, tracks: &[u64; PARTS], k: usize) -> bool
    requires { (k < FROZEN) × (time_ok (part_last_ns tracks.now k) ≡ true) }
    ensures { result ≡ int_le (at.time -ℤ part_last_ns tracks.now k) (coast at.config) }
{
    at.part_age(tracks, k) <= at.config.coast_ns
}

// The listed tracks; how many they are.
// As it is: a loop that counts, and no `(0..frozen).filter(..).enumerate()`: that tells no count after the last, so the
// filter would stand here twice.
fn put_tracks(
    at: Moment,
    parts: &FrozenParts,
    frozen: usize,
    words: &mut [u64],
    numbers: &mut [f64],
) -> usize
    requires { PartsOk at.time parts.now.tracks parts.now.filters frozen × Roomy words.old numbers.old }
    ensures tracks { PutTracks (spec.listing at.config at.time (table_in parts.now.tracks parts.now.filters frozen)) result
        words.old numbers.old words.new numbers.new }
    ensures few { result ≤ FROZEN }
{
    let mut i: usize = 0;
    for k in 0..frozen {
        if is_listed(at, &parts.tracks, k) {
            put_track(at, parts, k, i, words, numbers);
            i += 1;
        }
    }
    i
}

// ---- associations and sensors

fn cost_present(k: Option<f64>) -> u64
    ensures { result ≡ cost_present k }
{
    u64::from(k.is_some())
}

// The words of an association under an id, 0 for none.
fn association_words(a: Association, id: RefinedId) -> [u64; LINK]
    ensures { result ≡ spec.association_words a id.0 }
{
    let outcome = if id.0 == 0 {
        u64::from(Outcome::Unmatched)
    } else {
        u64::from(a.outcome)
    };
    [a.index.0 as u64, id.0, outcome, cost_present(a.cost)]
}

// The associations of a scan, from place o on.
fn put_associations(s: &HeldScan<'_>, words: &mut [u64], o: usize)
    requires { o + LINK * associations_in (body_of s.now.frame.body) ≤ length words.old }
    ensures { words.new ≡ over o (links_in s.now.scans.now.columns s.now.n.0 (body_of s.now.frame.body)) words.old }
{
    for j in 0..s.count() {
        let ws = association_words(s.association(j), s.id(j));
        put(words, o + LINK * j, &ws);
    }
}

// The costs of a scan's associations, from place o on.
fn put_costs(s: &HeldScan<'_>, numbers: &mut [f64], o: usize)
    requires { o + associations_in (body_of s.now.frame.body) ≤ length numbers.old }
    ensures { numbers.new ≡ over o (costs_in (body_of s.now.frame.body)) numbers.old }
{
    for (j, x) in numbers[o..o + s.count()].iter_mut().enumerate() {
        *x = s.association(j).cost.unwrap_or(0.0);
    }
}

// The sensors of a scan, from place o on.
fn put_sensors(s: &HeldScan<'_>, words: &mut [u64], o: usize)
    requires { o + sensors_in (body_of s.now.frame.body) ≤ length words.old }
    ensures { words.new ≡ over o (frame_in (body_of s.now.frame.body)).sensors words.old }
{
    for (i, w) in words[o..o + s.frame.body.sensor_count()]
        .iter_mut()
        .enumerate()
    {
        *w = s.frame.sensor(i);
    }
}

// ---- the frame

// The words before the tracks.
fn put_head(s: &HeldScan<'_>, tracks: usize, words: &mut [u64])
    requires { HEAD ≤ length words.old }
    ensures { words.new ≡ over 0 (head_in (body_of s.now.frame.body) tracks) words.old }
{
    let ws = [
        bits::to_word(s.frame.time()),
        u64::from(s.frame.body.mode()),
        tracks as u64,
        s.count() as u64,
        s.frame.body.sensor_count() as u64,
        0,
    ];
    put(words, 0, &ws);
}

// The frame of scan n, after its detections were frozen. The body must pass, all times be in bounds, and the buffers
// have room.
// As it is: words and numbers are two arguments. A struct of both was tried: once they are lent to it, no fact says
// what they hold afterwards.
pub fn put_frame(
    c: FgoConfig,
    scans: &Scans,
    n: ScanIndex,
    parts: &FrozenParts,
    frozen: usize,
    words: &mut [u64],
    numbers: &mut [f64],
) -> FrameSize
    requires { PutsFrame scans.now.bodies scans.now.columns n.0 parts.now.tracks parts.now.filters frozen words.old numbers.old }
    ensures { PutFrame (emitted_in c scans.now.bodies scans.now.columns n.0 parts.now.tracks parts.now.filters frozen) result words.old
        numbers.old words.new numbers.new }
{
    let s = scans.held(n);
    let at = Moment {
        config: c,
        time: s.frame.time(),
    };
    let t = put_tracks(at, parts, frozen, words, numbers);
    put_head(&s, t, words);
    let a = HEAD + TRACK * t;
    let count = s.count();
    let e = a + LINK * count;
    put_associations(&s, words, a);
    put_sensors(&s, words, e);
    put_costs(&s, numbers, STATE * t);
    FrameSize {
        words: e + s.frame.body.sensor_count(),
        numbers: STATE * t + count,
    }
}
