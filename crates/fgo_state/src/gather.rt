// The detections in windows of the held scans, gathered in order into flat lists for the rule and the search, and their
// ids put back.
ghost use Rattle.std.specs.Prelude.{◌≡◌, ◌+◌, ◌<◌, ◌≤◌, length};
ghost use Rattle.bounds.specs.Bounds.{SCANS, ASSOCIATIONS, DETECTIONS};
ghost use Rattle.engine.specs.Frame.{engine_of};
ghost use Rattle.engine.specs.Body.{body_of};
ghost use Rattle.buffers.specs.Buffers.{over};
ghost use Rattle.fgo_state.specs.Memory.{association_in};
ghost use Rattle.fgo_state.specs.Owners.{id_from};
ghost use Rattle.fgo_state.specs.Gathering.{dots_of, dot_in, count_in, Scattered, found_in, found_of, StartsWithin, holder_of, latest_of};
ghost use Rattle.fgo_state.specs.Gathering.{HeldScans, GathersScan, GatheredScan, ScatteredScan};

use crate::held::HeldRef;
use crate::scan::HeldScan;
use crate::scans;
use bounds::{BODIES, COLUMN, COLUMNS, DETECTIONS, STARTS};
use engine::config::FgoConfig;
use engine::types::{EngineId, RefinedId, ScanIndex};
use id_index::IdIndex;
use kf::filter::Dot;
use scalar::bits;

// The detections in windows of `held` scans, in order: `count` of them. `gather` writes their engine ids where the
// caller has room.
// As it is: an array of ids here and one of engine ids there. The search is lent the ids alone and changes them:
// structs would have to be taken apart before each search and put together again after it, which is no plainer. The
// engine ids are no field, since what a function returns is cleared before it is written: the shorter it is, the less
// that costs. And numbers in both: the definitions compare lists of numbers, and a list of ids would be mapped to one
// in each clause.
#[derive(Drop)]
pub struct Gathered {
    pub ids: [u64; DETECTIONS],
    // How many stand before each scan.
    pub starts: [usize; STARTS],
    pub held: usize,
    pub count: usize,
    pub ghost within: { StartsWithin starts held count },
    pub ghost few: { count ≤ DETECTIONS },
}

// The engine id of association j of a held scan; 0 where it has none.
fn engine_of(s: &HeldScan<'_>, j: usize) -> EngineId
    ensures { result.0 ≡ engine_of (association_in (body_of s.now.frame.body) j).track }
{
    s.association(j).track.unwrap_or(EngineId(0))
}

// The detections in windows of a held scan, from place o on; the place after the last.
// As it is, here, in dot_scan and in scatter_scan: a loop each, since each does another thing with what it meets: a
// function of all three would take a closure that writes to what is lent, which is no plainer. And p counts by hand: a
// `filter` with `enumerate` tells no count after the last, as fgo_emit's `put_tracks` says.
fn gather_scan(s: &HeldScan<'_>, o: usize, ids: &mut [u64], engines: &mut [u64]) -> usize
    requires { GathersScan (body_of s.now.frame.body) s.now.scans.now.columns s.now.n.0 o ids.old engines.old }
    ensures { GatheredScan (found_in s.now.scans.now.columns s.now.n.0 (body_of s.now.frame.body)) o result ids.old engines.old ids.new engines.new }
{
    let mut p = o;
    for j in 0..s.count() {
        let id = s.id(j);
        if 0 < id.0 {
            ids[p] = id.0;
            engines[p] = engine_of(s, j).0;
            p += 1;
        }
    }
    p
}

// Association j of a held scan as the search sees it.
fn dot_in(c: FgoConfig, s: &HeldScan<'_>, j: usize) -> Dot
    ensures { result ≡ dot_in c (body_of s.now.frame.body) j }
{
    let d = s.frame.observation(s.association(j).index);
    Dot {
        x: d.x,
        y: d.y,
        r: c.position_variance(),
        t: bits::seconds(s.frame.time()),
    }
}

// The dots of the detections in windows of a held scan, of which the first is detection o; the place after the last.
fn dot_scan(c: FgoConfig, s: &HeldScan<'_>, o: usize, dots: &mut [Dot; DETECTIONS]) -> usize
    requires { o + length (found_in s.now.scans.now.columns s.now.n.0 (body_of s.now.frame.body)) ≤ DETECTIONS }
    ensures count { result ≡ o + length (found_in s.now.scans.now.columns s.now.n.0 (body_of s.now.frame.body)) }
    ensures dots { dots.new ≡ over o (dots_of c (found_in s.now.scans.now.columns s.now.n.0 (body_of s.now.frame.body))) dots.old }
{
    let mut p = o;
    for j in 0..s.count() {
        if 0 < s.id(j).0 {
            dots[p] = dot_in(c, s, j);
            p += 1;
        }
    }
    p
}

impl Gathered {
    ghost use Rattle.fgo_state.specs.Gathered.{AddedScan};

    // The detections in windows of one more held scan, which comes after those gathered. It asks that there is room for
    // it.
    pub fn add(&mut self, s: &HeldScan<'_>, engines: &mut [u64; DETECTIONS])
        requires { (self.old.held < SCANS)
            × (self.old.count + length (found_in s.now.scans.now.columns s.now.n.0 (body_of s.now.frame.body)) ≤ DETECTIONS) }
        ensures { AddedScan (found_in s.now.scans.now.columns s.now.n.0 (body_of s.now.frame.body)) self.old engines.old self.new engines.new }
    {
        self.count = gather_scan(s, self.count, &mut self.ids, engines);
        self.held += 1;
        self.starts[self.held..].fill(self.count);
    }
}

impl HeldRef<'_> {
    ghost use Rattle.fgo_state.specs.Gathered.{GatheredOf};

    // The detections in windows of the held scans, and their engine ids, which go where the caller has room for them.
    // It asks for SCANS scans and DETECTIONS detections at most, and bodies that pass.
    // As it is, here, in gather_dots and in scatter: `HeldScans` is asked by each, and is no fact of a struct, since
    // scatter is lent the scans by `&mut`: of a struct that holds them so no fact says what it holds afterwards.
    pub fn gather(&self, engines: &mut [u64; DETECTIONS]) -> Gathered
        requires { HeldScans self.now.scans.now.bodies self.now.scans.now.columns self.now.first.0 self.now.count }
        ensures { GatheredOf self.now.scans.now self.now.first.0 self.now.count engines.old result engines.new }
    {
        let mut g = Gathered {
            ids: [0; DETECTIONS],
            starts: [0; STARTS],
            held: 0,
            count: 0,
        };
        for k in 0..self.count {
            let s = self.scans.held(self.first.later(k));
            g.add(&s, engines);
        }
        g
    }

    // The dots of the detections in windows of the held scans. It asks what `gather` asks.
    pub fn gather_dots(&self, c: FgoConfig, dots: &mut [Dot; DETECTIONS])
        requires { HeldScans self.now.scans.now.bodies self.now.scans.now.columns self.now.first.0 self.now.count }
        ensures { dots.new
            ≡ over 0 (dots_of c (found_of self.now.scans.now.bodies self.now.scans.now.columns self.now.first.0 self.now.count)) dots.old }
    {
        let mut p: usize = 0;
        for k in 0..self.count {
            let s = self.scans.held(self.first.later(k));
            p = dot_scan(c, &s, p, dots);
        }
    }
}

// ---- the latest holder of an engine id

impl Gathered {
    // The greatest id that holds the engine id e among the detections from place a to before place b, if one does:
    // clutter, which has the id 0, holds none.
    fn holder_in(&self, engines: &[u64], e: EngineId, a: usize, b: usize) -> Option<RefinedId>
        requires { (b ≤ DETECTIONS) × (b ≤ length engines.now) }
        ensures { result ≡ id_from (holder_of e.0 self.now.ids engines.now a b) }
    {
        (a..b)
            .filter(|i| engines[*i] == e.0)
            .map(|i| self.ids[i])
            .max()
            .map(RefinedId)
            .filter(|x| 0 < x.0)
    }

    // The holder of the latest detection of the engine id e, if it has one. `engines` has the engine ids that were
    // gathered.
    // No detection after the last one of e is looked at: a scan that begins after it is passed over.
    pub fn latest(&self, engines: &IdIndex<'_>, e: EngineId) -> Option<RefinedId>
        requires { self.now.count ≤ length engines.now.ids.now }
        ensures { result ≡ id_from (latest_of e.0 self.now.ids engines.now.ids.now self.now.starts self.now.held) }
    {
        let at = engines.place_of(e.0)?;
        (0..self.held).rev().find_map(|k| {
            let end = self.starts[k + 1].min(at + 1);
            self.holder_in(engines.ids, e, self.starts[k], end)
        })
    }
}

// ---- ids put back

// The ids of scan n, of m associations, taken from place o on; the place after the last.
fn scatter_scan(
    columns: &mut [u64; COLUMNS],
    n: ScanIndex,
    m: usize,
    o: usize,
    ids: &[u64; DETECTIONS],
) -> usize
    requires { (m ≤ ASSOCIATIONS) × (o + count_in columns.old n.0 m ≤ DETECTIONS) }
    ensures count { result ≡ o + count_in columns.old n.0 m }
    ensures ids { ScatteredScan n.0 m o ids.now columns.old columns.new }
{
    let a = COLUMN * scans::slot_of(n) + 1;
    let mut p = o;
    for j in 0..m {
        if 0 < columns[a + j] {
            columns[a + j] = ids[p];
            p += 1;
        }
    }
    p
}

// The ids of the held scans, put back. It asks what `gather` asks.
pub fn scatter(
    bodies: &[u8; BODIES],
    columns: &mut [u64; COLUMNS],
    first: ScanIndex,
    held: usize,
    ids: &[u64; DETECTIONS],
)
    requires { HeldScans bodies.now columns.old first.0 held }
    ensures { Scattered bodies.now first.0 held ids.now columns.old columns.new }
{
    let mut p: usize = 0;
    for k in 0..held {
        let n = first.later(k);
        let m = scans::count_of(bodies, columns, n);
        p = scatter_scan(columns, n, m, p, ids);
    }
}
