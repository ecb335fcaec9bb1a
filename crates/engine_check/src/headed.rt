// A body whose head passes, and the tests of its rows.
ghost use Rattle.std.specs.Prelude.{◌≡◌, ◌&&◌, true, ◌+◌, ◌≤◌, length};
ghost use Rattle.bounds.specs.Bounds.{ENGINE, OBSERVATION, ASSOCIATION};
ghost use Rattle.engine.specs.Little.{little};
ghost use Rattle.engine.specs.Body.{layout_of, code_ok, present_ok, track_ok, association_ok, observation_ok, head_ok, tracks_ok, associations_ok};
ghost use Rattle.engine.specs.Body.{observations_ok, indices_ok};

use bounds::{ASSOCIATION, ENGINE, OBSERVATION, OBSERVATIONS};
use engine::body::Body;
use engine::little;
use engine::types::BodyKind;
use scalar::bits;

// A body whose head passes: its rows are all there, and no more of them than there may be.
#[derive(Clone, Copy)]
pub struct HeadedBody<'a> {
    pub body: Body<'a>,
    pub ghost headed: { head_ok (layout_of body.kind) body.bytes.now ≡ true },
}

// ---- one byte

// An outcome byte, and the mode byte.
#[tactic(auto, unfolding(engine::specs::Body::code_ok))]
pub fn code_ok(b: u8) -> bool
    ensures { result ≡ code_ok b }
{
    matches!(b, 0..=2)
}

// A present byte and the value that it speaks of: an absent value is zero.
#[tactic(auto, unfolding(engine::specs::Body::present_ok))]
fn present_ok(b: u8, v: u64) -> bool
    ensures { result ≡ present_ok b v }
{
    b == 1 || b == 0 && v == 0
}

// ---- one row, whose bytes begin at place o

#[tactic(auto, unfolding(engine::specs::Body::track_ok))]
fn track_ok(s: &[u8], o: usize) -> bool
    requires { o + ENGINE ≤ length s.now }
    ensures { result ≡ track_ok s.now o }
{
    present_ok(s[o + 12], little::u32_at(s, o + 8)) && little::u24_at(s, o + 13) == 0
}

// With an index of one byte.
#[tactic(auto, unfolding(engine::specs::Body::association_ok))]
fn narrow_association_ok(s: &[u8], o: usize) -> bool
    requires { o + ASSOCIATION ≤ length s.now }
    ensures { result ≡ association_ok 1 s.now o }
{
    present_ok(s[o + 1], little::u64_at(s, o + 8))
        && code_ok(s[o + 2])
        && present_ok(s[o + 3], little::u64_at(s, o + 16))
        && little::u32_at(s, o + 4) == 0
}

fn association_ok(b: &Body<'_>, o: usize) -> bool
    requires { o + ASSOCIATION ≤ length b.now.bytes.now }
    ensures { result ≡ association_ok (layout_of b.now.kind).width b.now.bytes.now o }
{
    match b.kind {
        BodyKind::Narrow => narrow_association_ok(b.bytes, o),
    }
}

#[tactic(auto, unfolding(engine::specs::Body::observation_ok))]
fn observation_ok(s: &[u8], o: usize) -> bool
    requires { o + OBSERVATION ≤ length s.now }
    ensures { result ≡ observation_ok s.now o }
{
    bits::is_finite(little::f64_at(s, o))
        && bits::is_finite(little::f64_at(s, o + 8))
        && bits::is_finite(little::f64_at(s, o + 16))
}

// The index of the association at place o.
fn index_at(b: &Body<'_>, o: usize) -> usize
    requires { o + ASSOCIATION ≤ length b.now.bytes.now }
    ensures { result ≡ little (layout_of b.now.kind).width b.now.bytes.now o }
{
    match b.kind {
        BodyKind::Narrow => b.bytes[o] as usize,
    }
}

// ---- all rows

impl HeadedBody<'_> {
    fn tracks_ok(&self) -> bool
        ensures { result ≡ tracks_ok (layout_of self.now.body.kind) self.now.body.bytes.now }
    {
        let b = &self.body;
        let from = b.header_size();
        (0..b.track_count()).all(|i| track_ok(b.bytes, from + ENGINE * i))
    }

    fn associations_ok(&self) -> bool
        ensures { result ≡ associations_ok (layout_of self.now.body.kind) self.now.body.bytes.now }
    {
        let b = &self.body;
        let from = b.associations_from();
        (0..b.association_count()).all(|j| association_ok(b, from + ASSOCIATION * j))
    }

    // The tracks and the associations are well formed: else refusal 5.
    pub fn frame_ok(&self) -> bool
        ensures { let k = layout_of self.now.body.kind in let s = self.now.body.bytes.now in result ≡ tracks_ok k s && associations_ok k s }
    {
        self.tracks_ok() && self.associations_ok()
    }

    // The coordinates are finite: else refusal 6.
    pub fn observations_ok(&self) -> bool
        ensures { result ≡ observations_ok (layout_of self.now.body.kind) self.now.body.bytes.now }
    {
        let b = &self.body;
        let from = b.observations_from();
        (0..b.observation_count()).all(|i| observation_ok(b.bytes, from + OBSERVATION * i))
    }

    // No index is past the observations or stands twice: else refusal 7. A table of the indices seen says so.
    pub fn indices_ok(&self) -> bool
        ensures { result ≡ indices_ok (layout_of self.now.body.kind) self.now.body.bytes.now }
    {
        let b = &self.body;
        let from = b.associations_from();
        let n = b.observation_count();
        let mut seen = [false; OBSERVATIONS];
        (0..b.association_count()).all(|j| {
            let x = index_at(b, from + ASSOCIATION * j);
            x < n && !std::mem::replace(&mut seen[x], true)
        })
    }
}
