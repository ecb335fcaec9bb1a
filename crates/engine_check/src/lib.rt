// Whether bytes are a frame's body: refusals 5, 6 and 7.
#![tactic(auto)]

ghost use Rattle.std.specs.Prelude.{◌≡◌, cond, eqb, ◌≤◌, length, MatchResult};
ghost use Rattle.bounds.specs.Bounds.{SENSORS};
ghost use Rattle.refusals.specs.Refusals.{number_of};
ghost use Rattle.engine.specs.Body.{layout_of, time_ok, zeros_ok, size, head_ok, body_of, body_refusal};

mod headed;

use crate::headed::{HeadedBody, code_ok};
use bounds::{ASSOCIATION, ASSOCIATIONS, ENGINES, OBSERVATIONS, SENSORS, TIME};
use engine::body::Body;
use engine::checked::CheckedBody;
use engine::little;
use engine::types::BodyKind;
use refusals::Refusal;

// A time is near enough to the start of the clock.
pub fn time_ok(t: i64) -> bool
    ensures { result ≡ time_ok t }
{
    -TIME <= t && t <= TIME
}

// ---- the header

fn size_of(b: &Body<'_>) -> usize
    ensures { result ≡ size (layout_of b.now.kind) b.now.bytes.now }
{
    b.associations_from() + ASSOCIATION * b.association_count()
}

// The most observations of a kind of body.
fn observations_most(kind: BodyKind) -> usize
    ensures { result ≡ (layout_of kind).observations }
{
    match kind {
        BodyKind::Narrow => OBSERVATIONS,
    }
}

// The most associations.
fn associations_most(kind: BodyKind) -> usize
    ensures { result ≡ (layout_of kind).associations }
{
    match kind {
        BodyKind::Narrow => ASSOCIATIONS,
    }
}

// The zeros of a header, which must be there.
fn zeros_ok(b: &Body<'_>) -> bool
    requires { (layout_of b.now.kind).head ≤ length b.now.bytes.now }
    ensures { result ≡ zeros_ok (layout_of b.now.kind).zeros b.now.bytes.now }
{
    match b.kind {
        BodyKind::Narrow => little::u24_at(b.bytes, 5) == 0,
    }
}

fn sensors_most(tracks: usize) -> usize
    ensures { result ≡ cond (eqb tracks 0) 0 SENSORS }
{
    if tracks == 0 { 0 } else { SENSORS }
}

#[tactic(auto, unfolding(engine::specs::Body::head_ok))]
fn head_ok(b: &Body<'_>) -> bool
    ensures { result ≡ head_ok (layout_of b.now.kind) b.now.bytes.now }
{
    let tracks = b.track_count();
    b.header_size() <= b.bytes.len()
        && code_ok(b.bytes[0])
        && tracks <= ENGINES
        && b.observation_count() <= observations_most(b.kind)
        && b.association_count() <= associations_most(b.kind)
        && b.sensor_count() <= sensors_most(tracks)
        && zeros_ok(b)
        && time_ok(little::i64_at(b.bytes, 8))
        && b.bytes.len() == size_of(b)
}

// The bytes, checked, if they are a frame's body; or the refusal that they get, in the table's order: 5, 6 or 7.
#[tactic(auto, unfolding(engine::specs::Body::refusal))]
pub fn check_body<'a>(b: &Body<'a>) -> Result<CheckedBody<'a>, Refusal>
    ensures { MatchResult result (λ c. c.body ≡ b.now) (λ e. number_of e ≡ body_refusal (body_of b.now)) }
{
    if !head_ok(b) {
        return Err(Refusal::Frame);
    }
    let headed = HeadedBody { body: *b };
    if !headed.frame_ok() {
        return Err(Refusal::Frame);
    }
    if !headed.observations_ok() {
        return Err(Refusal::Coordinate);
    }
    if !headed.indices_ok() {
        return Err(Refusal::Index);
    }
    Ok(CheckedBody { body: *b })
}
