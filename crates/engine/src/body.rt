// A frame's body: its header and its fields.
ghost use Rattle.std.specs.Prelude.{◌≡◌, ◌+◌, ◌*◌, ◌^◌, ◌<◌, ◌≤◌, length, get_or, Some, None, IfSome};
ghost use Rattle.engine.specs.Frame.{present, no_track, no_observation, no_association};
ghost use Rattle.bounds.specs.Bounds.{ENGINE, OBSERVATION, ASSOCIATION};
ghost use Rattle.engine.specs.Body.{layout_of, body_of, tracks_in, sensors_in, observations_in, associations_in, sensors_from, observations_from};
ghost use Rattle.engine.specs.Body.{associations_from, frame_in, body_refusal, track_at, observation_at, association_at, row_read, time_read};
ghost use Rattle.engine.specs.Body.{sensor_read, track_read, observation_read, association_read};

use crate::little;
use crate::types::{
    Association, BodyKind, EngineId, EngineTrack, Observation, ObservationIndex, Outcome,
    TrackingMode,
};
use bounds::{ASSOCIATION, ENGINE, HEADER, OBSERVATION, SENSOR};

// A body, by its kind and its bytes, whatever they are.
#[derive(Clone, Copy)]
pub struct Body<'a> {
    pub kind: BodyKind,
    pub bytes: &'a [u8],
}

// A value, if its present byte says that it is there.
fn present<T: Copy>(b: u8, v: T) -> Option<T>
    ensures { result ≡ present b v }
{
    (b != 0).then_some(v)
}

// The engine track whose bytes begin at place o.
fn track_at(s: &[u8], o: usize) -> EngineTrack
    requires { o + ENGINE ≤ length s.now }
    ensures { result ≡ track_at s.now o }
{
    let id = EngineId(little::u64_at(s, o));
    let class = present(s[o + 12], little::u32_at(s, o + 8) as u32);
    EngineTrack { id, class }
}

// What stands for a track that is not there.
fn no_track() -> EngineTrack
    ensures { result ≡ no_track }
{
    let id = EngineId(0);
    EngineTrack { id, class: None }
}

// The observation whose bytes begin at place o.
fn observation_at(s: &[u8], o: usize) -> Observation
    requires { o + OBSERVATION ≤ length s.now }
    ensures { result ≡ observation_at s.now o }
{
    let x = little::f64_at(s, o);
    let y = little::f64_at(s, o + 8);
    let z = little::f64_at(s, o + 16);
    Observation { x, y, z }
}

// What stands for an observation that is not there: a dot that is nowhere.
fn no_observation() -> Observation
    ensures { result ≡ no_observation }
{
    Observation {
        x: f64::NAN,
        y: f64::NAN,
        z: f64::NAN,
    }
}

// What stands for an association that is not there: observation 0, of no track and without a cost.
fn no_association() -> Association
    ensures { result ≡ no_association }
{
    let index = ObservationIndex(0);
    Association {
        index,
        track: None,
        outcome: Outcome::Unmatched,
        cost: None,
    }
}

// A clause `small` bounds what is answered, so that no sum of counts and places overflows.
impl<'a> Body<'a> {
    // The bytes of the header.
    pub fn header_size(&self) -> usize
        ensures size { result ≡ (layout_of self.now.kind).head }
        ensures small { result < 2 ^ 8 }
    {
        match self.kind {
            BodyKind::Narrow => HEADER,
        }
    }

    // How many engine tracks the header says that the frame has.
    // As it is, here and in the three counts below: four fields at four places. All four are public, so a function of
    // the place, with the match in it, would stand beside them, each with its own definition as now: `self.count_at(1)`
    // for the match of one arm, which is no plainer.
    pub fn track_count(&self) -> usize
        ensures count { result ≡ tracks_in (body_of self.now) }
        ensures small { result < 2 ^ 8 }
    {
        match self.kind {
            BodyKind::Narrow => little::byte_at(self.bytes, 1),
        }
    }

    // How many sensors the header says that the first track has.
    pub fn sensor_count(&self) -> usize
        ensures count { result ≡ sensors_in (body_of self.now) }
        ensures small { result < 2 ^ 8 }
    {
        match self.kind {
            BodyKind::Narrow => little::byte_at(self.bytes, 4),
        }
    }

    // How many observations the header says that there are.
    pub fn observation_count(&self) -> usize
        ensures count { result ≡ observations_in (body_of self.now) }
        ensures small { result < 2 ^ 8 }
    {
        match self.kind {
            BodyKind::Narrow => little::byte_at(self.bytes, 2),
        }
    }

    // How many associations the header says that there are.
    pub fn association_count(&self) -> usize
        ensures count { result ≡ associations_in (body_of self.now) }
        ensures small { result < 2 ^ 8 }
    {
        match self.kind {
            BodyKind::Narrow => little::byte_at(self.bytes, 3),
        }
    }

    // Where the sensors' ids begin, after the tracks.
    fn sensors_from(&self) -> usize
        ensures place { result ≡ sensors_from (layout_of self.now.kind) self.now.bytes.now }
        ensures small { result < 2 ^ 14 }
    {
        self.header_size() + ENGINE * self.track_count()
    }

    // Where the observations begin, after the sensors.
    pub fn observations_from(&self) -> usize
        ensures place { result ≡ observations_from (layout_of self.now.kind) self.now.bytes.now }
        ensures small { result < 2 ^ 15 }
    {
        self.sensors_from() + SENSOR * self.sensor_count()
    }

    // Where the associations begin, after the observations.
    pub fn associations_from(&self) -> usize
        ensures place { result ≡ associations_from (layout_of self.now.kind) self.now.bytes.now }
        ensures small { result < 2 ^ 16 }
    {
        self.observations_from() + OBSERVATION * self.observation_count()
    }

    // Where the bytes of row i begin, of n rows of a size each from a place on; none past the last row, and where the
    // bytes end before the row does.
    #[tactic(auto, unfolding(crate::specs::Body::row_read))]
    fn row_from(&self, from: usize, size: usize, n: usize, i: usize) -> Option<usize>
        requires { from + size * n < 2 ^ 64 }
        ensures place { result ≡ row_read None Some self.now.bytes.now size n from i }
        ensures whole { IfSome result (λ at. at + size ≤ length self.now.bytes.now) }
    {
        (i < n)
            .then(|| from + size * i)
            .filter(|at| at + size <= self.bytes.len())
    }

    // ---- the fields: each reader answers, on any bytes, the field where its bytes are all there, and else 0 or the
    // value for none; for a body that passes this is what the frame says

    // How much of the camera the engine used.
    #[tactic(auto, unfolding(crate::specs::Body::frame_of))]
    pub fn mode(&self) -> TrackingMode
        ensures { result ≡ (frame_in (body_of self.now)).mode }
    {
        self.bytes
            .first()
            .map_or(TrackingMode::LidarOnly, |b| TrackingMode::from(*b))
    }

    // The frame's time in nanoseconds.
    pub fn time(&self) -> i64
        ensures { (result ≡ time_read (layout_of self.now.kind) self.now.bytes.now)
            × (body_refusal (body_of self.now) ≡ 0 → result ≡ (frame_in (body_of self.now)).time) }
    {
        // As it is: 0, and no Option, of a body without a time: this is public, and its definition `time_read` says 0.
        if self.bytes.len() < self.header_size() {
            return 0;
        }
        little::i64_at(self.bytes, 8)
    }

    // The id of sensor i; 0 past the last.
    pub fn sensor(&self, i: usize) -> u64
        ensures { (result ≡ sensor_read (layout_of self.now.kind) self.now.bytes.now i)
            × (body_refusal (body_of self.now) ≡ 0 → result ≡ get_or (frame_in (body_of self.now)).sensors i 0) }
    {
        self.row_from(self.sensors_from(), SENSOR, self.sensor_count(), i)
            .map_or(0, |o| little::u32_at(self.bytes, o))
    }

    // Engine track i.
    pub fn track(&self, i: usize) -> EngineTrack
        ensures { (result ≡ track_read (layout_of self.now.kind) self.now.bytes.now i)
            × (body_refusal (body_of self.now) ≡ 0 → result ≡ get_or (frame_in (body_of self.now)).tracks i no_track) }
    {
        self.row_from(self.header_size(), ENGINE, self.track_count(), i)
            .map_or(no_track(), |o| track_at(self.bytes, o))
    }

    // The observation at an index.
    pub fn observation(&self, index: ObservationIndex) -> Observation
        ensures { (result ≡ observation_read (layout_of self.now.kind) self.now.bytes.now index.0)
            × (body_refusal (body_of self.now) ≡ 0 → result ≡ get_or (frame_in (body_of self.now)).observations index.0 no_observation) }
    {
        let from = self.observations_from();
        self.row_from(from, OBSERVATION, self.observation_count(), index.0)
            .map_or(no_observation(), |o| observation_at(self.bytes, o))
    }

    // The association whose bytes begin at place o.
    fn association_at(&self, o: usize) -> Association
        requires { o + ASSOCIATION ≤ length self.now.bytes.now }
        ensures { result ≡ association_at (layout_of self.now.kind).width self.now.bytes.now o }
    {
        match self.kind {
            BodyKind::Narrow => {
                let index = ObservationIndex(self.bytes[o] as usize);
                let track = present(
                    self.bytes[o + 1],
                    EngineId(little::u64_at(self.bytes, o + 8)),
                );
                let outcome = Outcome::from(self.bytes[o + 2]);
                let cost = present(self.bytes[o + 3], little::f64_at(self.bytes, o + 16));
                Association {
                    index,
                    track,
                    outcome,
                    cost,
                }
            }
        }
    }

    // Association j, in the frame's order.
    pub fn association(&self, j: usize) -> Association
        ensures { (result ≡ association_read (layout_of self.now.kind) self.now.bytes.now j)
            × (body_refusal (body_of self.now) ≡ 0 → result ≡ get_or (frame_in (body_of self.now)).associations j no_association) }
    {
        let from = self.associations_from();
        // As it is: tried as a `map_or`, as in the three above. The proof did not close: of an association, the check
        // finds no clause for the closure itself.
        match self.row_from(from, ASSOCIATION, self.association_count(), j) {
            None => no_association(),
            Some(o) => self.association_at(o),
        }
    }
}
