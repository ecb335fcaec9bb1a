// Ids, codes and the rows of a frame.
ghost use Rattle.std.specs.Prelude.{◌≡◌, ◌+◌, ◌^◌, ◌<◌};
ghost use Rattle.engine.specs.Frame.{mode_of, mode_number, outcome_of, outcome_number};

// The id that the engine gave a track.
#[derive(Clone, Copy, PartialEq, Eq)]
pub struct EngineId(pub u64);

// The id that the refiner gives a track.
#[derive(Clone, Copy, PartialEq, Eq, PartialOrd, Ord)]
pub struct RefinedId(pub u64);

// The number of a scan, counted from the first one that the refiner accepted.
#[derive(Clone, Copy, PartialEq, Eq, PartialOrd, Ord)]
pub struct ScanIndex(pub u64);

impl ScanIndex {
    // The number of the scan so many later; it must be below 2^64.
    pub fn later(self, by: usize) -> ScanIndex
        requires { self.0 + by < 2 ^ 64 }
        ensures { result.0 ≡ self.0 + by }
    {
        ScanIndex(self.0 + by as u64)
    }
}

// The place of an observation in its scan.
#[derive(Clone, Copy)]
pub struct ObservationIndex(pub usize);

// How a frame's body is laid out.
// As it is, here and in each match of it: one variant. That a body goes with its kind is a rule of the project
// (docs/DECISIONS.md, "A kind of body"), and `Body` and its kind are public.
#[derive(Clone, Copy)]
pub enum BodyKind {
    // Counts and indices have a byte each.
    Narrow,
}

// How much of the camera the engine used. The numbers are the codes of a body's bytes and of an emitted frame's words.
#[derive(Clone, Copy)]
pub enum TrackingMode {
    LidarOnly = 0,
    CameraAssociated = 1,
    CameraAssisted = 2,
}

// What the engine did with an observation. The numbers are codes, as those of a mode.
#[derive(Clone, Copy)]
pub enum Outcome {
    Updated = 0,
    Spawned = 1,
    Unmatched = 2,
}

// A track of the engine, as a frame lists it.
#[derive(Clone, Copy)]
pub struct EngineTrack {
    pub id: EngineId,
    // The class, if it is known.
    pub class: Option<u32>,
}

// Where a dot lies, in metres.
#[derive(Clone, Copy)]
pub struct Observation {
    pub x: f64,
    pub y: f64,
    pub z: f64,
}

// What the engine made of one observation.
#[derive(Clone, Copy)]
pub struct Association {
    pub index: ObservationIndex,
    // The engine track that it belongs to, if any.
    pub track: Option<EngineId>,
    pub outcome: Outcome,
    // The price that the engine paid for it, if it says.
    pub cost: Option<f64>,
}

// The mode of a byte; every byte above 1 is read as the last.
// As it is, here and for an outcome: the codes once more, since no cast goes from a number to an enum. And each of the
// two enums has both its impls: one text for two types would be a macro's, which takes no ghost line, so that nothing
// would say what `from` gives.
impl From<u8> for TrackingMode {
    ghost from_gives = { λ b r. r ≡ mode_of b };

    fn from(b: u8) -> TrackingMode {
        match b {
            0 => TrackingMode::LidarOnly,
            1 => TrackingMode::CameraAssociated,
            2..=255 => TrackingMode::CameraAssisted,
        }
    }
}

// The number that stands for the mode in a body and in an emitted frame.
impl From<TrackingMode> for u64 {
    ghost from_gives = { λ m r. r ≡ mode_number m };

    fn from(m: TrackingMode) -> u64 {
        m as u64
    }
}

// The outcome of a byte; every byte above 1 is read as the last.
impl From<u8> for Outcome {
    ghost from_gives = { λ b r. r ≡ outcome_of b };

    fn from(b: u8) -> Outcome {
        match b {
            0 => Outcome::Updated,
            1 => Outcome::Spawned,
            2..=255 => Outcome::Unmatched,
        }
    }
}

// The number that stands for the outcome in a body and in an emitted frame.
impl From<Outcome> for u64 {
    ghost from_gives = { λ o r. r ≡ outcome_number o };

    fn from(o: Outcome) -> u64 {
        o as u64
    }
}
