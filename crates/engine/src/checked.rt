// A body that passes, and its frame.
ghost use Rattle.std.specs.Prelude.{◌≡◌, get_or};
ghost use Rattle.engine.specs.Frame.{no_track, no_observation, no_association};
ghost use Rattle.engine.specs.Body.{body_of, body_refusal, frame_in};

use crate::body::Body;
use crate::types::{Association, EngineTrack, Observation, ObservationIndex};

// A body that 5, 6 and 7 would not refuse: what a reader answers is what its frame says.
#[derive(Clone, Copy)]
pub struct CheckedBody<'a> {
    pub body: Body<'a>,
    pub ghost passes: { body_refusal (body_of body) ≡ 0 },
}

impl<'a> CheckedBody<'a> {
    // The frame's time.
    pub fn time(&self) -> i64
        ensures { result ≡ (frame_in (body_of self.now.body)).time }
    {
        self.body.time()
    }

    // The id of sensor i; 0 past the last.
    pub fn sensor(&self, i: usize) -> u64
        ensures { result ≡ get_or (frame_in (body_of self.now.body)).sensors i 0 }
    {
        self.body.sensor(i)
    }

    // Engine track i.
    pub fn track(&self, i: usize) -> EngineTrack
        ensures { result ≡ get_or (frame_in (body_of self.now.body)).tracks i no_track }
    {
        self.body.track(i)
    }

    // The observation at an index.
    pub fn observation(&self, index: ObservationIndex) -> Observation
        ensures { result ≡ get_or (frame_in (body_of self.now.body)).observations index.0 no_observation }
    {
        self.body.observation(index)
    }

    // Association j, in the frame's order.
    pub fn association(&self, j: usize) -> Association
        ensures { result ≡ get_or (frame_in (body_of self.now.body)).associations j no_association }
    {
        self.body.association(j)
    }
}
