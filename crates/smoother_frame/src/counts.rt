// The counts of a frame, and what stands where by them.
ghost use Rattle.std.specs.Prelude.{◌≡◌, ◌+◌, ◌*◌, ◌≤◌};
ghost use Rattle.bounds.specs.Bounds.{HEAD, TRACK, TRACKS, LINK, STATE, ASSOCIATIONS, SENSORS};

use crate::head::{Head, head_ok};
use bounds::{HEAD, LINK, STATE, TRACK};

// How many tracks, associations and sensors a frame has: of each no more than there may be.
#[derive(Clone, Copy)]
pub struct FrameCounts {
    pub tracks: usize,
    pub associations: usize,
    pub sensors: usize,
    pub ghost few_tracks: { tracks ≤ TRACKS },
    pub ghost few_associations: { associations ≤ ASSOCIATIONS },
    pub ghost few_sensors: { sensors ≤ SENSORS },
}

impl FrameCounts {
    ghost use Rattle.std.specs.Prelude.{true, false, MatchOption};
    ghost use Rattle.smoother_frame.specs.Frame.{head_ok, Counts, CountsOf};

    // The counts that stand in a frame's words. It asks that the words have a head, and that its counts are in bounds.
    pub fn of(words: &[u64]) -> FrameCounts
        requires { Counts words.now }
        ensures { CountsOf words.now result }
    {
        let head = Head { words };
        FrameCounts {
            tracks: head.tracks(),
            associations: head.associations(),
            sensors: head.sensors(),
        }
    }

    // The counts of a frame's words, where their head is in bounds and counts at most `most` tracks.
    // As it is: `most` ≤ TRACKS is asked here, in `Frame::well_formed`, of a window's size and of its words. A type
    // that holds it is no plainer: any number may stand in a caller's settings, so each call would make that type anew.
    pub fn checked(words: &[u64], most: usize) -> Option<FrameCounts>
        requires { most ≤ TRACKS }
        ensures { MatchOption result (head_ok most words.now ≡ false) (λ c. (head_ok most words.now ≡ true) × CountsOf words.now c) }
    {
        head_ok(words, most).then(|| FrameCounts::of(words))
    }

    // Where the associations begin.
    pub fn associations_from(self) -> usize
        ensures { result ≡ HEAD + TRACK * self.tracks }
    {
        HEAD + TRACK * self.tracks
    }

    // Where the sensors begin.
    pub fn sensors_from(self) -> usize
        ensures { result ≡ HEAD + TRACK * self.tracks + LINK * self.associations }
    {
        self.associations_from() + LINK * self.associations
    }

    // Where the costs begin, after the numbers of the tracks.
    pub fn costs_from(self) -> usize
        ensures { result ≡ STATE * self.tracks }
    {
        STATE * self.tracks
    }

    // How many words they ask for.
    pub fn words_long(self) -> usize
        ensures { result ≡ HEAD + TRACK * self.tracks + LINK * self.associations + self.sensors }
    {
        self.sensors_from() + self.sensors
    }

    // How many numbers.
    pub fn numbers_long(self) -> usize
        ensures { result ≡ STATE * self.tracks + self.associations }
    {
        self.costs_from() + self.associations
    }
}
