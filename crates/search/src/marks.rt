// What became of a row in a pass, and so what is due of it in the next.

#[derive(Clone, Copy, PartialEq, Eq)]
pub enum Mark {
    // It has not moved: nothing is due.
    Resting,
    // A pair moved it: its pairs are due.
    ByPair,
    // Its own track's step moved it, or the track is new: its pairs and its track are due.
    ByTrack,
}
