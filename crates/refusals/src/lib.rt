// What a call can be refused for: each refusal has a number, which the programs print.
#![tactic(auto)]

ghost use Rattle.std.specs.Prelude.{◌≡◌};
ghost use Rattle.refusals.specs.Refusals.{number_of};

// Why a call or a recording is refused; before each stands its number.
#[derive(Clone, Copy, PartialEq, Eq)]
pub enum Refusal {
    // 1: a setting is out of bounds or not finite.
    Setting,
    // 2: window buffers are not of their length, or in a later call lag or C is out of bounds.
    Window,
    // 3: the state breaks its rule.
    State,
    // 4: the output buffers are too short for the longest frame.
    Output,
    // 5: a frame is malformed, or a count, code or time in it out of bounds.
    Frame,
    // 6: a coordinate is not finite.
    Coordinate,
    // 7: an association's index is past the observations, or stands twice.
    Index,
    // 8: no more scans, ids or moves can be counted.
    Count,
    // 9: frozen parts, detections in windows and new associations with an id are too many.
    Detections,
    // 10: engine ids with a live owner, joined with the frame's, are too many.
    Owners,
    // 11: a recording is too long, has too many frames, or is shorter than its contents table.
    Size,
    // 12: the bodies of a recording do not exactly fill the rest, in order without gaps.
    Bodies,
    // 13: no frame is held.
    Empty,
}

// A refusal's number.
impl From<Refusal> for u8 {
    ghost from_gives = { λ r n. n ≡ number_of r };

    fn from(r: Refusal) -> u8 {
        match r {
            Refusal::Setting => 1,
            Refusal::Window => 2,
            Refusal::State => 3,
            Refusal::Output => 4,
            Refusal::Frame => 5,
            Refusal::Coordinate => 6,
            Refusal::Index => 7,
            Refusal::Count => 8,
            Refusal::Detections => 9,
            Refusal::Owners => 10,
            Refusal::Size => 11,
            Refusal::Bodies => 12,
            Refusal::Empty => 13,
        }
    }
}
