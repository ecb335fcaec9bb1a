// The head of a frame's words.
// As it is: the counts, codes and flag by their places and as numbers, since the words are the public format that a
// caller hands over.
ghost use Rattle.std.specs.Prelude.{◌≡◌, ◌+◌, ◌*◌, ◌≤◌, length};
ghost use Rattle.bounds.specs.Bounds.{HEAD, TRACK};
ghost use Rattle.smoother_frame.specs.Frame.{time, track_count, association_count, sensor_count, id_word, smoothed_as, head_ok};

use bounds::{ASSOCIATIONS, HEAD, SENSORS, TRACK};
use engine::types::RefinedId;
use scalar::bits;

// The words of a frame, which have a head; of what comes after it nothing is asked.
#[derive(Drop)]
pub struct Head<'a> {
    pub words: &'a [u64],
    pub ghost long: { HEAD ≤ length words.now },
}

impl<'a> Head<'a> {
    // The time, in nanoseconds.
    pub fn time(&self) -> i64
        ensures { result ≡ time self.now.words.now }
    {
        bits::from_word(self.words[0])
    }

    // How many tracks there are.
    pub fn tracks(&self) -> usize
        ensures { result ≡ track_count self.now.words.now }
    {
        self.words[2] as usize
    }

    // How many associations.
    pub fn associations(&self) -> usize
        ensures { result ≡ association_count self.now.words.now }
    {
        self.words[3] as usize
    }

    // How many sensors.
    pub fn sensors(&self) -> usize
        ensures { result ≡ sensor_count self.now.words.now }
    {
        self.words[4] as usize
    }

    // The id of track i. It asks that the words go to the end of that track.
    pub fn track_id(&self, i: usize) -> RefinedId
        requires { HEAD + TRACK * (i + 1) ≤ length self.now.words.now }
        ensures { result.0 ≡ id_word self.now.words.now i }
    {
        let words = self.words;
        RefinedId(words[HEAD + TRACK * i])
    }

    // The counts, the codes and the time are in bounds, with at most `most` tracks.
    #[tactic(auto, unfolding(crate::specs::Frame::head_ok, engine::specs::Body::code_ok))]
    fn is_ok(&self, most: usize) -> bool
        ensures { result ≡ head_ok most self.now.words.now }
    {
        engine_check::time_ok(self.time())
            && self.words[1] <= 2
            && self.tracks() <= most
            && self.associations() <= ASSOCIATIONS
            && self.sensors() <= SENSORS
            && self.words[5] <= 1
    }
}

// Whether there is a head, and it is in bounds, with at most `most` tracks.
#[tactic(auto, unfolding(crate::specs::Frame::head_ok))]
pub fn head_ok(words: &[u64], most: usize) -> bool
    ensures { result ≡ head_ok most words.now }
{
    HEAD <= words.len() && Head { words }.is_ok(most)
}

// Whether a frame is smoothed is written into its words: 0 or 1.
pub fn put_smoothed(words: &mut [u64], flag: u64)
    requires { HEAD ≤ length words.old }
    ensures { words.new ≡ smoothed_as words.old flag }
{
    words[5] = flag;
}
