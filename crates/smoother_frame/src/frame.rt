// A frame as the smoother takes and gives it: a list of words and a list of numbers.
ghost use Rattle.std.specs.Prelude.{◌≡◌, ◌^◌, ◌<◌, ◌≤◌, nat_lt, Some, None, cond, length, take, drop};
ghost use Rattle.std.specs.List.{list_all};
ghost use Rattle.bounds.specs.Bounds.{TRACKS};
ghost use Rattle.engine.specs.Body.{all};
ghost use Rattle.scalar.specs.Scalar.{seconds_of};
ghost use Rattle.smoother_frame.specs.Frame.{frame, time, track_count, association_count, sensor_count, id_word, costs_from, words_long};
ghost use Rattle.smoother_frame.specs.Frame.{numbers_long, track_ok, association_ok, sensor_ok, rows_ok, well_formed, Counts, CountsOf};

use crate::counts::FrameCounts;
use crate::head::Head;
use bounds::{HEAD, LINK, TRACK};
use engine::types::RefinedId;
use scalar::bits;
use std::marker::Model;

// A frame whose counts are in bounds, in two lists as long as they ask for. A clause sees the two lists.
// As it is: words and numbers by their places, codes and present words as numbers, and no struct for a track or an
// association, since these lists are the public format that a caller hands over.
#[derive(Drop)]
pub struct Frame<'a> {
    counts: FrameCounts,
    words: &'a [u64],
    numbers: &'a [f64],
}

impl<'a> Model for Frame<'a> {
    ghost use Rattle.buffers.specs.Answer.{Written};
    ghost use Rattle.smoother_frame.specs.Frame.{frame, Framed};

    ghost Value = { Written };

    ghost view = { λ f. frame f.words.now f.numbers.now };

    ghost invariant = { λ f. Framed f.counts f.words.now f.numbers.now };
}

// Each word is below 2^32.
fn all_small(words: &[u64]) -> bool
    ensures { result ≡ list_all (λ word. nat_lt word (2 ^ 32)) words.now }
{
    words.iter().all(|word| *word < 0x1_0000_0000)
}

impl<'a> Frame<'a> {
    // The frame at the front of two lists, which are as long at least as its counts ask for.
    pub fn front(counts: FrameCounts, words: &'a [u64], numbers: &'a [f64]) -> Frame<'a>
        requires counted { CountsOf words.now counts }
        requires words { words_long words.now ≤ length words.now }
        requires numbers { numbers_long words.now ≤ length numbers.now }
        ensures { result ≡ frame (take (words_long words.now) words.now) (take (numbers_long words.now) numbers.now) }
    {
        Frame {
            counts,
            words: &words[..counts.words_long()],
            numbers: &numbers[..counts.numbers_long()],
        }
    }

    // The frame that two lists are, if it is well formed, with at most `most` tracks, no more than there may be.
    #[tactic(auto, unfolding(crate::specs::Frame::well_formed, crate::specs::Frame::exact))]
    pub fn well_formed(most: usize, words: &'a [u64], numbers: &'a [f64]) -> Option<Frame<'a>>
        requires { most ≤ TRACKS }
        ensures { result ≡ cond (well_formed most (frame words.now numbers.now)) (Some (frame words.now numbers.now)) None }
    {
        let counts = FrameCounts::checked(words, most)?;
        if words.len() != counts.words_long() || numbers.len() != counts.numbers_long() {
            return None;
        }
        let frame = Frame {
            counts,
            words,
            numbers,
        };
        frame.rows_ok().then_some(frame)
    }

    // Its words.
    pub fn words(&self) -> &'a [u64]
        ensures value { result.now ≡ self.now.words }
        ensures whole { length self.now.words ≡ words_long self.now.words }
        ensures counted { Counts self.now.words }
    {
        self.words
    }

    // Its numbers.
    pub fn numbers(&self) -> &'a [f64]
        ensures value { result.now ≡ self.now.numbers }
        ensures whole { length self.now.numbers ≡ numbers_long self.now.words }
        ensures counted { Counts self.now.words }
    {
        self.numbers
    }

    // Those of its associations' costs.
    pub fn costs(&self) -> &'a [f64]
        ensures { result.now ≡ drop (costs_from self.now.words) self.now.numbers }
    {
        &self.numbers[self.counts.costs_from()..]
    }

    // Its counts.
    pub fn counts(&self) -> FrameCounts
        ensures { CountsOf self.now.words result }
    {
        self.counts
    }

    // Its time, in seconds.
    pub fn seconds(&self) -> f64
        ensures { result ≡ seconds_of (time self.now.words) }
    {
        bits::seconds(Head { words: self.words }.time())
    }

    // The id of track i.
    pub fn track_id(&self, i: usize) -> RefinedId
        requires { i < track_count self.now.words }
        ensures { result.0 ≡ id_word self.now.words i }
    {
        Head { words: self.words }.track_id(i)
    }

    // Lifecycle, class and count of track i are in bounds.
    #[tactic(auto, unfolding(crate::specs::Frame::track_ok))]
    fn track_ok(&self, i: usize) -> bool
        requires { i < track_count self.now.words }
        ensures { result ≡ track_ok self.now.words i }
    {
        let words = self.words;
        let at = HEAD + TRACK * i;
        words[at + 1] <= 1 && words[at + 4] <= 0x1_0000_0000 && words[at + 5] < 0x1_0000_0000
    }

    fn tracks_ok(&self) -> bool
        ensures { result ≡ all (track_ok self.now.words) (track_count self.now.words) }
    {
        (0..self.counts.tracks).all(|i| self.track_ok(i))
    }

    // Outcome, cost present and cost of association j.
    // As it is, here and in `Head::is_ok`: the tests of engine_check's `code_ok` and `present_ok`, of a word where
    // those are of a byte. One function for both is no plainer: each test is one line.
    #[tactic(auto, unfolding(crate::specs::Frame::association_ok, engine::specs::Body::code_ok, engine::specs::Body::present_ok))]
    fn association_ok(&self, j: usize) -> bool
        requires { j < association_count self.now.words }
        ensures { result ≡ association_ok self.now.words self.now.numbers j }
    {
        let at = self.counts.associations_from() + LINK * j;
        let cost = self.numbers[self.counts.costs_from() + j];
        let present = self.words[at + 3];
        self.words[at + 2] <= 2 && (present == 1 || present == 0 && bits::to_bits(cost) == 0)
    }

    fn associations_ok(&self) -> bool
        ensures { result ≡ all (association_ok self.now.words self.now.numbers) (association_count self.now.words) }
    {
        (0..self.counts.associations).all(|j| self.association_ok(j))
    }

    // Sensors below 2^32.
    fn sensors_ok(&self) -> bool
        ensures { result ≡ all (sensor_ok self.now.words) (sensor_count self.now.words) }
    {
        all_small(&self.words[self.counts.sensors_from()..])
    }

    // Each track, association and sensor is in bounds.
    #[tactic(auto, unfolding(crate::specs::Frame::rows_ok))]
    pub fn rows_ok(&self) -> bool
        ensures { result ≡ rows_ok self.now.words self.now.numbers }
    {
        self.tracks_ok() && self.associations_ok() && self.sensors_ok()
    }
}
