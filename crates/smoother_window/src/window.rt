// The window: held frames in the slots of two lent buffers.
ghost use Rattle.std.specs.Prelude.{◌≡◌, ◌+◌, ◌*◌, ◌<◌, ◌≤◌, length, take, drop};
ghost use Rattle.bounds.specs.Bounds.{LAG, TRACKS, words_for, numbers_for};
ghost use Rattle.smoother_frame.specs.Frame.{track_count, words_long, well_formed};
ghost use Rattle.smoother_window.specs.Config.{lag, most};
ghost use Rattle.smoother_window.specs.Window.{slot_of, slot_words, slot_numbers, words_in, held_frame, frames_in, all_formed};
ghost use Rattle.smoother_window.specs.Window.{Fitting, SlotCounts, AllCounted, Stored, Dropped};

use crate::FixedLagSmoother;
use crate::size::slot_size;
use buffers::put;
use smoother_frame::counts::FrameCounts;
use smoother_frame::frame::Frame;

impl FixedLagSmoother {
    // The slot of the k-th held frame.
    // As it is: lag ≤ LAG is asked here, of a window's words, in `store` and `drop_oldest` as a part of `Fitting`, in
    // `window_size`, in smoother's `window_fits` and in playback's `Sink::open`. A type that holds it is no plainer:
    // this, `store` and `drop_oldest` are methods of the state, whose settings are fields to which a caller may write
    // any number, so no fact can stand in it.
    #[tactic(auto, using(crate::proofs::Slots::turned_in))]
    pub(crate) fn slot(self, k: usize) -> usize
        requires { lag self.config ≤ LAG }
        ensures turned { result ≡ slot_of self k }
        ensures within { result ≤ lag self.config }
    {
        let slots = self.config.lag_frames + 1;
        (self.first % slots + k % slots) % slots
    }

    // A frame put into the next free slot. It asks that there is one, that the window has its length, and that the
    // frame fits a slot.
    pub fn store(&mut self, words: &mut [u64], values: &mut [f64], frame: &Frame<'_>)
        requires fitting { Fitting self.old words.old values.old }
        requires free { self.old.held ≤ lag self.old.config }
        requires few { track_count frame.now.words ≤ most self.old.config }
        ensures { Stored self.old words.old values.old frame.now self.new words.new values.new }
    {
        let at = self.slot(self.held);
        let size = slot_size(self.config.max_tracks);
        put(words, at * size.words, frame.words());
        put(values, at * size.numbers, frame.numbers());
        self.held += 1;
    }

    // The words of the k-th held frame's slot.
    #[tactic(auto, unfolding(crate::specs::Window::slot_words))]
    fn slot_words(self, words: &[u64], k: usize) -> &[u64]
        requires lags { lag self.config ≤ LAG }
        requires tracks { most self.config ≤ TRACKS }
        requires words { length words.now ≡ (lag self.config + 1) * words_for (most self.config) }
        ensures value { result.now ≡ slot_words self words.now k }
        ensures whole { length result.now ≡ words_for (most self.config) }
    {
        let at = self.slot(k);
        let size = slot_size(self.config.max_tracks);
        slot_at(words, at, size.words)
    }

    // The words of the k-th held frame, of a window's words alone. It asks that these have their length, and that the
    // counts in the slot are in bounds.
    #[tactic(auto, unfolding(crate::specs::Window::words_in))]
    pub fn frame_words(self, words: &[u64], k: usize) -> &[u64]
        requires lags { lag self.config ≤ LAG }
        requires tracks { most self.config ≤ TRACKS }
        requires words { length words.now ≡ (lag self.config + 1) * words_for (most self.config) }
        requires counted { SlotCounts self words.now k }
        ensures value { result.now ≡ words_in self words.now k }
        ensures whole { length result.now ≡ words_long (slot_words self words.now k) }
    {
        let slot = self.slot_words(words, k);
        &slot[..FrameCounts::of(slot).words_long()]
    }

    // The oldest frame is given up: it is cleared, nothing moves, and the next slot is the first. It asks that one is
    // held and no more than there are slots for, that the window has its length, and that the counts in the slots in
    // use are in bounds.
    pub fn drop_oldest(&mut self, words: &mut [u64], values: &mut [f64])
        requires fitting { Fitting self.old words.old values.old }
        requires few { self.old.held ≤ lag self.old.config + 1 }
        requires some { 0 < self.old.held }
        requires counted { AllCounted self.old words.old }
        ensures { Dropped self.old words.old values.old self.new words.new values.new }
    {
        let at = self.slot(0);
        let size = slot_size(self.config.max_tracks);
        let counts = FrameCounts::of(self.slot_words(words, 0));
        buffers::clear(words, at * size.words, counts.words_long(), 0);
        buffers::clear(values, at * size.numbers, counts.numbers_long(), 0.0);
        self.first = self.slot(1);
        self.held -= 1;
    }
}

// A smoother's window, lent to be read: it has the length that lag and C ask for.
// As it is: words and numbers are two buffers in the published form in which a caller lends a window.
#[derive(Drop)]
pub struct WindowRef<'a> {
    pub state: FixedLagSmoother,
    pub words: &'a [u64],
    pub values: &'a [f64],
    pub ghost fitting: { Fitting state words.now values.now },
}

// Of a list of slots, each so wide, the one at a place.
fn slot_at<T>(list: &[T], at: usize, wide: usize) -> &[T]
    requires { at * wide + wide ≤ length list.now }
    ensures part { result.now ≡ take wide (drop (at * wide) list.now) }
    ensures whole { length result.now ≡ wide }
{
    let from = at * wide;
    &list[from..from + wide]
}

impl<'a> WindowRef<'a> {
    // The words and the numbers of the k-th held frame's slot.
    #[tactic(auto, unfolding(crate::specs::Window::slot_numbers))]
    fn slot(&self, k: usize) -> (&'a [u64], &'a [f64])
        ensures words { result.0.now ≡ slot_words self.now.state self.now.words.now k }
        ensures numbers { result.1.now ≡ slot_numbers self.now.state self.now.values.now k }
        ensures wide { length result.0.now ≡ words_for (most self.now.state.config) }
        ensures deep { length result.1.now ≡ numbers_for (most self.now.state.config) }
    {
        let at = self.state.slot(k);
        let size = slot_size(self.state.config.max_tracks);
        (
            self.state.slot_words(self.words, k),
            slot_at(self.values, at, size.numbers),
        )
    }

    // The k-th slot holds a well-formed frame.
    fn is_formed(&self, k: usize) -> bool
        ensures { result ≡ well_formed (most self.now.state.config) (held_frame self.now.state self.now.words.now self.now.values.now k) }
    {
        let (words, values) = self.slot(k);
        FrameCounts::checked(words, self.state.config.max_tracks).is_some_and(|counts| Frame::front(
            counts, words, values,
        ).rows_ok())
    }

    // Each slot in use does. It asks that there is a slot for each frame held.
    pub fn all_formed(&self) -> bool
        requires { self.now.state.held ≤ lag self.now.state.config }
        ensures { result ≡ all_formed (most self.now.state.config) (frames_in self.now.state self.now.words.now self.now.values.now) }
    {
        (0..self.state.held).all(|k| self.is_formed(k))
    }

    // The k-th held frame. It asks that the counts in its slot are in bounds.
    #[tactic(auto, unfolding(crate::specs::Window::words_in, crate::specs::Window::numbers_in))]
    pub fn frame(&self, k: usize) -> Frame<'a>
        requires { SlotCounts self.now.state self.now.words.now k }
        ensures { result ≡ held_frame self.now.state self.now.words.now self.now.values.now k }
    {
        let (words, values) = self.slot(k);
        Frame::front(FrameCounts::of(words), words, values)
    }
}
