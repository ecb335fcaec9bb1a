// The oldest held frame, smoothed, into the output buffers.
//
// As it is: a function for the words and one for the numbers. Of a struct of both as `&mut` slices it is not known what
// is written through them, so with one the proofs do not close; fgo_emit's `put_frame` says the same.
ghost use Rattle.std.specs.Prelude.{◌≡◌, ◌++◌, ◌+◌, ◌*◌, ◌≤◌, length, drop};
ghost use Rattle.bounds.specs.Bounds.{STATE, WORDS, NUMBERS, LAG, TRACKS, words_for};
ghost use Rattle.buffers.specs.Buffers.{over};
ghost use Rattle.rts.specs.Smoothing.{estimate_of};
ghost use Rattle.smoother_frame.specs.Frame.{track_count, costs_from, smoothed_as};
ghost use Rattle.smoother_window.specs.Config.{lag, most};
ghost use Rattle.smoother_window.specs.Window.{words_in, SlotCounts};
ghost use Rattle.smoother_window.specs.Held.{state_of, frames_of, frame_of};
ghost use Rattle.smoother_pass.specs.Pass.{flat, states_to, smoothed_flag};
ghost use Rattle.smoother_pass.specs.Oldest.{oldest};

use crate::pass::smooth;
use bounds::{STATE, VECTOR};
use buffers::put;
use rts::TrackState;
use smoother_frame::head::put_smoothed;
use smoother_window::FixedLagSmoother;
use smoother_window::held::HeldFrames;

// The numbers of a track's state, from a place on.
fn put_state(out: &mut [f64], at: usize, state: &TrackState)
    requires { at + STATE ≤ length out.old }
    ensures { out.new ≡ over at (flat (estimate_of state.now)) out.old }
{
    put(out, at, &state.x);
    put(out, at + VECTOR, &state.p);
}

// The tracks of the oldest held frame, smoothed, at the front of out.
fn put_states(out: &mut [f64], held: &HeldFrames<'_>)
    requires { NUMBERS ≤ length out.old }
    ensures written { out.new ≡ states_to (state_of held.now).config (frames_of held.now) (frame_of held.now 0) (track_count (frame_of held.now 0).words)
        ++ drop (costs_from (frame_of held.now 0).words) out.old }
    ensures whole { length (states_to (state_of held.now).config (frames_of held.now) (frame_of held.now 0) (track_count (frame_of held.now 0).words))
        ≡ costs_from (frame_of held.now 0).words }
{
    for i in 0..held.frame(0).counts().tracks {
        put_state(out, STATE * i, &smooth(held, i));
    }
}

// The words of the oldest held frame, with the flag that it is smoothed where the lag is not 0; how many there are. It
// asks that the window's words have the length that lag and C ask for, that the counts in the frame's slot are in
// bounds, and that words has room for any frame.
pub fn emit_words(words: &mut [u64], s: FixedLagSmoother, window: &[u64]) -> usize
    requires lags { lag s.config ≤ LAG }
    requires tracks { most s.config ≤ TRACKS }
    requires window { length window.now ≡ (lag s.config + 1) * words_for (most s.config) }
    requires counted { SlotCounts s window.now 0 }
    requires room { WORDS ≤ length words.old }
    ensures many { result ≡ length (words_in s window.now 0) }
    ensures written { words.new ≡ over 0 (smoothed_as (words_in s window.now 0) (smoothed_flag s.config)) words.old }
    ensures within { result ≤ WORDS }
{
    let frame = s.frame_words(window, 0);
    put(words, 0, frame);
    put_smoothed(words, u64::from(0 < s.config.lag_frames));
    frame.len()
}

// The numbers of the oldest held frame: its tracks smoothed, then its costs as they were; how many there are. It asks
// that numbers has room for any frame.
pub fn emit_numbers(numbers: &mut [f64], held: &HeldFrames<'_>) -> usize
    requires { NUMBERS ≤ length numbers.old }
    ensures many { result ≡ length (oldest (state_of held.now) held.now.window.words.now held.now.window.values.now).numbers }
    ensures written { numbers.new ≡ over 0 (oldest (state_of held.now) held.now.window.words.now held.now.window.values.now).numbers numbers.old }
    ensures within { result ≤ NUMBERS }
{
    put_states(numbers, held);
    let frame = held.frame(0);
    put(numbers, frame.counts().costs_from(), frame.costs());
    frame.numbers().len()
}
