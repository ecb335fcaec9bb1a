// The backward pass over held frames.
ghost use Rattle.std.specs.Prelude.{◌≡◌, ◌-◌, ◌<◌};
ghost use Rattle.std.proofs.Math.Option.{some};
ghost use Rattle.scalar.specs.F64.{f64};
ghost use Rattle.rts.specs.Smoothing.{estimate_of, back_from};
ghost use Rattle.smoother_frame.specs.Frame.{track_count, id_word};
ghost use Rattle.smoother_window.specs.Config.{density};
ghost use Rattle.smoother_window.specs.Window.{frames_from};
ghost use Rattle.smoother_window.specs.Held.{state_of, frames_of, frame_of};
ghost use Rattle.smoother_pass.specs.Pass.{last_at, state_at, chain_in, run_back, smoothed_at, ran_back, found_at};

use bounds::{STATE, VECTOR};
use buffers::array_at;
use engine::types::RefinedId;
use rts::{Step, TrackState};
use smoother_frame::frame::Frame;
use smoother_window::held::HeldFrames;

// Where the last track with the id stands among a frame's tracks.
fn find(frame: &Frame<'_>, id: RefinedId) -> Option<usize>
    ensures { found_at result ≡ last_at id.0 frame.now.words (track_count frame.now.words) }
{
    (0..frame.counts().tracks).rfind(|i| frame.track_id(*i) == id)
}

// The state of track i.
// As it is: numbers at a stride, which are the published format of an emitted frame.
#[tactic(auto, unfolding(crate::specs::Pass::state_at))]
fn state_of(frame: &Frame<'_>, i: usize) -> TrackState
    requires { i < track_count frame.now.words }
    ensures { estimate_of result ≡ state_at frame.now.numbers i }
{
    let numbers = frame.numbers();
    TrackState {
        x: array_at(numbers, STATE * i),
        p: array_at(numbers, STATE * i + VECTOR),
    }
}

// One step back, from what was found dt later, to the state a.
fn step_back(q: f64, dt: f64, a: &TrackState, later: Option<TrackState>) -> Option<TrackState>
    ensures { ran_back result ≡ back_from f64 q dt (estimate_of a.now) (ran_back later) }
{
    let mut s = later?;
    match rts::back(q, dt, a, &mut s) {
        Step::Smoothed | Step::Skipped => Some(s),
        Step::Failed => None,
    }
}

// The pass over the held frames from the k-th on, which has the id at track i; nothing where a Cholesky fails.
// As it is: a recursion, which goes back over the chain as it returns. A fold back from the chain's last frame is no
// plainer: to know that frame, the id is first looked for in each frame, and then once more in the fold; or an array of
// states is filled and walked back.
fn pass(held: &HeldFrames<'_>, id: RefinedId, k: usize, i: usize) -> Option<TrackState>
    requires there { k < (state_of held.now).held }
    requires found { last_at id.0 (frame_of held.now k).words (track_count (frame_of held.now k).words) ≡ some i }
    ensures { ran_back result ≡ run_back (density (state_of held.now).config)
        (chain_in id.0 (frames_from (state_of held.now) held.now.window.words.now held.now.window.values.now k ((state_of held.now).held - k))) }
{
    let frame = held.frame(k);
    let a = state_of(&frame, i);
    let n = k + 1;
    if held.window.state.held <= n {
        return Some(a);
    }
    let next = held.frame(n);
    let Some(at) = find(&next, id) else {
        return Some(a);
    };
    let dt = next.seconds() - frame.seconds();
    let later = pass(held, id, n, at);
    step_back(
        held.window.state.config.accel_spectral_density,
        dt,
        &a,
        later,
    )
}

// The pass over all of them, for the id that the oldest has at track i.
fn pass_of(held: &HeldFrames<'_>, i: usize) -> Option<TrackState>
    requires { i < track_count (frame_of held.now 0).words }
    ensures { ran_back result ≡ run_back (density (state_of held.now).config) (chain_in (id_word (frame_of held.now 0).words i) (frames_of held.now)) }
{
    let frame = held.frame(0);
    let id = frame.track_id(i);
    let at = find(&frame, id)?;
    pass(held, id, 0, at)
}

// Track i of the oldest held frame, smoothed where no Cholesky fails.
#[tactic(auto, unfolding(crate::specs::Pass::smoothed_at))]
pub fn smooth(held: &HeldFrames<'_>, i: usize) -> TrackState
    requires { i < track_count (frame_of held.now 0).words }
    ensures { estimate_of result ≡ smoothed_at (state_of held.now).config (frames_of held.now) (frame_of held.now 0) i }
{
    let own = state_of(&held.frame(0), i);
    pass_of(held, i).unwrap_or(own)
}
