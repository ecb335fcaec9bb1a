// Fixed-lag smoothing of refined frames, over window buffers that the caller lends: open, push and take, and what they
// refuse.
//
// As it is: words and numbers, and window and values, go to each function side by side. Of a struct of `&mut` slices it
// is not known what is written through them, so with one the proofs do not close; fgo_emit's `put_frame` says the same.
#![tactic(auto)]

ghost use Rattle.std.specs.Prelude.{◌≡◌, ◌≤◌, length};
ghost use Rattle.bounds.specs.Bounds.{LAG, TRACKS, WORDS, NUMBERS, WINDOW, VALUES};
ghost use Rattle.refusals.specs.Refusals.{refused};
ghost use Rattle.buffers.specs.Answer.{pushed, taken};
ghost use Rattle.smoother_frame.specs.Frame.{frame as frame_of};
ghost use Rattle.smoother_window.specs.Config as Config;
ghost use Rattle.smoother_window.specs.Config.{lag, most};
ghost use Rattle.smoother.specs.Smoother as Smoother;
ghost use Rattle.smoother.specs.Promise as Promise;
ghost use Rattle.smoother.specs.Promise.{state_in, opening_of, new_by, later_refusal, pushed_as, given_off, lent_of, rest_of, Opens, Promised, Ready, Emits};

use bounds::{LAG, TRACKS, VALUES, WINDOW};
use buffers::{Answer, FrameSize};
use refusals::Refusal;
use scalar::bits;
use smoother_frame::frame::Frame;
use smoother_pass::emit::{emit_numbers, emit_words};
use smoother_window::held::HeldFrames;
use smoother_window::size::{WindowSize, window_size};
use smoother_window::window::WindowRef;
use smoother_window::{FixedLagSmoother, SmootherConfig};

// ---- what is refused

// Whether the lag is from 0 to 16, and C from 1 to 128.
pub fn bounded(c: SmootherConfig) -> bool
    ensures { result ≡ Config.bounded c }
{
    c.lag_frames <= LAG && (1..=TRACKS).contains(&c.max_tracks)
}

// Whether window buffers of this size have the lengths that lag and C ask for.
fn window_fits(c: SmootherConfig, size: WindowSize) -> bool
    requires { (lag c ≤ LAG) × (most c ≤ TRACKS) }
    ensures { result ≡ Smoother.window_fits c size.words size.numbers }
{
    window_size(c.lag_frames, c.max_tracks) == size
}

// Whether a smoother may be opened. Refused are settings out of bounds or not finite (`Setting`), then window buffers
// that are not as long as these settings ask (`Window`).
fn check_open(c: SmootherConfig, size: WindowSize) -> Result<(), Refusal>
    ensures { refused result ≡ Smoother.open_refusal c size.words size.numbers }
{
    if !bounded(c) || !bits::is_finite(c.accel_spectral_density) {
        return Err(Refusal::Setting);
    }
    if !window_fits(c, size) {
        return Err(Refusal::Window);
    }
    Ok(())
}

// Whether the state keeps its rule: density finite, at most lag frames held, each well formed.
fn rule_ok(window: &WindowRef<'_>) -> bool
    ensures { result ≡ Smoother.rule_ok (state_in window.now.state (Promise.window window.now.words.now window.now.values.now)) }
{
    bits::is_finite(window.state.config.accel_spectral_density)
        && window.state.held <= window.state.config.lag_frames
        && window.all_formed()
}

// What push and take ask alike. Refused are settings out of bounds or a window that is not as long as they ask
// (`Window`), then a state that breaks its rule (`State`), then output buffers without room for any frame (`Output`).
fn check_call(
    s: FixedLagSmoother,
    win: &[u64],
    nums: &[f64],
    words: usize,
    numbers: usize,
) -> Result<(), Refusal>
    ensures { refused result ≡ later_refusal s (Promise.window win.now nums.now) words numbers }
{
    let size = WindowSize {
        words: win.len(),
        numbers: nums.len(),
    };
    if !bounded(s.config) || !window_fits(s.config, size) {
        return Err(Refusal::Window);
    }
    let window = WindowRef {
        state: s,
        words: win,
        values: nums,
    };
    if !rule_ok(&window) {
        return Err(Refusal::State);
    }
    if !buffers::is_roomy(words, numbers) {
        return Err(Refusal::Output);
    }
    Ok(())
}

// ---- the entry points

// The oldest frame held leaves, smoothed, at the front of the output buffers: so many words and numbers. Its slot is
// cleared.
fn emit_oldest(
    s: &mut FixedLagSmoother,
    window: &mut [u64],
    values: &mut [f64],
    words: &mut [u64],
    numbers: &mut [f64],
) -> FrameSize
    requires ready { Ready s.old (Promise.window window.old values.old) }
    requires words { WORDS ≤ length words.old }
    requires numbers { NUMBERS ≤ length numbers.old }
    ensures { Emits s.old (Promise.window window.old values.old) words.old numbers.old
        (given_off result s.new) (Promise.window window.new values.new) words.new numbers.new }
{
    let held = HeldFrames {
        window: WindowRef {
            state: *s,
            words: window,
            values,
        },
    };
    let size = FrameSize {
        words: emit_words(words, *s, window),
        numbers: emit_numbers(numbers, &held),
    };
    s.drop_oldest(window, values);
    size
}

// A smoother that holds nothing, over window buffers that it clears. A refusal leaves them as they were. The density
// must be the tracker's.
pub fn open(
    config: SmootherConfig,
    window: &mut [u64],
    values: &mut [f64],
) -> Result<FixedLagSmoother, Refusal>
    ensures opened { opening_of result (Promise.window window.new values.new) ≡ Smoother.opens config (length window.old) (length values.old) }
    ensures new { (s : FixedLagSmoother) → result ≡ Ok s → s ≡ new_by config }
    ensures window { Opens config (Promise.window window.old values.old) (Promise.window window.new values.new) }
{
    let size = WindowSize {
        words: window.len(),
        numbers: values.len(),
    };
    check_open(config, size)?;
    buffers::clear(window, 0, size.words, 0);
    buffers::clear(values, 0, size.numbers, 0.0);
    Ok(FixedLagSmoother {
        config,
        first: 0,
        held: 0,
    })
}

// A frame, as its words and its numbers.
#[derive(Clone, Copy)]
pub struct FrameRef<'a> {
    pub words: &'a [u64],
    pub numbers: &'a [f64],
}

// The next frame. When more than lag frames are held, the oldest leaves.
pub fn push(
    s: &mut FixedLagSmoother,
    window: &mut [u64],
    values: &mut [f64],
    frame: &FrameRef<'_>,
    words: &mut [u64],
    numbers: &mut [f64],
) -> Answer
    ensures { Promised (pushed (frame_of frame.now.words.now frame.now.numbers.now)) s.old (Promise.window window.old values.old)
        words.old numbers.old (pushed_as result s.new) (Promise.window window.new values.new) words.new numbers.new }
{
    check_call(*s, window, values, words.len(), numbers.len())?;
    let formed = Frame::well_formed(s.config.max_tracks, frame.words, frame.numbers);
    let frame = formed.ok_or(Refusal::Frame)?;
    s.store(window, values, &frame);
    if s.held <= s.config.lag_frames {
        return Ok(None);
    }
    Ok(Some(emit_oldest(s, window, values, words, numbers)))
}

// The oldest held frame.
pub fn take(
    s: &mut FixedLagSmoother,
    window: &mut [u64],
    values: &mut [f64],
    words: &mut [u64],
    numbers: &mut [f64],
) -> Answer
    ensures { Promised taken s.old (Promise.window window.old values.old) words.old numbers.old
        (pushed_as result s.new) (Promise.window window.new values.new) words.new numbers.new }
{
    check_call(*s, window, values, words.len(), numbers.len())?;
    if s.held == 0 {
        return Err(Refusal::Empty);
    }
    Ok(Some(emit_oldest(s, window, values, words, numbers)))
}

// ---- over so much of the longest window; the rest of it stays
//
// As it is: functions of their own, to which a caller lends both arrays of its struct whole. It was tried to cut them
// where `push` is called, and the proof did not close: of two fields of a struct of which parts are lent in one call,
// the check does not know what the call leaves there.
// As it is: a size within WINDOW and VALUES is asked here and in calls_smoother's `LentWindow::lend`, and is a fact of
// those who keep one. It is no fact of `WindowSize`, which is also made of the lengths that a caller lends, and these
// may be any: `window_fits` compares them.

// A smoother that holds nothing.
pub fn open_over(
    config: SmootherConfig,
    size: WindowSize,
    window: &mut [u64; WINDOW],
    values: &mut [f64; VALUES],
) -> Result<FixedLagSmoother, Refusal>
    requires { (size.words ≤ WINDOW) × (size.numbers ≤ VALUES) }
    ensures opened { opening_of result (lent_of size (Promise.window window.new values.new)) ≡ Smoother.opens config size.words size.numbers }
    ensures new { (s : FixedLagSmoother) → result ≡ Ok s → s ≡ new_by config }
    ensures window { Opens config (lent_of size (Promise.window window.old values.old)) (lent_of size (Promise.window window.new values.new)) }
    ensures rest { rest_of size (Promise.window window.new values.new) ≡ rest_of size (Promise.window window.old values.old) }
{
    open(
        config,
        &mut window[..size.words],
        &mut values[..size.numbers],
    )
}

// The next frame.
pub fn push_over(
    s: &mut FixedLagSmoother,
    size: WindowSize,
    window: &mut [u64; WINDOW],
    values: &mut [f64; VALUES],
    frame: &FrameRef<'_>,
    words: &mut [u64],
    numbers: &mut [f64],
) -> Answer
    requires { (size.words ≤ WINDOW) × (size.numbers ≤ VALUES) }
    ensures promised { Promised (pushed (frame_of frame.now.words.now frame.now.numbers.now))
        s.old (lent_of size (Promise.window window.old values.old)) words.old numbers.old
        (pushed_as result s.new) (lent_of size (Promise.window window.new values.new)) words.new numbers.new }
    ensures rest { rest_of size (Promise.window window.new values.new) ≡ rest_of size (Promise.window window.old values.old) }
{
    push(
        s,
        &mut window[..size.words],
        &mut values[..size.numbers],
        frame,
        words,
        numbers,
    )
}

// The oldest held frame.
pub fn take_over(
    s: &mut FixedLagSmoother,
    size: WindowSize,
    window: &mut [u64; WINDOW],
    values: &mut [f64; VALUES],
    words: &mut [u64],
    numbers: &mut [f64],
) -> Answer
    requires { (size.words ≤ WINDOW) × (size.numbers ≤ VALUES) }
    ensures promised { Promised taken s.old (lent_of size (Promise.window window.old values.old)) words.old numbers.old
        (pushed_as result s.new) (lent_of size (Promise.window window.new values.new)) words.new numbers.new }
    ensures rest { rest_of size (Promise.window window.new values.new) ≡ rest_of size (Promise.window window.old values.old) }
{
    take(
        s,
        &mut window[..size.words],
        &mut values[..size.numbers],
        words,
        numbers,
    )
}
