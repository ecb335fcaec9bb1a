// The calls of a smoother.
//
// Of its window as much is lent to it as the window says; words and numbers are the output buffers that are lent to it.
// What a call prints is put at the start of out, and a call gives where that ends.
//
// As it is: words, numbers and out go to each function side by side. Of a struct of `&mut` slices it is not known what
// is written through them, so with one the proofs do not close; fgo_emit's `put_frame` says the same.
#![tactic(auto)]

pub mod window;

ghost use Rattle.std.specs.Prelude.{◌≡◌, true, List, ℕ, ◌+◌, ◌*◌, ◌≤◌, length, Float};
ghost use Rattle.std.specs.Float.{binary64};
ghost use Rattle.std.specs.Float.Ieee.{of_bits};
ghost use Rattle.bounds.specs.Bounds.{SETTING, TEXT, LENT_WORDS, LENT_NUMBERS};
ghost use Rattle.buffers.specs.Answer.{answer_in, pushed, taken};
ghost use Rattle.engine.specs.Body.{rows};
ghost use Rattle.engine.specs.Little.{little};
ghost use Rattle.smoother_frame.specs.Frame.{frame as frame_of};
ghost use Rattle.print.specs.Text.{Ready, call_answer};
ghost use Rattle.calls_input.specs.declared.Call.TheVariants as calls;
ghost use Rattle.calls_input.specs.Input.{smoother_has, Sane};
ghost use Rattle.calls_cells.specs.Lent.{last_frame};
ghost use Rattle.calls_smoother.specs.declared.window.Room.TheVariants.{Asked};
ghost use Rattle.calls_smoother.specs.Room.{Fits};
ghost use Rattle.calls_smoother.specs.Smoothing.{settings_in, asked_by, room_for, frame_in, smoother_with, window_in, window_with};
ghost use Rattle.calls_smoother.specs.Smoothing.{AnswersOver, Answers, Opens, Smooths};

use bounds::{SETTING, TEXT};
use buffers::FrameSize;
use calls_cells::cells::Fields;
use calls_cells::lent::LastFrame;
use calls_input::SmootherCall;
use calls_input::cells::{Cell, SmootherPlace};
use engine::little;
use print::answer_ref::AnswerRef;
use print::{answers, lines};
use scalar::bits;
use smoother::FrameRef;
use smoother_window::size::{WindowSize, window_size};
use smoother_window::{FixedLagSmoother, SmootherConfig};
use window::{LentSmoother, LentWindow, Room};

// ---- opening

// The settings that an opening asks for.
#[tactic(auto, unfolding(crate::specs::Smoothing::settings_in))]
fn settings_in(s: &[u8]) -> SmootherConfig
    requires { length s.now ≡ SETTING * 3 }
    ensures { result ≡ settings_in s.now }
{
    let lag_frames = little::u64_at(s, 0) as usize;
    let accel_spectral_density = little::f64_at(s, SETTING);
    let max_tracks = little::u64_at(s, SETTING * 2) as usize;
    SmootherConfig {
        lag_frames,
        accel_spectral_density,
        max_tracks,
    }
}

// The size of the window that lag and C ask for.
// As it is: no words and no numbers, and not None, where they are out of bounds: by README the window is empty then,
// and lent like any other.
#[tactic(auto, unfolding(smoother_window::specs::Config::bounded))]
fn asked_size(c: SmootherConfig) -> WindowSize
    ensures { (result ≡ asked_by c) × Fits (Asked result) }
{
    if !smoother::bounded(c) {
        return WindowSize {
            words: 0,
            numbers: 0,
        };
    }
    window_size(c.lag_frames, c.max_tracks)
}

// The window that an opening asks for is lent, unless a call has said another.
#[tactic(auto, unfolding(crate::specs::Smoothing::room_for))]
fn room_for(room: Room, c: SmootherConfig) -> Room
    requires { Fits room }
    ensures { (result ≡ room_for room c) × Fits result }
{
    match room {
        Room::Said(_) => room,
        Room::Asked(_) => Room::Asked(asked_size(c)),
    }
}

// A smoother is opened; a refusal leaves the one there was, and its window.
fn open(smoother: &mut LentSmoother, s: &[u8], out: &mut [u8; TEXT]) -> usize
    requires { length s.now ≡ SETTING * 3 }
    ensures { (ws : List ℕ) (ns : List Float) → Opens smoother.old ws ns smoother.new ws ns result out.new (settings_in s.now) }
{
    let config = settings_in(s);
    let window = &mut smoother.window;
    window.room = room_for(window.room, config);
    let size = window.room.size();
    match smoother::open_over(config, size, &mut window.words, &mut window.values) {
        Err(refusal) => lines::put_refused(out, 0, refusal),
        Ok(state) => {
            smoother.state = state;
            lines::put_opened(out)
        }
    }
}

// ---- push and take

// After a push or a take its answer is printed.
#[tactic(auto, using(print::proofs::Fitting::ready, print::proofs::Fitting::call_answer_few))]
fn tell(shown: &AnswerRef<'_>, out: &mut [u8; TEXT]) -> usize
    ensures { Ready (call_answer (answer_in shown.now.answer) shown.now.words.now shown.now.numbers.now) out.new result }
{
    answers::put_call(out, shown)
}

// A frame is pushed. Of the smoother its fields and its window are lent, and not where the frame may stand.
fn push(
    state: &mut FixedLagSmoother,
    window: &mut LentWindow,
    frame: &FrameRef<'_>,
    words: &mut [u64],
    numbers: &mut [f64],
    out: &mut [u8; TEXT],
) -> usize
    ensures { AnswersOver state.old window.old words.old numbers.old state.new window.new words.new numbers.new result out.new
        (pushed (frame_of frame.now.words.now frame.now.numbers.now)) }
{
    let size = window.room.size();
    let answer = smoother::push_over(
        state,
        size,
        &mut window.words,
        &mut window.values,
        frame,
        words,
        numbers,
    );
    let shown = AnswerRef {
        answer,
        words,
        numbers,
    };
    tell(&shown, out)
}

// The oldest frame is taken.
fn take(
    smoother: &mut LentSmoother,
    words: &mut [u64],
    numbers: &mut [f64],
    out: &mut [u8; TEXT],
) -> usize
    ensures { Answers smoother.old words.old numbers.old smoother.new words.new numbers.new result out.new taken }
{
    let size = smoother.window.room.size();
    let answer = smoother::take_over(
        &mut smoother.state,
        size,
        &mut smoother.window.words,
        &mut smoother.window.values,
        words,
        numbers,
    );
    let shown = AnswerRef {
        answer,
        words,
        numbers,
    };
    tell(&shown, out)
}

// ---- a frame of the input

// What eight bytes of the input say: a word, or the number of these bits.
trait FromWord: Copy {
    ghost of_word: { ℕ → Self };

    fn from_word(word: u64) -> Self
        ensures { result ≡ of_word word };
}

impl FromWord for u64 {
    ghost of_word = { λ word. word };

    fn from_word(word: u64) -> u64 {
        word
    }
}

impl FromWord for f64 {
    ghost of_word = { of_bits binary64 };

    fn from_word(word: u64) -> f64 {
        bits::from_bits(word)
    }
}

// As many words or numbers of the input as fill the list, from place n on.
fn read<T: FromWord>(s: &[u8], n: usize, list: &mut [T])
    requires { n + SETTING * length list.old ≤ length s.now }
    ensures { list.new ≡ rows (λ i. T.of_word (little SETTING s.now (n + SETTING * i))) 0 (length list.old) }
{
    for (i, x) in list.iter_mut().enumerate() {
        *x = T::from_word(little::u64_at(s, n + SETTING * i));
    }
}

// A frame of the input is pushed: so many words, then so many numbers.
fn push_read(
    smoother: &mut LentSmoother,
    size: FrameSize,
    s: &[u8],
    words: &mut [u64],
    numbers: &mut [f64],
    out: &mut [u8; TEXT],
) -> usize
    requires { (size.words ≤ LENT_WORDS) × (size.numbers ≤ LENT_NUMBERS) × (length s.now ≡ SETTING * (2 + size.words + size.numbers)) }
    ensures { Answers smoother.old words.old numbers.old smoother.new words.new numbers.new result out.new
        (pushed (frame_in s.now size.words size.numbers)) }
{
    read(s, SETTING * 2, &mut smoother.input.words[..size.words]);
    read(
        s,
        SETTING * (2 + size.words),
        &mut smoother.input.numbers[..size.numbers],
    );
    let input = &smoother.input;
    let frame = FrameRef {
        words: &input.words[..size.words],
        numbers: &input.numbers[..size.numbers],
    };
    push(
        &mut smoother.state,
        &mut smoother.window,
        &frame,
        words,
        numbers,
        out,
    )
}

// ---- cells

// A cell, written.
fn write(smoother: &mut LentSmoother, cell: Cell<SmootherPlace>)
    requires { smoother_has cell ≡ true }
    ensures smoother { smoother.new.state ≡ smoother_with cell smoother.old.state }
    ensures room { smoother.new.window.room ≡ smoother.old.window.room }
    ensures window { window_in smoother.new.window ≡ window_with cell (window_in smoother.old.window) }
{
    match cell.place {
        SmootherPlace::Fields => smoother.state.write_field(cell.index, cell.value),
        SmootherPlace::Window => smoother.window.words[cell.index] = cell.value,
        SmootherPlace::Values => {
            smoother.window.values[cell.index] = bits::from_bits(cell.value)
        }
    }
}

// A call, with what follows it, the frame that the refiner gave last, and what is lent of the output buffers.
// As it is: that `out` has at least TEXT bytes is a clause. A caller may lend a longer buffer; a type of exactly TEXT
// bytes would ask more of it.
pub fn call(
    smoother: &mut LentSmoother,
    call: SmootherCall,
    s: &[u8],
    last: &LastFrame,
    words: &mut [u64],
    numbers: &mut [f64],
    out: &mut [u8],
) -> usize
    requires { Sane (calls.Smoother call) s.now × (TEXT ≤ length out.old) }
    ensures { Smooths smoother.old words.old numbers.old smoother.new words.new numbers.new result out.new
        call s.now (last_frame last.now) }
{
    let text = out.first_chunk_mut().unwrap();
    match call {
        SmootherCall::Open => open(smoother, s, text),
        SmootherCall::PushLast => {
            let frame = FrameRef {
                words: &last.words[..last.size.words],
                numbers: &last.numbers[..last.size.numbers],
            };
            push(
                &mut smoother.state,
                &mut smoother.window,
                &frame,
                words,
                numbers,
                text,
            )
        }
        SmootherCall::Push(size) => push_read(smoother, size, s, words, numbers, text),
        SmootherCall::Take => take(smoother, words, numbers, text),
        SmootherCall::Write(cell) => {
            write(smoother, cell);
            0
        }
    }
}
