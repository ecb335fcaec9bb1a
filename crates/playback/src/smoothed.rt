// A smoother behind the refiner, with its window. The text of an answer is put together at the start of text, and a
// function gives back the place where it ends.
ghost use Rattle.std.specs.Prelude.{◌≡◌, ◌≤◌};
ghost use Rattle.bounds.specs.Bounds.{WINDOW, VALUES};
ghost use Rattle.buffers.specs.Answer.{answer_in, pushed, taken};
ghost use Rattle.print.specs.Printed.{Shown};
ghost use Rattle.print.specs.Text.{Puts, full_answer};
ghost use Rattle.smoother.specs.Promise.{window as window_of, lent_of};
ghost use Rattle.playback.specs.Smoothed.{smoothing_of, Smoothed};

use crate::output::FrameBuffers;
use crate::sink::Sink;
use bounds::{TEXT, TRACKS, VALUES, WINDOW};
use buffers::Answer;
use console::Console;
use engine::config::FgoConfig;
use print::answer_ref::AnswerRef;
use print::{answers, lines};
use refusals::Refusal;
use smoother::FrameRef;
use smoother_window::size::{WindowSize, window_size};
use smoother_window::{FixedLagSmoother, SmootherConfig};

// A smoother; the longest window, of which as much is lent to it as its lag asks for; and its output buffers. Pushes and
// takes have led to smoother and window.
#[derive(Drop)]
pub struct Smoother {
    pub state: FixedLagSmoother,
    pub size: WindowSize,
    pub words: [u64; WINDOW],
    pub values: [f64; VALUES],
    pub output: FrameBuffers,
    pub ghost fits: { (size.words ≤ WINDOW) × (size.numbers ≤ VALUES) },
    pub ghost led: { ∥ Smoothed state (lent_of size (window_of words values)) ∥₁ },
}

// The settings of a smoother of the refiner's lag and density, for frames of as many tracks as it may emit.
fn smoothing(c: FgoConfig) -> SmootherConfig
    ensures { result ≡ smoothing_of c }
{
    SmootherConfig {
        lag_frames: c.lag_frames,
        accel_spectral_density: c.accel_spectral_density,
        max_tracks: TRACKS,
    }
}

impl Smoother {
    ghost use Rattle.smoother_frame.specs.Frame.{frame as frame_of};
    ghost use Rattle.playback.specs.Told.{Tells};

    // An answer, whose frame stands in the output buffers, told in full.
    fn tell(&self, answer: Answer, text: &mut [u8; TEXT]) -> usize
        requires { Shown (answer_in answer) self.now.output.words self.now.output.numbers }
        ensures { Puts (full_answer (answer_in answer) self.now.output.words self.now.output.numbers) 0 text.old text.new result }
    {
        let shown = AnswerRef {
            answer,
            words: &self.output.words,
            numbers: &self.output.numbers,
        };
        answers::put_full(text, &shown)
    }

    // A frame, pushed, and the answer.
    fn push(&mut self, frame: &FrameRef<'_>, text: &mut [u8; TEXT]) -> usize
        ensures { Tells self.old self.new text.new result (pushed (frame_of frame.now.words.now frame.now.numbers.now)) }
    {
        let answer = smoother::push_over(
            &mut self.state,
            self.size,
            &mut self.words,
            &mut self.values,
            frame,
            &mut self.output.words,
            &mut self.output.numbers,
        );
        self.tell(answer, text)
    }

    // The oldest frame that is held, taken.
    fn take(&mut self, text: &mut [u8; TEXT]) -> usize
        ensures { Tells self.old self.new text.new result taken }
    {
        let answer = smoother::take_over(
            &mut self.state,
            self.size,
            &mut self.words,
            &mut self.values,
            &mut self.output.words,
            &mut self.output.numbers,
        );
        self.tell(answer, text)
    }
}

impl Sink for Smoother {
    ghost use Rattle.playback.specs.Told.{Smooths};
    ghost use Rattle.playback.specs.Played.{Opened, unopened_for, Emptied};

    ghost opened_of = { Opened };

    ghost refusal_of = { unopened_for };

    ghost emptied_of = { Emptied };

    ghost prints_of = { Smooths };

    // One with lag 0 over a clear window, which holds nothing.
    fn new() -> Smoother {
        Smoother {
            state: FixedLagSmoother {
                config: SmootherConfig {
                    lag_frames: 0,
                    accel_spectral_density: 0.0,
                    max_tracks: TRACKS,
                },
                first: 0,
                held: 0,
            },
            size: window_size(0, TRACKS),
            words: [0; WINDOW],
            values: [0.0; VALUES],
            output: FrameBuffers::new(),
        }
    }

    // A smoother of the refiner's lag and density.
    fn open(&mut self, c: FgoConfig) -> Result<(), Refusal> {
        let size = window_size(c.lag_frames, TRACKS);
        self.state = smoother::open_over(smoothing(c), size, &mut self.words, &mut self.values)?;
        self.size = size;
        Ok(())
    }

    // A refusal is told, and a frame is pushed.
    #[tactic(auto, using(print::proofs::Fitting::ready, print::proofs::Fitting::refused_few))]
    fn put_answer(&mut self, shown: &AnswerRef<'_>, text: &mut [u8; TEXT]) -> usize {
        match shown.answer {
            Err(refusal) => lines::put_refused(text, 0, refusal),
            Ok(None) => 0,
            Ok(Some(f)) => {
                let frame = FrameRef {
                    words: &shown.words[..f.words],
                    numbers: &shown.numbers[..f.numbers],
                };
                self.push(&frame, text)
            }
        }
    }

    fn take_rest(
        &mut self,
        rt: &(impl Print + Eprint),
        text: &mut [u8; TEXT],
        console: &mut Console,
    ) {
        // As it is: a loop until none is held, which no range says.
        while 0 < self.state.held {
            let end = self.take(text);
            console.write(rt, &text[..end]);
        }
    }
}
