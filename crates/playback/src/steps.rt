// The steps of a run: every frame of a recording is pushed to the refiner, at the end all are taken, then all from the
// smoother, if there is one. Each answer is printed when it comes.
ghost use Rattle.std.specs.Prelude.{◌≡◌, [], ◌∷◌, ◌≤◌, length};
ghost use Rattle.buffers.specs.Answer.{answer_in, pushed, taken};
ghost use Rattle.engine.specs.declared.types.BodyKind.TheVariants.{Narrow};
ghost use Rattle.engine.specs.Body.{body as body_in};
ghost use Rattle.recording.specs.Recording.{recorded_body};
ghost use Rattle.print.specs.Printed.{Shown, Counted as InBounds};
ghost use Rattle.playback.specs.Played.{pushes, Led, Leads, Fewer, TakesAll};

use crate::output::FrameBuffers;
use crate::sink::Sink;
use bounds::TEXT;
use buffers::Answer;
use console::Console;
use engine::body::Body;
use engine::types::BodyKind;
use fgo_state::state::{FixedLagRefiner, Memory};
use print::answer_ref::AnswerRef;
use print::lines;

// Where a run stands: the refiner, and where its frames go; the refiner's memory, and its output buffers; the text of
// an answer; and standard output.
#[derive(Drop)]
pub struct Player<S> {
    pub refiner: FixedLagRefiner,
    pub sink: S,
    pub memory: Memory,
    pub output: FrameBuffers,
    pub text: [u8; TEXT],
    pub console: Console,
}

impl<S: Sink> Player<S> {
    // A run that has not begun, of a refiner and the memory that it was opened over.
    pub fn new(refiner: FixedLagRefiner, memory: Memory, sink: S) -> Player<S>
        ensures refiner { result.refiner ≡ refiner }
        ensures memory { result.memory ≡ memory }
        ensures sink { result.sink ≡ sink }
    {
        Player {
            refiner,
            sink,
            memory,
            output: FrameBuffers::new(),
            text: [0; TEXT],
            console: Console::new(),
        }
    }

    // The text up to a place, printed.
    fn print_text(&mut self, rt: &(impl Print + Eprint), end: usize)
        requires { end ≤ length self.old.text }
        ensures refiner { self.new.refiner ≡ self.old.refiner }
        ensures memory { self.new.memory ≡ self.old.memory }
        ensures sink { self.new.sink ≡ self.old.sink }
    {
        self.console.write(rt, &self.text[..end]);
    }

    // An answer of the refiner, printed.
    fn print_step(&mut self, rt: &(impl Print + Eprint), answer: Answer)
        requires shown { Shown (answer_in answer) self.old.output.words self.old.output.numbers }
        requires in_bounds { InBounds (answer_in answer) self.old.output.words }
        ensures refiner { self.new.refiner ≡ self.old.refiner }
        ensures memory { self.new.memory ≡ self.old.memory }
    {
        let shown = AnswerRef {
            answer,
            words: &self.output.words,
            numbers: &self.output.numbers,
        };
        let end = self.sink.put_answer(&shown, &mut self.text);
        self.print_text(rt, end);
    }

    // Frame i of a recording, pushed.
    fn push_one(&mut self, rt: &(impl Print + Eprint), s: &[u8], i: usize)
        ensures { Leads (pushed (body_in Narrow (recorded_body s.now i)) ∷ [])
            self.old.refiner self.old.memory self.new.refiner self.new.memory }
    {
        let body = Body {
            kind: BodyKind::Narrow,
            bytes: recording::frame_at(s, i),
        };
        let answer = fgo::push(
            &mut self.refiner,
            &body,
            &mut self.memory,
            &mut self.output.words,
            &mut self.output.numbers,
        );
        self.print_step(rt, answer);
    }

    // The oldest frame, taken.
    fn take_one(&mut self, rt: &(impl Print + Eprint))
        ensures leads { Leads (taken ∷ []) self.old.refiner self.old.memory self.new.refiner self.new.memory }
        ensures fewer { Fewer self.old.refiner self.old.memory self.new.refiner }
    {
        let answer = fgo::take(
            &mut self.refiner,
            &mut self.memory,
            &mut self.output.words,
            &mut self.output.numbers,
        );
        self.print_step(rt, answer);
    }

    // The n frames of a recording, pushed.
    pub fn push_all(&mut self, rt: &(impl Print + Eprint), s: &[u8], n: usize)
        ensures { Leads (pushes s.now n) self.old.refiner self.old.memory self.new.refiner self.new.memory }
    {
        for i in 0..n {
            self.push_one(rt, s, i);
        }
    }

    // All that are held, taken.
    pub fn take_all(&mut self, rt: &(impl Print + Eprint))
        requires { Led self.old.refiner self.old.memory }
        ensures { TakesAll self.old.refiner self.old.memory self.new.refiner self.new.memory }
    {
        // As it is: a loop until none is held, which no range says.
        while 0 < self.refiner.held {
            self.take_one(rt);
        }
    }

    // What a sink still holds, taken and printed.
    pub fn take_rest(&mut self, rt: &(impl Print + Eprint))
        ensures refiner { self.new.refiner ≡ self.old.refiner }
        ensures memory { self.new.memory ≡ self.old.memory }
        ensures emptied { S.emptied_of self.new.sink }
    {
        self.sink.take_rest(rt, &mut self.text, &mut self.console);
    }

    // The counters, printed.
    #[tactic(auto, using(print::proofs::Fitting::ready, print::proofs::Fitting::counted_few))]
    pub fn print_counters(&mut self, rt: &(impl Print + Eprint))
        ensures refiner { self.new.refiner ≡ self.old.refiner }
        ensures memory { self.new.memory ≡ self.old.memory }
        ensures sink { self.new.sink ≡ self.old.sink }
    {
        let m = &self.memory;
        let k = fgo::counters(&self.refiner, &m.scans, &m.owners, &m.parts.tracks);
        let end = lines::put_counted(&mut self.text, 0, k);
        self.print_text(rt, end);
    }
}
