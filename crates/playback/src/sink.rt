// Where the refiner's frames go: into text, in short or in full; or to a smoother, whose frames go into text in full.
//
// The text of an answer is put together at the start of text, and a function gives back the place where it ends.
ghost use Rattle.std.specs.Prelude.{◌≡◌, ◌≤◌, length, OnOk, OnErr};
ghost use Rattle.bounds.specs.Bounds.{LAG};
ghost use Rattle.refusals.specs.Refusals.{refused};
ghost use Rattle.buffers.specs.Answer.{answer_in};
ghost use Rattle.print.specs.Printed.{Counted};

use bounds::TEXT;
use console::Console;
use engine::config::FgoConfig;
use print::answer_ref::AnswerRef;
use print::answers;
use refusals::Refusal;

// Where the frames go.
pub trait Sink: Drop {
    ghost use Rattle.std.specs.Prelude.{ℕ, List, Float};
    ghost use Rattle.buffers.specs.Answer.{Answer};
    ghost use Rattle.engine.specs.declared.config.FgoConfig.{FgoConfig};

    // It is opened behind a refiner of these settings, and holds no frame yet.
    ghost opened_of: { FgoConfig → Self → Type 0 };

    // What it is refused for behind a refiner of these settings: a refusal's number, 0 for nothing.
    ghost refusal_of: { FgoConfig → ℕ };

    // It holds no frame.
    ghost emptied_of: { Self → Type 0 };

    // An answer of the refiner comes to it, with its frame at the front of these words and numbers: what is left of it,
    // and the text, which ends there.
    ghost prints_of: { Self → Self → List ℕ → ℕ → Answer → List ℕ → List Float → Type 0 };

    // Before it is opened.
    fn new() -> Self;

    // Opened behind a refiner with these settings; or its refusal, which leaves it as it was.
    // As it is: a sink that is there already is opened, and no sink is given: a smoother's window is long, and would be
    // copied from call to call on its way to where it stays.
    fn open(&mut self, c: FgoConfig) -> Result<(), Refusal>
        requires { c.lag_frames ≤ LAG }
        ensures opened { OnOk result (opened_of c self.new) }
        ensures refusal { refused result ≡ refusal_of c }
        ensures kept { OnErr result (self.new ≡ self.old) };

    // An answer of the refiner, to where its frames go.
    fn put_answer(&mut self, shown: &AnswerRef<'_>, text: &mut [u8; TEXT]) -> usize
        requires { Counted (answer_in shown.now.answer) shown.now.words.now }
        ensures prints { prints_of self.old self.new text.new result (answer_in shown.now.answer) shown.now.words.now shown.now.numbers.now }
        ensures within { result ≤ length text.new };

    // All that is still held, taken and printed.
    fn take_rest(
        &mut self,
        rt: &(impl Print + Eprint),
        text: &mut [u8; TEXT],
        console: &mut Console,
    )
        ensures { emptied_of self.new };
}

// Into text, in short.
#[derive(Drop)]
pub struct Short;

impl Sink for Short {
    ghost use Rattle.print.specs.Text.{short_answer};
    ghost use Rattle.playback.specs.Told.{Puts};

    ghost opened_of = { λ c k. Unit {0} };

    ghost refusal_of = { λ c. 0 };

    ghost emptied_of = { λ k. Unit {0} };

    ghost prints_of = { λ k k' out end answer ws ns. Puts k k' out end (short_answer answer ws ns) };

    fn new() -> Short {
        Short
    }

    fn open(&mut self, _c: FgoConfig) -> Result<(), Refusal> {
        Ok(())
    }

    #[tactic(auto, using(print::proofs::Fitting::ready, print::proofs::Fitting::short_answer_few))]
    fn put_answer(&mut self, shown: &AnswerRef<'_>, text: &mut [u8; TEXT]) -> usize {
        answers::put_short(text, shown)
    }

    fn take_rest(
        &mut self,
        _rt: &(impl Print + Eprint),
        _text: &mut [u8; TEXT],
        _console: &mut Console,
    ) {}
}

// Into text, in full.
// As it is: an impl for each form. One for both, over a trait of forms, would need two impls of that trait: each would
// name the definition, the function and the lemma of its length, which are all that differs here.
#[derive(Drop)]
pub struct Full;

impl Sink for Full {
    ghost use Rattle.print.specs.Text.{full_answer};
    ghost use Rattle.playback.specs.Told.{Puts};

    ghost opened_of = { λ c k. Unit {0} };

    ghost refusal_of = { λ c. 0 };

    ghost emptied_of = { λ k. Unit {0} };

    ghost prints_of = { λ k k' out end answer ws ns. Puts k k' out end (full_answer answer ws ns) };

    fn new() -> Full {
        Full
    }

    fn open(&mut self, _c: FgoConfig) -> Result<(), Refusal> {
        Ok(())
    }

    #[tactic(auto, using(print::proofs::Fitting::ready, print::proofs::Fitting::full_answer_few))]
    fn put_answer(&mut self, shown: &AnswerRef<'_>, text: &mut [u8; TEXT]) -> usize {
        answers::put_full(text, shown)
    }

    fn take_rest(
        &mut self,
        _rt: &(impl Print + Eprint),
        _text: &mut [u8; TEXT],
        _console: &mut Console,
    ) {}
}
