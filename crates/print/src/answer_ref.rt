// An answer, and the buffers where its frame stands.
ghost use Rattle.buffers.specs.Answer.{answer_in};
ghost use Rattle.print.specs.Printed.{Shown, shown_prop};

use buffers::Answer;

// An answer of refiner or smoother, and the words and numbers at whose front its frame stands, if it gives one.
#[derive(Clone, Copy)]
pub struct AnswerRef<'a> {
    pub answer: Answer,
    pub words: &'a [u64],
    pub numbers: &'a [f64],
    pub ghost shown: { Shown (answer_in answer) words.now numbers.now } by { shown_prop (answer_in answer) words.now numbers.now },
}
