// An answer of refiner or smoother, from the start of a buffer on: the line of a refusal; nothing where a frame is
// held; or the frame that it gives.
// As it is, `put_full` and `put_short` differ in one call. One function of both would take that call, with a clause of
// its own that is either definition's arms again: longer than the four lines that they share.
ghost use Rattle.buffers.specs.Answer.{answer_in};
ghost use Rattle.print.specs.Text.{short_answer, full_answer, call_answer, Puts};
ghost use Rattle.print.specs.Printed.{Counted};

use crate::answer_ref::AnswerRef;
use crate::{fields, full, lines, short};

// With its frame in full.
#[tactic(auto, unfolding(crate::specs::Text::full_answer), using(crate::proofs::Putting::puts_none))]
pub fn put_full(out: &mut [u8], shown: &AnswerRef<'_>) -> usize
    ensures { Puts (full_answer (answer_in shown.now.answer) shown.now.words.now shown.now.numbers.now) 0 out.old out.new result }
{
    match shown.answer {
        Err(refusal) => lines::put_refused(out, 0, refusal),
        Ok(None) => 0,
        Ok(Some(f)) => full::put_frame(
            out,
            0,
            &shown.words[..f.words],
            &shown.numbers[..f.numbers],
        ),
    }
}

// With its frame in short.
#[tactic(auto, unfolding(crate::specs::Text::short_answer), using(crate::proofs::Putting::puts_none))]
pub fn put_short(out: &mut [u8], shown: &AnswerRef<'_>) -> usize
    requires { Counted (answer_in shown.now.answer) shown.now.words.now }
    ensures { Puts (short_answer (answer_in shown.now.answer) shown.now.words.now shown.now.numbers.now) 0 out.old out.new result }
{
    match shown.answer {
        Err(refusal) => lines::put_refused(out, 0, refusal),
        Ok(None) => 0,
        Ok(Some(f)) => short::put_frame(
            out,
            0,
            &shown.words[..f.words],
            &shown.numbers[..f.numbers],
        ),
    }
}

// With its frame in full, and where one is held that is said.
#[tactic(auto, unfolding(crate::specs::Text::call_answer))]
pub fn put_call(out: &mut [u8], shown: &AnswerRef<'_>) -> usize
    ensures { Puts (call_answer (answer_in shown.now.answer) shown.now.words.now shown.now.numbers.now) 0 out.old out.new result }
{
    match shown.answer {
        Ok(None) => fields::put_text(out, 0, b"held\n"),
        Ok(Some(_)) | Err(_) => put_full(out, shown),
    }
}
