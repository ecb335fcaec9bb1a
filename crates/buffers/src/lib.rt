// The buffers that a caller lends for a frame: words and numbers put into one, when both are long enough, and the
// answer that says how much of them a frame takes. Refiner and smoother answer alike. And an array read out of a list.
#![tactic(auto)]

ghost use Rattle.std.specs.Prelude.{◌≡◌, ◌+◌, ◌≤◌, length, take, drop};
ghost use Rattle.buffers.specs.Buffers.{over, cleared};
ghost use Rattle.buffers.specs.Answer.{roomy};

use bounds::{NUMBERS, WORDS};
use refusals::Refusal;

// The words and the numbers of a frame that stands at the front of the output buffers.
#[derive(Clone, Copy)]
pub struct FrameSize {
    pub words: usize,
    pub numbers: usize,
}

// What push and take answer: a refusal; or nothing where the frame is held, and nothing was written; or a frame.
pub type Answer = Result<Option<FrameSize>, Refusal>;

// Whether output buffers of these lengths have room for any frame.
pub fn is_roomy(words: usize, numbers: usize) -> bool
    ensures { result ≡ roomy words numbers }
{
    WORDS <= words && NUMBERS <= numbers
}

// N elements of a list, from a place on; they must be there.
pub fn array_at<T: Copy, const N: usize>(list: &[T], at: usize) -> [T; N]
    requires { at + N ≤ length list.now }
    ensures { result ≡ take N (drop at list.now) }
{
    *list[at..].first_chunk().unwrap()
}

// A list over another one, from place o on; it must fit. Every other place stays as it was.
pub fn put<T: Copy>(out: &mut [T], o: usize, src: &[T])
    requires { o + length src.now ≤ length out.old }
    ensures { out.new ≡ over o src.now out.old }
{
    out[o..o + src.len()].copy_from_slice(src);
}

// N elements of a list, from a place on, cleared: they get the value that stands for nothing. They must be there, and
// every other place stays as it was.
pub fn clear<T: Copy>(out: &mut [T], at: usize, n: usize, zero: T)
    requires { at + n ≤ length out.old }
    ensures { out.new ≡ cleared zero at n out.old }
{
    for x in out[at..at + n].iter_mut() {
        *x = zero;
    }
}
