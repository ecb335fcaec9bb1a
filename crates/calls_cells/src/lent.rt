// What a caller lends for output, and the frame that the refiner gave last.
ghost use Rattle.std.specs.Prelude.{◌≡◌, ◌≤◌, replicate, from_bits};
ghost use Rattle.std.specs.Float.{binary64};
ghost use Rattle.bounds.specs.Bounds.{WORDS, NUMBERS, LENT_WORDS, LENT_NUMBERS};

use bounds::{LENT_NUMBERS, LENT_WORDS, NUMBERS, WORDS};
use buffers::FrameSize;

// Two buffers, and how much of them, from the front on, is in use.
#[derive(Drop)]
pub struct FrameRoom<const W: usize, const N: usize> {
    pub size: FrameSize,
    pub words: [u64; W],
    pub numbers: [f64; N],
    pub ghost few_words: { size.words ≤ W },
    pub ghost few_numbers: { size.numbers ≤ N },
}

// The output buffers: so many of their words and numbers are lent.
pub type Output = FrameRoom<LENT_WORDS, LENT_NUMBERS>;

// The frame that the refiner gave last: so many words and numbers, at the front of these.
pub type LastFrame = FrameRoom<WORDS, NUMBERS>;

impl<const W: usize, const N: usize> FrameRoom<W, N> {
    // All zero, and so much in use.
    fn of(size: FrameSize) -> FrameRoom<W, N>
        requires { (size.words ≤ W) × (size.numbers ≤ N) }
        ensures size { result.size ≡ size }
        ensures words { result.words ≡ replicate W 0 }
        ensures numbers { result.numbers ≡ replicate N (from_bits binary64 0) }
    {
        FrameRoom {
            size,
            words: [0; W],
            numbers: [0.0; N],
        }
    }
}

impl Output {
    // All zero, and so much lent as a frame may ask for.
    pub fn new() -> Output
        ensures lent { result.size ≡ record { words = WORDS; numbers = NUMBERS } }
        ensures words { result.words ≡ replicate LENT_WORDS 0 }
        ensures numbers { result.numbers ≡ replicate LENT_NUMBERS (from_bits binary64 0) }
    {
        FrameRoom::of(FrameSize {
            words: WORDS,
            numbers: NUMBERS,
        })
    }

    // So much is lent from now on.
    pub fn lend(&mut self, lent: FrameSize)
        requires { (lent.words ≤ LENT_WORDS) × (lent.numbers ≤ LENT_NUMBERS) }
        ensures lent { self.new.size ≡ lent }
        ensures words { self.new.words ≡ self.old.words }
        ensures numbers { self.new.numbers ≡ self.old.numbers }
    {
        self.size = lent;
    }
}

impl LastFrame {
    // None yet: all zero, and of no words and no numbers.
    pub fn new() -> LastFrame
        ensures size { result.size ≡ record { words = 0; numbers = 0 } }
        ensures words { result.words ≡ replicate WORDS 0 }
        ensures numbers { result.numbers ≡ replicate NUMBERS (from_bits binary64 0) }
    {
        FrameRoom::of(FrameSize {
            words: 0,
            numbers: 0,
        })
    }
}
