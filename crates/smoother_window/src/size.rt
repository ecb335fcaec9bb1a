// How many words and numbers a slot has, and a window.
ghost use Rattle.std.specs.Prelude.{◌≡◌, ◌+◌, ◌*◌, ◌≤◌};
ghost use Rattle.bounds.specs.Bounds.{LAG, TRACKS, words_for, numbers_for};

use bounds::{ASSOCIATIONS, BESIDE, STATE, TRACK};

// So many words, and so many numbers.
// As it is: a type beside a frame's `FrameSize`, for a window's size and for a slot's. One type for all is no plainer,
// since it would let a frame's size be lent as a window's; a slot's is made and read in this crate alone.
#[derive(Clone, Copy, PartialEq, Eq)]
pub struct WindowSize {
    pub words: usize,
    pub numbers: usize,
}

// A slot's, for C tracks at most.
// As it is: most ≤ TRACKS, here and below: why is said at `FrameCounts::checked`.
pub(crate) fn slot_size(most: usize) -> WindowSize
    requires { most ≤ TRACKS }
    ensures words { result.words ≡ words_for most }
    ensures numbers { result.numbers ≡ numbers_for most }
{
    WindowSize {
        words: BESIDE + TRACK * most,
        numbers: ASSOCIATIONS + STATE * most,
    }
}

// A window's, for such a lag and C.
pub fn window_size(lag: usize, most: usize) -> WindowSize
    requires lags { lag ≤ LAG }
    requires tracks { most ≤ TRACKS }
    ensures words { result.words ≡ (lag + 1) * words_for most }
    ensures numbers { result.numbers ≡ (lag + 1) * numbers_for most }
{
    let slot = slot_size(most);
    WindowSize {
        words: (lag + 1) * slot.words,
        numbers: (lag + 1) * slot.numbers,
    }
}
