// A smoother, the window that is lent to it, and where a frame of the input is read for it.
ghost use Rattle.std.specs.Prelude.{◌≡◌, ◌≤◌, replicate, from_bits};
ghost use Rattle.std.specs.Float.{binary64};
ghost use Rattle.bounds.specs.Bounds.{WINDOW, VALUES, LENT_WORDS, LENT_NUMBERS};
ghost use Rattle.calls_smoother.specs.declared.window.Room.TheVariants.{Asked, Said};
ghost use Rattle.calls_smoother.specs.Room.{Fits, size_of};

use bounds::{LENT_NUMBERS, LENT_WORDS, VALUES, WINDOW};
use smoother_window::FixedLagSmoother;
use smoother_window::size::WindowSize;

// How many words and numbers of a window are lent: as many as an opening asks for, or as a call has said.
#[derive(Clone, Copy)]
pub enum Room {
    Asked(WindowSize),
    Said(WindowSize),
}

impl Room {
    // How many words and numbers.
    pub fn size(self) -> WindowSize
        ensures { result ≡ size_of self }
    {
        match self {
            Room::Asked(size) | Room::Said(size) => size,
        }
    }
}

// The longest window, and how much of it is lent.
// As it is: not one struct with playback's `Smoother`. This one keeps also whether a call has said the size, and that
// one also where pushes and takes have led, so a struct for both would be no plainer.
#[derive(Drop)]
pub struct LentWindow {
    pub room: Room,
    pub words: [u64; WINDOW],
    pub values: [f64; VALUES],
    pub ghost fits: { Fits room },
}

// Where a frame of the input stands while it is pushed. What stood there before is of no account.
// As it is: kept from call to call, since it is long: made anew for each push it was the most of what a push took.
#[derive(Drop)]
pub struct InputFrame {
    pub words: [u64; LENT_WORDS],
    pub numbers: [f64; LENT_NUMBERS],
}

// The smoother as one caller has it: its fields, the window that the caller lends it at every call, and where a frame
// of the input is read.
#[derive(Drop)]
pub struct LentSmoother {
    pub state: FixedLagSmoother,
    pub window: LentWindow,
    pub input: InputFrame,
}

impl InputFrame {
    // All zero.
    pub fn new() -> InputFrame
        ensures words { result.words ≡ replicate LENT_WORDS 0 }
        ensures numbers { result.numbers ≡ replicate LENT_NUMBERS (from_bits binary64 0) }
    {
        InputFrame {
            words: [0; LENT_WORDS],
            numbers: [0.0; LENT_NUMBERS],
        }
    }
}

impl LentWindow {
    // All zero, and none of it lent.
    pub fn new() -> LentWindow
        ensures room { result.room ≡ Asked (record { words = 0; numbers = 0 }) }
        ensures words { result.words ≡ replicate WINDOW 0 }
        ensures values { result.values ≡ replicate VALUES (from_bits binary64 0) }
    {
        LentWindow {
            room: Room::Asked(WindowSize {
                words: 0,
                numbers: 0,
            }),
            words: [0; WINDOW],
            values: [0.0; VALUES],
        }
    }

    // From now on this size is lent, whatever an opening asks for.
    pub fn lend(&mut self, size: WindowSize)
        requires { (size.words ≤ WINDOW) × (size.numbers ≤ VALUES) }
        ensures room { self.new.room ≡ Said size }
        ensures words { self.new.words ≡ self.old.words }
        ensures values { self.new.values ≡ self.old.values }
    {
        self.room = Room::Said(size);
    }
}
