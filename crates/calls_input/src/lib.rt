// The list of calls on standard input: each has a code and the length of what follows it, four bytes each, then that
// many bytes; all numbers are little-endian. A call that is not as README's table has it is a bad one.
#![tactic(auto)]

pub mod cells;

ghost use Rattle.std.specs.Prelude.{◌≡◌, ◌+◌, ◌*◌, ◌≤◌, length};
ghost use Rattle.bounds.specs.Bounds.{SETTING};
ghost use Rattle.calls_input.specs.Input.{number, lengths, frame_size, window_size, cell, sized, pushing, call_in, bad_at, next_at};

use bounds::{CALL, LENT_NUMBERS, LENT_WORDS, SETTING, SETTINGS, VALUES, WINDOW};
use buffers::FrameSize;
use cells::{Cell, Place, RefinerPlace, SmootherPlace};
use engine::little;
use smoother_window::size::WindowSize;

// A call of the refiner.
#[derive(Clone, Copy)]
pub enum RefinerCall {
    Open,
    Push,
    Take,
    Counters,
    Write(Cell<RefinerPlace>),
}

// A call of the smoother: it is pushed the frame that the refiner gave last, or one of this size.
#[derive(Clone, Copy)]
pub enum SmootherCall {
    Open,
    PushLast,
    Push(FrameSize),
    Take,
    Write(Cell<SmootherPlace>),
}

// A call: of refiner or smoother; or from now on so much of the output buffers, or of the window, is lent.
#[derive(Clone, Copy)]
pub enum Call {
    Refiner(RefinerCall),
    Smoother(SmootherCall),
    Lend(FrameSize),
    LendWindow(WindowSize),
    Digest,
}

// A call, none where it is a bad one, and where what follows it begins and ends.
// As it is: a call that may be none, with its places, and no Option of all three: by its definition, `next_at`, a bad
// call ends the list and nothing follows it, so it too has an end, which is the list's.
#[derive(Clone, Copy)]
pub struct Next {
    pub call: Option<Call>,
    pub from: usize,
    pub end: usize,
}

// ---- what follows a call

// Number i of it, of eight bytes.
fn number_at(s: &[u8], i: usize) -> u64
    requires { SETTING * (i + 1) ≤ length s.now }
    ensures { result ≡ number s.now i }
{
    little::u64_at(s, SETTING * i)
}

// The two lengths that it begins with, of words and of numbers: none where they are not there, or longer than these.
fn lengths(s: &[u8], words: usize, numbers: usize) -> Option<(usize, usize)>
    ensures { result ≡ lengths s.now words numbers }
{
    if s.len() < SETTING * 2 {
        return None;
    }
    let w = number_at(s, 0);
    let x = number_at(s, 1);
    (w <= words as u64 && x <= numbers as u64).then_some((w as usize, x as usize))
}

// The two lengths of output buffers, or of a frame.
fn frame_size(s: &[u8]) -> Option<FrameSize>
    ensures { result ≡ frame_size s.now }
{
    let (words, numbers) = lengths(s, LENT_WORDS, LENT_NUMBERS)?;
    Some(FrameSize { words, numbers })
}

// Those of a window.
fn window_size(s: &[u8]) -> Option<WindowSize>
    ensures { result ≡ window_size s.now }
{
    let (words, numbers) = lengths(s, WINDOW, VALUES)?;
    Some(WindowSize { words, numbers })
}

// The cell that it writes, and nothing else: none where the caller has no such cell.
fn cell<P: Place>(s: &[u8]) -> Option<Cell<P>>
    ensures { result ≡ cell s.now P.place P.has }
{
    if s.len() != SETTING * 3 {
        return None;
    }
    let cell = Cell {
        place: P::try_from(number_at(s, 0)).ok()?,
        index: number_at(s, 1) as usize,
        value: number_at(s, 2),
    };
    P::has(cell).then_some(cell)
}

// ---- calls by what follows them

// A call after which just so many bytes follow.
fn sized_call(s: &[u8], n: usize, call: Call) -> Option<Call>
    ensures { result ≡ sized s.now n call }
{
    (s.len() == n).then_some(call)
}

// A frame is pushed to the smoother.
#[tactic(auto, unfolding(crate::specs::Input::pushing))]
fn push_frame(s: &[u8]) -> Option<Call>
    ensures { result ≡ pushing s.now }
{
    let size = frame_size(s)?;
    let call = Call::Smoother(SmootherCall::Push(size));
    sized_call(s, SETTING * (2 + size.words + size.numbers), call)
}

// The call of a code: none where it is a bad one.
// As it is: numbers, which are the codes of README's list.
#[tactic(auto, unfolding(crate::specs::Input::call_in))]
fn called(code: u64, s: &[u8]) -> Option<Call>
    ensures { result ≡ call_in code s.now }
{
    match code {
        1 => sized_call(s, SETTINGS, Call::Refiner(RefinerCall::Open)),
        2 => Some(Call::Refiner(RefinerCall::Push)),
        4 => sized_call(s, 0, Call::Refiner(RefinerCall::Take)),
        5 => sized_call(s, 0, Call::Refiner(RefinerCall::Counters)),
        6 => sized_call(s, SETTING * 2, Call::Lend(frame_size(s)?)),
        7 => Some(Call::Refiner(RefinerCall::Write(cell(s)?))),
        9 => sized_call(s, 0, Call::Digest),
        11 => sized_call(s, SETTING * 3, Call::Smoother(SmootherCall::Open)),
        12 => sized_call(s, 0, Call::Smoother(SmootherCall::PushLast)),
        13 => push_frame(s),
        14 => sized_call(s, 0, Call::Smoother(SmootherCall::Take)),
        16 => sized_call(s, SETTING * 2, Call::LendWindow(window_size(s)?)),
        17 => Some(Call::Smoother(SmootherCall::Write(cell(s)?))),
        _ => None,
    }
}

// A bad call: nothing follows it.
fn bad_at(s: &[u8]) -> Next
    ensures { result ≡ bad_at s.now }
{
    let end = s.len();
    Next {
        call: None,
        from: end,
        end,
    }
}

// The call at a place of the list.
pub fn next_at(s: &[u8], at: usize) -> Next
    requires { at ≤ length s.now }
    ensures { result ≡ next_at s.now at }
{
    if s.len() - at < CALL {
        return bad_at(s);
    }
    let code = little::u32_at(s, at);
    let size = little::u32_at(s, at + 4) as usize;
    let from = at + CALL;
    if s.len() - from < size {
        return bad_at(s);
    }
    let end = from + size;
    let call = called(code, &s[from..end]);
    Next { call, from, end }
}
