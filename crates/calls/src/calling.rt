// All that a caller keeps, and the calls one by one.
//
// As it is: words, numbers and out go to each function side by side. Of a struct of `&mut` slices it is not known what
// is written through them, so with one the proofs do not close; fgo_emit's `put_frame` says the same.
ghost use Rattle.std.specs.Prelude.{◌≡◌, ◌≤◌, length, IfSome};
ghost use Rattle.bounds.specs.Bounds.{TEXT};
ghost use Rattle.print.specs.Text.{Ready};
ghost use Rattle.calls_input.specs.declared.Call.TheVariants as calls;
ghost use Rattle.calls_input.specs.Input.{Sane};
ghost use Rattle.calls_cells.specs.Lent.{last_frame, Lends, Lent};
ghost use Rattle.calls_refiner.specs.Refining.{Refines};
ghost use Rattle.calls_smoother.specs.Smoothing.{Smooths};
ghost use Rattle.calls.specs.Calling.{First, Does, digest_text};

use bounds::{REFINER, SMOOTHER, TEXT};
use buffers::FrameSize;
use calls_cells::cells::Fields;
use calls_cells::hashing;
use calls_cells::lent::{LastFrame, Output};
use calls_input::{Call, RefinerCall, SmootherCall};
use calls_refiner::LentRefiner;
use calls_smoother::window::{InputFrame, LentSmoother, LentWindow};
use fgo_state::state::{FixedLagRefiner, Memory};
use print::lines;
use smoother_window::FixedLagSmoother;

// Refiner and smoother, which is pushed the refiner's frames.
#[derive(Drop)]
pub struct Stages {
    pub refiner: LentRefiner,
    pub smoother: LentSmoother,
}

// All that the program keeps from one call to the next: refiner and smoother, each with the memory that is lent to it,
// and the output buffers, which are lent to both.
#[derive(Drop)]
pub struct Desk {
    pub stages: Stages,
    pub output: Output,
}

impl Desk {
    // Before the first call all is zero, no window is lent, and output buffers as long as a frame may be.
    pub fn new() -> Desk
        ensures { First result }
    {
        let refiner = LentRefiner {
            state: FixedLagRefiner::of(&[0; REFINER]),
            memory: Memory::new(),
            last: LastFrame::new(),
        };
        let smoother = LentSmoother {
            state: FixedLagSmoother::of(&[0; SMOOTHER]),
            window: LentWindow::new(),
            input: InputFrame::new(),
        };
        Desk {
            stages: Stages { refiner, smoother },
            output: Output::new(),
        }
    }
}

// A call of the refiner, to which so much of the output buffers is lent.
// As it is: a function of its own cuts the buffers. Cut where the call stands, the proof did not close: of a field it
// is known what a call leaves there where it is lent whole, and not where a part of it is lent beside a part of
// another.
fn call_refiner(
    refiner: &mut LentRefiner,
    call: RefinerCall,
    s: &[u8],
    lent: FrameSize,
    words: &mut [u64],
    numbers: &mut [f64],
    out: &mut [u8; TEXT],
) -> usize
    requires lends { Lends lent words.old numbers.old }
    requires sane { Sane (calls.Refiner call) s.now }
    ensures { Lent (λ ws ns ws' ns'. Refines refiner.old ws ns refiner.new ws' ns' result out.new call s.now)
        lent words.old numbers.old words.new numbers.new }
{
    calls_refiner::call(
        refiner,
        call,
        s,
        &mut words[..lent.words],
        &mut numbers[..lent.numbers],
        out,
    )
}

// A call of the smoother, to which so much of the output buffers is lent. It cuts them for the same reason.
fn call_smoother(
    stages: &mut Stages,
    call: SmootherCall,
    s: &[u8],
    lent: FrameSize,
    words: &mut [u64],
    numbers: &mut [f64],
    out: &mut [u8; TEXT],
) -> usize
    requires lends { Lends lent words.old numbers.old }
    requires sane { Sane (calls.Smoother call) s.now }
    ensures refiner { stages.new.refiner ≡ stages.old.refiner }
    ensures smooths { Lent (λ ws ns ws' ns'. Smooths stages.old.smoother ws ns stages.new.smoother ws' ns' result out.new
        call s.now (last_frame stages.old.refiner.last)) lent words.old numbers.old words.new numbers.new }
{
    calls_smoother::call(
        &mut stages.smoother,
        call,
        s,
        &stages.refiner.last,
        &mut words[..lent.words],
        &mut numbers[..lent.numbers],
        out,
    )
}

// The digest.
fn tell_digest(d: &Desk, out: &mut [u8; TEXT]) -> usize
    ensures { Ready (digest_text d.now) out.new result }
{
    let refiner = &d.stages.refiner;
    let smoother = &d.stages.smoother;
    let m = &refiner.memory;
    let a = hashing::hash_refiner(
        refiner.state,
        &m.scans.bodies,
        &m.scans.columns,
        &m.owners,
        &m.parts.tracks,
        &m.parts.filters,
    );
    let b = hashing::hash_smoother(
        smoother.state,
        &smoother.window.words,
        &smoother.window.values,
    );
    let c = hashing::hash_output(&d.output.words, &d.output.numbers);
    lines::put_digest(out, a, b, c)
}

// A call, none for a bad one, with what follows it: what it prints is put at the start of out, and it gives where that
// ends.
// As it is: that `out` has at least TEXT bytes is a clause. A caller may lend a longer buffer; a type of exactly TEXT
// bytes would ask more of it.
pub fn call(d: &mut Desk, call: Option<Call>, s: &[u8], out: &mut [u8]) -> usize
    requires { IfSome call (λ c. Sane c s.now) × (TEXT ≤ length out.old) }
    ensures { Does d.old d.new result out.new call s.now }
{
    let text = out.first_chunk_mut().unwrap();
    let lent = d.output.size;
    match call {
        Some(Call::Refiner(c)) => call_refiner(
            &mut d.stages.refiner,
            c,
            s,
            lent,
            &mut d.output.words,
            &mut d.output.numbers,
            text,
        ),
        Some(Call::Smoother(c)) => call_smoother(
            &mut d.stages,
            c,
            s,
            lent,
            &mut d.output.words,
            &mut d.output.numbers,
            text,
        ),
        Some(Call::Lend(size)) => {
            d.output.lend(size);
            0
        }
        Some(Call::LendWindow(size)) => {
            d.stages.smoother.window.lend(size);
            0
        }
        Some(Call::Digest) => tell_digest(d, text),
        None => lines::put_bad(text),
    }
}
