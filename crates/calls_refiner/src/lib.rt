// The calls of a refiner. What a call prints is put at the start of out, and a call gives where that ends.
//
// As it is: words, numbers and out go to each function side by side. Of a struct of `&mut` slices it is not known what
// is written through them, so with one the proofs do not close; fgo_emit's `put_frame` says the same.
#![tactic(auto)]

ghost use Rattle.std.specs.Prelude.{◌≡◌, true, ◌≤◌, length};
ghost use Rattle.bounds.specs.Bounds.{SETTINGS, TEXT};
ghost use Rattle.buffers.specs.Answer.{answer_in, left_by, pushed, taken};
ghost use Rattle.engine.specs.declared.types.BodyKind.TheVariants.{Narrow};
ghost use Rattle.engine.specs.Body.{body as body_in};
ghost use Rattle.recording.specs.Recording.{settings};
ghost use Rattle.fgo_state.specs.Memory.{no_memory};
ghost use Rattle.fgo.specs.Promise.{new_by, open_refusal, count_refusal};
ghost use Rattle.print.specs.Text.{Ready, call_answer};
ghost use Rattle.calls_input.specs.declared.Call.TheVariants as calls;
ghost use Rattle.calls_input.specs.Input.{refiner_has, Sane};
ghost use Rattle.calls_cells.specs.Opening.{opening_text};
ghost use Rattle.calls_refiner.specs.Refining.{Keeps, counting_text, refiner_with, memory_with, Answers, Refines};

use bounds::TEXT;
use buffers::{clear, put};
use calls_cells::cells::Fields;
use calls_cells::lent::LastFrame;
use calls_input::RefinerCall;
use calls_input::cells::{Cell, RefinerPlace};
use engine::body::Body;
use engine::types::BodyKind;
use fgo_state::state::{FixedLagRefiner, Memory};
use print::answer_ref::AnswerRef;
use print::{answers, lines};
use scalar::bits;

// The refiner as one caller has it: its fields, the memory that the caller lends it at every call, and the frame that
// it gave last.
#[derive(Drop)]
pub struct LentRefiner {
    pub state: FixedLagRefiner,
    pub memory: Memory,
    pub last: LastFrame,
}

// ---- opening

// A refiner is opened with these settings; a refusal leaves the one there was, and its memory.
fn open(r: &mut FixedLagRefiner, memory: &mut Memory, s: &[u8], out: &mut [u8; TEXT]) -> usize
    requires { length s.now ≡ SETTINGS }
    ensures refiner { r.new ≡ left_by (open_refusal (settings s.now)) (new_by (settings s.now)) r.old }
    ensures memory { memory.new ≡ left_by (open_refusal (settings s.now)) no_memory memory.old }
    ensures text { Ready (opening_text (open_refusal (settings s.now))) out.new result }
{
    match fgo::open(recording::settings_of(s), memory) {
        Err(refusal) => lines::put_refused(out, 0, refusal),
        Ok(refiner) => {
            *r = refiner;
            lines::put_opened(out)
        }
    }
}

// ---- push and take

// A frame that is given is kept. What the one before took is cleared first.
fn keep_frame(last: &mut LastFrame, shown: &AnswerRef<'_>)
    ensures { Keeps (answer_in shown.now.answer) shown.now.words.now shown.now.numbers.now last.old last.new }
{
    if let Ok(Some(frame)) = shown.answer {
        let before = last.size;
        clear(&mut last.words, 0, before.words, 0);
        put(&mut last.words, 0, &shown.words[..frame.words]);
        clear(&mut last.numbers, 0, before.numbers, 0.0);
        put(&mut last.numbers, 0, &shown.numbers[..frame.numbers]);
        last.size = frame;
    }
}

// After a push or a take: its frame is kept, and its answer printed.
#[tactic(auto, using(print::proofs::Fitting::ready, print::proofs::Fitting::call_answer_few))]
fn tell(shown: &AnswerRef<'_>, last: &mut LastFrame, out: &mut [u8; TEXT]) -> usize
    ensures frame { Keeps (answer_in shown.now.answer) shown.now.words.now shown.now.numbers.now last.old last.new }
    ensures text { Ready (call_answer (answer_in shown.now.answer) shown.now.words.now shown.now.numbers.now) out.new result }
{
    keep_frame(last, shown);
    answers::put_call(out, shown)
}

// A body is pushed.
fn push(
    refiner: &mut LentRefiner,
    s: &[u8],
    words: &mut [u64],
    numbers: &mut [f64],
    out: &mut [u8; TEXT],
) -> usize
    ensures { Answers refiner.old words.old numbers.old refiner.new words.new numbers.new result out.new (pushed (body_in Narrow s.now)) }
{
    let body = Body {
        kind: BodyKind::Narrow,
        bytes: s,
    };
    let answer = fgo::push(
        &mut refiner.state,
        &body,
        &mut refiner.memory,
        words,
        numbers,
    );
    let shown = AnswerRef {
        answer,
        words,
        numbers,
    };
    tell(&shown, &mut refiner.last, out)
}

// The oldest frame is taken.
fn take(
    refiner: &mut LentRefiner,
    words: &mut [u64],
    numbers: &mut [f64],
    out: &mut [u8; TEXT],
) -> usize
    ensures { Answers refiner.old words.old numbers.old refiner.new words.new numbers.new result out.new taken }
{
    let answer = fgo::take(&mut refiner.state, &mut refiner.memory, words, numbers);
    let shown = AnswerRef {
        answer,
        words,
        numbers,
    };
    tell(&shown, &mut refiner.last, out)
}

// ---- the other calls

// The moves made so far.
fn count(r: &FixedLagRefiner, memory: &Memory, out: &mut [u8; TEXT]) -> usize
    ensures { Ready (counting_text (count_refusal r.now memory.now) r.now.counters) out.new result }
{
    let k = fgo::counters(r, &memory.scans, &memory.owners, &memory.parts.tracks);
    lines::put_counted(out, 0, k)
}

// A cell, written.
fn write(r: &mut FixedLagRefiner, cell: Cell<RefinerPlace>, memory: &mut Memory)
    requires { refiner_has cell ≡ true }
    ensures refiner { r.new ≡ refiner_with cell r.old }
    ensures memory { memory.new ≡ memory_with cell memory.old }
{
    let i = cell.index;
    let v = cell.value;
    match cell.place {
        RefinerPlace::Fields => r.write_field(i, v),
        RefinerPlace::Bodies => memory.scans.bodies[i] = v as u8,
        RefinerPlace::Columns => memory.scans.columns[i] = v,
        RefinerPlace::Owners => memory.owners[i] = v,
        RefinerPlace::Parts => memory.parts.tracks[i] = v,
        RefinerPlace::Filters => memory.parts.filters[i] = bits::from_bits(v),
    }
}

// A call, with what follows it.
// As it is: that `out` has at least TEXT bytes is a clause. A caller may lend a longer buffer; a type of exactly TEXT
// bytes would ask more of it.
pub fn call(
    refiner: &mut LentRefiner,
    call: RefinerCall,
    s: &[u8],
    words: &mut [u64],
    numbers: &mut [f64],
    out: &mut [u8],
) -> usize
    requires { Sane (calls.Refiner call) s.now × (TEXT ≤ length out.old) }
    ensures { Refines refiner.old words.old numbers.old refiner.new words.new numbers.new result out.new call s.now }
{
    let text = out.first_chunk_mut().unwrap();
    match call {
        RefinerCall::Open => open(&mut refiner.state, &mut refiner.memory, s, text),
        RefinerCall::Push => push(refiner, s, words, numbers, text),
        RefinerCall::Take => take(refiner, words, numbers, text),
        RefinerCall::Counters => count(&refiner.state, &refiner.memory, text),
        RefinerCall::Write(cell) => {
            write(&mut refiner.state, cell, &mut refiner.memory);
            0
        }
    }
}
