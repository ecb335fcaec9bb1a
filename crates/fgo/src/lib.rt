// The refiner: open, push, take and counters.
//
// As it is: words and numbers go to each function side by side. Of a struct of `&mut` slices it is not known what is
// written through them, so with one the proofs do not close; fgo_emit's `put_frame` says the same.
#![tactic(auto)]

ghost use Rattle.std.specs.Prelude.{◌≡◌, ◌≤◌, List, Float, IfOk};
ghost use Rattle.buffers.specs.Answer.{answer_in, opening_of, opened_by, left_by, pushed, taken};
ghost use Rattle.refusals.specs.Refusals.{refused};
ghost use Rattle.engine.specs.Body.{body_of};
ghost use Rattle.fgo_spec.specs.Refiner.{takes};
ghost use Rattle.fgo_state.specs.Memory.{memory, no_memory, state_of};
ghost use Rattle.fgo_state.specs.Gathered.{GatheredOf};
ghost use Rattle.fgo_emit.specs.Writing.{Roomy};
ghost use Rattle.fgo_arrive.specs.Arriving.{Ready};
ghost use Rattle.fgo.specs.Promise.{new_by, open_refusal, later_refusal, Carried, Promised, counted_in, counted_by, count_refusal};

use bounds::{DETECTIONS, OWNERS, PARTS};
use buffers::Answer;
use engine::body::Body;
use engine::config::FgoConfig;
use engine::types::{RefinedId, ScanIndex};
use fgo_place::own;
use fgo_spec::moves::FgoCounters;
use fgo_state::gather::Gathered;
use fgo_state::scans::Scans;
use fgo_state::state::{FixedLagRefiner, Memory};
use refusals::Refusal;

// ---- opening

fn new(config: FgoConfig) -> FixedLagRefiner
    ensures { result ≡ new_by config }
{
    FixedLagRefiner {
        config,
        first: ScanIndex(0),
        held: 0,
        frozen: 0,
        owned: 0,
        next_id: RefinedId(1),
        counters: FgoCounters {
            swaps: 0,
            merges: 0,
            splits: 0,
            drops: 0,
        },
    }
}

// A new refiner, over memory that it clears; or `Setting`, after which the memory is as it was.
pub fn open(config: FgoConfig, memory: &mut Memory) -> Result<FixedLagRefiner, Refusal>
    ensures opened { opening_of result ≡ opened_by (open_refusal config) (new_by config) }
    ensures memory { memory.new ≡ left_by (open_refusal config) no_memory memory.old }
{
    if config.is_legal() {
        memory.clear();
        Ok(new(config))
    } else {
        Err(Refusal::Setting)
    }
}

// ---- the oldest scan leaves

// The oldest scan leaves: its detections are frozen, its frame is written, what nothing asks for any more is forgotten,
// and its slot is cleared.
fn freeze_oldest(
    r: &mut FixedLagRefiner,
    memory: &mut Memory,
    words: &mut [u64],
    numbers: &mut [f64],
) -> Answer
    requires { Ready r.old memory.old × Roomy words.old numbers.old × (1 ≤ r.old.held) }
    ensures { Carried taken (takes r.old.config (state_of r.old memory.old)) r.old memory.old words.old numbers.old
        (answer_in result) r.new memory.new words.new numbers.new }
{
    let n = r.first;
    let scans = &memory.scans;
    scans.typed();
    let many = fgo_freeze::freeze_scan(r.config, scans, n, &mut memory.parts, r.frozen);
    let size = fgo_emit::put_frame(r.config, scans, n, &memory.parts, many, words, numbers);
    let time = scans.body(n).time();
    r.first = n.later(1);
    r.held -= 1;
    let held = r.held_in(scans);
    r.frozen = fgo_freeze::forget(r.config, time, &held, &mut memory.parts, many);
    let live = r.live_in(scans, &memory.parts.tracks);
    r.owned = own::keep_owners(&live, r.owned, &mut memory.owners);
    memory.scans.clear(n);
    Ok(Some(size))
}

// ---- the entry points

// What push and take ask alike: `State`, `Output` or what the held scans have in windows. The engine ids go where the
// caller has room for them.
fn check_call(
    r: &FixedLagRefiner,
    memory: &Memory,
    words: usize,
    numbers: usize,
    engines: &mut [u64; DETECTIONS],
) -> Result<Gathered, Refusal>
    ensures refusal { refused result ≡ later_refusal r.now memory.now words numbers }
    ensures gathered { IfOk result (λ g. GatheredOf memory.now.scans r.now.first.0 r.now.held engines.old g engines.new) }
{
    let tracks = &memory.parts.tracks;
    let Some(gathered) = fgo_rule::gather_sound(r, &memory.scans, &memory.owners, tracks, engines)
    else {
        return Err(Refusal::State);
    };
    if !buffers::is_roomy(words, numbers) {
        return Err(Refusal::Output);
    }
    Ok(gathered)
}

// The oldest frame held, whatever the lag: `State`, `Output`, `Empty` or the frame.
pub fn take(
    r: &mut FixedLagRefiner,
    memory: &mut Memory,
    words: &mut [u64],
    numbers: &mut [f64],
) -> Answer
    ensures { Promised taken r.old memory.old words.old numbers.old (answer_in result) r.new memory.new words.new numbers.new }
{
    let mut engines = [0; DETECTIONS];
    check_call(r, memory, words.len(), numbers.len(), &mut engines)?;
    if r.held == 0 {
        return Err(Refusal::Empty);
    }
    freeze_oldest(r, memory, words, numbers)
}

// A frame, by its body: `State`, `Output`, `Frame`, `Coordinate`, `Index`, `Count`, `Detections` or `Owners`; or held;
// or the oldest frame, where more than the lag are held.
pub fn push(
    r: &mut FixedLagRefiner,
    b: &Body<'_>,
    memory: &mut Memory,
    words: &mut [u64],
    numbers: &mut [f64],
) -> Answer
    ensures { Promised (pushed (body_of b.now)) r.old memory.old words.old numbers.old
        (answer_in result) r.new memory.new words.new numbers.new }
{
    let mut engines = [0; DETECTIONS];
    let mut gathered = check_call(r, memory, words.len(), numbers.len(), &mut engines)?;
    fgo_refuse::check_push(r, gathered.count, &memory.owners, b)?;
    fgo_arrive::arrive(r, b, memory, &mut gathered, &mut engines);
    if r.config.lag_frames < r.held {
        return freeze_oldest(r, memory, words, numbers);
    }
    Ok(None)
}

// The moves made so far, or `State`, whatever the filters of the frozen parts are.
// As it is, here and in fgo_rule's `is_sound`: three parts of a `Memory` and no `Memory`, since the filters of the
// frozen parts are not asked for: by the rule that a public function asks no more of its callers than it did, a caller
// need not have them.
pub fn counters(
    r: &FixedLagRefiner,
    scans: &Scans,
    owners: &[u64; OWNERS],
    tracks: &[u64; PARTS],
) -> Result<FgoCounters, Refusal>
    ensures { (filters : List Float) → counted_in result
        ≡ counted_by (count_refusal r.now (memory scans.now.bodies scans.now.columns owners.now tracks.now filters)) r.now.counters }
{
    if fgo_rule::is_sound(r, scans, owners, tracks) {
        Ok(r.counters)
    } else {
        Err(Refusal::State)
    }
}
