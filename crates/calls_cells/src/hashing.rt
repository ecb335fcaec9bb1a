// The hashes of what a caller keeps: fields first, then the arrays.
ghost use Rattle.std.specs.Prelude.{◌≡◌};
ghost use Rattle.fgo_state.specs.Memory.{memory};
ghost use Rattle.smoother.specs.Promise as Smoothing;
ghost use Rattle.digest.specs.Digest.{BASIS};
ghost use Rattle.calls_cells.specs.Hashing.{refiner_hash, smoother_hash, buffers_hash};

use crate::cells::Fields;
use fgo_state::state::FixedLagRefiner;
use smoother_window::FixedLagSmoother;

// Two buffers, after a hash.
#[tactic(auto, using(crate::proofs::Chain::chain))]
fn hash_buffers(h: u64, words: &[u64], numbers: &[f64]) -> u64
    ensures { result ≡ buffers_hash h words.now numbers.now }
{
    digest::hash_numbers(digest::hash_words(h, words), numbers)
}

// The output buffers.
pub fn hash_output(words: &[u64], numbers: &[f64]) -> u64
    ensures { result ≡ buffers_hash BASIS words.now numbers.now }
{
    hash_buffers(digest::begin(), words, numbers)
}

// A refiner with its memory.
// As it is: five lists of any length. A `Memory`, whose arrays are of one length each, would ask more of callers.
#[tactic(auto, using(crate::proofs::Chain::chain), unfolding(crate::specs::Hashing::refiner_hash))]
pub fn hash_refiner(
    r: FixedLagRefiner,
    bodies: &[u8],
    columns: &[u64],
    owners: &[u64],
    tracks: &[u64],
    filters: &[f64],
) -> u64
    ensures { result ≡ refiner_hash r (memory bodies.now columns.now owners.now tracks.now filters.now) }
{
    let fields = r.fields();
    let a = digest::hash_words(digest::begin(), &fields);
    let b = digest::hash_bytes(a, bodies);
    let c = digest::hash_words(b, columns);
    let d = digest::hash_words(c, owners);
    hash_buffers(d, tracks, filters)
}

// A smoother with its window.
#[tactic(auto, using(crate::proofs::Chain::chain), unfolding(crate::specs::Hashing::smoother_hash))]
pub fn hash_smoother(s: FixedLagSmoother, window: &[u64], values: &[f64]) -> u64
    ensures { result ≡ smoother_hash s (Smoothing.window window.now values.now) }
{
    let fields = s.fields();
    hash_buffers(digest::hash_words(digest::begin(), &fields), window, values)
}
