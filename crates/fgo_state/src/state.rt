// What a refiner keeps by value, and the memory that is lent to it.
ghost use Rattle.std.specs.Prelude.{◌≡◌, ◌+◌, ◌≤◌};
ghost use Rattle.bounds.specs.Bounds.{ACCEPTED, FROZEN};
ghost use Rattle.fgo_part.specs.Parts.{Rises};
ghost use Rattle.fgo_state.specs.Memory.{no_memory};
ghost use Rattle.fgo_state.specs.Live.{live_among};

use crate::held::HeldRef;
use crate::scans::Scans;
use bounds::{BODIES, COLUMNS, FILTERS, OWNERS, PARTS};
use engine::config::FgoConfig;
use engine::types::{RefinedId, ScanIndex};
use fgo_part::{FrozenParts, FrozenTracks};
use fgo_spec::moves::FgoCounters;

// A refiner: its settings, how much of the lent memory is in use, and what it counts.
#[derive(Clone, Copy)]
pub struct FixedLagRefiner {
    pub config: FgoConfig,
    // The number of the oldest scan held.
    pub first: ScanIndex,
    // How many scans are held.
    pub held: usize,
    // How many tracks have a frozen part.
    pub frozen: usize,
    // How many engine ids have an owner.
    pub owned: usize,
    // The id of the next track that starts.
    pub next_id: RefinedId,
    // How many moves the searches have made.
    pub counters: FgoCounters,
}

impl FixedLagRefiner {
    // The scans held, as they are lent.
    // As it is, here, in `live_in` and in fgo_refuse's `is_full`: the bound is asked for and is no fact of the type,
    // since a caller may hold any refiner, sound or not: the program calls writes its fields. What reads the scans held
    // has it as the fact `early` of `HeldRef`.
    pub fn held_in<'a>(&self, scans: &'a Scans) -> HeldRef<'a>
        requires { self.now.first.0 + self.now.held ≤ ACCEPTED + 1 }
        ensures { (result.scans.now ≡ scans.now) × (result.first ≡ self.now.first) × (result.count ≡ self.now.held) }
    {
        HeldRef {
            scans,
            first: self.first,
            count: self.held,
        }
    }

    // What says which tracks are live, as it is lent: the scans held, and the words of the frozen parts. It asks that
    // the ids of these rise.
    pub fn live_in<'a>(&self, scans: &'a Scans, tracks: &'a [u64; PARTS]) -> LiveTracks<'a>
        requires { (self.now.first.0 + self.now.held ≤ ACCEPTED + 1) × (self.now.frozen ≤ FROZEN) × Rises tracks.now self.now.frozen }
        ensures held { (result.held.scans.now ≡ scans.now) × (result.held.first ≡ self.now.first) × (result.held.count ≡ self.now.held) }
        ensures frozen { (result.frozen.tracks.now ≡ tracks.now) × (result.frozen.count ≡ self.now.frozen) }
    {
        LiveTracks {
            held: self.held_in(scans),
            frozen: FrozenTracks {
                tracks,
                count: self.frozen,
            },
        }
    }
}

// The memory that the caller owns and lends: the held scans, the owners of engine ids, and the frozen parts.
#[derive(Drop)]
pub struct Memory {
    pub scans: Scans,
    pub owners: [u64; OWNERS],
    pub parts: FrozenParts,
}

impl Memory {
    // Memory that was never used.
    pub fn new() -> Memory
        ensures { result ≡ no_memory }
    {
        Memory {
            scans: Scans::new(),
            owners: [0; OWNERS],
            parts: FrozenParts::new(),
        }
    }

    // All of it cleared.
    // As it is: the arrays of the frozen parts here, and not by their own `clear`: where they are lent as a struct, no
    // fact says how long they are.
    pub fn clear(&mut self)
        ensures { self.new ≡ no_memory }
    {
        buffers::clear(&mut self.scans.bodies, 0, BODIES, 0);
        buffers::clear(&mut self.scans.columns, 0, COLUMNS, 0);
        buffers::clear(&mut self.owners, 0, OWNERS, 0);
        buffers::clear(&mut self.parts.tracks, 0, PARTS, 0);
        buffers::clear(&mut self.parts.filters, 0, FILTERS, 0.0);
    }
}

// What says which tracks are live: the scans held, and the words of the frozen parts.
#[derive(Clone, Copy)]
pub struct LiveTracks<'a> {
    pub held: HeldRef<'a>,
    pub frozen: FrozenTracks<'a>,
}

impl LiveTracks<'_> {
    // Whether a track is live: it has a frozen part or a window.
    #[tactic(auto, unfolding(crate::specs::Memory::live_in))]
    pub fn has(&self, id: RefinedId) -> bool
        ensures { result ≡ live_among self.now id.0 }
    {
        self.frozen.has(id) || (0 < id.0 && self.held.windows_in(id))
    }
}
