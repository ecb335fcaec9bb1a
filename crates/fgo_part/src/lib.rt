// The frozen parts of tracks in lent memory: of each PART words and FILTER numbers.
//
// The words are its id, last frame, last time, count, class and number of heights; the numbers are those of its filter,
// then its last heights, oldest first.
#![tactic(auto)]

ghost use Rattle.std.specs.Prelude.{◌≡◌, ◌-◌, ◌*◌, [], ◌∷◌, ◌++◌, ◌<◌, ◌≤◌};
ghost use Rattle.std.specs.Float.{binary64};
ghost use Rattle.std.specs.Float.Ieee.{of_bits};
ghost use Rattle.bounds.specs.Bounds.{FROZEN, HEIGHTS, PART, FILTER};
ghost use Rattle.buffers.specs.Buffers.{cleared};
ghost use Rattle.fgo_spec.specs.Lists.{has, place_in};
ghost use Rattle.fgo_spec.specs.Freezing.{recent, mean};
ghost use Rattle.fgo_spec.specs.Emitting.{class_word};
ghost use Rattle.fgo_part.specs.Parts.{class_in, part_id, part_last_frame, part_last_ns, part_count, part_class, part_height_count};
ghost use Rattle.fgo_part.specs.Parts.{part_ids, Rises, IsPartOf, part_kf, heights_of, prefix_in, prefix_of, no_parts, height_numbers, Put};

use bounds::{FILTER, FILTERS, HEIGHTS, KF, PART, PARTS};
use buffers::{array_at, put};
use engine::types::{RefinedId, ScanIndex};
use kf::filter::Kf;
use scalar::bits;

// ---- heights

// The last heights of a track, oldest first, and how many there are.
// As it is: no ghost field says that there are no more than HEIGHTS: a caller may lend any memory, sound or not, and a
// part is read from it.
#[derive(Clone, Copy)]
pub struct Heights {
    pub values: [f64; HEIGHTS],
    pub count: usize,
}

impl Heights {
    // Those of a track that was not seen yet.
    pub fn new() -> Heights
        ensures { result.count ≡ 0 }
    {
        Heights {
            values: [0.0; HEIGHTS],
            count: 0,
        }
    }

    // One more, of which the last HEIGHTS stay.
    pub fn with(self, z: f64) -> Heights
        requires { self.count ≤ HEIGHTS }
        ensures few { result.count ≤ HEIGHTS }
        ensures heights { heights_of result ≡ recent (heights_of self ++ (z ∷ [])) }
    {
        let mut values = self.values;
        if self.count < HEIGHTS {
            values[self.count] = z;
            return Heights {
                values,
                count: self.count + 1,
            };
        }
        values.copy_within(1..HEIGHTS, 0);
        values[HEIGHTS - 1] = z;
        Heights {
            values,
            count: HEIGHTS,
        }
    }

    // The heights, and 0.0 in each place that has none.
    fn numbers(self) -> [f64; HEIGHTS]
        requires { self.count ≤ HEIGHTS }
        ensures { result ≡ height_numbers (heights_of self) }
    {
        let mut numbers = [0.0; HEIGHTS];
        put(&mut numbers, 0, &self.values[..self.count]);
        numbers
    }

    // Their mean, added oldest first.
    pub fn mean(self) -> f64
        requires { self.count ≤ HEIGHTS }
        ensures { result ≡ mean (heights_of self) }
    {
        let sum = self.values[..self.count]
            .iter()
            .copied()
            .reduce(|sum, h| sum + h);
        sum.map_or(0.0, |sum| {
            sum / std::num::nearest_u64_to_f64(self.count as u64)
        })
    }
}

// ---- the part

// The frozen part of a track.
#[derive(Clone, Copy)]
pub struct Prefix {
    pub kf: Kf,
    pub last_frame: ScanIndex,
    pub last_ns: i64,
    pub count: u64,
    pub heights: Heights,
    pub class: Option<u32>,
}

// What stands for a class that is not known.
const NO_CLASS: u64 = 0x1_0000_0000;

// A class as a word.
pub fn class_word(k: Option<u32>) -> u64
    ensures { (result ≡ class_word k) × (class_in result ≡ k) }
{
    k.map_or(NO_CLASS, u64::from)
}

// The class that a word says.
pub fn class_of(w: u64) -> Option<u32>
    ensures { result ≡ class_in w }
{
    u32::try_from(w).ok()
}

// ---- the fields of part k, which is below FROZEN
//
// As it is, here and below: functions of the words or of the numbers, and no struct of a part. `FrozenTracks` below,
// the words of parts in order with a count, would serve the search; but the rule has yet to tell the order, and
// `prefix_at`, `put_track`, `part_age` and `is_kept` have no count, so these functions would stay beside its methods.

// The id of its track.
pub fn part_id(tracks: &[u64; PARTS], k: usize) -> RefinedId
    requires { k < FROZEN }
    ensures { result.0 ≡ part_id tracks.now k }
{
    RefinedId(tracks[PART * k])
}

// The number of the scan of its last detection.
pub fn part_last_frame(tracks: &[u64; PARTS], k: usize) -> ScanIndex
    requires { k < FROZEN }
    ensures { result.0 ≡ part_last_frame tracks.now k }
{
    ScanIndex(tracks[PART * k + 1])
}

// That scan's time.
pub fn part_last_ns(tracks: &[u64; PARTS], k: usize) -> i64
    requires { k < FROZEN }
    ensures { result ≡ part_last_ns tracks.now k }
{
    bits::from_word(tracks[PART * k + 2])
}

// How many detections it has.
pub fn part_count(tracks: &[u64; PARTS], k: usize) -> u64
    requires { k < FROZEN }
    ensures { result ≡ part_count tracks.now k }
{
    tracks[PART * k + 3]
}

// The newest class known.
pub fn part_class(tracks: &[u64; PARTS], k: usize) -> Option<u32>
    requires { k < FROZEN }
    ensures { result ≡ part_class tracks.now k }
{
    class_of(tracks[PART * k + 4])
}

// How many heights it has.
pub fn part_height_count(tracks: &[u64; PARTS], k: usize) -> u64
    requires { k < FROZEN }
    ensures { result ≡ part_height_count tracks.now k }
{
    tracks[PART * k + 5]
}

// Its filter.
pub fn part_kf(filters: &[f64; FILTERS], k: usize) -> Kf
    requires { k < FROZEN }
    ensures { result ≡ part_kf filters.now k }
{
    Kf::at(filters, FILTER * k)
}

// ---- the tracks that have a frozen part

// The frozen parts of the first `count` places, by their words; they lie by rising ids.
#[derive(Clone, Copy)]
pub struct FrozenTracks<'a> {
    pub tracks: &'a [u64; PARTS],
    pub count: usize,
    pub ghost few: { count ≤ FROZEN },
    pub ghost rises: { Rises tracks.now count },
}

impl FrozenTracks<'_> {
    // Whether a track has a frozen part.
    pub fn has(&self, id: RefinedId) -> bool
        ensures { result ≡ has id.0 (part_ids self.now.tracks.now self.now.count) }
    {
        self.find(id).is_some()
    }

    // The place of a track's part, if it has one.
    pub fn find(&self, id: RefinedId) -> Option<usize>
        ensures { IsPartOf self.now.tracks.now self.now.count id.0 result }
    {
        let k = self.place_of(id);
        if k < self.count && part_id(self.tracks, k) == id {
            Some(k)
        } else {
            None
        }
    }

    // The first place whose id is not below this one: ids rise, so half of the places that are left go with each look
    // at one.
    // As it is: a loop, and no `partition_point`, which takes a slice: the ids lie a stride apart in the lent words, a
    // published format.
    pub fn place_of(&self, id: RefinedId) -> usize
        ensures { (result ≡ place_in id.0 (part_ids self.now.tracks.now self.now.count)) × (result ≤ self.now.count) }
    {
        let mut low: usize = 0;
        let mut high = self.count;
        while low < high {
            let middle = low + (high - low) / 2;
            if id <= part_id(self.tracks, middle) {
                high = middle;
            } else {
                low = middle + 1;
            }
        }
        low
    }
}

// ---- parts

// The frozen parts, as they are lent: their words and their numbers.
// As it is: arrays of words and numbers, which are the published format of the lent memory.
#[derive(Drop)]
pub struct FrozenParts {
    pub tracks: [u64; PARTS],
    pub filters: [f64; FILTERS],
}

impl FrozenParts {
    // Memory that was never used.
    pub fn new() -> FrozenParts
        ensures { result ≡ no_parts }
    {
        FrozenParts {
            tracks: [0; PARTS],
            filters: [0.0; FILTERS],
        }
    }

    // Frozen part k, which is below FROZEN.
    pub fn prefix_at(&self, k: usize) -> Prefix
        requires { k < FROZEN }
        ensures { prefix_of result ≡ prefix_in self.now.tracks self.now.filters k }
    {
        Prefix {
            kf: part_kf(&self.filters, k),
            last_frame: part_last_frame(&self.tracks, k),
            last_ns: part_last_ns(&self.tracks, k),
            count: part_count(&self.tracks, k),
            heights: Heights {
                values: array_at(&self.filters, FILTER * k + KF),
                count: part_height_count(&self.tracks, k) as usize,
            },
            class: part_class(&self.tracks, k),
        }
    }

    // A frozen part by value over the part k, which is below FROZEN, under an id. It asks for HEIGHTS heights at most.
    pub fn put(&mut self, k: usize, id: RefinedId, p: Prefix)
        requires { (k < FROZEN) × (p.heights.count ≤ HEIGHTS) }
        ensures { Put k id.0 p self.old.tracks self.old.filters self.new.tracks self.new.filters }
    {
        let ws = [
            id.0,
            p.last_frame.0,
            bits::to_word(p.last_ns),
            p.count,
            class_word(p.class),
            p.heights.count as u64,
        ];
        put(&mut self.tracks, PART * k, &ws);
        put(&mut self.filters, FILTER * k, &p.kf.numbers());
        put(&mut self.filters, FILTER * k + KF, &p.heights.numbers());
    }

    // The parts from one place to before another, which is at most FROZEN, cleared.
    pub fn clear(&mut self, from: usize, to: usize)
        requires { (from ≤ to) × (to ≤ FROZEN) }
        ensures tracks { self.new.tracks ≡ cleared 0 (PART * from) (PART * (to - from)) self.old.tracks }
        ensures filters { self.new.filters ≡ cleared (of_bits binary64 0) (FILTER * from) (FILTER * (to - from)) self.old.filters }
    {
        buffers::clear(&mut self.tracks, PART * from, PART * (to - from), 0);
        buffers::clear(&mut self.filters, FILTER * from, FILTER * (to - from), 0.0);
    }
}
