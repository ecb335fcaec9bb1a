// A recording: settings, a contents table and frame bodies; and a reader over it that stands at one entry.
#![tactic(auto)]

ghost use Rattle.std.specs.Prelude.{◌≡◌, ◌+◌, ◌*◌, ◌≤◌, length};
ghost use Rattle.bounds.specs.Bounds.{SETTINGS, CONTENTS, ENTRY, RECORDING};
ghost use Rattle.recording.specs.Recording.{count, offset, size, holds, ill_sized, fills, settings, contents_in, contents_of, recorded_body};

use bounds::{CONTENTS, ENTRY, FRAMES, RECORDING, SETTING, SETTINGS};
use engine::config::FgoConfig;
use engine::little;
use refusals::Refusal;

// What a recording says at its start: its settings, and the number of its frames.
#[derive(Clone, Copy)]
pub struct Contents {
    pub config: FgoConfig,
    pub count: usize,
}

fn count_of(s: &[u8]) -> usize
    requires { CONTENTS ≤ length s.now }
    ensures { result ≡ count s.now }
{
    little::u32_at(s, SETTINGS) as usize
}

// Where frame i is said to begin.
fn offset_of(s: &[u8], i: usize) -> usize
    requires { CONTENTS + ENTRY * i + ENTRY ≤ length s.now }
    ensures { result ≡ offset s.now i }
{
    little::u32_at(s, CONTENTS + ENTRY * i) as usize
}

// How many bytes frame i is said to have.
fn size_of(s: &[u8], i: usize) -> usize
    requires { CONTENTS + ENTRY * i + ENTRY ≤ length s.now }
    ensures { result ≡ size s.now i }
{
    little::u32_at(s, CONTENTS + ENTRY * i + 4) as usize
}

// The bodies exactly fill the rest, in order without gaps.
fn fills_rest(s: &[u8]) -> bool
    requires { (length s.now ≤ RECORDING) × (CONTENTS + ENTRY * count s.now ≤ length s.now) }
    ensures { result ≡ fills s.now }
{
    let n = count_of(s);
    (0..n)
        .try_fold(CONTENTS + ENTRY * n, |at, i| {
            (offset_of(s, i) == at).then(|| at + size_of(s, i))
        })
        .is_some_and(|end| end == s.len())
}

// 11: over RECORDING bytes, over FRAMES frames, or shorter than its contents table.
#[tactic(auto, unfolding(crate::specs::Recording::ill_sized))]
fn is_ill_sized(s: &[u8]) -> bool
    ensures { result ≡ ill_sized s.now }
{
    RECORDING < s.len()
        || s.len() < CONTENTS
        || FRAMES < count_of(s)
        || s.len() < CONTENTS + ENTRY * count_of(s)
}

// The eleven settings, in the order of `FgoConfig`.
// As it is: calls_cells's `config_of` lists them too, from words where here they are bytes; what both mean is defined
// once, as `config_by` of engine. One function for both would take an array of words, into which these bytes are read
// first, which is no plainer.
#[tactic(auto, unfolding(crate::specs::Recording::settings), using(engine::proofs::Bytes::signed_passed))]
pub fn settings_of(s: &[u8]) -> FgoConfig
    requires { SETTINGS ≤ length s.now }
    ensures { result ≡ settings s.now }
{
    FgoConfig {
        lag_frames: little::u64_at(s, 0) as usize,
        radius_m: little::f64_at(s, SETTING),
        birth_cost: little::f64_at(s, SETTING * 2),
        miss_cost: little::f64_at(s, SETTING * 3),
        clutter_cost: little::f64_at(s, SETTING * 4),
        accel_spectral_density: little::f64_at(s, SETTING * 5),
        position_sigma_m: little::f64_at(s, SETTING * 6),
        initial_velocity_variance: little::f64_at(s, SETTING * 7),
        coast_ns: little::i64_at(s, SETTING * 8),
        forget_after_ns: little::i64_at(s, SETTING * 9),
        max_passes: little::u64_at(s, SETTING * 10) as usize,
    }
}

// What a recording says at its start, or the first of 11, 12 and 1 that it is refused for.
#[tactic(auto, unfolding(crate::specs::Recording::contents_of, crate::specs::Recording::refusal), using(crate::proofs::Recorded::sized))]
pub fn contents_of(s: &[u8]) -> Result<Contents, Refusal>
    ensures { contents_in result ≡ contents_of s.now }
{
    if is_ill_sized(s) {
        return Err(Refusal::Size);
    }
    if !fills_rest(s) {
        return Err(Refusal::Bodies);
    }
    let config = settings_of(s);
    if !config.is_legal() {
        return Err(Refusal::Setting);
    }
    Ok(Contents {
        config,
        count: count_of(s),
    })
}

// The contents table is there as far as entry i, has that entry, and the recording has the bytes that it names.
#[tactic(auto, unfolding(crate::specs::Recording::holds), using(engine::proofs::Bytes::little_below))]
fn entry_holds(s: &[u8], i: usize) -> bool
    ensures { result ≡ holds s.now i }
{
    CONTENTS + ENTRY <= s.len()
        && i <= (s.len() - CONTENTS - ENTRY) / ENTRY
        && i < count_of(s)
        && offset_of(s, i) + size_of(s, i) <= s.len()
}

// The body of frame i, as a part of the recording; nothing where it does not hold one.
// As it is, no Option: what is published of an entry without a frame is a body without bytes.
#[tactic(auto, unfolding(crate::specs::Recording::recorded_body), using(crate::proofs::Recorded::held))]
fn body_at(s: &[u8], i: usize) -> &[u8]
    ensures { result.now ≡ recorded_body s.now i }
{
    if !entry_holds(s, i) {
        return &s[0..0];
    }
    let from = offset_of(s, i);
    let to = from + size_of(s, i);
    &s[from..to]
}

// A reader over the lent recording that stands at one entry.
#[derive(Drop)]
pub struct Reader<'a> {
    pub recording: &'a [u8],
    pub entry: usize,
}

impl<'a> Reader<'a> {
    // A reader at the first entry.
    pub fn new(recording: &'a [u8]) -> Reader<'a>
        ensures recording { result.recording ≡ recording.entry }
        ensures first { result.entry ≡ 0 }
    {
        Reader {
            recording,
            entry: 0,
        }
    }

    // The reader at another entry.
    pub fn moved(self, entry: usize) -> Reader<'a>
        ensures recording { result.recording ≡ self.entry.recording }
        ensures moved { result.entry ≡ entry }
    {
        Reader {
            recording: self.recording,
            entry,
        }
    }

    // The body at the reader's entry.
    pub fn body(self) -> &'a [u8]
        ensures { result.now ≡ recorded_body self.entry.recording.now self.entry.entry }
    {
        body_at(self.recording, self.entry)
    }
}

// The body of frame i, by a reader: what a caller with a plain slice uses.
pub fn frame_at(s: &[u8], i: usize) -> &[u8]
    ensures { result.now ≡ recorded_body s.now i }
{
    Reader::new(s).moved(i).body()
}
