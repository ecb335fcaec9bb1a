// Every bound and every stride, by name: what a frame, a scan, a recording and the lent memory have room for, and how
// many bytes, words or numbers a part of each has. Most follow from a few. specs/Bounds.antt has the same names for the
// definitions.
//
// A name in the singular says how long one is (BODY), and that in the plural how long the array of all of them is
// (BODIES); how many there are at most has a name of its own (SCANS).
#![tactic(auto)]

// ---- scans

// The longest lag, of a refiner and of a smoother.
pub const LAG: usize = 16;

// Scans held at most: those of the lag, and the one that is pushed.
pub const SCANS: usize = LAG + 1;

// The most passes of a search.
pub const PASSES: usize = 1000;

// The most scans that a refiner accepts: 2^32 - 1.
pub const ACCEPTED: u64 = 0xffff_ffff;

// The most that the next id or a counter may be at a push: 2^60.
pub const COUNTED: u64 = 0x1000_0000_0000_0000;

// The greatest time in size, in nanoseconds: 2^62 - 1.
pub const TIME: i64 = 0x3fff_ffff_ffff_ffff;

// ---- a frame's body

// Engine tracks of a frame at most.
pub const ENGINES: usize = 32;

// Sensors at most.
pub const SENSORS: usize = 8;

// Observations at most.
pub const OBSERVATIONS: usize = 32;

// Associations at most.
pub const ASSOCIATIONS: usize = 32;

// The bytes of a header.
pub const HEADER: usize = 16;

// The bytes of an engine track.
pub const ENGINE: usize = 16;

// The bytes of a sensor.
pub const SENSOR: usize = 4;

// The bytes of an observation.
pub const OBSERVATION: usize = 24;

// The bytes of an association.
pub const ASSOCIATION: usize = 24;

// The bytes of the longest body.
pub const BODY: usize = HEADER
    + ENGINE * ENGINES
    + SENSOR * SENSORS
    + OBSERVATION * OBSERVATIONS
    + ASSOCIATION * ASSOCIATIONS;

// ---- a recording

// The bytes of a setting.
pub const SETTING: usize = 8;

// The bytes of the eleven settings.
pub const SETTINGS: usize = 11 * SETTING;

// The bytes before the contents table: the settings and the number of frames.
pub const CONTENTS: usize = SETTINGS + 4;

// The bytes of an entry of the contents table.
pub const ENTRY: usize = 8;

// Frames of a recording at most.
pub const FRAMES: usize = 256;

// Bytes of a recording at most.
pub const RECORDING: usize = 65536;

// ---- the refiner's memory

// Frozen parts, detections in windows and new associations with an id at most, all together.
pub const DETECTIONS: usize = 128;

// Frozen parts at most.
pub const FROZEN: usize = DETECTIONS;

// Engine ids with an owner at most.
pub const OWNED: usize = 256;

// The words of a column: the length of a scan's body, and the refined id of each association.
pub const COLUMN: usize = 1 + ASSOCIATIONS;

// The words of an owner's entry: an engine id, and the refined id that owns it.
pub const OWNER: usize = 2;

// The words of a frozen part: id, last frame, last time, count, class, and how many heights it has.
pub const PART: usize = 6;

// The numbers of a filter.
pub const KF: usize = 8;

// Heights that a frozen part keeps at most.
pub const HEIGHTS: usize = 5;

// The numbers of a frozen part: those of its filter, and its heights.
pub const FILTER: usize = KF + HEIGHTS;

// The five arrays that are lent: bodies of held scans,
pub const BODIES: usize = SCANS * BODY;

// their columns,
pub const COLUMNS: usize = SCANS * COLUMN;

// owners of engine ids,
pub const OWNERS: usize = OWNED * OWNER;

// and the words of the frozen parts
pub const PARTS: usize = FROZEN * PART;

// with their numbers.
pub const FILTERS: usize = FROZEN * FILTER;

// ---- the search

// Where each scan's detections begin, and where the last one's end.
pub const STARTS: usize = SCANS + 1;

// Logarithms that are kept at most.
pub const KEPT: usize = 256;

// What an id is divided by in an index of ids: each residue has a chain. A prime, so that ids that lie apart by a
// power of two, or of ten, have different residues all the same.
pub const RESIDUES: usize = 61;

// ---- an emitted frame

// Tracks of a frame at most.
pub const TRACKS: usize = DETECTIONS;

// The words of its head.
pub const HEAD: usize = 6;

// The words of a track.
pub const TRACK: usize = 6;

// The words of an association.
pub const LINK: usize = 4;

// The words of the longest frame beside its tracks.
pub const BESIDE: usize = HEAD + LINK * ASSOCIATIONS + SENSORS;

// Position and velocity of a track.
pub const VECTOR: usize = 6;

// Their covariance, by rows.
pub const COVARIANCE: usize = VECTOR * VECTOR;

// The numbers of a track.
pub const STATE: usize = VECTOR + COVARIANCE;

// The words of the longest frame.
pub const WORDS: usize = BESIDE + TRACK * TRACKS;

// Its numbers: those of the tracks, and a cost for each association.
pub const NUMBERS: usize = ASSOCIATIONS + STATE * TRACKS;

// The words of a smoother's window at the longest lag.
pub const WINDOW: usize = SCANS * WORDS;

// Its numbers.
pub const VALUES: usize = SCANS * NUMBERS;

// ---- a frame in print

// The bytes of a word in decimal at most: a space, and 20 digits.
pub const DECIMAL: usize = 21;

// The bytes of a number in hexadecimal: a space, and 16 digits.
pub const HEXADECIMAL: usize = 17;

// The bytes of the longest text of a frame: in full, where its two lines have names of 5 and 7 bytes and an end. In
// short it is shorter.
pub const TEXT: usize = 6 + DECIMAL * WORDS + (8 + HEXADECIMAL * NUMBERS);

// ---- a list of calls

// Bytes of a list of calls at most.
pub const CALLS: usize = 262144;

// The bytes of a call before what follows it: its code, and how many follow.
pub const CALL: usize = 8;

// The words and the numbers of the output buffers that a call may lend at most.
pub const LENT_WORDS: usize = 4096;

pub const LENT_NUMBERS: usize = 8192;

// The fields of a refiner as cells.
pub const REFINER: usize = 20;

// Those of a smoother.
pub const SMOOTHER: usize = 5;
