// A frame in short: a line of the frame, one of each track and one of each association. Its counts must be in bounds.
// As it is, here and below: numbers and words at a stride, which are the published format of an emitted frame.
ghost use Rattle.std.specs.Prelude.{◌+◌, ◌*◌, ◌<◌, ◌≤◌};
ghost use Rattle.bounds.specs.Bounds.{LINK, TRACKS, WORDS};
ghost use Rattle.smoother_frame.specs.Frame.{Counts};
ghost use Rattle.print.specs.Text.{position, frame_line, track_line, assoc_line, texts, short_form, Puts};

use crate::fields;
use bounds::{HEAD, LINK, STATE, TRACK};
use smoother_frame::counts::FrameCounts;

// `frame` time, tracks, associations.
fn put_head(out: &mut [u8], n: usize, words: &[u64]) -> usize
    ensures { Puts (frame_line words.now) n out.old out.new result }
{
    let a = fields::put_text(out, n, b"frame");
    let b = fields::put_signed_word(out, a, words, 0);
    let c = fields::put_word(out, b, words, 2);
    let d = fields::put_word(out, c, words, 3);
    fields::put_text(out, d, b"\n")
}

// The position bits of track i.
fn put_position(out: &mut [u8], n: usize, x: &[f64], i: usize) -> usize
    requires { i < TRACKS }
    ensures { Puts (position x.now i) n out.old out.new result }
{
    let o = STATE * i;
    let a = fields::put_bits(out, n, x, o);
    let b = fields::put_bits(out, a, x, o + 1);
    fields::put_bits(out, b, x, o + 2)
}

// `track` id, lifecycle, age, count, position bits.
fn put_track(out: &mut [u8], n: usize, words: &[u64], x: &[f64], i: usize) -> usize
    requires { i < TRACKS }
    ensures { Puts (track_line words.now x.now i) n out.old out.new result }
{
    let o = HEAD + TRACK * i;
    let a = fields::put_text(out, n, b"track");
    let b = fields::put_word(out, a, words, o);
    let c = fields::put_word(out, b, words, o + 1);
    let d = fields::put_signed_word(out, c, words, o + 3);
    let e = fields::put_word(out, d, words, o + 5);
    let f = put_position(out, e, x, i);
    fields::put_text(out, f, b"\n")
}

// `assoc` index, id, outcome, of the association whose words begin at place o.
fn put_association(out: &mut [u8], n: usize, words: &[u64], o: usize) -> usize
    requires { o ≤ WORDS }
    ensures { Puts (assoc_line words.now o) n out.old out.new result }
{
    let a = fields::put_text(out, n, b"assoc");
    let b = fields::put_word(out, a, words, o);
    let c = fields::put_word(out, b, words, o + 1);
    let d = fields::put_word(out, c, words, o + 2);
    fields::put_text(out, d, b"\n")
}

// A line for each track.
fn put_tracks(out: &mut [u8], n: usize, words: &[u64], x: &[f64], many: usize) -> usize
    requires { many ≤ TRACKS }
    ensures { Puts (texts (track_line words.now x.now) many) n out.old out.new result }
{
    let mut at = n;
    for i in 0..many {
        at = put_track(out, at, words, x, i);
    }
    at
}

// A line for each association; the words of the first begin at place o.
fn put_associations(out: &mut [u8], n: usize, words: &[u64], o: usize, many: usize) -> usize
    requires { o + LINK * many ≤ WORDS }
    ensures { Puts (texts (λ j. assoc_line words.now (o + LINK * j)) many) n out.old out.new result }
{
    let mut at = n;
    for j in 0..many {
        at = put_association(out, at, words, o + LINK * j);
    }
    at
}

// The lines of a frame.
pub fn put_frame(out: &mut [u8], n: usize, words: &[u64], x: &[f64]) -> usize
    requires { Counts words.now }
    ensures { Puts (short_form words.now x.now) n out.old out.new result }
{
    let counts = FrameCounts::of(words);
    let a = put_head(out, n, words);
    let b = put_tracks(out, a, words, x, counts.tracks);
    put_associations(
        out,
        b,
        words,
        counts.associations_from(),
        counts.associations,
    )
}
