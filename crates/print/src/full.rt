// A frame in full: a line of its words, and a line of its numbers.
ghost use Rattle.std.specs.Prelude.{◌++◌, length, get_or};
ghost use Rattle.print.specs.Text.{texts, end, full_form, Puts};

use crate::fields::{self, HasField};

// A line: its name, and each of a frame's words or numbers.
fn put_line<T: HasField>(out: &mut [u8], n: usize, name: &[u8], items: &[T]) -> usize
    ensures { (past : T) → Puts (name.now ++ (texts (λ i. T.text (get_or items.now i past)) (length items.now) ++ end)) n out.old out.new result }
{
    let a = fields::put_text(out, n, name);
    let b = fields::put_each(out, a, items);
    fields::put_text(out, b, b"\n")
}

// Both lines.
pub fn put_frame(out: &mut [u8], n: usize, words: &[u64], x: &[f64]) -> usize
    ensures { Puts (full_form words.now x.now) n out.old out.new result }
{
    let a = put_line(out, n, b"words", words);
    put_line(out, a, b"numbers", x)
}
