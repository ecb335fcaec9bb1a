// Lines: of a refusal, of the counters, of an opening, of a digest and of a bad call.
ghost use Rattle.refusals.specs.Refusals.{number_of};
ghost use Rattle.print.specs.Text.{refused_line, counters_line, counted_line, opened_line, digest_line, bad_line, Puts};

use crate::fields;
use fgo_spec::moves::FgoCounters;
use refusals::Refusal;

// `refused` and a number.
pub fn put_refused_number(out: &mut [u8], n: usize, number: u8) -> usize
    ensures { Puts (refused_line number) n out.old out.new result }
{
    let a = fields::put_text(out, n, b"refused");
    let b = fields::put_decimal(out, a, u64::from(number));
    fields::put_text(out, b, b"\n")
}

// The same of a refusal.
pub fn put_refused(out: &mut [u8], n: usize, refusal: Refusal) -> usize
    ensures { Puts (refused_line (number_of refusal)) n out.old out.new result }
{
    put_refused_number(out, n, u8::from(refusal))
}

// `counters` swaps, merges, splits, drops.
pub fn put_counters(out: &mut [u8], n: usize, k: FgoCounters) -> usize
    ensures { Puts (counters_line k) n out.old out.new result }
{
    let a = fields::put_text(out, n, b"counters");
    let b = fields::put_decimal(out, a, k.swaps);
    let c = fields::put_decimal(out, b, k.merges);
    let d = fields::put_decimal(out, c, k.splits);
    let e = fields::put_decimal(out, d, k.drops);
    fields::put_text(out, e, b"\n")
}

// The line of the counters, or of a refusal.
#[tactic(auto, unfolding(crate::specs::Text::counted_line))]
pub fn put_counted(out: &mut [u8], n: usize, k: Result<FgoCounters, Refusal>) -> usize
    ensures { Puts (counted_line k) n out.old out.new result }
{
    match k {
        Ok(moves) => put_counters(out, n, moves),
        Err(refusal) => put_refused(out, n, refusal),
    }
}

// `opened`.
pub fn put_opened(out: &mut [u8]) -> usize
    ensures { Puts opened_line 0 out.old out.new result }
{
    fields::put_text(out, 0, b"opened\n")
}

// `digest` and three hashes.
pub fn put_digest(out: &mut [u8], a: u64, b: u64, c: u64) -> usize
    ensures { Puts (digest_line a b c) 0 out.old out.new result }
{
    let d = fields::put_text(out, 0, b"digest");
    let e = fields::put_hex(out, d, a);
    let f = fields::put_hex(out, e, b);
    let g = fields::put_hex(out, f, c);
    fields::put_text(out, g, b"\n")
}

// `bad call`.
pub fn put_bad(out: &mut [u8]) -> usize
    ensures { Puts bad_line 0 out.old out.new result }
{
    fields::put_text(out, 0, b"bad call\n")
}
