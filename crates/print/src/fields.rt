// Text as it is, and the fields of a line: numbers as text, each after a space.

ghost use Rattle.std.specs.Prelude.{ℕ, List, length, get_or};
ghost use Rattle.scalar.specs.Scalar.{signed, bits_of};
ghost use Rattle.print.specs.Text.{decimal, signed_decimal, hexadecimal, field, word_field, signed_field, bits_field, texts, Puts};

use scalar::bits;

// Bytes as they are.
pub fn put_text(out: &mut [u8], n: usize, s: &[u8]) -> usize
    ensures { Puts s.now n out.old out.new result }
{
    if out.len() < n {
        return n;
    }
    let room = out.len() - n;
    if room < s.len() {
        buffers::put(out, n, &s[..room]);
        return out.len() + 1;
    }
    buffers::put(out, n, s);
    n + s.len()
}

// The digits of a number in decimal.
fn put_digits(out: &mut [u8], n: usize, x: u64) -> usize
    ensures { Puts (decimal x) n out.old out.new result }
{
    let mut digits = [0u8; 20];
    let k = io::decimal(x, &mut digits);
    put_text(out, n, &digits[..k])
}

// A number in decimal.
pub fn put_decimal(out: &mut [u8], n: usize, x: u64) -> usize
    ensures { Puts (field (decimal x)) n out.old out.new result }
{
    let at = put_text(out, n, b" ");
    put_digits(out, at, x)
}

// The number of a word in two's complement, signed, in decimal.
fn put_signed(out: &mut [u8], n: usize, word: u64) -> usize
    ensures { Puts (field (signed_decimal (signed word))) n out.old out.new result }
{
    if word < 0x8000_0000_0000_0000 {
        return put_decimal(out, n, word);
    }
    let at = put_text(out, n, b" -");
    put_digits(out, at, word.wrapping_neg())
}

// A number in 16 hexadecimal digits.
pub fn put_hex(out: &mut [u8], n: usize, x: u64) -> usize
    ensures { Puts (field (hexadecimal x)) n out.old out.new result }
{
    let mut digits = [0u8; 16];
    let k = io::hex(x, 16, &mut digits);
    let at = put_text(out, n, b" ");
    put_text(out, at, &digits[..k])
}

// ---- of a frame's words and numbers

// A word or a number of a frame, which has a field of a line.
pub(crate) trait HasField: Copy {
    // Its field.
    ghost text: { Self → List ℕ };

    // Puts its field.
    fn put(self, out: &mut [u8], n: usize) -> usize
        ensures { Puts (text self) n out.old out.new result };
}

// A word in decimal.
impl HasField for u64 {
    ghost text = { λ word. field (decimal word) };

    fn put(self, out: &mut [u8], n: usize) -> usize {
        put_decimal(out, n, self)
    }
}

// A number by its bits.
impl HasField for f64 {
    ghost text = { λ x. field (hexadecimal (bits_of x)) };

    fn put(self, out: &mut [u8], n: usize) -> usize {
        put_hex(out, n, bits::to_bits(self))
    }
}

// Each of a frame's words or numbers.
pub(crate) fn put_each<T: HasField>(out: &mut [u8], n: usize, items: &[T]) -> usize
    ensures { (past : T) → Puts (texts (λ i. T.text (get_or items.now i past)) (length items.now)) n out.old out.new result }
{
    let mut at = n;
    for x in items {
        at = x.put(out, at);
    }
    at
}

// Word i in decimal; 0 where there is none.
pub fn put_word(out: &mut [u8], n: usize, words: &[u64], i: usize) -> usize
    ensures { Puts (word_field words.now i) n out.old out.new result }
{
    put_decimal(out, n, words.get(i).copied().unwrap_or(0))
}

// Word i in decimal, signed; 0 where there is none.
pub fn put_signed_word(out: &mut [u8], n: usize, words: &[u64], i: usize) -> usize
    ensures { Puts (signed_field words.now i) n out.old out.new result }
{
    put_signed(out, n, words.get(i).copied().unwrap_or(0))
}

// The bits of number i; those of NaN where there is none.
pub fn put_bits(out: &mut [u8], n: usize, x: &[f64], i: usize) -> usize
    ensures { Puts (bits_field x.now i) n out.old out.new result }
{
    put_hex(out, n, bits::to_bits(x.get(i).copied().unwrap_or(f64::NAN)))
}
