// Floats and signed integers as 64-bit words, and nanoseconds as seconds.
ghost use Rattle.std.specs.Prelude.{◌≡◌, from_bits};
ghost use Rattle.std.specs.Float.{binary64};
ghost use Rattle.scalar.specs.Scalar.{finite, seconds_of, bits_of, word, signed};

// Nanoseconds to seconds.
pub fn seconds(ns: i64) -> f64
    ensures { result ≡ seconds_of ns }
{
    std::num::nearest_i64_to_f64(ns) * 1e-9
}

// As it is, here and below: each is one call of std under the document's word, which the definitions use. Of four a
// caller would say std's longer name; and `is_finite` is public and promises the definitions' `finite`, where std's
// promises a definition of std's own.

// Neither a NaN nor an infinity.
pub fn is_finite(x: f64) -> bool
    ensures { result ≡ finite x }
{
    x.is_finite()
}

// The float of any pattern: every NaN pattern gives the NaN.
pub fn from_bits(b: u64) -> f64
    ensures { result ≡ from_bits binary64 b }
{
    std::num::f64_from_bits_with_nan(b)
}

// The pattern of a float: a NaN gives 7ff8000000000000.
pub fn to_bits(x: f64) -> u64
    ensures { result ≡ bits_of x }
{
    std::num::f64_to_bits_with_nan(x)
}

// A signed integer as its two's-complement word.
pub fn to_word(z: i64) -> u64
    ensures { result ≡ word z }
{
    z.cast_unsigned()
}

// The signed integer of a two's-complement word.
pub fn from_word(b: u64) -> i64
    ensures { result ≡ signed b }
{
    b.cast_signed()
}
