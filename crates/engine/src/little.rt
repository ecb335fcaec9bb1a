// Bytes and little-endian numbers at a place of a byte slice; a number asks that its bytes lie in the slice.
ghost use Rattle.std.specs.Prelude.{◌≡◌, ◌+◌, ◌^◌, ◌<◌, ◌≤◌, length, get_or};
ghost use Rattle.std.specs.Float.{binary64};
ghost use Rattle.std.specs.Float.Ieee.{of_bits};
ghost use Rattle.scalar.specs.Scalar.{signed};
ghost use Rattle.engine.specs.Little.{little};

use scalar::bits;
use std::array::from_fn;

// The byte at a place as a number; 0 past the end.
pub fn byte_at(s: &[u8], o: usize) -> usize
    ensures value { result ≡ get_or s.now o 0 }
    ensures small { result < 2 ^ 8 }
{
    s.get(o).map_or(0, |b| usize::from(*b))
}

// The two bytes from place o on as a number.
pub fn u16_at(s: &[u8], o: usize) -> u64
    requires { o + 2 ≤ length s.now }
    ensures { result ≡ little 2 s.now o }
{
    u64::from(u16::from_le_bytes([s[o], s[o + 1]]))
}

// The three bytes from place o on as a number.
pub fn u24_at(s: &[u8], o: usize) -> u64
    requires { o + 3 ≤ length s.now }
    ensures { result ≡ little 3 s.now o }
{
    u64::from(u32::from_le_bytes([s[o], s[o + 1], s[o + 2], 0]))
}

// The four bytes from place o on as a number.
pub fn u32_at(s: &[u8], o: usize) -> u64
    requires { o + 4 ≤ length s.now }
    ensures { result ≡ little 4 s.now o }
{
    u64::from(u32::from_le_bytes(from_fn(|k| s[o + k])))
}

// The eight bytes from place o on as a number.
pub fn u64_at(s: &[u8], o: usize) -> u64
    requires { o + 8 ≤ length s.now }
    ensures { result ≡ little 8 s.now o }
{
    u64::from_le_bytes(from_fn(|k| s[o + k]))
}

// The eight bytes from place o on as a number with a sign.
pub fn i64_at(s: &[u8], o: usize) -> i64
    requires { o + 8 ≤ length s.now }
    ensures { result ≡ signed (little 8 s.now o) }
{
    bits::from_word(u64_at(s, o))
}

// The eight bytes from place o on as the float that has these bits.
pub fn f64_at(s: &[u8], o: usize) -> f64
    requires { o + 8 ≤ length s.now }
    ensures { result ≡ of_bits binary64 (little 8 s.now o) }
{
    bits::from_bits(u64_at(s, o))
}
