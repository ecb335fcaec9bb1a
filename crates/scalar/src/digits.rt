// What a float is, for a function of positive numbers.
ghost use Rattle.std.specs.Prelude.{◌≡◌, ◌^◌, ◌<◌};
ghost use Rattle.scalar.specs.Digits.{digits_of, digits_in, Falls, Full};

#[derive(Clone, Copy)]
pub enum Digits {
    // Above 0 and finite: q · 2^(y - 1074).
    // As it is: no struct with 0 < q, q < 2^53 and y < 2046 as facts. What `digits_of` answers is a value of this type,
    // which its definition makes too, wherever the code makes it; and the definition goes by `digits_in`, which stands
    // for any pattern, +0 among them, whose q is 0. So the facts would take a second type beside this one, and a clause
    // between the two: no plainer than `Falls`, which says the facts of this one.
    Finite { q: u64, y: u64 },
    // +∞.
    Infinite,
    // Either zero.
    Zero,
    // A NaN, or below 0.
    Other,
}

// By the pattern of a float above 0.
#[tactic(auto, unfolding(crate::specs::Digits::digits_in))]
fn digits_in(b: u64) -> Digits
    ensures { result ≡ digits_in b }
{
    let exponent = b % 0x8000_0000_0000_0000 / 0x10_0000_0000_0000;
    let fraction = b % 0x10_0000_0000_0000;
    match exponent {
        2047 => Digits::Infinite,
        0 => Digits::Finite { q: fraction, y: 0 },
        _ => Digits::Finite {
            q: 0x10_0000_0000_0000 + fraction,
            y: exponent - 1,
        },
    }
}

// The kind of a float, with the digits of a positive one.
#[tactic(auto, unfolding(crate::specs::Digits::digits_of))]
pub fn digits_of(a: f64) -> Digits
    ensures value { result ≡ digits_of a }
    ensures kind { Falls a result }
{
    if 0.0 < a {
        digits_in(a.to_bits())
    } else if a == 0.0 {
        Digits::Zero
    } else {
        Digits::Other
    }
}

// 53 binary digits of a positive float: digits · 2^(exponent - 1126).
#[derive(Clone, Copy)]
pub struct FullDigits {
    pub digits: u64,
    pub exponent: u64,
}

// The digits q · 2^(y - 1074), brought to 53.
pub fn full_digits(q: u64, y: u64) -> FullDigits
    requires { (0 < q) × (q < 2 ^ 53) × (y < 2046) }
    ensures { Full q y result.digits result.exponent }
{
    let shift = q.leading_zeros() as u64 - 11;
    FullDigits {
        digits: q << shift,
        exponent: y + (52 - shift),
    }
}
