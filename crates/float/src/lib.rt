// Numbers: the small functions that the Rust uses on `f64`, each proved against IEEE 754. The square root has a crate of its own, `root`.
#![tactic(auto)]

pub mod refusal;

ghost use Rattle.std.specs.Prelude.{◌≡◌, ◌&&◌};
ghost use Rattle.std.specs.Float.{binary64};
ghost use Rattle.std.specs.Float.Ieee.{of_bits, to_bits, eq};
ghost use Rattle.float.specs.Number.{f0, finite as finite_of, abs as abs_of, signum as signum_of, clamp01, number_or, max_of, min_of};

// The number that a bit pattern stands for. Every NaN pattern is a NaN, which `f64::from_bits` leaves undefined.
pub fn of_bits(b: u64) -> f64
    ensures { result ≡ of_bits binary64 b }
{
    if b % 0x8000_0000_0000_0000 > 0x7ff0_0000_0000_0000 {
        return 0.0 / 0.0;
    }
    f64::from_bits(b)
}

// A number's bit pattern; of a NaN the pattern 7FF8000000000000.
pub fn to_bits(x: f64) -> u64
    ensures { result ≡ to_bits binary64 x }
{
    if x == x {
        return f64::to_bits(x);
    }
    0x7ff8_0000_0000_0000
}

// Whether x is a number and no infinity.
pub fn finite(x: f64) -> bool
    ensures { result ≡ finite_of x }
{
    x < 1.0 / 0.0 && x > -1.0 / 0.0
}

// Whether a product that starts with zero is a zero: zero times a finite number is, and zero times any other is a NaN. So one
// comparison tells of every factor.
fn vanishes(product: f64) -> bool
    ensures { result ≡ eq product f0 }
{
    product == 0.0
}

// Whether x and y are finite.
pub fn two_finite(x: f64, y: f64) -> bool
    ensures { result ≡ finite_of x && finite_of y }
{
    vanishes(0.0 * x * y)
}

// Whether x, y and z are finite.
pub fn three_finite(x: f64, y: f64, z: f64) -> bool
    ensures { result ≡ finite_of x && (finite_of y && finite_of z) }
{
    vanishes(0.0 * x * y * z)
}

// f64::abs: the sign's bit is cleared, of a zero too.
pub fn abs(x: f64) -> f64
    ensures { result ≡ abs_of x }
{
    if x == x {
        f64::from_bits(f64::to_bits(x) % 0x8000_0000_0000_0000)
    } else {
        x
    }
}

// f64::signum: 1 or -1 by the sign's bit, of a zero too.
pub fn signum(x: f64) -> f64
    ensures { result ≡ signum_of x }
{
    if x == x {
        if f64::to_bits(x) < 0x8000_0000_0000_0000 {
            1.0
        } else {
            -1.0
        }
    } else {
        x
    }
}

// x.clamp(0.0, 1.0), by the bit pattern: one that is more than the sign's bit is a number's below 0, and the others stand in the
// order of their numbers. Minus zero and a NaN stay as they are.
pub fn clamp(x: f64) -> f64
    ensures { result ≡ clamp01 x }
{
    if x == x {
        let b = f64::to_bits(x);
        if b > 0x8000_0000_0000_0000 {
            0.0
        } else if b % 0x8000_0000_0000_0000 > 0x3ff0_0000_0000_0000 {
            1.0
        } else {
            x
        }
    } else {
        x
    }
}

// The number b, and a where b is a NaN.
fn number_or(b: f64, a: f64) -> f64
    ensures { result ≡ number_or b a }
{
    if b == b {
        return b;
    }
    a
}

// f64::max. Of two equal numbers it is the second, so that of two zeros a plus zero in second place wins.
pub fn max(a: f64, b: f64) -> f64
    ensures { result ≡ max_of a b }
{
    if a > b {
        return a;
    }
    number_or(b, a)
}

// f64::min. Of two equal numbers it is the second.
pub fn min(a: f64, b: f64) -> f64
    ensures { result ≡ min_of a b }
{
    if a < b {
        return a;
    }
    number_or(b, a)
}
