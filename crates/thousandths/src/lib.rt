// A number as whole thousandths, and whole thousandths as the nearest number. The thousandths are found by the bit pattern, in whole
// numbers: so they are those of the exact value, which is rounded once.
#![tactic(auto)]

ghost use Rattle.std.specs.Prelude.{◌≡◌, true, ◌%◌, ◌^◌, ◌≤◌, ◌<◌};
ghost use Rattle.std.specs.Float.{binary64};
ghost use Rattle.std.specs.Float.Ieee.{of_bits};
ghost use Rattle.float.specs.Number.{finite};
ghost use Rattle.path.specs.Decimals.{rounded, written_of, nearest_to};
ghost use Rattle.path.specs.Range.{within};

use path::Decimal;

// The fraction n / d as a whole number, halves up: of an even d a half is whole, so nothing is doubled.
fn whole(n: u64, d: u64) -> u64
    requires { (n < 2 ^ 63) × (0 < d) × (d % 2 ≡ 0) }
    ensures { result ≡ rounded n d }
{
    if n % d < d / 2 {
        return n / d;
    }
    n / d + 1
}

// The thousandths of the number below 2^30 whose bit pattern is b, with the sign's bit clear. Below 2^-11, where the divisor would not
// fit, there is not half a one.
fn thousandths_of(b: u64) -> u64
    requires { b < 0x41d0_0000_0000_0000 }
    ensures { result ≡ (written_of (of_bits binary64 b)).thousandths }
{
    if b < 0x3f40_0000_0000_0000 {
        return 0;
    }
    whole(
        (b % 0x10_0000_0000_0000 + 0x10_0000_0000_0000) * 1000,
        1 << (1075 - b / 0x10_0000_0000_0000),
    )
}

// A number in thousandths, halves away from zero: what has none is written without a sign.
pub fn written(x: f64) -> Decimal
    requires { (finite x ≡ true) × (within x ≡ true) }
    ensures { result ≡ written_of x }
{
    let t = thousandths_of(f64::to_bits(x) % 0x8000_0000_0000_0000);
    Decimal {
        negative: (x < 0.0) & (t > 0),
        thousandths: t,
    }
}

// The number nearest to so many thousandths: they and 1000 are numbers themselves, so the one rounding is the division's.
pub fn nearest(d: Decimal) -> f64
    requires { d.thousandths ≤ 2 ^ 53 }
    ensures { result ≡ nearest_to d }
{
    let y = d.thousandths as f64 / 1000.0;
    if d.negative {
        return -y;
    }
    y
}
