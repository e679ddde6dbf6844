// The square root of an `f64`, correctly rounded. A float guess is checked in whole numbers, and where it fails the digits are
// found one by one: so nothing has to be known of the guess, and it can be as fast as it likes.
#![tactic(auto)]

ghost use Rattle.std.specs.Prelude.{◌≡◌, true, false, ℕ, ◌+◌, ◌*◌, ◌^◌, ◌≤◌, ◌<◌, Float};
ghost use Rattle.std.specs.Float.{binary64};
ghost use Rattle.std.specs.Float.Ieee.{of_bits};
ghost use Rattle.std.specs.Float.Ieee.Exact.{HasValue};
ghost use Rattle.root.specs.Root.{IsRoot, IsNear, sqrt};
ghost use Rattle.root.specs.Guess.{bits_of, first_of, nearer, guess};

// The bit pattern of an x above zero, and that of 1 for any other.
fn bits_of(x: f64) -> u64
    ensures { result ≡ bits_of x }
{
    if x > 0.0 {
        return f64::to_bits(x);
    }
    0x3ff0_0000_0000_0000
}

// A first guess at 1 / √x, by the bit pattern.
fn first_of(x: f64) -> f64
    ensures { result ≡ first_of x }
{
    f64::from_bits(0x5fe6_eb50_c7b5_37a9 - (bits_of(x) >> 1) % 0x4000_0000_0000_0000)
}

// A step of Newton's method for 1 / √x, where h is x / 2.
fn nearer(h: f64, y: f64) -> f64
    ensures { result ≡ nearer h y }
{
    y * 1.5 - h * y * (y * y)
}

// A number near the root of x, for `root_by` to check: three steps of Newton's method from a first guess at 1 / √x, and one from
// the rest, x less the square of g. A loop that calls it is vectorised.
pub fn guess(x: f64) -> f64
    ensures { result ≡ guess x }
{
    let h = x * 0.5;
    let y = nearer(h, nearer(h, nearer(h, first_of(x))));
    // g is near √x, and g = high + low, where high has 26 digits, so that high * high is exact
    let g = x * y;
    let t = g * 134217729.0;
    let high = t - (t - g);
    let low = g - high;
    let rest = x - high * high - (high + high) * low - low * low;
    g + rest * (y * 0.5)
}

// The 53 digits of a number, whichever they are.
fn digits_of(z: f64) -> u64
    ensures { (2 ^ 52 ≤ result) × (result < 2 ^ 53) }
{
    if z == z {
        f64::to_bits(z) % 0x10_0000_0000_0000 + 0x10_0000_0000_0000
    } else {
        0x10_0000_0000_0000
    }
}

// Whether the root of a * 2^54 lies within 1 of 2 * c, strictly. What is left of a * 2^54 beside the square of 2 * c - 1 is
// found by the halves of 2 * c - 1; where a step would not fit, the answer is no.
fn is_root(a: u64, c: u64) -> bool
    requires { (a < 2 ^ 54) × (2 ^ 52 ≤ c) × (c < 2 ^ 53) }
    ensures { result ≡ true → IsNear (a * 2 ^ 54) c }
{
    let t = c * 2 - 1;
    let s = t / 0x800_0000;
    let l = t % 0x800_0000;
    let square = s * s;
    if square > a {
        return false;
    }
    let r = a - square;
    if r >= 0x2000_0000 {
        return false;
    }
    let n = r * 0x800_0000;
    let w = s * l * 2;
    if w > n {
        return false;
    }
    let v = n - w;
    if v >= 0x10_0000_0000 {
        return false;
    }
    let z = v * 0x800_0000;
    let k = l * l;
    if k >= z {
        return false;
    }
    z - k < c * 8
}

// The whole part of the root of a * 2^54, digit by digit: `rest` is what the digits so far leave.
fn root_by_digits(a: u64) -> u64
    requires { a < 2 ^ 54 }
    ensures { IsRoot (a * 2 ^ 54) result }
{
    let mut root: u64 = 0;
    let mut rest: u64 = 0;
    let mut left: u64 = a;
    for _turn in 0..54u64 {
        let next = rest * 4 + left / 0x10_0000_0000_0000;
        left = left % 0x10_0000_0000_0000 * 4;
        let trial = root * 4 + 1;
        if trial <= next {
            rest = next - trial;
            root = root * 2 + 1;
        } else {
            rest = next;
            root = root * 2;
        }
    }
    root
}

// The root of the x that is m * 2 ^ (i - 1126), for an m of 53 digits, by digits c that may be the root's.
fn of_digits(m: u64, i: u64, c: u64) -> f64
    requires { (2 ^ 52 ≤ m) × (m < 2 ^ 53) × (i ≤ 2097) × (2 ^ 52 ≤ c) × (c < 2 ^ 53) }
    ensures { (x : Float) (u : ℕ) → HasValue x false u (2 ^ 1074) → u * 2 ^ 52 ≡ m * 2 ^ i → result ≡ sqrt binary64 x }
{
    let a = m << (i % 2);
    if is_root(a, c) {
        f64::from_bits((i / 2 + 485) * 0x10_0000_0000_0000 + c)
    } else {
        let q = root_by_digits(a);
        f64::from_bits((i / 2 + 485) * 0x10_0000_0000_0000 + (q + 1) / 2)
    }
}

// The root of the subnormal x whose bit pattern is b: its digits are moved up, and the guess is made at m << (i % 2).
fn of_low(b: u64) -> f64
    requires { (0 < b) × (b < 2 ^ 52) }
    ensures { result ≡ sqrt binary64 (of_bits binary64 b) }
{
    let k = (u64::leading_zeros(b) - 11) as u64;
    let m = b << k;
    let i = 52 - k;
    let near = f64::from_bits(m + (1074 + i % 2) * 0x10_0000_0000_0000);
    of_digits(m, i, digits_of(guess(near)))
}

// The root of the normal x whose bit pattern is b, by a number z that may be it.
fn of_normal(b: u64, z: f64) -> f64
    requires { (2 ^ 52 ≤ b) × (b < 0x7ff0_0000_0000_0000) }
    ensures { result ≡ sqrt binary64 (of_bits binary64 b) }
{
    of_digits(
        b % 0x10_0000_0000_0000 + 0x10_0000_0000_0000,
        b / 0x10_0000_0000_0000 + 51,
        digits_of(z),
    )
}

// The square root of x, whatever z is; fast where z is the root already.
pub fn root_by(x: f64, z: f64) -> f64
    ensures { result ≡ sqrt binary64 x }
{
    if x > 0.0 {
        let b = f64::to_bits(x);
        if b < 0x7ff0_0000_0000_0000 {
            if b < 0x10_0000_0000_0000 {
                return of_low(b);
            }
            return of_normal(b, z);
        }
        return x;
    }
    if x == 0.0 { x } else { 0.0 / 0.0 }
}

// The square root of x as IEEE 754 has it: of a zero that zero, and NaN below zero.
pub fn sqrt(x: f64) -> f64
    ensures { result ≡ sqrt binary64 x }
{
    root_by(x, guess(x))
}
