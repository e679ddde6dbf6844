// Numbers and the space between them at a place of a text, as SVG 1.1's path grammar has them. A place past the end reads as a byte that the grammar
// does not have, so nothing is asked of a place.
#![tactic(auto)]

ghost use Rattle.std.specs.Prelude.{◌≡◌, suc, ◌+◌, ◌-◌, ◌*◌, ◌^◌, ◌≤◌, get_or, drop};
ghost use Rattle.path.specs.Decimals.{most};
ghost use Rattle.path.specs.Numbers.{is_space, is_digit, leading, number, unsigned};
ghost use Rattle.path.specs.Grammar.{apart};
ghost use Rattle.numerals.specs.Numerals.{cap, digits_of, numeral_of, numeral_answer, read};

use path::{Decimal, MOST};

// A number and the place behind it.
#[derive(Clone, Copy)]
pub struct Numeral {
    pub decimal: Decimal,
    pub rest: usize,
}

// What a row of digits makes, up to one more than MOST, and the place behind it.
#[derive(Clone, Copy)]
pub struct Digits {
    pub value: u64,
    pub end: usize,
}

// The byte at a place, and 0 past the end.
pub fn byte_at(text: &[u8], i: usize) -> u8
    ensures { result ≡ get_or text.now i 0 }
{
    text.get(i).copied().unwrap_or(0)
}

// Whether a byte is white space.
fn is_space(b: u8) -> bool
    ensures { result ≡ is_space b }
{
    (b == b' ') | ((b == b'\t') | ((b == b'\n') | (b == b'\r')))
}

// Whether a byte is a digit.
fn is_digit(b: u8) -> bool
    ensures { result ≡ is_digit b }
{
    (b'0' <= b) & (b <= b'9')
}

// The place behind the white space.
pub fn past_space(text: &[u8], at: usize) -> usize
    ensures { result ≡ at + leading is_space (drop at text.now) }
{
    let mut i = at;
    // A while: past the end a byte is read that is no space, so the walk has no end of its own.
    while is_space(byte_at(text, i)) {
        i += 1;
    }
    i
}

// White space with at most one comma in it.
pub fn apart_at(text: &[u8], at: usize) -> usize
    ensures { drop result text.now ≡ apart (drop at text.now) }
{
    let comma = past_space(text, at);
    if byte_at(text, comma) == b',' {
        return past_space(text, comma + 1);
    }
    comma
}

// The lesser of a count and one more than MOST.
fn no_more(n: u64) -> u64
    ensures { result ≡ cap n }
{
    if n <= MOST {
        return n;
    }
    MOST + 1
}

// A digit behind others that made v.
fn grown(v: u64, b: u8) -> u64
    requires { (v ≤ suc most) × (48 ≤ b) }
    ensures { result ≡ cap (10 * v + (b - 48)) }
{
    no_more(10 * v + ((b - b'0') as u64))
}

// The digits from a place on, behind others that made value.
fn digits_from(text: &[u8], at: usize, value: u64) -> Digits
    requires { value ≤ suc most }
    ensures { result ≡ digits_of text.now at value }
{
    let mut i = at;
    let mut v = value;
    // A while: past the end a byte is read that is no digit, so the walk has no end of its own.
    while is_digit(byte_at(text, i)) {
        v = grown(v, byte_at(text, i));
        i += 1;
    }
    Digits { value: v, end: i }
}

// How many thousandths the last of so many decimal places counts.
fn scale(places: usize) -> u64
    requires { places ≤ 3 }
    ensures { result ≡ 10 ^ (3 - places) }
{
    match places {
        0 => 1000,
        1 => 100,
        2 => 10,
        _ => 1,
    }
}

// The number that so many digits before the point and behind it make, if they make one. Of zero no sign is kept.
fn numeral_of(
    negative: bool,
    value: u64,
    whole: usize,
    places: usize,
    rest: usize,
) -> Option<Numeral>
    requires { value ≤ suc most }
    ensures { result ≡ numeral_of negative value whole places rest }
{
    if ((0 < whole) | (0 < places)) & (places <= 3) {
        let thousandths = no_more(value * scale(places));
        let decimal = Decimal {
            negative: negative & (0 < thousandths),
            thousandths,
        };
        return Some(Numeral { decimal, rest });
    }
    None
}

// The number behind its sign, if there is one.
fn unsigned_at(text: &[u8], at: usize, negative: bool) -> Option<Numeral>
    ensures { numeral_answer text.now result ≡ read (unsigned negative (drop at text.now)) }
{
    let whole = digits_from(text, at, 0);
    let point = whole.end;
    if byte_at(text, point) == b'.' {
        let start = point + 1;
        let all = digits_from(text, start, whole.value);
        return numeral_of(negative, all.value, point - at, all.end - start, all.end);
    }
    numeral_of(negative, whole.value, point - at, 0, point)
}

// The number at a place, if there is one.
pub fn number_at(text: &[u8], at: usize) -> Option<Numeral>
    ensures { numeral_answer text.now result ≡ read (number (drop at text.now)) }
{
    let sign = byte_at(text, at);
    if sign == b'+' {
        return unsigned_at(text, at + 1, false);
    }
    if sign == b'-' {
        return unsigned_at(text, at + 1, true);
    }
    unsigned_at(text, at, false)
}
