// The text of a number with at most three decimal places, in lent bytes, and how long it is. Each call that puts answers where the text ends.
#![tactic(auto)]

ghost use Rattle.std.specs.Prelude.{◌≡◌, ◌+◌, ◌<◌, ◌≤◌, length};
ghost use Rattle.text.specs.Put.{Put};
ghost use Rattle.path.specs.Decimals.{figure, places_text, sign_text, decimal_text};

use path::Decimal;
use text::{decimal_len, put_bytes, put_decimal};

// ---- how long

// How long the point and the digits behind it are.
fn places_length(r: u64) -> usize
    ensures { (result ≡ length (places_text r)) × (result ≤ 4) }
{
    if r == 0 {
        return 0;
    }
    if r % 100 == 0 {
        return 2;
    }
    if r % 10 == 0 {
        return 3;
    }
    4
}

// How long the sign is.
fn sign_length(negative: bool) -> usize
    ensures { (result ≡ length (sign_text negative)) × (result ≤ 1) }
{
    if negative {
        return 1;
    }
    0
}

// How long a number's text is.
pub fn length_of(d: Decimal) -> usize
    ensures { (result ≡ length (decimal_text d)) × (result ≤ 25) }
{
    sign_length(d.negative)
        + (decimal_len(d.thousandths / 1000) + places_length(d.thousandths % 1000))
}

// ---- the text

// The character of a digit.
fn figure(d: u64) -> u8
    requires { d < 10 }
    ensures { result ≡ figure d }
{
    (48 + d) as u8
}

// Puts the point and the digits behind it, of r thousandths, without zeros at the end.
fn put_places(out: &mut [u8], at: usize, r: u64) -> usize
    requires { (r < 1000) × (at + length (places_text r) ≤ length out.old) }
    ensures { Put out.old at (places_text r) out.new result }
{
    if r == 0 {
        return at;
    }
    if r % 100 == 0 {
        return put_bytes(out, at, &[b'.', figure(r / 100)]);
    }
    let last = r % 10;
    if last == 0 {
        return put_bytes(out, at, &[b'.', figure(r / 100), figure(r / 10 % 10)]);
    }
    put_bytes(
        out,
        at,
        &[b'.', figure(r / 100), figure(r / 10 % 10), figure(last)],
    )
}

// Puts the sign, if it is minus.
fn put_sign(out: &mut [u8], at: usize, negative: bool) -> usize
    requires { at + length (sign_text negative) ≤ length out.old }
    ensures { Put out.old at (sign_text negative) out.new result }
{
    if negative {
        return put_bytes(out, at, b"-");
    }
    at
}

// Puts a number.
pub fn put(out: &mut [u8], at: usize, d: Decimal) -> usize
    requires { at + length (decimal_text d) ≤ length out.old }
    ensures { Put out.old at (decimal_text d) out.new result }
{
    let whole = put_sign(out, at, d.negative);
    let places = put_decimal(out, whole, d.thousandths / 1000);
    put_places(out, places, d.thousandths % 1000)
}
