// Little-endian numbers in bytes, read and written.
ghost use Rattle.std.specs.Prelude.{◌≡◌, ◌++◌, ◌+◌, ◌*◌, ◌^◌, ◌<◌, ◌≤◌, length, take, drop};
ghost use Rattle.std.proofs.lemmas.List.Edits.{sets};
ghost use Rattle.house.specs.Limits.{length_field, kind_field, mark_field, number_field, head_bytes};
ghost use Rattle.house.specs.Bytes.{num, words, le, les};
ghost use Rattle.float.specs.Slices.{written};

use super::sizes;
use super::sizes::Field;

// A byte as a number.
pub fn wide(x: u8) -> u64
    ensures { (result ≡ x) × (result < 256) }
{
    x as u64
}

// The number in the two bytes at `at`.
pub fn two(b: &[u8], at: usize) -> u64
    requires { at + 2 ≤ length b.now }
    ensures { (result ≡ num 2 b.now at) × (result < 2 ^ 16) }
{
    let low = wide(b[at]);
    let high = wide(b[at + 1]);
    low + 256 * high
}

// The number in the four bytes at `at`.
pub fn four(b: &[u8], at: usize) -> u64
    requires { at + 4 ≤ length b.now }
    ensures { (result ≡ num 4 b.now at) × (result < 2 ^ 32) }
{
    let low = two(b, at);
    let high = two(b, at + 2);
    low + 0x1_0000 * high
}

// The mark number at `at`.
pub fn mark_number(b: &[u8], at: usize, field: Field) -> u64
    requires { at + mark_field field ≤ length b.now }
    ensures { (result ≡ num (mark_field field) b.now at) × (result < 2 ^ 32) }
{
    match field {
        Field::Two => two(b, at),
        Field::Four => four(b, at),
    }
}

// The number in the eight bytes at `at`.
pub fn eight(b: &[u8], at: usize) -> u64
    requires { at + 8 ≤ length b.now }
    ensures { result ≡ num 8 b.now at }
{
    let low = four(b, at);
    let high = four(b, at + 4);
    low + 0x1_0000_0000 * high
}

// The row of n numbers at `at`, into the first n places.
pub fn copy_words(b: &[u8], at: usize, n: usize, out: &mut [u64])
    requires { (at + number_field * n ≤ length b.now) × (n ≤ length out.old) }
    ensures { out.new ≡ written (words n (drop at b.now)) out.old }
{
    for i in 0..n {
        out[i] = eight(b, at + sizes::NUMBER_FIELD * i);
    }
}

// The lowest two bytes of x, at `at`.
pub fn put_two(out: &mut [u8], at: usize, x: u64)
    requires { at + 2 ≤ length out.old }
    ensures { out.new ≡ sets out.old at (le 2 x) }
{
    out[at] = (x % 256) as u8;
    out[at + 1] = (x / 256 % 256) as u8;
}

// The lowest four bytes of x, at `at`.
pub fn put_four(out: &mut [u8], at: usize, x: u64)
    requires { at + 4 ≤ length out.old }
    ensures { out.new ≡ sets out.old at (le 4 x) }
{
    put_two(out, at, x);
    put_two(out, at + 2, x / 0x1_0000);
}

// The mark number x, at `at`.
pub fn put_mark(out: &mut [u8], at: usize, field: Field, x: u64)
    requires { at + mark_field field ≤ length out.old }
    ensures { out.new ≡ sets out.old at (le (mark_field field) x) }
{
    match field {
        Field::Two => put_two(out, at, x),
        Field::Four => put_four(out, at, x),
    }
}

// A record's length and kind, at `at`.
pub fn put_head(out: &mut [u8], at: usize, size: u64, kind: u64)
    requires { at + head_bytes ≤ length out.old }
    ensures { out.new ≡ sets out.old at (le length_field size ++ le kind_field kind) }
{
    put_four(out, at, size);
    put_two(out, at + sizes::LENGTH_FIELD, kind);
}

// The eight bytes of x, at `at`.
pub fn put_eight(out: &mut [u8], at: usize, x: u64)
    requires { at + 8 ≤ length out.old }
    ensures { out.new ≡ sets out.old at (le 8 x) }
{
    put_four(out, at, x);
    put_four(out, at + 4, x / 0x1_0000_0000);
}

// The first n numbers of xs as a row, at `at`.
pub fn put_words(out: &mut [u8], at: usize, xs: &[u64], n: usize)
    requires { (at + number_field * n ≤ length out.old) × (n ≤ length xs.now) }
    ensures { out.new ≡ sets out.old at (les (take n xs.now)) }
{
    for i in 0..n {
        put_eight(out, at + sizes::NUMBER_FIELD * i, xs[i]);
    }
}
