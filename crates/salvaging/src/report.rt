// The lines of the list, and how long they are, put into lent bytes that have room for them: each call answers where its text ends.
ghost use Rattle.std.specs.Prelude.{◌≡◌, ◌+◌, ◌≤◌, length};
ghost use Rattle.text.specs.Put.{Put};
ghost use Rattle.sieve.specs.Sieve.{drop_by};
ghost use Rattle.salvaging.specs.Report.{cause_word, count_line, drop_line, drop_lines};

use sieve::{Cause, Fate};
use text::{decimal_len, put_bytes, put_decimal};

// How long the first line is.
pub fn count_len(kept: usize, dropped: usize) -> usize
    ensures { (result ≤ 55) × (result ≡ length (count_line kept dropped)) }
{
    15 + decimal_len(kept as u64) + decimal_len(dropped as u64)
}

// The word of a cause.
fn put_cause(out: &mut [u8], at: usize, cause: Cause) -> usize
    requires { at + 5 ≤ length out.old }
    ensures { Put out.old at (cause_word cause) out.new result }
{
    match cause {
        Cause::Range => put_bytes(out, at, b"RANGE"),
        Cause::Equal => put_bytes(out, at, b"EQUAL"),
    }
}

// A dropped mark's number and the cause, on a line.
fn put_drop(out: &mut [u8], at: usize, i: usize, cause: Cause) -> usize
    requires { at + length (drop_line i cause) ≤ length out.old }
    ensures { Put out.old at (drop_line i cause) out.new result }
{
    let number = put_bytes(out, at, b"DROP ");
    let blank = put_decimal(out, number, i as u64);
    let word = put_bytes(out, blank, b" ");
    let end = put_cause(out, word, cause);
    put_bytes(out, end, b"\n")
}

// How long the line of mark i is: none, where it is kept. Both causes' words have five letters.
pub fn fate_len(i: usize, fate: Fate) -> usize
    ensures { (result ≤ 32) × (result ≡ length (drop_lines (drop_by i fate))) }
{
    match fate {
        Fate::Kept => 0,
        Fate::Dropped(_) => 12 + decimal_len(i as u64),
    }
}

// The line of mark i, where it is dropped.
pub fn put_fate(out: &mut [u8], at: usize, i: usize, fate: Fate) -> usize
    requires { at + length (drop_lines (drop_by i fate)) ≤ length out.old }
    ensures { Put out.old at (drop_lines (drop_by i fate)) out.new result }
{
    match fate {
        Fate::Kept => at,
        Fate::Dropped(cause) => put_drop(out, at, i, cause),
    }
}
