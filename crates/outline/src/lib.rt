// The listing of an outline: a house file's bytes in, the whole text out.
#![tactic(auto)]

ghost use Rattle.std.specs.Prelude.{◌≡◌, ◌+◌, ◌*◌, ◌≤◌, length};
ghost use Rattle.float.specs.Refusal.{answer};
ghost use Rattle.text.specs.Put.{Put};
ghost use Rattle.house.specs.Limits.{mark_bytes, marks_at};
ghost use Rattle.house.specs.Held.{file_at};
ghost use Rattle.form.specs.declared.Form.TheVariants as form;
ghost use Rattle.desk.specs.Desk.{zeros, no_marks};
ghost use Rattle.lines.specs.Handed.{shown, handed, hand_over};
ghost use Rattle.outline.specs.Outline.{fit_lines, roomy_fit, listing_of};

use file_fit::fit_file;
use float::refusal::Refusal;
use lines::{hand_over, put_outline, put_refusal};
use packed_heads::find_held;

// The most bytes that a listed file has.
pub const MOST_BYTES: usize = 65536;

// The most marks that are listed.
const MOST_LISTED: usize = 512;

// Zeros for 511 curves. A function hides from its callers' proofs how the array is made.
fn curve_room() -> [f64; 4599]
    ensures { (4599 ≡ length result) × (result ≡ zeros 4599) }
{
    [0.0; 4599]
}

// Zeros for 511 first marks.
fn first_room() -> [u32; 511]
    ensures { (511 ≡ length result) × (result ≡ no_marks 511) }
{
    [0; 511]
}

// Room for the longest text.
fn text_room() -> [u8; 78233]
    ensures { 78233 ≡ length result }
{
    [0; 78233]
}

// The text for a file of n marks that is well formed.
fn put_fit(file: &[u8], n: usize, text: &mut [u8]) -> usize
    requires { (marks_at + mark_bytes * n ≤ length file.now) × ((n ≤ 512) × (78233 ≤ length text.old)) }
    ensures { (result ≤ 78233) × Put text.old 0 (shown (fit_lines n (roomy_fit (file_at file.now form.Eight n 0)))) text.new result }
{
    let mut curves = curve_room();
    let mut firsts = first_room();
    match fit_file(file, n, &mut curves, &mut firsts) {
        Ok(k) => put_outline(text, n, &firsts, &curves, k),
        Err(q) => put_refusal(text, q.number()),
    }
}

// The text for any bytes. It has at most 50 bytes, and 153 for each of at most 511 curves.
fn put_listing(file: &[u8], text: &mut [u8]) -> usize
    requires { 78233 ≤ length text.old }
    ensures { (result ≤ 78233) × Put text.old 0 (listing_of file.now) text.new result }
{
    if file.len() > MOST_BYTES {
        return put_refusal(text, Refusal::BadlyFormed.number());
    }
    let Some(held) = find_held(file) else {
        return put_refusal(text, Refusal::BadlyFormed.number());
    };
    let n = held.layout.marks;
    if n < 2 {
        return put_refusal(text, Refusal::TooFew.number());
    }
    if n > MOST_LISTED {
        return put_refusal(text, Refusal::TooMany.number());
    }
    put_fit(file, n, text)
}

// Lists the outline of a house file, packed or not, in the first bytes of `out`: a line for the counts and one for each curve, or one line that names a
// refusal. Where `out` is too short for the text the call itself is refused, and `out` stays as it is.
pub fn list_outline(file: &[u8], out: &mut [u8]) -> Result<usize, Refusal>
    ensures { handed (answer result) out.new ≡ hand_over (listing_of file.now) out.old }
{
    let mut text = text_room();
    let size = put_listing(file, &mut text);
    hand_over(&text[..size], out)
}
