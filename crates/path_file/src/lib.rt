// A house file's fit as path data: the file's bytes in, one line out.
#![tactic(auto)]

ghost use Rattle.std.specs.Prelude.{◌≡◌, ◌+◌, ◌*◌, ◌≤◌, length};
ghost use Rattle.text.specs.Put.{Put};
ghost use Rattle.float.specs.Refusal.{answer};
ghost use Rattle.fit.specs.Fit.{ending, fit_of};
ghost use Rattle.house.specs.Limits.{mark_bytes, marks_at};
ghost use Rattle.house.specs.Held.{file_at};
ghost use Rattle.form.specs.declared.Form.TheVariants as forms;
ghost use Rattle.desk.specs.Desk.{zeros, no_marks};
ghost use Rattle.lines.specs.Handed.{shown, handed, hand_over};
ghost use Rattle.path_file.specs.PathFile.{cutting_for, ring_fit, line_of, fit_path, path_file_of};
ghost use Rattle.path_file.specs.Left.{Left};

use export::export_path;
use file_fit::{copy_numbers, mark_room};
use float::of_bits;
use float::refusal::Refusal;
use form::Form;
use house::bytes::eight;
use house::sizes;
use lines::{hand_over, put_refusal};
use packed_heads::find_held;
use text::put_bytes;

// The most bytes that a file has.
pub const MOST_BYTES: usize = 65536;

// The most marks that are taken.
const MOST_TAKEN: usize = 512;

// Zeros for 512 curves. A function hides from its callers' proofs how the array is made.
fn curve_room() -> [f64; 4608]
    ensures { (4608 ≡ length result) × (result ≡ zeros 4608) }
{
    [0.0; 4608]
}

// Zeros for 512 first marks; and for the worst marks, which are as many.
fn first_room() -> [u32; 512]
    ensures { (512 ≡ length result) × (result ≡ no_marks 512) }
{
    [0; 512]
}

// Zeros for 513 parameters.
fn param_room() -> [f64; 513]
    ensures { (513 ≡ length result) × (result ≡ zeros 513) }
{
    [0.0; 513]
}

// Room for the longest line.
fn text_room() -> [u8; 47138]
    ensures { 47138 ≡ length result }
{
    [0; 47138]
}

// The ring fit or the joined one.
fn fit_marks(
    ring: bool,
    marks: &[f64],
    tolerance: f64,
    curves: &mut [f64],
    firsts: &mut [u32],
    worsts: &mut [u32],
    params: &mut [f64],
) -> Result<usize, Refusal>
    ensures { ending (answer result) curves.new firsts.new worsts.new params.new ≡ fit_of (cutting_for ring) marks.now tolerance curves.old firsts.old worsts.old params.old }
{
    if ring {
        return fit::fit_ring(marks, tolerance, curves, firsts, worsts, params);
    }
    fit::fit_joined(marks, tolerance, curves, firsts, worsts, params)
}

// Fits the outline of a file of n marks; only the curves are asked for.
fn fit_file(file: &[u8], n: usize, ring: bool, curves: &mut [f64]) -> Result<usize, Refusal>
    requires { (marks_at + mark_bytes * n ≤ length file.now) × ((n ≤ 512) × (curves.old ≡ zeros 4608)) }
    ensures { Left (ring_fit ring (file_at file.now forms.Eight n 0)) (answer result) curves.new }
{
    let mut marks = mark_room();
    let mut firsts = first_room();
    let mut worsts = first_room();
    let mut params = param_room();
    let m = sizes::MARK_NUMBERS * n;
    copy_numbers(file, sizes::MARKS_AT, m, &mut marks);
    let tolerance = of_bits(eight(file, sizes::HEAD_BYTES));
    fit_marks(
        ring,
        &marks[..m],
        tolerance,
        curves,
        &mut firsts,
        &mut worsts,
        &mut params,
    )
}

// The path data of k curves and a newline, or the line of export's refusal.
fn put_line(curves: &[f64], k: usize, ring: bool, text: &mut [u8]) -> usize
    requires { (4608 ≡ length curves.now) × (47138 ≤ length text.old) }
    ensures { (result ≤ 47138) × Put text.old 0 (shown (line_of ring curves.now k)) text.new result }
{
    match export_path(Form::Nine, curves, k, ring, text) {
        Ok(size) => put_bytes(text, size, b"\n"),
        Err(q) => put_refusal(text, q.number()),
    }
}

// The line for a file of n marks that is well formed.
fn put_fit(file: &[u8], n: usize, ring: bool, text: &mut [u8]) -> usize
    requires { (marks_at + mark_bytes * n ≤ length file.now) × ((n ≤ 512) × (47138 ≤ length text.old)) }
    ensures { (result ≤ 47138) × Put text.old 0 (shown (fit_path ring (ring_fit ring (file_at file.now forms.Eight n 0)))) text.new result }
{
    let mut curves = curve_room();
    match fit_file(file, n, ring, &mut curves) {
        Ok(k) => put_line(&curves, k, ring, text),
        Err(q) => put_refusal(text, q.number()),
    }
}

// The line for any bytes.
fn put_path(file: &[u8], ring: bool, text: &mut [u8]) -> usize
    requires { 47138 ≤ length text.old }
    ensures { (result ≤ 47138) × Put text.old 0 (path_file_of ring file.now) text.new result }
{
    if file.len() > MOST_BYTES {
        return put_refusal(text, Refusal::BadlyFormed.number());
    }
    let Some(held) = find_held(file) else {
        return put_refusal(text, Refusal::BadlyFormed.number());
    };
    let n = held.layout.marks;
    if n > MOST_TAKEN {
        return put_refusal(text, Refusal::TooMany.number());
    }
    put_fit(file, n, ring, text)
}

// Writes the joined fit of a house file, packed or not, or its ring fit, as path data and a newline into the first bytes of `out`; or one line that names a refusal. Where `out` is
// too short the call itself is refused, and `out` stays as it is.
pub fn path_file(file: &[u8], ring: bool, out: &mut [u8]) -> Result<usize, Refusal>
    ensures { handed (answer result) out.new ≡ hand_over (path_file_of ring file.now) out.old }
{
    let mut text = text_room();
    let size = put_path(file, ring, &mut text);
    hand_over(&text[..size], out)
}
