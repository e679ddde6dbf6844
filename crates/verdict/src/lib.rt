// The judge of house files: a file's bytes in, one line out, which says whether its curves are a sound list for its marks.
#![tactic(auto)]

ghost use Rattle.std.specs.Prelude.{◌≡◌, ◌≤◌, length};
ghost use Rattle.std.specs.Float.{binary64};
ghost use Rattle.std.specs.Float.Ieee.{of_bits};
ghost use Rattle.float.specs.Refusal.{answer};
ghost use Rattle.text.specs.Put.{Put};
ghost use Rattle.lines.specs.Handed.{shown, handed, hand_over};
ghost use Rattle.ring.specs.declared.Outline.TheVariants as outline;
ghost use Rattle.checker.specs.Check.{checked_answer, check_of};
ghost use Rattle.desk.specs.Desk.{floats};
ghost use Rattle.verdict.specs.Verdict.{place_line, fault_line, verdict_in, judgement_of};

use checker::{Checked, Fault, Place, check};
use desk::{copy_floats, open_file};
use float::of_bits;
use float::refusal::Refusal;
use form::{Form, width, worsts_for};
use lines::{hand_over, put_one, put_refusal, put_two};
use ring::Outline;

// Room for the longest line.
fn line_room() -> [u8; 64]
    ensures { 64 ≡ length result }
{
    [0; 64]
}

// The line of a fault: its letter, the curve's number and the mark's.
fn put_place(text: &mut [u8], word: &[u8], p: Place) -> usize
    requires { (length word.now ≤ 8) × (64 ≤ length text.old) }
    ensures { (result ≤ 64) × Put text.old 0 (place_line word.now p) text.new result }
{
    put_two(text, word, p.curve as u64, p.mark as u64)
}

// The line of any fault.
fn put_fault(text: &mut [u8], fault: Fault) -> usize
    requires { 64 ≤ length text.old }
    ensures { (result ≤ 64) × Put text.old 0 (fault_line fault) text.new result }
{
    match fault {
        Fault::A(p) => put_place(text, b"FAULT A ", p),
        Fault::B(p) => put_place(text, b"FAULT B ", p),
        Fault::C(p) => put_place(text, b"FAULT C ", p),
        Fault::D(p) => put_place(text, b"FAULT D ", p),
        Fault::E(p) => put_place(text, b"FAULT E ", p),
    }
}

// The line of what the checker said of n marks and k curves.
fn put_verdict(text: &mut [u8], n: usize, k: usize, checked: Checked) -> usize
    requires { 64 ≤ length text.old }
    ensures { (result ≤ 64) × Put text.old 0 (shown (verdict_in n k (checked_answer checked))) text.new result }
{
    match checked {
        Checked::Passed => put_two(text, b"PASSED ", n as u64, k as u64),
        Checked::Faulty(fault) => put_fault(text, fault),
        Checked::Refused(q) => put_refusal(text, q.number()),
    }
}

// The checker on the numbers of a file.
fn check_file(
    form: Form,
    tolerance: u64,
    marks: &[u64],
    k: usize,
    firsts: &[u32],
    worsts: &[u32],
    curves: &[u64],
    params: &[u64],
) -> Checked
    requires { (length marks.now ≤ 8192) × ((length curves.now ≤ 36855) × (length params.now ≤ 4096)) }
    ensures { checked_answer result ≡ check_of outline.Open form (floats marks.now) (of_bits binary64 tolerance) k (floats curves.now) firsts.now worsts.now (floats params.now) }
{
    let mut ms = desk::mark_floats();
    let mut cs = desk::curve_floats();
    let mut ps = desk::param_floats();
    copy_floats(marks, &mut ms);
    copy_floats(curves, &mut cs);
    copy_floats(params, &mut ps);
    let m = marks.len();
    let c = curves.len();
    let p = params.len();
    check(
        Outline::Open,
        form,
        &ms[..m],
        of_bits(tolerance),
        k,
        &cs[..c],
        firsts,
        worsts,
        &ps[..p],
    )
}

// The line for any bytes.
fn put_judgement(file: &[u8], text: &mut [u8]) -> usize
    requires { 64 ≤ length text.old }
    ensures { (result ≤ 64) × Put text.old 0 (judgement_of file.now) text.new result }
{
    let mut marks = desk::mark_patterns();
    let mut firsts = desk::first_marks();
    let mut worsts = desk::first_marks();
    let mut curves = desk::curve_patterns();
    let mut params = desk::param_patterns();
    let read = open_file(
        file,
        &mut marks,
        &mut firsts,
        &mut worsts,
        &mut curves,
        &mut params,
    );
    let found = match read {
        Ok(found) => found,
        Err(q) => return put_refusal(text, q.number()),
    };
    let form = found.form;
    let n = found.marks;
    let k = found.curves;
    if k == 0 {
        return put_one(text, b"NO CURVES ", n as u64);
    }
    let m = 2 * n;
    let w = worsts_for(form, k);
    let c = width(form) * k;
    let checked = check_file(
        form,
        found.tolerance,
        &marks[..m],
        k,
        &firsts[..k],
        &worsts[..w],
        &curves[..c],
        &params[..n],
    );
    put_verdict(text, n, k, checked)
}

// Judges a house file in the first bytes of `out`, by one line: whether its curves are a sound list, or the first fault, or that it has none, or why it is refused. Where
// `out` is too short for the line the call itself is refused, and `out` stays as it is.
pub fn judge_file(file: &[u8], out: &mut [u8]) -> Result<usize, Refusal>
    ensures { handed (answer result) out.new ≡ hand_over (judgement_of file.now) out.old }
{
    let mut text = line_room();
    let size = put_judgement(file, &mut text);
    hand_over(&text[..size], out)
}
