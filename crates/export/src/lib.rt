// Export: a list of curves as path data, in lent bytes. The text is measured before a byte is put, so that where it has no room the bytes stay as they are.
#![tactic(auto)]

ghost use Rattle.std.specs.Prelude.{◌≡◌, ◌+◌, ◌*◌, ◌≤◌, length};
ghost use Rattle.float.specs.Refusal.{answer};
ghost use Rattle.form.specs.Form.{width};
ghost use Rattle.faults.specs.Tests.{curve_at};
ghost use Rattle.lines.specs.Handed.{handed};
ghost use Rattle.path.specs.Range.{within, point_within, curve_within, every};
ghost use Rattle.export.specs.Export.{whole_in, meets, export_of};
ghost use Rattle.export.specs.Tests.{passes, ahead};

use faults::{curve_at, is_finite, is_same};
use float::refusal::Refusal;
use form::Form;
use path_text::{path_length, put_path};
use plane::{Curve, Point};

// ---- the tests

// Whether a number is not above 1,000,000,000 in magnitude.
fn is_within(x: f64) -> bool
    ensures { result ≡ within x }
{
    float::abs(x) <= 1000000000.0
}

// Whether both coordinates are not.
fn point_within(p: Point) -> bool
    ensures { result ≡ point_within p }
{
    is_within(p.x) & is_within(p.y)
}

// Whether all four points are not.
fn curve_within(c: Curve) -> bool
    ensures { result ≡ curve_within c }
{
    point_within(c.start) & (point_within(c.cp1) & (point_within(c.cp2) & point_within(c.end)))
}

// What is asked of every curve: that its numbers are finite, that they are not too large, that it ends bit for bit where the next begins.
// An enum and no closure: which curves a test looks at is a word of the definitions, and one loop has one proof.
#[derive(Clone, Copy)]
enum Test {
    Finite,
    Within,
    Joined,
}

// Whether curve i passes.
fn is_passed(test: Test, form: Form, curves: &[f64], i: usize) -> bool
    requires { width form * (i + ahead test) + width form ≤ length curves.now }
    ensures { result ≡ passes test (curve_at form curves.now) i }
{
    match test {
        Test::Finite => is_finite(curve_at(form, curves, i)),
        Test::Within => curve_within(curve_at(form, curves, i)),
        Test::Joined => {
            let left = curve_at(form, curves, i);
            let right = curve_at(form, curves, i + 1);
            is_same(left.end, right.start)
        }
    }
}

// Whether the first n curves pass.
fn all_pass(test: Test, form: Form, curves: &[f64], n: usize) -> bool
    requires { width form * (n + ahead test) ≤ length curves.now }
    ensures { result ≡ every n (passes test (curve_at form curves.now)) }
{
    let mut all = true;
    for i in 0..n {
        all = all & is_passed(test, form, curves, i);
    }
    all
}

// How many of the records that a list is said to have stand whole in its slice.
fn whole_in(form: Form, numbers: usize, count: usize) -> usize
    ensures { result ≡ whole_in form numbers «count» }
{
    let whole = numbers / form::width(form);
    count.min(whole)
}

// Whether there are curves, and they meet; of a ring that is held whole the last one also meets the first.
fn all_meet(form: Form, curves: &[f64], count: usize, held: usize, ring: bool) -> bool
    requires { (held ≤ «count») × (width form * held ≤ length curves.now) }
    ensures { result ≡ meets ring «count» held (curve_at form curves.now) }
{
    if count == 0 {
        return false;
    }
    if held == 0 {
        return true;
    }
    if !all_pass(Test::Joined, form, curves, held - 1) {
        return false;
    }
    if ring & (count <= held) {
        let last = curve_at(form, curves, count - 1);
        let first = curve_at(form, curves, 0);
        return is_same(last.end, first.start);
    }
    true
}

// ---- the call

// Writes the first `count` curves of a list as path data into the first bytes of `out`: M and the first start, C for each curve, and Z for a ring. Each number is the
// exact value in thousandths, halves away from zero. Where it is refused `out` stays as it is.
pub fn export_path(
    form: Form,
    curves: &[f64],
    count: usize,
    ring: bool,
    out: &mut [u8],
) -> Result<usize, Refusal>
    ensures { handed (answer result) out.new ≡ export_of form curves.now «count» ring out.old }
{
    let held = whole_in(form, curves.len(), count);
    if !all_pass(Test::Finite, form, curves, held) {
        return Err(Refusal::OutOfRange);
    }
    if !all_pass(Test::Within, form, curves, held) {
        return Err(Refusal::TooLarge);
    }
    if !all_meet(form, curves, count, held, ring) {
        return Err(Refusal::NotJoined);
    }
    if held < count {
        return Err(Refusal::NoRoom);
    }
    if out.len() < path_length(form, curves, count, ring) {
        return Err(Refusal::NoRoom);
    }
    Ok(put_path(out, form, curves, count, ring))
}
