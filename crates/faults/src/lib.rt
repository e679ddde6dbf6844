// The tests of the list checker, each of one first mark (A), one curve (B, E) or one mark (C and D), and what they read of a list.
#![tactic(auto)]

ghost use Rattle.std.specs.Prelude.{◌≡◌, ◌+◌, ◌-◌, ◌*◌, ◌≤◌, ◌<◌, length, take, drop};
ghost use Rattle.marks.specs.Marks.{mark_at};
ghost use Rattle.std.specs.Float.{binary64};
ghost use Rattle.root.specs.Root.{sqrt};
ghost use Rattle.form.specs.Form.{curve_numbers, record_numbers, width, worsts_for};
ghost use Rattle.form.specs.declared.Form.TheVariants as forms;
ghost use Rattle.faults.specs.Tests.{first_at, curve_of, curve_at, far_at, last_at, stop_at, rises, same, curve_finite, runs, timed, distance_at, within, kept};

use form::Form;
use plane::{Curve, Point};
use stages::Worst;

// ---- what a list holds

// The first mark of curve j.
pub fn first_at(firsts: &[u32], j: usize) -> usize
    requires { j < length firsts.now }
    ensures { result ≡ first_at firsts.now j }
{
    firsts[j] as usize
}

// The curve at the front of these numbers.
pub fn curve_of(own: &[f64]) -> Curve
    requires { curve_numbers ≤ length own.now }
    ensures { result ≡ curve_of own.now }
{
    Curve {
        start: marks::mark_at(own, 0),
        cp1: marks::mark_at(own, 1),
        cp2: marks::mark_at(own, 2),
        end: marks::mark_at(own, 3),
    }
}

// Curve j of the list.
pub fn curve_at(form: Form, curves: &[f64], j: usize) -> Curve
    requires { width form * j + width form ≤ length curves.now }
    ensures { result ≡ curve_at form curves.now j }
{
    let from = form::width(form) * j;
    curve_of(&curves[from..])
}

// The ninth number of record j.
fn far_at(curves: &[f64], j: usize) -> f64
    requires { record_numbers * j + record_numbers ≤ length curves.now }
    ensures { result ≡ far_at curves.now j }
{
    let at = form::RECORD_NUMBERS * j + form::CURVE_NUMBERS;
    curves[at]
}

// Where curve j ends: on the next one's first mark, or on the last of n marks.
pub fn last_at(firsts: &[u32], n: usize, count: usize, j: usize) -> usize
    requires { (j < «count») × ((«count» ≤ length firsts.now) × (2 ≤ n)) }
    ensures { result ≡ last_at n «count» firsts.now j }
{
    stop_at(firsts, n - 1, count, j)
}

// The first mark that is not measured under curve j: a joint is measured under its later curve.
pub fn stop_at(firsts: &[u32], n: usize, count: usize, j: usize) -> usize
    requires { (j < «count») × («count» ≤ length firsts.now) }
    ensures { result ≡ stop_at n «count» firsts.now j }
{
    if j + 1 < count {
        return first_at(firsts, j + 1);
    }
    n
}

// The marks from mark `from` up to mark `stop`.
pub fn marks_under(marks: &[f64], from: usize, stop: usize) -> &[f64]
    requires { (from ≤ stop) × (2 * stop ≤ length marks.now) }
    ensures { result.now ≡ take (2 * stop - 2 * from) (drop (2 * from) marks.now) }
{
    let a = 2 * from;
    let e = 2 * stop;
    &marks[a..e]
}

// ---- A: the first marks

// Whether curve j's first mark is above the one before it, or 0 for the first curve, and below the last of n marks.
pub fn rises_at(firsts: &[u32], n: usize, j: usize) -> bool
    requires { (j < length firsts.now) × (2 ≤ n) }
    ensures { result ≡ rises n firsts.now j }
{
    let first = first_at(firsts, j);
    if j == 0 {
        return (first == 0) & (first < n - 1);
    }
    (first_at(firsts, j - 1) < first) & (first < n - 1)
}

// ---- B: a curve's numbers and ends

// Whether two points have the same bits.
pub fn is_same(p: Point, q: Point) -> bool
    ensures { result ≡ same p q }
{
    (float::to_bits(p.x) == float::to_bits(q.x)) & (float::to_bits(p.y) == float::to_bits(q.y))
}

// Whether a curve's eight numbers are finite.
pub fn is_finite(c: Curve) -> bool
    ensures { result ≡ curve_finite c }
{
    plane::point_finite(c.start)
        & (plane::point_finite(c.cp1) & (plane::point_finite(c.cp2) & plane::point_finite(c.end)))
}

// Whether c's numbers are finite and it runs from the mark p to the mark q.
pub fn is_run(c: Curve, p: Point, q: Point) -> bool
    ensures { result ≡ runs c p q }
{
    is_finite(c) & (is_same(c.start, p) & is_same(c.end, q))
}

// ---- C and D: one mark under a curve

// Whether t may be the parameter of mark i of n, under a curve whose first mark is `first`.
pub fn is_timed(n: usize, first: usize, i: usize, t: f64) -> bool
    requires { i < n }
    ensures { result ≡ timed n first i t }
{
    if i == first {
        return t == 0.0;
    }
    if i + 1 == n {
        return t == 1.0;
    }
    (0.0 <= t) & (t <= 1.0)
}

// How far mark i of a part is from the curve's point at t, as max_error_for_curve works it out.
pub fn distance_at(under: &[f64], c: Curve, i: usize, t: f64) -> f64
    requires { 2 * i + 1 < length under.now }
    ensures { result ≡ distance_at (mark_at under.now i) c t }
{
    root::sqrt(stages::error_at(under, c, i, t))
}

// Whether a mark with this square is within the tolerance. A distance that is NaN or an infinity is not.
pub fn is_near(square: f64, tolerance: f64) -> bool
    ensures { result ≡ within tolerance (sqrt binary64 square) }
{
    let d = root::sqrt(square);
    float::finite(d) & (d <= tolerance)
}

// ---- E: the worst mark

// Whether record j keeps the distance and the number of the farthest mark.
fn is_kept_in(curves: &[f64], worsts: &[u32], j: usize, far: Worst) -> bool
    requires { (record_numbers * j + record_numbers ≤ length curves.now) × (j < length worsts.now) }
    ensures { result ≡ kept forms.Nine curves.now worsts.now j far }
{
    let d = root::sqrt(far.err);
    (float::to_bits(far_at(curves, j)) == float::to_bits(d)) & (first_at(worsts, j) == far.at)
}

// The same of a list in either form: one of eight numbers keeps nothing that could be wrong.
pub fn is_kept(form: Form, curves: &[f64], worsts: &[u32], j: usize, far: Worst) -> bool
    requires { (width form * j + width form ≤ length curves.now) × (worsts_for form (j + 1) ≤ length worsts.now) }
    ensures { result ≡ kept form curves.now worsts.now j far }
{
    match form {
        Form::Eight => true,
        Form::Nine => is_kept_in(curves, worsts, j, far),
    }
}
