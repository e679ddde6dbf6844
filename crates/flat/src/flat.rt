// How often a section's polygon crosses the x-axis, and whether it is flat enough for its root to be looked for.
ghost use Rattle.std.specs.Prelude.{◌≡◌, ◌≤◌};
ghost use Rattle.float.specs.declared.refusal.Refusal.TheVariants as refusals;
ghost use Rattle.flat.specs.Flat.{crosses as crosses_of, crossings, ◌&&!◌, goes_on, one_direction, near_baseline, flat_enough};
ghost use Rattle.flat.specs.Tests.{as_test, run_of, held_in, fine_in};

use crate::line::{coefficients, distance_to, factor};
use float::refusal::Refusal;
use plane::Point;
use quintic::points::Section;

// A section is flat enough where no point is further from its baseline than this.
const FLAT_ENOUGH: f64 = 0.1;

// A test in which an operation gave NaN or infinity, and whether it held by what was compared all the same.
#[derive(Clone, Copy)]
pub struct Lost {
    pub holds: bool,
}

impl From<Lost> for Refusal {
    ghost from_gives = { λ l q. q ≡ refusals.NotFinite };

    fn from(_lost: Lost) -> Refusal {
        Refusal::NotFinite
    }
}

// 1 where the heights y1 and y2 are on different sides of the axis, and 0 otherwise. A zero of either sign is above it.
fn crosses(y1: f64, y2: f64) -> usize
    ensures value { result ≡ crosses_of y1 y2 }
    ensures few { result ≤ 1 }
{
    if (y1 < 0.0) & (y2 >= 0.0) {
        return 1;
    }
    if (y1 >= 0.0) & (y2 < 0.0) {
        return 1;
    }
    0
}

// How many times the polygon crosses the x-axis, without its closing line.
pub fn count_x_axis_crossings(s: Section) -> usize
    ensures { result ≡ crossings s }
{
    crosses(s.w1.y, s.w2.y)
        + crosses(s.w2.y, s.w3.y)
        + crosses(s.w3.y, s.w4.y)
        + crosses(s.w4.y, s.w5.y)
        + crosses(s.w5.y, s.w6.y)
}

// Whether a test holds, lost or not.
#[tactic(auto, unfolding(crate::specs::Tests::run_of))]
fn held(test: Result<bool, Lost>) -> bool
    ensures { result ≡ held_in test }
{
    match test {
        Ok(holds) => holds,
        Err(lost) => lost.holds,
    }
}

// A test by what was compared, and by whether each operation on the way gave a finite number.
#[tactic(auto, unfolding(crate::specs::Tests::as_test))]
fn test_of(holds: bool, fine: bool) -> Result<bool, Lost>
    ensures { result ≡ as_test (record { val = holds; fine = fine }) }
{
    if fine {
        return Ok(holds);
    }
    Err(Lost { holds })
}

// Whether each operation on a test's way gave a finite number.
#[tactic(auto, unfolding(crate::specs::Tests::run_of))]
fn is_fine(test: Result<bool, Lost>) -> bool
    ensures { result ≡ fine_in test }
{
    match test {
        Ok(_) => true,
        Err(_) => false,
    }
}

// Two tests in turn: the second is made where the first holds.
fn and_then(a: Result<bool, Lost>, b: Result<bool, Lost>) -> Result<bool, Lost>
    ensures { result ≡ as_test (run_of a &&! run_of b) }
{
    if !held(a) {
        return a;
    }
    if is_fine(a) {
        return b;
    }
    Err(Lost { holds: held(b) })
}

// Whether the heights go on from p to q in a direction.
fn goes_on(y_direction: f64, p: Point, q: Point) -> Result<bool, Lost>
    ensures { result ≡ as_test (goes_on y_direction p q) }
{
    let rise = q.y - p.y;
    test_of(float::signum(rise) == y_direction, float::finite(rise))
}

// Whether all six heights go in the direction of the first two.
fn one_direction(s: Section) -> Result<bool, Lost>
    ensures { result ≡ as_test (one_direction s) }
{
    let rise = s.w2.y - s.w1.y;
    let y_direction = float::signum(rise);
    let t3 = goes_on(y_direction, s.w2, s.w3);
    let t4 = goes_on(y_direction, s.w3, s.w4);
    let t5 = goes_on(y_direction, s.w4, s.w5);
    let t6 = goes_on(y_direction, s.w5, s.w6);
    let t = and_then(t3, and_then(t4, and_then(t5, t6)));
    if !float::finite(rise) {
        return Err(Lost { holds: held(t) });
    }
    t
}

// Whether no point is far from the line through the first and the last.
fn near_baseline(s: Section) -> Result<bool, Lost>
    ensures { result ≡ as_test (near_baseline s) }
{
    let l = coefficients(s.w1, s.w6);
    let f = factor(l);
    let d1 = distance_to(l, f, s.w1);
    let d2 = distance_to(l, f, s.w2);
    let d3 = distance_to(l, f, s.w3);
    let d4 = distance_to(l, f, s.w4);
    let d5 = distance_to(l, f, s.w5);
    let d6 = distance_to(l, f, s.w6);
    let m3 = float::max(float::max(float::max(0.0, d1), d2), d3);
    let m6 = float::max(float::max(float::max(m3, d4), d5), d6);
    test_of(
        m6 <= FLAT_ENOUGH,
        float::finite(f) & (float::three_finite(d1, d2, d3) & float::three_finite(d4, d5, d6)),
    )
}

// Whether a section is flat enough: the distances are worked out only where the heights go in one direction.
pub fn flat_enough(s: Section) -> Result<bool, Lost>
    ensures { result ≡ as_test (flat_enough s) }
{
    let t = one_direction(s);
    if held(t) {
        return and_then(t, near_baseline(s));
    }
    t
}
