// The root of a section that is flat enough: where its baseline meets the x-axis, and Newton's method from there.
ghost use Rattle.std.specs.Prelude.{◌≡◌, ℕ, suc};
ghost use Rattle.float.specs.Answer.{outcome};
ghost use Rattle.float.specs.Refusal.{answer};
ghost use Rattle.newton.specs.Tests.{onward};
ghost use Rattle.quintic.specs.Tests.{five_finite};
ghost use Rattle.intercept.specs.Intercept.{heights_of, guess_of, newton_by, newton, intercept_of, root_of};

use flat::line::coefficients;
use float::refusal::Refusal;
use newton::Ratio;
use quintic::numbers::{Five, Six};
use quintic::points::Section;

// A height no further from 0 than this ends the search.
const EPSILON: f64 = 0.0000000001;

// The most rounds of Newton's method.
const MAX_ITERATIONS: usize = 30;

// The heights of a section's points.
fn heights_of(s: Section) -> Six
    ensures { result ≡ heights_of s }
{
    Six {
        y1: s.w1.y,
        y2: s.w2.y,
        y3: s.w3.y,
        y4: s.w4.y,
        y5: s.w5.y,
        y6: s.w6.y,
    }
}

// Whether five numbers are finite.
fn five_finite(h: Five) -> bool
    ensures { result ≡ five_finite h }
{
    float::three_finite(h.y1, h.y2, h.y3) & float::two_finite(h.y4, h.y5)
}

// One round of Newton's method for a root of the heights h with the derivative d, at the estimate t.
fn newton_round(h: Six, d: Five, t: f64) -> Result<Option<f64>, Refusal>
    ensures { (n : ℕ) → outcome (newton_by h d (suc n) t) ≡ onward (newton_by h d) n t result }
{
    let numerator = quintic::numbers::de_casteljau6(t, h);
    let denominator = quintic::numbers::de_casteljau5(t, d);
    let near = float::abs(numerator) <= EPSILON;
    newton::round_by(
        t,
        Ratio {
            numerator,
            denominator,
        },
        near,
    )
}

// find_roots.rs's Newton's method for a root of six heights.
pub fn find_x_intercept_newton_raphson(points: Six, estimated_t: f64) -> Result<f64, Refusal>
    ensures { answer result ≡ outcome (newton points estimated_t) }
{
    let derivative = quintic::numbers::derivative6(points);
    if !five_finite(derivative) {
        return Err(Refusal::NotFinite);
    }
    newton::search(
        MAX_ITERATIONS,
        estimated_t,
        |t| newton_round(points, derivative, t),
    )
}

// Where the baseline meets the x-axis, relative to the section.
fn first_guess(s: Section) -> Result<f64, Refusal>
    ensures { answer result ≡ outcome (guess_of s) }
{
    let l = coefficients(s.w1, s.w6);
    let width = s.w6.x - s.w1.x;
    let t = (-l.c / l.a - s.w1.x) / width;
    if !float::two_finite(width, t) {
        return Err(Refusal::NotFinite);
    }
    Ok(t)
}

// The parameter where a section meets the x-axis, relative to the section.
fn find_x_intercept(s: Section) -> Result<f64, Refusal>
    ensures { answer result ≡ outcome (intercept_of s) }
{
    let guess = first_guess(s)?;
    find_x_intercept_newton_raphson(heights_of(s), guess)
}

// The root of a section: the x of its point there.
pub fn root_of(s: Section) -> Result<f64, Refusal>
    ensures { answer result ≡ outcome (root_of s) }
{
    let intercept = find_x_intercept(s)?;
    let p = quintic::points::de_casteljau6(intercept, s);
    if !float::two_finite(p.x, p.y) {
        return Err(Refusal::NotFinite);
    }
    Ok(p.x)
}
