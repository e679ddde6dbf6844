// max_error_for_curve: the mark that lies farthest from the curve's point at its parameter.
ghost use Rattle.std.specs.Prelude.{◌≡◌, ◌+◌, ◌*◌, ◌<◌, length};
ghost use Rattle.float.specs.Answer.{outcome};
ghost use Rattle.float.specs.Refusal.{answer};
ghost use Rattle.marks.specs.Marks.{mark_at};
ghost use Rattle.stages.specs.Worst.{error_of, larger as larger_of, worst, max_error};

use float::refusal::Refusal;
use plane::Curve;

// A distance, and the mark that has it.
#[derive(Clone, Copy)]
pub struct Worst {
    pub err: f64,
    pub at: usize,
}

// The square of mark k's distance from the curve's point at t.
pub fn error_at(marks: &[f64], c: Curve, k: usize, t: f64) -> f64
    requires { 2 * k + 1 < length marks.now }
    ensures { result ≡ (error_of (mark_at marks.now k) c t).val }
{
    let offset = plane::sub(marks::mark_at(marks, k), cubic::eval::point_at_pos(c, t));
    plane::dot(offset, offset)
}

// The larger of two, the first of equals.
pub fn larger(w: Worst, e: f64, k: usize) -> Worst
    ensures { result ≡ larger_of w e k }
{
    if e > w.err {
        return Worst { err: e, at: k };
    }
    w
}

// The largest squared distance. A NaN or an infinity is not at most the worst so far, so the finite test runs only for a new worst.
fn largest_error(marks: &[f64], c: Curve, params: &[f64]) -> Result<Worst, Refusal>
    requires { length marks.now ≡ 2 * length params.now }
    ensures { answer result ≡ outcome (worst marks.now c params.now) }
{
    let mut w = Worst { err: 0.0, at: 0 };
    for (i, t) in params.iter().enumerate() {
        let e = error_at(marks, c, i, *t);
        if e <= w.err {
            continue;
        }
        if !float::finite(e) {
            return Err(Refusal::NotFinite);
        }
        w = larger(w, e, i);
    }
    Ok(w)
}

// The largest distance, and the first mark that has it.
pub fn max_error_for_curve(marks: &[f64], c: Curve, params: &[f64]) -> Result<Worst, Refusal>
    requires { length marks.now ≡ 2 * length params.now }
    ensures { answer result ≡ outcome (max_error marks.now c params.now) }
{
    let w = largest_error(marks, c, params)?;
    let err = root::sqrt(w.err);
    if !float::finite(err) {
        return Err(Refusal::NotFinite);
    }
    Ok(Worst { err, at: w.at })
}
