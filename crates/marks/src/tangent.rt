// Tangents from marks: unit vectors, each an answer, since a run may meet NaN or infinity.
ghost use Rattle.std.specs.Prelude.{◌≡◌, ◌≤◌, length};
ghost use Rattle.float.specs.Answer.{outcome};
ghost use Rattle.float.specs.Refusal.{answer};
ghost use Rattle.plane.specs.Plane.{direction_of};
ghost use Rattle.marks.specs.Tangent.{start_tangent, end_tangent, tangent_between, direction_between, along};

use crate::mark_at;
use float::refusal::Refusal;
use plane::Point;

// The direction of v. A magnitude that is not finite would give a finite vector, so it is tested too.
fn bearing_of(v: Point) -> Result<Option<Point>, Refusal>
    ensures { answer result ≡ outcome (direction_of v) }
{
    let m = plane::magnitude(v);
    if float::finite(m) {
        let Some(u) = plane::unit_by(v, m) else {
            return Ok(None);
        };
        if plane::point_finite(u) {
            return Ok(Some(u));
        }
    }
    Err(Refusal::NotFinite)
}

// The tangent along the chord from p to q.
pub fn along(p: Point, q: Point) -> Result<Point, Refusal>
    ensures { answer result ≡ outcome (along p q) }
{
    let direction = bearing_of(plane::sub(q, p))?;
    Ok(plane::or_zero(direction))
}

// The tangent at the start of some marks: from the first to the second.
pub fn start_tangent(marks: &[f64]) -> Result<Point, Refusal>
    requires { 4 ≤ length marks.now }
    ensures { answer result ≡ outcome (start_tangent marks.now) }
{
    along(mark_at(marks, 0), mark_at(marks, 1))
}

// The tangent at the end of some marks: from the last back to the one before.
pub fn end_tangent(marks: &[f64]) -> Result<Point, Refusal>
    requires { 4 ≤ length marks.now }
    ensures { answer result ≡ outcome (end_tangent marks.now) }
{
    let n = marks.len() / 2;
    along(mark_at(marks, n - 1), mark_at(marks, n - 2))
}

// The direction at p2 between its neighbours, pointing back to p1.
pub fn direction_between(p1: Point, p2: Point, p3: Point) -> Result<Option<Point>, Refusal>
    ensures { answer result ≡ outcome (direction_between p1 p2 p3) }
{
    let v1 = plane::sub(p1, p2);
    let v2 = plane::sub(p2, p3);
    bearing_of(plane::scale(plane::add(v1, v2), 0.5))
}

// The tangent at p2 between its neighbours, pointing back to p1.
pub fn tangent_between(p1: Point, p2: Point, p3: Point) -> Result<Point, Refusal>
    ensures { answer result ≡ outcome (tangent_between p1 p2 p3) }
{
    let direction = direction_between(p1, p2, p3)?;
    Ok(plane::or_zero(direction))
}
