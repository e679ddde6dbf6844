// Marks in a slice, x and y in turn; the size of a block, tangents and the two-mark line, as fit.rs works them out.
#![tactic(auto)]

mod block;
mod tangent;

ghost use Rattle.std.specs.Prelude.{◌≡◌, ◌+◌, ◌*◌, ◌<◌, length};
ghost use Rattle.float.specs.Answer.{outcome};
ghost use Rattle.float.specs.Refusal.{answer};
ghost use Rattle.marks.specs.Marks.{mark_at};
ghost use Rattle.marks.specs.Line.{line_of};

pub use block::max_points_to_fit;
use float::refusal::Refusal;
use plane::{Curve, Point};
pub use tangent::{along, direction_between, end_tangent, start_tangent, tangent_between};

// Mark k.
pub fn mark_at(marks: &[f64], k: usize) -> Point
    requires { 2 * k + 1 < length marks.now }
    ensures { result ≡ mark_at marks.now k }
{
    let j = 2 * k;
    Point {
        x: marks[j],
        y: marks[j + 1],
    }
}

// The line of two marks, with its controls about a third of the way along.
pub fn fit_line(p1: Point, p2: Point) -> Result<Curve, Refusal>
    ensures { answer result ≡ outcome (line_of p1 p2) }
{
    let direction = plane::sub(p2, p1);
    let cp1 = plane::add(p1, plane::scale(direction, 0.33));
    let cp2 = plane::add(p1, plane::scale(direction, 0.66));
    if plane::point_finite(cp1) & plane::point_finite(cp2) {
        return Ok(Curve {
            start: p1,
            cp1,
            cp2,
            end: p2,
        });
    }
    Err(Refusal::NotFinite)
}
