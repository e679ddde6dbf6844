// Where two blocks meet: a mark with its two neighbours, and the tangents with which the left block ends there and the right one starts.
#![tactic(auto)]

ghost use Rattle.std.specs.Prelude.{◌≡◌, ◌+◌};
ghost use Rattle.float.specs.Answer.{outcome};
ghost use Rattle.float.specs.Refusal.{answer};
ghost use Rattle.marks.specs.Marks.{count};
ghost use Rattle.ring.specs.Ring.{whole, Even};
ghost use Rattle.ring.specs.declared.Outline.TheVariants as outline;
ghost use Rattle.joints.specs.Joints.{Inner, joint_at, seam_of, opposite, left_end, right_start};

use float::refusal::Refusal;
use plane::Point;

// A mark with the one before it and the one after it: where two blocks meet, the first lies in the left block and the second in the right one.
#[derive(Clone, Copy)]
pub struct Joint {
    pub before: Point,
    pub at: Point,
    pub after: Point,
}

// Mark `at` with its two neighbours; behind the last mark stands mark 0.
pub fn joint_at(marks: &[f64], at: usize) -> Joint
    requires { Inner outline.Closed marks.now at }
    ensures { result ≡ joint_at (whole outline.Closed marks.now) at }
{
    Joint {
        before: marks::mark_at(marks, at - 1),
        at: marks::mark_at(marks, at),
        after: ring::mark_round(marks, at + 1),
    }
}

// Where a ring comes back to its first mark: its last, first and second.
pub fn seam_of(marks: &[f64]) -> Joint
    requires { Even marks.now }
    ensures { result ≡ seam_of (whole outline.Closed marks.now) (1 + count marks.now) }
{
    let last = marks.len() / 2 - 1;
    Joint {
        before: marks::mark_at(marks, last),
        at: marks::mark_at(marks, 0),
        after: ring::mark_round(marks, 1),
    }
}

// A tangent turned about, for what starts where another ended with it.
pub fn opposite(tangent: Point) -> Result<Point, Refusal>
    ensures { answer result ≡ outcome (opposite tangent) }
{
    let turned = plane::scale(tangent, -1.0);
    if plane::point_finite(turned) {
        return Ok(turned);
    }
    Err(Refusal::NotFinite)
}

// The tangent with which the left block ends where two meet. Without a direction there it is that of the chord to the block's own neighbour of the joint.
pub fn left_end(joint: Joint) -> Result<Point, Refusal>
    ensures { answer result ≡ outcome (left_end joint) }
{
    let direction = marks::direction_between(joint.before, joint.at, joint.after)?;
    let Some(end) = direction else {
        return marks::along(joint.at, joint.before);
    };
    Ok(end)
}

// The tangent with which the right block starts there: that direction turned about. The chord to its own neighbour points into the block already, and is not turned.
pub fn right_start(joint: Joint) -> Result<Point, Refusal>
    ensures { answer result ≡ outcome (right_start joint) }
{
    let direction = marks::direction_between(joint.before, joint.at, joint.after)?;
    let Some(end) = direction else {
        return marks::along(joint.at, joint.after);
    };
    opposite(end)
}
