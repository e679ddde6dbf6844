// The nearest of the candidates: 0, the roots strictly between 0 and 1 in the order found, then 1; the later wins a tie.
ghost use Rattle.std.specs.Prelude.{◌≡◌, cond};
ghost use Rattle.nearest.specs.Choose.{distance_sq, start_of, inside, choose_of};
ghost use Rattle.nearest.specs.Tests.{as_best, try_of};

use plane::{Curve, Point};

// The best candidate so far, its squared distance, and whether each operation on the way gave a finite number.
// A flag and no `Result`: the definitions speak of `Nearest`, and `answer` leads to no other type than the code's.
#[derive(Clone, Copy)]
pub struct Best {
    pub t: f64,
    pub distance_sq: f64,
    pub fine: bool,
}

// The squared distance of the curve's point at t.
fn distance_sq_at(c: Curve, p: Point, t: f64) -> f64
    ensures { result ≡ (distance_sq c p t).val }
{
    let offset = plane::sub(cubic::eval::point_at_pos(c, t), p);
    plane::dot(offset, offset)
}

// The first candidate, 0.
fn start_at(c: Curve, p: Point) -> Best
    ensures { result ≡ as_best (start_of c p) }
{
    let d = distance_sq_at(c, p, 0.0);
    Best {
        t: 0.0,
        distance_sq: d,
        fine: float::finite(d),
    }
}

// The better of the best so far and the candidate t, which wins a tie.
fn better(c: Curve, p: Point, best: Best, t: f64) -> Best
    ensures { result ≡ try_of c p best t }
{
    let d = distance_sq_at(c, p, t);
    let fine = best.fine & float::finite(d);
    if d <= best.distance_sq {
        return Best {
            t,
            distance_sq: d,
            fine,
        };
    }
    Best {
        t: best.t,
        distance_sq: best.distance_sq,
        fine,
    }
}

// The better of the best so far and a root, which is a candidate where it lies strictly between 0 and 1.
fn better_root(c: Curve, p: Point, best: Best, t: f64) -> Best
    ensures { result ≡ cond (inside t) (try_of c p best t) best }
{
    if (t > 0.0) & (t < 1.0) {
        return better(c, p, best, t);
    }
    best
}

// The best of 0, the roots between 0 and 1, and 1.
pub fn choose(c: Curve, p: Point, roots: &[f64]) -> Best
    ensures { result ≡ as_best (choose_of c p roots.now) }
{
    let mut best = start_at(c, p);
    for t in roots {
        best = better_root(c, p, best, *t);
    }
    better(c, p, best, 1.0)
}
