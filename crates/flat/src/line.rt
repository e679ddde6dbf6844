// A baseline and the distance from it, by the document's formulas.
ghost use Rattle.std.specs.Prelude.{◌≡◌};
ghost use Rattle.flat.specs.Line.{coefficients_of, factor_of, distance_to};

use plane::Point;

// The line a·x + b·y + c = 0.
#[derive(Clone, Copy)]
pub struct Line {
    pub a: f64,
    pub b: f64,
    pub c: f64,
}

// The coefficients of the line through two points.
pub fn coefficients(from: Point, to: Point) -> Line
    ensures { result ≡ (coefficients_of from to).val }
{
    let a = to.y - from.y;
    let b = from.x - to.x;
    Line {
        a,
        b,
        c: -(a * from.x + b * from.y),
    }
}

// The divisor of every distance from a line.
pub fn factor(l: Line) -> f64
    ensures { result ≡ (factor_of l).val }
{
    root::sqrt(l.a * l.a + l.b * l.b)
}

// The distance of p from a line with its factor at hand.
pub fn distance_to(l: Line, factor: f64, p: Point) -> f64
    ensures { result ≡ (distance_to l factor p).val }
{
    float::abs(l.a * p.x + l.b * p.y + l.c) / factor
}
