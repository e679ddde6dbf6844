// Points and curves of the plane by value, with the arithmetic of coordinate.rs and coord2.rs in its order of operations.
#![tactic(auto)]

ghost use Rattle.std.specs.Prelude.{◌≡◌};
ghost use Rattle.plane.specs.Plane.{equal, plus, minus, times, dot_of, magnitude_of, distance_of, direction_by, direction_of, or_zero};
ghost use Rattle.plane.specs.Range.{coordinate, point_in_range, curve_in_range, point_finite};

// A point of the plane, or a vector.
#[derive(Clone, Copy, PartialEq)]
pub struct Point {
    pub x: f64,
    pub y: f64,
}

// A cubic curve: its two ends and the two control points between them.
#[derive(Clone, Copy)]
pub struct Curve {
    pub start: Point,
    pub cp1: Point,
    pub cp2: Point,
    pub end: Point,
}

// Whether two points are equal in both coordinates. Numbers are compared and not their bits, so minus zero equals zero.
#[tactic(auto, unfolding(crate::specs::Plane::equal))]
pub fn equal(p: Point, q: Point) -> bool
    ensures { result ≡ equal p q }
{
    p == q
}

// The sum of two vectors.
pub fn add(p: Point, q: Point) -> Point
    ensures { result ≡ (plus p q).val }
{
    Point {
        x: p.x + q.x,
        y: p.y + q.y,
    }
}

// The vector from q to p.
pub fn sub(p: Point, q: Point) -> Point
    ensures { result ≡ (minus p q).val }
{
    Point {
        x: p.x - q.x,
        y: p.y - q.y,
    }
}

// A vector times a number.
pub fn scale(p: Point, k: f64) -> Point
    ensures { result ≡ (times p k).val }
{
    Point {
        x: p.x * k,
        y: p.y * k,
    }
}

// The dot product.
pub fn dot(p: Point, q: Point) -> f64
    ensures { result ≡ (dot_of p q).val }
{
    p.x * q.x + p.y * q.y
}

// A vector's length.
pub fn magnitude(p: Point) -> f64
    ensures { result ≡ (magnitude_of p).val }
{
    root::sqrt(dot(p, p))
}

// The distance of two points, by the differences as coord2.rs takes them: the target's coordinates first.
pub fn distance_to(p: Point, target: Point) -> f64
    ensures { result ≡ (distance_of p target).val }
{
    magnitude(sub(target, p))
}

// The direction of p, whose magnitude is at hand: the product with 1 / magnitude, which is not the quotient, and none where the magnitude is 0.
pub fn unit_by(p: Point, magnitude: f64) -> Option<Point>
    ensures { result ≡ (direction_by p magnitude).val }
{
    if magnitude == 0.0 {
        return None;
    }
    Some(scale(p, 1.0 / magnitude))
}

// The direction of p, if it has one.
pub fn to_unit_vector(p: Point) -> Option<Point>
    ensures { result ≡ (direction_of p).val }
{
    unit_by(p, magnitude(p))
}

// The unit vector as the Rust has it, which is zero where there is no direction.
pub fn or_zero(direction: Option<Point>) -> Point
    ensures { result ≡ or_zero direction }
{
    direction.unwrap_or(Point { x: 0.0, y: 0.0 })
}

// Whether both coordinates are finite.
pub fn point_finite(p: Point) -> bool
    ensures { result ≡ point_finite p }
{
    float::two_finite(p.x, p.y)
}

// Whether x may be a coordinate. A NaN or an infinity is not at most a million.
pub fn is_coordinate(x: f64) -> bool
    ensures { result ≡ coordinate x }
{
    float::abs(x) <= 1000000.0
}

// Whether both coordinates are in range.
pub fn point_in_range(p: Point) -> bool
    ensures { result ≡ point_in_range p }
{
    is_coordinate(p.x) & is_coordinate(p.y)
}

// Whether all four points are in range.
pub fn curve_in_range(c: Curve) -> bool
    ensures { result ≡ curve_in_range c }
{
    point_in_range(c.start)
        & (point_in_range(c.cp1) & (point_in_range(c.cp2) & point_in_range(c.end)))
}
