// nearest_point_bezier_root_finder.rs's `distance_in_bezier_form`: the product of a curve's tangent and of the vector from a point, as
// a curve of degree five over 0..1.
ghost use Rattle.std.specs.Prelude.{◌≡◌};
ghost use Rattle.quintic.specs.Heights.{offsets_of, products_of, sums_of, weighted_by, section_of, distance_form};

use crate::numbers::Six;
use crate::points::Section;
use plane::{Curve, Point};

// A row of the table Z, or of products weighted by it.
#[derive(Clone, Copy)]
pub struct Row {
    pub i0: f64,
    pub i1: f64,
    pub i2: f64,
    pub i3: f64,
}

// The vectors from a point to the four points of a curve.
#[derive(Clone, Copy)]
pub struct Offsets {
    pub d0: Point,
    pub d1: Point,
    pub d2: Point,
    pub d3: Point,
}

// The vectors from p to the curve's points.
fn offsets_from(c: Curve, p: Point) -> Offsets
    ensures { result ≡ (offsets_of c p).val }
{
    Offsets {
        d0: plane::sub(c.start, p),
        d1: plane::sub(c.cp1, p),
        d2: plane::sub(c.cp2, p),
        d3: plane::sub(c.end, p),
    }
}

// The dot products of (to - from)·3 with the four offsets, each times its weight.
fn products(from: Point, to: Point, d: Offsets, z: Row) -> Row
    ensures { result ≡ (products_of from to d z).val }
{
    let next = plane::scale(plane::sub(to, from), 3.0);
    Row {
        i0: plane::dot(next, d.d0) * z.i0,
        i1: plane::dot(next, d.d1) * z.i1,
        i2: plane::dot(next, d.d2) * z.i2,
        i3: plane::dot(next, d.d3) * z.i3,
    }
}

// The six heights: height k is the sum of the products i of the rows j with i + j = k, from plus zero on and in rising i.
fn sums(j0: Row, j1: Row, j2: Row) -> Six
    ensures { result ≡ (sums_of j0 j1 j2).val }
{
    Six {
        y1: 0.0 + j0.i0,
        y2: 0.0 + j1.i0 + j0.i1,
        y3: 0.0 + j2.i0 + j1.i1 + j0.i2,
        y4: 0.0 + j2.i1 + j1.i2 + j0.i3,
        y5: 0.0 + j2.i2 + j1.i3,
        y6: 0.0 + j2.i3,
    }
}

// The heights over 0, 1/5, .. 1.
fn over_unit(h: Six) -> Section
    ensures { result ≡ section_of h }
{
    Section {
        w1: Point { x: 0.0, y: h.y1 },
        w2: Point { x: 0.2, y: h.y2 },
        w3: Point { x: 0.4, y: h.y3 },
        w4: Point { x: 0.6, y: h.y4 },
        w5: Point { x: 0.8, y: h.y5 },
        w6: Point { x: 1.0, y: h.y6 },
    }
}

// The six heights by the rows of the table.
fn weighted(c: Curve, d: Offsets, z0: Row, z1: Row, z2: Row) -> Six
    ensures { result ≡ (weighted_by c d z0 z1 z2).val }
{
    let j0 = products(c.start, c.cp1, d, z0);
    let j1 = products(c.cp1, c.cp2, d, z1);
    let j2 = products(c.cp2, c.end, d, z2);
    sums(j0, j1, j2)
}

// The curve of six points whose height is zero where `c` is perpendicular to the line to p.
pub fn distance_in_bezier_form(c: Curve, p: Point) -> Section
    ensures { result ≡ (distance_form c p).val }
{
    let d = offsets_from(c, p);
    let z0 = Row {
        i0: 1.0,
        i1: 0.6,
        i2: 0.3,
        i3: 0.1,
    };
    let z1 = Row {
        i0: 0.4,
        i1: 0.6,
        i2: 0.6,
        i3: 0.4,
    };
    let z2 = Row {
        i0: 0.1,
        i1: 0.3,
        i2: 0.6,
        i3: 1.0,
    };
    over_unit(weighted(c, d, z0, z1, z2))
}
