// subdivide.rs: a curve cut in two.
ghost use Rattle.std.specs.Prelude.{◌≡◌};
ghost use Rattle.cubic.specs.Subdivide.{subdivide4_of};

use crate::eval::de_casteljau2;
use plane::{Curve, Point};

// The parts of a curve before and after a point.
#[derive(Clone, Copy)]
pub struct Halves {
    pub left: Curve,
    pub right: Curve,
}

// The two curves on either side of the point at t.
pub fn subdivide4(t: f64, w1: Point, w2: Point, w3: Point, w4: Point) -> Halves
    ensures { result ≡ (subdivide4_of t w1 w2 w3 w4).val }
{
    let wn1 = de_casteljau2(t, w1, w2);
    let wn2 = de_casteljau2(t, w2, w3);
    let wn3 = de_casteljau2(t, w3, w4);
    let wnn1 = de_casteljau2(t, wn1, wn2);
    let wnn2 = de_casteljau2(t, wn2, wn3);
    let p = de_casteljau2(t, wnn1, wnn2);
    Halves {
        left: Curve {
            start: w1,
            cp1: wn1,
            cp2: wnn1,
            end: p,
        },
        right: Curve {
            start: p,
            cp1: wnn2,
            cp2: wn3,
            end: w4,
        },
    }
}
