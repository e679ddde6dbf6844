// basis.rs's `de_casteljau_n` and subdivide.rs's `subdivide_n`, at six points.
ghost use Rattle.std.specs.Prelude.{◌≡◌};
ghost use Rattle.quintic.specs.Points.{casteljau5, casteljau6, subdivide6_of};

use cubic::eval::{de_casteljau2, de_casteljau4};
use plane::Point;

// A curve of six points, or a part of one.
#[derive(Clone, Copy)]
pub struct Section {
    pub w1: Point,
    pub w2: Point,
    pub w3: Point,
    pub w4: Point,
    pub w5: Point,
    pub w6: Point,
}

// The parts of a curve before and after a point.
#[derive(Clone, Copy)]
pub struct Halves {
    pub left: Section,
    pub right: Section,
}

// de Casteljau's algorithm for curves of five points.
pub fn de_casteljau5(t: f64, w1: Point, w2: Point, w3: Point, w4: Point, w5: Point) -> Point
    ensures { result ≡ (casteljau5 t w1 w2 w3 w4 w5).val }
{
    let wn1 = de_casteljau2(t, w1, w2);
    let wn2 = de_casteljau2(t, w2, w3);
    let wn3 = de_casteljau2(t, w3, w4);
    let wn4 = de_casteljau2(t, w4, w5);
    de_casteljau4(t, wn1, wn2, wn3, wn4)
}

// de Casteljau's algorithm for curves of six points.
pub fn de_casteljau6(t: f64, s: Section) -> Point
    ensures { result ≡ (casteljau6 t s).val }
{
    let wn1 = de_casteljau2(t, s.w1, s.w2);
    let wn2 = de_casteljau2(t, s.w2, s.w3);
    let wn3 = de_casteljau2(t, s.w3, s.w4);
    let wn4 = de_casteljau2(t, s.w4, s.w5);
    let wn5 = de_casteljau2(t, s.w5, s.w6);
    de_casteljau5(t, wn1, wn2, wn3, wn4, wn5)
}

// The two curves on either side of the point at t: the first points of the rows of de Casteljau's triangle, and the last.
pub fn subdivide6(t: f64, s: Section) -> Halves
    ensures { result ≡ (subdivide6_of t s).val }
{
    let w1 = s.w1;
    let w6 = s.w6;
    let a1 = de_casteljau2(t, w1, s.w2);
    let a2 = de_casteljau2(t, s.w2, s.w3);
    let a3 = de_casteljau2(t, s.w3, s.w4);
    let a4 = de_casteljau2(t, s.w4, s.w5);
    let a5 = de_casteljau2(t, s.w5, w6);
    let b1 = de_casteljau2(t, a1, a2);
    let b2 = de_casteljau2(t, a2, a3);
    let b3 = de_casteljau2(t, a3, a4);
    let b4 = de_casteljau2(t, a4, a5);
    let c1 = de_casteljau2(t, b1, b2);
    let c2 = de_casteljau2(t, b2, b3);
    let c3 = de_casteljau2(t, b3, b4);
    let d1 = de_casteljau2(t, c1, c2);
    let d2 = de_casteljau2(t, c2, c3);
    let p = de_casteljau2(t, d1, d2);
    Halves {
        left: Section {
            w1,
            w2: a1,
            w3: b1,
            w4: c1,
            w5: d1,
            w6: p,
        },
        right: Section {
            w1: p,
            w2: d2,
            w3: c3,
            w4: b4,
            w5: a5,
            w6,
        },
    }
}
