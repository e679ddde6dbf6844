// The sums over the marks: the 'C' and 'X' matrices. The loop has no test in it: a number that is not finite stays so to its end.
ghost use Rattle.std.specs.Prelude.{◌≡◌, ◌*◌, ◌<◌, length};
ghost use Rattle.squares.specs.Sums.{weights_of, tmp_of, gather_of, sum_at, sums_of};
ghost use Rattle.squares.specs.Tests.{sums_finite};

use marks::mark_at;
use plane::Point;

// The weights of a curve's four points at a parameter.
#[derive(Clone, Copy)]
pub struct Weights {
    pub b0: f64,
    pub b1: f64,
    pub b2: f64,
    pub b3: f64,
}

// The numbers c[0][0], c[0][1], c[1][1], x[0] and x[1]; c[1][0] is c[0][1].
#[derive(Clone, Copy)]
pub struct Sums {
    pub c00: f64,
    pub c01: f64,
    pub c11: f64,
    pub x0: f64,
    pub x1: f64,
}

// The weights at t.
fn weights_at(t: f64) -> Weights
    ensures { result ≡ (weights_of t).val }
{
    let i = 1.0 - t;
    Weights {
        b0: i * i * i,
        b1: 3.0 * t * (i * i),
        b2: 3.0 * t * t * i,
        b3: t * t * t,
    }
}

// What is left of a mark without the curve whose controls are its two ends.
fn tmp_at(first: Point, last: Point, p: Point, w: Weights) -> Point
    ensures { result ≡ (tmp_of first last p w).val }
{
    let ab = plane::add(plane::scale(first, w.b0), plane::scale(first, w.b1));
    let abc = plane::add(ab, plane::scale(last, w.b2));
    plane::sub(p, plane::add(abc, plane::scale(last, w.b3)))
}

// The sums with one mark more, p at t.
fn gather(st: Point, et: Point, first: Point, last: Point, p: Point, t: f64, s: Sums) -> Sums
    ensures { result ≡ (gather_of st et first last p t s).val }
{
    let w = weights_at(t);
    let a0 = plane::scale(st, w.b1);
    let a1 = plane::scale(et, w.b2);
    let tmp = tmp_at(first, last, p, w);
    Sums {
        c00: s.c00 + plane::dot(a0, a0),
        c01: s.c01 + plane::dot(a0, a1),
        c11: s.c11 + plane::dot(a1, a1),
        x0: s.x0 + plane::dot(a0, tmp),
        x1: s.x1 + plane::dot(a1, tmp),
    }
}

// The sums with mark k more.
fn sum_at(marks: &[f64], params: &[f64], st: Point, et: Point, k: usize, s: Sums) -> Sums
    requires { (k < length params.now) × (length marks.now ≡ 2 * length params.now) }
    ensures { result ≡ (sum_at marks.now params.now st et k s).val }
{
    let n = params.len();
    gather(
        st,
        et,
        mark_at(marks, 0),
        mark_at(marks, n - 1),
        mark_at(marks, k),
        params[k],
        s,
    )
}

// The sums over all marks.
pub fn sums_of(marks: &[f64], params: &[f64], st: Point, et: Point) -> Sums
    requires { length marks.now ≡ 2 * length params.now }
    ensures { result ≡ (sums_of marks.now params.now st et).val }
{
    let mut s = Sums {
        c00: 0.0,
        c01: 0.0,
        c11: 0.0,
        x0: 0.0,
        x1: 0.0,
    };
    for i in 0..params.len() {
        s = sum_at(marks, params, st, et, i, s);
    }
    s
}

// Whether the sums are finite: then every operation of the loop gave a finite number.
pub fn sums_finite(s: Sums) -> bool
    ensures { result ≡ sums_finite s }
{
    float::two_finite(s.c00, s.c01) & float::three_finite(s.c11, s.x0, s.x1)
}
