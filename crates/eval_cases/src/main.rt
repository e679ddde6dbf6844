// The calls on a single curve over kept vectors. A record on standard input is thirteen words of eight bytes, the operation's number
// and its arguments; each has a line of output, 0 and the numbers of the answer, or the refusal's number.
#![tactic(auto)]

use cases::STDIN;
use cubic::eval::Coefficients;
use cubic::split::Halves;
use float::refusal::Refusal;
use plane::{Curve, Point};

// The point that stands at a place of the record.
fn point(r: &[u8; 104], at: usize) -> Point {
    if at > 96 {
        return Point { x: 0.0, y: 0.0 };
    }
    Point {
        x: cases::number(r, at),
        y: cases::number(r, at + 8),
    }
}

fn print_point(p: Point) {
    cases::print_next(p.x);
    cases::print_next(p.y);
}

fn print_curve(c: Curve) {
    print_point(c.start);
    print_point(c.cp1);
    print_point(c.cp2);
    print_point(c.end);
}

fn print_coefficients(k: Coefficients) {
    cases::print_next(k.a);
    cases::print_next(k.b);
    cases::print_next(k.c);
    cases::print_next(k.d);
}

fn print_halves(h: Halves) {
    print_curve(h.left);
    print_curve(h.right);
}

// An answer's line: 0 and what `print` makes of the value, or the refusal's number alone.
fn line<T: Copy, P: Fn(T)>(answer: Result<T, Refusal>, print: P)
    requires { P.IsAlwaysCallable print }
{
    match answer {
        Ok(value) => {
            cases::print_count(0);
            print(value);
        }
        Err(q) => cases::print_count(q.number() as u64),
    }
}

// The operations by their numbers: 0 basis, 1 to 3 de Casteljau for two to four points, 4 coefficients, 5 subdivision, 6 refinement.
fn answer(r: &[u8; 104]) {
    let t = cases::number(r, 8);
    let p1 = point(r, 16);
    let p2 = point(r, 32);
    let p3 = point(r, 48);
    let p4 = point(r, 64);
    let op = cases::word(r, 0);
    match op {
        0 => line(bezier::basis(t, p1, p2, p3, p4), print_point),
        1 => line(bezier::de_casteljau2(t, p1, p2), print_point),
        2 => line(bezier::de_casteljau3(t, p1, p2, p3), print_point),
        3 => line(bezier::de_casteljau4(t, p1, p2, p3, p4), print_point),
        4 => line(
            bezier::bezier_coefficients(cases::word(r, 8) as usize, p1, p2, p3, p4),
            print_coefficients,
        ),
        5 => line(bezier::subdivide4(t, p1, p2, p3, p4), print_halves),
        _ => refine_line(r, t, p1, p2, p3, p4),
    }
}

// Newton refinement: the query point follows the curve, and the number of rounds comes last.
fn refine_line(r: &[u8; 104], t: f64, p1: Point, p2: Point, p3: Point, p4: Point) {
    let c = Curve {
        start: p1,
        cp1: p2,
        cp2: p3,
        end: p4,
    };
    let rounds = cases::word(r, 96) as usize;
    line(
        bezier::nearest_point_on_curve_newton_raphson_with_estimate(c, point(r, 80), t, rounds),
        cases::print_next,
    )
}

// One record, if there is one.
fn step() -> bool {
    let mut record = [0u8; 104];
    if io::read_full(STDIN, &mut record) < 104 {
        return false;
    }
    answer(&record);
    cases::end_line();
    true
}

fn main() {
    cases::each_case(step);
}
