// Cases of one number or one curve. Each takes its words, and prints its answer; it is none where they are not what it asks for or the line goes
// on behind them.
use crate::cursor::{Cursor, MOST};
use crate::print::{Words, print_accepted, print_refused, say, say_accepted};
use nearest::NearestPoint;

// sqrt X
pub fn sqrt_case(mut words: Cursor) -> Option<()> {
    let x = words.float()?;
    words.end()?;
    say_accepted(root::sqrt(x));
    Some(())
}

// basis T C8
pub fn basis_case(mut words: Cursor) -> Option<()> {
    let t = words.float()?;
    let c = words.curve()?;
    words.end()?;
    say(bezier::basis(t, c.start, c.cp1, c.cp2, c.end));
    Some(())
}

// de_casteljau4 T C8
pub fn casteljau4_case(mut words: Cursor) -> Option<()> {
    let t = words.float()?;
    let c = words.curve()?;
    words.end()?;
    say(bezier::de_casteljau4(t, c.start, c.cp1, c.cp2, c.end));
    Some(())
}

// subdivide4 T C8
pub fn subdivide4_case(mut words: Cursor) -> Option<()> {
    let t = words.float()?;
    let c = words.curve()?;
    words.end()?;
    say(bezier::subdivide4(t, c.start, c.cp1, c.cp2, c.end));
    Some(())
}

// coefficients D C8
pub fn coefficients_case(mut words: Cursor) -> Option<()> {
    let dimension = words.count(MOST)?;
    let c = words.curve()?;
    words.end()?;
    say(bezier::bezier_coefficients(dimension as usize, c.start, c.cp1, c.cp2, c.end));
    Some(())
}

// de_casteljau3 T P6
pub fn casteljau3_case(mut words: Cursor) -> Option<()> {
    let t = words.float()?;
    let a = words.point()?;
    let b = words.point()?;
    let c = words.point()?;
    words.end()?;
    say(bezier::de_casteljau3(t, a, b, c));
    Some(())
}

// de_casteljau2 T P4
pub fn casteljau2_case(mut words: Cursor) -> Option<()> {
    let t = words.float()?;
    let a = words.point()?;
    let b = words.point()?;
    words.end()?;
    say(bezier::de_casteljau2(t, a, b));
    Some(())
}

// refine C8 PX PY T R
pub fn refine_case(mut words: Cursor) -> Option<()> {
    let c = words.curve()?;
    let p = words.point()?;
    let t = words.float()?;
    let rounds = words.count(MOST)?;
    words.end()?;
    say(bezier::nearest_point_on_curve_newton_raphson_with_estimate(c, p, t, rounds as usize));
    Some(())
}

// nearest C8 PX PY
pub fn nearest_case(mut words: Cursor) -> Option<()> {
    let c = words.curve()?;
    let p = words.point()?;
    words.end()?;
    match nearest::nearest_point_on_curve(c, p) {
        NearestPoint::Found(t, distance_sq) => {
            print_accepted();
            t.print();
            distance_sq.print();
        }
        NearestPoint::Refused(refusal) => print_refused(refusal),
    }
    Some(())
}

// distance C8 PX PY T
pub fn distance_case(mut words: Cursor) -> Option<()> {
    let c = words.curve()?;
    let p = words.point()?;
    let t = words.float()?;
    words.end()?;
    let mark = [p.x, p.y];
    say_accepted(faults::distance_at(&mark, c, 0, t));
    Some(())
}

// blocks N
pub fn blocks_case(mut words: Cursor) -> Option<()> {
    let n = words.count(MOST)?;
    words.end()?;
    say_accepted(tally::joined_blocks(n as usize));
    Some(())
}

// size N
pub fn size_case(mut words: Cursor) -> Option<()> {
    let n = words.count(MOST)?;
    words.end()?;
    say_accepted(marks::max_points_to_fit(n as usize));
    Some(())
}
