// A part that is not within the tolerance is cut at its worst mark, and each side is a fit of its own: `fit_part` and `cut_part` call each
// other on fewer marks each time, over parts of the marks and of the lent slices. An inner answer is taken apart by `let .. else`, here as in the blocks and the fits: what is refused is
// taken out first, and the rest goes on with the value. The four lent slices stand one by one, since a part of a struct of `&mut` slices can't be lent on.
#![tactic(auto)]

ghost use Rattle.std.specs.Prelude.{◌≡◌, ◌+◌, ◌*◌, ◌≤◌, ◌<◌, length};
ghost use Rattle.float.specs.Slices.{written};
ghost use Rattle.form.specs.Form.{record_numbers};
ghost use Rattle.cut.specs.Run.{flat, run_of, cut_of};
ghost use Rattle.cut.specs.Lent.{Left, Ready};

use float::refusal::Refusal;
use form::RECORD_NUMBERS;
use part::Unfitted;
use plane::{Curve, Point};

// A curve's eight numbers and its largest distance, at the front of the slice.
pub fn put_record(curves: &mut [f64], c: Curve, far: f64)
    requires { record_numbers ≤ length curves.old }
    ensures { curves.new ≡ written (flat c far) curves.old }
{
    curves[..RECORD_NUMBERS].copy_from_slice(&[
        c.start.x, c.start.y, c.cp1.x, c.cp1.y, c.cp2.x, c.cp2.y, c.end.x, c.end.y, far,
    ]);
}

// The curves of a part whose first mark has the number `first`, with the tangents at its ends.
#[cycle(cut_part_fit_part)]
pub fn fit_part(
    marks: &[f64],
    first: usize,
    start: Point,
    end: Point,
    tolerance: f64,
    curves: &mut [f64],
    firsts: &mut [u32],
    worsts: &mut [u32],
    params: &mut [f64],
) -> Result<usize, Refusal>
    requires { Ready marks.now first tolerance curves.old firsts.old worsts.old params.old }
    ensures { Left (run_of marks.now first start end tolerance) result curves.old curves.new firsts.old firsts.new worsts.old worsts.new params.new }
{
    match part::try_part(marks, start, end, tolerance, params) {
        Ok(s) => {
            let worst = first + s.far.at;
            put_record(curves, s.curve, s.far.err);
            firsts[0] = first as u32;
            worsts[0] = worst as u32;
            Ok(1)
        }
        Err(Unfitted::Cut(at)) => cut_part(
            marks, at, first, start, end, tolerance, curves, firsts, worsts, params,
        ),
        Err(Unfitted::Refused(q)) => Err(q),
    }
}

// The curves of both sides of a cut. The cut mark is in both; its parameter is the right side's.
#[cycle(cut_part_fit_part)]
fn cut_part(
    marks: &[f64],
    at: usize,
    first: usize,
    start: Point,
    end: Point,
    tolerance: f64,
    curves: &mut [f64],
    firsts: &mut [u32],
    worsts: &mut [u32],
    params: &mut [f64],
) -> Result<usize, Refusal>
    requires ready { Ready marks.now first tolerance curves.old firsts.old worsts.old params.old }
    requires at_nonzero { (0 < at) × (at + 1 < length params.old) }
    ensures { Left (cut_of marks.now at first start end tolerance) result curves.old curves.new firsts.old firsts.new worsts.old worsts.new params.new }
{
    // An operation on the way is all that tangents refuse by.
    let Ok(ways) = tangents::ways_at(marks, at) else {
        return Err(Refusal::NotFinite);
    };
    let middle = ways.end;
    let front = 2 * at + 2;
    let shared = at + 1;
    let left = fit_part(
        &marks[..front],
        first,
        start,
        middle,
        tolerance,
        curves,
        firsts,
        worsts,
        &mut params[..shared],
    );
    let Ok(j) = left else {
        return left;
    };
    let turned = ways.start;
    let back = 2 * at;
    let behind = RECORD_NUMBERS * j;
    let right = fit_part(
        &marks[back..],
        first + at,
        turned,
        end,
        tolerance,
        &mut curves[behind..],
        &mut firsts[j..],
        &mut worsts[j..],
        &mut params[at..],
    );
    let Ok(k) = right else {
        return right;
    };
    Ok(j + k)
}
