// One part of an outline: a curve within the tolerance, or the mark to cut it at.
#![tactic(auto)]

ghost use Rattle.std.specs.Prelude.{◌≡◌, ◌*◌, ◌≤◌, ◌<◌, length};
ghost use Rattle.float.specs.Answer.{outcome};
ghost use Rattle.part.specs.Trial.{attempt as attempt_of, improve as improve_of, tried as tried_of};
ghost use Rattle.part.specs.Part.{part_of, lined};
ghost use Rattle.marks.specs.Marks.{mark_at};
ghost use Rattle.marks.specs.Line.{line_of};
ghost use Rattle.part.specs.Answers.{Solves, Did, trial_of, verdict, refused_by};

use float::refusal::Refusal;
use plane::{Curve, Point};
use stages::Worst;

// A second Newton step and each later one is another round, and there are so many more at most.
const MORE_ROUNDS: usize = 7;

// A round has to bring the error down to this part of what it was, or it is the last.
const IMPROVEMENT: f64 = 0.95;

// A curve for the marks, with its largest distance; the parameters stand in the lent slice.
#[derive(Clone, Copy)]
pub struct Solved {
    pub curve: Curve,
    pub far: Worst,
}

// Why a part has no curve of its own: it is cut at a mark, or refused. A refusal stands here, and not round a curve and a cut, since a level of cuts would then take more of the stack
// than callers are told.
#[derive(Clone, Copy)]
pub enum Unfitted {
    Cut(usize),
    Refused(Refusal),
}

impl From<Refusal> for Unfitted {
    ghost from_gives = { λ q e. e ≡ refused_by q };

    fn from(refusal: Refusal) -> Unfitted {
        Unfitted::Refused(refusal)
    }
}

// What every round of a part goes by: its marks, the tangents at its ends, and how far off a mark may be.
#[derive(Clone, Copy)]
struct Piece<'a> {
    marks: &'a [f64],
    start_tangent: Point,
    end_tangent: Point,
    tolerance: f64,
}

impl Piece<'_> {
    // One round: a Newton step for every mark, least squares, the worst distance.
    fn attempt(&self, c: Curve, params: &mut [f64]) -> Result<Solved, Refusal>
        requires { (0 < length params.old) × (length self.now.marks.now ≡ 2 * length params.old) }
        ensures { Solves (attempt_of self.now.marks.now self.now.start_tangent self.now.end_tangent c params.old) result params.new }
    {
        if !stages::reparameterize(self.marks, c, params) {
            return Err(Refusal::NotFinite);
        }
        let curve = squares::generate_bezier(
            self.marks,
            params,
            self.start_tangent,
            self.end_tangent,
        )?;
        let far = stages::max_error_for_curve(self.marks, curve, params)?;
        Ok(Solved { curve, far })
    }

    // More rounds, while they improve the solution and it is over the tolerance. The last round counts, be it worse.
    fn improve(&self, first: Solved, params: &mut [f64]) -> Result<Solved, Refusal>
        requires { (0 < length params.old) × (length self.now.marks.now ≡ 2 * length params.old) }
        ensures { Solves (improve_of 7 self.now.marks.now self.now.start_tangent self.now.end_tangent self.now.tolerance (trial_of first params.old)) result params.new }
    {
        let mut s = first;
        for _ in 0..MORE_ROUNDS {
            let next = self.attempt(s.curve, params)?;
            let ratio = next.far.err / s.far.err;
            if !float::finite(ratio) {
                return Err(Refusal::NotFinite);
            }
            if (ratio > IMPROVEMENT) | (next.far.err <= self.tolerance) {
                return Ok(next);
            }
            s = next;
        }
        Ok(s)
    }

    // Chord-length parameters and the rounds of a part of three marks or more.
    fn solve(&self, params: &mut [f64]) -> Result<Solved, Refusal>
        requires { (0 < length params.old) × (length self.now.marks.now ≡ 2 * length params.old) }
        ensures { Solves (tried_of (length params.old) self.now.marks.now self.now.start_tangent self.now.end_tangent self.now.tolerance) result params.new }
    {
        if !stages::chords_for_points(self.marks, params) {
            return Err(Refusal::NotFinite);
        }
        let curve = squares::generate_bezier(
            self.marks,
            params,
            self.start_tangent,
            self.end_tangent,
        )?;
        let s = self.attempt(curve, params)?;
        if s.far.err > self.tolerance {
            return self.improve(s, params);
        }
        Ok(s)
    }
}

// Within the tolerance a solution is the part's curve; else the part is cut at its worst mark.
fn judge(s: Solved, tolerance: f64) -> Result<Solved, Unfitted>
    ensures { result ≡ verdict s tolerance }
{
    if s.far.err <= tolerance {
        return Ok(s);
    }
    Err(Unfitted::Cut(s.far.at))
}

// The line of a part of two marks, which are its ends, so neither is off it.
fn try_line(marks: &[f64], params: &mut [f64]) -> Result<Solved, Unfitted>
    requires { (length params.old ≡ 2) × (length marks.now ≡ 4) }
    ensures { Did (lined (outcome (line_of (mark_at marks.now 0) (mark_at marks.now 1)))) result params.new }
{
    params[0] = 0.0;
    params[1] = 1.0;
    let curve = marks::fit_line(marks::mark_at(marks, 0), marks::mark_at(marks, 1))?;
    let far = Worst { err: 0.0, at: 0 };
    Ok(Solved { curve, far })
}

// One part, with the tangents at its ends: its curve, and its parameters in the lent slice.
pub fn try_part(
    marks: &[f64],
    st: Point,
    et: Point,
    tolerance: f64,
    params: &mut [f64],
) -> Result<Solved, Unfitted>
    requires { (2 ≤ length params.old) × (length marks.now ≡ 2 * length params.old) }
    ensures { Did (part_of marks.now st et tolerance) result params.new }
{
    let n = params.len();
    if n <= 2 {
        return try_line(marks, params);
    }
    let piece = Piece {
        marks,
        start_tangent: st,
        end_tangent: et,
        tolerance,
    };
    let s = piece.solve(params)?;
    judge(s, tolerance)
}
