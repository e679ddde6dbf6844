// Newton's method for the parameter of the point nearest a mark: one clamped step as fit.rs takes it, and the refinement of
// nearest_point.rs, round by round.
#![tactic(auto)]

ghost use Rattle.std.specs.Prelude.{◌≡◌, cond, ℕ, suc, Float};
ghost use Rattle.float.specs.Calc.{Calc};
ghost use Rattle.float.specs.Answer.{outcome};
ghost use Rattle.float.specs.Refusal.{answer};
ghost use Rattle.newton.specs.Newton.{vertices_of, ratio_of, newton_by, refine_by, refine as refine_of};
ghost use Rattle.newton.specs.Tests.{vertices_finite, as_step, onward, FractionBy, SearchBy};

use cubic::eval::{de_casteljau2, de_casteljau3, de_casteljau4, point_at_pos};
use float::refusal::Refusal;
use plane::{Curve, Point};

// The search ends where the numerator is nearer to 0 than this.
const EPSILON: f64 = 0.00000001;

// The control vertices of a curve's first derivative and of its second: the same for every mark.
#[derive(Clone, Copy)]
pub struct Vertices {
    pub qn1: Point,
    pub qn2: Point,
    pub qn3: Point,
    pub qnn1: Point,
    pub qnn2: Point,
}

// The two sides of a Newton step's fraction.
#[derive(Clone, Copy)]
pub struct Ratio {
    pub numerator: f64,
    pub denominator: f64,
}

// A step's end, and whether each operation on the way gave a finite number: a flag and no `Result`, so that a loop over marks has no branch.
#[derive(Clone, Copy)]
pub struct Step {
    pub t: f64,
    pub fine: bool,
}

// A curve's control vertices.
pub fn vertices_of(c: Curve) -> Vertices
    ensures { result ≡ (vertices_of c).val }
{
    let qn1 = plane::scale(plane::sub(c.cp1, c.start), 3.0);
    let qn2 = plane::scale(plane::sub(c.cp2, c.cp1), 3.0);
    let qn3 = plane::scale(plane::sub(c.end, c.cp2), 3.0);
    let qnn1 = plane::scale(plane::sub(qn2, qn1), 2.0);
    let qnn2 = plane::scale(plane::sub(qn3, qn2), 2.0);
    Vertices {
        qn1,
        qn2,
        qn3,
        qnn1,
        qnn2,
    }
}

// Whether the vertices are finite: those of the second derivative tell of the first's.
fn vertices_finite(q: Vertices) -> bool
    ensures { result ≡ vertices_finite q }
{
    plane::point_finite(q.qnn1) & plane::point_finite(q.qnn2)
}

// f(t) and f'(t), where qt is the curve's point at t and f the product of the offset from p and the tangent.
fn ratio_at(qt: Point, q: Vertices, p: Point, t: f64) -> Ratio
    ensures { result ≡ (ratio_of qt q p t).val }
{
    let qnt = de_casteljau3(t, q.qn1, q.qn2, q.qn3);
    let qnnt = de_casteljau2(t, q.qnn1, q.qnn2);
    let offset = plane::sub(qt, p);
    Ratio {
        numerator: plane::dot(offset, qnt),
        denominator: plane::dot(qnt, qnt) + plane::dot(offset, qnnt),
    }
}

// One of two numbers, with no branch for the compiler to keep.
fn pick(b: bool, x: f64, y: f64) -> f64
    ensures { result ≡ cond b x y }
{
    if b {
        return x;
    }
    y
}

// fit.rs's newton_raphson_root_find, with the curve's vertices at hand and no branch on the way: a loop of it is vectorised.
pub fn newton_raphson_root_find(c: Curve, q: Vertices, p: Point, t: f64) -> Step
    ensures { result ≡ as_step (newton_by c q p t) }
{
    let r = ratio_at(point_at_pos(c, t), q, p, t);
    let u = t - r.numerator / r.denominator;
    let flat = r.denominator == 0.0;
    Step {
        t: pick(flat, t, float::clamp(u)),
        fine: float::three_finite(r.numerator, r.denominator, pick(flat, 0.0, u)),
    }
}

// One round of a search at the estimate t, by the sides of its fraction and by whether the numerator is near enough to 0: the next estimate,
// or none where the search ends.
pub fn round_by(t: f64, r: Ratio, near: bool) -> Result<Option<f64>, Refusal>
    ensures { (s : ℕ → Float → Calc Float) → FractionBy s t r near → (n : ℕ) → outcome (s (suc n) t) ≡ onward s n t result }
{
    if !float::two_finite(r.numerator, r.denominator) {
        return Err(Refusal::NotFinite);
    }
    if near | (r.denominator == 0.0) {
        return Ok(None);
    }
    let u = t - r.numerator / r.denominator;
    if !float::finite(u) {
        return Err(Refusal::NotFinite);
    }
    Ok(Some(u))
}

// The end of a search that takes at most `rounds` rounds from the estimate t.
pub fn search<R: Fn(f64) -> Result<Option<f64>, Refusal>>(
    rounds: usize,
    t: f64,
    round: R,
) -> Result<f64, Refusal>
    requires { R.IsAlwaysCallable round }
    ensures { (s : ℕ → Float → Calc Float) → SearchBy (λ u r. R.post round u r) s → answer result ≡ outcome (s rounds t) }
{
    let mut u = t;
    for _ in 0..rounds {
        let Some(v) = round(u)? else {
            return Ok(u);
        };
        u = v;
    }
    Ok(u)
}

// One round of refinement, at the estimate t.
fn round_at(c: Curve, q: Vertices, p: Point, t: f64) -> Result<Option<f64>, Refusal>
    ensures { (n : ℕ) → outcome (refine_by c q p (suc n) t) ≡ onward (refine_by c q p) n t result }
{
    let r = ratio_at(de_casteljau4(t, c.start, c.cp1, c.cp2, c.end), q, p, t);
    round_by(t, r, float::abs(r.numerator) < EPSILON)
}

// nearest_point.rs's refinement of an estimate, for arguments in range.
pub fn refine(c: Curve, p: Point, t: f64, rounds: usize) -> Result<f64, Refusal>
    ensures { answer result ≡ outcome (refine_of c p t rounds) }
{
    let q = vertices_of(c);
    if !vertices_finite(q) {
        return Err(Refusal::NotFinite);
    }
    let u = search(rounds, t, |t| round_at(c, q, p, t))?;
    Ok(float::min(float::max(u, 0.0), 1.0))
}
