// The fits: the marks of an outline to curves. Each tests its own arguments, and a refused run leaves zeros. The four by blocks are one call each, under the names that callers know.
#![tactic(auto)]

ghost use Rattle.std.specs.Prelude.{◌≡◌, length, replicate};
ghost use Rattle.float.specs.Number.{f0};
ghost use Rattle.float.specs.Refusal.{answer, refusal};
ghost use Rattle.tangents.specs.declared.Cutting.TheVariants as variants;
ghost use Rattle.fit.specs.Fit.{ending, component, are_tangents, fit_of, cubic_of, cubic_gate};

use float::refusal::Refusal;
use gate::Room;
use limits::MOST_MARKS;
use plane::Point;
use ring::Outline;
use tangents::Cutting;

// The most marks that the direct fit takes.
const MOST_DIRECT: usize = 512;

// Whether x may be a tangent's component. A NaN or an infinity is not at most 2.
fn is_component(x: f64) -> bool
    ensures { result ≡ component x }
{
    float::abs(x) <= 2.0
}

// Whether two vectors may be tangents.
fn are_tangents(v: Point, w: Point) -> bool
    ensures { result ≡ are_tangents v w }
{
    is_component(v.x) & is_component(v.y) & (is_component(w.x) & is_component(w.y))
}

// Every number of the four lent slices zero.
pub fn zero_all(curves: &mut [f64], firsts: &mut [u32], worsts: &mut [u32], params: &mut [f64])
    ensures { (curves.new ≡ replicate (length curves.old) f0) × (firsts.new ≡ replicate (length firsts.old) 0) × (worsts.new ≡ replicate (length worsts.old) 0) × (params.new ≡ replicate (length params.old) f0) }
{
    gate::zero_floats(curves);
    gate::zero_numbers(firsts);
    gate::zero_numbers(worsts);
    gate::zero_floats(params);
}

// What the direct fit tests before it runs.
pub fn gate_cubic(
    marks: &[f64],
    start: Point,
    end: Point,
    tolerance: f64,
    room: Room,
) -> Result<(), Refusal>
    ensures { refusal result ≡ cubic_gate marks.now start end tolerance room.curves room.firsts room.worsts room.params }
{
    gate::gate(Outline::Open, marks, tolerance, MOST_DIRECT, room)?;
    if !are_tangents(start, end) {
        return Err(Refusal::OutOfRange);
    }
    Ok(())
}

// The direct fit: all marks as one part, with the tangents at its ends given.
pub fn fit_curve_cubic(
    marks: &[f64],
    start: Point,
    end: Point,
    tolerance: f64,
    curves: &mut [f64],
    firsts: &mut [u32],
    worsts: &mut [u32],
    params: &mut [f64],
) -> Result<usize, Refusal>
    ensures { ending (answer result) curves.new firsts.new worsts.new params.new ≡ cubic_of marks.now start end tolerance curves.old firsts.old worsts.old params.old }
{
    let room = Room {
        curves: curves.len(),
        firsts: firsts.len(),
        worsts: worsts.len(),
        params: params.len(),
    };
    gate_cubic(marks, start, end, tolerance, room)?;
    let n = marks.len() / 2;
    let out = cut::fit_part(
        marks,
        0,
        start,
        end,
        tolerance,
        curves,
        firsts,
        worsts,
        &mut params[..n],
    );
    let Ok(made) = out else {
        zero_all(curves, firsts, worsts, params);
        return out;
    };
    Ok(made)
}

// A fit by blocks, of the size that suits the number of marks that are cut.
fn fit_cut(
    cutting: Cutting,
    marks: &[f64],
    tolerance: f64,
    curves: &mut [f64],
    firsts: &mut [u32],
    worsts: &mut [u32],
    params: &mut [f64],
) -> Result<usize, Refusal>
    ensures { ending (answer result) curves.new firsts.new worsts.new params.new ≡ fit_of cutting marks.now tolerance curves.old firsts.old worsts.old params.old }
{
    let outline = tangents::outline_of(cutting);
    let room = Room {
        curves: curves.len(),
        firsts: firsts.len(),
        worsts: worsts.len(),
        params: params.len(),
    };
    gate::gate(outline, marks, tolerance, MOST_MARKS, room)?;
    let n = ring::again(outline) + marks.len() / 2;
    let size = marks::max_points_to_fit(n);
    let out = blocks::fit_blocks(
        cutting,
        marks,
        size,
        tolerance,
        curves,
        firsts,
        worsts,
        &mut params[..n],
    );
    let Ok(total) = out else {
        zero_all(curves, firsts, worsts, params);
        return out;
    };
    Ok(total)
}

// The fit as the source cuts an outline into blocks, which do not meet.
pub fn fit_curve(
    marks: &[f64],
    tolerance: f64,
    curves: &mut [f64],
    firsts: &mut [u32],
    worsts: &mut [u32],
    params: &mut [f64],
) -> Result<usize, Refusal>
    ensures { ending (answer result) curves.new firsts.new worsts.new params.new ≡ fit_of variants.Source marks.now tolerance curves.old firsts.old worsts.old params.old }
{
    fit_cut(
        Cutting::Source,
        marks,
        tolerance,
        curves,
        firsts,
        worsts,
        params,
    )
}

// The same of an outline whose last mark is followed by its first: the tangents at a block's ends come from beyond it.
pub fn fit_curve_loop(
    marks: &[f64],
    tolerance: f64,
    curves: &mut [f64],
    firsts: &mut [u32],
    worsts: &mut [u32],
    params: &mut [f64],
) -> Result<usize, Refusal>
    ensures { ending (answer result) curves.new firsts.new worsts.new params.new ≡ fit_of variants.Loop marks.now tolerance curves.old firsts.old worsts.old params.old }
{
    fit_cut(
        Cutting::Loop,
        marks,
        tolerance,
        curves,
        firsts,
        worsts,
        params,
    )
}

// The joined fit: each block starts on the mark at which the last one ended, so that the curves leave no gap, and along the tangent there, so that they leave no kink.
pub fn fit_joined(
    marks: &[f64],
    tolerance: f64,
    curves: &mut [f64],
    firsts: &mut [u32],
    worsts: &mut [u32],
    params: &mut [f64],
) -> Result<usize, Refusal>
    ensures { ending (answer result) curves.new firsts.new worsts.new params.new ≡ fit_of variants.Joined marks.now tolerance curves.old firsts.old worsts.old params.old }
{
    fit_cut(
        Cutting::Joined,
        marks,
        tolerance,
        curves,
        firsts,
        worsts,
        params,
    )
}

// The ring fit: the joined fit of a closed outline. Mark 0 counts again behind the last, so that the last curve ends on the very mark where the first
// begins, and along the same tangent. For n marks there is room for n curves and n + 1 parameters.
pub fn fit_ring(
    marks: &[f64],
    tolerance: f64,
    curves: &mut [f64],
    firsts: &mut [u32],
    worsts: &mut [u32],
    params: &mut [f64],
) -> Result<usize, Refusal>
    ensures { ending (answer result) curves.new firsts.new worsts.new params.new ≡ fit_of variants.Ring marks.now tolerance curves.old firsts.old worsts.old params.old }
{
    fit_cut(
        Cutting::Ring,
        marks,
        tolerance,
        curves,
        firsts,
        worsts,
        params,
    )
}
