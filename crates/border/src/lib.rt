// What crosses to C. An answer goes over as its number, 0 where nothing is refused, and its values through references; where something is refused they are zeros.
#![tactic(auto)]

ghost use Rattle.std.specs.Prelude.{◌≡◌};
ghost use Rattle.float.specs.Refusal.{answer as answer_of};
ghost use Rattle.nearest.specs.Nearest.{nearest_answer};
ghost use Rattle.checker.specs.Check.{checked_answer, place};
ghost use Rattle.salvaging.specs.Salvage.{sizes};
ghost use Rattle.border.specs.Crossing.{outline_for, form_for, crossed, crossing, count_crossed, number_crossed, xy, point_crossed, abcd, coefficients_crossed, eight, parts, halves_crossed, nearest, nearest_crossed, fault_crossed, verdict_crossed, found, found_crossed, salvaged_crossed, drawn, drawn_crossed};

use checker::{Checked, Fault, Place};
use cubic::eval::Coefficients;
use cubic::split::Halves;
use float::refusal::Refusal;
use form::Form;
use import::Imported;
use nearest::NearestPoint;
use plane::{Curve, Point};
use reader::Found;
use ring::Outline;
use salvaging::Sizes;

// ---- what comes in

// The outline that C means.
pub fn outline_for(ring: bool) -> Outline
    ensures { result ≡ outline_for ring }
{
    if ring {
        return Outline::Closed;
    }
    Outline::Open
}

// How the curves are stored that C means.
pub fn form_for(nine: bool) -> Form
    ensures { result ≡ form_for nine }
{
    if nine {
        return Form::Nine;
    }
    Form::Eight
}

// ---- one value

// An answer's number, 0 of one that is accepted; its value goes to `place`, and where something is refused `nothing` does.
fn put<T: Copy>(answer: Result<T, Refusal>, nothing: T, place: &mut T) -> u32
    ensures { crossed result place.new ≡ crossing (λ v. v) nothing (answer_of answer) }
{
    match answer {
        Ok(value) => {
            *place = value;
            0
        }
        Err(refusal) => {
            *place = nothing;
            refusal.number()
        }
    }
}

// The same of an answer that has two values, each with a place of its own.
fn put_both<A: Copy, B: Copy>(
    answer: Result<(A, B), Refusal>,
    nothing: (A, B),
    first: &mut A,
    second: &mut B,
) -> u32
    ensures { crossed result (first.new, second.new) ≡ crossing (λ v. v) nothing (answer_of answer) }
{
    let mut values = nothing;
    let number = put(answer, nothing, &mut values);
    *first = values.0;
    *second = values.1;
    number
}

// How many: curves that a fit made, or bytes that were written.
#[tactic(auto, unfolding(crate::specs::Crossing::count_crossed))]
pub fn put_count(answer: Result<usize, Refusal>, count: &mut usize) -> u32
    ensures { crossed result count.new ≡ count_crossed (answer_of answer) }
{
    put(answer, 0, count)
}

// A parameter.
#[tactic(auto, unfolding(crate::specs::Crossing::number_crossed))]
pub fn put_refined(answer: Result<f64, Refusal>, t: &mut f64) -> u32
    ensures { crossed result t.new ≡ number_crossed (answer_of answer) }
{
    put(answer, 0.0, t)
}

// ---- one curve

// A point's two numbers.
fn xy(p: Point) -> [f64; 2]
    ensures { result ≡ xy p }
{
    [p.x, p.y]
}

// A point.
#[tactic(auto, unfolding(crate::specs::Crossing::point_crossed))]
pub fn put_point(answer: Result<Point, Refusal>, point: &mut [f64; 2]) -> u32
    ensures { crossed result point.new ≡ point_crossed (answer_of answer) }
{
    let mut p = Point { x: 0.0, y: 0.0 };
    let number = put(answer, p, &mut p);
    *point = xy(p);
    number
}

// The four coefficients.
fn abcd(k: Coefficients) -> [f64; 4]
    ensures { result ≡ abcd k }
{
    [k.a, k.b, k.c, k.d]
}

// A curve's coefficients.
#[tactic(auto, unfolding(crate::specs::Crossing::coefficients_crossed))]
pub fn put_coefficients(answer: Result<Coefficients, Refusal>, coefficients: &mut [f64; 4]) -> u32
    ensures { crossed result coefficients.new ≡ coefficients_crossed (answer_of answer) }
{
    let mut k = Coefficients {
        a: 0.0,
        b: 0.0,
        c: 0.0,
        d: 0.0,
    };
    let number = put(answer, k, &mut k);
    *coefficients = abcd(k);
    number
}

// A curve's eight numbers.
fn eight(c: Curve) -> [f64; 8]
    ensures { result ≡ eight c }
{
    [
        c.start.x, c.start.y, c.cp1.x, c.cp1.y, c.cp2.x, c.cp2.y, c.end.x, c.end.y,
    ]
}

// The two parts of a curve.
#[tactic(auto, unfolding(crate::specs::Crossing::halves_crossed))]
pub fn put_halves(answer: Result<Halves, Refusal>, left: &mut [f64; 8], right: &mut [f64; 8]) -> u32
    ensures { crossed result (parts left.new right.new) ≡ halves_crossed (answer_of answer) }
{
    let halves = answer.map(|h| (eight(h.left), eight(h.right)));
    put_both(halves, ([0.0; 8], [0.0; 8]), left, right)
}

// The nearest point's parameter and its squared distance.
#[tactic(auto, unfolding(crate::specs::Crossing::nearest_crossed, nearest::specs::Nearest::nearest_answer))]
pub fn put_nearest(answer: NearestPoint, t: &mut f64, distance_sq: &mut f64) -> u32
    ensures { crossed result (nearest t.new distance_sq.new) ≡ nearest_crossed (nearest_answer answer) }
{
    match answer {
        NearestPoint::Found(at, d) => {
            *t = at;
            *distance_sq = d;
            0
        }
        NearestPoint::Refused(refusal) => {
            *t = 0.0;
            *distance_sq = 0.0;
            refusal.number()
        }
    }
}

// ---- verdicts

// A number and a place.
fn put_place(number: u32, at: Place, curve: &mut usize, mark: &mut usize) -> u32
    ensures { crossed result (place curve.new mark.new) ≡ crossed number at }
{
    *curve = at.curve;
    *mark = at.mark;
    number
}

// A fault, whose number is its letter's in ASCII.
fn put_fault(fault: Fault, curve: &mut usize, mark: &mut usize) -> u32
    ensures { crossed result (place curve.new mark.new) ≡ fault_crossed fault }
{
    match fault {
        Fault::A(p) => put_place(65, p, curve, mark),
        Fault::B(p) => put_place(66, p, curve, mark),
        Fault::C(p) => put_place(67, p, curve, mark),
        Fault::D(p) => put_place(68, p, curve, mark),
        Fault::E(p) => put_place(69, p, curve, mark),
    }
}

// What the checker says.
#[tactic(auto, unfolding(crate::specs::Crossing::verdict_crossed, checker::specs::Check::checked_answer))]
pub fn put_checked(answer: Checked, curve: &mut usize, mark: &mut usize) -> u32
    ensures { crossed result (place curve.new mark.new) ≡ verdict_crossed (checked_answer answer) }
{
    match answer {
        Checked::Passed => put_place(0, Place { curve: 0, mark: 0 }, curve, mark),
        Checked::Faulty(fault) => put_fault(fault, curve, mark),
        Checked::Refused(refusal) => put_place(
            refusal.number(),
            Place { curve: 0, mark: 0 },
            curve,
            mark,
        ),
    }
}

// ---- files

// Whether a curve has nine numbers and a worst mark.
fn is_nine(form: Form) -> bool
    ensures { form_for result ≡ form }
{
    match form {
        Form::Eight => false,
        Form::Nine => true,
    }
}

// What a file holds beside the slices.
#[tactic(auto, unfolding(crate::specs::Crossing::found_crossed))]
pub fn put_read(
    answer: Result<Found, Refusal>,
    tolerance: &mut u64,
    mark_count: &mut usize,
    curve_count: &mut usize,
    nine: &mut bool,
) -> u32
    ensures { crossed result (found nine.new tolerance.new mark_count.new curve_count.new) ≡ found_crossed (answer_of answer) }
{
    match answer {
        Ok(found) => {
            *nine = is_nine(found.form);
            *tolerance = found.tolerance;
            *mark_count = found.marks;
            *curve_count = found.curves;
            0
        }
        Err(refusal) => {
            *nine = false;
            *tolerance = 0;
            *mark_count = 0;
            *curve_count = 0;
            refusal.number()
        }
    }
}

// How many bytes a cleaned file has, and how many its list.
#[tactic(auto, unfolding(crate::specs::Crossing::salvaged_crossed))]
pub fn put_salvaged(
    answer: Result<Sizes, Refusal>,
    size: &mut usize,
    report_size: &mut usize,
) -> u32
    ensures { crossed result (sizes size.new report_size.new) ≡ salvaged_crossed (answer_of answer) }
{
    let both = answer.map(|s| (s.file, s.report));
    put_both(both, (0, 0), size, report_size)
}

// How many curves path data draws, and whether it closes.
#[tactic(auto, unfolding(crate::specs::Crossing::drawn_crossed))]
pub fn put_imported(answer: Result<Imported, Refusal>, count: &mut usize, closed: &mut bool) -> u32
    ensures { crossed result (drawn «count».new closed.new) ≡ drawn_crossed (answer_of answer) }
{
    let both = answer.map(|path| (path.count, path.closed));
    put_both(both, (0, false), count, closed)
}
