// Import: the curves of path data, in a lent slice. One walk along the text counts the curves, and a second one, once all tests are passed, puts them.
#![tactic(auto)]

ghost use Rattle.std.specs.Prelude.{◌≡◌, [], ◌∷◌, ◌^◌, ◌≤◌, ◌<◌, length, drop};
ghost use Rattle.float.specs.Refusal.{answer};
ghost use Rattle.float.specs.Slices.{written};
ghost use Rattle.marks.specs.Line.{line_of};
ghost use Rattle.form.specs.Form.{curve_numbers};
ghost use Rattle.path.specs.Grammar.{pair as pair_of, arguments, drawn_by, step, path_of};
ghost use Rattle.path.specs.Curves.{eights};
ghost use Rattle.import.specs.Import.{left as leaving, import_of};
ghost use Rattle.path.specs.declared.Letter.TheVariants as letters;
ghost use Rattle.numerals.specs.Numerals.{mapped};
ghost use Rattle.import.specs.Drawn.{Marked, standing, pair_answer, bent, drawn_answer, closed_by, next_answer, step_answer};
ghost use Rattle.import.specs.Walk.{placed, Closes, draws_of, left_answer, walked_answer, wholly_answer, seen_of};

use float::refusal::Refusal;
use form::CURVE_NUMBERS;
use marks::fit_line;
use numerals::{apart_at, byte_at, number_at, past_space};
use path::{Letter, is_small};
use plane::{Curve, Point, equal};
use thousandths::nearest;

// How many curves were read, and whether Z closed them.
#[derive(Clone, Copy)]
pub struct Imported {
    pub count: usize,
    pub closed: bool,
}

// ---- numbers

// The point of a pair of numbers, whether both are small enough, and the place behind them.
#[derive(Clone, Copy)]
struct Pair {
    point: Point,
    small: bool,
    rest: usize,
}

// The pair at a place, if there is one.
fn pair_at(text: &[u8], at: usize) -> Option<Pair>
    ensures { pair_answer text.now result ≡ mapped standing (pair_of (drop at text.now)) }
{
    let x = number_at(text, at)?;
    let y = number_at(text, apart_at(text, x.rest))?;
    Some(Pair {
        point: Point {
            x: nearest(x.decimal),
            y: nearest(y.decimal),
        },
        small: is_small(x.decimal) & is_small(y.decimal),
        rest: y.rest,
    })
}

// ---- segments

// The curve that a letter's numbers draw, whether they are small enough, and the place behind them.
#[derive(Clone, Copy)]
struct Drawn {
    curve: Curve,
    small: bool,
    rest: usize,
}

// The line of two points, which is none that is lost: no number is far above 1,000,000,000.
fn line(p: Point, q: Point) -> Curve
    requires { Marked p × Marked q }
    ensures { result ≡ (line_of p q).val }
{
    fit_line(p, q).unwrap_or(Curve {
        start: p,
        cp1: p,
        cp2: q,
        end: q,
    })
}

// The line from p to the point at a place, if there is one.
fn line_at(text: &[u8], at: usize, p: Point) -> Option<Drawn>
    requires { Marked p }
    ensures { drawn_answer text.now result ≡ mapped (bent p) (arguments letters.Line (drop at text.now)) }
{
    let end = pair_at(text, at)?;
    Some(Drawn {
        curve: line(p, end.point),
        small: end.small,
        rest: end.rest,
    })
}

// The curve from p by the three points at a place, if they are there.
fn curve_at(text: &[u8], at: usize, p: Point) -> Option<Drawn>
    ensures { drawn_answer text.now result ≡ mapped (bent p) (arguments letters.Curve (drop at text.now)) }
{
    let cp1 = pair_at(text, at)?;
    let cp2 = pair_at(text, apart_at(text, cp1.rest))?;
    let end = pair_at(text, apart_at(text, cp2.rest))?;
    Some(Drawn {
        curve: Curve {
            start: p,
            cp1: cp1.point,
            cp2: cp2.point,
            end: end.point,
        },
        small: cp1.small & (cp2.small & end.small),
        rest: end.rest,
    })
}

// ---- put

// Eight numbers at the front of the slice.
fn put_eight(out: &mut [f64], c: Curve)
    requires { curve_numbers ≤ length out.old }
    ensures { out.new ≡ written (eights (c ∷ [])) out.old }
{
    out[..CURVE_NUMBERS].copy_from_slice(&[
        c.start.x, c.start.y, c.cp1.x, c.cp1.y, c.cp2.x, c.cp2.y, c.end.x, c.end.y,
    ]);
}

// Curve k at its place, if there is room for it.
fn put_curve(out: &mut [f64], k: usize, c: Curve)
    ensures { out.new ≡ placed out.old k c }
{
    if k < out.len() / CURVE_NUMBERS {
        let from = CURVE_NUMBERS * k;
        put_eight(&mut out[from..], c);
    }
}

// ---- steps

// What comes next in a text: what a letter's numbers draw, by which letter; Z and the end; or the end.
#[derive(Clone, Copy)]
enum Step {
    Drawn { letter: Letter, drawn: Drawn },
    Closed,
    Ended,
}

// What a letter's numbers draw from p.
fn arguments_at(text: &[u8], at: usize, letter: Letter, p: Point) -> Option<Drawn>
    requires { Marked p }
    ensures { drawn_answer text.now result ≡ mapped (bent p) (arguments letter (drop at text.now)) }
{
    match letter {
        Letter::Line => line_at(text, at, p),
        Letter::Curve => curve_at(text, at, p),
    }
}

// The step that a letter's numbers make.
fn drawn_at(text: &[u8], at: usize, letter: Letter, p: Point) -> Option<Step>
    requires { Marked p }
    ensures { step_answer text.now result ≡ next_answer p (drawn_by letter (drop at text.now)) }
{
    let drawn = arguments_at(text, at, letter, p)?;
    Some(Step::Drawn { letter, drawn })
}

// Behind Z there is nothing but white space.
fn closed_at(text: &[u8], at: usize) -> Option<Step>
    ensures { step_answer text.now result ≡ closed_by (drop at text.now) }
{
    if past_space(text, at) < text.len() {
        return None;
    }
    Some(Step::Closed)
}

// What comes next behind a segment that a letter drew, which ended at p: without a letter of its own, that letter's numbers again. Nothing
// where the grammar does not have it.
fn step_at(text: &[u8], at: usize, letter: Letter, p: Point) -> Option<Step>
    requires { Marked p }
    ensures { step_answer text.now result ≡ next_answer p (step letter (drop at text.now)) }
{
    let next = past_space(text, at);
    if next >= text.len() {
        return Some(Step::Ended);
    }
    let b = byte_at(text, next);
    if b == b'Z' {
        return closed_at(text, next + 1);
    }
    if b == b'L' {
        return drawn_at(text, past_space(text, next + 1), Letter::Line, p);
    }
    if b == b'C' {
        return drawn_at(text, past_space(text, next + 1), Letter::Curve, p);
    }
    drawn_at(text, apart_at(text, at), letter, p)
}

// ---- the walk

// How many curves a text has, whether Z closes them and whether all its numbers are small enough.
#[derive(Clone, Copy)]
struct Walked {
    count: usize,
    closed: bool,
    small: bool,
}

// How many curves there are with Z at p, which puts a line back to the start unless p is there.
fn close(out: &mut [f64], start: Point, p: Point, count: usize) -> usize
    requires { (count < 2 ^ 63) × (Marked start × Marked p) }
    ensures { Closes start p count out.old result out.new }
{
    if equal(p, start) {
        return count;
    }
    put_curve(out, count, line(p, start));
    count + 1
}

// The walk behind the first pair: puts each curve that there is room for. Nothing where the grammar does not have the text.
fn walk_on(text: &[u8], from: usize, start: Point, fits: bool, out: &mut [f64]) -> Option<Walked>
    requires { Marked start }
    ensures { walked_answer result out.new ≡ left_answer start start 0 fits out.old (draws_of letters.Line (drop from text.now)) }
{
    let mut at = from;
    let mut letter = Letter::Line;
    let mut p = start;
    let mut small = fits;
    let mut count: usize = 0;
    loop {
        match step_at(text, at, letter, p)? {
            Step::Drawn { letter: by, drawn } => {
                put_curve(out, count, drawn.curve);
                at = drawn.rest;
                letter = by;
                p = drawn.curve.end;
                small = small & drawn.small;
                count += 1;
            }
            Step::Closed => {
                return Some(Walked {
                    count: close(out, start, p, count),
                    closed: true,
                    small,
                });
            }
            Step::Ended => {
                return Some(Walked {
                    count,
                    closed: false,
                    small,
                });
            }
        }
    }
}

// The walk along a whole text.
fn walk(text: &[u8], out: &mut [f64]) -> Option<Walked>
    ensures { walked_answer result out.new ≡ wholly_answer out.old (path_of text.now) }
{
    let first = past_space(text, 0);
    if byte_at(text, first) != b'M' {
        return None;
    }
    let start = pair_at(text, past_space(text, first + 1))?;
    walk_on(text, start.rest, start.point, start.small, out)
}

// ---- import

// How many curves a text has, without a place to put one.
fn survey(text: &[u8]) -> Result<Walked, Refusal>
    ensures { answer result ≡ seen_of (path_of text.now) }
{
    let mut none = [0.0; 0];
    walk(text, &mut none).ok_or(Refusal::NoPath)
}

// Puts the curves of path data into the lent slice, which stays as it is where the text is refused.
pub fn import_path(text: &[u8], curves: &mut [f64]) -> Result<Imported, Refusal>
    ensures { leaving (answer result) curves.new ≡ import_of text.now curves.old }
{
    let Walked {
        count,
        closed,
        small,
    } = survey(text)?;
    if !small {
        return Err(Refusal::TooLarge);
    }
    if count > curves.len() / CURVE_NUMBERS {
        return Err(Refusal::NoRoom);
    }
    walk(text, curves);
    Ok(Imported { count, closed })
}
