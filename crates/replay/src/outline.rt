// Cases of an outline: the five fits, and the three that the second engine makes too. A line of more than 21,000 marks is bad. That is fewer than the fits by blocks take, so only the direct fit's own limit shows.
use crate::cursor::Cursor;
use crate::kind::{Blocks, Engine};
use crate::print::{Words, print_accepted, print_floats, print_refused};
use crate::room;
use cases::parts::{front, lent};
use float::refusal::Refusal;
use form::RECORD_NUMBERS;
use plane::Point;

// Which fit: the direct one has the tangents at its ends.
#[derive(Clone, Copy)]
enum Fit {
    Direct(Engine, Point, Point),
    Blocks(Blocks),
}

fn fit_by(
    fit: Fit,
    marks: &[f64],
    tolerance: f64,
    curves: &mut [f64],
    firsts: &mut [u32],
    worsts: &mut [u32],
    params: &mut [f64],
    open: &mut [u32],
) -> Result<usize, Refusal> {
    match fit {
        Fit::Direct(Engine::Nested, start, end) => {
            fit::fit_curve_cubic(marks, start, end, tolerance, curves, firsts, worsts, params)
        }
        Fit::Direct(Engine::Flat, start, end) => flat_fit::fit_curve_cubic_flat(
            marks, start, end, tolerance, curves, firsts, worsts, params, open,
        ),
        Fit::Blocks(Blocks::Source) => {
            fit::fit_curve(marks, tolerance, curves, firsts, worsts, params)
        }
        Fit::Blocks(Blocks::Loop) => {
            fit::fit_curve_loop(marks, tolerance, curves, firsts, worsts, params)
        }
        Fit::Blocks(Blocks::Joined(Engine::Nested)) => {
            fit::fit_joined(marks, tolerance, curves, firsts, worsts, params)
        }
        Fit::Blocks(Blocks::Joined(Engine::Flat)) => {
            flat_fit::fit_joined_flat(marks, tolerance, curves, firsts, worsts, params, open)
        }
        Fit::Blocks(Blocks::Ring(Engine::Nested)) => {
            fit::fit_ring(marks, tolerance, curves, firsts, worsts, params)
        }
        Fit::Blocks(Blocks::Ring(Engine::Flat)) => {
            flat_fit::fit_ring_flat(marks, tolerance, curves, firsts, worsts, params, open)
        }
    }
}

// How many parameters a fit of these marks has: a ring comes back to its first mark.
fn params_of(fit: Fit, marks: &[f64]) -> usize {
    let n = marks.len() / 2;
    match fit {
        Fit::Blocks(Blocks::Ring(_)) => n + 1,
        _ => n,
    }
}

// The curves, each its first mark, its worst mark and its record.
fn print_curves(curves: &[f64], firsts: &[u32], worsts: &[u32]) {
    let records = curves.chunks_exact(RECORD_NUMBERS);
    for ((first, worst), record) in firsts.iter().zip(worsts).zip(records) {
        cases::print_next_count(u64::from(*first));
        cases::print_next_count(u64::from(*worst));
        print_floats(record);
    }
}

// How many curves, the curves, and the parameters.
fn print_fit(k: usize, curves: &[f64], firsts: &[u32], worsts: &[u32], params: &[f64]) {
    print_accepted();
    k.print();
    print_curves(curves, front(firsts, k), worsts);
    print_floats(params);
}

// A fit's answer, its curves in this room.
fn say_fit(fit: Fit, marks: &[f64], tolerance: f64, curves: &mut [f64]) {
    let mut firsts = room::indices();
    let mut worsts = room::indices();
    let mut params = room::params();
    let mut open = room::open();
    let fitted = fit_by(
        fit,
        marks,
        tolerance,
        curves,
        &mut firsts,
        &mut worsts,
        &mut params,
        lent(&mut open, marks.len()),
    );
    match fitted {
        Ok(k) => print_fit(
            k,
            curves,
            &firsts,
            &worsts,
            front(&params, params_of(fit, marks)),
        ),
        Err(refusal) => print_refused(refusal),
    }
}

// A fit of the marks up to the line's end.
fn fit_case(fit: Fit, tolerance: f64, mut words: Cursor, curves: &mut [f64]) -> Option<()> {
    let mut room = room::marks();
    let marks = room.get_mut(..words.floats_left())?;
    words.floats(marks)?;
    words.end()?;
    say_fit(fit, marks, tolerance, curves);
    Some(())
}

// direct, direct_flat TOL SX SY EX EY X0 Y0 ..
pub fn direct_case(engine: Engine, mut words: Cursor, curves: &mut [f64]) -> Option<()> {
    let tolerance = words.float()?;
    let start = words.point()?;
    let end = words.point()?;
    fit_case(Fit::Direct(engine, start, end), tolerance, words, curves)
}

// source, loop, joined, ring, joined_flat, ring_flat TOL X0 Y0 ..
pub fn blocks_case(blocks: Blocks, mut words: Cursor, curves: &mut [f64]) -> Option<()> {
    let tolerance = words.float()?;
    fit_case(Fit::Blocks(blocks), tolerance, words, curves)
}
