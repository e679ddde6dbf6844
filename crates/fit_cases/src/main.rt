// The fits over kept outlines. A record on standard input is thirteen words of eight bytes and then the numbers of the marks:
// which fit, how many numbers, the room for curves, first marks, worst marks, parameters and open parts, whether the lists are printed, the tolerance, and the
// tangents for the direct fit. What is lent is 7.5 and 7 everywhere before the call. The first engine is lent nothing for open parts.
//
// A record's first line is 0 and the number of curves, or the refusal's number; then, for each of the lent slices, how many places are as
// before, how many are plus zero, and a digest of all of them. Lists follow where the record asks for them: a line for each curve, its
// first mark, worst mark and nine numbers, and one line with the parameters.
#![tactic(auto)]

ghost use Rattle.std.specs.Prelude.{◌≤◌};

use cases::parts::{front, lent};
use cases::{STDIN, STDOUT};
use float::refusal::Refusal;
use form::RECORD_NUMBERS;
use plane::Point;

// The bit pattern of 7.5.
const BEFORE: u64 = 0x401E_0000_0000_0000;

const BEFORE_MARK: u64 = 7;

// The room for the numbers of the marks and for open parts, two for each mark; for curves, first marks and worst marks, and parameters.
const NUMBERS: usize = 8194;

const CURVES: usize = 36864;

const FIRSTS: usize = 4096;

const PARAMS: usize = 4097;

// What a call is lent.
#[derive(Drop)]
struct Room<'a> {
    curves: &'a mut [f64],
    firsts: &'a mut [u32],
    worsts: &'a mut [u32],
    params: &'a mut [f64],
    open: &'a mut [u32],
}

fn print_state(before: u64, zeros: u64, digest: u64) {
    cases::print_next_count(before);
    cases::print_next_count(zeros);
    io::write_all(STDOUT, b" ");
    io::print_hex(STDOUT, digest, 16);
}

// 1 where two words are equal.
fn same(a: u64, b: u64) -> u64
    ensures { result ≤ 1 }
{
    if a == b { 1 } else { 0 }
}

// What a call left in a slice that held a word everywhere: how many places are as before, how many are zero, and a digest of all their words.
fn print_words_left<T, F: Fn(&T) -> u64>(xs: &[T], before: u64, word: F)
    requires { F.IsAlwaysCallable word }
{
    let mut kept: u64 = 0;
    let mut zeros: u64 = 0;
    let mut digest: u64 = 0;
    for x in xs {
        let w = word(x);
        kept += same(w, before);
        zeros += same(w, 0);
        digest = cases::mix(digest, w);
    }
    print_state(kept, zeros, digest);
}

fn print_floats_left(xs: &[f64]) {
    print_words_left(xs, BEFORE, |x| float::to_bits(*x));
}

fn print_marks_left(xs: &[u32]) {
    print_words_left(xs, BEFORE_MARK, |x| u64::from(*x));
}

// The numbers of a slice, each after a blank.
fn print_floats(xs: &[f64]) {
    for x in xs {
        cases::print_next(*x);
    }
}

// The worst mark of curve i.
fn print_worst(worsts: &[u32], i: usize) {
    if let Some(worst) = worsts.get(i) {
        cases::print_next_count(u64::from(*worst));
    }
}

// A line for each of the first n curves.
fn print_curves(n: usize, curves: &[f64], firsts: &[u32], worsts: &[u32]) {
    let records = curves.chunks_exact(RECORD_NUMBERS);
    for (i, (first, record)) in firsts.iter().zip(records).take(n).enumerate() {
        cases::print_count(u64::from(*first));
        print_worst(worsts, i);
        print_floats(record);
        cases::end_line();
    }
}

// The point in the two words that begin at `at`.
fn point_at(head: &[u8; 104], at: usize) -> Point
    requires { at ≤ 88 }
{
    Point {
        x: cases::number(head, at),
        y: cases::number(head, at + 8),
    }
}

// The direct fit of either engine, by the tangents of the record.
fn fit_direct(
    flat: bool,
    head: &[u8; 104],
    marks: &[f64],
    room: &mut Room,
) -> Result<usize, Refusal> {
    let start = point_at(head, 72);
    let end = point_at(head, 88);
    let tolerance = cases::number(head, 64);
    if flat {
        return flat_fit::fit_curve_cubic_flat(
            marks,
            start,
            end,
            tolerance,
            room.curves,
            room.firsts,
            room.worsts,
            room.params,
            room.open,
        );
    }
    fit::fit_curve_cubic(
        marks,
        start,
        end,
        tolerance,
        room.curves,
        room.firsts,
        room.worsts,
        room.params,
    )
}

// The fits by their numbers: 0 as the source cuts, 1 the same of a loop, 2 direct, 3 joined, 4 of a ring; by the second engine 5 direct, 6 joined, 7 of a ring.
fn fit_by_kind(head: &[u8; 104], marks: &[f64], room: &mut Room) -> Result<usize, Refusal> {
    let tolerance = cases::number(head, 64);
    match cases::word(head, 0) {
        0 => fit::fit_curve(
            marks,
            tolerance,
            room.curves,
            room.firsts,
            room.worsts,
            room.params,
        ),
        1 => fit::fit_curve_loop(
            marks,
            tolerance,
            room.curves,
            room.firsts,
            room.worsts,
            room.params,
        ),
        2 => fit_direct(false, head, marks, room),
        3 => fit::fit_joined(
            marks,
            tolerance,
            room.curves,
            room.firsts,
            room.worsts,
            room.params,
        ),
        4 => fit::fit_ring(
            marks,
            tolerance,
            room.curves,
            room.firsts,
            room.worsts,
            room.params,
        ),
        5 => fit_direct(true, head, marks, room),
        6 => flat_fit::fit_joined_flat(
            marks,
            tolerance,
            room.curves,
            room.firsts,
            room.worsts,
            room.params,
            room.open,
        ),
        _ => flat_fit::fit_ring_flat(
            marks,
            tolerance,
            room.curves,
            room.firsts,
            room.worsts,
            room.params,
            room.open,
        ),
    }
}

// How many parameters a fit of these marks has: a ring comes back to its first mark.
fn params_of(head: &[u8; 104], marks: &[f64]) -> usize {
    let n = marks.len() / 2;
    let kind = cases::word(head, 0);
    if (kind == 4) | (kind == 7) { n + 1 } else { n }
}

// A fit's number: 0 and how many curves, or the refusal.
fn print_fitted(fitted: Result<usize, Refusal>) {
    match fitted {
        Ok(n) => {
            cases::print_count(0);
            cases::print_next_count(n as u64);
        }
        Err(q) => cases::print_count(u64::from(q.number())),
    }
}

// The lines of an answer whose slices are as the call left them.
fn print_answer(lists: u64, fitted: Result<usize, Refusal>, times: usize, room: &Room) {
    print_fitted(fitted);
    print_left(room);
    if lists != 1 {
        return;
    }
    let Ok(n) = fitted else {
        return;
    };
    print_lists(n, times, room);
}

// The lines of one answer.
fn answer(head: &[u8; 104], marks: &[f64], room: &mut Room) {
    let fitted = fit_by_kind(head, marks, room);
    print_answer(cases::word(head, 56), fitted, params_of(head, marks), room);
}

fn print_left(room: &Room) {
    print_floats_left(room.curves);
    print_marks_left(room.firsts);
    print_marks_left(room.worsts);
    print_floats_left(room.params);
    print_marks_left(room.open);
    cases::end_line();
}

fn print_lists(n: usize, times: usize, room: &Room) {
    print_curves(n, room.curves, room.firsts, room.worsts);
    if times > room.params.len() {
        return;
    }
    print_floats(front(room.params, times));
    cases::end_line();
}

// The word of a record's head that says a length.
fn length_at(head: &[u8; 104], at: usize) -> usize {
    cases::word(head, at) as usize
}

// Whether there is as much room as a head asks for: 4,096 marks have room, and 4,097 can be asked for.
fn fits(head: &[u8; 104]) -> bool {
    (length_at(head, 8) <= NUMBERS)
        & (length_at(head, 16) <= CURVES)
        & (length_at(head, 24) <= FIRSTS)
        & (length_at(head, 32) <= FIRSTS)
        & (length_at(head, 40) <= PARAMS)
        & (length_at(head, 48) <= NUMBERS)
}

// A record after its head, with the slices cut to the lengths that the head names.
fn record(head: &[u8; 104], marks: &[f64]) {
    let mut curves = [7.5; CURVES];
    let mut firsts = [7u32; FIRSTS];
    let mut worsts = [7u32; FIRSTS];
    let mut params = [7.5; PARAMS];
    let mut open = [7u32; NUMBERS];
    answer(
        head,
        marks,
        &mut Room {
            curves: lent(&mut curves, length_at(head, 16)),
            firsts: lent(&mut firsts, length_at(head, 24)),
            worsts: lent(&mut worsts, length_at(head, 32)),
            params: lent(&mut params, length_at(head, 40)),
            open: lent(&mut open, length_at(head, 48)),
        },
    );
}

// One record, if there is one with no more than there is room for.
fn step() -> bool {
    let mut head = [0u8; 104];
    if io::read_full(STDIN, &mut head) < 104 {
        return false;
    }
    if !fits(&head) {
        return false;
    }
    let mut marks = [0.0; NUMBERS];
    let m = length_at(&head, 8);
    cases::read_floats(&mut marks, m);
    record(&head, front(&marks, m));
    true
}

fn main() {
    cases::each_case(step);
}
