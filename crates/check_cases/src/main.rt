// The list checker over kept lists and damaged copies of them. A record on standard input is ten words of eight bytes: whether the list is a
// ring's, whether its curves have nine numbers or eight, how many numbers the marks have, the claimed number of curves, the lengths of the slices of curves, first marks, worst marks and
// parameters, whether copies are damaged, and the tolerance. Then the numbers of the marks, curves and parameters, and the first marks and the worst marks, a word each.
//
// A record's first line is the answer. Where copies are damaged, a line for each kind of damage follows: how many copies pass, how many have
// fault A, B, C, D and E and how many are refused, and a digest of all their answers in turn. Each number in turn has its last bit changed, is
// NaN, is infinite, is minus zero; each first mark and each worst mark is one up, one down, the last mark, the largest u32, its neighbour's, and swapped with
// its neighbour; then counts and lengths are varied.
#![tactic(auto)]

use cases::parts::{front, lent, part};
use cases::{STDIN, STDOUT};
use checker::{Checked, Fault, Place};
use form::Form;
use ring::Outline;

// The outline that the list is of and its form, the claimed count, the lengths, where the worst marks, the curves and the parameters begin, how many numbers there are in all, and the tolerance.
#[derive(Clone, Copy)]
struct Sizes {
    outline: Outline,
    form: Form,
    marks: usize,
    count: usize,
    curves: usize,
    firsts: usize,
    worsts: usize,
    params: usize,
    first_worst: usize,
    first_curve: usize,
    first_param: usize,
    numbers: usize,
    tolerance: f64,
}

// How many kinds of answer there are.
const KINDS: usize = 7;

// An answer as numbers: 0 passed, 1 to 5 the faults A to E, 6 a refusal, which has its number in `curve`.
#[derive(Clone, Copy)]
struct Verdict {
    kind: usize,
    curve: u64,
    mark: u64,
}

// How many answers of each kind, and a digest of all.
#[derive(Clone, Copy)]
struct Tally {
    answers: [u64; KINDS],
    digest: u64,
}

fn at(kind: usize, p: Place) -> Verdict {
    Verdict {
        kind,
        curve: p.curve as u64,
        mark: p.mark as u64,
    }
}

fn fault_said(f: Fault) -> Verdict {
    match f {
        Fault::A(p) => at(1, p),
        Fault::B(p) => at(2, p),
        Fault::C(p) => at(3, p),
        Fault::D(p) => at(4, p),
        Fault::E(p) => at(5, p),
    }
}

fn said(r: Checked) -> Verdict {
    match r {
        Checked::Passed => Verdict {
            kind: 0,
            curve: 0,
            mark: 0,
        },
        Checked::Faulty(f) => fault_said(f),
        Checked::Refused(q) => Verdict {
            kind: 6,
            curve: u64::from(q.number()),
            mark: 0,
        },
    }
}

fn nothing() -> Tally {
    Tally {
        answers: [0; KINDS],
        digest: 0,
    }
}

fn note(t: &mut Tally, s: Verdict) {
    if let Some(answers) = t.answers.get_mut(s.kind) {
        *answers = answers.wrapping_add(1);
    }
    let kind = cases::mix(t.digest, s.kind as u64);
    t.digest = cases::mix(cases::mix(kind, s.curve), s.mark);
}

fn print_said(s: Verdict) {
    cases::print_count(s.kind as u64);
    cases::print_next_count(s.curve);
    cases::print_next_count(s.mark);
    cases::end_line();
}

fn print_tally(t: Tally) {
    for answers in t.answers {
        cases::print_next_count(answers);
    }
    io::write_all(STDOUT, b" ");
    io::print_hex(STDOUT, t.digest, 16);
    cases::end_line();
}

// What the checker says of the lists in `all` (marks, curves, parameters) and `beside` (first marks, worst marks), cut to the given sizes.
fn judge(all: &[f64], beside: &[u32], s: Sizes) -> Verdict {
    let outline = s.outline;
    let form = s.form;
    said(checker::check(
        outline,
        form,
        front(all, s.marks),
        s.tolerance,
        s.count,
        part(all, s.first_curve, s.curves),
        front(beside, s.firsts),
        part(beside, s.first_worst, s.worsts),
        part(all, s.first_param, s.params),
    ))
}

// Another number in the place of x: the last bit changed, NaN, an infinity, minus zero.
fn damaged(x: f64, kind: u64) -> f64 {
    match kind {
        0 => {
            let b = float::to_bits(x);
            if b % 2 == 0 {
                float::of_bits(b.wrapping_add(1))
            } else {
                float::of_bits(b - 1)
            }
        }
        1 => 0.0 / 0.0,
        2 => 1.0 / 0.0,
        _ => -0.0,
    }
}

// Each of the first n numbers in turn.
fn damage_numbers(all: &mut [f64], beside: &[u32], s: Sizes, n: usize, kind: u64) {
    let mut t = nothing();
    for i in 0..n {
        if i >= all.len() {
            return;
        }
        let x = all[i];
        all[i] = damaged(x, kind);
        note(&mut t, judge(all, beside, s));
        all[i] = x;
    }
    print_tally(t);
}

// Another mark's number in the place of a, whose neighbour is b, for curves over n marks.
fn another(a: u32, b: u32, n: u32, kind: u64) -> u32 {
    match kind {
        0 => a.wrapping_add(1),
        1 => a.wrapping_sub(1),
        2 => n.wrapping_sub(1),
        3 => 0xFFFF_FFFF,
        _ => b,
    }
}

// What the neighbour b of a becomes.
fn swapped(a: u32, b: u32, kind: u64) -> u32 {
    if kind == 5 { a } else { b }
}

// The place after j of n, and 0 after the last.
fn neighbour(j: usize, n: usize) -> usize {
    if j < n && j + 1 < n { j + 1 } else { 0 }
}

// Each first mark and each worst mark in turn. Kind 5 swaps it with its neighbour.
fn damage_beside(all: &[f64], beside: &mut [u32], s: Sizes, n: u32, kind: u64) {
    let mut t = nothing();
    for j in 0..beside.len() {
        let next = neighbour(j, beside.len());
        if next >= beside.len() {
            return;
        }
        let a = beside[j];
        let b = beside[next];
        beside[next] = swapped(a, b, kind);
        beside[j] = another(a, b, n, kind);
        note(&mut t, judge(all, beside, s));
        beside[next] = b;
        beside[j] = a;
    }
    print_tally(t);
}

// Counts one up, one down, none, and two that no slice could hold; lengths that are too short.
fn varied(s: Sizes, kind: u64) -> Sizes {
    let mut v = s;
    match kind {
        0 => {
            v.count = s.count.wrapping_add(1);
        }
        1 => {
            v.count = s.count.saturating_sub(1);
        }
        2 => {
            v.count = 0;
        }
        3 => {
            v.count = 0xFFFF_FFFF_FFFF_FFFF;
        }
        4 => {
            v.count = 0x2000_0000_0000_0000;
        }
        5 => {
            v.marks = s.marks.saturating_sub(1);
        }
        6 => {
            v.marks = s.marks.saturating_sub(2);
        }
        7 => {
            v.curves = s.curves.saturating_sub(1);
        }
        8 => {
            let form = s.form;
            v.curves = s.curves.saturating_sub(form::width(form));
        }
        9 => {
            v.firsts = s.firsts.saturating_sub(1);
        }
        10 => {
            v.worsts = s.worsts.saturating_sub(1);
        }
        11 => {
            v.params = s.params.saturating_sub(1);
        }
        _ => {
            v.tolerance = -s.tolerance;
        }
    }
    v
}

// The counts and lengths.
fn damage_sizes(all: &[f64], beside: &[u32], s: Sizes) {
    let mut t = nothing();
    for kind in 0..13 {
        note(&mut t, judge(all, beside, varied(s, kind)));
    }
    print_tally(t);
}

fn every_number(all: &mut [f64], beside: &[u32], s: Sizes, n: usize) {
    for kind in 0..4 {
        damage_numbers(all, beside, s, n, kind);
    }
}

fn every_beside(all: &[f64], beside: &mut [u32], s: Sizes, n: u32) {
    for kind in 0..6 {
        damage_beside(all, beside, s, n, kind);
    }
}

// The next word from standard input.
fn read_word() -> u64 {
    let mut bytes = [0u8; 8];
    io::read_full(STDIN, &mut bytes);
    cases::word(&bytes, 0)
}

// The next words, as marks' numbers.
fn read_beside(out: &mut [u32]) {
    for mark in out.iter_mut() {
        *mark = (read_word() % 0x1_0000_0000) as u32;
    }
}

// How many marks the curves run over: a ring comes back to its first mark.
fn places(s: Sizes) -> u32 {
    let n = (s.marks / 2 % 0x1_0000_0000) as u32;
    let outline = s.outline;
    match outline {
        Outline::Open => n,
        Outline::Closed => n.wrapping_add(1),
    }
}

// The lines of a record whose lists are read.
fn answer(all: &mut [f64], beside: &mut [u32], s: Sizes, n: usize, damage: u64) {
    print_said(judge(all, beside, s));
    if damage == 0 {
        return;
    }
    every_number(all, beside, s, n);
    every_beside(all, beside, s, places(s));
    damage_sizes(all, beside, s);
}

// A ring's outline is closed.
fn outline_of(ring: u64) -> Outline {
    if ring == 0 {
        return Outline::Open;
    }
    Outline::Closed
}

// Eight numbers a curve, or nine.
fn form_of(nine: u64) -> Form {
    if nine == 0 {
        return Form::Eight;
    }
    Form::Nine
}

// What a record's head says.
fn sizes_of(head: &[u8; 80]) -> Sizes {
    let marks = (cases::word(head, 16) % 65536) as usize;
    let curves = (cases::word(head, 32) % 65536) as usize;
    let firsts = (cases::word(head, 40) % 65536) as usize;
    let params = (cases::word(head, 56) % 65536) as usize;
    Sizes {
        outline: outline_of(cases::word(head, 0)),
        form: form_of(cases::word(head, 8)),
        marks,
        count: cases::word(head, 24) as usize,
        curves,
        firsts,
        worsts: (cases::word(head, 48) % 65536) as usize,
        params,
        first_worst: firsts,
        first_curve: marks,
        first_param: marks + curves,
        numbers: marks + curves + params,
        tolerance: cases::number(head, 72),
    }
}

// A record's lists, read and judged.
fn record(s: Sizes, damage: u64) {
    let mut all = [0.0; 49153];
    let mut beside = [0u32; 8192];
    cases::read_floats(&mut all, s.numbers);
    let marks = lent(&mut beside, s.firsts.wrapping_add(s.worsts));
    read_beside(marks);
    answer(&mut all, marks, s, s.numbers, damage);
}

// One record, if there is one.
fn step() -> bool {
    let mut head = [0u8; 80];
    if io::read_full(STDIN, &mut head) < 80 {
        return false;
    }
    record(sizes_of(&head), cases::word(&head, 64));
    true
}

fn main() {
    cases::each_case(step);
}
