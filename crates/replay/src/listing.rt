// Cases of the list checker. The line says how many marks and how many curves it carries, and is bad where it carries another number of them, or more than 21,000 of either.
use crate::cursor::Cursor;
use crate::print::{print_accepted, print_refused};
use crate::room;
use cases::STDOUT;
use checker::{Checked, Fault, Place};
use form::{Form, width};
use ring::Outline;

// The next word as a mark's number.
fn mark(words: &mut Cursor) -> Option<u32> {
    u32::try_from(words.count(u64::MAX)?).ok()
}

// The next curve: its first mark, its worst mark where the form keeps one, and its numbers.
fn take_curve(
    form: Form,
    words: &mut Cursor,
    first: &mut u32,
    worst: &mut u32,
    numbers: &mut [f64],
) -> Option<()> {
    *first = mark(words)?;
    if let Form::Nine = form {
        *worst = mark(words)?;
    }
    words.floats(numbers)
}

// As many curves as there are first marks; none where the line ends before.
fn take_curves(
    form: Form,
    words: &mut Cursor,
    firsts: &mut [u32],
    worsts: &mut [u32],
    curves: &mut [f64],
) -> Option<()> {
    let records = curves.chunks_exact_mut(width(form));
    for ((first, worst), numbers) in firsts.iter_mut().zip(worsts).zip(records) {
        take_curve(form, words, first, worst, numbers)?;
    }
    Some(())
}

// A fault's kind, curve and mark.
fn say_place(letter: u8, p: Place) {
    io::write_all(STDOUT, &[b'F', b'A', b'U', b'L', b'T', b' ', letter]);
    cases::print_next_count(p.curve as u64);
    cases::print_next_count(p.mark as u64);
}

fn say_fault(fault: Fault) {
    match fault {
        Fault::A(p) => say_place(b'A', p),
        Fault::B(p) => say_place(b'B', p),
        Fault::C(p) => say_place(b'C', p),
        Fault::D(p) => say_place(b'D', p),
        Fault::E(p) => say_place(b'E', p),
    }
}

// What the checker says of a list.
fn say_checked(checked: Checked) {
    match checked {
        Checked::Passed => print_accepted(),
        Checked::Faulty(fault) => say_fault(fault),
        Checked::Refused(refusal) => print_refused(refusal),
    }
}

// A list as a line has it.
#[derive(Clone, Copy)]
struct List<'a> {
    marks: &'a [f64],
    tolerance: f64,
    curves: &'a [f64],
    firsts: &'a [u32],
    worsts: &'a [u32],
    params: &'a [f64],
}

// What the call for its outline and its form says of it.
fn checked(outline: Outline, form: Form, list: List) -> Checked {
    let List {
        marks,
        tolerance,
        curves,
        firsts,
        worsts,
        params,
    } = list;
    let k = firsts.len();
    match (outline, form) {
        (Outline::Open, Form::Eight) => {
            checker::check_list(marks, tolerance, k, curves, firsts, params)
        }
        (Outline::Closed, Form::Eight) => {
            checker::check_ring(marks, tolerance, k, curves, firsts, params)
        }
        (Outline::Open, Form::Nine) => {
            checker::check_worst(marks, tolerance, k, curves, firsts, worsts, params)
        }
        (Outline::Closed, Form::Nine) => {
            checker::check_worst_ring(marks, tolerance, k, curves, firsts, worsts, params)
        }
    }
}

// A list behind its marks, up to the line's end. Its curves go into this room.
fn list_case(
    outline: Outline,
    form: Form,
    mut words: Cursor,
    tolerance: f64,
    marks: &[f64],
    curves: &mut [f64],
) -> Option<()> {
    let mut firsts = room::indices();
    let mut worsts = room::indices();
    let mut params = room::params();
    let k = words.count(room::MOST_MARKS)? as usize;
    let firsts = firsts.get_mut(..k)?;
    let worsts = worsts.get_mut(..k)?;
    let curves = curves.get_mut(..width(form) * k)?;
    take_curves(form, &mut words, firsts, worsts, curves)?;
    let params = params.get_mut(..ring::again(outline) + marks.len() / 2)?;
    words.floats(params)?;
    words.end()?;
    say_checked(checked(
        outline,
        form,
        List {
            marks,
            tolerance,
            curves,
            firsts,
            worsts,
            params,
        },
    ));
    Some(())
}

// check TOL N X0 Y0 .. K F0 C8 F1 C8 .. T0 .. T(N-1), and check_ring with one parameter more; check_worst and check_worst_ring with F0 W0 C9 for F0 C8
// Its room of marks is to be given back with it: made one function with `case_in`, as the only call would have it, it would lie beside the marks of every fit.
#[inline(never)]
pub fn check_case(
    outline: Outline,
    form: Form,
    mut words: Cursor,
    curves: &mut [f64],
) -> Option<()> {
    let mut room = room::marks();
    let tolerance = words.float()?;
    let n = words.count(room::MOST_MARKS)? as usize;
    let marks = room.get_mut(..2 * n)?;
    words.floats(marks)?;
    list_case(outline, form, words, tolerance, marks, curves)
}
