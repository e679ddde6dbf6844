// Cases of path data: curves to a text, and a text to curves. A text may draw more curves than there is room for, and is refused for room then.
use crate::cursor::Cursor;
use crate::print::{Words, print_accepted, print_floats, print_refused};
use crate::room;
use cases::STDOUT;
use cases::parts::front;
use export::export_path;
use form::{CURVE_NUMBERS, Form};
use import::import_path;

// Whether a ring is meant.
fn is_ring(word: &[u8]) -> Option<bool> {
    match word {
        b"RING" => Some(true),
        b"OPEN" => Some(false),
        _ => None,
    }
}

// The first n bytes behind a blank.
fn say_text(text: &[u8], n: usize) {
    print_accepted();
    io::write_all(STDOUT, b" ");
    io::write_all(STDOUT, text.get(..n).unwrap_or(b""));
}

// export OPEN|RING K C8 ..
//
// The text goes where the curves' line stood, for it is shorter: a curve takes 92 bytes of it at most, and 136 of the line.
pub fn export_case(line: &mut [u8], end: usize, curves: &mut [f64]) -> Option<()> {
    let mut words = Cursor::behind(line, end);
    let ring = is_ring(words.word()?)?;
    let k = words.count(room::MOST_CURVES)? as usize;
    let numbers = curves.get_mut(..CURVE_NUMBERS * k)?;
    words.floats(numbers)?;
    words.end()?;
    match export_path(Form::Eight, numbers, k, ring, line) {
        Ok(n) => say_text(line, n),
        Err(refusal) => print_refused(refusal),
    }
    Some(())
}

// What a text draws.
fn say_path(count: usize, closed: bool, numbers: &[f64]) {
    print_accepted();
    count.print();
    io::write_all(STDOUT, if closed { b" CLOSED" } else { b" OPEN" });
    print_floats(numbers);
}

// The numbers of so many curves, or all where there are fewer.
fn first_curves(curves: &[f64], count: usize) -> &[f64] {
    if count > curves.len() / CURVE_NUMBERS {
        return curves;
    }
    front(curves, CURVE_NUMBERS * count)
}

// import TEXT: all behind the first blank
pub fn import_case(words: Cursor, curves: &mut [f64]) -> Option<()> {
    match import_path(words.text()?, curves) {
        Ok(path) => say_path(path.count, path.closed, first_curves(curves, path.count)),
        Err(refusal) => print_refused(refusal),
    }
    Some(())
}
