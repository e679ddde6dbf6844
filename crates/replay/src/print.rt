// Answers, as words on standard output.
ghost use Rattle.std.specs.Prelude.{◌<◌};

use cases::STDOUT;
use cubic::eval::Coefficients;
use cubic::split::Halves;
use float::refusal::Refusal;
use plane::{Curve, Point};

// What an accepted case answers behind its 0.
pub trait Words {
    // Its words, each behind a blank.
    fn print(self);
}

// The bits of a float.
impl Words for f64 {
    fn print(self) {
        let mut word = [b' '; 17];
        text::put_hex(&mut word, 1, float::to_bits(self));
        io::write_all(STDOUT, &word);
    }
}

// A count in decimal.
impl Words for usize {
    fn print(self) {
        cases::print_next_count(self as u64);
    }
}

impl Words for Point {
    fn print(self) {
        self.x.print();
        self.y.print();
    }
}

impl Words for Curve {
    fn print(self) {
        self.start.print();
        self.cp1.print();
        self.cp2.print();
        self.end.print();
    }
}

impl Words for Coefficients {
    fn print(self) {
        self.a.print();
        self.b.print();
        self.c.print();
        self.d.print();
    }
}

impl Words for Halves {
    fn print(self) {
        self.left.print();
        self.right.print();
    }
}

// Every number of a slice.
pub fn print_floats(xs: &[f64]) {
    for x in xs {
        x.print();
    }
}

fn wide(x: u8) -> u64
    ensures { result < 256 }
{
    x as u64
}

// At most eight bytes, two digits each.
fn print_piece(piece: &[u8]) {
    let mut x: u64 = 0;
    for b in piece {
        x = x % 0x100_0000_0000_0000 * 256 + wide(*b);
    }
    io::print_hex(STDOUT, x, 2 * piece.len());
}

// Every byte of a slice.
pub fn print_bytes(bytes: &[u8]) {
    for piece in bytes.chunks(8) {
        print_piece(piece);
    }
}

// An accepted case begins with 0.
pub fn print_accepted() {
    cases::print_count(0);
}

// A refusal is its number alone.
pub fn print_refused(refusal: Refusal) {
    cases::print_count(u64::from(refusal.number()));
}

// What a call answers that can refuse.
pub fn say<T: Words>(answer: Result<T, Refusal>) {
    match answer {
        Ok(value) => {
            print_accepted();
            value.print();
        }
        Err(refusal) => print_refused(refusal),
    }
}

// What a call answers that never refuses.
pub fn say_accepted<T: Words>(value: T) {
    print_accepted();
    value.print();
}
