// The cases: of each a curve, a point and the Rust's parameter.
ghost use Rattle.std.specs.Prelude.{◌+◌, ◌≤◌};

use crate::compare::{Agreement, Tally, compared};
use crate::words::{bits, number};
use cases::{STDIN, STDOUT, word};
use nearest::NearestPoint;
use plane::{Curve, Point};

// No more cases than this are read.
const MOST_CASES: u64 = 100000;

// Stands in a record for a search of the Rust that does not end.
const ENDLESS: u64 = 0xffff_ffff_ffff_ffff;

// The point whose two patterns start at a place of the record.
fn point(record: &[u8; 88], at: usize) -> Point
    requires { at + 16 ≤ 88 }
{
    Point {
        x: number(word(record, at)),
        y: number(word(record, at + 8)),
    }
}

// Lists a case that is neither the same nor near.
fn list(line: u64, rust: u64) {
    io::write_all(STDOUT, b"OTHER ");
    io::print_decimal(STDOUT, line);
    if rust == ENDLESS {
        io::write_all(STDOUT, b" ENDLESS\n");
    } else {
        io::write_all(STDOUT, b" ");
        io::print_hex(STDOUT, rust, 16);
        io::write_all(STDOUT, b"\n");
    }
}

// Counts an answer, and lists it where it is neither the same as the Rust's nor near.
fn count(line: u64, agreement: Agreement, rust: u64, tally: &mut Tally) {
    if let Agreement::Other = agreement {
        list(line, rust);
    }
    tally.count(agreement);
}

// Writes the port's answer to a case, and counts it.
fn report(line: u64, record: &[u8; 88], tally: &mut Tally) {
    let curve = Curve {
        start: point(record, 0),
        cp1: point(record, 16),
        cp2: point(record, 32),
        end: point(record, 48),
    };
    let rust = word(record, 80);
    let agreement = match nearest::nearest_point_on_curve(curve, point(record, 64)) {
        NearestPoint::Found(t, distance_sq) => {
            io::write_all(STDOUT, b"0 ");
            io::print_hex(STDOUT, bits(t), 16);
            io::write_all(STDOUT, b" ");
            io::print_hex(STDOUT, bits(distance_sq), 16);
            io::write_all(STDOUT, b"\n");
            if rust == ENDLESS {
                Agreement::Other
            } else {
                compared(t, number(rust))
            }
        }
        NearestPoint::Refused(q) => {
            io::print_decimal(STDOUT, q.number() as u64);
            io::write_all(STDOUT, b"\n");
            Agreement::Other
        }
    };
    count(line, agreement, rust, tally);
}

// Reports every case of the input.
pub fn report_all() -> Tally {
    let mut tally = Tally {
        same: 0,
        near: 0,
        other: 0,
    };
    for line in 1..=MOST_CASES {
        let mut record = [0u8; 88];
        if io::read_full(STDIN, &mut record) < 88 {
            return tally;
        }
        report(line, &record, &mut tally);
    }
    tally
}

// Writes how many parameters agree.
pub fn write_tally(tally: Tally) {
    io::write_all(STDOUT, b"SAME ");
    io::print_decimal(STDOUT, tally.same);
    io::write_all(STDOUT, b" NEAR ");
    io::print_decimal(STDOUT, tally.near);
    io::write_all(STDOUT, b" OTHER ");
    io::print_decimal(STDOUT, tally.other);
    io::write_all(STDOUT, b"\n");
}
