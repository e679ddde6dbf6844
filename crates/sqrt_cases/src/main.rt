// Square roots of published vectors and of edge patterns: standard input has bit patterns of eight bytes each, and each has a line
// of output, the pattern and its root's.
#![tactic(auto)]

use cases::STDIN;

// The line of one pattern.
fn line(record: &[u8; 8]) {
    let x = cases::number(record, 0);
    cases::print_number(x);
    cases::print_next(root::sqrt(x));
    cases::end_line();
}

// One record, if there is one.
fn step() -> bool {
    let mut record = [0u8; 8];
    if io::read_full(STDIN, &mut record) < 8 {
        return false;
    }
    line(&record);
    true
}

fn main() {
    cases::each_case(step);
}
