// The size of a block for ranges of numbers of marks: a line for each range, its first and its last number, the size at the last, and a digest of all its sizes.
// The digest of one size is that size.
#![tactic(auto)]

use cases::STDOUT;

fn size_of(n: u64) -> u64 {
    marks::max_points_to_fit(n as usize) as u64
}

// The digest of the sizes from the first to the last. The last stands behind the loop, as no number may come after it.
fn digest(first: u64, last: u64) -> u64 {
    let mut h: u64 = 0;
    for n in first..last {
        h = cases::mix(h, size_of(n));
    }
    cases::mix(h, size_of(last))
}

// The line of one range.
fn range(first: u64, last: u64) {
    cases::print_count(first);
    cases::print_next_count(last);
    cases::print_next_count(size_of(last));
    io::write_all(STDOUT, b" ");
    io::print_hex(STDOUT, digest(first, last), 16);
    cases::end_line();
}

// The document's cases; where the division serves; and beyond, where 30,049 is the first number at which it would not do, on to what a fit asks for, a ring's first mark counted again.
fn main() {
    range(199, 199);
    range(200, 200);
    range(201, 201);
    range(249, 249);
    range(250, 250);
    range(400, 400);
    range(2, 20000);
    range(20001, 30048);
    range(30049, 30049);
    range(30049, 100001);
    range(0xffff_ffff_ffff_ffff, 0xffff_ffff_ffff_ffff);
}
