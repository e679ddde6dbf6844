// Goes through the finite lemma of docs/SECTIONS.md: no creator has more live sections at a depth than twice its changes of depth and
// its changes of sign. The output says how many sections have a right half of the kind, how many of them lie outside the box, how many
// are creators, and how many break the bound.
#![tactic(auto)]

mod boxes;
mod tree;

// The descriptor of standard output.
const STDOUT: i32 = 1;

fn main() {
    let tally = boxes::all();
    io::write_all(STDOUT, b"SECTIONS ");
    io::print_decimal(STDOUT, tally.sections);
    io::write_all(STDOUT, b" OUTSIDE ");
    io::print_decimal(STDOUT, tally.outside);
    io::write_all(STDOUT, b" CREATORS ");
    io::print_decimal(STDOUT, tally.creators);
    io::write_all(STDOUT, b" BEYOND ");
    io::print_decimal(STDOUT, tally.beyond);
    io::write_all(STDOUT, b"\n");
}
