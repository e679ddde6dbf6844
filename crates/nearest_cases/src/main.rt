// Runs the port on kept curves and query points: for each the answer, as a line of numbers, and below it the Rust's parameter where the port's is
// not near it; at the end how many parameters agree. tools/make_vectors.py makes the input and the expected output.
#![tactic(auto)]

mod case;
mod compare;
mod words;

fn main() {
    case::write_tally(case::report_all());
}
