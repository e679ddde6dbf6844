// Judges a house file: the file on standard input, one line on standard output.
#![tactic(auto)]

use piped::{STDIN, print_listed, room};
use verdict::judge_file;

// One byte more is read than is judged, so that too long a file is seen.
fn main() {
    let mut file = room::<434121>();
    let mut out = room::<64>();
    let got = io::read_full(STDIN, &mut file);
    print_listed(judge_file(&file[..got], &mut out), &out);
}
