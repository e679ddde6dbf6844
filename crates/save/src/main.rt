// Fits a house file: the file on standard input, the same marks with their curves as a house file on standard output; or one line that names a refusal.
#![tactic(auto)]

use piped::{STDIN, print_listed, room};
use saving::save_fit;

// One byte more is read than is fitted, so that too long a file is seen. The other room is the longest file's.
fn main() {
    let mut file = room::<434121>();
    let mut out = room::<434120>();
    let got = io::read_full(STDIN, &mut file);
    print_listed(save_fit(&file[..got], &mut out), &out);
}
