// Lists the outline of a house file: the file on standard input, its listing on standard output.
#![tactic(auto)]

use outline::list_outline;
use piped::{STDIN, print_listed, room};

// One byte more is read than is listed, so that too long a file is seen. The other room is the longest text's.
fn main() {
    let mut file = room::<65537>();
    let mut out = room::<78233>();
    let got = io::read_full(STDIN, &mut file);
    print_listed(list_outline(&file[..got], &mut out), &out);
}
