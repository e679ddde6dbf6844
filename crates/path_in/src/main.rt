// Lists the curves of path data: the text on standard input, its listing on standard output.
#![tactic(auto)]

use path_list::list_path;
use piped::{STDIN, print_listed, room};

// One byte more is read than is taken, so that too long a text is seen. The other room is the longest listing's.
fn main() {
    let mut text = room::<262145>();
    let mut out = room::<78369>();
    let got = io::read_full(STDIN, &mut text);
    print_listed(list_path(&text[..got], &mut out), &out);
}
