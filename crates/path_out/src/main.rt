// The path data of a house file's fit: the file on standard input, one line on standard output. With `--ring` as its first argument it is the ring fit, else the joined one.
#![tactic(auto)]

use path_file::path_file;
use piped::{STDIN, print_listed, room};
use std::env::Env;

// Whether the first argument asks for a ring. One that is longer than the room is not handed over, and is another word.
fn is_ring(rt: &HostRuntime) -> bool {
    let mut word = [0u8; 8];
    let n = rt.arg(1, &mut word).unwrap_or(0);
    word.get(..n).unwrap_or(&word) == b"--ring".as_slice()
}

// One byte more is read than is taken, so that too long a file is seen. The other room is the longest line's.
fn main(rt: HostRuntime) {
    let mut file = room::<65537>();
    let mut out = room::<47138>();
    let got = io::read_full(STDIN, &mut file);
    print_listed(path_file(&file[..got], is_ring(&rt), &mut out), &out);
}
