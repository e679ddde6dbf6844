// What the programs over house files and path data share: their rooms, and what they print.
#![tactic(auto)]

use float::refusal::Refusal;

// The descriptors of standard input, output and error.
pub const STDIN: i32 = 0;

pub const STDOUT: i32 = 1;

pub const STDERR: i32 = 2;

// Room for so many bytes, from a function of its own: an array that is made where it is used is long in every goal.
pub fn room<const N: usize>() -> [u8; N] {
    [0; N]
}

// Writes the first n bytes.
pub fn print_front(to: i32, out: &[u8], n: usize) {
    io::write_all(to, out.get(..n).unwrap_or(b""));
}

// Writes the text that a call left in `out`. The programs lend room for the longest text, so no call is refused; its only refusal is 4, and it would be said like
// those that a text names.
pub fn print_listed(listed: Result<usize, Refusal>, out: &[u8]) {
    match listed {
        Ok(n) => print_front(STDOUT, out, n),
        Err(_) => {
            io::write_all(STDOUT, b"REFUSED 4\n");
        }
    }
}
