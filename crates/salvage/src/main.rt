// Cleans a house file: the file on standard input; on standard output the file with its tolerance and the marks kept, and on standard error the list of the marks dropped, or one line that names a refusal.
#![tactic(auto)]

use piped::{STDERR, STDIN, STDOUT, print_front, room};
use salvaging::salvage_file;

// One byte more is read than is cleaned, so that too long a file is seen. There is room for the longest file of 512 marks that is cleaned, and for the longest list, so the call is not
// refused; its only refusal is 4, and it would be said like those that a list names.
fn main() {
    let mut file = room::<434121>();
    let mut out = room::<8212>();
    let mut report = room::<12288>();
    let got = io::read_full(STDIN, &mut file);
    match salvage_file(&file[..got], &mut out, &mut report) {
        Ok(sizes) => {
            print_front(STDOUT, &out, sizes.file);
            print_front(STDERR, &report, sizes.report);
        }
        Err(_) => {
            io::write_all(STDERR, b"REFUSED 4\n");
        }
    }
}
