// Cases of house files: packed, unpacked, and cleaned. A file's bytes go where its digits stood, for they are half as many.
ghost use Rattle.std.specs.Prelude.{◌<◌, ◌≤◌, length, IfSome};

use crate::kind::Work;
use crate::print::{print_accepted, print_bytes, print_refused};
use crate::room;
use cases::STDOUT;
use cases::parts::front;
use float::refusal::Refusal;
use packer::pack_file;
use salvaging::salvage;
use unpacker::unpack_file;

// The value of a lower-case digit.
fn digit(b: u8) -> Option<u8>
    ensures { IfSome result (λ d. d < 16) }
{
    match b {
        b'0'..=b'9' => Some(b - b'0'),
        b'a'..=b'f' => Some(b - b'a' + 10),
        _ => None,
    }
}

// The byte that two digits stand for.
fn byte_of(high: u8, low: u8) -> Option<u8> {
    let high = digit(high)?;
    let low = digit(low)?;
    Some(16 * high + low)
}

// Puts the bytes whose digits stand from `from` on into the first places of the line; how many there are.
fn decode(line: &mut [u8], from: usize) -> Option<usize>
    requires { from ≤ length line.old }
{
    let digits = line.len() - from;
    if digits % 2 != 0 {
        return None;
    }
    for n in 0..digits / 2 {
        line[n] = byte_of(line[from + 2 * n], line[from + 2 * n + 1])?;
    }
    Some(digits / 2)
}

// The other file.
fn say_file(file: &[u8]) {
    print_accepted();
    io::write_all(STDOUT, b" ");
    print_bytes(file);
}

// What a call answers that leaves a file.
fn say_left(answer: Result<usize, Refusal>, out: &[u8]) {
    match answer {
        Ok(n) => say_file(front(out, n)),
        Err(refusal) => print_refused(refusal),
    }
}

// What cleaning says of a file, with this room: the cleaned file, and the list of the marks that were dropped.
fn say_salvaged(file: &[u8], out: &mut [u8]) {
    let mut report = room::report();
    match salvage(file, out, &mut report) {
        Ok(sizes) => {
            say_file(front(out, sizes.file));
            io::write_all(STDOUT, b" ");
            print_bytes(front(&report, sizes.report));
        }
        Err(refusal) => print_refused(refusal),
    }
}

// What a call says of a file, with this room.
fn say(work: Work, file: &[u8], out: &mut [u8]) {
    match work {
        Work::Pack => say_left(pack_file(file, out), out),
        Work::Unpack => say_left(unpack_file(file, out), out),
        Work::Salvage => say_salvaged(file, out),
    }
}

// pack HEX, unpack HEX, salvage HEX: all behind the first blank. The room comes as an array by its type, so that no proof counts its bytes.
pub fn file_case(
    work: Work,
    line: &mut [u8],
    end: usize,
    out: &mut [u8; room::FILE],
) -> Option<()> {
    if end >= line.len() {
        return None;
    }
    let n = decode(line, end + 1)?;
    say(work, front(line, n), out);
    Some(())
}
