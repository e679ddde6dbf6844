// Standard input line by line. What is kept between bytes is how much of a line there is so far; a line that fills its room is too long.
ghost use Rattle.std.specs.Prelude.{◌≤◌};

use crate::dispatch::answer;
use crate::room;
use std::io::{Read, Stdin};

// How much of a line counts: too long a line is as bad as an empty one.
fn counted(len: usize, room: usize) -> usize
    ensures { result ≤ room }
{
    if len < room { len } else { 0 }
}

// The answer to a line.
fn end_line(line: &mut [u8], len: usize) {
    let n = counted(len, line.len());
    answer(&mut line[..n]);
}

// One byte more; how much there is of the line then.
fn take_byte(b: u8, line: &mut [u8], len: usize) -> usize {
    if b == b'\n' {
        end_line(line, len);
        return 0;
    }
    let Some(place) = line.get_mut(len) else {
        return len;
    };
    *place = b;
    len + 1
}

// The bytes of a chunk.
fn take_bytes(chunk: &[u8], line: &mut [u8], start: usize) -> usize {
    let mut len = start;
    for b in chunk {
        len = take_byte(*b, line, len);
    }
    len
}

// One chunk of the input; nothing where the input has ended.
fn take_chunk(stdin: &mut Stdin, chunk: &mut [u8], line: &mut [u8], len: usize) -> Option<usize> {
    let n = stdin.read(chunk).unwrap_or(0);
    if n == 0 {
        return None;
    }
    Some(take_bytes(&chunk[..n], line, len))
}

// The most reads, a number that no run uses up: nothing says that the input ends.
const MOST_READS: u64 = 0xffff_ffff_ffff;

// The input to its end, or to the most reads.
fn take_chunks(stdin: &mut Stdin, chunk: &mut [u8], line: &mut [u8]) -> usize {
    let mut len: usize = 0;
    for _ in 0..MOST_READS {
        let Some(next) = take_chunk(stdin, chunk, line, len) else {
            return len;
        };
        len = next;
    }
    len
}

// All lines; a last one without a newline counts. The line's room comes as an array by its type, so that no proof counts its bytes.
fn take_lines(stdin: &mut Stdin, line: &mut [u8; room::LINE]) {
    let mut chunk = [0u8; 65536];
    let last = take_chunks(stdin, &mut chunk, line);
    if last > 0 {
        end_line(line, last);
    }
}

pub fn run(mut stdin: Stdin) {
    let mut line = room::line();
    take_lines(&mut stdin, &mut line);
}
