// The marks of a file in order, by what becomes of each: the bytes of those that are kept, and the lines of the others. Either part is measured by one walk and put by another.
ghost use Rattle.std.specs.Prelude.{◌≡◌, ◌+◌, ◌*◌, ◌^◌, ◌<◌, ◌≤◌, length};
ghost use Rattle.text.specs.Put.{Put};
ghost use Rattle.house.specs.Limits.{mark_bytes, marks_at};
ghost use Rattle.salvaging.specs.declared.walks.Part.TheVariants as part;
ghost use Rattle.salvaging.specs.Layout.{piece_of, mark_length, piece_length, part_of};

use super::report::{fate_len, put_fate};
use house::sizes;
use sieve::{Fate, after, fate_of, mark_at};
use text::put_bytes;

// What is put of the marks: those that are kept, or the lines of those that are dropped. (No closure in its place: both walks, and the definitions, go by the same two cases.)
#[derive(Clone, Copy)]
pub enum Part {
    Marks,
    Lines,
}

// How many bytes of its own a mark is given.
fn mark_len(fate: Fate) -> usize
    ensures { (result ≤ 32) × (result ≡ mark_length fate) }
{
    match fate {
        Fate::Kept => sizes::MARK_BYTES,
        Fate::Dropped(_) => 0,
    }
}

// How many bytes are put for mark i.
fn piece_len(part: Part, i: usize, fate: Fate) -> usize
    ensures { (result ≤ 32) × (result ≡ piece_length part i fate) }
{
    match part {
        Part::Marks => mark_len(fate),
        Part::Lines => fate_len(i, fate),
    }
}

// Mark i as it stands in the file, at `at`, where it is kept.
fn put_mark(out: &mut [u8], at: usize, file: &[u8], i: usize, fate: Fate) -> usize
    requires { (marks_at + mark_bytes * i + mark_bytes ≤ length file.now) × (at + length (piece_of part.Marks file.now i fate) ≤ length out.old) }
    ensures { Put out.old at (piece_of part.Marks file.now i fate) out.new result }
{
    match fate {
        Fate::Kept => {
            let from = sizes::MARKS_AT + sizes::MARK_BYTES * i;
            let to = from + sizes::MARK_BYTES;
            put_bytes(out, at, &file[from..to])
        }
        Fate::Dropped(_) => at,
    }
}

// What is put for mark i, at `at`.
fn put_piece(out: &mut [u8], at: usize, part: Part, file: &[u8], i: usize, fate: Fate) -> usize
    requires { (marks_at + mark_bytes * i + mark_bytes ≤ length file.now) × (at + length (piece_of part file.now i fate) ≤ length out.old) }
    ensures { Put out.old at (piece_of part file.now i fate) out.new result }
{
    match part {
        Part::Marks => put_mark(out, at, file, i, fate),
        Part::Lines => put_fate(out, at, i, fate),
    }
}

// How many bytes are put for n marks.
pub fn measure(part: Part, file: &[u8], n: usize) -> usize
    requires { (marks_at + mark_bytes * n ≤ length file.now) × (n < 2 ^ 28) }
    ensures { (result ≤ 32 * n) × (result ≡ length (part_of part file.now n)) }
{
    let mut last = None;
    let mut size = 0;
    for i in 0..n {
        let p = mark_at(file, i);
        let fate = fate_of(last, p);
        size += piece_len(part, i, fate);
        last = after(last, p, fate);
    }
    size
}

// What is put for n marks, at `at`.
pub fn put_part(out: &mut [u8], at: usize, part: Part, file: &[u8], n: usize) -> usize
    requires { (marks_at + mark_bytes * n ≤ length file.now) × (at + length (part_of part file.now n) ≤ length out.old) }
    ensures { Put out.old at (part_of part file.now n) out.new result }
{
    let mut last = None;
    let mut end = at;
    for i in 0..n {
        let p = mark_at(file, i);
        let fate = fate_of(last, p);
        end = put_piece(out, end, part, file, i, fate);
        last = after(last, p, fate);
    }
    end
}
