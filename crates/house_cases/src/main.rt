// The house file and its listing over kept files. A record on standard input is thirteen words of eight bytes and then a file's bytes: what to
// do, the file in three runs, and the room for marks, first marks, worst marks, curves, parameters and bytes. A run is so many bytes that are given, and so many zeros
// behind them: a file of 100,001 marks is then a few heads.
//
// 0 lists the file, and writes the text, or 4 where there is no room for it. 1 reads the file and writes it again: 0, the marks, the curves, and
// the writer's 0 and bytes, or a refusal in place of either; a line `DIFFERS` follows where the bytes are not the file's. 2 reads every
// prefix, and 3 every change of one of the bytes that are given: how many were answered with 0, 2, 4 and 9. 4 does as 1, with a first worst mark that two bytes do not hold, and 5 with such a first first mark.
// 6 packs the file and 7 unpacks it, into bytes that are all 7: 0 and the bytes, or the refusal, and behind either a digest of all bytes that were lent. 8 unpacks every prefix, and 9 every
// change, as 2 and 3 read them. 10 cleans the file, into bytes that are all 7, with the room for marks as that for the list: 0 and both lengths, or the refusal, and behind either a digest of each slice.
#![tactic(auto)]

ghost use Rattle.std.specs.Prelude.{◌<◌, length};

use cases::parts::{front, lent};
use cases::{STDIN, STDOUT};
use float::refusal::Refusal;
use packer::pack_file;
use reader::Found;
use salvaging::{Sizes, salvage};
use unpacker::unpack_file;

// The room for a file, for what is written, for marks and curves, for first marks and for parameters. A file of 100,001 marks is only refused: nothing of it is read.
const FILE: usize = 2400256;

const WRITTEN: usize = 163840;

const NUMBERS: usize = 10240;

const FIRSTS: usize = 1024;

const PARAMS: usize = 5120;

// What to do, of the numbers that are asked for by name.
const PREFIXES: u64 = 2;

const PACK: u64 = 6;

const UNPACK: u64 = 7;

const UNPACK_PREFIXES: u64 = 8;

const SALVAGE: u64 = 10;

// Where the bytes that are given of a file end, begin and end again twice, and how long it is.
#[derive(Clone, Copy)]
struct Runs {
    end: usize,
    second: usize,
    second_end: usize,
    third: usize,
    third_end: usize,
    length: usize,
}

// What a call is lent.
#[derive(Drop)]
struct Room<'a> {
    marks: &'a mut [u64],
    firsts: &'a mut [u32],
    worsts: &'a mut [u32],
    curves: &'a mut [u64],
    params: &'a mut [u64],
}

impl Room<'_> {
    fn read(&mut self, file: &[u8]) -> Result<Found, Refusal> {
        reader::read_file(
            file,
            self.marks,
            self.firsts,
            self.worsts,
            self.curves,
            self.params,
        )
    }

    // Writes what was read.
    fn write(&self, found: Found, out: &mut [u8]) -> Result<usize, Refusal> {
        let m = found.marks.wrapping_add(found.marks);
        writer::write_file(
            found.form,
            found.tolerance,
            front(self.marks, m),
            found.curves,
            self.firsts,
            self.worsts,
            self.curves,
            self.params,
            out,
        )
    }
}

// How often each answer was given.
#[derive(Clone, Copy, Default)]
struct Tally {
    taken: u64,
    many: u64,
    room: u64,
    formed: u64,
}

fn more_if(n: u64, b: bool) -> u64 {
    if b { n.wrapping_add(1) } else { n }
}

// One more answer: 9 is the only one beside 0, 2 and 4.
fn count(t: Tally, answer: u32) -> Tally {
    Tally {
        taken: more_if(t.taken, answer == 0),
        many: more_if(t.many, answer == 2),
        room: more_if(t.room, answer == 4),
        formed: more_if(t.formed, answer == 9),
    }
}

fn print_tally(t: Tally) {
    cases::print_count(t.taken);
    cases::print_next_count(t.many);
    cases::print_next_count(t.room);
    cases::print_next_count(t.formed);
    cases::end_line();
}

// The number of an answer: 0, or that of the refusal.
fn number_of<T: Copy>(answer: Result<T, Refusal>) -> u32 {
    match answer {
        Ok(_) => 0,
        Err(q) => q.number(),
    }
}

// The number of the answer of the one or the other.
fn answer_of(what: u64, file: &[u8], room: &mut Room, out: &mut [u8]) -> u32 {
    if what < UNPACK_PREFIXES {
        return number_of(room.read(file));
    }
    number_of(unpack_file(file, out))
}

// Every prefix, the file itself not among them.
fn prefixes(what: u64, file: &[u8], room: &mut Room, out: &mut [u8]) -> Tally {
    let mut t = Tally::default();
    for i in 0..file.len() {
        t = count(t, answer_of(what, &file[..i], room, out));
    }
    t
}

// A byte, d further on.
fn turned(x: u8, d: u64) -> u8 {
    ((x as u64 + d % 256) % 256) as u8
}

// How many values of the byte at `at` are read: all of them where it is given, and else the one that it has.
fn values_at(runs: Runs, at: usize) -> u64 {
    if (at < runs.end)
        | ((runs.second <= at) & (at < runs.second_end))
        | ((runs.third <= at) & (at < runs.third_end))
    {
        256
    } else {
        1
    }
}

// The other ones of so many values of the byte at `at`.
fn change_at(
    what: u64,
    file: &mut [u8],
    at: usize,
    values: u64,
    start: Tally,
    room: &mut Room,
    out: &mut [u8],
) -> Tally
    requires { at < length file.old }
{
    let was = file[at];
    let mut t = start;
    for d in 1..values {
        file[at] = turned(was, d);
        t = count(t, answer_of(what, file, room, out));
    }
    file[at] = was;
    t
}

// Every change of one byte that is given.
fn changes(what: u64, runs: Runs, file: &mut [u8], room: &mut Room, out: &mut [u8]) -> Tally {
    let mut t = Tally::default();
    for i in 0..file.len() {
        let values = values_at(runs, i);
        t = change_at(what, file, i, values, t, room, out);
    }
    t
}

// A refusal's number, which ends its line.
fn print_refusal(q: Refusal) {
    cases::print_count(u64::from(q.number()));
    cases::end_line();
}

// How many bytes were written, and whether they are the file's.
fn print_bytes(n: usize, file: &[u8], out: &[u8]) {
    cases::print_count(0);
    cases::print_next_count(n as u64);
    cases::end_line();
    if file != front(out, n) {
        io::write_all(STDOUT, b"DIFFERS\n");
    }
}

// What was written, against the file.
fn print_written(wrote: Result<usize, Refusal>, file: &[u8], out: &[u8]) {
    io::write_all(STDOUT, b" ");
    match wrote {
        Ok(n) => print_bytes(n, file, out),
        Err(q) => print_refusal(q),
    }
}

// A first number that two bytes do not hold, if it is asked for.
fn beyond(too_far: bool, beside: &mut [u32]) {
    if beside.len() == 0 {
        return;
    }
    if too_far {
        beside[0] = 65536;
    }
}

fn print_counts(marks: usize, curves: usize) {
    cases::print_count(0);
    cases::print_next_count(marks as u64);
    cases::print_next_count(curves as u64);
}

// The file read, and what the reader found written again.
fn read_and_write(what: u64, file: &[u8], room: &mut Room, out: &mut [u8]) {
    match room.read(file) {
        Ok(found) => {
            print_counts(found.marks, found.curves);
            beyond(what == 5, room.firsts);
            beyond(what == 4, room.worsts);
            let wrote = room.write(found, out);
            print_written(wrote, file, out);
        }
        Err(q) => print_refusal(q),
    }
}

// The file's listing.
fn list(file: &[u8], out: &mut [u8]) {
    match outline::list_outline(file, out) {
        Ok(n) => {
            io::write_all(STDOUT, front(out, n));
        }
        Err(q) => print_refusal(q),
    }
}

// A digest of all bytes.
fn digest(xs: &[u8]) -> u64 {
    let mut h: u64 = 0;
    for x in xs {
        h = cases::mix(h, u64::from(*x));
    }
    h
}

fn print_digest(xs: &[u8]) {
    io::write_all(STDOUT, b" ");
    io::print_hex(STDOUT, digest(xs), 16);
}

// The answer of either way, without the end of its line.
fn print_packing(made: Result<usize, Refusal>) {
    match made {
        Ok(n) => {
            cases::print_count(0);
            cases::print_next_count(n as u64);
        }
        Err(q) => cases::print_count(u64::from(q.number())),
    }
}

fn packed_or_unpacked(what: u64, file: &[u8], out: &mut [u8]) -> Result<usize, Refusal> {
    if what == PACK {
        return pack_file(file, out);
    }
    unpack_file(file, out)
}

// The file, packed or unpacked, and all that was lent.
fn pack(what: u64, file: &[u8], out: &mut [u8]) {
    let made = packed_or_unpacked(what, file, out);
    print_packing(made);
    print_digest(out);
    cases::end_line();
}

// What cleaning answered, without the end of its line.
fn print_cleaning(made: Result<Sizes, Refusal>) {
    match made {
        Ok(Sizes { file, report }) => {
            cases::print_count(0);
            cases::print_next_count(file as u64);
            cases::print_next_count(report as u64);
        }
        Err(q) => cases::print_count(u64::from(q.number())),
    }
}

// The file, cleaned, and all that was lent.
fn clean(file: &[u8], out: &mut [u8], list: &mut [u8]) {
    let made = salvage(file, out, list);
    print_cleaning(made);
    print_digest(out);
    print_digest(list);
    cases::end_line();
}

// The word of a record's head that says a length.
fn length_at(head: &[u8; 104], at: usize) -> usize {
    cases::word(head, at) as usize
}

// The runs of a head. Where a sum wraps around, a run's end is before its beginning, and nothing is done with it.
fn runs_of(head: &[u8; 104]) -> Runs {
    let end = length_at(head, 8);
    let second = end.wrapping_add(length_at(head, 16));
    let second_end = second.wrapping_add(length_at(head, 24));
    let third = second_end.wrapping_add(length_at(head, 32));
    let third_end = third.wrapping_add(length_at(head, 40));
    Runs {
        end,
        second,
        second_end,
        third,
        third_end,
        length: third_end.wrapping_add(length_at(head, 48)),
    }
}

// Whether there is as much room as a head asks for.
fn fits(head: &[u8; 104]) -> bool {
    let runs = runs_of(head);
    (runs.length <= FILE)
        & (length_at(head, 56) <= NUMBERS)
        & (length_at(head, 64) <= FIRSTS)
        & (length_at(head, 72) <= FIRSTS)
        & (length_at(head, 80) <= NUMBERS)
        & (length_at(head, 88) <= PARAMS)
        & (length_at(head, 96) <= WRITTEN)
}

fn list_record(head: &[u8; 104], file: &[u8]) {
    let mut out = [0u8; WRITTEN];
    list(file, lent(&mut out, length_at(head, 96)));
}

fn pack_record(what: u64, head: &[u8; 104], file: &[u8]) {
    let mut out = [7u8; WRITTEN];
    pack(what, file, lent(&mut out, length_at(head, 96)));
}

fn clean_record(head: &[u8; 104], file: &[u8]) {
    let mut out = [7u8; WRITTEN];
    let mut list = [7u8; NUMBERS];
    clean(
        file,
        lent(&mut out, length_at(head, 96)),
        lent(&mut list, length_at(head, 56)),
    );
}

// Lends zeros, as many as a head asks for.
fn in_zeros<F: FnOnce(&mut Room, &mut [u8])>(head: &[u8; 104], act: F)
    requires { F.IsAlwaysCallable act }
{
    let mut marks = [0u64; NUMBERS];
    let mut firsts = [0u32; FIRSTS];
    let mut worsts = [0u32; FIRSTS];
    let mut curves = [0u64; NUMBERS];
    let mut params = [0u64; PARAMS];
    let mut out = [0u8; WRITTEN];
    let room = &mut Room {
        marks: lent(&mut marks, length_at(head, 56)),
        firsts: lent(&mut firsts, length_at(head, 64)),
        worsts: lent(&mut worsts, length_at(head, 72)),
        curves: lent(&mut curves, length_at(head, 80)),
        params: lent(&mut params, length_at(head, 88)),
    };
    act(room, lent(&mut out, length_at(head, 96)));
}

fn write_record(what: u64, head: &[u8; 104], file: &[u8]) {
    in_zeros(head, |room, out| read_and_write(what, file, room, out));
}

// Prefixes or changes.
fn tallied(what: u64, runs: Runs, file: &mut [u8], room: &mut Room, out: &mut [u8]) -> Tally {
    if (what == PREFIXES) | (what == UNPACK_PREFIXES) {
        return prefixes(what, file, room, out);
    }
    changes(what, runs, file, room, out)
}

fn tally_record(what: u64, head: &[u8; 104], file: &mut [u8]) {
    in_zeros(
        head,
        |room, out| print_tally(tallied(what, runs_of(head), file, room, out)),
    );
}

// What a record asks for.
fn record(head: &[u8; 104], file: &mut [u8]) {
    match cases::word(head, 0) {
        0 => list_record(head, file),
        1 => write_record(1, head, file),
        4 => write_record(4, head, file),
        5 => write_record(5, head, file),
        PACK => pack_record(PACK, head, file),
        UNPACK => pack_record(UNPACK, head, file),
        SALVAGE => clean_record(head, file),
        what => tally_record(what, head, file),
    }
}

// The next bytes of standard input, put from `at` to before `end`.
fn read_run(file: &mut [u8], at: usize, end: usize) {
    if end > file.len() {
        return;
    }
    if at > end {
        return;
    }
    io::read_full(STDIN, &mut file[at..end]);
}

fn read_runs(runs: Runs, file: &mut [u8]) {
    read_run(file, 0, runs.end);
    read_run(file, runs.second, runs.second_end);
    read_run(file, runs.third, runs.third_end);
}

// The file of a head, read and looked at.
fn read_record(head: &[u8; 104], room: &mut [u8]) {
    let runs = runs_of(head);
    let file = lent(room, runs.length);
    read_runs(runs, file);
    record(head, file);
}

// The same in an array, which is lent as a slice here and not where it is made: there it is too large for the prover.
fn in_room(head: &[u8; 104], room: &mut [u8; FILE]) {
    read_record(head, room);
}

// One record, if there is one with no more than there is room for.
fn step() -> bool {
    let mut head = [0u8; 104];
    if io::read_full(STDIN, &mut head) < 104 {
        return false;
    }
    if !fits(&head) {
        return false;
    }
    let mut file = [0u8; FILE];
    in_room(&head, &mut file);
    true
}

fn main() {
    cases::each_case(step);
}
