// The room of a line and of its case. All of it is on the stack, of which a shell gives 8 MB, and about one of them is to stay free. Each array is made by a function of its own: one
// that is made where it is used is long in every goal.

// The most marks of a line, and the most curves of a list that is checked. A ring has as many curves as marks, and a parameter more.
const MOST: usize = 21000;

pub const MOST_MARKS: u64 = MOST as u64;

// How many bytes a line may have, and one more, by which too long a line is seen. A `check_worst_ring` line of the most marks and curves, each with mark numbers of
// five digits, has 4,536,062.
pub const LINE: usize = 4600001;

const MARKS: usize = 2 * MOST;

const PARAMS: usize = MOST + 1;

// The numbers of the curves: records of nine, or more curves of eight.
const CURVES: usize = 9 * MOST;

pub const MOST_CURVES: u64 = (CURVES / 8) as u64;

// A line of at most 8,192 bytes is short. It has no more than 240 marks, of 34 bytes each, and a text there draws fewer than 2,048 curves, of four bytes each.
const SHORT: usize = 8192;

const SHORT_CURVES: usize = 8 * 2048;

// A house file that was packed, unpacked or cleaned has as many bytes as the curves of other kinds.
pub const FILE: usize = 8 * CURVES;

// The list of dropped marks, of some 6,000 at the most. The compiler gives it a place of its own beside the curves' one, so it takes from what is to stay free.
const REPORT: usize = 100000;

pub fn file() -> [u8; FILE] {
    [0; FILE]
}

pub fn report() -> [u8; REPORT] {
    [0; REPORT]
}

pub fn line() -> [u8; LINE] {
    [0; LINE]
}

pub fn marks() -> [f64; MARKS] {
    [0.0; MARKS]
}

pub fn indices() -> [u32; MOST] {
    [0; MOST]
}

// For the open parts of a flat fit: two numbers for each mark.
pub fn open() -> [u32; MARKS] {
    [0; MARKS]
}

pub fn params() -> [f64; PARAMS] {
    [0.0; PARAMS]
}

pub fn curves() -> [f64; CURVES] {
    [0.0; CURVES]
}

pub fn is_short(line: &[u8]) -> bool {
    line.len() <= SHORT
}

// There are many short lines, and this is cleared for each.
pub fn short_curves() -> [f64; SHORT_CURVES] {
    [0.0; SHORT_CURVES]
}
