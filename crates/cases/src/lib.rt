// What the programs over kept vectors share: numbers out of little-endian bytes, numbers as lines of hex digits on standard output, and parts of slices.
#![tactic(auto)]

pub mod parts;

// The descriptors of standard input and output.
pub const STDIN: i32 = 0;

pub const STDOUT: i32 = 1;

// The number in the eight bytes that begin at `at`, lowest byte first, and 0 where they would pass the end.
pub fn word(bytes: &[u8], at: usize) -> u64 {
    bytes
        .get(at..)
        .and_then(|rest| rest.first_chunk())
        .map_or(0, |eight| u64::from_le_bytes(*eight))
}

// The f64 whose bit pattern stands there.
pub fn number(bytes: &[u8], at: usize) -> f64 {
    float::of_bits(word(bytes, at))
}

// Writes a number's bit pattern in 16 hex digits.
pub fn print_number(x: f64) {
    io::print_hex(STDOUT, float::to_bits(x), 16);
}

// Writes a blank and then a number's bit pattern.
pub fn print_next(x: f64) {
    io::write_all(STDOUT, b" ");
    print_number(x);
}

// Writes a whole number in decimal.
pub fn print_count(n: u64) {
    io::print_decimal(STDOUT, n);
}

// Ends the line.
pub fn end_line() {
    io::write_all(STDOUT, b"\n");
}

// Writes a blank and then a whole number in decimal.
pub fn print_next_count(n: u64) {
    io::write_all(STDOUT, b" ");
    print_count(n);
}

// The next number from standard input.
fn read_float() -> f64 {
    let mut bytes = [0u8; 8];
    io::read_full(STDIN, &mut bytes);
    number(&bytes, 0)
}

// The next n numbers, as far as the slice has room for them.
pub fn read_floats(out: &mut [f64], n: usize) {
    for x in out.iter_mut().take(n) {
        *x = read_float();
    }
}

// The digest turned by five bits, and a word added to it.
pub fn mix(h: u64, w: u64) -> u64 {
    h.rotate_left(5).wrapping_add(w)
}

// Goes on with case after case until one says that the input has ended. Nothing says that it ends, so the cases are counted, up to a number that no input has.
pub fn each_case<F: FnMut() -> bool>(step: F)
    requires { F.IsAlwaysCallable step }
{
    let mut step = step;
    for _ in 0..65536 {
        if !step() {
            return;
        }
    }
}
