// Numbers and their patterns, where a NaN has a number and a pattern of this program's own.

// The number of a pattern, and 0 for a NaN's.
pub fn number(w: u64) -> f64 {
    if w % 0x8000_0000_0000_0000 <= 0x7ff0_0000_0000_0000 {
        return f64::from_bits(w);
    }
    0.0
}

// The pattern of a number, and that of infinity for a NaN.
pub fn bits(x: f64) -> u64 {
    if x == x {
        return f64::to_bits(x);
    }
    0x7ff0_0000_0000_0000
}
