// How near two parameters are.

// How many parameters agree with the Rust's, how many are near it, and how many are not.
#[derive(Clone, Copy)]
pub struct Tally {
    pub same: u64,
    pub near: u64,
    pub other: u64,
}

impl Tally {
    // Counts one more of a kind.
    pub fn count(&mut self, agreement: Agreement) {
        let kind = match agreement {
            Agreement::Same => &mut self.same,
            Agreement::Near => &mut self.near,
            Agreement::Other => &mut self.other,
        };
        *kind = kind.wrapping_add(1);
    }
}

// Whether two parameters are the same, near, or neither. Zeros of either sign are the same.
#[derive(Clone, Copy)]
pub enum Agreement {
    Same,
    Near,
    Other,
}

// Two parameters are near where they are within 1e-9 of the second, relatively.
pub fn compared(t: f64, rust: f64) -> Agreement {
    if t == rust {
        return Agreement::Same;
    }
    if float::abs(t - rust) <= 0.000000001 * float::abs(rust) {
        return Agreement::Near;
    }
    Agreement::Other
}
