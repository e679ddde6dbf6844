// Path data as two cutters read it: what its numbers and letters are, and how texts and curves go with each other. Export and import have crates of their own.
#![tactic(auto)]

ghost use Rattle.std.specs.Prelude.{◌≡◌};
ghost use Rattle.path.specs.Decimals.{small};

// A number with at most three decimal places: how many thousandths, and whether it is below zero.
#[derive(Clone, Copy)]
pub struct Decimal {
    pub negative: bool,
    pub thousandths: u64,
}

// What a letter draws: L lines, C curves. Z draws none, and M's pairs behind the first are lines.
#[derive(Clone, Copy)]
pub enum Letter {
    Line,
    Curve,
}

// 1,000,000,000 in thousandths.
pub const MOST: u64 = 1_000_000_000_000;

// Whether a number is not above 1,000,000,000 in magnitude.
pub fn is_small(d: Decimal) -> bool
    ensures { result ≡ small d }
{
    d.thousandths <= MOST
}
