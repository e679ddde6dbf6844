// Why a call is refused, each reason with the number that a caller may get. 7 was one, and is given to nothing else.

ghost use Rattle.std.specs.Prelude.{◌≡◌};
ghost use Rattle.float.specs.Refusal.{number as number_of};

// Why a call is refused.
#[derive(Clone, Copy, Debug, PartialEq, Eq)]
pub enum Refusal {
    // Fewer than two marks.
    TooFew,
    // More marks than the call takes.
    TooMany,
    // A mark slice of odd length.
    Odd,
    // Too little room in a lent slice.
    NoRoom,
    // An input number out of range.
    OutOfRange,
    // An operation of the run gave NaN or infinity.
    NotFinite,
    // The search for the nearest point goes too deep.
    TooDeep,
    // A house file that is badly formed.
    BadlyFormed,
    // A number above 1,000,000,000 in magnitude, in path data.
    TooLarge,
    // A text that the grammar of path data does not have.
    NoPath,
    // No curves, or curves that do not meet bit for bit.
    NotJoined,
}

impl Refusal {
    // The number by which a caller learns of it.
    pub fn number(self) -> u32
        ensures { result ≡ number_of self }
    {
        match self {
            Refusal::TooFew => 1,
            Refusal::TooMany => 2,
            Refusal::Odd => 3,
            Refusal::NoRoom => 4,
            Refusal::OutOfRange => 5,
            Refusal::NotFinite => 6,
            Refusal::TooDeep => 8,
            Refusal::BadlyFormed => 9,
            Refusal::TooLarge => 10,
            Refusal::NoPath => 11,
            Refusal::NotJoined => 12,
        }
    }
}
