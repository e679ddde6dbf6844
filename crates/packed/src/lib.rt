// The house file in which each joint stands once: its format. The calls that convert whole files are in `packer`, and the reader takes both forms.
#![tactic(auto)]

ghost use Rattle.std.specs.Prelude.{◌≡◌, ◌^◌, ◌<◌};
ghost use Rattle.packed.specs.Packed.{flag, rest_numbers, entry_bytes};
ghost use Rattle.packed.specs.Unpacked.{flag_at, entry_at, first_place, start_place};

use form::{Form, worsts_for};
use house::sizes;

// The kind that holds all curves.
pub const PACKED_KIND: u64 = 8;

// The bytes of a mark number, whatever the number of marks.
pub const PACKED_MARK: usize = 4;

// The leading byte.
const FLAG_FIELD: usize = 1;

// How many of a curve's numbers come before its end: its start and its controls.
pub const BEFORE_END: usize = 6;

// What stands before the first curve: the leading byte, the first mark's number and its place.
pub const LEAD_BYTES: usize = FLAG_FIELD + PACKED_MARK + sizes::MARK_BYTES;

// The leading byte: whether the largest distance and the worst mark of each curve are kept.
pub fn flag(form: Form) -> u64
    ensures { result ≡ flag form }
{
    match form {
        Form::Eight => 0,
        Form::Nine => 1,
    }
}

// How many numbers of a curve are kept: all but its start.
pub fn rest_numbers(form: Form) -> usize
    ensures { result ≡ rest_numbers form }
{
    match form {
        Form::Eight => 6,
        Form::Nine => 7,
    }
}

// The bytes of a curve: its next mark number, its numbers, and its worst mark where it is kept.
pub fn entry_bytes(form: Form) -> usize
    ensures { result ≡ entry_bytes form }
{
    PACKED_MARK + sizes::NUMBER_FIELD * rest_numbers(form) + PACKED_MARK * worsts_for(form, 1)
}

// Where the leading byte stands behind n marks.
fn flag_at(n: usize) -> usize
    requires { flag_at n < 2 ^ 64 }
    ensures { result ≡ flag_at n }
{
    sizes::MARKS_AT + sizes::MARK_BYTES * n + sizes::HEAD_BYTES
}

// Where curve i stands behind n marks.
pub fn entry_at(form: Form, n: usize, i: usize) -> usize
    requires { entry_at form n i < 2 ^ 64 }
    ensures { result ≡ entry_at form n i }
{
    flag_at(n) + LEAD_BYTES + entry_bytes(form) * i
}

// Where the first mark of curve i stands: before the curves, or as the next mark number of the curve before it.
pub fn first_place(form: Form, n: usize, i: usize) -> usize
    requires { entry_at form n i < 2 ^ 64 }
    ensures { result ≡ first_place form n i }
{
    if i == 0 {
        return flag_at(n) + FLAG_FIELD;
    }
    entry_at(form, n, i - 1)
}

// Where the start of curve i stands: before the curves, or as the end of the curve before it.
pub fn start_place(form: Form, n: usize, i: usize) -> usize
    requires { entry_at form n i < 2 ^ 64 }
    ensures { result ≡ start_place form n i }
{
    if i == 0 {
        return flag_at(n) + FLAG_FIELD + PACKED_MARK;
    }
    entry_at(form, n, i - 1)
        + PACKED_MARK
        + sizes::NUMBER_FIELD * (BEFORE_END - sizes::MARK_NUMBERS)
}
