// The house file, written. Numbers stand as the bit patterns of `f64`, so that every pattern, a NaN's too, is kept as it is.
#![tactic(auto)]

mod records;

ghost use Rattle.std.specs.Prelude.{◌≡◌};
ghost use Rattle.float.specs.Refusal.{answer};
ghost use Rattle.writer.specs.Writer.{writing, write_of};

use float::refusal::Refusal;
use form::Form;
use house::sizes;
use house::sizes::{has_room, size_for};
use limits::MOST_MARKS;
use records::{can_hold, put_file};

// Puts an outline with `count` curves, which are stored as the form says, together as a file, in the first bytes of `out`, and tells how many they are; `out` stays as it is where the outline is refused.
pub fn write_file(
    form: Form,
    tolerance: u64,
    marks: &[u64],
    count: usize,
    firsts: &[u32],
    worsts: &[u32],
    curves: &[u64],
    params: &[u64],
    out: &mut [u8],
) -> Result<usize, Refusal>
    ensures { writing (answer result) out.new ≡ write_of form tolerance marks.now count firsts.now worsts.now curves.now params.now out.old }
{
    if marks.len() % sizes::MARK_NUMBERS != 0 {
        return Err(Refusal::Odd);
    }
    let n = marks.len() / sizes::MARK_NUMBERS;
    if n > MOST_MARKS {
        return Err(Refusal::TooMany);
    }
    if has_room(
        form,
        n,
        count,
        firsts.len(),
        worsts.len(),
        curves.len(),
        params.len(),
    ) {
        let size = size_for(form, n, count);
        if out.len() < size {
            return Err(Refusal::NoRoom);
        }
        if can_hold(form, n, count, firsts, worsts) {
            put_file(
                form, tolerance, marks, count, firsts, worsts, curves, params, out,
            );
            return Ok(size);
        }
        return Err(Refusal::BadlyFormed);
    }
    Err(Refusal::NoRoom)
}
