// The house file, in either form, read. Numbers stand as the bit patterns of `f64`, so that every pattern, a NaN's too, comes as it is.
#![tactic(auto)]

mod bodies;

ghost use Rattle.std.specs.Prelude.{◌≡◌};
ghost use Rattle.float.specs.Refusal.{answer};
ghost use Rattle.reader.specs.Reader.{outcome, read_of};

use bodies::copy_held;
use float::refusal::Refusal;
use form::Form;
use house::bytes::eight;
use house::sizes;
use house::sizes::has_room;
use limits::MOST_MARKS;
use packed_heads::find_held;

// What a file holds beside the slices: how its curves are stored, its tolerance, and how many marks and curves.
#[derive(Clone, Copy)]
pub struct Found {
    pub form: Form,
    pub tolerance: u64,
    pub marks: usize,
    pub curves: usize,
}

// Takes a file apart into the lent slices, which stay as they are where it is refused. No number's value is judged.
pub fn read_file(
    file: &[u8],
    marks: &mut [u64],
    firsts: &mut [u32],
    worsts: &mut [u32],
    curves: &mut [u64],
    params: &mut [u64],
) -> Result<Found, Refusal>
    ensures { outcome (answer result) marks.new firsts.new worsts.new curves.new params.new ≡ read_of file.now marks.old firsts.old worsts.old curves.old params.old }
{
    let Some(held) = find_held(file) else {
        return Err(Refusal::BadlyFormed);
    };
    let form = held.layout.form;
    let n = held.layout.marks;
    let k = held.layout.curves;
    if n > MOST_MARKS {
        return Err(Refusal::TooMany);
    }
    if marks.len() < sizes::MARK_NUMBERS * n {
        return Err(Refusal::NoRoom);
    }
    if has_room(
        form,
        n,
        k,
        firsts.len(),
        worsts.len(),
        curves.len(),
        params.len(),
    ) {
        copy_held(
            held.joints,
            file,
            form,
            n,
            k,
            marks,
            firsts,
            worsts,
            curves,
            params,
        );
        return Ok(Found {
            form,
            tolerance: eight(file, sizes::HEAD_BYTES),
            marks: n,
            curves: k,
        });
    }
    Err(Refusal::NoRoom)
}
