// What the calls over whole house files share: room for all that a file may hold, the file read into it, and numbers from their bit patterns and back.
#![tactic(auto)]

ghost use Rattle.std.specs.Prelude.{◌≡◌, ◌≤◌, length};
ghost use Rattle.float.specs.Slices.{written};
ghost use Rattle.float.specs.Refusal.{answer, number};
ghost use Rattle.reader.specs.Reader.{outcome, settled};
ghost use Rattle.desk.specs.Desk.{floats, patterns, zeros, no_marks, file_in, crowded_as, Roomy};

use float::refusal::Refusal;
use float::{of_bits, to_bits};
use limits::MOST_READ;
use reader::{Found, read_file};

// ---- numbers and patterns

// The numbers of some patterns, into the first places.
pub fn copy_floats(xs: &[u64], out: &mut [f64])
    requires { length xs.now ≤ length out.old }
    ensures { out.new ≡ written (floats xs.now) out.old }
{
    for (i, x) in xs.iter().enumerate() {
        out[i] = of_bits(*x);
    }
}

// The patterns of some numbers, into the first places. (Not one function with `copy_floats`, by a closure: what that promises of the closure would be longer than the loop.)
pub fn copy_patterns(xs: &[f64], out: &mut [u64])
    requires { length xs.now ≤ length out.old }
    ensures { out.new ≡ written (patterns xs.now) out.old }
{
    for (i, x) in xs.iter().enumerate() {
        out[i] = to_bits(*x);
    }
}

// ---- room for 4,096 marks. A function hides from its callers' proofs how an array is made.

// The patterns of the marks.
pub fn mark_patterns() -> [u64; 8192]
    ensures { 8192 ≡ length result }
{
    [0; 8192]
}

// The patterns of the curves.
pub fn curve_patterns() -> [u64; 36855]
    ensures { 36855 ≡ length result }
{
    [0; 36855]
}

// The patterns of the parameters.
pub fn param_patterns() -> [u64; 4096]
    ensures { 4096 ≡ length result }
{
    [0; 4096]
}

// The first marks; and the worst marks, which are as many.
pub fn first_marks() -> [u32; 4095]
    ensures { (4095 ≡ length result) × (result ≡ no_marks 4095) }
{
    [0; 4095]
}

// The marks.
pub fn mark_floats() -> [f64; 8192]
    ensures { 8192 ≡ length result }
{
    [0.0; 8192]
}

// The curves.
pub fn curve_floats() -> [f64; 36855]
    ensures { (36855 ≡ length result) × (result ≡ zeros 36855) }
{
    [0.0; 36855]
}

// The parameters.
pub fn param_floats() -> [f64; 4096]
    ensures { (4096 ≡ length result) × (result ≡ zeros 4096) }
{
    [0.0; 4096]
}

// ---- the file

// A reader's refusal, where the slices have room for 4,096 marks: only more marks than that leave none.
fn crowded(q: Refusal) -> Refusal
    ensures { number result ≡ crowded_as (number q) }
{
    match q {
        Refusal::NoRoom => Refusal::TooMany,
        q => q,
    }
}

// Takes a file apart into slices with that room. One of more marks is too many here, also where the reader would take it; one that is longer than any of so many
// marks is badly formed, unread.
pub fn open_file(
    file: &[u8],
    marks: &mut [u64],
    firsts: &mut [u32],
    worsts: &mut [u32],
    curves: &mut [u64],
    params: &mut [u64],
) -> Result<Found, Refusal>
    requires { Roomy marks.old firsts.old worsts.old curves.old params.old }
    ensures { outcome (answer result) marks.new firsts.new worsts.new curves.new params.new ≡ settled (file_in file.now) marks.old firsts.old worsts.old curves.old params.old }
{
    if file.len() > MOST_READ {
        return Err(Refusal::BadlyFormed);
    }
    read_file(file, marks, firsts, worsts, curves, params).map_err(crowded)
}
