// The joined fit of a house file that is known to be well formed.
#![tactic(auto)]

ghost use Rattle.std.specs.Prelude.{◌≡◌, ◌+◌, ◌*◌, ◌≤◌, length, drop};
ghost use Rattle.float.specs.Slices.{written};
ghost use Rattle.float.specs.Refusal.{answer};
ghost use Rattle.house.specs.Limits.{number_field, mark_bytes, marks_at};
ghost use Rattle.house.specs.Bytes.{words};
ghost use Rattle.house.specs.Held.{file_at};
ghost use Rattle.form.specs.declared.Form.TheVariants as form;
ghost use Rattle.desk.specs.Desk.{zeros, no_marks, floats};
ghost use Rattle.file_fit.specs.FileFit.{file_fit, Left};

use float::of_bits;
use float::refusal::Refusal;
use house::bytes::eight;
use house::sizes;

// The row of n numbers at `at`, from their bits, into the first n places.
pub fn copy_numbers(b: &[u8], at: usize, n: usize, out: &mut [f64])
    requires { (at + number_field * n ≤ length b.now) × (n ≤ length out.old) }
    ensures { out.new ≡ written (floats (words n (drop at b.now))) out.old }
{
    for i in 0..n {
        out[i] = of_bits(eight(b, at + sizes::NUMBER_FIELD * i));
    }
}

// Room for 512 marks. A function hides from its callers' proofs how the array is made.
pub fn mark_room() -> [f64; 1024]
    ensures { 1024 ≡ length result }
{
    [0.0; 1024]
}

// Zeros for 511 worst marks.
fn worst_room() -> [u32; 511]
    ensures { (511 ≡ length result) × (result ≡ no_marks 511) }
{
    [0; 511]
}

// Zeros for 512 parameters.
fn param_room() -> [f64; 512]
    ensures { (512 ≡ length result) × (result ≡ zeros 512) }
{
    [0.0; 512]
}

// Fits the outline of a file of n marks, at most 512. The worst marks and the parameters are not asked for.
pub fn fit_file(
    file: &[u8],
    n: usize,
    curves: &mut [f64],
    firsts: &mut [u32],
) -> Result<usize, Refusal>
    requires { (marks_at + mark_bytes * n ≤ length file.now) × (n ≤ 512) }
    ensures { Left (file_fit (file_at file.now form.Eight n 0) curves.old firsts.old (no_marks 511) (zeros 512)) (answer result) curves.new firsts.new }
{
    let mut marks = mark_room();
    let mut worsts = worst_room();
    let mut params = param_room();
    let m = sizes::MARK_NUMBERS * n;
    copy_numbers(file, sizes::MARKS_AT, m, &mut marks);
    let tolerance = of_bits(eight(file, sizes::HEAD_BYTES));
    fit::fit_joined(
        &marks[..m],
        tolerance,
        curves,
        firsts,
        &mut worsts,
        &mut params,
    )
}
