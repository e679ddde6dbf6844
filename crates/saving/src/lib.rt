// The joined fit of a house file, as a house file: a file's bytes in, the same marks with their curves out.
#![tactic(auto)]

ghost use Rattle.std.specs.Prelude.{◌≡◌, ◌%◌, ◌≤◌, length};
ghost use Rattle.float.specs.Refusal.{answer};
ghost use Rattle.lines.specs.Handed.{shown, handed, hand_over};
ghost use Rattle.house.specs.File.{bytes_of};
ghost use Rattle.form.specs.declared.Form.TheVariants as form;
ghost use Rattle.writer.specs.Writer.{file_for};
ghost use Rattle.desk.specs.Desk.{patterns};
ghost use Rattle.saving.specs.Saving.{roomy_fit, file_with, bytes_in, saved_of};
ghost use Rattle.saving.specs.Ready.{Ready};

use desk::{copy_floats, copy_patterns, open_file};
use fit::fit_joined;
use float::of_bits;
use float::refusal::Refusal;
use form::Form;
use lines::hand_refusal;
use writer::write_file;

// The marks with their first k curves, as a file.
fn hand_file(
    tolerance: u64,
    marks: &[u64],
    k: usize,
    firsts: &[u32],
    worsts: &[u32],
    curves: &[f64],
    params: &[f64],
    out: &mut [u8],
) -> Result<usize, Refusal>
    requires { Ready marks.now k firsts.now worsts.now curves.now params.now }
    ensures { handed (answer result) out.new ≡ hand_over (bytes_of (file_for form.Nine tolerance marks.now k firsts.now worsts.now (patterns curves.now) (patterns params.now))) out.old }
{
    let mut cs = desk::curve_patterns();
    let mut ps = desk::param_patterns();
    copy_patterns(curves, &mut cs);
    copy_patterns(params, &mut ps);
    write_file(
        Form::Nine,
        tolerance,
        marks,
        k,
        firsts,
        worsts,
        &cs,
        &ps,
        out,
    )
}

// The joined fit of a file's marks, as a file.
fn hand_fit(tolerance: u64, marks: &[u64], out: &mut [u8]) -> Result<usize, Refusal>
    requires { (length marks.now % 2 ≡ 0) × (length marks.now ≤ 8192) }
    ensures { handed (answer result) out.new ≡ hand_over (shown (bytes_in (file_with tolerance marks.now (roomy_fit tolerance marks.now)))) out.old }
{
    let mut ms = desk::mark_floats();
    let mut curves = desk::curve_floats();
    let mut firsts = desk::first_marks();
    let mut worsts = desk::first_marks();
    let mut params = desk::param_floats();
    copy_floats(marks, &mut ms);
    let m = marks.len();
    let fitted = fit_joined(
        &ms[..m],
        of_bits(tolerance),
        &mut curves,
        &mut firsts,
        &mut worsts,
        &mut params,
    );
    match fitted {
        Ok(k) => hand_file(tolerance, marks, k, &firsts, &worsts, &curves, &params, out),
        Err(q) => hand_refusal(q.number(), out),
    }
}

// Fits the outline of a house file and writes it with its curves into the first bytes of `out`; a file that is refused gives the one line that names its refusal. Curves
// that the file has are not looked at. Where `out` is too short the call itself is refused, and `out` stays as it is.
pub fn save_fit(file: &[u8], out: &mut [u8]) -> Result<usize, Refusal>
    ensures { handed (answer result) out.new ≡ hand_over (saved_of file.now) out.old }
{
    let mut marks = desk::mark_patterns();
    let mut firsts = desk::first_marks();
    let mut worsts = desk::first_marks();
    let mut curves = desk::curve_patterns();
    let mut params = desk::param_patterns();
    let read = open_file(
        file,
        &mut marks,
        &mut firsts,
        &mut worsts,
        &mut curves,
        &mut params,
    );
    match read {
        Ok(found) => {
            let m = 2 * found.marks;
            hand_fit(found.tolerance, &marks[..m], out)
        }
        Err(q) => hand_refusal(q.number(), out),
    }
}
