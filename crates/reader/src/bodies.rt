// What a house file holds, copied. Nothing is copied before all heads are right.
ghost use Rattle.std.specs.Prelude.{◌≡◌, ◌+◌, ◌*◌, ◌≤◌, length, drop};
ghost use Rattle.float.specs.Slices.{written};
ghost use Rattle.form.specs.Form.{width, worsts_for};
ghost use Rattle.house.specs.Limits.{mark_field, number_field, curve_bytes};
ghost use Rattle.house.specs.Layout.{Room, Copied};
ghost use Rattle.house.specs.Held.{in_each, firsts_of, worsts_of, curves_of, file_at};
ghost use Rattle.packed_heads.specs.Layout.{held_at};
ghost use Rattle.reader.specs.Layout.{HeldRoom};

use form::{Form, width, worsts_for};
use house::bytes::{copy_words, mark_number};
use house::sizes;
use house::sizes::Field;
use packed_bodies::copy_packed;
use packed_heads::Joints;

// The mark number at the place p of each of k records of `step` bytes from `at` on, into the first places.
fn copy_marks(b: &[u8], at: usize, p: usize, field: Field, step: usize, k: usize, out: &mut [u32])
    requires { (at + step * k ≤ length b.now) × ((p + mark_field field ≤ step) × (k ≤ length out.old)) }
    ensures { out.new ≡ written (in_each (mark_field field) 1 p step k (drop at b.now)) out.old }
{
    for i in 0..k {
        out[i] = mark_number(b, at + step * i + p, field) as u32;
    }
}

// The n numbers at the place p of each of k records of `step` bytes from `at` on, into the first places.
fn copy_rows(b: &[u8], at: usize, p: usize, n: usize, step: usize, k: usize, out: &mut [u64])
    requires { (at + step * k ≤ length b.now) × ((p + number_field * n ≤ step) × (n * k ≤ length out.old)) }
    ensures { out.new ≡ written (in_each number_field n p step k (drop at b.now)) out.old }
{
    for i in 0..k {
        let j = n * i;
        copy_words(b, at + step * i + p, n, &mut out[j..]);
    }
}

// The bodies of k curves from `at` on, into the first places.
fn copy_curves(
    b: &[u8],
    at: usize,
    form: Form,
    field: Field,
    k: usize,
    firsts: &mut [u32],
    worsts: &mut [u32],
    curves: &mut [u64],
)
    requires { (at + curve_bytes form field * k ≤ length b.now) × ((k ≤ length firsts.old) × ((worsts_for form k ≤ length worsts.old) × (width form * k ≤ length curves.old))) }
    ensures { (firsts.new ≡ written (firsts_of form field k (drop at b.now)) firsts.old) × ((worsts.new ≡ written (worsts_of form field k (drop at b.now)) worsts.old) × (curves.new ≡ written (curves_of form field k (drop at b.now)) curves.old)) }
{
    let step = sizes::HEAD_BYTES + sizes::body_bytes(form, field);
    copy_marks(b, at, sizes::HEAD_BYTES, field, step, k, firsts);
    let second = sizes::HEAD_BYTES + sizes::mark_field(field);
    copy_marks(b, at, second, field, step, worsts_for(form, k), worsts);
    let numbers = sizes::HEAD_BYTES + sizes::beside_bytes(form, field);
    copy_rows(b, at, numbers, width(form), step, k, curves);
}

// The numbers of a file of n marks and k curves, into the first places of the slices.
fn copy_file(
    b: &[u8],
    form: Form,
    n: usize,
    k: usize,
    marks: &mut [u64],
    firsts: &mut [u32],
    worsts: &mut [u32],
    curves: &mut [u64],
    params: &mut [u64],
)
    requires { Room form n k b.now marks.old firsts.old worsts.old curves.old params.old }
    ensures { Copied (file_at b.now form n k) marks.old firsts.old worsts.old curves.old params.old marks.new firsts.new worsts.new curves.new params.new }
{
    copy_words(b, sizes::MARKS_AT, sizes::MARK_NUMBERS * n, marks);
    if k == 0 {
        return;
    }
    let end = sizes::MARKS_AT + sizes::MARK_BYTES * n;
    let field = sizes::field_for(n);
    copy_curves(b, end, form, field, k, firsts, worsts, curves);
    let step = sizes::HEAD_BYTES + sizes::body_bytes(form, field);
    let last = end + step * k + sizes::HEAD_BYTES;
    copy_words(b, last, n, params);
}

// The same of a file in either form.
pub fn copy_held(
    joints: Joints,
    b: &[u8],
    form: Form,
    n: usize,
    k: usize,
    marks: &mut [u64],
    firsts: &mut [u32],
    worsts: &mut [u32],
    curves: &mut [u64],
    params: &mut [u64],
)
    requires { HeldRoom joints form n k b.now marks.old firsts.old worsts.old curves.old params.old }
    ensures { Copied (held_at joints b.now form n k) marks.old firsts.old worsts.old curves.old params.old marks.new firsts.new worsts.new curves.new params.new }
{
    match joints {
        Joints::Twice => copy_file(b, form, n, k, marks, firsts, worsts, curves, params),
        Joints::Once => copy_packed(b, form, n, k, marks, firsts, worsts, curves, params),
    }
}
