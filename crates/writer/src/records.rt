// Putting a house file together, record after record, where it is known to fit.
ghost use Rattle.std.specs.Prelude.{◌≡◌, ◌&&◌, ◌++◌, ◌∷◌, [], ◌+◌, ◌*◌, ◌/◌, ◌%◌, ◌<◌, ◌≤◌, length, take, drop, get_or};
ghost use Rattle.std.proofs.lemmas.List.Edits.{sets};
ghost use Rattle.form.specs.Form.{width, worsts_for};
ghost use Rattle.house.specs.Limits.{mark_field, number_field, mark_numbers, worst_marks, beside_bytes, curve_bytes, marks_at, tolerance_kind, marks_kind, curve_kind};
ghost use Rattle.house.specs.Bytes.{le, row_bytes, les, all_fit};
ghost use Rattle.house.specs.File.{rec, framed, flat, body_of, curve_records, bytes_of, fewer};
ghost use Rattle.house.specs.Layout.{Room};
ghost use Rattle.float.specs.Slices.{written};
ghost use Rattle.writer.specs.Writer.{file_for, marks_fit};

use form::{Form, width, worsts_for};
use house::bytes::{put_eight, put_head, put_mark, put_words};
use house::sizes;
use house::sizes::Field;

// Whether the first k mark numbers fit their field.
fn marks_fit(field: Field, marks: &[u32], k: usize) -> bool
    requires { k ≤ length marks.now }
    ensures { result ≡ all_fit (mark_field field) (take k marks.now) }
{
    for x in &marks[..k] {
        if !sizes::mark_fits(field, *x as u64) {
            return false;
        }
    }
    true
}

// Whether a file can hold k curves, with these first and worst marks, beside n marks.
pub fn can_hold(form: Form, n: usize, k: usize, firsts: &[u32], worsts: &[u32]) -> bool
    requires { (k ≤ length firsts.now) × (worsts_for form k ≤ length worsts.now) }
    ensures { result ≡ fewer k n && (marks_fit form n k firsts.now worsts.now) }
{
    if k == 0 {
        return true;
    }
    if n <= k {
        return false;
    }
    let field = sizes::field_for(n);
    if marks_fit(field, firsts, k) {
        return marks_fit(field, worsts, worsts_for(form, k));
    }
    false
}

// Kinds 1 and 2, at the start.
fn put_marks(out: &mut [u8], tolerance: u64, marks: &[u64])
    requires { marks_at + number_field * length marks.now ≤ length out.old }
    ensures { out.new ≡ sets out.old 0 (flat (rec tolerance_kind (le number_field tolerance) ∷ (rec marks_kind (les marks.now) ∷ []))) }
{
    put_head(out, 0, sizes::TOLERANCE_LENGTH, sizes::TOLERANCE_KIND);
    put_eight(out, sizes::HEAD_BYTES, tolerance);
    let len = marks.len();
    let size = sizes::KIND_FIELD + sizes::NUMBER_FIELD * len;
    put_head(out, sizes::MARKS_HEAD, size as u64, sizes::MARKS_KIND);
    put_words(out, sizes::MARKS_AT, marks, len);
}

// The mark numbers of curve i, at `at`: its first mark, and its worst mark where it is kept.
fn put_beside(
    out: &mut [u8],
    at: usize,
    form: Form,
    field: Field,
    firsts: &[u32],
    worsts: &[u32],
    i: usize,
)
    requires { (at + beside_bytes form field ≤ length out.old) × ((i < length firsts.now) × (worsts_for form (i + 1) ≤ length worsts.now)) }
    ensures { out.new ≡ sets out.old at (le (mark_field field) (get_or firsts.now i 0) ++ row_bytes (mark_field field) (take (worst_marks form) (drop (worsts_for form i) worsts.now))) }
{
    put_mark(out, at, field, firsts[i] as u64);
    let Form::Nine = form else {
        return;
    };
    put_mark(out, at + sizes::mark_field(field), field, worsts[i] as u64);
}

// The record of curve i, at `at`.
fn put_curve(
    out: &mut [u8],
    at: usize,
    form: Form,
    field: Field,
    firsts: &[u32],
    worsts: &[u32],
    curves: &[u64],
    i: usize,
)
    requires { (at + curve_bytes form field ≤ length out.old) × ((i < length firsts.now) × ((worsts_for form (i + 1) ≤ length worsts.now) × (width form * (i + 1) ≤ length curves.now))) }
    ensures { out.new ≡ sets out.old at (framed (rec (curve_kind form field) (body_of form field (get_or firsts.now i 0) (drop (worsts_for form i) worsts.now) (drop (width form * i) curves.now)))) }
{
    let size = sizes::KIND_FIELD + sizes::body_bytes(form, field);
    put_head(out, at, size as u64, sizes::curve_kind(form, field));
    let body = at + sizes::HEAD_BYTES;
    put_beside(out, body, form, field, firsts, worsts, i);
    let numbers = body + sizes::beside_bytes(form, field);
    let n = width(form);
    let j = n * i;
    put_words(out, numbers, &curves[j..], n);
}

// The records of the first k curves, at `at`.
fn put_curves(
    out: &mut [u8],
    at: usize,
    form: Form,
    field: Field,
    firsts: &[u32],
    worsts: &[u32],
    curves: &[u64],
    k: usize,
)
    requires { (at + curve_bytes form field * k ≤ length out.old) × ((k ≤ length firsts.now) × ((worsts_for form k ≤ length worsts.now) × (width form * k ≤ length curves.now))) }
    ensures { out.new ≡ sets out.old at (flat (curve_records form field (take k firsts.now) (take (worsts_for form k) worsts.now) (take (width form * k) curves.now))) }
{
    let step = sizes::HEAD_BYTES + sizes::body_bytes(form, field);
    for i in 0..k {
        put_curve(out, at + step * i, form, field, firsts, worsts, curves, i);
    }
}

// The whole file, in the first bytes, which have room for it.
pub fn put_file(
    form: Form,
    tolerance: u64,
    marks: &[u64],
    k: usize,
    firsts: &[u32],
    worsts: &[u32],
    curves: &[u64],
    params: &[u64],
    out: &mut [u8],
)
    requires mark_numbers_len { length marks.now % mark_numbers ≡ 0 }
    requires room { Room form (length marks.now / mark_numbers) k out.old marks.now firsts.now worsts.now curves.now params.now }
    ensures { out.new ≡ written (bytes_of (file_for form tolerance marks.now k firsts.now worsts.now curves.now params.now)) out.old }
{
    put_marks(out, tolerance, marks);
    if k == 0 {
        return;
    }
    let n = marks.len() / sizes::MARK_NUMBERS;
    let end = sizes::MARKS_AT + sizes::MARK_BYTES * n;
    let field = sizes::field_for(n);
    put_curves(out, end, form, field, firsts, worsts, curves, k);
    let last = end + (sizes::HEAD_BYTES + sizes::body_bytes(form, field)) * k;
    let numbers = last + sizes::HEAD_BYTES;
    let size = sizes::KIND_FIELD + sizes::NUMBER_FIELD * n;
    put_head(out, last, size as u64, sizes::PARAMS_KIND);
    put_words(out, numbers, params, n);
}
