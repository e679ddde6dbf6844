// Putting a packed file together as one with a record for each curve, where it is known to fit.
ghost use Rattle.std.specs.Prelude.{◌≡◌, ◌++◌, ◌+◌, ◌*◌, ◌<◌, ◌≤◌, length};
ghost use Rattle.std.proofs.lemmas.List.Edits.{sets};
ghost use Rattle.float.specs.Slices.{written};
ghost use Rattle.form.specs.Form.{width};
ghost use Rattle.house.specs.Limits.{mark_field, number_field, beside_bytes, curve_bytes};
ghost use Rattle.house.specs.Bytes.{le, row_bytes, les};
ghost use Rattle.house.specs.File.{bytes_of};
ghost use Rattle.house.specs.Layout.{size_for};
ghost use Rattle.packed.specs.Each.{each};
ghost use Rattle.packed.specs.Packed.{packed_bytes};
ghost use Rattle.packed.specs.Unpacked.{entry_at, packed_at};
ghost use Rattle.unpacker.specs.Records.{first_here, worst_here, numbers_here, record_here};

use form::Form;
use house::bytes::{four, put_head, put_mark};
use house::sizes;
use house::sizes::Field;
use packed::{PACKED_MARK, entry_at, first_place, rest_numbers, start_place};
use text::put_bytes;

// The mark numbers of curve i, at `at`: its first mark, and its worst mark where it is kept.
fn put_beside(file: &[u8], form: Form, field: Field, n: usize, i: usize, out: &mut [u8], at: usize)
    requires { (entry_at form n (i + 1) ≤ length file.now) × (at + beside_bytes form field ≤ length out.old) }
    ensures { out.new ≡ sets out.old at (le (mark_field field) (first_here file.now form n i) ++ row_bytes (mark_field field) (worst_here file.now form n i)) }
{
    put_mark(out, at, field, four(file, first_place(form, n, i)));
    let Form::Nine = form else {
        return;
    };
    let worst = entry_at(form, n, i) + PACKED_MARK + sizes::NUMBER_FIELD * rest_numbers(form);
    put_mark(out, at + sizes::mark_field(field), field, four(file, worst));
}

// The numbers of curve i, at `at`: its start, which stands before it, and the rest.
fn put_numbers(file: &[u8], form: Form, n: usize, i: usize, out: &mut [u8], at: usize)
    requires { (entry_at form n (i + 1) ≤ length file.now) × (at + number_field * width form ≤ length out.old) }
    ensures { out.new ≡ sets out.old at (les (numbers_here file.now form n i)) }
{
    let start = start_place(form, n, i);
    let rest = entry_at(form, n, i) + PACKED_MARK;
    let end = rest + sizes::NUMBER_FIELD * rest_numbers(form);
    let behind = put_bytes(out, at, &file[start..start + sizes::MARK_BYTES]);
    put_bytes(out, behind, &file[rest..end]);
}

// The record of curve i, at `at`.
fn put_curve(file: &[u8], form: Form, field: Field, n: usize, i: usize, out: &mut [u8], at: usize)
    requires { (entry_at form n (i + 1) ≤ length file.now) × (at + curve_bytes form field ≤ length out.old) }
    ensures { out.new ≡ sets out.old at (record_here file.now form field n i) }
{
    let size = sizes::KIND_FIELD + sizes::body_bytes(form, field);
    put_head(out, at, size as u64, sizes::curve_kind(form, field));
    let body = at + sizes::HEAD_BYTES;
    put_beside(file, form, field, n, i, out, body);
    let numbers = body + sizes::beside_bytes(form, field);
    put_numbers(file, form, n, i, out, numbers);
}

// The records of the first k curves, at `at`.
fn put_curves(file: &[u8], form: Form, field: Field, n: usize, k: usize, out: &mut [u8], at: usize)
    requires { (entry_at form n k ≤ length file.now) × (at + curve_bytes form field * k ≤ length out.old) }
    ensures { out.new ≡ sets out.old at (each k (record_here file.now form field n)) }
{
    let step = sizes::HEAD_BYTES + sizes::body_bytes(form, field);
    for i in 0..k {
        put_curve(file, form, field, n, i, out, at + step * i);
    }
}

// The whole file, in the first bytes, which have room for it: kinds 1, 2 and 4 are as they stand.
pub fn put_unpacked(file: &[u8], form: Form, n: usize, k: usize, out: &mut [u8])
    requires { (0 < k) × ((packed_bytes (packed_at file.now form n k) ≡ file.now) × (size_for form n k ≤ length out.old)) }
    ensures { out.new ≡ written (bytes_of (packed_at file.now form n k)) out.old }
{
    let end = sizes::MARKS_AT + sizes::MARK_BYTES * n;
    let field = sizes::field_for(n);
    let last = end + (sizes::HEAD_BYTES + sizes::body_bytes(form, field)) * k;
    let params = entry_at(form, n, k);
    put_bytes(out, 0, &file[..end]);
    put_curves(file, form, field, n, k, out, end);
    put_bytes(out, last, &file[params..]);
}
