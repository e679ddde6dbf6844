// Curves that meet, and their one record put together of what stands in theirs.
ghost use Rattle.std.specs.Prelude.{◌≡◌, ◌+◌, ◌*◌, ◌^◌, ◌<◌, ◌≤◌, eqb, length, drop, Some};
ghost use Rattle.std.proofs.lemmas.List.Edits.{sets};
ghost use Rattle.float.specs.Slices.{written};
ghost use Rattle.house.specs.Limits.{field_for, mark_field, number_field, mark_numbers, worst_marks, head_bytes, mark_bytes};
ghost use Rattle.house.specs.Bytes.{le, row, words, row_bytes, les, same};
ghost use Rattle.house.specs.Held.{marks_end, file_at};
ghost use Rattle.heads.specs.Layout.{layout_of};
ghost use Rattle.packed.specs.Each.{each};
ghost use Rattle.packed.specs.Packed.{flag_field, flag, packed_mark, entry_bytes, mark_at, entry_of, packed_bytes, meets};
ghost use Rattle.packed.specs.Unpacked.{entry_at};
ghost use Rattle.packed.specs.Layout.{packed_size};
ghost use Rattle.packer.specs.Layout.{record_at, numbers_place, packed_length, lead_of};

use form::Form;
use house::bytes::{eight, mark_number, put_four, put_head};
use house::sizes;
use packed::{
    BEFORE_END, LEAD_BYTES, PACKED_KIND, PACKED_MARK, entry_at, entry_bytes, first_place, flag,
    rest_numbers, start_place,
};
use text::put_bytes;

// ---- where things stand in the file

// The record of curve i.
fn record_at(form: Form, n: usize, i: usize) -> usize
    requires { record_at form n i < 2 ^ 64 }
    ensures { result ≡ record_at form n i }
{
    let step = sizes::HEAD_BYTES + sizes::body_bytes(form, sizes::field_for(n));
    sizes::MARKS_AT + sizes::MARK_BYTES * n + step * i
}

// The numbers of curve i.
fn numbers_at(form: Form, n: usize, i: usize) -> usize
    requires { numbers_place form n i < 2 ^ 64 }
    ensures { result ≡ numbers_place form n i }
{
    let beside = sizes::beside_bytes(form, sizes::field_for(n));
    record_at(form, n, i) + (sizes::HEAD_BYTES + beside)
}

// Its numbers behind the start.
fn rest_at(form: Form, n: usize, i: usize) -> usize
    requires { numbers_place form n i + mark_bytes < 2 ^ 64 }
    ensures { result ≡ numbers_place form n i + mark_bytes }
{
    numbers_at(form, n, i) + sizes::MARK_BYTES
}

// The number of the first mark of curve i; behind the last curve, that of the last mark.
fn mark_at(file: &[u8], form: Form, n: usize, k: usize, i: usize) -> u64
    requires { (record_at form n k ≤ length file.now) × ((k < n) × (i ≤ k)) }
    ensures { result ≡ mark_at (file_at file.now form n k) i }
{
    if i == k {
        return (n - 1) as u64;
    }
    mark_number(
        file,
        record_at(form, n, i) + sizes::HEAD_BYTES,
        sizes::field_for(n),
    )
}

// ---- curves that meet

// Whether two numbers have the same bits: minus zero is not zero, and a NaN is like itself.
fn same_bits(x: u64, y: u64) -> bool
    ensures { result ≡ eqb x y }
{
    x == y
}

// Whether the points at p and at q have the same bits.
fn same_point(file: &[u8], p: usize, q: usize) -> bool
    requires { (p + mark_bytes ≤ length file.now) × (q + mark_bytes ≤ length file.now) }
    ensures { result ≡ same (words mark_numbers (drop p file.now)) (words mark_numbers (drop q file.now)) }
{
    if same_bits(eight(file, p), eight(file, q)) {
        let y = sizes::NUMBER_FIELD;
        return same_bits(eight(file, p + y), eight(file, q + y));
    }
    false
}

// Whether each curve ends where the next one starts.
pub fn curves_meet(file: &[u8], form: Form, n: usize, k: usize) -> bool
    requires { (record_at form n k ≤ length file.now) × (0 < k) }
    ensures { result ≡ meets (file_at file.now form n k) }
{
    for i in 0..k - 1 {
        let end = numbers_at(form, n, i) + sizes::NUMBER_FIELD * BEFORE_END;
        if !same_point(file, end, numbers_at(form, n, i + 1)) {
            return false;
        }
    }
    true
}

// ---- the packed file, where it is known to fit

// The m numbers of the file from `from` on, as they are, at `at`: answers where they end.
fn put_numbers(file: &[u8], from: usize, m: usize, out: &mut [u8], at: usize) -> usize
    requires { (from + number_field * m ≤ length file.now) × (at + number_field * m ≤ length out.old) }
    ensures { (result ≡ at + number_field * m) × (out.new ≡ sets out.old at (les (words m (drop from file.now)))) }
{
    let to = from + sizes::NUMBER_FIELD * m;
    put_bytes(out, at, &file[from..to])
}

// The worst mark of curve i, where it is kept, at `at`.
fn put_worst(file: &[u8], form: Form, n: usize, i: usize, out: &mut [u8], at: usize)
    requires { (record_at form n (i + 1) ≤ length file.now) × (at + packed_mark * worst_marks form ≤ length out.old) }
    ensures { out.new ≡ sets out.old at (row_bytes packed_mark (row (mark_field (field_for n)) (worst_marks form) (drop (record_at form n i + (head_bytes + mark_field (field_for n))) file.now))) }
{
    let Form::Nine = form else {
        return;
    };
    let field = sizes::field_for(n);
    let place = record_at(form, n, i) + (sizes::HEAD_BYTES + sizes::mark_field(field));
    put_four(out, at, mark_number(file, place, field));
}

// Curve i without its start, at `at`.
fn put_entry(file: &[u8], form: Form, n: usize, k: usize, i: usize, out: &mut [u8], at: usize)
    requires { (record_at form n k ≤ length file.now) × ((k < n) × ((i < k) × (at + entry_bytes form ≤ length out.old))) }
    ensures { out.new ≡ sets out.old at (entry_of (file_at file.now form n k) i) }
{
    put_four(out, at, mark_at(file, form, n, k, i + 1));
    let from = rest_at(form, n, i);
    let end = put_numbers(file, from, rest_numbers(form), out, at + PACKED_MARK);
    put_worst(file, form, n, i, out, end);
}

// All curves without their starts, at `at`.
fn put_entries(file: &[u8], form: Form, n: usize, k: usize, out: &mut [u8], at: usize)
    requires { (record_at form n k ≤ length file.now) × ((k < n) × (at + entry_bytes form * k ≤ length out.old)) }
    ensures { out.new ≡ sets out.old at (each k (entry_of (file_at file.now form n k))) }
{
    let step = entry_bytes(form);
    for i in 0..k {
        put_entry(file, form, n, k, i, out, at + step * i);
    }
}

// What the record states as its length: the kind, and the bytes of its body.
pub fn packed_length(form: Form, k: usize) -> usize
    requires { packed_length form k < 2 ^ 64 }
    ensures { result ≡ packed_length form k }
{
    sizes::KIND_FIELD + (LEAD_BYTES + entry_bytes(form) * k)
}

// The leading byte.
fn put_flag(out: &mut [u8], at: usize, form: Form)
    requires { at < length out.old }
    ensures { out.new ≡ sets out.old at (le flag_field (flag form)) }
{
    out[at] = flag(form) as u8;
}

// The record up to its first curve.
fn put_lead(file: &[u8], form: Form, n: usize, k: usize, out: &mut [u8])
    requires { (record_at form n k ≤ length file.now) × ((k < n) × ((0 < k) × (entry_at form n k ≤ length out.old))) }
    ensures { out.new ≡ sets out.old (marks_end n) (lead_of (file_at file.now form n k) k) }
{
    let end = sizes::MARKS_AT + sizes::MARK_BYTES * n;
    put_head(out, end, packed_length(form, k) as u64, PACKED_KIND);
    put_flag(out, end + sizes::HEAD_BYTES, form);
    put_four(out, first_place(form, n, 0), mark_at(file, form, n, k, 0));
    let from = numbers_at(form, n, 0);
    put_numbers(
        file,
        from,
        sizes::MARK_NUMBERS,
        out,
        start_place(form, n, 0),
    );
}

// The whole file, in the first bytes, which have room for it.
pub fn put_packed(file: &[u8], form: Form, n: usize, k: usize, out: &mut [u8])
    requires { (layout_of file.now ≡ Some (record { form = form; marks = n; curves = k })) × ((0 < k) × (packed_size form n k ≤ length out.old)) }
    ensures { out.new ≡ written (packed_bytes (file_at file.now form n k)) out.old }
{
    let end = sizes::MARKS_AT + sizes::MARK_BYTES * n;
    put_bytes(out, 0, &file[..end]);
    put_lead(file, form, n, k, out);
    put_entries(file, form, n, k, out, entry_at(form, n, 0));
    put_bytes(out, entry_at(form, n, k), &file[record_at(form, n, k)..]);
}
