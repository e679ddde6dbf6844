// How a packed file is laid out, and a file in either form. As in a file of old kinds, the marks, how curves are stored and the length of the whole settle where everything stands; here mark numbers are tested too, since they must fit
// the field that they would have unpacked.
#![tactic(auto)]

ghost use Rattle.std.specs.Prelude.{◌≡◌, ◌&&◌, cond, eqb, ◌+◌, ◌-◌, ◌*◌, ◌<◌, ◌≤◌, length, drop};
ghost use Rattle.form.specs.declared.Form.TheVariants.{Eight, Nine};
ghost use Rattle.house.specs.Limits.{field_for, mark_field, number_field, head_bytes};
ghost use Rattle.house.specs.Bytes.{num, row, all_fit};
ghost use Rattle.packed.specs.Each.{each};
ghost use Rattle.packed.specs.Packed.{flag};
ghost use Rattle.packed.specs.Unpacked.{entry_at, firsts_in, worsts_in};
ghost use Rattle.packed.specs.Layout.{leads_packed, marks_packed, ends_packed};
ghost use Rattle.packed_heads.specs.Layout.{packed_layout_of, held_layout_of};

use form::{Form, worsts_for};
use heads::{Layout, find_layout, has_head, starts_with};
use house::bytes::{four, wide};
use house::sizes;
use house::sizes::Field;
use packed::{
    LEAD_BYTES, PACKED_KIND, PACKED_MARK, entry_at, entry_bytes, first_place, flag, rest_numbers,
};

// How the place where two curves meet is stored: in both curves, or once.
#[derive(Clone, Copy)]
pub enum Joints {
    Twice,
    Once,
}

// How a file in either form stores its joints, and how it is laid out.
#[derive(Clone, Copy)]
pub struct Held {
    pub joints: Joints,
    pub layout: Layout,
}

// Whether the leading byte is the one that goes with the form.
fn has_flag(b: &[u8], at: usize, form: Form) -> bool
    requires { at < length b.now }
    ensures { result ≡ eqb (num 1 b.now at) (flag form) }
{
    wide(b[at]) == flag(form)
}

// Whether the number of a mark is the last of n.
fn is_last(b: &[u8], at: usize, n: usize) -> bool
    requires { (at + 4 ≤ length b.now) × (0 < n) }
    ensures { result ≡ eqb (num 4 b.now at) (n - 1) }
{
    let last = (n - 1) as u64;
    four(b, at) == last
}

// Whether the mark numbers at `at` and every `step` bytes behind it, k in all, fit the field.
fn all_fit(b: &[u8], at: usize, step: usize, k: usize, field: Field) -> bool
    requires { (at + step * k + 4 ≤ length b.now + step) × (4 ≤ step) }
    ensures { result ≡ all_fit (mark_field field) (each k (λ i. row 4 1 (drop (at + step * i) b.now))) }
{
    for i in 0..k {
        if !sizes::mark_fits(field, four(b, at + step * i)) {
            return false;
        }
    }
    true
}

// Whether kind 8 begins as it should for k curves behind n marks.
fn leads_packed(b: &[u8], form: Form, n: usize, k: usize) -> bool
    requires { entry_at form n k ≤ length b.now }
    ensures { result ≡ leads_packed b.now form n k }
{
    let end = sizes::MARKS_AT + sizes::MARK_BYTES * n;
    let size = sizes::KIND_FIELD + (LEAD_BYTES + entry_bytes(form) * k);
    if has_head(b, end, size as u64, PACKED_KIND) {
        return has_flag(b, end + sizes::HEAD_BYTES, form);
    }
    false
}

// Whether the mark numbers of k curves fit the field: that of the first curve, those that the curves but the last have as their next, and the worst marks.
fn numbers_fit(b: &[u8], form: Form, n: usize, k: usize) -> bool
    requires { (entry_at form n k ≤ length b.now) × (0 < k) }
    ensures { result ≡ all_fit (mark_field (field_for n)) (firsts_in b.now form n k) && all_fit (mark_field (field_for n)) (worsts_in b.now form n k) }
{
    let field = sizes::field_for(n);
    let step = entry_bytes(form);
    let first = first_place(form, n, 0);
    if all_fit(b, first, step, 1, field) {
        let at = entry_at(form, n, 0);
        if all_fit(b, at, step, k - 1, field) {
            let worst = at + PACKED_MARK + sizes::NUMBER_FIELD * rest_numbers(form);
            return all_fit(b, worst, step, worsts_for(form, k), field);
        }
    }
    false
}

// Whether the last mark number is that of the last mark, and the others fit.
fn marks_packed(b: &[u8], form: Form, n: usize, k: usize) -> bool
    requires { (entry_at form n k ≤ length b.now) × ((0 < k) × (0 < n)) }
    ensures { result ≡ marks_packed b.now form n k }
{
    if is_last(b, first_place(form, n, k), n) {
        return numbers_fit(b, form, n, k);
    }
    false
}

// Whether kind 8 with k curves, above none and fewer than marks, and n parameters follow the marks up to the end.
fn ends_packed(b: &[u8], form: Form, n: usize, k: usize) -> bool
    requires { entry_at form n k + head_bytes + number_field * n ≤ length b.now }
    ensures { result ≡ ends_packed b.now form n k }
{
    let last = entry_at(form, n, k);
    if b.len() != last + sizes::HEAD_BYTES + sizes::NUMBER_FIELD * n {
        return false;
    }
    if k == 0 {
        return false;
    }
    if n <= k {
        return false;
    }
    if leads_packed(b, form, n, k) {
        if marks_packed(b, form, n, k) {
            let size = sizes::KIND_FIELD + sizes::NUMBER_FIELD * n;
            return has_head(b, last, size as u64, sizes::PARAMS_KIND);
        }
    }
    false
}

// How the curves of a packed file are stored, by its leading byte.
fn form_at(b: &[u8], at: usize) -> Form
    requires { at < length b.now }
    ensures { result ≡ cond (eqb (num 1 b.now at) 1) Nine Eight }
{
    if has_flag(b, at, Form::Nine) {
        return Form::Nine;
    }
    Form::Eight
}

// How the bytes are laid out, if they are a packed file.
pub fn find_packed(b: &[u8]) -> Option<Layout>
    ensures { result ≡ packed_layout_of b.now }
{
    let len = b.len();
    if len < sizes::MARKS_AT {
        return None;
    }
    let n = four(b, sizes::MARKS_HEAD) as usize / sizes::MARK_BYTES;
    if starts_with(b, n) {
        let end = sizes::MARKS_AT + sizes::MARK_BYTES * n;
        if len == end {
            return Some(Layout {
                form: Form::Eight,
                marks: n,
                curves: 0,
            });
        }
        let least = end
            + sizes::HEAD_BYTES
            + LEAD_BYTES
            + sizes::HEAD_BYTES
            + sizes::NUMBER_FIELD * n;
        if len < least {
            return None;
        }
        let form = form_at(b, end + sizes::HEAD_BYTES);
        let k = (len - least) / entry_bytes(form);
        if ends_packed(b, form, n, k) {
            return Some(Layout {
                form,
                marks: n,
                curves: k,
            });
        }
        return None;
    }
    None
}

// How the bytes are laid out, if they are a file in either form.
#[tactic(auto, unfolding(crate::specs::Layout::held_layout_of))]
pub fn find_held(b: &[u8]) -> Option<Held>
    ensures { result ≡ held_layout_of b.now }
{
    if let Some(layout) = find_layout(b) {
        return Some(Held {
            joints: Joints::Twice,
            layout,
        });
    }
    let layout = find_packed(b)?;
    Some(Held {
        joints: Joints::Once,
        layout,
    })
}
