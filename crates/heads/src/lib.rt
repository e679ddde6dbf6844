// How a house file is laid out. Three things settle where everything stands: the length of kind 2 gives the marks, and they the bytes of a mark number; the kind
// of the record behind them gives how curves are stored, and the length of the whole how many there are. So the heads are tested at fixed places.
#![tactic(auto)]

ghost use Rattle.std.specs.Prelude.{◌≡◌, ◌+◌, ◌*◌, ◌^◌, ◌<◌, ◌≤◌, length, drop};
ghost use Rattle.house.specs.Limits.{kind_field, number_field, head_bytes, mark_bytes, marks_at};
ghost use Rattle.house.specs.Layout.{head_at, starts_with, records_lead, ends_with};
ghost use Rattle.house.specs.Held.{params_at};
ghost use Rattle.heads.specs.Layout.{layout_of};

use form::Form;
use house::bytes::{four, two};
use house::sizes;

// How a file stores its curves, and how many marks and curves it has.
#[derive(Clone, Copy)]
pub struct Layout {
    pub form: Form,
    pub marks: usize,
    pub curves: usize,
}

// Whether the record at `at` has this length and this kind.
pub fn has_head(b: &[u8], at: usize, size: u64, kind: u64) -> bool
    requires { at + head_bytes ≤ length b.now }
    ensures { result ≡ head_at b.now at size kind }
{
    if four(b, at) != size {
        return false;
    }
    two(b, at + sizes::LENGTH_FIELD) == kind
}

// Whether kinds 1 and 2 begin as they should for n marks.
pub fn starts_with(b: &[u8], n: usize) -> bool
    requires { (marks_at ≤ length b.now) × (kind_field + mark_bytes * n < 2 ^ 64) }
    ensures { result ≡ starts_with b.now n }
{
    if has_head(b, 0, sizes::TOLERANCE_LENGTH, sizes::TOLERANCE_KIND) {
        let size = sizes::KIND_FIELD + sizes::MARK_BYTES * n;
        return has_head(b, sizes::MARKS_HEAD, size as u64, sizes::MARKS_KIND);
    }
    false
}

// Whether k records of this kind stand from `at` on, with bodies of so many bytes.
fn records_lead(b: &[u8], at: usize, body: usize, kind: u64, k: usize) -> bool
    requires { (at + (head_bytes + body) * k ≤ length b.now) × (head_bytes + body < 2 ^ 64) }
    ensures { result ≡ records_lead body kind k (drop at b.now) }
{
    let step = sizes::HEAD_BYTES + body;
    let size = (sizes::KIND_FIELD + body) as u64;
    for i in 0..k {
        let head = at + step * i;
        if !has_head(b, head, size, kind) {
            return false;
        }
    }
    true
}

// Whether k curves, above none and fewer than marks, and n parameters follow the marks up to the end.
fn ends_with(b: &[u8], form: Form, n: usize, k: usize) -> bool
    requires { params_at form n k + number_field * n ≤ length b.now }
    ensures { result ≡ ends_with b.now form n k }
{
    let field = sizes::field_for(n);
    let body = sizes::body_bytes(form, field);
    let end = sizes::MARKS_AT + sizes::MARK_BYTES * n;
    let last = end + (sizes::HEAD_BYTES + body) * k;
    if b.len() != last + sizes::HEAD_BYTES + sizes::NUMBER_FIELD * n {
        return false;
    }
    if k == 0 {
        return false;
    }
    if n <= k {
        return false;
    }
    if records_lead(b, end, body, sizes::curve_kind(form, field), k) {
        let size = sizes::KIND_FIELD + sizes::NUMBER_FIELD * n;
        return has_head(b, last, size as u64, sizes::PARAMS_KIND);
    }
    false
}

// How the bytes are laid out, if they are a file.
pub fn find_layout(b: &[u8]) -> Option<Layout>
    ensures { result ≡ layout_of b.now }
{
    let len = b.len();
    if len < sizes::MARKS_AT {
        return None;
    }
    let n = four(b, sizes::MARKS_HEAD) as usize / sizes::MARK_BYTES;
    if starts_with(b, n) {
        let end = sizes::MARKS_AT + sizes::MARK_BYTES * n;
        if len == end {
            return Some(Layout {
                form: Form::Eight,
                marks: n,
                curves: 0,
            });
        }
        let least = end + sizes::HEAD_BYTES + sizes::NUMBER_FIELD * n;
        if len < least {
            return None;
        }
        let field = sizes::field_for(n);
        let form = sizes::form_of(field, two(b, end + sizes::LENGTH_FIELD));
        let k = (len - least) / (sizes::HEAD_BYTES + sizes::body_bytes(form, field));
        if ends_with(b, form, n, k) {
            return Some(Layout {
                form,
                marks: n,
                curves: k,
            });
        }
        return None;
    }
    None
}
