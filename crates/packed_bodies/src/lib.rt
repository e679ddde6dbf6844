// What a packed file holds, copied. Nothing is copied before all heads are right.
#![tactic(auto)]

ghost use Rattle.std.specs.Prelude.{◌≡◌, ◌++◌, ◌+◌, ◌*◌, ◌≤◌, length, drop};
ghost use Rattle.float.specs.Slices.{written};
ghost use Rattle.form.specs.Form.{width, worsts_for};
ghost use Rattle.house.specs.Limits.{mark_numbers};
ghost use Rattle.house.specs.Bytes.{words};
ghost use Rattle.house.specs.Layout.{Copied};
ghost use Rattle.packed.specs.Packed.{rest_numbers, entry_bytes};
ghost use Rattle.packed.specs.Unpacked.{entry_at, start_place, rest_place, firsts_in, worsts_in, numbers_in, packed_at};
ghost use Rattle.packed_bodies.specs.Layout.{PackedRoom};

use form::{Form, width, worsts_for};
use house::bytes::{copy_words, four};
use house::sizes;

// The first marks of k curves, into the first places.
fn copy_firsts(b: &[u8], form: Form, n: usize, k: usize, firsts: &mut [u32])
    requires { (entry_at form n k ≤ length b.now) × (k ≤ length firsts.old) }
    ensures { firsts.new ≡ written (firsts_in b.now form n k) firsts.old }
{
    for i in 0..k {
        firsts[i] = four(b, packed::first_place(form, n, i)) as u32;
    }
}

// The worst marks of k curves, where they are kept, into the first places. (Not one function with `copy_firsts`: the places are worked out in another way, and what it would promise of a closure for them is longer than the loop.)
fn copy_worsts(b: &[u8], form: Form, n: usize, k: usize, worsts: &mut [u32])
    requires { (entry_at form n k ≤ length b.now) × (worsts_for form k ≤ length worsts.old) }
    ensures { worsts.new ≡ written (worsts_in b.now form n k) worsts.old }
{
    let kept = worsts_for(form, k);
    let behind = packed::PACKED_MARK + sizes::NUMBER_FIELD * packed::rest_numbers(form);
    for i in 0..kept {
        worsts[i] = four(b, packed::entry_at(form, n, i) + behind) as u32;
    }
}

// The numbers of curve i: its start, which stands before it, and the others.
fn copy_curve(b: &[u8], form: Form, n: usize, i: usize, out: &mut [u64])
    requires { (entry_at form n i + entry_bytes form ≤ length b.now) × (width form ≤ length out.old) }
    ensures { out.new ≡ written (words mark_numbers (drop (start_place form n i) b.now) ++ words (rest_numbers form) (drop (rest_place form n i) b.now)) out.old }
{
    copy_words(b, packed::start_place(form, n, i), sizes::MARK_NUMBERS, out);
    let at = packed::entry_at(form, n, i) + packed::PACKED_MARK;
    copy_words(
        b,
        at,
        packed::rest_numbers(form),
        &mut out[sizes::MARK_NUMBERS..],
    );
}

// The numbers of k curves, into the first places.
fn copy_numbers(b: &[u8], form: Form, n: usize, k: usize, curves: &mut [u64])
    requires { (entry_at form n k ≤ length b.now) × (width form * k ≤ length curves.old) }
    ensures { curves.new ≡ written (numbers_in b.now form n k) curves.old }
{
    let step = width(form);
    for i in 0..k {
        let j = step * i;
        copy_curve(b, form, n, i, &mut curves[j..]);
    }
}

// The numbers of a packed file of n marks and k curves, into the first places of the slices.
pub fn copy_packed(
    b: &[u8],
    form: Form,
    n: usize,
    k: usize,
    marks: &mut [u64],
    firsts: &mut [u32],
    worsts: &mut [u32],
    curves: &mut [u64],
    params: &mut [u64],
)
    requires { PackedRoom form n k b.now marks.old firsts.old worsts.old curves.old params.old }
    ensures { Copied (packed_at b.now form n k) marks.old firsts.old worsts.old curves.old params.old marks.new firsts.new worsts.new curves.new params.new }
{
    copy_words(b, sizes::MARKS_AT, sizes::MARK_NUMBERS * n, marks);
    copy_firsts(b, form, n, k, firsts);
    copy_worsts(b, form, n, k, worsts);
    copy_numbers(b, form, n, k, curves);
    let at = packed::entry_at(form, n, k) + sizes::HEAD_BYTES;
    copy_words(b, at, n, params);
}
