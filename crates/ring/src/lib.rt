// An outline is open, from its first mark to its last, or closed: then it comes back to its first mark, and mark 0 counts again behind the last.
#![tactic(auto)]

ghost use Rattle.std.specs.Prelude.{◌≡◌, ◌+◌, ◌-◌, ◌*◌, ◌≤◌, length, drop};
ghost use Rattle.float.specs.Slices.{written};
ghost use Rattle.marks.specs.Marks.{count, mark_at};
ghost use Rattle.ring.specs.Ring.{again, whole, Even};
ghost use Rattle.ring.specs.declared.Outline.TheVariants as outline;

use plane::Point;

// Open, or closed.
#[derive(Clone, Copy)]
pub enum Outline {
    Open,
    Closed,
}

// How many marks count again behind the last one.
pub fn again(outline: Outline) -> usize
    ensures { result ≡ again outline }
{
    match outline {
        Outline::Open => 0,
        Outline::Closed => 1,
    }
}

// Mark k, where the mark behind the last one is mark 0.
pub fn mark_round(marks: &[f64], k: usize) -> Point
    requires { Even marks.now × (k ≤ count marks.now) }
    ensures { result ≡ mark_at (whole outline.Closed marks.now) k }
{
    if k < marks.len() / 2 {
        return marks::mark_at(marks, k);
    }
    marks::mark_at(marks, 0)
}

// The numbers of one slice over the front of another.
fn copy(numbers: &[f64], out: &mut [f64])
    requires { length numbers.now ≤ length out.old }
    ensures { out.new ≡ written numbers.now out.old }
{
    out[..numbers.len()].copy_from_slice(numbers);
}

// The marks of a closed outline from mark `from` on, with mark 0 behind them, over the front of a slice.
pub fn lay_round(marks: &[f64], from: usize, out: &mut [f64])
    requires { Even marks.now × ((from ≤ count marks.now) × (2 * count marks.now + 2 - 2 * from ≤ length out.old)) }
    ensures { out.new ≡ written (drop (2 * from) (whole outline.Closed marks.now)) out.old }
{
    let head = 2 * from;
    let behind = marks.len() - head;
    copy(&marks[head..], out);
    copy(&marks[..2], &mut out[behind..]);
}
