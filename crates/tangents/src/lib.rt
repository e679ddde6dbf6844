// How an outline is cut into blocks, and the tangents with which a part starts and ends: at a cut inside a part, and at the two ends of a block.
#![tactic(auto)]

ghost use Rattle.std.specs.Prelude.{◌≡◌, ◌+◌, ◌*◌, ◌≤◌, length};
ghost use Rattle.float.specs.Answer.{outcome};
ghost use Rattle.float.specs.Refusal.{answer};
ghost use Rattle.limits.specs.Limits.{most_numbered};
ghost use Rattle.ring.specs.Ring.{whole};
ghost use Rattle.ring.specs.declared.Outline.TheVariants as outline;
ghost use Rattle.joints.specs.Joints.{Inner};
ghost use Rattle.tangents.specs.Ways.{tangent_at, ways_at, over, outline_of, marks_of, start_at, end_at, meets, start_of, end_of, ways_of};

use float::refusal::Refusal;
use plane::Point;
use ring::Outline;

// Two tangents: at a cut that at the left side's end, and that turned about at the right side's start; of a block those at its own end and start.
#[derive(Clone, Copy)]
pub struct Ways {
    pub end: Point,
    pub start: Point,
}

// The tangent at mark `at`, from its two neighbours; behind the last mark stands mark 0.
fn tangent_at(marks: &[f64], at: usize) -> Result<Point, Refusal>
    requires { Inner outline.Closed marks.now at }
    ensures { answer result ≡ outcome (tangent_at (whole outline.Closed marks.now) at) }
{
    let joint = joints::joint_at(marks, at);
    marks::tangent_between(joint.before, joint.at, joint.after)
}

// The tangents at a cut at mark `at`, where mark 0 stands behind the last.
pub fn ways_round(marks: &[f64], at: usize) -> Result<Ways, Refusal>
    requires { Inner outline.Closed marks.now at }
    ensures { answer result ≡ outcome (ways_at (whole outline.Closed marks.now) at) }
{
    let end = tangent_at(marks, at)?;
    let start = joints::opposite(end)?;
    Ok(Ways { end, start })
}

// The same where all three marks are among those given.
pub fn ways_at(marks: &[f64], at: usize) -> Result<Ways, Refusal>
    requires { Inner outline.Open marks.now at }
    ensures { answer result ≡ outcome (ways_at marks.now at) }
{
    ways_round(marks, at)
}

// How an outline is cut into blocks.
#[derive(Clone, Copy)]
pub enum Cutting {
    Source,
    Loop,
    Joined,
    Ring,
}

// How many marks of the next block a block takes in.
#[tactic(auto, unfolding(crate::specs::Ways::over))]
pub fn shared(cutting: Cutting) -> usize
    ensures { result ≡ over cutting }
{
    match cutting {
        Cutting::Source => 0,
        Cutting::Loop => 0,
        Cutting::Joined => 1,
        Cutting::Ring => 1,
    }
}

// Whether the outline that is cut is open or closed.
pub fn outline_of(cutting: Cutting) -> Outline
    ensures { result ≡ outline_of cutting }
{
    match cutting {
        Cutting::Source => Outline::Open,
        Cutting::Loop => Outline::Open,
        Cutting::Joined => Outline::Open,
        Cutting::Ring => Outline::Closed,
    }
}

// The first of the two marks that the start tangent of a block from mark `from` is taken from, where it meets none before it.
#[tactic(auto, unfolding(crate::specs::Ways::start_at))]
fn start_at(cutting: Cutting, n: usize, from: usize) -> usize
    requires { 2 ≤ n }
    ensures { result ≡ start_at cutting n from }
{
    match cutting {
        Cutting::Source => from,
        Cutting::Joined => from,
        Cutting::Ring => from,
        Cutting::Loop => {
            if from <= 1 {
                return n - 2;
            }
            from - 2
        }
    }
}

// One past the second of the two marks that the end tangent of a block up to mark `to`, which is not in it, is taken from, where it meets none after it.
#[tactic(auto, unfolding(crate::specs::Ways::end_at))]
fn end_at(cutting: Cutting, n: usize, to: usize) -> usize
    requires to_le_n { to ≤ n }
    requires n_le_most_numbered { n ≤ most_numbered }
    ensures { result ≡ end_at cutting n to }
{
    match cutting {
        Cutting::Joined => to,
        Cutting::Ring => to,
        Cutting::Source => {
            let past = to + 1;
            if past < n {
                return past;
            }
            to
        }
        Cutting::Loop => {
            if to + 1 < n {
                return to + 2;
            }
            2
        }
    }
}

// Whether a block meets another: the one before it, if mark 0 lies before its first; the one after it, if its marks end before those of the outline.
#[tactic(auto, unfolding(crate::specs::Ways::meets))]
fn meets(cutting: Cutting, a: usize, b: usize) -> bool
    ensures { result ≡ meets cutting a b }
{
    0 < shared(cutting) && a < b
}

// The tangent at the start of a block from mark `from`, where n marks are cut into blocks.
pub fn start_of(cutting: Cutting, marks: &[f64], n: usize, from: usize) -> Result<Point, Refusal>
    requires marks_len { length (marks_of cutting marks.now) ≡ 2 * n }
    requires from_bound { (from + 2 ≤ n) × (n ≤ most_numbered) }
    ensures { answer result ≡ outcome (start_of cutting (marks_of cutting marks.now) n from) }
{
    if meets(cutting, 0, from) {
        return joints::right_start(joints::joint_at(marks, from));
    }
    match outline_of(cutting) {
        Outline::Closed => joints::right_start(joints::seam_of(marks)),
        Outline::Open => {
            let head = 2 * start_at(cutting, n, from);
            marks::start_tangent(&marks[head..])
        }
    }
}

// The tangent at the end of a block up to mark `to`, which is not in it.
pub fn end_of(cutting: Cutting, marks: &[f64], n: usize, to: usize) -> Result<Point, Refusal>
    requires marks_len { length (marks_of cutting marks.now) ≡ 2 * n }
    requires le_to { (2 ≤ to) × (to ≤ n) × (n ≤ most_numbered) }
    ensures { answer result ≡ outcome (end_of cutting (marks_of cutting marks.now) n to) }
{
    if meets(cutting, to, n) {
        return joints::left_end(joints::joint_at(marks, to - 1));
    }
    match outline_of(cutting) {
        Outline::Closed => joints::left_end(joints::seam_of(marks)),
        Outline::Open => {
            let tail = 2 * end_at(cutting, n, to);
            marks::end_tangent(&marks[..tail])
        }
    }
}

// The tangents at the ends of a block.
pub fn ways_of(
    cutting: Cutting,
    marks: &[f64],
    n: usize,
    from: usize,
    to: usize,
) -> Result<Ways, Refusal>
    requires marks_len { length (marks_of cutting marks.now) ≡ 2 * n }
    requires from_bound { (from + 2 ≤ to) × (to ≤ n) × (n ≤ most_numbered) }
    ensures { answer result ≡ outcome (ways_of cutting (marks_of cutting marks.now) n from to) }
{
    let start = start_of(cutting, marks, n, from)?;
    let end = end_of(cutting, marks, n, to)?;
    Ok(Ways { end, start })
}
