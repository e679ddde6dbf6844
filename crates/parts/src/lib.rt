// With which tangents a part of an outline starts and ends, by the number of the mark alone: so whoever keeps parts need keep no tangent.
#![tactic(auto)]

ghost use Rattle.std.specs.Prelude.{◌≡◌, ◌+◌, ◌*◌, ◌≤◌, ◌<◌, length};
ghost use Rattle.limits.specs.Limits.{most_numbered};
ghost use Rattle.float.specs.Refusal.{answer};
ghost use Rattle.parts.specs.Headings.{outline_in, marks_in, outer, own_start, own_end, start_in, end_in};

use float::refusal::Refusal;
use plane::Point;
use ring::Outline;
use tangents::{Cutting, Ways};

// The tangents at the ends of a run: given ones, of all marks as one part, or those of the blocks that an outline is cut into.
#[derive(Clone, Copy)]
pub enum Heading {
    Given(Ways),
    By(Cutting),
}

// Whether the run is over an open outline or a closed one.
pub fn outline_in(heading: Heading) -> Outline
    ensures { result ≡ outline_in heading }
{
    match heading {
        Heading::Given(_) => Outline::Open,
        Heading::By(cutting) => tangents::outline_of(cutting),
    }
}

// Whether mark `at` of n is an end of a block of `size` marks, and no cut.
fn is_outer(n: usize, size: usize, at: usize) -> bool
    requires { (0 < size) × (at < n) }
    ensures { result ≡ outer n size at }
{
    (at % size == 0) | (at + 1 == n)
}

// The tangent with which a block starts at mark `at`.
fn own_start(heading: Heading, marks: &[f64], n: usize, at: usize) -> Result<Point, Refusal>
    requires marks_len { length (marks_in heading marks.now) ≡ 2 * n }
    requires at_bound { (at + 2 ≤ n) × (n ≤ most_numbered) }
    ensures { answer result ≡ own_start heading (marks_in heading marks.now) n at }
{
    match heading {
        Heading::Given(ways) => Ok(ways.start),
        Heading::By(cutting) => tangents::start_of(cutting, marks, n, at),
    }
}

// The tangent with which a block ends at mark `at`.
fn own_end(heading: Heading, marks: &[f64], n: usize, at: usize) -> Result<Point, Refusal>
    requires marks_len { length (marks_in heading marks.now) ≡ 2 * n }
    requires at_nonzero { (0 < at) × (at < n) × (n ≤ most_numbered) }
    ensures { answer result ≡ own_end heading (marks_in heading marks.now) n at }
{
    match heading {
        Heading::Given(ways) => Ok(ways.end),
        Heading::By(cutting) => tangents::end_of(cutting, marks, n, at + 1),
    }
}

// The tangent with which a part starts at mark `at`: the block's, or at a cut the shared one, turned about.
pub fn start_in(
    heading: Heading,
    marks: &[f64],
    n: usize,
    size: usize,
    at: usize,
) -> Result<Point, Refusal>
    requires size_nonzero { (0 < size) × (length (marks_in heading marks.now) ≡ 2 * n) }
    requires at_bound { (at + 2 ≤ n) × (n ≤ most_numbered) }
    ensures { answer result ≡ start_in heading (marks_in heading marks.now) n size at }
{
    if is_outer(n, size, at) {
        return own_start(heading, marks, n, at);
    }
    let ways = tangents::ways_round(marks, at)?;
    Ok(ways.start)
}

// The tangent with which a part ends at mark `at`: the block's, or at a cut the shared one.
pub fn end_in(
    heading: Heading,
    marks: &[f64],
    n: usize,
    size: usize,
    at: usize,
) -> Result<Point, Refusal>
    requires size_nonzero { (0 < size) × (length (marks_in heading marks.now) ≡ 2 * n) }
    requires at_nonzero { (0 < at) × (at < n) × (n ≤ most_numbered) }
    ensures { answer result ≡ end_in heading (marks_in heading marks.now) n size at }
{
    if is_outer(n, size, at) {
        return own_end(heading, marks, n, at);
    }
    let ways = tangents::ways_round(marks, at)?;
    Ok(ways.end)
}
