// The second engine: it never calls itself. Of the parts that are still open it keeps the numbers of their last marks in a lent slice, the next one last, and
// works them off from left to right: each starts where the one before it has ended, and tangents are worked out again from the marks about its ends.
#![tactic(auto)]

ghost use Rattle.std.specs.Prelude.{◌≡◌, ◌++◌, ◌+◌, ◌-◌, ◌*◌, ◌≤◌, ◌<◌, length, take, drop, set};
ghost use Rattle.float.specs.Slices.{written};
ghost use Rattle.limits.specs.Limits.{most_numbered};
ghost use Rattle.marks.specs.Marks.{count};
ghost use Rattle.form.specs.Form.{record_numbers};
ghost use Rattle.ring.specs.Ring.{whole, Even};
ghost use Rattle.ring.specs.declared.Outline.TheVariants as outline;
ghost use Rattle.part.specs.Part.{part_of};
ghost use Rattle.part.specs.Answers.{Did};
ghost use Rattle.cut.specs.Run.{flat};
ghost use Rattle.cut.specs.Lent.{Left, Ready};
ghost use Rattle.parts.specs.Headings.{outline_in, marks_in, start_in, end_in};
ghost use Rattle.waiting.specs.Waiting.{part_at, part_in, waits, run_in};
ghost use Rattle.waiting.specs.Lent.{Meeting, Outlined, Within, Room, Blocks};

use float::refusal::Refusal;
use form::RECORD_NUMBERS;
use part::{Solved, Unfitted};
use parts::Heading;
use plane::Point;
use ring::Outline;

// The curve number `made`, of a part whose first mark has the number `first`.
fn put_curve(
    curves: &mut [f64],
    firsts: &mut [u32],
    worsts: &mut [u32],
    made: usize,
    first: usize,
    s: Solved,
)
    requires record_numbers_in_bounds { (record_numbers * made + record_numbers ≤ length curves.old) × ((made < length firsts.old) × (made < length worsts.old)) }
    requires at_bound { first + s.far.at < most_numbered }
    ensures { (curves.new ≡ take (record_numbers * made) curves.old ++ written (flat s.curve s.far.err) (drop (record_numbers * made) curves.old)) × ((firsts.new ≡ set firsts.old made first) × (worsts.new ≡ set worsts.old made (first + s.far.at))) }
{
    let behind = RECORD_NUMBERS * made;
    let worst = first + s.far.at;
    cut::put_record(&mut curves[behind..], s.curve, s.far.err);
    firsts[made] = first as u32;
    worsts[made] = worst as u32;
}

// Where the engine starts: the end of the first part, and how many ends wait. The ends stand in a slice that the caller lends, and no list grows: all memory is fixed.
#[derive(Clone, Copy)]
struct Waiting {
    to: usize,
    depth: usize,
}

// The ends of all blocks wait, but for the first one's, with which the engine starts. Blocks of `size` marks begin at its multiples.
fn wait_blocks(last: usize, size: usize, open: &mut [u32]) -> Waiting
    requires { (0 < last) × ((0 < size) × ((last < most_numbered) × (last ≤ length «open».old))) }
    ensures { Blocks size last 0 result.to (waits result.depth «open».new) }
{
    let mut stop = last;
    let mut depth = 0;
    let mut from = (last - 1) / size * size;
    // A while: it falls by a block at a time.
    while 0 < from {
        open[depth] = stop as u32;
        depth += 1;
        stop = from;
        from -= size;
    }
    Waiting { to: stop, depth }
}

// An outline, or the part of one, whose parts are tried: in blocks of `size` marks, at a tolerance. The marks of a closed outline's last part stand in `round`,
// which begins with mark `tail` and has mark 0 behind the last.
#[derive(Clone, Copy)]
struct Course<'a> {
    heading: Heading,
    marks: &'a [f64],
    round: &'a [f64],
    tail: usize,
    size: usize,
    tolerance: f64,
}

impl Course<'_> {
    // What the marks from `from` to `to` come to as one part.
    fn try_marks(
        &self,
        from: usize,
        to: usize,
        start: Point,
        end: Point,
        params: &mut [f64],
    ) -> Result<Solved, Unfitted>
        requires even { Even self.now.marks.now × ((from < to) × (to ≤ count self.now.marks.now)) }
        requires to_value { to + 1 ≡ from + length params.old }
        requires tail_le_from { to ≡ count self.now.marks.now → (self.now.tail ≤ from) × (self.now.round.now ≡ drop (2 * self.now.tail) (whole outline.Closed self.now.marks.now)) }
        ensures { Did (part_of (part_at (whole outline.Closed self.now.marks.now) from to) start end self.now.tolerance) result params.new }
    {
        let head = 2 * from;
        let past = 2 * to + 2;
        if past <= self.marks.len() {
            return part::try_part(&self.marks[head..past], start, end, self.tolerance, params);
        }
        let behind = head - 2 * self.tail;
        part::try_part(&self.round[behind..], start, end, self.tolerance, params)
    }

    // The same with the tangents of the two end marks, of n marks.
    fn try_between(
        &self,
        n: usize,
        from: usize,
        to: usize,
        params: &mut [f64],
    ) -> Result<Solved, Unfitted>
        requires outlined { let l = self.now in Outlined l.heading l.marks.now l.round.now l.tail n l.size l.tolerance }
        requires within { Within n self.now.size from to (length params.old) }
        ensures { let l = self.now in Did (part_in (start_in l.heading (marks_in l.heading l.marks.now) n l.size) (end_in l.heading (marks_in l.heading l.marks.now) n l.size) (marks_in l.heading l.marks.now) l.tolerance from to) result params.new }
    {
        let start = parts::start_in(self.heading, self.marks, n, self.size, from)?;
        let end = parts::end_in(self.heading, self.marks, n, self.size, to)?;
        self.try_marks(from, to, start, end, params)
    }

    // The curves of all open parts, from left to right. A part that is over the tolerance is cut: its own end waits, and its left side is next.
    fn work_off(
        &self,
        curves: &mut [f64],
        firsts: &mut [u32],
        worsts: &mut [u32],
        params: &mut [f64],
        open: &mut [u32],
    ) -> Result<usize, Refusal>
        requires outlined { let l = self.now in Outlined l.heading l.marks.now l.round.now l.tail (length params.old) l.size l.tolerance }
        requires room { Room (length params.old) (length curves.old) (length firsts.old) (length worsts.old) (length «open».old) }
        ensures { let l = self.now in Left (run_in l.heading (marks_in l.heading l.marks.now) l.size l.tolerance) result curves.old curves.new firsts.old firsts.new worsts.old worsts.new params.new }
    {
        let n = params.len();
        let first = wait_blocks(n - 1, self.size, open);
        let mut from = 0;
        let mut to = first.to;
        let mut depth = first.depth;
        let mut made = 0;
        // A loop: a part that is cut stays open.
        loop {
            let past = to + 1;
            match self.try_between(n, from, to, &mut params[from..past]) {
                Ok(s) => {
                    put_curve(curves, firsts, worsts, made, from, s);
                    made += 1;
                    if depth == 0 {
                        return Ok(made);
                    }
                    depth -= 1;
                    from = to;
                    to = open[depth] as usize;
                }
                Err(Unfitted::Cut(at)) => {
                    let cut = from + at;
                    open[depth] = to as u32;
                    depth += 1;
                    to = cut;
                }
                Err(Unfitted::Refused(q)) => return Err(q),
            }
        }
    }
}

// The curves of a closed outline. Its last marks, with mark 0 behind them, stand nowhere together, so they are laid out in an array of their own.
fn fit_round(
    heading: Heading,
    marks: &[f64],
    size: usize,
    tolerance: f64,
    curves: &mut [f64],
    firsts: &mut [u32],
    worsts: &mut [u32],
    params: &mut [f64],
    open: &mut [u32],
) -> Result<usize, Refusal>
    requires heading_value { (outline_in heading ≡ outline.Closed) × ((0 < size) × ((size ≤ 200) × Meeting heading (length params.old) size)) }
    requires ready { Ready (marks_in heading marks.now) 0 tolerance curves.old firsts.old worsts.old params.old × (length params.old ≤ length «open».old) }
    ensures { Left (run_in heading (marks_in heading marks.now) size tolerance) result curves.old curves.new firsts.old firsts.new worsts.old worsts.new params.new }
{
    let n = params.len();
    let tail = n.saturating_sub(size + 1);
    let mut round = blocks::block_room();
    ring::lay_round(marks, tail, &mut round);
    let many = 2 * (n - tail);
    let course = Course {
        heading,
        marks,
        round: &round[..many],
        tail,
        size,
        tolerance,
    };
    course.work_off(curves, firsts, worsts, params, open)
}

// The curves of a run, by blocks of `size` marks; with given tangents all marks are one block.
pub fn fit_waiting(
    heading: Heading,
    marks: &[f64],
    size: usize,
    tolerance: f64,
    curves: &mut [f64],
    firsts: &mut [u32],
    worsts: &mut [u32],
    params: &mut [f64],
    open: &mut [u32],
) -> Result<usize, Refusal>
    requires size_nonzero { (0 < size) × (Meeting heading (length params.old) size × (outline_in heading ≡ outline.Closed → size ≤ 200)) }
    requires ready { Ready (marks_in heading marks.now) 0 tolerance curves.old firsts.old worsts.old params.old × (length params.old ≤ length «open».old) }
    ensures { Left (run_in heading (marks_in heading marks.now) size tolerance) result curves.old curves.new firsts.old firsts.new worsts.old worsts.new params.new }
{
    match parts::outline_in(heading) {
        Outline::Closed => fit_round(
            heading, marks, size, tolerance, curves, firsts, worsts, params, open,
        ),
        // An open outline's marks stand together, and no others are asked for.
        Outline::Open => {
            let course = Course {
                heading,
                marks,
                round: marks,
                tail: 0,
                size,
                tolerance,
            };
            course.work_off(curves, firsts, worsts, params, open)
        }
    }
}
