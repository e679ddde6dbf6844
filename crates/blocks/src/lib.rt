// Long outlines are cut into blocks, and each block is a fit of its own: as the Rust cuts them, for an outline and for a loop, or joined, where each
// block starts on the mark at which the last one ended, with the tangent of that mark; and joined all round, where the last one ends on mark 0.
#![tactic(auto)]

ghost use Rattle.std.specs.Prelude.{◌≡◌, ◌+◌, ◌*◌, ◌≤◌, length, drop};
ghost use Rattle.limits.specs.Limits.{most_numbered};
ghost use Rattle.marks.specs.Marks.{count};
ghost use Rattle.form.specs.Form.{record_numbers};
ghost use Rattle.ring.specs.Ring.{whole, Even};
ghost use Rattle.ring.specs.declared.Outline.TheVariants as outline;
ghost use Rattle.tangents.specs.Ways.{marks_of};
ghost use Rattle.cut.specs.Run.{run_of};
ghost use Rattle.gate.specs.Gate.{Usable};
ghost use Rattle.cut.specs.Lent.{Left, Ready};
ghost use Rattle.blocks.specs.Blocks.{block_at, block_of, blocks_of};

use float::refusal::Refusal;
use form::RECORD_NUMBERS;
use plane::Point;
use tangents::Cutting;

// Room for the marks of the largest block, 200 and the one that it shares. A function hides from its callers' proofs how the array is made.
pub fn block_room() -> [f64; 402]
    ensures { 402 ≡ length result }
{
    [0.0; 402]
}

// The curves of a closed outline's marks from `from` on, with mark 0 behind them: nowhere do these stand together, so they are laid out in an array of their own.
fn fit_round(
    marks: &[f64],
    from: usize,
    start: Point,
    end: Point,
    tolerance: f64,
    curves: &mut [f64],
    firsts: &mut [u32],
    worsts: &mut [u32],
    params: &mut [f64],
) -> Result<usize, Refusal>
    requires even { Even marks.now × ((from + length params.old ≡ 1 + count marks.now) × (length params.old ≤ 201)) }
    requires ready { Ready (drop (2 * from) (whole outline.Closed marks.now)) from tolerance curves.old firsts.old worsts.old params.old }
    ensures { Left (run_of (drop (2 * from) (whole outline.Closed marks.now)) from start end tolerance) result curves.old curves.new firsts.old firsts.new worsts.old worsts.new params.new }
{
    let mut round = block_room();
    ring::lay_round(marks, from, &mut round);
    let many = 2 * params.len();
    cut::fit_part(
        &round[..many],
        from,
        start,
        end,
        tolerance,
        curves,
        firsts,
        worsts,
        params,
    )
}

// The curves of the marks `from` up to `to`, which is not among them; behind the last mark stands mark 0.
fn fit_marks(
    marks: &[f64],
    from: usize,
    to: usize,
    start: Point,
    end: Point,
    tolerance: f64,
    curves: &mut [f64],
    firsts: &mut [u32],
    worsts: &mut [u32],
    params: &mut [f64],
) -> Result<usize, Refusal>
    requires even { Even marks.now × ((to ≤ 1 + count marks.now) × ((to ≡ from + length params.old) × (length params.old ≤ 201))) }
    requires ready { Ready (block_at (whole outline.Closed marks.now) from to) from tolerance curves.old firsts.old worsts.old params.old }
    ensures { Left (run_of (block_at (whole outline.Closed marks.now) from to) from start end tolerance) result curves.old curves.new firsts.old firsts.new worsts.old worsts.new params.new }
{
    let head = 2 * from;
    let tail = 2 * to;
    if marks.len() < tail {
        return fit_round(
            marks, from, start, end, tolerance, curves, firsts, worsts, params,
        );
    }
    cut::fit_part(
        &marks[head..tail],
        from,
        start,
        end,
        tolerance,
        curves,
        firsts,
        worsts,
        params,
    )
}

// The curves of the block of marks `from` up to `to`, which is not in it, of the n marks that are cut into blocks.
fn fit_block(
    cutting: Cutting,
    marks: &[f64],
    n: usize,
    from: usize,
    to: usize,
    tolerance: f64,
    curves: &mut [f64],
    firsts: &mut [u32],
    worsts: &mut [u32],
    params: &mut [f64],
) -> Result<usize, Refusal>
    requires marks_len { (length (marks_of cutting marks.now) ≡ 2 * n) × Usable (marks_of cutting marks.now) tolerance }
    requires from_bound { (from + 2 ≤ to) × (to ≤ n) × (n ≤ most_numbered) }
    requires to_value { (to ≡ from + length params.old) × (length params.old ≤ 201) × (record_numbers * length params.old ≤ length curves.old + record_numbers) × (length params.old ≤ length firsts.old + 1) × (length params.old ≤ length worsts.old + 1) }
    ensures { Left (block_of cutting (marks_of cutting marks.now) n tolerance from to) result curves.old curves.new firsts.old firsts.new worsts.old worsts.new params.new }
{
    // An operation on the way is all that tangents refuse by.
    let Ok(ways) = tangents::ways_of(cutting, marks, n, from, to) else {
        return Err(Refusal::NotFinite);
    };
    let start = ways.start;
    let end = ways.end;
    fit_marks(
        marks, from, to, start, end, tolerance, curves, firsts, worsts, params,
    )
}

// The curves of all blocks of `size` marks: each but the last, and then the last. A last block of one mark has no curve. A ring has a parameter for mark 0 again.
pub fn fit_blocks(
    cutting: Cutting,
    marks: &[f64],
    size: usize,
    tolerance: f64,
    curves: &mut [f64],
    firsts: &mut [u32],
    worsts: &mut [u32],
    params: &mut [f64],
) -> Result<usize, Refusal>
    requires ready { Ready (marks_of cutting marks.now) 0 tolerance curves.old firsts.old worsts.old params.old }
    requires le_size { (2 ≤ size) × (size ≤ 200) }
    ensures { Left (blocks_of cutting (marks_of cutting marks.now) size tolerance) result curves.old curves.new firsts.old firsts.new worsts.old worsts.new params.new }
{
    let n = params.len();
    let whole = size + tangents::shared(cutting);
    let mut from = 0;
    let mut made = 0;
    // A while: it rises by a block at a time, and leaves the last one.
    while whole < n - from {
        let to = from + whole;
        let behind = RECORD_NUMBERS * made;
        let out = fit_block(
            cutting,
            marks,
            n,
            from,
            to,
            tolerance,
            &mut curves[behind..],
            &mut firsts[made..],
            &mut worsts[made..],
            &mut params[from..to],
        );
        let Ok(k) = out else {
            return out;
        };
        made += k;
        from += size;
    }
    if n - from < 2 {
        params[from] = 0.0;
        return Ok(made);
    }
    let behind = RECORD_NUMBERS * made;
    let out = fit_block(
        cutting,
        marks,
        n,
        from,
        n,
        tolerance,
        &mut curves[behind..],
        &mut firsts[made..],
        &mut worsts[made..],
        &mut params[from..],
    );
    let Ok(k) = out else {
        return out;
    };
    Ok(made + k)
}
