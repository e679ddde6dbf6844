// The fits of the second engine, for a controller with a small stack: the direct fit, the joined fit and the ring fit, with a slice of mark numbers lent for the
// parts that are still open, and no call that leads back to itself. They give what the first engine's give.
#![tactic(auto)]

ghost use Rattle.std.specs.Prelude.{◌≡◌, ◌≤◌};
ghost use Rattle.marks.specs.Marks.{count};
ghost use Rattle.float.specs.Refusal.{answer, refusal};
ghost use Rattle.tangents.specs.declared.Cutting.TheVariants as variants;
ghost use Rattle.parts.specs.declared.Heading.TheVariants as heading;
ghost use Rattle.flat_fit.specs.Flat.{flat_ending, flat_of, gate_in, open_gate};
ghost use Rattle.waiting.specs.Lent.{Joins};
ghost use Rattle.flat_fit.specs.Sizes.{SizeIn};

use float::refusal::Refusal;
use gate::Room;
use limits::MOST_MARKS;
use parts::Heading;
use plane::Point;
use tangents::{Cutting, Ways};

// What the first engine's fit tests before it runs.
fn gate_in(heading: Heading, marks: &[f64], tolerance: f64, room: Room) -> Result<(), Refusal>
    ensures { refusal result ≡ gate_in heading marks.now tolerance room.curves room.firsts room.worsts room.params }
{
    match heading {
        Heading::Given(ways) => {
            let start = ways.start;
            let end = ways.end;
            fit::gate_cubic(marks, start, end, tolerance, room)
        }
        Heading::By(cutting) => gate::gate(
            tangents::outline_of(cutting),
            marks,
            tolerance,
            MOST_MARKS,
            room,
        ),
    }
}

// The same with room for open parts: a slice that is too short is refused before a number out of range, and after all else.
fn open_gate(passes: Result<(), Refusal>, marks: &[f64], room: usize) -> Result<(), Refusal>
    ensures { refusal result ≡ open_gate (refusal passes) «room» (count marks.now) }
{
    let wanted = 2 * (marks.len() / 2);
    if wanted <= room {
        return passes;
    }
    let Err(q) = passes else {
        return Err(Refusal::NoRoom);
    };
    match q {
        Refusal::OutOfRange => Err(Refusal::NoRoom),
        _ => Err(q),
    }
}

// How many marks a block has, of n: with given tangents all are one.
fn size_in(heading: Heading, n: usize) -> usize
    requires { 2 ≤ n }
    ensures { SizeIn heading n result }
{
    match heading {
        Heading::Given(_) => n - 1,
        Heading::By(_) => marks::max_points_to_fit(n),
    }
}

// A fit of the second engine. Whether its run is refused or not, no part is left open.
fn fit_flat(
    heading: Heading,
    marks: &[f64],
    tolerance: f64,
    curves: &mut [f64],
    firsts: &mut [u32],
    worsts: &mut [u32],
    params: &mut [f64],
    open: &mut [u32],
) -> Result<usize, Refusal>
    requires { Joins heading }
    ensures { flat_ending (answer result) curves.new firsts.new worsts.new params.new «open».new ≡ flat_of heading marks.now tolerance curves.old firsts.old worsts.old params.old «open».old }
{
    let room = Room {
        curves: curves.len(),
        firsts: firsts.len(),
        worsts: worsts.len(),
        params: params.len(),
    };
    let first = gate_in(heading, marks, tolerance, room);
    open_gate(first, marks, open.len())?;
    let n = ring::again(parts::outline_in(heading)) + marks.len() / 2;
    let size = size_in(heading, n);
    let out = waiting::fit_waiting(
        heading,
        marks,
        size,
        tolerance,
        curves,
        firsts,
        worsts,
        &mut params[..n],
        open,
    );
    gate::zero_numbers(open);
    let Ok(total) = out else {
        fit::zero_all(curves, firsts, worsts, params);
        return out;
    };
    Ok(total)
}

// The direct fit of the second engine: what `fit::fit_curve_cubic` gives. `open` wants 2n numbers for n marks, and is left zero.
pub fn fit_curve_cubic_flat(
    marks: &[f64],
    start: Point,
    end: Point,
    tolerance: f64,
    curves: &mut [f64],
    firsts: &mut [u32],
    worsts: &mut [u32],
    params: &mut [f64],
    open: &mut [u32],
) -> Result<usize, Refusal>
    ensures { flat_ending (answer result) curves.new firsts.new worsts.new params.new «open».new ≡ flat_of (heading.Given (record { end = end; start = start })) marks.now tolerance curves.old firsts.old worsts.old params.old «open».old }
{
    fit_flat(
        Heading::Given(Ways { end, start }),
        marks,
        tolerance,
        curves,
        firsts,
        worsts,
        params,
        open,
    )
}

// The joined fit of the second engine: what `fit::fit_joined` gives.
pub fn fit_joined_flat(
    marks: &[f64],
    tolerance: f64,
    curves: &mut [f64],
    firsts: &mut [u32],
    worsts: &mut [u32],
    params: &mut [f64],
    open: &mut [u32],
) -> Result<usize, Refusal>
    ensures { flat_ending (answer result) curves.new firsts.new worsts.new params.new «open».new ≡ flat_of (heading.By variants.Joined) marks.now tolerance curves.old firsts.old worsts.old params.old «open».old }
{
    fit_flat(
        Heading::By(Cutting::Joined),
        marks,
        tolerance,
        curves,
        firsts,
        worsts,
        params,
        open,
    )
}

// The ring fit of the second engine: what `fit::fit_ring` gives. `open` wants 2n numbers for the n marks given.
pub fn fit_ring_flat(
    marks: &[f64],
    tolerance: f64,
    curves: &mut [f64],
    firsts: &mut [u32],
    worsts: &mut [u32],
    params: &mut [f64],
    open: &mut [u32],
) -> Result<usize, Refusal>
    ensures { flat_ending (answer result) curves.new firsts.new worsts.new params.new «open».new ≡ flat_of (heading.By variants.Ring) marks.now tolerance curves.old firsts.old worsts.old params.old «open».old }
{
    fit_flat(
        Heading::By(Cutting::Ring),
        marks,
        tolerance,
        curves,
        firsts,
        worsts,
        params,
        open,
    )
}
