// What every fit tests before it runs, in the order of the refusals, and the zeros that a refused run leaves.
#![tactic(auto)]

ghost use Rattle.std.specs.Prelude.{◌≡◌, ◌-◌, length, replicate};
ghost use Rattle.float.specs.Number.{f0};
ghost use Rattle.float.specs.Refusal.{refusal};
ghost use Rattle.gate.specs.Gate.{in_range, tolerable, room_for, gate_for, gate_of};

use float::refusal::Refusal;
use form::Form;
use ring::Outline;

// Whether every number may be a coordinate.
pub fn all_in_range(marks: &[f64]) -> bool
    ensures { result ≡ in_range marks.now }
{
    marks.iter().all(|x| plane::is_coordinate(*x))
}

// Whether x may be a tolerance: finite and not below zero.
pub fn is_tolerable(x: f64) -> bool
    ensures { result ≡ tolerable x }
{
    float::finite(x) & (0.0 <= x)
}

// How many numbers are lent for curves, first marks, worst marks and parameters.
#[derive(Clone, Copy)]
pub struct Room {
    pub curves: usize,
    pub firsts: usize,
    pub worsts: usize,
    pub params: usize,
}

// Whether there is room for `wanted` curves, with first marks and worst marks. The width of a curve times `wanted` may be no `usize`, so the
// room is divided.
fn has_room(form: Form, wanted: usize, room: Room) -> bool
    ensures { result ≡ room_for form «wanted» room.curves room.firsts room.worsts }
{
    let width = form::width(form);
    (wanted <= room.curves / width)
        & ((wanted <= room.firsts) & (form::worsts_for(form, wanted) <= room.worsts))
}

// The refusal before a run over the marks of an outline, at most `top` of them, where room for `wanted` curves is asked.
pub fn gate_for(
    outline: Outline,
    form: Form,
    marks: &[f64],
    tolerance: f64,
    top: usize,
    wanted: usize,
    room: Room,
) -> Result<(), Refusal>
    ensures { refusal result ≡ gate_for «top» outline form «wanted» marks.now tolerance room.curves room.firsts room.worsts room.params }
{
    let len = marks.len();
    if len % 2 != 0 {
        return Err(Refusal::Odd);
    }
    let n = len / 2;
    let more = ring::again(outline);
    if n < more + 2 {
        return Err(Refusal::TooFew);
    }
    if n > top {
        return Err(Refusal::TooMany);
    }
    if !has_room(form, wanted, room) {
        return Err(Refusal::NoRoom);
    }
    if room.params < more + n {
        return Err(Refusal::NoRoom);
    }
    if !all_in_range(marks) {
        return Err(Refusal::OutOfRange);
    }
    if !is_tolerable(tolerance) {
        return Err(Refusal::OutOfRange);
    }
    Ok(())
}

// The same with room for the records of as many curves as these marks can have: the refusal before a fit.
pub fn gate(
    outline: Outline,
    marks: &[f64],
    tolerance: f64,
    top: usize,
    room: Room,
) -> Result<(), Refusal>
    ensures { refusal result ≡ gate_of «top» outline marks.now tolerance room.curves room.firsts room.worsts room.params }
{
    let n = ring::again(outline) + marks.len() / 2;
    gate_for(
        outline,
        Form::Nine,
        marks,
        tolerance,
        top,
        n.saturating_sub(1),
        room,
    )
}

// Every number plus zero.
pub fn zero_floats(s: &mut [f64])
    ensures { s.new ≡ replicate (length s.old) f0 }
{
    s.fill(0.0);
}

// Every number zero.
pub fn zero_numbers(s: &mut [u32])
    ensures { s.new ≡ replicate (length s.old) 0 }
{
    s.fill(0);
}
