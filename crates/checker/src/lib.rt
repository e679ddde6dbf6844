// The list checker: whether a list of curves, whoever made it, is sound for its marks and tolerance, over an open outline or a closed one.
#![tactic(auto)]

ghost use Rattle.std.specs.Prelude.{◌≡◌, ◌+◌, ◌-◌, ◌*◌, ◌≤◌, ◌<◌, length, drop, []};
ghost use Rattle.ring.specs.Ring.{whole};
ghost use Rattle.ring.specs.declared.Outline.TheVariants as outlines;
ghost use Rattle.gate.specs.Gate.{gate_for};
ghost use Rattle.limits.specs.Limits.{most_marks};
ghost use Rattle.form.specs.Form.{width, worsts_for};
ghost use Rattle.form.specs.declared.Form.TheVariants as forms;
ghost use Rattle.faults.specs.Tests.{square_at, unmeasured, kept};
ghost use Rattle.checker.specs.Check.{checked_answer, place, must, in_turn, listed, curve_checked, list_checked, check_of};
ghost use Rattle.checker.specs.Inner.{verdict, under_checked, walked, Under, Listed};

use float::refusal::Refusal;
use form::Form;
use gate::Room;
use limits::MOST_MARKS;
use plane::Curve;
use ring::Outline;
use stages::Worst;

// Where a fault is: the curve's number and the mark's.
#[derive(Clone, Copy)]
pub struct Place {
    pub curve: usize,
    pub mark: usize,
}

// What can be wrong with a list: the count or the first marks (A), a curve's numbers or ends (B), a parameter (C), a distance (D), what is kept of the
// distances (E).
#[derive(Clone, Copy)]
pub enum Fault {
    A(Place),
    B(Place),
    C(Place),
    D(Place),
    E(Place),
}

// Passed, the first fault, or a refusal.
#[derive(Clone, Copy)]
pub enum Checked {
    Passed,
    Faulty(Fault),
    Refused(Refusal),
}

// ---- A: the first marks

// A over the whole list.
fn check_firsts(firsts: &[u32], n: usize, count: usize) -> Result<(), Fault>
    requires { («count» ≤ length firsts.now) × (2 ≤ n) }
    ensures { verdict result ≡ listed n «count» firsts.now }
{
    if count == 0 {
        return Err(Fault::A(Place { curve: 0, mark: 0 }));
    }
    if count >= n {
        return Err(Fault::A(Place { curve: 0, mark: 0 }));
    }
    for j in 0..count {
        if !faults::rises_at(firsts, n, j) {
            return Err(Fault::A(Place { curve: j, mark: 0 }));
        }
    }
    Ok(())
}

// ---- C and D: the marks under a curve

// C and D, mark by mark, over a part of the marks under curve j, whose first mark is `first` of n. The part begins at mark `from`, and `before` is the
// farthest mark before it.
fn check_marks(
    under: &[f64],
    params: &[f64],
    n: usize,
    j: usize,
    first: usize,
    from: usize,
    c: Curve,
    tolerance: f64,
    before: Worst,
) -> Result<Worst, Fault>
    requires { (length under.now ≡ 2 * length params.now) × (from + length params.now ≤ n) }
    ensures { result ≡ walked (length params.now) (under_checked tolerance n j first from c under.now params.now) before (square_at under.now c params.now) from }
{
    let mut far = before;
    for (i, &t) in params.iter().enumerate() {
        let mark = from + i;
        if !faults::is_timed(n, first, mark, t) {
            return Err(Fault::C(Place { curve: j, mark }));
        }
        let square = stages::error_at(under, c, i, t);
        if !faults::is_near(square, tolerance) {
            return Err(Fault::D(Place { curve: j, mark }));
        }
        far = stages::larger(far, square, mark);
    }
    Ok(far)
}

// C and D over all marks under curve j, from mark `first` up to mark `stop`. Mark 0, where it counts again, has a walk of its own, so that no slice is
// longer than what is lent: behind those given, mark k is mark k - given.
fn check_under(
    marks: &[f64],
    params: &[f64],
    n: usize,
    j: usize,
    first: usize,
    stop: usize,
    c: Curve,
    tolerance: f64,
) -> Result<Worst, Fault>
    requires { Under marks.now params.now n first stop }
    ensures { result ≡ walked (stop - first) (under_checked tolerance n j first first c (drop (2 * first) (whole outlines.Closed marks.now)) (drop first params.now)) (unmeasured first) (square_at (drop (2 * first) (whole outlines.Closed marks.now)) c (drop first params.now)) first }
{
    let given = marks.len() / 2;
    let none = Worst {
        err: 0.0,
        at: first,
    };
    if stop <= given {
        let all = faults::marks_under(marks, first, stop);
        return check_marks(
            all,
            &params[first..stop],
            n,
            j,
            first,
            first,
            c,
            tolerance,
            none,
        );
    }
    let most = faults::marks_under(marks, first, given);
    let far = check_marks(
        most,
        &params[first..given],
        n,
        j,
        first,
        first,
        c,
        tolerance,
        none,
    )?;
    let last = stop - 1;
    let again = faults::marks_under(marks, last - given, stop - given);
    check_marks(
        again,
        &params[last..stop],
        n,
        j,
        first,
        last,
        c,
        tolerance,
        far,
    )
}

// ---- E: what is kept of the marks under a curve

// E of the curve whose number and first mark are in `at`, by the farthest mark under it.
fn check_kept(
    far: Worst,
    form: Form,
    curves: &[f64],
    worsts: &[u32],
    at: Place,
) -> Result<(), Fault>
    requires { (width form * at.curve + width form ≤ length curves.now) × (worsts_for form (at.curve + 1) ≤ length worsts.now) }
    ensures { verdict result ≡ must (Fault.E at) (kept form curves.now worsts.now at.curve far) }
{
    if !faults::is_kept(form, curves, worsts, at.curve, far) {
        return Err(Fault::E(at));
    }
    Ok(())
}

// ---- the whole

// A list as it is checked: `count` curves of a form for the marks of an outline, at a tolerance.
#[derive(Clone, Copy)]
struct List<'a> {
    outline: Outline,
    form: Form,
    marks: &'a [f64],
    tolerance: f64,
    count: usize,
    curves: &'a [f64],
    firsts: &'a [u32],
    worsts: &'a [u32],
    params: &'a [f64],
}

impl List<'_> {
    // B of curve j, then C and D of the marks under it, then E.
    fn check_curve(&self, j: usize) -> Result<(), Fault>
        requires { let l = self.now in (j < l.count) × Listed l.form (whole l.outline l.marks.now) l.count l.curves.now l.firsts.now l.worsts.now l.params.now }
        ensures { let l = self.now in verdict result ≡ curve_checked l.form (whole l.outline l.marks.now) l.tolerance l.count l.curves.now l.firsts.now l.worsts.now l.params.now j }
    {
        let given = self.marks.len() / 2;
        let n = ring::again(self.outline) + given;
        let c = faults::curve_at(self.form, self.curves, j);
        let first = faults::first_at(self.firsts, j);
        let at = Place {
            curve: j,
            mark: first,
        };
        let last = faults::last_at(self.firsts, n, self.count, j);
        let p = marks::mark_at(self.marks, first);
        let q = ring::mark_round(self.marks, last);
        if !faults::is_run(c, p, q) {
            return Err(Fault::B(at));
        }
        let stop = faults::stop_at(self.firsts, n, self.count, j);
        let far = check_under(
            self.marks,
            self.params,
            n,
            j,
            first,
            stop,
            c,
            self.tolerance,
        )?;
        check_kept(far, self.form, self.curves, self.worsts, at)
    }

    // Curve by curve.
    fn check_curves(&self) -> Result<(), Fault>
        requires { let l = self.now in Listed l.form (whole l.outline l.marks.now) l.count l.curves.now l.firsts.now l.worsts.now l.params.now }
        ensures { let l = self.now in verdict result ≡ in_turn l.count (curve_checked l.form (whole l.outline l.marks.now) l.tolerance l.count l.curves.now l.firsts.now l.worsts.now l.params.now) }
    {
        for j in 0..self.count {
            self.check_curve(j)?;
        }
        Ok(())
    }

    // A over the whole list, then curve by curve.
    fn check_all(&self) -> Result<(), Fault>
        requires { let l = self.now in gate_for most_marks l.outline l.form l.count l.marks.now l.tolerance (length l.curves.now) (length l.firsts.now) (length l.worsts.now) (length l.params.now) ≡ 0 }
        ensures { let l = self.now in verdict result ≡ list_checked l.form (whole l.outline l.marks.now) l.tolerance l.count l.curves.now l.firsts.now l.worsts.now l.params.now }
    {
        let n = ring::again(self.outline) + self.marks.len() / 2;
        check_firsts(self.firsts, n, self.count)?;
        self.check_curves()
    }
}

// Whether `count` curves are a sound list for the marks of an outline and this tolerance, or the first fault, with its curve's number and its mark's: the gate,
// then A, then curve by curve. A list of eight numbers a curve keeps no worst marks, and none are looked at.
pub fn check(
    outline: Outline,
    form: Form,
    marks: &[f64],
    tolerance: f64,
    count: usize,
    curves: &[f64],
    firsts: &[u32],
    worsts: &[u32],
    params: &[f64],
) -> Checked
    ensures { checked_answer result ≡ check_of outline form marks.now tolerance «count» curves.now firsts.now worsts.now params.now }
{
    let passes = gate::gate_for(
        outline,
        form,
        marks,
        tolerance,
        MOST_MARKS,
        count,
        Room {
            curves: curves.len(),
            firsts: firsts.len(),
            worsts: worsts.len(),
            params: params.len(),
        },
    );
    if let Err(refusal) = passes {
        return Checked::Refused(refusal);
    }
    let list = List {
        outline,
        form,
        marks,
        tolerance,
        count,
        curves,
        firsts,
        worsts,
        params,
    };
    match list.check_all() {
        Ok(()) => Checked::Passed,
        Err(fault) => Checked::Faulty(fault),
    }
}

// The same for a list of eight numbers a curve over an open outline, from its first mark to its last.
pub fn check_list(
    marks: &[f64],
    tolerance: f64,
    count: usize,
    curves: &[f64],
    firsts: &[u32],
    params: &[f64],
) -> Checked
    ensures { checked_answer result ≡ check_of outlines.Open forms.Eight marks.now tolerance «count» curves.now firsts.now [] params.now }
{
    check(
        Outline::Open,
        Form::Eight,
        marks,
        tolerance,
        count,
        curves,
        firsts,
        &[],
        params,
    )
}

// The same for a closed outline: mark 0 counts again behind the last one, and the last curve has to end there.
pub fn check_ring(
    marks: &[f64],
    tolerance: f64,
    count: usize,
    curves: &[f64],
    firsts: &[u32],
    params: &[f64],
) -> Checked
    ensures { checked_answer result ≡ check_of outlines.Closed forms.Eight marks.now tolerance «count» curves.now firsts.now [] params.now }
{
    check(
        Outline::Closed,
        Form::Eight,
        marks,
        tolerance,
        count,
        curves,
        firsts,
        &[],
        params,
    )
}

// For records of nine numbers, with the number of each curve's worst mark, over an open outline.
pub fn check_worst(
    marks: &[f64],
    tolerance: f64,
    count: usize,
    curves: &[f64],
    firsts: &[u32],
    worsts: &[u32],
    params: &[f64],
) -> Checked
    ensures { checked_answer result ≡ check_of outlines.Open forms.Nine marks.now tolerance «count» curves.now firsts.now worsts.now params.now }
{
    check(
        Outline::Open,
        Form::Nine,
        marks,
        tolerance,
        count,
        curves,
        firsts,
        worsts,
        params,
    )
}

// The same for a closed outline.
pub fn check_worst_ring(
    marks: &[f64],
    tolerance: f64,
    count: usize,
    curves: &[f64],
    firsts: &[u32],
    worsts: &[u32],
    params: &[f64],
) -> Checked
    ensures { checked_answer result ≡ check_of outlines.Closed forms.Nine marks.now tolerance «count» curves.now firsts.now worsts.now params.now }
{
    check(
        Outline::Closed,
        Form::Nine,
        marks,
        tolerance,
        count,
        curves,
        firsts,
        worsts,
        params,
    )
}
