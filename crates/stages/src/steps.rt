// reparameterize: a Newton step for every mark.
ghost use Rattle.std.specs.Prelude.{◌≡◌, ◌+◌, ◌*◌, ◌<◌, length};
ghost use Rattle.newton.specs.Newton.{newton_by};
ghost use Rattle.newton.specs.Tests.{as_step};
ghost use Rattle.marks.specs.Marks.{mark_at};
ghost use Rattle.stages.specs.Newton.{reparam};

use newton::{Step, Vertices};
use plane::Curve;

// The step of mark k.
fn step_at(marks: &[f64], c: Curve, q: Vertices, k: usize, t: f64) -> Step
    requires { 2 * k + 1 < length marks.now }
    ensures { result ≡ as_step (newton_by c q (mark_at marks.now k) t) }
{
    newton::newton_raphson_root_find(c, q, marks::mark_at(marks, k), t)
}

// Better parameters for the marks, and whether each operation gave a finite number. The curve's vertices are worked out once.
pub fn reparameterize(marks: &[f64], c: Curve, params: &mut [f64]) -> bool
    requires { length marks.now ≡ 2 * length params.old }
    ensures { (result ≡ (reparam marks.now c params.old).fine) × (params.new ≡ (reparam marks.now c params.old).val) }
{
    let q = newton::vertices_of(c);
    let mut fine = true;
    for (i, t) in params.iter_mut().enumerate() {
        let s = step_at(marks, c, q, i, *t);
        fine = fine & s.fine;
        *t = s.t;
    }
    fine
}
