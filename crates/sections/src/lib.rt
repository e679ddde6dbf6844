// Why the search never takes a 2,049th section: the chain of laws stands in proofs/, and here is the midpoint that it speaks of.
#![tactic(auto)]

ghost use Rattle.std.specs.Prelude.{◌≡◌};
ghost use Rattle.sections.specs.Mid.{mid64};

// The midpoint of two heights, as subdivide_n has it at 0.5.
pub fn middle(x: f64, y: f64) -> f64
    ensures { result ≡ mid64 x y }
{
    x * 0.5 + y * 0.5
}
