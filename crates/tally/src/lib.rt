// Into how many blocks an outline is cut.
#![tactic(auto)]

ghost use Rattle.std.specs.Prelude.{◌≡◌};
ghost use Rattle.tally.specs.Tally.{joined_blocks};

use marks::max_points_to_fit;

// How many blocks a joined fit cuts n marks into. A ring's mark 0 counts again, so for a ring of n marks ask for n + 1.
pub fn joined_blocks(n: usize) -> usize
    ensures { result ≡ joined_blocks n }
{
    if n < 2 {
        return 0;
    }
    (n - 2) / max_points_to_fit(n) + 1
}
