// The tree of halvings of six heights.
ghost use Rattle.std.specs.Prelude.{◌≡◌, ℕ, ◌≤◌, true};
ghost use Rattle.std.specs.Float.{binary64};
ghost use Rattle.sections.specs.Mid.{deep as deep_of, sign};
ghost use Rattle.sections.specs.Halving.{left as left_of, right as right_of, ch, changes as changes_of, vary, live, live_at};

use quintic::numbers::Six;
use sections::middle;

// No tree of a creator has more sections than this.
const MOST_LOOKS: usize = 2048;

// Six heights that wait to be looked at, and how often they were halved.
#[derive(Clone, Copy)]
pub struct Waiting {
    pub p: Six,
    pub depth: usize,
}

// The parts of six heights before and after the middle.
#[derive(Clone, Copy)]
pub struct Parts {
    pub left: Six,
    pub right: Six,
}

// The heights of the two halves.
fn halve(p: Six) -> Parts
    ensures { (result.left ≡ left_of binary64 p) × (result.right ≡ right_of binary64 p) }
{
    let a1 = middle(p.y1, p.y2);
    let a2 = middle(p.y2, p.y3);
    let a3 = middle(p.y3, p.y4);
    let a4 = middle(p.y4, p.y5);
    let a5 = middle(p.y5, p.y6);
    let b1 = middle(a1, a2);
    let b2 = middle(a2, a3);
    let b3 = middle(a3, a4);
    let b4 = middle(a4, a5);
    let c1 = middle(b1, b2);
    let c2 = middle(b2, b3);
    let c3 = middle(b3, b4);
    let d1 = middle(c1, c2);
    let d2 = middle(c2, c3);
    let u = middle(d1, d2);
    Parts {
        left: Six {
            y1: p.y1,
            y2: a1,
            y3: b1,
            y4: c1,
            y5: d1,
            y6: u,
        },
        right: Six {
            y1: u,
            y2: d2,
            y3: c3,
            y4: b4,
            y5: a5,
            y6: p.y6,
        },
    }
}

// 1 where two classes differ.
fn change(a: bool, b: bool) -> u64
    ensures { (result ≡ ch a b) × (result ≤ 1) }
{
    if a {
        if b {
            return 0;
        }
        return 1;
    }
    if b {
        return 1;
    }
    0
}

// How often six classes change.
fn changes(a: bool, b: bool, c: bool, d: bool, e: bool, g: bool) -> u64
    ensures { (result ≡ changes_of a b c d e g) × (result ≤ 5) }
{
    change(a, b) + change(b, c) + change(c, d) + change(d, e) + change(e, g)
}

// Whether a section's heights cross zero: it is live.
pub fn is_live(p: Six) -> bool
    ensures { result ≡ live p }
{
    changes(
        p.y1 < 0.0,
        p.y2 < 0.0,
        p.y3 < 0.0,
        p.y4 < 0.0,
        p.y5 < 0.0,
        p.y6 < 0.0,
    ) > 0
}

// The smallest value above zero, and twice that.
pub const SMALLEST: f64 = 5e-324;

const TWICE: f64 = 1e-323;

// Whether a height is at least two smallest values below zero.
fn deep(y: f64) -> bool
    ensures { result ≡ deep_of binary64 y }
{
    y <= -TWICE
}

// V_T: how often the heights change between deep and not.
pub fn depth_changes(p: Six) -> u64
    ensures { (result ≡ vary (deep_of binary64) p) × (result ≤ 5) }
{
    changes(
        deep(p.y1),
        deep(p.y2),
        deep(p.y3),
        deep(p.y4),
        deep(p.y5),
        deep(p.y6),
    )
}

// Whether a height has its sign bit set.
pub fn signed(y: f64) -> bool
    ensures { result ≡ sign y }
{
    float::signum(y) < 0.0
}

// V_B: how often the sign bit changes.
pub fn sign_changes(p: Six) -> u64
    ensures { (result ≡ vary sign p) × (result ≤ 5) }
{
    changes(
        signed(p.y1),
        signed(p.y2),
        signed(p.y3),
        signed(p.y4),
        signed(p.y5),
        signed(p.y6),
    )
}

// Whether p has at no depth 0..63 below it more live sections than a bound, where every live section is halved. A tree that needs
// more room or more looks than there are counts as having more.
pub fn within(p: Six, most: u64) -> bool
    ensures { result ≡ true → (d : ℕ) → d ≤ 63 → live_at binary64 d p ≤ most }
{
    let mut counts = [0u64; 64];
    let mut waiting = [Waiting { p, depth: 0 }; 65];
    let mut n: usize = 1;
    for _ in 0..MOST_LOOKS {
        if n == 0 {
            break;
        }
        n -= 1;
        let w = waiting[n];
        let depth = w.depth;
        if depth < 64 {
            if is_live(w.p) {
                let count = counts[depth] + 1;
                if count > most {
                    return false;
                }
                counts[depth] = count;
                if n > 63 {
                    return false;
                }
                let parts = halve(w.p);
                let left_part = parts.left;
                let right_part = parts.right;
                waiting[n] = Waiting {
                    p: right_part,
                    depth: depth + 1,
                };
                waiting[n + 1] = Waiting {
                    p: left_part,
                    depth: depth + 1,
                };
                n += 2;
            }
        }
    }
    n == 0
}
