// All sections whose right half has every sign bit set and no height below the smallest value under zero. Such heights lie in a box,
// which is gone through from the last height to the first, with a margin around it. Heights are numbered: 2·k and 2·k + 1 are k smallest
// values above and below zero, both zeros among them.
ghost use Rattle.std.specs.Prelude.{◌<◌, ◌≤◌};

use crate::tree::{SMALLEST, depth_changes, is_live, sign_changes, signed, within};
use quintic::numbers::Six;
use sections::middle;

// How far beyond the box is looked, to see that nothing lies there.
const MARGIN: u64 = 3;

// More steps than the walk takes.
const MOST_STEPS: u64 = 1000000000;

// What was found.
#[derive(Clone, Copy)]
pub struct Tally {
    pub sections: u64,
    pub outside: u64,
    pub creators: u64,
    pub beyond: u64,
}

// The six heights of an array that has the last first.
fn six(p: [f64; 6]) -> Six {
    Six {
        y1: p[5],
        y2: p[4],
        y3: p[3],
        y4: p[2],
        y5: p[1],
        y6: p[0],
    }
}

// The right half's heights: the ends of the six diagonals.
fn right_half(diagonals: [f64; 36]) -> Six {
    Six {
        y1: diagonals[35],
        y2: diagonals[28],
        y3: diagonals[21],
        y4: diagonals[14],
        y5: diagonals[7],
        y6: diagonals[0],
    }
}

// The six heights of the mirror image.
fn mirror(p: Six) -> Six {
    Six {
        y1: p.y6,
        y2: p.y5,
        y3: p.y4,
        y4: p.y3,
        y5: p.y2,
        y6: p.y1,
    }
}

// The height with a number.
fn height(i: u64) -> f64 {
    let size = std::num::nearest_u64_to_f64(i / 2) * SMALLEST;
    if i % 2 == 0 {
        return size;
    }
    -size
}

// Whether a height may stand in the right half: its sign bit is set, and it is not below the smallest value under zero.
fn stands(y: f64) -> bool {
    signed(y) & (y >= -SMALLEST)
}

// The box: how many smallest values the height at a place may be in size, from the last height to the first.
fn bound(k: usize) -> u64
    ensures { result ≤ 162 }
{
    match k {
        0 => 1,
        1 => 2,
        2 => 6,
        3 => 18,
        4 => 54,
        _ => 162,
    }
}

// Whether the heights with these numbers lie in the box.
fn in_box(numbers: [u64; 6]) -> bool {
    (numbers[0] / 2 <= bound(0))
        & (numbers[1] / 2 <= bound(1))
        & (numbers[2] / 2 <= bound(2))
        & (numbers[3] / 2 <= bound(3))
        & (numbers[4] / 2 <= bound(4))
        & (numbers[5] / 2 <= bound(5))
}

// The diagonals of the triangle of midpoints, with that of the height x at place k: the midpoints of x and the diagonal before, downwards.
fn extend(diagonals: [f64; 36], x: f64, k: usize) -> [f64; 36]
    requires { k < 6 }
{
    let mut next = diagonals;
    next[6 * k] = x;
    for j in 0..k {
        next[6 * k + j + 1] = middle(next[6 * k + j], next[6 * (k - 1) + j]);
    }
    next
}

// One section with such a right half.
fn examine(p: Six, right: Six, inside: bool, tally: Tally) -> Tally {
    let mut t = tally;
    t.sections = std::num::wrapping_add_u64(t.sections, 1);
    if !inside {
        t.outside = std::num::wrapping_add_u64(t.outside, 1);
    }
    let deep = depth_changes(p);
    if (deep > 0) & is_live(p) & is_live(right) {
        t.creators = std::num::wrapping_add_u64(t.creators, 1);
        let most = 2 * deep + sign_changes(p);
        if !(within(p, most) & within(mirror(p), most)) {
            t.beyond = std::num::wrapping_add_u64(t.beyond, 1);
        }
    }
    t
}

// All of them. Place after place is filled, and a place whose heights are all tried hands back to the one before.
pub fn all() -> Tally {
    let mut tally = Tally {
        sections: 0,
        outside: 0,
        creators: 0,
        beyond: 0,
    };
    let mut numbers = [0u64; 6];
    let mut p = [0.0; 6];
    let mut diagonals = [0.0; 36];
    let mut k: usize = 0;
    for _ in 0..MOST_STEPS {
        let i = numbers[k];
        if i >= 2 * (bound(k) + MARGIN + 1) {
            if k == 0 {
                return tally;
            }
            k -= 1;
            numbers[k] = std::num::wrapping_add_u64(numbers[k], 1);
            continue;
        }
        let x = height(i);
        p[k] = x;
        diagonals = extend(diagonals, x, k);
        if stands(diagonals[7 * k]) {
            if k < 5 {
                k += 1;
                numbers[k] = 0;
                continue;
            }
            tally = examine(six(p), right_half(diagonals), in_box(numbers), tally);
        }
        numbers[k] = std::num::wrapping_add_u64(i, 1);
    }
    tally
}
