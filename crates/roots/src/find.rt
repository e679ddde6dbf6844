// The search itself: a stack of sections, halved left first.
ghost use Rattle.std.specs.Prelude.{◌≡◌, ◌≤◌, length};
ghost use Rattle.std.specs.Result.{IfOk};
ghost use Rattle.float.specs.Refusal.{answer};
ghost use Rattle.roots.specs.Find.{root_seen, halve as halve_of, look_of, find_roots};
ghost use Rattle.roots.specs.Tests.{one_of, roots_answer};

use flat::flat::{count_x_axis_crossings, flat_enough};
use float::refusal::Refusal;
use intercept::intercept::root_of;
use quintic::points::{Halves, Section};

// A section at this depth is not halved.
pub const DEEPEST: usize = 64;

// No more sections than this are taken.
pub const MOST_SECTIONS: usize = 2048;

// A section that waits to be looked at, and how often it was halved.
#[derive(Clone, Copy)]
pub struct Waiting {
    pub section: Section,
    pub depth: usize,
}

// What a look at a section comes to: no root, a root, or its halves.
#[derive(Clone, Copy)]
pub enum Look {
    Nothing,
    Root(f64),
    Halved(Halves),
}

// A section's root.
fn look_for_root(s: Section) -> Result<Look, Refusal>
    ensures { answer result ≡ root_seen s }
{
    let t = root_of(s)?;
    Ok(Look::Root(t))
}

// A section's halves, where it may be halved.
fn halve(s: Section, depth: usize) -> Result<Look, Refusal>
    ensures { answer result ≡ halve_of s depth }
{
    if depth >= DEEPEST {
        return Err(Refusal::TooDeep);
    }
    let halves = quintic::points::subdivide6(0.5, s);
    if !float::two_finite(halves.left.w6.x, halves.left.w6.y) {
        return Err(Refusal::NotFinite);
    }
    Ok(Look::Halved(halves))
}

// A look at a section with one crossing.
fn look_at_one(s: Section, depth: usize) -> Result<Look, Refusal>
    ensures { answer result ≡ one_of s depth }
{
    let flat = flat_enough(s)?;
    if flat {
        return look_for_root(s);
    }
    halve(s, depth)
}

// A look at a section.
fn look_at(s: Section, depth: usize) -> Result<Look, Refusal>
    ensures { answer result ≡ look_of s depth }
{
    let num_crossings = count_x_axis_crossings(s);
    if num_crossings == 0 {
        return Ok(Look::Nothing);
    }
    if num_crossings == 1 {
        return look_at_one(s, depth);
    }
    halve(s, depth)
}

// The roots of a curve of six points, left to right, into `roots`, and how many they are: no section has more than one.
pub fn find_bezier_roots(points: Section, roots: &mut [f64]) -> Result<usize, Refusal>
    requires { 2048 ≤ length roots.old }
    ensures found { roots_answer result roots.new ≡ find_roots points }
    ensures few { IfOk result (λ n. n ≤ 2048) }
{
    let mut sections = [Waiting {
        section: points,
        depth: 0,
    }; 65];
    let mut waiting: usize = 1;
    let mut found: usize = 0;
    for _ in 0..MOST_SECTIONS {
        if waiting == 0 {
            break;
        }
        waiting -= 1;
        let next = sections[waiting];
        let depth = next.depth;
        match look_at(next.section, depth)? {
            Look::Nothing => {}
            Look::Root(t) => {
                roots[found] = t;
                found += 1;
            }
            Look::Halved(halves) => {
                let left_half = halves.left;
                let right_half = halves.right;
                sections[waiting] = Waiting {
                    section: right_half,
                    depth: depth + 1,
                };
                sections[waiting + 1] = Waiting {
                    section: left_half,
                    depth: depth + 1,
                };
                waiting += 2;
            }
        }
    }
    if waiting > 0 {
        return Err(Refusal::TooDeep);
    }
    Ok(found)
}
