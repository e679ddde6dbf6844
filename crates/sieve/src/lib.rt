// Which marks of a shaky trace are kept, and why the others are dropped: what becomes of a mark, by the last one kept before it.
#![tactic(auto)]

ghost use Rattle.std.specs.Prelude.{◌≡◌, ◌+◌, ◌*◌, ◌≤◌, length};
ghost use Rattle.house.specs.Limits.{number_field, mark_bytes, marks_at};
ghost use Rattle.house.specs.Bytes.{num};
ghost use Rattle.sieve.specs.Sieve.{mark, again as again_of, fate_of, after as after_of};

use float::of_bits;
use house::bytes::eight;
use house::sizes;
use plane::{Point, equal, point_in_range};

// Why a mark is dropped: a coordinate is out of range, or the mark is equal to the last one kept.
#[derive(Clone, Copy)]
pub enum Cause {
    Range,
    Equal,
}

// What becomes of a mark. An enum of its own: a mark dropped is no failure, as an `Err` would have it.
#[derive(Clone, Copy)]
pub enum Fate {
    Kept,
    Dropped(Cause),
}

// Mark i of a house file, in either form: its marks stand at the same place.
pub fn mark_at(file: &[u8], i: usize) -> Point
    requires { marks_at + mark_bytes * i + mark_bytes ≤ length file.now }
    ensures { result ≡ mark (num number_field file.now (marks_at + mark_bytes * i)) (num number_field file.now (marks_at + mark_bytes * i + number_field)) }
{
    let at = sizes::MARKS_AT + sizes::MARK_BYTES * i;
    Point {
        x: of_bits(eight(file, at)),
        y: of_bits(eight(file, at + sizes::NUMBER_FIELD)),
    }
}

// Whether a mark is equal to the last one kept, if there is one.
#[tactic(auto, unfolding(crate::specs::Sieve::again))]
fn again(last: Option<Point>, p: Point) -> bool
    ensures { result ≡ again_of last p }
{
    last.is_some_and(|q| equal(p, q))
}

// What becomes of a mark. Its range comes first, so what is kept can be compared: it is no NaN.
pub fn fate_of(last: Option<Point>, p: Point) -> Fate
    ensures { result ≡ fate_of last p }
{
    if point_in_range(p) {
        if again(last, p) {
            return Fate::Dropped(Cause::Equal);
        }
        return Fate::Kept;
    }
    Fate::Dropped(Cause::Range)
}

// The last mark kept, behind this one.
#[tactic(auto, unfolding(crate::specs::Sieve::after))]
pub fn after(last: Option<Point>, p: Point, fate: Fate) -> Option<Point>
    ensures { result ≡ after_of last p fate }
{
    match fate {
        Fate::Kept => Some(p),
        Fate::Dropped(_) => last,
    }
}
