// The words of a line in turn, each behind one blank. Where there is no further word, or it is not what was asked for, the line is no case: `None`,
// which every reader hands on.
ghost use Rattle.std.specs.Prelude.{◌≤◌, IfSome};

use plane::{Curve, Point};

// The greatest whole number.
pub const MOST: u64 = 0xffff_ffff_ffff_ffff;

// How many bytes a float has in a line, with the blank before it.
const FLOAT: usize = 17;

// What is left of a line behind the blank after the last word; nothing at the line's end.
#[derive(Clone, Copy)]
pub struct Cursor<'a> {
    rest: Option<&'a [u8]>,
}

impl<'a> Cursor<'a> {
    // Behind a line's first bytes, which end at a blank or at the line's end.
    pub fn behind(line: &'a [u8], first: usize) -> Cursor<'a> {
        if first < line.len() {
            return Cursor {
                rest: Some(&line[first + 1..]),
            };
        }
        Cursor { rest: None }
    }

    // The next word.
    pub fn word(&mut self) -> Option<&'a [u8]> {
        let rest = self.rest?;
        match rest.iter().position(|b| *b == b' ') {
            Some(end) => {
                self.rest = Some(&rest[end + 1..]);
                Some(&rest[..end])
            }
            None => {
                self.rest = None;
                Some(rest)
            }
        }
    }

    // The next word as a whole number that is no more than `most`.
    pub fn count(&mut self, most: u64) -> Option<u64>
        ensures { IfSome result (λ n. n ≤ most) }
    {
        let n = words::decimal(self.word()?)?;
        if n > most {
            return None;
        }
        Some(n)
    }

    // The next word as the bits of a float.
    pub fn float(&mut self) -> Option<f64> {
        let bits = words::hex(self.word()?)?;
        Some(float::of_bits(bits))
    }

    // The next two words as a point.
    pub fn point(&mut self) -> Option<Point> {
        let x = self.float()?;
        let y = self.float()?;
        Some(Point { x, y })
    }

    // The next eight words as a curve.
    pub fn curve(&mut self) -> Option<Curve> {
        let start = self.point()?;
        let cp1 = self.point()?;
        let cp2 = self.point()?;
        let end = self.point()?;
        Some(Curve {
            start,
            cp1,
            cp2,
            end,
        })
    }

    // As many floats as the slice has places.
    pub fn floats(&mut self, out: &mut [f64]) -> Option<()> {
        for place in out.iter_mut() {
            *place = self.float()?;
        }
        Some(())
    }

    // How many floats the rest of the line has room for.
    pub fn floats_left(&self) -> usize {
        match self.rest {
            Some(rest) => rest.len().saturating_add(1) / FLOAT,
            None => 0,
        }
    }

    // All that is left, as one word.
    pub fn text(&self) -> Option<&'a [u8]> {
        self.rest
    }

    // The line ends here.
    pub fn end(&self) -> Option<()> {
        match self.rest {
            Some(_) => None,
            None => Some(()),
        }
    }
}
